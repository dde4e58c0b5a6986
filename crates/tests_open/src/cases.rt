//! Lines of calls on pools in memory, and beside each what comes of them. Line breaks and further spaces don't count.
//!
//! Each line begins with no disks. `blank` adds so many of zeros at hand, and `small` one that is too small for a pool. `save` puts those
//! at hand aside, and `load` adds copies of some of them, by their numbers from 0 on, also in the lines that follow. `drop` takes one
//! away from those at hand; `bare` takes all slots from some, and `enlarge` gives their labels the configuration of disks with one sector
//! more. `guid` tells of each disk the last byte of the guid that its first label has, and `claim` that of the claim of group 3 in the
//! label of that number.
//!
//! `make` makes a pool of that guid on the last three disks at hand, and `open` opens one, so many groups back, on all of them: each
//! tells its group and its claim, or why it is refused, and then the disks are at hand again. Behind a colon stand the reads, writes
//! or flushes that fail, of each disk that is handed in. `find` only finds a pool. Of one that is open `named` tells its name and guid,
//! `fill` has group 4 make a volume of two blocks, and group 5 fill the second one with 170; `write` has the open group accept, as the
//! writer's item of that number, that byte all over the second block, and `sync` commits it: the group, and the first byte of each block of
//! the volume, which `read` tells too. `out` tells which disks are out, `config` the guids of the pool's configuration and their sum.
//!
//! `close` drops the pool, `back` does so where it was opened, and its disks come back in the order handed in. `export` exports it, unless
//! that is refused. `rooted` drops it, and tells the guids that the configuration below its root has.

/// Pools that are made and opened again.
pub(crate) const OPENED: &[(&str, &str)] = &[
    // A pool outlives its program, and does so again.
    (
        "blank 3; make 1; fill; close; save; load 0 1 2; open 0; read; write 1 187; sync; close; open 0; read;
            write 1 187; sync; close; open 0",
        "group 3 claim 1; (Some(5), Some((0, 170)));
            group 5 claim 2; Some((0, 170)); (Some(6), Some((0, 187)));
            group 6 claim 3; Some((0, 187)); (Some(7), Some((0, 187))); group 7 claim 4",
    ),
    // Opened one group back, so that the volume is there without what group 5 wrote; and two back, before there was a volume.
    (
        "load 0 1 2; open 1; read; write 1 187; sync",
        "group 4 claim 2; Some((0, 0)); (Some(5), Some((0, 187)))",
    ),
    (
        "load 0 1 2; open 2; read; write 1 187; sync",
        "group 3 claim 2; None; (Some(4), None)",
    ),
    // A disk may be missing, but not two of them.
    (
        "blank 3; make 1; close; save; load 0 1 2; open 0",
        "group 3 claim 1; group 3 claim 2",
    ),
    ("load 1 2; open 0", "group 3 claim 2"),
    ("load 1; open 0", "not found: TooManyMissing"),
    // Blank disks, a new pool gone back, whose disks come back, and a disk of another pool among the disks.
    ("blank 3; open 0", "not found: BadLabel(Tail)"),
    (
        "load 0 1 2; open 1; open 0",
        "not found: NoUberblock; group 3 claim 2",
    ),
    (
        "load 0 1 2; blank 3; make 2; close; open 0",
        "group 3 claim 1; not found: PoolMismatch",
    ),
    // No other pool is made on the disks of one, which come back, nor one where a disk is missing.
    ("load 0 1 2; make 2; open 0", "BadConfig; group 3 claim 2"),
    ("blank 2; make 1", "BadConfig"),
];

/// What a pool keeps as its configuration, and what its root has: once it is made, and once it is opened and has committed a group.
pub(crate) const ROOTED: &[(&str, &str)] = &[
    (
        "blank 3; make 2; config; rooted",
        "group 3 claim 1; Some((200, [201, 202, 203], 806)); Some((200, [201, 202, 203], 806))",
    ),
    (
        "blank 3; make 2; close; open 0; sync; config; rooted",
        "group 3 claim 1; group 3 claim 2; (Some(4), None);
            Some((200, [201, 202, 203], 806)); Some((200, [201, 202, 203], 806))",
    ),
];

/// Pools that are exported, and opened again.
pub(crate) const EXPORTED: &[(&str, &str)] = &[
    (
        "blank 3; make 1; fill; export; guid; open 0; read",
        "group 3 claim 1; (Some(5), Some((0, 170)));
            exported; [Some(101), Some(102), Some(103)]; group 5 claim 2; Some((0, 170))",
    ),
    // While something is accepted and not committed the pool isn't exported, and goes on.
    (
        "blank 3; make 1; fill; write 3 187; export; sync; export; open 0; read",
        "group 3 claim 1; (Some(5), Some((0, 170)));
            refused: NotNow; (Some(6), Some((0, 187))); exported; group 6 claim 2; Some((0, 187))",
    ),
    // One disk fails at a write or a flush of the export, each in turn: an open makes eight writes and four flushes before. The pool
    // opens behind it on the disks that are left.
    (
        "blank 3; make 1; fill; close; save; load 2 1 0; open 0: - write=8 -; export; drop 1; open 0",
        "group 3 claim 1; (Some(5), Some((0, 170))); group 5 claim 2; exported; group 5 claim 3",
    ),
    (
        "load 2 1 0; open 0: - write=9 -; export; drop 1; open 0",
        "group 5 claim 2; exported; group 5 claim 3",
    ),
    (
        "load 2 1 0; open 0: - write=10 -; export; drop 1; open 0",
        "group 5 claim 2; exported; group 5 claim 3",
    ),
    (
        "load 2 1 0; open 0: - write=11 -; export; drop 1; open 0",
        "group 5 claim 2; exported; group 5 claim 3",
    ),
    (
        "load 2 1 0; open 0: - flush=4 -; export; drop 1; open 0",
        "group 5 claim 2; exported; group 5 claim 3",
    ),
    (
        "load 2 1 0; open 0: - flush=5 -; export; drop 1; open 0",
        "group 5 claim 2; exported; group 5 claim 3",
    ),
    // Two disks fail, at the last flush of the export. The pool opens again from all of them.
    (
        "load 2 1 0; open 0: - flush=5 flush=5; export; open 0",
        "group 5 claim 2; stopped: Suspended; group 5 claim 3",
    ),
];

/// Pools that are opened while disks fail.
pub(crate) const FAILING: &[(&str, &str)] = &[
    // The first write to the second disk fails, or its first flush. It goes out, and the pool is claimed above the claim that failed.
    (
        "blank 3; make 1; fill; close; save; load 2 1 0; open 0: - write=0 -; out; read; close; drop 1;
            open 0",
        "group 3 claim 1; (Some(5), Some((0, 170)));
            group 5 claim 3; [false, true, false]; Some((0, 170)); group 5 claim 4",
    ),
    (
        "load 2 1 0; open 0: - flush=0 -; out; read; close; drop 1; open 0",
        "group 5 claim 3; [false, true, false]; Some((0, 170)); group 5 claim 4",
    ),
    // Two disks fail: at their writes, or one as it is flushed behind the claim that failed on the other. All come back.
    (
        "load 2 1 0; open 0: - write=0 write=0; guid",
        "refused: TooManyMissing; [Some(103), Some(102), Some(101)]",
    ),
    (
        "load 2 1 0; open 0: - flush=0 write=0; guid",
        "refused: TooManyMissing; [Some(103), Some(102), Some(101)]",
    ),
];

/// Pools that are found on disks that are handed in, in any order.
pub(crate) const FOUND: &[(&str, &str)] = &[
    // In another order, without one, and with one that can't be read.
    (
        "blank 3; make 1; close; save; load 2 0 1; find",
        "group 3 claim 1; [Some(101), Some(102), Some(103)] 0 absent, whole: true",
    ),
    (
        "load 2 1; find",
        "[None, Some(102), Some(103)] 1 absent, whole: true",
    ),
    (
        "load 2 1 0; find: - read=2 -",
        "[Some(101), None, Some(103)] 1 absent, whole: true",
    ),
    // One disk twice, and two disks of three left out.
    ("load 2 0 0; find", "PoolMismatch"),
    ("load 2; find", "TooManyMissing"),
    // All disks that are handed in come back, in that order, one that is no child's too; and the pool has its name and guid.
    (
        "load 2; small; load 0 1; open 0; named; back; guid",
        "group 3 claim 2; pool 1; [Some(103), None, Some(101), Some(102)]",
    ),
    (
        "load 2; small; load 0 1; open 1; guid",
        "not found: NoUberblock; [Some(103), None, Some(101), Some(102)]",
    ),
];

/// Pools whose disks lost their slots, or have labels of another configuration.
pub(crate) const SPOILT: &[(&str, &str)] = &[
    // A disk without slots gets the claimed one in all four labels, as the others do. Without any slot no pool is opened.
    (
        "blank 3; make 1; close; save; load 0 1 2; bare 0; open 0; close; drop 2; drop 1;
            claim 0; claim 1; claim 2; claim 3",
        "group 3 claim 1; group 3 claim 2; [Some(2)]; [Some(2)]; [Some(2)]; [Some(2)]",
    ),
    ("load 0 1 2; bare 0 1 2; open 0", "not found: NoUberblock"),
    // A disk of another configuration is opened with the others, whose configuration it takes over: so it is opened again without one of
    // them. Where all have that configuration no pool is opened.
    (
        "load 0 1 2; enlarge 0; open 0; close; drop 2; open 0",
        "group 3 claim 2; group 3 claim 3",
    ),
    ("load 0 1 2; enlarge 0 1 2; open 0", "not found: BadConfig"),
];
