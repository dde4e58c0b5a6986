//! Lines of calls on stores of blocks, and what comes of them.
//!
//! `small` makes a store of one vdev of three small disks with one parity, whose 21504 sectors are five
//! metaslabs of 4096, the last one its meta region; with a number, the second disk fails that write.
//! `vdevs` has how many vdevs of two disks with one parity there are, the shift of their metaslabs and
//! the sizes of all disks. `over` makes a small store without blocks over the disks of the store, and
//! `opened` opens it over their array, with a mark for each disk that is out. `beside` makes a small
//! store beside the one there is, whose maps `load` loads. `disks` takes the store apart.
//!
//! `plan` has the seed of a block's bytes, its sectors, its copies and its group, and blocks are named by
//! their number in the order of their plans. `read` has a block and the disks that are missing; names
//! such as `wide` stand for a read by another pointer. `missed` and `back` have a disk and the first and last group that it missed, `leave` has
//! one that goes out, and `look` one whose first four bytes are read. `take` has the blocks that are taken in, `release` a block and a group, and `maps` the blocks that are given back: it gives by how many bytes the maps
//! grow.

/// Blocks that are written and read, disks that fail, and what a store refuses.
pub(crate) const STORED: &[(&str, &str)] = &[
    // Blocks are read with a disk missing, and not with two.
    (
        "small; drop 7; plan 3 1 1 7; plan 5 7 2 7; plan 9 256 3 7; write; finish; read 0;
            read 1; read 2; read 0 0; read 1 0; read 2 0; read 0 1; read 1 1; read 2 1; read 0 2;
            read 1 2; read 2 2; read 2 0 1; read 2 0 2; read 2 1 2",
        "new; ok; ok; ok; ok; 0 failed; ok; right; right; right; right; right; right; right;
            right; right; right; right; right; DiskFault; DiskFault; DiskFault",
    ),
    // A disk that missed a group isn't read for a block of that group, and is for one of another.
    (
        "small; drop 7; plan 1 12 1 7; write; finish; drop 8; plan 2 12 1 8; write; finish;
            missed 1 8 8; read 0; read 0 0; read 1; read 1 1; read 1 0; missed 1 9 9; read 1 0",
        "new; ok; ok; 0 failed; ok; ok; ok; 0 failed; ok; marked; right; right; right; right; DiskFault; marked;
            right",
    ),
    // A disk goes out behind a group, misses the next one, and comes back: it is read for all others.
    (
        "small; drop 7; plan 1 12 1 7; write; finish; enter 8; leave 1; out 1; since 1; drop 8; plan 2 12 1 8; write;
            finish; enter 9; read 0 0; read 1 0; look 1; back 1 8 8; out 1; since 1; read 0 0; read 1; read 1 0;
            drop 9; plan 3 12 1 9; write; finish; read 2 0; read 2 2; read 1 2; leave 3; look 0",
        "new; ok; ok; 0 failed; ok; entered; done; true; Some(8); ok; ok; 0 failed;
            ok; entered; DiskFault; DiskFault; 00000000; done; false; None; right; right; DiskFault;
            ok; ok; 0 failed; ok; right; right; DiskFault; no disk; 00000000",
    ),
    // A plan is dropped between two that are finished: what is stored stays, and the place is used again.
    (
        "small; drop 7; plan 1 12 1 7; write; finish; drop 7; plan 2 12 1 7; write; read 0;
            drop 7; plan 3 12 1 7; write; finish; same_place 1 2; same_place 0 2; read 0; read 2",
        "new; ok; ok; 0 failed; ok; ok; ok; 0 failed; right; ok; ok; 0 failed; ok; true;
            false; right; right",
    ),
    // A block is read by other pointers, or another one is asked.
    (
        "small; drop 7; plan 1 12 1 7; write; finish; earlier 0; larger 0; higher 0;
            other_vdev 0; behind_all 0; across 0; in_meta 0; wide 0; digest 0; read 0",
        "new; ok; ok; 0 failed; ok; BadPointer; BadPointer; BadPointer; BadPointer;
            BadPointer; BadPointer; BadPointer; BadPointer; BadDigest; right",
    ),
    // The second write of a disk fails: the disk is out.
    (
        "small 1; drop 7; plan 1 256 1 7; write; finish; out 1; drop 7; plan 2 256 1 7; due;
            write; finish; out 0; out 1; out 2; since 0; since 1; drop 7; plan 3 256 1 7; due;
            write; finish; read 0; read 1; read 2; flush 0",
        "new; ok; ok; 0 failed; ok; false; ok; ok; 3 due; 1 failed; ok; false; true; false;
            None; Some(7); ok; ok; 2 due; 0 failed; ok; right; right; right; ok",
    ),
    // A copy of 128 KiB takes up 384 sectors here, so ten have room in each of the five metaslabs: in the
    // meta region three of three blocks, and one more, and before it two of twenty blocks. What is full
    // refuses, and keeps its blocks.
    (
        "small; drop 7; plan 0 256 3 7; write; plan 1 256 3 7; write; plan 2 256 3 7; write;
            plan 3 256 2 7; write; plan 4 256 2 7; write; plan 5 256 2 7; write; plan 6 256 2 7;
            write; plan 7 256 2 7; write; plan 8 256 2 7; write; plan 9 256 2 7; write;
            plan 10 256 2 7; write; plan 11 256 2 7; write; plan 12 256 2 7; write;
            plan 13 256 2 7; write; plan 14 256 2 7; write; plan 15 256 2 7; write;
            plan 16 256 2 7; write; plan 17 256 2 7; write; plan 18 256 2 7; write;
            plan 19 256 2 7; write; plan 20 256 2 7; write; plan 21 256 2 7; write;
            plan 22 256 2 7; write; plan 23 256 3 7; plan 24 256 2 7; finish; read 0; read 1;
            read 2; read 3; read 4; read 5; read 6; read 7; read 8; read 9; read 10; read 11;
            read 12; read 13; read 14; read 15; read 16; read 17; read 18; read 19; read 20;
            read 21; read 22",
        "new; ok; ok; 0 failed; ok; 0 failed; ok; 0 failed; ok; 0 failed; ok; 0 failed; ok;
            0 failed; ok; 0 failed; ok; 0 failed; ok; 0 failed; ok; 0 failed; ok; 0 failed; ok;
            0 failed; ok; 0 failed; ok; 0 failed; ok; 0 failed; ok; 0 failed; ok; 0 failed; ok;
            0 failed; ok; 0 failed; ok; 0 failed; ok; 0 failed; ok; 0 failed; ok; 0 failed;
            NoSpace; NoSpace; ok; right; right; right; right; right; right; right; right; right;
            right; right; right; right; right; right; right; right; right; right; right; right;
            right; right",
    ),
    // The two copies of a block are on two vdevs, and it is read where one of them has lost its disks.
    (
        "vdevs 2 12 8388608 8388608 8388608 8388608; drop 7; plan 1 256 2 7; write; finish;
            two_vdevs 0; read 0 0 1; read 0 2 3; shape; disks",
        "new; ok; ok; 0 failed; ok; true; right; right;
            2 vdevs 4 disks 7168 sectors 3 metaslabs; 4 disks",
    ),
    // A vdev has the sectors of its smallest disk: 0x3ffff bytes more are none.
    (
        "vdevs 1 12 8650752 8650751; shape; disks",
        "new; 1 vdevs 2 disks 7168 sectors 3 metaslabs; 2 disks",
    ),
    // What is not within the limits is refused: no vdev, too few disks, too many, one that is too small,
    // and metaslabs that are too small, too large or too few.
    ("vdevs 0 12", "BadConfig"),
    ("vdevs 1 12 8388608", "BadConfig"),
    ("vdevs 1 12 8388608 8388608 8388608", "BadConfig"),
    ("vdevs 1 12 8388607 8388607", "BadConfig"),
    ("vdevs 1 11 8388608 8388608", "BadConfig"),
    ("vdevs 1 13 8388608 8388608", "BadConfig"),
    ("vdevs 1 20 8388608 8388608", "BadConfig"),
];

/// Plans that are written, and the same or another one again, whose parity is made by so many workers, or with none on
/// the test's thread, and then by one worker more; how many extents the workers pass, and what comes of the second.
pub(crate) const MADE: &[(&str, usize, u64, &str)] = &[
    (ONE_PARITY, 2, 6, "0 failed; 0 differ"),
    // Both rows of an extent are one piece of work.
    (TWO_PARITIES, 0, 0, "0 failed; 0 differ"),
    (TWO_PARITIES, 1, 6, "0 failed; 0 differ"),
    (TWO_PARITIES, 2, 6, "0 failed; 0 differ"),
    (TWO_PARITIES, 3, 6, "0 failed; 0 differ"),
    // Another block of one sector differs in its data, and in both parities.
    (
        "double; drop 7; plan 3 1 1 7; write; double; drop 7; plan 4 1 1 7",
        2,
        1,
        "0 failed; 3 differ",
    ),
];

/// Blocks of one, two and three copies, which are six extents, twice.
const ONE_PARITY: &str = "small; drop 7; plan 3 1 1 7; plan 5 7 2 7; plan 9 256 3 7; write;
    beside; drop 7; plan 3 1 1 7; plan 5 7 2 7; plan 9 256 3 7";

/// The same with two parities.
const TWO_PARITIES: &str = "double; drop 7; plan 3 1 1 7; plan 5 7 2 7; plan 9 256 3 7; write;
    double; drop 7; plan 3 1 1 7; plan 5 7 2 7; plan 9 256 3 7";

/// Stores over disks that have blocks already.
pub(crate) const OPENED: &[(&str, &str)] = &[
    // What is taken in is kept: a block that is written later lies elsewhere.
    (
        "small; begin 4; plan 3 12 2 4; write; finish; begin 5; plan 5 12 2 5; write; finish;
            over; take 0 1; begin 6; plan 9 12 2 6; write; finish; read 0; read 1; read 2",
        "new; ok; ok; 0 failed; ok; ok; ok; 0 failed; ok; new; ok; ok; ok; 0 failed; ok;
            right; right; right",
    ),
    // It is written over what is not taken in: the second block, and the first one.
    (
        "small; begin 4; plan 3 12 2 4; write; finish; begin 5; plan 5 12 2 5; write; finish;
            over; take 0; begin 6; plan 9 12 2 6; write; finish; read 0; read 1; read 2",
        "new; ok; ok; 0 failed; ok; ok; ok; 0 failed; ok; new; ok; ok; ok; 0 failed; ok;
            right; BadDigest; right",
    ),
    (
        "small; begin 4; plan 3 12 2 4; write; finish; begin 5; plan 5 12 2 5; write; finish;
            over; take; begin 6; plan 9 12 2 6; write; finish; read 0; read 1; read 2",
        "new; ok; ok; 0 failed; ok; ok; ok; 0 failed; ok; new; ok; ok; ok; 0 failed; ok;
            BadDigest; right; right",
    ),
    // What is not free is refused: a block that was taken in, one that comes twice, and one behind the
    // disks' ends.
    (
        "small; begin 4; plan 3 12 2 4; write; finish; begin 5; plan 5 12 2 5; write; finish;
            over; take 0; take 0; take 1 1; take_far 0",
        "new; ok; ok; 0 failed; ok; ok; ok; 0 failed; ok; new; ok; BadPointer; BadPointer;
            BadPointer",
    ),
    // An array is opened over which blocks lie: they are read before they are taken in, and then.
    (
        "small; begin 4; plan 3 12 2 4; write; finish; begin 5; plan 5 12 2 5; write; finish;
            opened 0 0 0; read 0; read 1; take 0 1; begin 6; plan 9 12 2 6; write; finish;
            read 0; read 1; read 2",
        "new; ok; ok; 0 failed; ok; ok; ok; 0 failed; ok; new; right; right; ok; ok; ok;
            0 failed; ok; right; right; right",
    ),
    // The same with a disk that is out.
    (
        "small; begin 4; plan 3 12 2 4; write; finish; begin 5; plan 5 12 2 5; write; finish;
            opened 0 1 0; read 0; read 1; take 0 1; begin 6; plan 9 12 2 6; write; finish;
            read 0; read 1; read 2",
        "new; ok; ok; 0 failed; ok; ok; ok; 0 failed; ok; new; right; right; ok; ok; ok;
            0 failed; ok; right; right; right",
    ),
    // It is not opened with marks for two disks, and all three come back.
    (
        "small; begin 4; plan 3 12 2 4; write; finish; begin 5; plan 5 12 2 5; write; finish;
            opened 0 0",
        "new; ok; ok; 0 failed; ok; ok; ok; 0 failed; ok; BadConfig 3 disks",
    ),
    // A store tells the sizes of its disks.
    (
        "small; begin 4; plan 3 12 2 4; write; finish; begin 5; plan 5 12 2 5; write; finish;
            over; size 2; size 3",
        "new; ok; ok; 0 failed; ok; ok; ok; 0 failed; ok; new; 8388608 bytes; none",
    ),
];

/// Blocks that are given back.
pub(crate) const RELEASED: &[(&str, &str)] = &[
    // A place that group 5 gives back is used by group 8, and not by the groups 6 and 7.
    (
        "small; begin 4; plan 3 12 2 4; write; finish; begin 5; release 0 5; finish; begin 6;
            plan 3 12 2 6; write; finish; same_place 0 1; begin 7; plan 3 12 2 7; write; finish;
            same_place 0 2; begin 8; plan 3 12 2 8; write; finish; same_place 0 3",
        "new; ok; ok; 0 failed; ok; ok; ok; ok; ok; ok; 0 failed; ok; false; ok; ok; 0 failed;
            ok; false; ok; ok; 0 failed; ok; true",
    ),
    // A block is released by a plan, not again by that plan, by one that follows where it is dropped, and
    // not by a later group.
    (
        "small; begin 4; plan 3 12 2 4; write; finish; begin 5; release 0 5; release 0 5;
            drop 5; release 0 5; finish; begin 6; release 0 6",
        "new; ok; ok; 0 failed; ok; ok; ok; BadPointer; ok; ok; ok; ok; BadPointer",
    ),
];

/// The space maps of a store.
pub(crate) const MAPS: &[(&str, &str)] = &[
    // A plan adds an entry of eight bytes to two maps, one for each copy, and nothing once it is
    // finished; giving the block back adds as many. It can't be given back twice in the two metaslabs.
    // Another store that has no block differs there: it loads all maps, has the same then, and refuses
    // the two as they are loaded again; and its maps get nothing.
    (
        "small; maps; begin 4; plan 3 12 2 4; maps; write; finish; maps; maps 0; maps 0 0;
            beside; load; load; maps",
        "new; 0 bytes 0 refused; ok; ok; 16 bytes 0 refused; 0 failed; ok; 0 bytes 0 refused;
            16 bytes 0 refused; 0 bytes 2 refused; new; 2 differ 0 refused; 0 differ 2 refused;
            0 bytes 0 refused",
    ),
];
