//! The cases: lines of calls, and beside each what comes of it.
use crate::lines::wrong_lines;
use std::test::Fail;

/// `make` makes a volume of 300 blocks, or of four, and each call that changes one makes the next by number. The open group has accepted
/// `write`s: where they begin, how many bytes there are and what each is. `placed` and `written` have a volume, the group that it was stored
/// in or a later one, and the group that writes; `gone` tells how many blocks gave way then. `resize` has a volume be one of blocks of 1 KiB.
/// `bytes` has a volume, the group that it is read in, where the bytes begin, and how many they are. A `lossy` store loses two disks as each is
/// flushed by `flush`.
const VOLUMES: &[(&str, &str)] = &[
    // The block 0, and the first half of the block 200: two blocks gave way, the block of the dnodes and that of the object set. The
    // volume before reads as zeros.
    (
        "make 300; write 0 512 5: v; write 102400 256 6: v; placed 0 1 2: v; gone;
            bytes 1 2 256 768; bytes 1 2 101888 768; bytes 0 1 256 768",
        "2; 05*256 00*512; 00*512 06*256; 00*768",
    ),
    // The same writes by one call.
    (
        "make 300; write 0 512 5: v; write 102400 256 6: v; written 0 1 2: v; gone; bytes 1 2 256 768",
        "2; 05*256 00*512",
    ),
    // A volume whose blocks have another size than the set's is refused.
    (
        "make 300; write 0 512 5: v; write 102400 256 6: v; placed 0 1 2: v; resize 1; bytes 2 2 0 768",
        "BadPointer",
    ),
    // A lost block can't be read, a write of a part of it is refused, and one of all its bytes makes it readable.
    (
        "lossy; make 4; write 0 512 5: v; written 0 2 2: v;
            flush 0; flush 1; flush 2; flush 3; flush 4; flush 5; bytes 1 4 0 512;
            write 0 256 6: v; written 1 2 3: v; write 0 512 7: v; written 1 2 4: v; bytes 2 4 0 512",
        "DiskFault; DiskFault; 07*512",
    ),
];

/// The open group has accepted what `create`, `write`, `snapshot` and `destroy` ask for: sizes are in bytes, and volumes have blocks of 512.
/// `first` plans the first root of a pool after it, and `next` the one behind a root, by the directory under that: each is the next root by
/// number. `object`, `size`, `there` and `same` tell what a root has of a name, `read` bytes of a volume, and `birth` its group. `count` tells
/// how many names came with it, and `left` whether the blocks that a root replaced are those that the root before leads to and it doesn't, each
/// once. `data` tells how many of these are data that was born in a group. `reach` has how many blocks may be read, and tells
/// how many of those that the root leads to have one copy, two and three.
const ROOTS: &[(&str, &str)] = &[
    // A record that is made by hand is found, and no other.
    (
        "record 5 1 0 0 0 9: volume; names 1 2 5: v; root;
            object 0: v; same 0: v; size 0: v; there 0: w",
        "5; true; 1048576; none",
    ),
    // A root without volumes.
    ("first; birth 0; there 0: v", "1; none"),
    // A volume under the root that it is made in, and under the one after a write, also past its end; and under the root before.
    (
        "first; create 2048: v; next 0; write 500 600 7: v; next 1;
            read 1 256 1536: v; read 2 256 1536: v; read 2 513 1536: v; read 0 256 1536: v; birth 2",
        "00*1536; 00*244 07*600 00*692; BadPointer; BadPointer; 3",
    ),
    // The first root has two volumes that its group made, and not the one that it wrote to.
    (
        "create 2048: v; create 4096: w; write 500 600 7: x; first;
            size 0: v; size 0: w; size 0: x; read 0 256 1536: v; birth 0",
        "2048; 4096; none; 00*1536; 1",
    ),
    // The volume is written, its snapshot taken, and it is written again. The snapshot is destroyed, and then the volume, each in a
    // group that writes to it too.
    (
        "create 2048: v; create 4096: w; write 500 600 7: x; first; write 500 600 7: v; next 0;
            snapshot: v a; next 1; write 500 600 7: v; next 2;
            write 500 600 7: v; destroy: v@a; next 3;
            there 3: v@a; there 4: v@a; read 4 256 1536: v; left 3 4;
            write 500 600 7: v; destroy: v; next 4; there 5: v; there 5: w; left 4 5; count 5",
        "there; none; 00*244 07*600 00*692; true; none; there; true; 1",
    ),
    // A volume with a snapshot is kept, and a name that isn't there is passed over.
    (
        "create 2048: v; create 4096: w; write 500 600 7: x; first; write 500 600 7: v; next 0;
            snapshot: v a; next 1; write 500 600 7: v; next 2;
            write 500 600 7: v; destroy: v; next 3; write 500 600 7: v; destroy: x; next 3; count 4",
        "BadPointer; 3",
    ),
    // A volume's first block is written in group 2, a snapshot taken, its second written in group 4 and another snapshot taken, and then
    // all is written again. The second snapshot is destroyed, and then the first: each gives back one block of data.
    (
        "create 2048: v; create 4096: w; write 500 600 7: x; first; write 0 512 9: v; next 0;
            snapshot: v a; next 1; write 512 512 9: v; next 2; snapshot: v b; next 3;
            write 0 2048 9: v; next 4; write 500 600 7: v; destroy: v@b; next 5;
            write 500 600 7: v; destroy: v@a; next 6; data 6 2; data 6 4; data 7 2; data 7 4",
        "0; 1; 1; 0",
    ),
    // Twelve blocks have three copies: the root; the one block of its set's dnodes; and a block each of the four tables, the two
    // records, the two dead lists, and the space maps of the two metaslabs where the volumes lie: all else has one copy, or two in two
    // metaslabs. Of `w` there are two blocks, the object set and its dnodes, and of `v` besides an indirect block and the three of
    // data. Seven of all are read: the root, its dnodes, two of `w` and three of `v`. One less are too few.
    (
        "create 2048: v; create 4096: w; write 500 600 7: x; first; write 500 600 7: v; next 0;
            reach 1 7; reach 1 6; write 500 600 7: v; next 1; left 1 2",
        "3 5 12, 0 left; BadPointer; true",
    ),
    // One name of a volume. Four blocks have three copies: the root, the block of its set's dnodes, the directory's and the record's. Two have
    // two: the volume's object set and its dnodes. Four of the six are read. Two names of a volume are refused.
    (
        "record 5 1 0 0 0 9: volume; names 1 2 5: v; root; reach 0 100",
        "0 2 4, 96 left",
    ),
    (
        "record 5 1 0 0 0 9: volume; names 1 2 5 5: v w; root; reach 0 100",
        "BadPointer",
    ),
];

/// `rows` tells the directory that came with a root, or that `under` has read. `read_in` and `object_in` go by it, as `plan` in place of `next`.
/// `kept` has how many blocks may be read, and tells the contents, `stale` the stale spans under a root, of which `mark` brings one. `open`
/// has the disks read without the store, of which those marked `x` are out, and `open_maps` tells how many space maps and stale spans are found
/// so, or the number of the refusal. `refused` tells whether a root is refused before its set is walked. `record`, `space`, `maps`, `spans` and
/// `names` put objects into a set by hand, each by its number and the group that makes it, and `root` plans the root of that set.
const KEPT: &[(&str, &str)] = &[
    // The first root and the next came with the directories that are read under them. A volume takes two numbers, of its record and its
    // dead list, and behind `v` and `w` the space maps of two metaslabs have 9 and 10.
    (
        "create 2048: v; create 4096: w; write 500 600 7: x; first; rows 0; create 2048: u; next 0;
            rows 1; under 0; rows 0; under 1; rows 1",
        "v 5 w 7; u 11 v 5 w 7; v 5 w 7; u 11 v 5 w 7",
    ),
    // In the place of the root behind the first one comes one that writes.
    (
        "create 2048: v; create 4096: w; write 500 600 7: x; first; create 2048: u; next 0;
            write 500 600 7: v; next 0; read_in 2 256 1536: v; read_in 2 513 1536: v;
            read_in 2 256 1536: x; object_in 2: w; object_in 2: x",
        "00*244 07*600 00*692; BadPointer; BadPointer; 7; none",
    ),
    // The rows of the directory, the shape of `v` and none of `u`, the 12 blocks of the root and its meta object set, and what two space
    // maps leave free: the volumes' blocks lie in two metaslabs.
    (
        "create 2048: v; create 4096: w; write 500 600 7: x; first; write 500 600 7: v; next 0;
            kept 1 2: v u",
        "v 5 w 7, volume v of 2048/512 made in 1, no u, 12 blocks, 2 maps",
    ),
    // No stale span under a root, one under that of the next group, which brings it, and the same after a group that brings none.
    (
        "create 2048: v; create 4096: w; write 500 600 7: x; first;
            write 500 600 7: v; mark 0 101 2 3; write 500 600 7: v; next 1; stale 0 2; stale 1 2; stale 2 2",
        "none; 101 2 3; 101 2 3",
    ),
    // Read of the disks: all are there, one is out, two are, and one has no mark.
    (
        "create 2048: v; create 4096: w; write 500 600 7: x; first; write 500 600 7: v; next 0;
            open 1 2: --- v u",
        "v 5 w 7, volume v of 2048/512 made in 1, no u, 12 blocks, 2 maps",
    ),
    (
        "create 2048: v; create 4096: w; write 500 600 7: x; first; write 500 600 7: v; next 0;
            open 1 2: -x- v u",
        "v 5 w 7, volume v of 2048/512 made in 1, no u, 12 blocks, 2 maps",
    ),
    (
        "create 2048: v; create 4096: w; write 500 600 7: x; first; write 500 600 7: v; next 0;
            open 1 2: xx- v u",
        "Unread(DiskFault)",
    ),
    (
        "create 2048: v; create 4096: w; write 500 600 7: x; first; write 500 600 7: v; next 0;
            open 1 2: -- v u",
        "Unread(BadConfig)",
    ),
    // A map of the metaslab, one of a greater metaslab, a map for a metaslab that isn't there, and no stale spans.
    (
        "space 5 1 4096 100; maps 4 2 0 0 5; spans 3 2 101 2 3; names 1 3; root; open_maps 0 16: ---",
        "1 maps, 1 spans",
    ),
    (
        "space 5 1 8192 4096; maps 4 2 0 0 5; spans 3 2 101 2 3; names 1 3; root; open_maps 0 16: ---",
        "27",
    ),
    (
        "space 5 1 4096 100; maps 4 2 0 99 5; spans 3 2 101 2 3; names 1 3; root; open_maps 0 16: ---",
        "20",
    ),
    (
        "space 5 1 4096 100; maps 4 2 0 0 5; spans 6 2 101 2 3; names 1 3; root; open_maps 0 16: ---",
        "20",
    ),
    // A snapshot before a volume fits; what is before is a row; what comes next names its snapshot; a snapshot counts its clones.
    (
        "record 5 1 7 0 0 6: volume; record 7 2 0 5 0 8: snapshot; names 1 3 5 7: v s; root; refused 0 64",
        "false",
    ),
    (
        "record 5 1 9 0 0 6: volume; record 7 2 0 5 0 8: snapshot; names 1 3 5 7: v s; root; refused 0 64",
        "true",
    ),
    (
        "record 5 1 7 0 0 6: volume; record 7 2 0 7 0 8: snapshot; names 1 3 5 7: v s; root; refused 0 64",
        "true",
    ),
    (
        "record 5 1 7 0 0 6: volume; record 7 2 0 5 1 8: snapshot; names 1 3 5 7: v s; root; refused 0 64",
        "true",
    ),
];

/// `many` has a group make so many volumes of so many bytes, from `ab` on, and `reads` tells how many reads the disks have counted.
const READS: &[(&str, &str)] = &[
    // Each block takes two reads of disks, but the record, of one sector, one. Among three volumes they are: the root; the block of
    // the set's dnodes twice, and behind it the record; the volume's object set, and the block of its dnodes twice. Among 20 or more an
    // indirect block lies above the set's dnodes. A directory of 70 names that is read first takes the root again, its dnode's way
    // of two blocks, and for each of its own two blocks that way, an indirect block and the block.
    (
        "many 3 2048; first; read_in 0 256 1536: ad; reads",
        "00*1536; 13",
    ),
    (
        "many 20 2048; first; read_in 0 256 1536: au; reads",
        "00*1536; 17",
    ),
    (
        "many 70 2048; first; read_in 0 256 1536: cs; reads",
        "00*1536; 17",
    ),
    (
        "many 70 2048; first; under 0; read_in 0 256 1536: cs; reads",
        "00*1536; 39",
    ),
    // Of the reads of a plan 22 are for the space maps of the two metaslabs where the volumes lie: for the maps' table, and for each map, its
    // dnode, and the dnode again on the way to its block, and that block; and for each map the dnode once more as it is changed. Each of
    // these eleven blocks takes two. Among 20 or more volumes an indirect block lies above the set's dnodes, on each way to one of them:
    // five of a volume, and eight of maps. Nothing else grows.
    (
        "many 3 2048; first; write 500 600 7: ad; plan 0; birth 1; reads",
        "2; 47",
    ),
    (
        "many 20 2048; first; write 500 600 7: au; plan 0; birth 1; reads",
        "2; 73",
    ),
    (
        "many 70 2048; first; write 500 600 7: cs; plan 0; birth 1; reads",
        "2; 73",
    ),
];

/// Volumes, and roots after groups.
#[test]
fn volumes_and_roots(rt: HostRuntime) -> Result<(), Fail> {
    let mut wrong = wrong_lines(&rt, rt.alloc(), VOLUMES)?;
    wrong.push_str(wrong_lines(&rt, rt.alloc(), ROOTS)?.as_str())?;
    assert!(rt; wrong.is_empty(), "{wrong}");
    Ok(())
}

/// What is kept of roots, and how many reads it spares.
#[test]
fn what_is_kept_and_read_again(rt: HostRuntime) -> Result<(), Fail> {
    let mut wrong = wrong_lines(&rt, rt.alloc(), KEPT)?;
    wrong.push_str(wrong_lines(&rt, rt.alloc(), READS)?.as_str())?;
    assert!(rt; wrong.is_empty(), "{wrong}");
    Ok(())
}
