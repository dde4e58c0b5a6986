//! Lines of calls, and what comes of them. A line goes on with the pool that the line before left.
//!
//! `three`, `five` and `both` make a pool: one vdev of three disks with one parity, one of five with two, or the first and the second,
//! whose disks are 3 to 7 then. Behind the name stand the sectors and the copies of each block that is written, and the vdev and first sector
//! of each copy come of it: where the store chose to place them. Before that, each byte of a disk is a5. `spoil` makes it so again on
//! these disks. `check` and `mend` have the disks that are missing. Of a check there come, for each copy of which something is found, its
//! vdev, first sector and sectors of data, and behind it columns with their disks. `disks` tells of each disk, in a letter, whether all
//! its bytes are as they were once the blocks were written (`w`), or spoilt (`s`), or neither (`o`).
//!
//! What is to come is counted by the layout in `docs/FORMATS.md`. A block of s sectors that begins at sector b takes s, and those of its
//! parities for each row, from b on. Its column k begins at sector b + k, and sector t lies on child t modulo the children; so column k
//! lies on child (b + k) modulo the children, and there are as many columns as children, or as sectors where these are fewer. A copy can
//! be read where no more of its columns are missing, failing or spoilt than there are parities. Where one of a block's copies can be,
//! just the spoilt columns are wrong, and else each that is read.

/// Blocks of three disks. Those of one sector have two columns: at 0 and 16386 on the disks 0 and 1, at 16384 on 1 and 2, at 16388 on
/// 2 and 0. Those of 3 and of 8 sectors have three: at 2 and at 8 on the disks 2, 0 and 1.
pub(crate) const THREE: &[(&str, &str)] = &[
    (
        "three 1 1 3 1 8 1 1 3; disks; check; mend; disks",
        "0@0 0@2 0@8 0@16384 0@16386 0@16388; www; nothing; ok; www",
    ),
    // One disk is spoilt.
    (
        "spoil 0; disks; check; mend; disks; check",
        "so; sww; 0@0+1 0:0 Wrong 0@2+3 1:0 Wrong 0@8+8 1:0 Wrong 0@16386+1 0:0 Wrong
            0@16388+1 1:0 Wrong; ok; www; nothing",
    ),
    (
        "spoil 1; check; mend; disks; check",
        "so; 0@0+1 1:1 Wrong 0@2+3 2:1 Wrong 0@8+8 2:1 Wrong 0@16384+1 0:1 Wrong
            0@16386+1 1:1 Wrong; ok; www; nothing",
    ),
    (
        "spoil 2; check; mend; disks; check",
        "so; 0@2+3 0:2 Wrong 0@8+8 0:2 Wrong 0@16384+1 1:2 Wrong 0@16388+1 0:2 Wrong; ok; www;
            nothing",
    ),
    // One is missing, sound or spoilt: nothing is written on it.
    (
        "check 1; mend 1; disks; spoil 1; check 1; mend 1; disks; mend; disks",
        "0@0+1 1:1 Unreadable 0@2+3 2:1 Unreadable 0@8+8 2:1 Unreadable 0@16384+1 0:1 Unreadable
            0@16386+1 1:1 Unreadable; ok; www; so;
            0@0+1 1:1 Unreadable 0@2+3 2:1 Unreadable 0@8+8 2:1 Unreadable 0@16384+1 0:1 Unreadable
            0@16386+1 1:1 Unreadable; ok; wsw; ok; www",
    ),
    // One is spoilt, and another one is missing. The blocks of three columns can't be read, and the others are mended.
    (
        "spoil 0; check 2; mend 2; disks; check; mend; disks",
        "so; 0@0+1 0:0 Wrong 0@2+3 0:2 Unreadable 1:0 Wrong 2:1 Wrong
            0@8+8 0:2 Unreadable 1:0 Wrong 2:1 Wrong 0@16384+1 1:2 Unreadable 0@16386+1 0:0 Wrong
            0@16388+1 0:2 Unreadable 1:0 Wrong; ok; oww; 0@2+3 1:0 Wrong 0@8+8 1:0 Wrong; ok; www",
    ),
    // Two are spoilt. Of the block of three copies the first one has a column on disk 2, and the third one its parity.
    (
        "spoil 0 1; check; mend; disks; check",
        "so; 0@0+1 0:0 Wrong 1:1 Wrong 0@2+3 0:2 Wrong 1:0 Wrong 2:1 Wrong
            0@8+8 0:2 Wrong 1:0 Wrong 2:1 Wrong 0@16384+1 0:1 Wrong 0@16386+1 0:0 Wrong 1:1 Wrong
            0@16388+1 1:0 Wrong; ok; oow; 0@0+1 0:0 Wrong 1:1 Wrong
            0@2+3 0:2 Wrong 1:0 Wrong 2:1 Wrong 0@8+8 0:2 Wrong 1:0 Wrong 2:1 Wrong",
    ),
    // All are, and then all are missing.
    (
        "spoil 0 1 2; check; mend; disks; check 0 1 2; mend 0 1 2; disks",
        "so; 0@0+1 0:0 Wrong 1:1 Wrong 0@2+3 0:2 Wrong 1:0 Wrong 2:1 Wrong
            0@8+8 0:2 Wrong 1:0 Wrong 2:1 Wrong 0@16384+1 0:1 Wrong 1:2 Wrong
            0@16386+1 0:0 Wrong 1:1 Wrong 0@16388+1 0:2 Wrong 1:0 Wrong; ok; sss;
            0@0+1 0:0 Unreadable 1:1 Unreadable 0@2+3 0:2 Unreadable 1:0 Unreadable 2:1 Unreadable
            0@8+8 0:2 Unreadable 1:0 Unreadable 2:1 Unreadable 0@16384+1 0:1 Unreadable 1:2 Unreadable
            0@16386+1 0:0 Unreadable 1:1 Unreadable 0@16388+1 0:2 Unreadable 1:0 Unreadable; ok; sss",
    ),
    // A block of one copy, of which two columns are spoilt: nothing is written, and the disk that is sound stays so.
    (
        "three 3 1; spoil 0 1; check; mend; disks",
        "0@0; so; 0@0+3 0:0 Wrong 1:1 Wrong 2:2 Wrong; ok; ssw",
    ),
    // Blocks of 128 KiB take 384 sectors, so that the block of two sectors begins at 2304, byte 1,179,648, where bit 20 is set: its columns
    // 0 and 1 are exchanged. All begin at a multiple of three.
    (
        "three 256 1 256 1 256 1 256 1 256 1 256 1 2 1; spoil 0; check; mend; disks; check",
        "0@0 0@384 0@768 0@1152 0@1536 0@1920 0@2304; so; 0@0+256 0:0 Wrong 0@384+256 0:0 Wrong
            0@768+256 0:0 Wrong 0@1152+256 0:0 Wrong 0@1536+256 0:0 Wrong 0@1920+256 0:0 Wrong
            0@2304+2 1:0 Wrong; ok; www; nothing",
    ),
];

/// Blocks of five disks with two parities. Those of one sector have three columns: at 0 and 28675 on the disks 0, 1 and 2, at 28672 on
/// 2, 3 and 4, at 28678 on 3, 4 and 0. Those of 5 and of 8 sectors have five: at 3 on the disks 3, 4, 0, 1 and 2, at 12 on 2, 3, 4, 0
/// and 1. Where both vdevs are there, sector 0 of the second has its first column on disk 3.
pub(crate) const FIVE: &[(&str, &str)] = &[
    (
        "five 1 1 5 1 8 1 1 3; disks; check; mend; disks",
        "0@0 0@3 0@12 0@28672 0@28675 0@28678; wwwww; nothing; ok; wwwww",
    ),
    // Two disks are spoilt, or one, and another one is missing.
    (
        "spoil 1 4; check; mend; disks; check",
        "so; 0@0+1 1:1 Wrong 0@3+5 1:4 Wrong 3:1 Wrong 0@12+8 2:4 Wrong 4:1 Wrong
            0@28672+1 2:4 Wrong 0@28675+1 1:1 Wrong 0@28678+1 1:4 Wrong; ok; wwwww; nothing",
    ),
    (
        "spoil 1 4; check 4; mend 4; disks; mend; disks",
        "so; 0@0+1 1:1 Wrong 0@3+5 1:4 Unreadable 3:1 Wrong 0@12+8 2:4 Unreadable 4:1 Wrong
            0@28672+1 2:4 Unreadable 0@28675+1 1:1 Wrong 0@28678+1 1:4 Unreadable; ok; wwwws; ok;
            wwwww",
    ),
    // One is spoilt, and two are missing: blocks with columns on all three can't be read.
    (
        "spoil 0; check 1 4; mend 1 4; disks; mend; disks",
        "so; 0@0+1 0:0 Wrong 1:1 Unreadable
            0@3+5 0:3 Wrong 1:4 Unreadable 2:0 Wrong 3:1 Unreadable 4:2 Wrong
            0@12+8 0:2 Wrong 1:3 Wrong 2:4 Unreadable 3:0 Wrong 4:1 Unreadable 0@28672+1 2:4 Unreadable
            0@28675+1 0:0 Wrong 1:1 Unreadable 0@28678+1 1:4 Unreadable 2:0 Wrong; ok; owwww; ok;
            wwwww",
    ),
    // Three are spoilt. Of the block of three copies the first one has two columns on the disks 3 and 4.
    (
        "spoil 0 1 2; check; mend; disks; check",
        "so; 0@0+1 0:0 Wrong 1:1 Wrong 2:2 Wrong
            0@3+5 0:3 Wrong 1:4 Wrong 2:0 Wrong 3:1 Wrong 4:2 Wrong
            0@12+8 0:2 Wrong 1:3 Wrong 2:4 Wrong 3:0 Wrong 4:1 Wrong 0@28672+1 0:2 Wrong
            0@28675+1 0:0 Wrong 1:1 Wrong 2:2 Wrong 0@28678+1 2:0 Wrong; ok; oooww;
            0@0+1 0:0 Wrong 1:1 Wrong 2:2 Wrong
            0@3+5 0:3 Wrong 1:4 Wrong 2:0 Wrong 3:1 Wrong 4:2 Wrong
            0@12+8 0:2 Wrong 1:3 Wrong 2:4 Wrong 3:0 Wrong 4:1 Wrong",
    ),
    ("five 5 1; spoil 0 1 2; mend; disks", "0@0; so; ok; sssww"),
    // Both vdevs. The copies of the blocks of one sector lie on the disks 5, 6 and 7; 1 and 2; 3, 4 and 5. Those of 128 KiB lie on 0, 1
    // and 2; 6, 7, 3, 4 and 5; 0, 1 and 2: all of vdev 0 can be mended from vdev 1, but for the blocks of one copy there.
    (
        "both 1 1 5 1 8 1 1 3 256 3; check; spoil 4 7; check; mend; disks; check",
        "0@0 1@0 0@2 1@28672 0@16384 1@28675 0@16386 1@28678 0@16770; nothing; so;
            1@0+5 1:4 Wrong 4:7 Wrong 1@28672+1 2:7 Wrong 1@28675+1 1:4 Wrong
            1@28678+256 1:7 Wrong 3:4 Wrong; ok; wwwwwwww; nothing",
    ),
    (
        "spoil 0 1 2 3; check; mend; disks; check",
        "so; 0@0+1 0:0 Wrong 1:1 Wrong 1@0+5 0:3 Wrong 0@2+8 0:2 Wrong 1:0 Wrong 2:1 Wrong
            0@16384+1 0:1 Wrong 1:2 Wrong 1@28675+1 0:3 Wrong
            0@16386+256 0:0 Wrong 1:1 Wrong 2:2 Wrong 1@28678+256 2:3 Wrong
            0@16770+256 0:0 Wrong 1:1 Wrong 2:2 Wrong; ok; ooowwwww;
            0@0+1 0:0 Wrong 1:1 Wrong 0@2+8 0:2 Wrong 1:0 Wrong 2:1 Wrong",
    ),
];

/// A disk fails a call of `check` or of `mend`: `fails_write` and its like have the disk and the number of the call, counted anew in each
/// of them. Two blocks of three sectors, five with their parity, each with a column on each disk.
pub(crate) const FAILING: &[(&str, &str)] = &[
    // The write of the first block's column fails, and then that of the second one.
    (
        "three 3 1 3 1; spoil 1; fails_write 1 0; mend; disks; check",
        "0@0 0@6; so; so; ok; wow; 0@0+3 1:1 Wrong",
    ),
    (
        "spoil 1; fails_write 1 1; mend; disks; check; mend; disks; check",
        "so; so; ok; wow; 0@6+3 1:1 Wrong; ok; www; nothing",
    ),
    // One block, whose write fails: the disk stays as it is.
    (
        "three 3 1; spoil 1; fails_write 1 0; mend; disks; check; sound; mend; disks; check",
        "0@0; so; so; ok; wsw; 0@0+3 1:1 Wrong; so; ok; www; nothing",
    ),
    // The disk fails all calls, sound and then spoilt: its columns are unreadable, and nothing is written on it.
    (
        "three 3 1 3 1; fails_from 1 0; check; mend; disks; spoil 1; check; mend; disks; sound; check; mend;
            disks; check",
        "0@0 0@6; so; 0@0+3 1:1 Unreadable 0@6+3 1:1 Unreadable; ok unflushed 1; www; so;
            0@0+3 1:1 Unreadable 0@6+3 1:1 Unreadable; ok unflushed 1; wsw; so; 0@0+3 1:1 Wrong 0@6+3 1:1 Wrong; ok;
            www; nothing",
    ),
    // So it does, and another one is missing or spoilt: neither block can be read.
    (
        "fails_from 1 0; check 2; mend 2; disks; spoil 2; check; mend; disks; sound; mend; disks",
        "so; 0@0+3 0:0 Wrong 1:1 Unreadable 2:2 Unreadable
            0@6+3 0:0 Wrong 1:1 Unreadable 2:2 Unreadable; ok unflushed 1; www; so;
            0@0+3 0:0 Wrong 1:1 Unreadable 2:2 Wrong 0@6+3 0:0 Wrong 1:1 Unreadable 2:2 Wrong;
            ok unflushed 1; wws;
            so; ok; www",
    ),
    // A flush fails behind the writes, and is told; the next one doesn't.
    (
        "spoil 1; fails_flush 1 0; mend; disks; check; sound; spoil 1; mend; check",
        "so; so; ok unflushed 1; www; nothing; so; so; ok; nothing",
    ),
    // Of each block the columns of data are read, and then each column is looked at: so these are the reads 0 and 1 of the disk for the
    // first block, 2 and 3 for the second one. A column that could be read the second time is not found.
    (
        "fails_read 1 0; check; fails_read 1 1; check; mend; disks; fails_read 1 3; check",
        "so; nothing; so; 0@0+3 1:1 Unreadable; ok; www; so; 0@6+3 1:1 Unreadable",
    ),
];

/// `move` has a block, which copy of it, a vdev and a sector: the pointer says that the copy lies there. It is the block's only one then,
/// but where the third of three is moved. A disk of 8 MiB has 7168 sectors for blocks, so that a vdev of three has 21504.
pub(crate) const MISPLACED: &[(&str, &str)] = &[
    // A block of one sector takes two: those from 21502 on are the last, and lie on the disks 1 and 2.
    (
        "three 1 1; move 0 0 0 21502; check; mend; move 0 0 0 21503; check; mend; move 0 0 0 21504; check; mend;
            move 0 0 1 0; check; mend; move 0 0 0 9223372036854775808; check; mend;
            move 0 0 0 18446744073709551615; check; mend; disks; move 0 0 0 0; check",
        "0@0; so; 0@21502+1 0:1 Wrong 1:2 Wrong; ok; so; BadPointer; BadPointer; so; BadPointer; BadPointer;
            so; BadPointer; BadPointer; so; BadPointer; BadPointer; so; BadPointer; BadPointer; www; so;
            nothing",
    ),
    // A block of three sectors takes six: those from 21498 on are the last. Its third copy passes the end, and those before it are mended,
    // and so is the block before. What the third copy's place has isn't.
    (
        "three 1 1 3 3; spoil 0; move 1 2 0 21499; check; mend; disks; move 1 2 0 16396; check; mend; disks",
        "0@0 0@16384 0@16390 0@16396; so; so; BadPointer; BadPointer; oww; so; 0@16396+3 2:0 Wrong; ok; www",
    ),
    // At 21498, on the disks 0, 1 and 2, nothing of the block is: the copy is written there.
    (
        "move 1 2 0 21498; check; mend; check; disks",
        "so; 0@21498+3 0:0 Wrong 1:1 Wrong 2:2 Wrong; ok; nothing; ooo",
    ),
    // The disks that a bad pointer would not need are missing: it is bad all the same.
    (
        "move 0 0 9 0; check 0 1 2; mend 0 1 2",
        "so; BadPointer; BadPointer",
    ),
];
