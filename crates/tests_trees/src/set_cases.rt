//! What comes of calls on sets of objects. Set 0 is that without objects which `meta` or `volume` begins with, and tells how many
//! copies its data blocks and its other blocks have. What makes a set makes the next one by number, and tells its kind, how many
//! dnodes it has and up to which of their blocks, and how many blocks gave way.
//!
//! `dnodes` has a set, a group, and the numbers of the dnodes that it writes, each with the sectors of an object's data blocks: 0
//! for a free one. `carry` has a set and the number of a dnode, which alone an empty set gets in group 1. `spoil` makes a meta set
//! of group 1 whose first or second block of dnodes has ones alone: it has a set, which of the two, and how many dnodes there are.
//! `change` has a set, a group, and perhaps the group since which nothing of the set was born, in place of that one; its list has
//! one change or two, each with an object's number, a block's id, the byte that the block has alone, and its sectors.
//!
//! `read` has a set and numbers: the sectors of those dnodes' data blocks. `get` has a set, the number of an object, and ids of
//! its blocks; `several` reads the blocks 0, 2, 200 and 201 at once. `without` has the disks that are missing for these. `block`
//! has a set, the group that plans its block, and groups of parents that the block is read by. `walk` has a set and an object,
//! `within` a set and how many blocks may be read, `younger` besides a group since which blocks are sought, and `freed` the set
//! before and the one after: which blocks of dnodes only the first has.

pub(crate) const DNODES: &[(&str, &str)] = &[
    // Dnodes are read as they were written, also with a disk missing.
    (
        "meta; dnodes 0 1 1 1 31 31 32 32 100 100 5000 250;
            read 1 1 31 32 100 5000 0 2 33 99 200 4999 5001 5023 100000; without 1;
            read 1 1 31 32 100 5000 0 2 33 99 200 4999 5001 5023 100000",
        "3 and 3 copies; meta of 5001 to 156, 0 gave way;
            1 31 32 100 250 free free free free free free free free free; so;
            1 31 32 100 250 free free free free free free free free free",
    ),
    // The set before stays: three blocks of dnodes, the two indirect blocks above them, and the root gave way.
    (
        "meta; dnodes 0 1 1 1 31 31 32 32 100 100 5000 250; dnodes 1 2 31 0 33 33 5000 5; freed 1 2;
            read 1 1 31 32 100 5000 0 2 33 99 200 4999 5001 5023 100000; read 2 1 31 32 33 100 5000",
        "3 and 3 copies; meta of 5001 to 156, 0 gave way; meta of 5001 to 156, 6 gave way;
            the same 6 blocks since 1;
            1 31 32 100 250 free free free free free free free free free; 1 free 32 33 100 5",
    ),
    // The block of a set is read as it was planned, and not by a parent that was born before it.
    (
        "meta; dnodes 0 1 1 1 31 31 32 32 100 100 5000 250; block 1 2 2 1",
        "3 and 3 copies; meta of 5001 to 156, 0 gave way; type 11, the same, BadPointer",
    ),
    // Bytes that spell no dnode are refused, and kept as others are written beside them.
    (
        "meta; spoil 0 1 64; read 1 37 63 5; dnodes 1 2 31 0 33 33 5000 5; read 2 37 33 31",
        "3 and 3 copies; meta of 64 to 1, 0 gave way; BadPointer BadPointer free;
            meta of 5001 to 156, 2 gave way; BadPointer 33 free",
    ),
    // A block is refused that has something else than zeros at number 0, or behind the last dnode: also for a dnode that it spells.
    (
        "meta; spoil 0 0 32; dnodes 1 2 31 0 33 33 5000 5; read 2 31 33",
        "3 and 3 copies; meta of 32 to 0, 0 gave way; meta of 5001 to 156, 1 gave way; BadPointer 33",
    ),
    (
        "meta; spoil 0 1 40; read 1 39 5 40",
        "3 and 3 copies; meta of 40 to 1, 0 gave way; BadPointer free free",
    ),
];

pub(crate) const OBJECTS: &[(&str, &str)] = &[
    // Objects read as they were written: of the first, a root, an indirect block and the block itself.
    (
        "volume; change 0 1: create 3 200 5 1, create 40 0 6 2;
            get 1 3 200 0; get 1 40 0; get 1 4 0; walk 1 3; walk 1 4",
        "1 and 2 copies; volume of 41 to 1, 0 gave way;
            5*512 hole; 6*1024; BadPointer; 3 blocks since 1; BadPointer",
    ),
    // The set before stays. Three blocks of 3, the one of 40, and those of the dnodes gave way: two of 32 dnodes each, and the
    // root above them.
    (
        "volume; change 0 1: create 3 200 5 1, create 40 0 6 2; change 1 2: put 3 200 7 1, free 40;
            get 2 3 200; get 2 40 0; get 1 3 200; get 1 40 0",
        "1 and 2 copies; volume of 41 to 1, 0 gave way; volume of 41 to 1, 7 gave way;
            7*512; BadPointer; 5*512; 6*1024",
    ),
    // An object becomes shorter. The same blocks gave way; there are its root and the block.
    (
        "volume; change 0 1: create 3 200 5 1, create 40 0 6 2;
            change 1 2: replace 3 2 9 1, put 40 0 8 2;
            get 2 3 2 200; get 2 40 0; get 1 3 200; walk 2 3",
        "1 and 2 copies; volume of 41 to 1, 0 gave way; volume of 41 to 1, 7 gave way;
            9*512 hole; 8*1024; 5*512; 2 blocks since 2",
    ),
    // Blocks are read at once: two below one indirect block, and two below another.
    (
        "volume; change 0 1: create 3 200 5 1, create 40 0 6 2; change 1 2: put 3 2 9 1, free 40;
            several 2 3",
        "1 and 2 copies; volume of 41 to 1, 0 gave way; volume of 41 to 1, 5 gave way;
            hole 9*512 5*512 hole",
    ),
    // These are refused: a write of no object, an object made where one is, a block of another size.
    (
        "volume; change 0 1: create 3 200 5 1, create 40 0 6 2;
            change 1 2: put 3 0 7 1, put 4 0 7 1; change 1 2: create 3 0 7 1, put 40 0 7 2;
            change 1 2: put 3 0 7 1, put 40 0 7 1",
        "1 and 2 copies; volume of 41 to 1, 0 gave way; BadPointer; BadPointer; BadPointer",
    ),
    // What was born after the block that leads to it is not changed: nothing was, the set was, an object was.
    (
        "volume; change 0 1: create 3 200 5 1, create 40 0 6 2; change 1 3 0: put 3 0 7 1;
            change 1 3 1: put 3 0 7 1",
        "1 and 2 copies; volume of 41 to 1, 0 gave way; BadPointer; volume of 41 to 1, 3 gave way",
    ),
    (
        "volume; change 0 1: create 3 200 5 1, create 40 0 6 2; change 1 2: put 3 200 7 1, free 40;
            carry 2 3; change 3 3 2: put 3 0 7 1",
        "1 and 2 copies; volume of 41 to 1, 0 gave way; volume of 41 to 1, 7 gave way;
            volume of 4 to 0, 0 gave way; BadPointer",
    ),
    // A walk over a set reads as many blocks as it may. Of the dnodes a root and three blocks, of the objects five blocks, one,
    // and two; eight of these are read.
    (
        "volume; change 0 1: create 3 200 5 1, create 40 0 6 2; change 1 2: put 3 0 7 1, create 70 1 8 2;
            within 2 10; within 2 8; within 2 7",
        "1 and 2 copies; volume of 41 to 1, 0 gave way; volume of 71 to 2, 3 gave way;
            12 blocks since 1, 2 left; the same 12 blocks since 1, 0 left; BadPointer, 0 left",
    ),
    // Objects of older dnodes are not read. Of group 2, the root, two blocks of dnodes, three blocks of the object that was
    // changed, and two of the new one.
    (
        "volume; change 0 1: create 3 200 5 1, create 40 0 6 2; change 1 2: put 3 0 7 1, create 70 1 8 2;
            younger 2 20 0; younger 2 20 1; younger 2 20 2",
        "1 and 2 copies; volume of 41 to 1, 0 gave way; volume of 71 to 2, 3 gave way;
            12 blocks since 1, 12 left; 8 blocks since 2, 14 left; 0 blocks since 0, 20 left",
    ),
];
