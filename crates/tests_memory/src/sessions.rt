//! A session: command lines in turn, each with what it is given, and what it prints and answers.
use crate::lines::run;
use crate::pools::MemPools;
use crate::shelf::Shelf;
use std::alloc::{AllocError, Global};
use std::test::Fail;

/// A command line; standard input, which is so many bytes of this value; and the exit status with what is printed.
type Case = (&'static str, (u8, usize), &'static str);

const LIFE: [Case; 24] = [
    (
        "zpool create --seed 7 --bytes 8388608 tank raidz1 a b c",
        (0, 0),
        "0 ",
    ),
    ("zfs create --size 1024 --block 512 v a b c", (0, 0), "0 "),
    (
        "zpool status a b c",
        (0, 0),
        "0 pool tank\nclaim 3\ngroup 4\nvdev 0 raidz1\n  disk 0 00000000000002be online\n  disk 1 00000000000002bf online\n  disk 2 00000000000002c0 online\n",
    ),
    (
        "zpool status a",
        (0, 0),
        "1 zpool: refused 22 TooManyMissing\n",
    ),
    ("zfs write --at 0 v a b c", (0xaa, 512), "0 "),
    ("zfs snapshot v@s a b c", (0, 0), "0 "),
    ("zfs write --at 0 v a b c", (0xbb, 1024), "0 "),
    ("zfs clone v@s w a b c", (0, 0), "0 "),
    (
        "zfs list a b c",
        (0, 0),
        "0 NAME                                                              SIZE   BLOCK       GROUP\nv                                                                 1024     512           4\nv@s                                                               1024     512           6\nw                                                                 1024     512           8\n",
    ),
    ("zfs read --at 0 --len 4 v a b c", (0, 0), "0 bbx4 "),
    ("zfs read --at 0 --len 4 w b c", (0, 0), "0 aax4 "),
    (
        "zfs destroy v@s a b c",
        (0, 0),
        "1 zfs: refused 14 HasClones\n",
    ),
    (
        "zfs destroy v a b c",
        (0, 0),
        "1 zfs: refused 15 HasSnapshots\n",
    ),
    ("zfs write --all v a b c", (0xcc, 1024), "0 "),
    ("zfs read v a c", (0, 0), "0 ccx1024 "),
    ("zfs read v@s a b c", (0, 0), "0 aax512 00x512 "),
    (
        "zfs write --all v a b c",
        (0xee, 1536),
        "1 zfs: refused 11 OutOfRange\n",
    ),
    (
        "zpool create --seed 8 --bytes 8388608 tank raidz1 c d e",
        (0, 0),
        "1 zpool: refused 2 DiskFault\n",
    ),
    (
        "zpool create --seed 8 --bytes 8388608 Tank raidz1 d e f",
        (0, 0),
        "1 zpool: refused 24 BadConfig\n",
    ),
    (
        "zpool status d e f",
        (0, 0),
        "1 zpool: refused 18 BadLabel tail\n",
    ),
    ("zpool scrub a b c", (0, 0), "0 group 9 findings 0\n"),
    ("zpool export a b c", (0, 0), "0 "),
    (
        "zpool status a c",
        (0, 0),
        "0 pool tank\nclaim 19\ngroup 10\nvdev 0 raidz1\n  disk 0 00000000000002be online\n  disk 1 00000000000002bf absent\n  disk 2 00000000000002c0 online\n",
    ),
    ("zfs read --at 510 --len 4 v@s b c", (0, 0), "0 aax2 00x2 "),
];

/// The lines that end otherwise than they should.
fn wrong_lines(alloc: Global, cases: &[Case]) -> Result<String, AllocError> {
    let mut pools = MemPools {
        shelf: Shelf::new(alloc)?,
    };
    let mut wrong = String::new(alloc);
    for (line, given, wanted) in cases {
        let came = run(alloc, &mut pools, line, *given)?;
        if came.as_str() != *wanted {
            wrong.push_str(format!(in alloc; "{line}: {came}\n")?.as_str())?;
        }
    }
    Ok(wrong)
}

#[test]
fn a_pool_in_memory_lives(rt: HostRuntime) -> Result<(), Fail> {
    let wrong = wrong_lines(rt.alloc(), &LIFE)?;
    assert!(rt; wrong.is_empty(), "{wrong}");
    Ok(())
}
