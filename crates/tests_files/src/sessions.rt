//! Sessions: command lines in turn, each with what it is given, and what it prints and answers.
use commands::command;
use file_pools::FilePools;
use std::alloc::{AllocError, Global};
use std::fs::{self, OpenOptions};
use std::io::Write;
use std::test::Fail;

/// A command line; standard input, which is so many bytes of this value; and the exit status, standard output and standard error that
/// come of it.
type Case = (&'static str, (u8, usize), u8, &'static str, &'static str);

const LIFE: [Case; 46] = [
    (
        "zpool create --seed 7 --bytes 8388608 tank raidz1 a b c",
        (0, 0),
        0,
        "",
        "",
    ),
    (
        "zfs create --size 1024 --block 512 v a b c",
        (0, 0),
        0,
        "",
        "",
    ),
    (
        "zpool status a b c",
        (0, 0),
        0,
        "pool tank\nclaim 3\ngroup 4\nvdev 0 raidz1\n  disk 0 b7f69bbf566b8b1b online\n  disk 1 beb75bd9e7833e65 online\n  disk 2 24e2fbb94d9b2064 online\n",
        "",
    ),
    (
        "zpool status a",
        (0, 0),
        1,
        "",
        "zpool: refused 22 TooManyMissing\n",
    ),
    (
        "zpool status a b",
        (0, 0),
        0,
        "pool tank\nclaim 4\ngroup 4\nvdev 0 raidz1\n  disk 0 b7f69bbf566b8b1b online\n  disk 1 beb75bd9e7833e65 online\n  disk 2 24e2fbb94d9b2064 absent\n",
        "",
    ),
    (
        "zpool status c b a",
        (0, 0),
        0,
        "pool tank\nclaim 5\ngroup 4\nvdev 0 raidz1\n  disk 0 b7f69bbf566b8b1b online\n  disk 1 beb75bd9e7833e65 online\n  disk 2 24e2fbb94d9b2064 online\n",
        "",
    ),
    (
        "zfs list a b c",
        (0, 0),
        0,
        "NAME                                                              SIZE   BLOCK       GROUP\nv                                                                 1024     512           4\n",
        "",
    ),
    ("zfs write --at 0 v a b c", (0xaa, 512), 0, "", ""),
    ("zfs snapshot v@s a b c", (0, 0), 0, "", ""),
    ("zfs write --at 0 v a b c", (0xbb, 1024), 0, "", ""),
    ("zfs clone v@s w a b c", (0, 0), 0, "", ""),
    (
        "zfs list a b c",
        (0, 0),
        0,
        "NAME                                                              SIZE   BLOCK       GROUP\nv                                                                 1024     512           4\nv@s                                                               1024     512           6\nw                                                                 1024     512           8\n",
        "",
    ),
    ("zfs read --at 0 --len 4 v a b c", (0, 0), 0, "bbx4 ", ""),
    ("zfs read --at 0 --len 4 w b c", (0, 0), 0, "aax4 ", ""),
    (
        "zfs read --at 510 --len 4 v@s a b c",
        (0, 0),
        0,
        "aax2 00x2 ",
        "",
    ),
    (
        "zfs destroy v@s a b c",
        (0, 0),
        1,
        "",
        "zfs: refused 14 HasClones\n",
    ),
    (
        "zfs destroy v a b c",
        (0, 0),
        1,
        "",
        "zfs: refused 15 HasSnapshots\n",
    ),
    (
        "zfs write --at 0 v a b c",
        (0xaa, 513),
        1,
        "",
        "zfs: refused 12 Misaligned\n",
    ),
    (
        "zfs write --at 512 v a b c",
        (0xaa, 1024),
        1,
        "",
        "zfs: refused 11 OutOfRange\n",
    ),
    (
        "zfs write --at 0 v a b c",
        (0, 1_048_577),
        1,
        "",
        "zfs: refused 12 Misaligned\n",
    ),
    (
        "zfs write --at 0 v a b c",
        (0, 1_049_088),
        1,
        "",
        "zfs: refused 11 OutOfRange\n",
    ),
    (
        "zfs write --at 0 v a b c",
        (0, 0),
        1,
        "",
        "zfs: refused 12 Misaligned\n",
    ),
    (
        "zfs write --at 0 v@s a b c",
        (0xaa, 512),
        1,
        "",
        "zfs: refused 8 NoSuchName\n",
    ),
    (
        "zfs create --size 1024 --block 512 V a b c",
        (0, 0),
        1,
        "",
        "zfs: refused 16 BadName\n",
    ),
    (
        "zfs create --size 1024 --block 500 x a b c",
        (0, 0),
        1,
        "",
        "zfs: refused 12 Misaligned\n",
    ),
    (
        "zfs create --size 1024 --block 512 v a b c",
        (0, 0),
        1,
        "",
        "zfs: refused 10 Exists\n",
    ),
    (
        "zpool create --seed 8 --bytes 8388608 tank raidz1 c d e",
        (0, 0),
        1,
        "",
        "zpool: refused 2 DiskFault\n",
    ),
    (
        "zpool create --seed 8 --bytes 8 tank raidz1 d e f",
        (0, 0),
        1,
        "",
        "zpool: refused 24 BadConfig\nzpool: --bytes: a file has from 8388608 to 8796093022208 bytes\n",
    ),
    (
        "zpool create --seed 8 --bytes 8388608 Tank raidz1 d e f",
        (0, 0),
        1,
        "",
        "zpool: refused 24 BadConfig\nzpool: no pool has this name: 1 to 27 of 'a-z', '0-9', '.', '_' and '-', the first a letter\n",
    ),
    (
        "zpool status d e f",
        (0, 0),
        1,
        "",
        "zpool: refused 18 BadLabel tail\nzpool: d: no such file\nzpool: e: no such file\nzpool: f: no such file\n",
    ),
    ("zfs write --all v a b c", (0xcc, 1024), 0, "", ""),
    ("zfs read v a c", (0, 0), 0, "ccx1024 ", ""),
    ("zfs write --all v a b c", (0xdd, 512), 0, "", ""),
    ("zfs read v a b c", (0, 0), 0, "ddx512 ccx512 ", ""),
    ("zfs read v@s a b c", (0, 0), 0, "aax512 00x512 ", ""),
    (
        "zfs write --all v a b c",
        (0xee, 1536),
        1,
        "",
        "zfs: refused 11 OutOfRange\n",
    ),
    (
        "zfs write --all v a b c",
        (0xee, 700),
        1,
        "",
        "zfs: refused 12 Misaligned\n",
    ),
    (
        "zfs write --all v@s a b c",
        (0xee, 512),
        1,
        "",
        "zfs: refused 8 NoSuchName\n",
    ),
    (
        "zfs read x a b c",
        (0, 0),
        1,
        "",
        "zfs: refused 8 NoSuchName\n",
    ),
    ("zfs write --all w a b c", (0, 0), 0, "", ""),
    ("zpool export a b c", (0, 0), 0, "", ""),
    (
        "zpool status a b c",
        (0, 0),
        0,
        "pool tank\nclaim 37\ngroup 10\nvdev 0 raidz1\n  disk 0 b7f69bbf566b8b1b online\n  disk 1 beb75bd9e7833e65 online\n  disk 2 24e2fbb94d9b2064 online\n",
        "",
    ),
    (
        "zpool status x y x",
        (0, 0),
        1,
        "",
        "zpool: refused 18 BadLabel tail\nzpool: x: no such file\nzpool: y: no such file\n",
    ),
    (
        "zpool status a a b",
        (0, 0),
        1,
        "",
        "zpool: refused 23 PoolMismatch\n",
    ),
    ("zpool scrub a b c", (0, 0), 0, "group 10 findings 0\n", ""),
    (
        "zfs snapshot v a b c",
        (0, 0),
        2,
        "",
        "error: a snapshot's name is VOLUME@SNAPSHOT\n\nFor more information, try '--help'.\n",
    ),
];

/// A disk that is away while groups are written, and comes back.
const AWAY: [Case; 19] = [
    (
        "zpool create --seed 7 --bytes 8388608 tank raidz1 a b c",
        (0, 0),
        0,
        "",
        "",
    ),
    (
        "zfs create --size 1024 --block 512 v a b c",
        (0, 0),
        0,
        "",
        "",
    ),
    ("zfs write --at 0 v a b", (0xaa, 512), 0, "", ""),
    (
        "zpool status a b",
        (0, 0),
        0,
        "pool tank\nclaim 4\ngroup 5\nvdev 0 raidz1\n  disk 0 b7f69bbf566b8b1b online\n  disk 1 beb75bd9e7833e65 online\n  disk 2 24e2fbb94d9b2064 absent\n",
        "",
    ),
    (
        "zpool status a b c",
        (0, 0),
        0,
        "pool tank\nclaim 5\ngroup 5\nvdev 0 raidz1\n  disk 0 b7f69bbf566b8b1b online\n  disk 1 beb75bd9e7833e65 online\n  disk 2 24e2fbb94d9b2064 stale 5 5\n",
        "",
    ),
    ("zfs read v a b c", (0, 0), 0, "aax512 00x512 ", ""),
    ("zfs write --at 512 v a b", (0xcc, 512), 0, "", ""),
    ("zfs write --at 0 v a b c", (0xdd, 512), 0, "", ""),
    (
        "zpool status a b c",
        (0, 0),
        0,
        "pool tank\nclaim 9\ngroup 7\nvdev 0 raidz1\n  disk 0 b7f69bbf566b8b1b online\n  disk 1 beb75bd9e7833e65 online\n  disk 2 24e2fbb94d9b2064 stale 5 6\n",
        "",
    ),
    ("zpool export a b c", (0, 0), 0, "", ""),
    (
        "zpool status c b a",
        (0, 0),
        0,
        "pool tank\nclaim 11\ngroup 7\nvdev 0 raidz1\n  disk 0 b7f69bbf566b8b1b online\n  disk 1 beb75bd9e7833e65 online\n  disk 2 24e2fbb94d9b2064 stale 5 6\n",
        "",
    ),
    ("zfs read v a b c", (0, 0), 0, "ddx512 ccx512 ", ""),
    // All that groups 5 and 6 left was written anew in group 7, with all disks: nothing of c is missing.
    ("zpool scrub b c a", (0, 0), 0, "group 7 findings 0\n", ""),
    (
        "zpool status a b c",
        (0, 0),
        0,
        "pool tank\nclaim 14\ngroup 8\nvdev 0 raidz1\n  disk 0 b7f69bbf566b8b1b online\n  disk 1 beb75bd9e7833e65 online\n  disk 2 24e2fbb94d9b2064 online\n",
        "",
    ),
    // Without c each of its columns is unreadable. The group that this commits is what it lacks then.
    (
        "zpool scrub a b",
        (0, 0),
        0,
        "group 8 findings 36\nleft 36\n",
        "",
    ),
    (
        "zpool status c a b",
        (0, 0),
        0,
        "pool tank\nclaim 16\ngroup 9\nvdev 0 raidz1\n  disk 0 b7f69bbf566b8b1b online\n  disk 1 beb75bd9e7833e65 online\n  disk 2 24e2fbb94d9b2064 stale 9 9\n",
        "",
    ),
    ("zpool scrub a b c", (0, 0), 0, "group 9 findings 7\n", ""),
    (
        "zpool status a b c",
        (0, 0),
        0,
        "pool tank\nclaim 18\ngroup 10\nvdev 0 raidz1\n  disk 0 b7f69bbf566b8b1b online\n  disk 1 beb75bd9e7833e65 online\n  disk 2 24e2fbb94d9b2064 online\n",
        "",
    ),
    ("zfs read v b c", (0, 0), 0, "ddx512 ccx512 ", ""),
];

/// What is told beside a refusal. The file g is there, and no disk of a pool.
const EXPLAINED: [Case; 9] = [
    (
        "zpool create --seed 9 --bytes 1073741824 tank raidz1 p q r",
        (0, 0),
        1,
        "",
        "zpool: refused 24 BadConfig\nzpool: 1529 metaslabs are more than 1024: give a larger --ms\n",
    ),
    (
        "zpool create --seed 9 --bytes 8388608 --ms 14 tank raidz1 p q r",
        (0, 0),
        1,
        "",
        "zpool: refused 24 BadConfig\nzpool: --meta is 1 or more, and less than the 1 metaslabs that there are: give a smaller --ms or larger files\n",
    ),
    (
        "zpool create --seed 9 --bytes 8388608 --ms 21 tank raidz1 p q r",
        (0, 0),
        1,
        "",
        "zpool: refused 24 BadConfig\nzpool: --ms: from 12 to 20\n",
    ),
    (
        "zpool create --seed 9 --bytes 8388608 tank raidz2 p q",
        (0, 0),
        1,
        "",
        "zpool: refused 24 BadConfig\nzpool: a pool of this type has from 3 to 32 files\n",
    ),
    (
        "zpool create --seed 9 --bytes 8388608 tank raidz1 p q r",
        (0, 0),
        0,
        "",
        "",
    ),
    (
        "zpool status p nofile",
        (0, 0),
        1,
        "",
        "zpool: refused 22 TooManyMissing\nzpool: nofile: no such file\n",
    ),
    (
        "zfs list g . p/q",
        (0, 0),
        1,
        "",
        "zfs: refused 18 BadLabel tail\nzfs: g: no disk of a pool\nzfs: .: can't be opened\nzfs: p/q: can't be opened\n",
    ),
    (
        "zpool scrub g g",
        (0, 0),
        1,
        "",
        "zpool: refused 18 BadLabel tail\nzpool: g: no disk of a pool\n",
    ),
    (
        "zpool status p p q",
        (0, 0),
        1,
        "",
        "zpool: refused 23 PoolMismatch\n",
    ),
];

/// Bytes as they are printed here: a text as it stands, and of a read the length of each run of one byte.
fn told(alloc: Global, line: &str, bytes: &[u8]) -> Result<String, AllocError> {
    let mut text = String::new(alloc);
    if !line.starts_with("zfs read") {
        return String::from_str(alloc, std::str::from_utf8(bytes).unwrap_or("no text"));
    }
    let mut count = 0usize;
    for i in 0..bytes.len() {
        count = count.saturating_add(1);
        if i + 1 == bytes.len() || bytes[i + 1] != bytes[i] {
            let byte = bytes[i];
            text.push_str(format!(in alloc; "{byte:02x}x{count} ")?.as_str())?;
            count = 0;
        }
    }
    Ok(text)
}

/// Runs a command line: its exit status, and what it prints. A scrub tells what it reads on that writer, with so many bytes between two lines.
pub(crate) fn run<W: Write + Copy>(
    rt: &HostRuntime,
    line: &str,
    given: (u8, usize),
    teller: W,
    interval: u64,
) -> Result<String, Fail> {
    let alloc = rt.alloc();
    let mut words = Vec::new(alloc);
    for word in line.split(' ') {
        words.push(word)?;
    }
    let input = vec![in alloc; given.0; given.1]?;
    let mut output = Vec::new(alloc);
    let mut errors = Vec::new(alloc);
    let mut pools = FilePools::new(rt, teller, "zpool", interval);
    let status = command(
        alloc,
        &mut pools,
        words.as_slice(),
        1,
        &mut input.as_slice(),
        &mut output,
        &mut errors,
    );
    let number = status.number();
    let shown = told(alloc, line, output.as_slice())?;
    let wrong = told(alloc, "", errors.as_slice())?;
    Ok(format!(in alloc; "{number} {shown}{wrong}")?)
}

/// Runs the lines on new files: those that end otherwise than they should, and how.
fn played(rt: &HostRuntime, paths: &[&str], cases: &[Case]) -> Result<String, Fail> {
    let alloc = rt.alloc();
    for path in paths {
        let _ = fs::remove_file(rt, path);
    }
    let mut wrong = String::new(alloc);
    for (line, given, status, output, errors) in cases {
        let came = run(rt, line, *given, rt.stderr(), 0)?;
        let wanted = format!(in alloc; "{status} {output}{errors}")?;
        if came != wanted {
            wrong.push_str(format!(in alloc; "{line}: {came}\n")?.as_str())?;
        }
    }
    for path in paths {
        let _ = fs::remove_file(rt, path);
    }
    Ok(wrong)
}

/// The files of the sessions.
const PATHS: [&str; 6] = ["a", "b", "c", "d", "e", "f"];

#[test]
fn pools_in_files_live(rt: HostRuntime) -> Result<(), Fail> {
    let life = played(&rt, &PATHS, &LIFE)?;
    assert!(rt; life.is_empty(), "{life}");
    let away = played(&rt, &PATHS, &AWAY)?;
    assert!(rt; away.is_empty(), "{away}");
    Ok(())
}

#[test]
fn refusals_are_explained(rt: HostRuntime) -> Result<(), Fail> {
    let foreign = OpenOptions::new().write(true).create(true).open(&rt, "g")?;
    foreign.set_len(2_097_152)?;
    let told = played(&rt, &["p", "q", "r"], &EXPLAINED)?;
    let _ = fs::remove_file(&rt, "g");
    assert!(rt; told.is_empty(), "{told}");
    Ok(())
}
