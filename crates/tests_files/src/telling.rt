//! What commands tell of what they read of the disks, on the writer that the pools have for it.
use crate::sessions::run;
use std::cell::RefCell;
use std::fs;
use std::io::{self, ErrorKind, Write};
use std::test::Fail;

/// A writer that keeps what it is given, in one place with all its copies.
#[derive(Clone, Copy)]
struct Keeper<'a> {
    told: &'a RefCell<Vec<u8>>,
}

impl<'a> Write for Keeper<'a> {
    fn write(&mut self, bytes: &[u8]) -> io::Result<usize> {
        let Ok(mut told) = self.told.try_borrow_mut() else {
            return Err(ErrorKind::Other.into());
        };
        told.extend_from_slice(bytes)?;
        Ok(bytes.len())
    }

    fn flush(&mut self) -> io::Result<()> {
        Ok(())
    }
}

/// How a command line ends, and the lines that it tells with intervals of so many bytes.
fn told_of(rt: &HostRuntime, line: &str, interval: u64) -> Result<(String, String), Fail> {
    let told = RefCell::new(Vec::new(rt.alloc()));
    let came = run(rt, line, (0, 0), Keeper { told: &told }, interval)?;
    let told = String::from_utf8(told.into_inner())?;
    Ok((came, told))
}

/// Whether a line tells so many MiB.
fn is_of_mebibytes(line: &str) -> bool {
    let Some(rest) = line.strip_prefix("zpool: ") else {
        return false;
    };
    match rest.strip_suffix(" MiB looked at") {
        Some(number) => number.parse::<u64>().is_ok(),
        None => false,
    }
}

/// The files of the pool.
const PATHS: [&str; 3] = ["k", "l", "m"];

/// The bytes of a MiB.
const MEBIBYTE: u64 = 1 << 20;

/// In turn: a command line, the interval, how it ends, and whether it tells lines.
const CASES: [(&str, u64, &str, bool); 5] = [
    (
        "zpool create --seed 7 --bytes 8388608 tank raidz1 k l m",
        MEBIBYTE,
        "0 ",
        false,
    ),
    (
        "zpool status k l m",
        MEBIBYTE,
        "0 pool tank\nclaim 2\ngroup 3\nvdev 0 raidz1\n  disk 0 b7f69bbf566b8b1b online\n  disk 1 beb75bd9e7833e65 online\n  disk 2 24e2fbb94d9b2064 online\n",
        false,
    ),
    (
        "zpool scrub k l m",
        MEBIBYTE,
        "0 group 3 findings 0\n",
        true,
    ),
    ("zpool scrub k l m", 0, "0 group 4 findings 0\n", false),
    ("zpool export k l m", MEBIBYTE, "0 ", false),
];

#[test]
fn a_scrub_alone_tells_what_it_reads(rt: HostRuntime) -> Result<(), Fail> {
    for path in &PATHS {
        let _ = fs::remove_file(&rt, path);
    }
    for (line, interval, ending, tells) in &CASES {
        let (came, told) = told_of(&rt, line, *interval)?;
        assert!(rt; came.as_str() == *ending, "{line}: {came}");
        assert!(rt; told.is_empty() != *tells, "{line}, {interval}: {told}");
        assert!(rt; told.lines().all(is_of_mebibytes), "{line}: {told}");
    }
    for path in &PATHS {
        let _ = fs::remove_file(&rt, path);
    }
    Ok(())
}
