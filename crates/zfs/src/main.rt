//! `zfs` makes, snapshots, clones, destroys, lists, writes and reads the volumes of a storage pool in files. Its status is 0 where all was done,
//! 1 where it is refused, and 2 at a fault of the line or of standard input or output.
#![tactic(auto)]

use commands::command;
use file_pools::FilePools;
use progress::Metered;
use std::alloc::{AllocError, Global};
use std::io::{BufWriter, IsTerminal};
use std::process::ExitCode;
use std::time::{SystemTime, UNIX_EPOCH};
use std::{env, io};

/// The seconds since 1970, which a commit's uberblock has; 0 where the clock tells none.
fn seconds(rt: &HostRuntime) -> u64 {
    let Ok(now) = SystemTime::now(rt) else {
        return 0;
    };
    match now.duration_since(UNIX_EPOCH) {
        Ok(since) => since.as_secs(),
        Err(_) => 0,
    }
}

/// The words of the line, with this program's name in front.
fn words_of<'a>(alloc: Global, given: &'a [String]) -> Result<Vec<&'a str>, AllocError> {
    let mut words = Vec::new(alloc);
    words.push("zfs")?;
    for word in given.iter().skip(1) {
        words.push(word.as_str())?;
    }
    Ok(words)
}

fn run(rt: &HostRuntime) -> io::Result<u8> {
    let alloc = rt.alloc();
    let given: Vec<String> = env::args(rt)?.collect(alloc)?;
    let words = words_of(alloc, given.as_slice())?;
    let mut pools = FilePools::new(rt, rt.stderr(), "zfs", 0);
    let is_shown = rt.stderr().is_terminal();
    let mut input = Metered::new(rt.reader(), rt.stderr(), "zfs", is_shown);
    let output = BufWriter::new(alloc, io::writer(rt))?;
    let mut output = Metered::new(output, rt.stderr(), "zfs", is_shown);
    let status = command(
        alloc,
        &mut pools,
        words.as_slice(),
        seconds(rt),
        &mut input,
        &mut output,
        &mut rt.stderr(),
    );
    Ok(status.number())
}

fn main(rt: HostRuntime) -> ExitCode {
    let status = match run(&rt) {
        Ok(status) => status,
        Err(_) => {
            // Where this can't be told either, the status still says it.
            let _ = eprintln!(rt; "zfs: the words of the line, or memory");
            2
        }
    };
    ExitCode::from(status)
}
