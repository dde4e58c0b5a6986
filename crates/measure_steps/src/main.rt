//! Says on standard error what a write of 8 KiB to a pool of three disks in memory costs, in microseconds: who keeps the steps and takes none; the core by
//! itself; a core whose steps are recorded; and the same under the lock that threads share. A round is 4,000 writes by one thread, of which no group is
//! committed, over a new pool; the fastest of some rounds counts. The argument, if any, is their number.
#![tactic(auto)]

mod measured;
mod rounds;
mod takers;
mod timing;

use rounds::{Kind, fastest};
use std::alloc::Global;
use std::rt::Runtime;
use std::sync::Wait;
use std::{env, io};
use timing::{Load, WRITES};

const KINDS: [(Kind, &str); 4] = [
    (Kind::Kept, "kept, no step"),
    (Kind::ByItself, "the core by itself"),
    (Kind::InRecord, "recorded"),
    (Kind::Locked, "recorded, under the lock"),
];

const LOADS: [(Load, &str); 4] = [
    (
        Load {
            holds: false,
            making: false,
        },
        "a write",
    ),
    (
        Load {
            holds: false,
            making: true,
        },
        "a write, its bytes made",
    ),
    (
        Load {
            holds: true,
            making: false,
        },
        "hold, write, release",
    ),
    (
        Load {
            holds: true,
            making: true,
        },
        "hold, write, release, its bytes made",
    ),
];

/// The line of a load: what one write took.
fn print(rt: &impl Runtime, load: &str, kind: &str, nanos: u128) -> io::Result<()> {
    let each = nanos / u128::from(WRITES);
    let (whole, rest) = (each / 1000, each % 1000);
    eprintln!(rt; "{load:<38} {kind:<26} {whole:>3}.{rest:03} us")
}

/// A load by each kind.
fn print_kinds<R: Runtime + Wait>(
    rt: &R,
    alloc: Global,
    rounds: u32,
    load: Load,
    name: &str,
) -> io::Result<()> {
    for &(kind, who) in &KINDS {
        let nanos = fastest(rt, alloc, rounds, kind, load)?;
        print(rt, name, who, nanos)?;
    }
    Ok(())
}

fn main(rt: HostRuntime) -> io::Result<()> {
    let rounds = match env::args(&rt)?.nth(1) {
        Some(word) => match word.parse::<u32>() {
            Ok(rounds) => rounds.max(1),
            Err(_) => return Err(io::Error::from(io::ErrorKind::InvalidInput)),
        },
        None => 1,
    };
    for &(load, name) in &LOADS {
        print_kinds(&rt, rt.alloc(), rounds, load, name)?;
    }
    Ok(())
}
