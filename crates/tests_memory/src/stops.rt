//! Commands that are stopped at any device call, or meet a fault there, and the commands after them.
use crate::disks::NEVER;
use crate::lines::run;
use crate::pools::MemPools;
use crate::shelf::Shelf;
use model_disk::Fault;
use std::alloc::{AllocError, Global};
use std::test::Fail;

/// A command line and its input.
type Line = (&'static str, (u8, usize));

/// A command that is stopped or meets a fault.
#[derive(Clone, Copy)]
struct Tried {
    /// What comes before it in the pool whose volume has a block of `aa`.
    before: Option<Line>,
    line: Line,
    /// The next command, where the disk of that place met the fault.
    next: [&'static str; 3],
}

const WRITE: Tried = Tried {
    before: None,
    line: ("zfs write --at 0 v a b c", (0xbb, 512)),
    next: READS_WITHOUT,
};

const STATUS: Tried = Tried {
    before: None,
    line: ("zpool status a b c", (0, 0)),
    next: READS_WITHOUT,
};

/// A scrub, where the first disk missed the write of the new bytes.
const SCRUB: Tried = Tried {
    before: Some(("zfs write --at 0 v b c", (0xbb, 512))),
    line: ("zpool scrub a b c", (0, 0)),
    next: [READ; 3],
};

/// Reads what the tried write writes.
const READ: &str = "zfs read --at 0 --len 512 v a b c";

/// The same without the disk of that place.
const READS_WITHOUT: [&str; 3] = [
    "zfs read --at 0 --len 512 v b c",
    "zfs read --at 0 --len 512 v a c",
    "zfs read --at 0 --len 512 v a b",
];

/// What a read shows before the tried write.
const OLD: &str = "0 aax512 ";

/// What it shows when the write is done.
const NEW: &str = "0 bbx512 ";

/// How the tried write ends that is done.
const DONE: &str = "0 ";

/// How a command ends that a fault of one disk refuses.
const FAULTED: [&str; 1] = [": refused 2 DiskFault\n"];

/// How a command ends that is stopped: for it each further call on a disk fails.
const STOPPED: [&str; 4] = [
    ": refused 2 DiskFault\n",
    ": refused 4 Suspended\n",
    ": refused 18 BadLabel tail\n",
    ": refused 22 TooManyMissing\n",
];

/// A pool whose volume has a block of `aa`, and then that line.
fn written(alloc: Global, before: Option<Line>) -> Result<MemPools, AllocError> {
    let mut pools = MemPools {
        shelf: Shelf::new(alloc)?,
    };
    let lines = [
        (
            "zpool create --seed 7 --bytes 8388608 tank raidz1 a b c",
            (0, 0),
        ),
        ("zfs create --size 1024 --block 512 v a b c", (0, 0)),
        ("zfs write --at 0 v a b c", (0xaa, 512)),
    ];
    for (line, given) in &lines {
        let _ = run(alloc, &mut pools, line, *given)?;
    }
    if let Some((line, given)) = before {
        let _ = run(alloc, &mut pools, line, given)?;
    }
    Ok(pools)
}

/// The pool after the command, which met nothing: its calls are known.
fn recorded(alloc: Global, base: &MemPools, tried: Tried) -> Result<MemPools, AllocError> {
    let mut pools = MemPools {
        shelf: base.shelf.copied(alloc, [NEVER; 3])?,
    };
    let _ = run(alloc, &mut pools, tried.line.0, tried.line.1)?;
    Ok(pools)
}

/// How a command ended on disks that fail so, and what the next one shows, which finds them mended.
#[derive(Drop)]
struct Came {
    moment: u64,
    first: String,
    next: String,
}

fn tried_on(
    alloc: Global,
    base: &MemPools,
    tried: Tried,
    moment: u64,
    faults: [Fault; 3],
    next: &str,
) -> Result<Came, AllocError> {
    let mut pools = MemPools {
        shelf: base.shelf.copied(alloc, faults)?,
    };
    let first = run(alloc, &mut pools, tried.line.0, tried.line.1)?;
    pools.shelf.mend();
    let next = run(alloc, &mut pools, next, (0, 0))?;
    Ok(Came {
        moment,
        first,
        next,
    })
}

/// How often the next commands showed the old bytes and the new ones; and the first time that anything else came.
#[derive(Drop)]
struct Seen {
    /// How a command may end that is refused.
    refused: &'static [&'static str],
    old: u64,
    new: u64,
    wrong: Option<Came>,
}

impl Seen {
    fn new(refused: &'static [&'static str]) -> Seen {
        Seen {
            refused,
            old: 0,
            new: 0,
            wrong: None,
        }
    }

    /// The next command shows the new bytes where the tried write was done, and else the old ones or the new ones.
    fn see(&mut self, came: Came) {
        let (first, next) = (came.first.as_str(), came.next.as_str());
        let is_refused = self.refused.iter().any(|end| first.ends_with(*end));
        let is_stated = is_refused || first.starts_with("0 ");
        if is_stated && next == NEW {
            self.new = self.new.saturating_add(1);
        } else if is_stated && next == OLD && first != DONE {
            self.old = self.old.saturating_add(1);
        } else if self.wrong.is_none() {
            self.wrong = Some(came);
        }
    }

    /// What was seen, as text.
    fn told(&self, alloc: Global) -> Result<String, AllocError> {
        if let Some(came) = &self.wrong {
            let (moment, first, next) = (came.moment, &came.first, &came.next);
            return format!(in alloc; "{moment}: {first} {next}");
        }
        let seen = match (self.old, self.new) {
            (0, 0) => "nothing",
            (0, _) => "new",
            (_, 0) => "old",
            _ => "old and new",
        };
        String::from_str(alloc, seen)
    }
}

/// Whether the disks are other ones after that many calls than after one call less.
fn changes(pools: &MemPools, count: u64) -> bool {
    match count.checked_sub(1) {
        Some(last) => matches!(pools.shelf.call_at(last), Some((_, false))),
        None => true,
    }
}

/// Stops the command before its first call, after each write and flush, and after its last call. After a read the disks are as before it.
fn stopped(alloc: Global, tried: Tried) -> Result<String, AllocError> {
    let base = written(alloc, tried.before)?;
    let calls = recorded(alloc, &base, tried)?;
    let end = calls.shelf.call_count();
    let mut seen = Seen::new(&STOPPED);
    for count in 0..end.saturating_add(1) {
        if count == end || changes(&calls, count) {
            let faults = calls.shelf.stop_at(count);
            seen.see(tried_on(alloc, &base, tried, count, faults, READ)?);
        }
    }
    seen.told(alloc)
}

/// Of the calls whose moments are multiples of this number reads meet a fault too. A command makes some 3,000 reads, most of them of slots.
const EACH_READ: u64 = 61;

/// One call fails, and no other: each write and flush in turn, and some reads.
fn failed(alloc: Global, tried: Tried) -> Result<String, AllocError> {
    let base = written(alloc, tried.before)?;
    let calls = recorded(alloc, &base, tried)?;
    let mut seen = Seen::new(&FAULTED);
    for moment in 0..calls.shelf.call_count() {
        let Some((place, is_read)) = calls.shelf.call_at(moment) else {
            continue;
        };
        if !is_read || moment % EACH_READ == 0 {
            let faults = calls.shelf.fault_at(place, moment);
            let next = tried.next.get(place).copied().unwrap_or(READ);
            seen.see(tried_on(alloc, &base, tried, moment, faults, next)?);
        }
    }
    seen.told(alloc)
}

#[test]
fn stops_leave_the_old_bytes_or_the_new_ones(rt: HostRuntime) -> Result<(), Fail> {
    let alloc = rt.alloc();
    let (write, status) = (stopped(alloc, WRITE)?, stopped(alloc, STATUS)?);
    let told = format!(in alloc; "{write}; {status}")?;
    assert!(rt; told.as_str() == "old and new; old", "{told}");
    Ok(())
}

#[test]
fn faults_leave_the_bytes_of_a_committed_group(rt: HostRuntime) -> Result<(), Fail> {
    let alloc = rt.alloc();
    let (write, status) = (failed(alloc, WRITE)?, failed(alloc, STATUS)?);
    let told = format!(in alloc; "{write}; {status}")?;
    assert!(rt; told.as_str() == "new; old", "{told}");
    Ok(())
}

#[test]
fn scrubs_that_fail_leave_the_bytes(rt: HostRuntime) -> Result<(), Fail> {
    let alloc = rt.alloc();
    let (stops, faults) = (stopped(alloc, SCRUB)?, failed(alloc, SCRUB)?);
    let told = format!(in alloc; "{stops}; {faults}")?;
    assert!(rt; told.as_str() == "new; new", "{told}");
    Ok(())
}
