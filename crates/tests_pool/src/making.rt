//! Pools over disks in memory, made by the text of a schedule: its line `pool ..` says which pool, and `fault DISK KIND NUMBER`
//! which call of a disk fails (of the kinds `at`, `from`, `read`, `write` and `flush`).
use crate::playing::{Player, wrong_replies};
use crate::test_disk::{TestDisk, disk};
use block_store::VdevConfig;
use model_disk::Fault;
use pool_core::Core;
use raidz_map::Geometry;
use schedule_lines::{Command, Line, PoolLine, parse};
use std::alloc::{AllocError, Global};
use std::cell::Cell;
use std::rc::Rc;
use std::test::Fail;

/// The last fault that a schedule tells of a disk, or one that never comes.
fn fault_in(alloc: Global, text: &str, disk: u32) -> Result<Fault, AllocError> {
    let mut fault = Fault::At(u64::MAX);
    for line in text.lines() {
        let words: Vec<&str> = line.split(' ').collect(alloc)?;
        let [word, which, kind, number] = words.as_slice() else {
            continue;
        };
        if *word == "fault" && which.parse().unwrap_or(u32::MAX) == disk {
            let number = number.parse().unwrap_or(u64::MAX);
            fault = match *kind {
                "from" => Fault::From(number),
                "read" => Fault::Read(number),
                "write" => Fault::Write(number),
                "flush" => Fault::Flush(number),
                _ => Fault::At(number),
            };
        }
    }
    Ok(fault)
}

/// What the first line that makes a pool says.
fn pool_in(alloc: Global, text: &str) -> Result<PoolLine, Fail> {
    for line in text.lines() {
        if line.starts_with("pool ")
            && let Line::Command(Command::Pool(pool)) = parse(alloc, line.as_bytes())?
        {
            return Ok(pool);
        }
    }
    Err(Fail::new("no pool"))
}

/// Disks that fail as a schedule tells, and count their reads.
pub(crate) fn disks(
    alloc: Global,
    text: &str,
    count: u32,
    bytes: u64,
    reads: &Rc<Cell<u64>>,
) -> Result<Vec<TestDisk>, AllocError> {
    let mut disks = Vec::new(alloc);
    for which in 0..count {
        let fault = fault_in(alloc, text, which)?;
        disks.push(disk(alloc, bytes as usize, fault, reads)?)?;
    }
    Ok(disks)
}

/// The pool of a schedule, whose disks count their reads.
pub(crate) fn made(
    alloc: Global,
    text: &str,
    reads: &Rc<Cell<u64>>,
) -> Result<Player<TestDisk>, Fail> {
    let line = pool_in(alloc, text)?;
    let vdev = VdevConfig {
        geometry: Geometry::new(line.disks, line.parities, 9)?,
        metaslab_shift: line.metaslab_shift,
        meta_slabs: u64::from(line.meta_metaslabs),
    };
    let disks = disks(alloc, text, line.disks, line.bytes, reads)?;
    let core = Core::create(alloc, disks, &[vdev])?;
    let missing = Vec::new(alloc);
    Ok(Player { core, missing })
}

/// The lines of schedules that their pools reply to otherwise, with the replies.
pub(crate) fn wrong_in(alloc: Global, texts: &[&str]) -> Result<String, Fail> {
    let reads = Rc::new(alloc, Cell::new(0u64))?;
    let mut wrong = String::new(alloc);
    for text in texts {
        let mut player = made(alloc, text, &reads)?;
        wrong.push_str(wrong_replies(alloc, &mut player, text)?.as_str())?;
    }
    Ok(wrong)
}
