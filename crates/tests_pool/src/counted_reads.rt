//! How many reads of disks a committed block takes, in pools of few volumes and of many.
use crate::making::made;
use crate::playing::wrong_replies;
use std::alloc::{AllocError, Global};
use std::cell::Cell;
use std::rc::Rc;
use std::test::Fail;

/// One vdev of three disks, with one parity: three metaslabs for volumes, and two for what leads to them. Group 4 makes so many
/// volumes of 16 blocks, named v1 and so on, and group 5 writes block 1 of the last one.
fn lines(alloc: Global, count: u64) -> Result<String, AllocError> {
    let mut lines = String::from_str(alloc, "pool 1 3 8388608 12 2\nhold 1 -> held 4\n")?;
    for below in 0..count {
        let number = below.saturating_add(1);
        let line = format!(in alloc; "create 1 {number} v{number} 8192 512 -> receipt 4\n")?;
        lines.push_str(line.as_str())?;
    }
    let next = count.saturating_add(1);
    let last = format!(in alloc;
        "release 1 -> released
sync -> committed 4
hold 1 -> held 5
write 1 {next} v{count} 512 512 a5 -> receipt 5
release 1 -> released
sync -> committed 5
"
    )?;
    lines.push_str(last.as_str())?;
    Ok(lines)
}

/// How many volumes there are, and how many reads the block takes.
const COUNTS: [(u64, u64); 3] = [(3, 16), (20, 20), (70, 20)];

/// How many reads that block takes in a pool of so many volumes, and what is replied otherwise than it is to be.
fn reads_among(alloc: Global, count: u64) -> Result<(u64, String), Fail> {
    let reads = Rc::new(alloc, Cell::new(0u64))?;
    let lines = lines(alloc, count)?;
    let block = format!(in alloc; "under 5 v{count} 512 512 -> a5x512")?;
    let mut player = made(alloc, &lines, &reads)?;
    let mut wrong = wrong_replies(alloc, &mut player, &lines)?;
    let before = reads.get();
    wrong.push_str(wrong_replies(alloc, &mut player, &block)?.as_str())?;
    Ok((reads.get().saturating_sub(before), wrong))
}

/// A block of more than one sector takes two reads of disks, and one of one sector one. They are: the root; the block of dnodes
/// of the meta object set once for each of its two dnodes on the way, and behind it the record; the volume's object set; the block of
/// its dnodes twice; an indirect block, and the block itself. Among 20 volumes or more an indirect block lies above the dnodes of
/// the meta object set.
#[test]
fn reads_do_not_grow_with_the_volumes(rt: HostRuntime) -> Result<(), Fail> {
    for &(count, wanted) in &COUNTS {
        let (reads, wrong) = reads_among(rt.alloc(), count)?;
        assert!(rt; wrong.is_empty(), "{wrong}");
        assert!(rt; reads == wanted, "{reads} among {count}");
    }
    Ok(())
}
