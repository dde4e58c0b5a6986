//! Plans of groups by themselves, which no schedule has.
use crate::making::disks;
use crate::playing::step_in;
use crate::test_disk::TestDisk;
use block_store::VdevConfig;
use pool_commit::{Commit, Progress};
use pool_model::{Item, Step};
use raidz_map::Geometry;
use std::alloc::Global;
use std::cell::Cell;
use std::rc::Rc;
use std::test::Fail;
use txg_pipeline::Pipeline;

/// The items of groups, what their plans are refused for, and whether they are committed: a volume of no whole number of blocks; the
/// volume v of 32 blocks of 128 KiB; and writes into the first of them. Behind the root that has v, each metaslab before the meta
/// region has room for seven large blocks more: 15 are one too many, and then 14 find room, and all above them what is left behind.
const PLANS: [(&str, u64, &str); 4] = [
    ("create 1 1 v 1000 512", 1, "Some(BadConfig) false"),
    ("create 1 1 v 4194304 131072", 1, "None true"),
    ("write 1 1 v 0 512 06", 15, "Some(NoSpace) false"),
    ("write 1 1 v 0 512 06", 14, "None true"),
];

/// What a pipeline has of a line, and of writes into as many blocks as there are to be items.
fn items(alloc: Global, line: &str, count: u64) -> Result<Pipeline, Fail> {
    let mut pipeline = Pipeline::new(alloc, 0);
    pipeline.hold(1)?;
    let mut line = String::from_str(alloc, line)?;
    for block in 1..count.saturating_add(1) {
        let item = match step_in(alloc, &line)?.0 {
            Step::Act(action) => Item::Action(action),
            Step::Write(write) => Item::Write(write),
            _ => return Err(Fail::new("no item")),
        };
        pipeline.accept(item)?;
        let (number, offset) = (block.saturating_add(1), block.saturating_mul(0x20000));
        line = format!(in alloc; "write 1 {number} v {offset} 512 06")?;
    }
    Ok(pipeline)
}

/// Makes the plan's device calls, and says whether the group is committed then.
fn is_done(commit: &mut Commit<TestDisk>) -> bool {
    for _ in 0..100 {
        match commit.device() {
            Some(Progress::Moved(_)) => {}
            progress => return progress == Some(Progress::Done),
        }
    }
    false
}

/// What the plan of a group is refused for, and whether it is committed.
fn planned(alloc: Global, commit: &mut Commit<TestDisk>, items: &Pipeline) -> Result<String, Fail> {
    if commit.is_planned() {
        return Err(Fail::new("planned before"));
    }
    let cause = commit.plan(alloc, items.open_items(), 0).err();
    let is_done = is_done(commit);
    Ok(format!(in alloc; "{cause:?} {is_done}")?)
}

/// A pool of one vdev over two small disks, of which each block can lose one: the meta region of one metaslab, and before it two, each
/// for eight large blocks.
#[test]
fn a_refused_plan_leaves_its_room(rt: HostRuntime) -> Result<(), Fail> {
    let alloc = rt.alloc();
    let vdev = VdevConfig {
        geometry: Geometry::new(2, 1, 9)?,
        metaslab_shift: 12,
        meta_slabs: 1,
    };
    let reads = Rc::new(alloc, Cell::new(0u64))?;
    let disks = disks(alloc, "", 2, 0x800000, &reads)?;
    let mut commit = Commit::new(alloc, disks, &[vdev])?;
    for (line, count, wanted) in &PLANS {
        let items = items(alloc, line, *count)?;
        let told = planned(alloc, &mut commit, &items)?;
        assert!(rt; told.as_str() == *wanted, "{line}, {count}: {told}");
    }
    Ok(())
}
