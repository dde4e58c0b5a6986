//! Plans of a pool whose parity workers share.
ghost use Rattle.std.specs.Prelude.{◌<◌};

use crate::gates::Meeting;
use crate::made::{VOLUME, name};
use block_store::VdevConfig;
use model_disk::{Disk, MemDisk};
use planners::{Alone, Planner, Workers, step_of};
use pool_core::{Core, plan_with};
use pool_model::{Action, Bytes, Change, Reply, Step, Write};
use raidz_map::Geometry;
use std::alloc::Global;
use std::sync::atomic::{AtomicBool, AtomicU64, Ordering};
use std::test::*;
use std::thread::Threads;
use worker_items::Gate;

/// Counts the extents that pass, and notes one that another worker should make.
#[derive(Drop)]
struct Counted {
    workers: usize,
    extents: AtomicU64,
    wrong: AtomicBool,
}

impl Gate for Counted {
    fn pass(&self, worker: usize, item: usize) {
        self.extents.fetch_add(1, Ordering::SeqCst);
        if self.workers > 0 && item % self.workers != worker {
            self.wrong.store(true, Ordering::SeqCst);
        }
    }
}

/// Lets a group be planned that has this step of a writer.
pub(crate) fn quiesce<D: Disk + Drop>(core: &mut Core<D>, writer: u32, step: Step) {
    core.step(Step::Hold(writer));
    core.step(step);
    core.step(Step::Release(writer));
    core.step(Step::Close);
    core.step(Step::Quiesce);
}

/// Makes the calls of the planned group, and gives the last reply.
pub(crate) fn commit<D: Disk + Drop>(core: &mut Core<D>) -> Reply {
    for _ in 0..1000 {
        let reply = core.step(Step::Device);
        if !matches!(reply, Reply::Moved(_)) {
            return reply;
        }
    }
    core.step(Step::Device)
}

/// A pool of five disks with two parities, which has a volume of 16 blocks of 4 KiB, and a group that waits to be planned: a write of all
/// of it.
fn quiesced(alloc: Global) -> Result<Core<MemDisk>, Fail> {
    let created_name = name(alloc, VOLUME)?;
    let volume = name(alloc, VOLUME)?;
    let bytes = Bytes::new(vec![in alloc; 7; 0x1_0000]?);
    let vdev = VdevConfig {
        geometry: Geometry::new(5, 2, 9)?,
        metaslab_shift: 12,
        meta_slabs: 1,
    };
    let disks = MemDisk::several(alloc, 5, 0x80_0000)?;
    let mut core = Core::create(alloc, disks, &[vdev])?;
    let created = Step::Act(Action {
        writer: 1,
        number: 1,
        change: Change::Create {
            name: created_name,
            size: 0x1_0000,
            block_size: 0x1000,
        },
    });
    quiesce(&mut core, 1, created);
    core.step(Step::Plan { timestamp: 8 });
    commit(&mut core);
    let write = Step::Write(Write {
        writer: 1,
        number: 2,
        volume,
        offset: 0,
        bytes,
    });
    quiesce(&mut core, 1, write);
    Ok(core)
}

/// Whether the planned group is committed, and reads right without the first two disks, by its parity alone.
fn reads_right(alloc: Global, core: &mut Core<MemDisk>) -> Result<bool, Fail> {
    let is_committed = matches!(commit(core), Reply::Committed(5));
    let volume = name(alloc, VOLUME)?;
    let Ok(bytes) = core.read_under(5, &volume, 0, 0x1_0000, &[0, 1]) else {
        return Ok(false);
    };
    Ok(is_committed && bytes.as_slice().iter().all(|byte| *byte == 7))
}

/// What a call replies that has so many workers make the plan's parity, each behind this gate, and whether the pool then reads right. The step
/// has made the plan before where that is asked.
fn made_at<G: Gate + Sync, R: Threads + Sync>(
    rt: &R,
    alloc: Global,
    gate: &G,
    workers: usize,
    is_made: bool,
) -> Result<String, Fail>
    requires { 0 < workers }
{
    let mut core = quiesced(alloc)?;
    if is_made {
        core.step(Step::Plan { timestamp: 9 });
    }
    let reply = plan_with(rt, gate, workers, &mut core, 9);
    let is_right = reads_right(alloc, &mut core)?;
    Ok(format!(in alloc; "{reply:?} {is_right}")?)
}

/// What the pool replies where that planner makes the plan, whether it then gives a hold on the next group, and whether it reads right.
fn planned_by<X: Planner>(planner: &X, alloc: Global) -> Result<String, Fail>
    requires { X.ready }
{
    let mut core = quiesced(alloc)?;
    let reply = step_of(planner, &mut core, Step::Plan { timestamp: 9 });
    let is_held = matches!(step_of(planner, &mut core, Step::Hold(2)), Reply::Held(6));
    let is_right = reads_right(alloc, &mut core)?;
    Ok(format!(in alloc; "{reply:?} {is_held} {is_right}")?)
}

/// Two workers wait for each other at the gate. With as many workers as there are, each extent passes it once, and the parity is right.
#[test]
fn workers_share_a_plan(rt: HostRuntime) -> Result<(), Fail> {
    let alloc = rt.alloc();
    let meeting = Meeting::new();
    let told = made_at(&rt, alloc, &meeting, 2, false)?;
    assert!(rt; told.as_str() == "Planned(5) true", "{told}");
    assert!(rt; meeting.was_held());
    let mut counts = Vec::new(alloc);
    for workers in 1..6 {
        let gate = Counted {
            workers,
            extents: AtomicU64::new(0),
            wrong: AtomicBool::new(false),
        };
        let told = made_at(&rt, alloc, &gate, workers, false)?;
        assert!(rt; told.as_str() == "Planned(5) true", "{told}");
        assert!(rt; !gate.wrong.load(Ordering::SeqCst));
        counts.push(gate.extents.load(Ordering::SeqCst))?;
    }
    let first = counts.first().copied().unwrap_or(0);
    assert!(rt;
        first > 16 && counts.iter().all(|count| *count == first),
        "{counts:?}"
    );
    Ok(())
}

/// The step makes all of a plan's parity, and makes it right: a call behind it finds no extent whose parity isn't made. So do planners,
/// alone or by workers.
#[test]
fn a_plan_is_whole_whoever_makes_it(rt: HostRuntime) -> Result<(), Fail> {
    let alloc = rt.alloc();
    let gate = Counted {
        workers: 2,
        extents: AtomicU64::new(0),
        wrong: AtomicBool::new(false),
    };
    let told = made_at(&rt, alloc, &gate, 2, true)?;
    assert!(rt; told.as_str() == "Refused(NotNow) true", "{told}");
    assert!(rt; gate.extents.load(Ordering::SeqCst) == 0);
    let alone = planned_by(&Alone, alloc)?;
    assert!(rt; alone.as_str() == "Planned(5) true true", "{alone}");
    let shared = planned_by(&Workers::new(&rt, 3), alloc)?;
    assert!(rt; shared == alone, "{shared}");
    Ok(())
}
