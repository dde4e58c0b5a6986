//! Runs of a pool over disks that record their calls.
use crate::history::{Possible, settle};
use crate::images::{Pattern, image_of};
use crate::pools::{Doing, Shown, commit, do_all, ended, shown_in};
use crate::recording::{TimedCall, calls_of, recording_disk};
use crate::stages::{LAST, Schedule};
use crate::stopping::{IMAGES, Stop};
use model_disk::Disk;
use pool_create::{Core, OpenedPool, Refusal, open};
use std::alloc::{AllocError, Global};
use std::cell::Cell;
use std::rc::Rc;

/// What was done on three disks since they held these bytes.
#[derive(Drop)]
pub(crate) struct Run {
    starts: Vec<Vec<u8>>,
    calls: Vec<Vec<TimedCall>>,
    /// How many stops of it there are: of each number of calls, from none to all, those with each image.
    pub(crate) stops: u64,
    /// What was shown as the pool was opened.
    pub(crate) opened: Shown,
    pub(crate) history: Vec<Possible>,
}

impl Run {
    /// What a stop at that moment leaves of the disks.
    pub(crate) fn images(
        &self,
        alloc: Global,
        cut: u64,
        pattern: Pattern,
    ) -> Result<Vec<Vec<u8>>, AllocError> {
        let mut images = Vec::new(alloc);
        for which in 0..self.starts.len().min(self.calls.len()) {
            let image = image_of(alloc, &self.starts[which], &self.calls[which], cut, pattern)?;
            images.push(image)?;
        }
        Ok(images)
    }

    /// A stop whose `cut` counts from the first slot of the last group on, as one whose `cut` counts from the start.
    pub(crate) fn in_slots(&self, stop: Stop) -> Stop {
        let mut stop = stop;
        for it in &self.history {
            if it.shown.group == LAST {
                stop.cut = it.from.saturating_add(stop.cut);
                return stop;
            }
        }
        stop
    }
}

/// What the pool shows that stands at that group, from which it commits these groups one after another.
fn run_on<D: Disk + Drop>(
    alloc: Global,
    core: &mut Core<D>,
    group: u64,
    groups: &[&[Doing]],
    moments: &Cell<u64>,
    history: &mut Vec<Possible>,
) -> Result<Shown, AllocError> {
    let opened = shown_in(alloc, core, group);
    settle(history, opened, moments.get());
    let mut shown = opened;
    let mut number: u64 = 1;
    for doings in groups {
        do_all(alloc, core, doings, number)?;
        number = number.saturating_add(doings.len() as u64);
        shown = shown.next(doings);
        let first_slot = commit(core, moments).unwrap_or(u64::MAX);
        history.push(Possible {
            shown,
            from: first_slot.saturating_add(1),
            until: u64::MAX,
        })?;
        settle(history, shown, moments.get());
    }
    Ok(opened)
}

/// Opens a pool on disks that hold these bytes, one of which may be absent, and does what the schedule says. `possible` is what may be
/// shown as it is opened.
pub(crate) fn recorded(
    alloc: Global,
    starts: Vec<Vec<u8>>,
    absent: Option<usize>,
    possible: Vec<Possible>,
    schedule: &Schedule,
) -> Result<Run, Refusal> {
    let moments = Rc::new(alloc, Cell::new(0u64))?;
    let mut disks = Vec::new(alloc);
    for which in 0..starts.len() {
        if absent != Some(which) {
            disks.push(recording_disk(alloc, &starts[which], &moments)?)?;
        }
    }
    let OpenedPool {
        mut core,
        uberblock,
    } = open(alloc, disks, 0)?.0;
    let mut history = possible;
    let opened = run_on(
        alloc,
        &mut core,
        uberblock.group,
        schedule.groups,
        &moments,
        &mut history,
    );
    let disks = ended(alloc, OpenedPool { core, uberblock }, schedule.is_exported)?;
    let calls = calls_of(alloc, disks)?;
    let opened = opened?;
    Ok(Run {
        calls,
        starts,
        stops: moments.get().saturating_add(1).saturating_mul(IMAGES),
        opened,
        history,
    })
}
