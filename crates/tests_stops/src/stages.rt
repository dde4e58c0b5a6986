//! The runs that are stopped.
use crate::history::Possible;
use crate::pools::{Act, Doing, Shown, Volume, Which};
use crate::runs::{Run, recorded};
use crate::stopping::Stop;
use Act::{Destroys, Fills, Makes};
use Which::{Cloned, Snapshot, V, W};
use pool_create::Refusal;
use std::alloc::Global;

/// What a new pool shows.
pub(crate) const NEW: Shown = Shown {
    group: 3,
    v: Volume::Absent,
    w: Volume::Absent,
    snapshot: Volume::Absent,
    cloned: Volume::Absent,
};

/// What a run does with the pool that it opened.
#[derive(Drop)]
pub(crate) struct Schedule {
    /// It commits these groups, one after another.
    pub(crate) groups: &'static [&'static [Doing]],
    /// And then it exports the pool.
    pub(crate) is_exported: bool,
}

/// The last group of the first schedule.
pub(crate) const LAST: u64 = 10;

/// Of a new pool: groups 4 to 10. Group 7 gives back what only the clone and the snapshot had, and group 10 is the first that may use
/// this room. So that it comes soon, the two groups between do nothing.
pub(crate) const FIRST: Schedule = Schedule {
    groups: &[
        &[(V, Makes), (W, Makes)],
        &[
            (V, Fills(0, 0x10)),
            (V, Fills(1, 0x11)),
            (Snapshot, Makes),
            (V, Fills(2, 0x12)),
            (Cloned, Makes),
        ],
        &[
            (V, Fills(1, 0x21)),
            (W, Fills(0, 0x22)),
            (Cloned, Fills(1, 0x23)),
        ],
        &[
            (V, Fills(0, 0x30)),
            (Cloned, Destroys),
            (Snapshot, Destroys),
        ],
        &[],
        &[],
        &[
            (V, Fills(3, 0x40)),
            (W, Fills(1, 0x41)),
            (W, Fills(2, 0x42)),
        ],
    ],
    is_exported: true,
};

/// Of a pool that lacks a disk, after these.
pub(crate) const LATER: Schedule = Schedule {
    groups: &[
        &[
            (V, Fills(1, 0x51)),
            (V, Fills(2, 0x52)),
            (W, Fills(1, 0x53)),
            (Snapshot, Makes),
        ],
        &[(V, Fills(1, 0x61)), (Cloned, Makes), (W, Destroys)],
    ],
    is_exported: true,
};

pub(crate) const OPENS_ALONE: Schedule = Schedule {
    groups: &[],
    is_exported: false,
};

/// A pool is opened after a stop of its run, by which it may show what was possible then, and goes on as the schedule says.
pub(crate) fn next_run(
    alloc: Global,
    run: &Run,
    stop: Stop,
    schedule: &Schedule,
) -> Result<Run, Refusal> {
    let mut possible = Vec::new(alloc);
    for it in &run.history {
        if it.covers(stop.cut) {
            possible.push(Possible {
                shown: it.shown,
                from: 0,
                until: u64::MAX,
            })?;
        }
    }
    let images = run.images(alloc, stop.cut, stop.pattern)?;
    recorded(alloc, images, stop.absent, possible, schedule)
}
