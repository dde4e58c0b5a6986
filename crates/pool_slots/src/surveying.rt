//! A survey of disks: what an open finds on them, before anything is written.
ghost use Rattle.std.specs.Prelude.{◌≡◌, length, IfErr, IfOk};
ghost use Rattle.pool_slots.specs.Reads.{IsFaultOf, OnlyReads};
ghost use Rattle.pool_slots.specs.Slots.{HaveLabels, InUse};
ghost use Rattle.pool_slots.specs.Surveys.{IsSurveyed, IsWholeOf, SurveyRefuses};

use crate::areas::plan_claim;
use crate::going_back::taken_from;
use crate::refusal::Refusal;
use crate::scan::{find_all, highest_of};
use crate::surveyed::Survey;
use model_disk::{Disk, DiskArray};
use std::alloc::Global;

/// Surveys the disks in use: the highest uberblock on them, or where it goes back (`rewind`, 1 or 2) the
/// one of the same claim that is so many groups less, and what a claim of it writes. The disks are only
/// read, their slots first and then their labels. A read that fails ends it, as `DiskFault`.
///
/// `NoUberblock` where no disk has one, or none has one so many groups less: a disk without one is surveyed like the
/// others. `NoLabel` where no disk has a label with the taken uberblock's configuration, or a disk has no label at all;
/// `UsedUp` where the last claim that there is was taken.
pub fn survey<D: Disk + Drop>(
    alloc: Global,
    disks: &mut DiskArray<D>,
    out: &[bool],
    rewind: u64,
) -> Result<Survey, Refusal>
    requires out { length out.now ≡ length disks.old.starts }
    requires labels { HaveLabels disks.old.starts }

    // Nothing is called but reads of disks in use, and none of them fails but one that the answer names.
    ensures only { OnlyReads (InUse out.now) (IsFaultOf result) disks.old disks.new }

    // It has what is to be written to each disk in use.
    ensures whole { IfOk result (IsWholeOf out.now disks.old.starts) }

    // And says what they show: the highest uberblock, the one so many groups less, the next claim, and labels made of theirs.
    ensures surveyed { IfOk result (IsSurveyed out.now rewind disks.old disks.new) }

    // Each refusal has its cause on the disks in use.
    ensures refused { IfErr result (SurveyRefuses out.now rewind disks.old disks.new) }
{
    let found = find_all(alloc, disks, out)?;
    let highest = highest_of(alloc, &found)?;
    let taken = taken_from(alloc, disks, out, &highest, rewind)?;
    let plan = plan_claim(alloc, disks, out, &taken, &highest)?;
    Ok(Survey {
        found,
        highest,
        taken,
        plan,
    })
}
