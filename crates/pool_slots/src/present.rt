//! Opens that go on without a disk of which a read failed.
ghost use Rattle.std.specs.Prelude.{◌≡◌, ◌<◌, length, IfErr, IfOk};
ghost use Rattle.pool_slots.specs.Configs.{OpenConfigures};
ghost use Rattle.pool_slots.specs.Labels.{AreClaimed, AreSlotted};
ghost use Rattle.pool_slots.specs.OpenRefusals.{OpenRefuses};
ghost use Rattle.pool_slots.specs.Opens.{OpenGives, OpenKeeps, OpenMarks, OpenTakes};
ghost use Rattle.pool_slots.specs.Present.{GoOut, HaveFailed, IsNoFault};
ghost use Rattle.pool_slots.specs.Relabels.{OpenMarksFirst, OpenRelabels};
ghost use Rattle.pool_slots.specs.Slots.{HaveLabels, StayOut};
ghost use Rattle.pool_slots.specs.Surveys.{IsSurveyed, IsWholeOf, SurveyRefuses};

use crate::opening::claim;
use crate::refusal::Refusal;
use crate::surveyed::Survey;
use crate::surveying::survey;
use model_disk::{Disk, DiskArray};
use std::alloc::Global;
use uberblock_ring::Uberblock;

/// Surveys the disks in use, as `survey` does. Where a read of a disk fails, that disk is out from then on,
/// and the others are surveyed anew. So `out` holds what was out before and each disk that failed, and the
/// answer is never a `DiskFault`. Where no disk is left it is `NoUberblock`.
pub fn survey_present<D: Disk + Drop>(
    alloc: Global,
    disks: &mut DiskArray<D>,
    out: &mut Vec<bool>,
    rewind: u64,
) -> Result<Survey, Refusal>
    requires out { length out.old.items ≡ length disks.old.starts }
    requires labels { HaveLabels disks.old.starts }
    ensures count { length out.new.items ≡ length disks.old.starts }

    // The disks are only read. Those of which a read failed are out, and no others went out.
    ensures absent { GoOut out.old.items out.new.items disks.old disks.new }

    // It has what is to be written to each disk that is in use now, and says what those disks show.
    ensures whole { IfOk result (IsWholeOf out.new.items disks.old.starts) }
    ensures surveyed { IfOk result (IsSurveyed out.new.items rewind disks.old disks.new) }

    // Each refusal has its cause on them, and none is that a disk failed.
    ensures refused { IfErr result (SurveyRefuses out.new.items rewind disks.old disks.new) }
    ensures no_fault { IfErr result IsNoFault }
{
    for _ in 0..disks.len() {
        let refusal = match survey(alloc, disks, out, rewind) {
            Ok(found) => return Ok(found),
            Err(refusal) => refusal,
        };
        let Some(disk) = refusal.disk() else {
            return Err(refusal);
        };
        out[disk] = true;
    }
    survey(alloc, disks, out, rewind)
}
