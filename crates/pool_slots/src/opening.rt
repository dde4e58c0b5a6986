//! An open: a survey, and the claim of what it took.
ghost use Rattle.std.specs.Prelude.{◌≡◌, ◌<◌, length, IfErr, IfOk, OnOk};
ghost use Rattle.pool_slots.specs.Configs.{OpenConfigures};
ghost use Rattle.pool_slots.specs.Failures.{IsFailure};
ghost use Rattle.pool_slots.specs.Labels.{AreClaimed, AreSlotted, IsClaimWrite};
ghost use Rattle.pool_slots.specs.OpenRefusals.{OpenRefuses};
ghost use Rattle.pool_slots.specs.Opens.{OpenGives, OpenKeeps, OpenMarks, OpenTakes};
ghost use Rattle.pool_slots.specs.Relabels.{OpenMarksFirst, OpenRelabels, OpenRewrites};
ghost use Rattle.pool_slots.specs.Slots.{HaveLabels, InUse, MakesOn};
ghost use Rattle.pool_slots.specs.Surveys.{IsWholeOf, OfSurveyed};

use crate::claiming::write_claim;
use crate::refusal::{DiskFailure, Refusal};
use crate::surveyed::Survey;
use crate::surveying::survey;
use model_disk::{Disk, DiskArray};
use std::alloc::Global;
use uberblock_ring::Uberblock;

/// Claims what a survey of the disks took: writes it under the next claim, and answers it. Nothing may
/// have been written to the disks since the survey.
///
/// Four phases are written, each flushed on all disks in use before the next begins: each disk's claim
/// label, the claimed uberblock in the half of each disk's labels in which its own highest one was not
/// read (labels 0 and 2 of a disk that has none), the same in the other half, and the disk's other three
/// labels. The claim label is the lowest one
/// that shows nothing; else the lowest without which the other three show the same configurations and the
/// greatest claim; else the lowest of those with the least claim. All four are written alike: as the
/// latest label of the disk with the configuration of the taken uberblock, with the claim and the group.
/// A disk that has none with it takes over one of another disk, with its own guid and that of its vdev.
///
/// The first write or flush that fails ends it.
pub fn claim<D: Disk + Drop>(
    survey: &Survey,
    disks: &mut DiskArray<D>,
    out: &[bool],
) -> Result<Uberblock, DiskFailure>
    requires out { length out.now ≡ length disks.old.starts }
    requires labels { HaveLabels disks.old.starts }
    requires whole { IsWholeOf out.now disks.old.starts survey.now }

    // It answers the uberblock that was to be claimed.
    ensures answer { IfOk result (λ u. u ≡ survey.now.claimed) }

    // The disks lead to it alone. What is said here and below of the first disks holds of any that the survey was made of.
    ensures opened { OnOk result (OfSurveyed out.now survey.now disks.old
        (λ rewind first. OpenGives out.now rewind first survey.now.claimed disks.new)) }

    // It stands in its slot in all four labels of each.
    ensures slotted { OnOk result (AreSlotted out.now disks.new survey.now.claimed) }

    // Then each of their labels shows its claim.
    ensures labeled { OnOk result (AreClaimed out.now disks.new survey.now.claimed) }

    // They are as the latest label of the disk with the configuration that is taken, or one of another disk with the disk's own guids.
    ensures relabeled { OnOk result (OfSurveyed out.now survey.now disks.old
        (λ rewind first. OpenRelabels out.now first survey.now.claimed disks.new)) }

    // Of each disk the claim label is written first, and flushed on all before anything else is written.
    ensures marked_first { OnOk result (OfSurveyed out.now survey.now disks.old
        (λ rewind first. OpenMarksFirst out.now first survey.now.claimed disks.new)) }

    // No disk that is out is called, and all that is written are the uberblock's slots, and labels with its claim.
    ensures makes { MakesOn (InUse out.now)
        (IsClaimWrite disks.old.starts out.now survey.now.claimed) disks.old disks.new }

    // Each label that is written is one of its disk, with the claim and the group.
    ensures rewrites { OfSurveyed out.now survey.now disks.old
        (λ rewind first. OpenRewrites out.now first disks.new) }

    // Stopped at any moment, inside a device call too, the disks lead to one of the possible ones, or to a claim of one.
    ensures any_moment { OfSurveyed out.now survey.now disks.old
        (λ rewind first. OpenKeeps out.now rewind first disks.new) }

    // And until the claim is begun in a slot their labels show no less than before, and then on each disk one shows the claim.
    ensures labels_any_moment { OfSurveyed out.now survey.now disks.old
        (λ rewind first. OpenMarks out.now rewind first disks.new) }

    // And on each disk that showed it some label shows the configuration that is taken, where no disk showed four different ones before.
    ensures configured_any_moment { OfSurveyed out.now survey.now disks.old
        (λ rewind first. OpenConfigures out.now rewind first disks.new) }

    // It fails only where a call did on the disk that it names.
    ensures fault { IfErr result (IsFailure disks.old disks.new) }
{
    let claimed = survey.claimed();
    write_claim(disks, out, &survey.found, &survey.plan.areas, &claimed)?;
    Ok(claimed)
}
