//! The claim of an uberblock.
ghost use Rattle.std.specs.Prelude.{◌≡◌, length, IfErr, OnOk};
ghost use Rattle.model_disk.specs.Joint.{content};
ghost use Rattle.model_disk.specs.Runs.{Makes};
ghost use Rattle.uberblock_ring.specs.Uberblock.{Fits};
ghost use Rattle.pool_slots.specs.Failures.{IsFailure};
ghost use Rattle.pool_slots.specs.Configs.{ClaimConfigures};
ghost use Rattle.pool_slots.specs.Labels.{AreClaimed, AreSlotted, AreasFit, AreasOn, AreasStand, IsClaimWrite};
ghost use Rattle.pool_slots.specs.Opens.{ClaimGives, ClaimKeeps, SlotsGive, SlotsKeep};
ghost use Rattle.pool_slots.specs.Relabels.{AreFirst, InAllLabels, of_areas};
ghost use Rattle.pool_slots.specs.Slots.{AreSettled, HaveLabels, InUse, MakesOn};
ghost use Rattle.pool_slots.specs.Writes.{IsSlotWrite, in_use};

use crate::found::Found;
use crate::label_writes::settle_areas;
use crate::labeled::Area;
use crate::refusal::DiskFailure;
use crate::writes::{flush_all, write_turn};
use model_disk::{Disk, DiskArray};
use uberblock_ring::Uberblock;

/// Writes an uberblock's slots in one half of the labels of each disk in use, and once they are
/// flushed on all of them in the other half. A disk on which nothing was found begins with labels 0
/// and 2. The first fault ends it.
fn claim_slots<D: Disk + Drop>(
    disks: &mut DiskArray<D>,
    out: &[bool],
    all: &[Option<Found>],
    uberblock: &Uberblock,
) -> Result<(), DiskFailure>
    requires out { length out.now ≡ length disks.old.starts }
    requires all { length all.now ≡ length disks.old.starts }
    requires labels { HaveLabels disks.old.starts }
    requires fits { Fits uberblock.now }
    ensures makes { MakesOn (InUse out.now)
        (IsSlotWrite disks.old.starts uberblock.now (in_use out.now)) disks.old disks.new }
    ensures fault { IfErr result (IsFailure disks.old disks.new) }
    ensures any_moment { SlotsKeep out.now disks.old uberblock.now all.now disks.new }
    ensures settled { OnOk result (AreSettled out.now disks.new.calls) }
    ensures slotted { OnOk result (AreSlotted out.now disks.new uberblock.now) }
    ensures claimed { OnOk result (SlotsGive out.now disks.old uberblock.now all.now disks.new) }
{
    write_turn(disks, out, all, 0, uberblock)?;
    flush_all(disks, out)?;
    write_turn(disks, out, all, 1, uberblock)?;
    flush_all(disks, out)
}

/// Writes the claim label of each disk in use, then the slots, then the other labels, each flushed
/// before the next begins. The first fault ends it.
pub(crate) fn write_claim<D: Disk + Drop>(
    disks: &mut DiskArray<D>,
    out: &[bool],
    all: &[Option<Found>],
    areas: &[Option<Area>],
    uberblock: &Uberblock,
) -> Result<(), DiskFailure>
    requires out { length out.now ≡ length disks.old.starts }
    requires all { length all.now ≡ length disks.old.starts }
    requires labels { HaveLabels disks.old.starts }
    requires fits { Fits uberblock.now }
    requires count { length areas.now ≡ length disks.old.starts }
    requires on { AreasOn out.now areas.now }
    requires areas { AreasFit uberblock.now areas.now }
    ensures makes { MakesOn (InUse out.now)
        (IsClaimWrite disks.old.starts out.now uberblock.now) disks.old disks.new }
    ensures alone { Makes
        (of_areas disks.old.starts out.now uberblock.now areas.now) disks.old disks.new }
    ensures fault { IfErr result (IsFailure disks.old disks.new) }
    ensures any_moment { ClaimKeeps
        out.now disks.old uberblock.now all.now areas.now disks.new }
    ensures configured { ClaimConfigures out.now disks.old areas.now disks.new }
    ensures claimed { OnOk result (ClaimGives out.now disks.old uberblock.now all.now disks.new) }
    ensures slotted { OnOk result (AreSlotted out.now disks.new uberblock.now) }
    ensures labeled { OnOk result (AreClaimed out.now disks.new uberblock.now) }
    ensures stand { OnOk result
        (AreasStand (content disks.new) disks.old.starts (InAllLabels areas.now)) }
    ensures first { OnOk result (AreFirst out.now disks.old areas.now disks.new) }
{
    settle_areas(disks, out, areas, true)?;
    claim_slots(disks, out, all, uberblock)?;
    settle_areas(disks, out, areas, false)
}
