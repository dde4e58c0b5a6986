//! The export of the labels.
ghost use Rattle.std.specs.Prelude.{◌≡◌, ℕ, length, IfErr, OnOk};
ghost use Rattle.uberblock_ring.specs.Uberblock.{IsNumber};
ghost use Rattle.pool_slots.specs.Present.{is_out};
ghost use Rattle.pool_slots.specs.Slots.{AreSettled, HaveLabels, InUse, MakesOn};
ghost use Rattle.pool_export.specs.Absence.{GoOutFailing, SomeInUse};
ghost use Rattle.pool_export.specs.Moments.{ExportConfigures, ExportKeeps, ExportLeads, ExportMarks};
ghost use Rattle.pool_export.specs.Refusals.{ExportRefuses};
ghost use Rattle.pool_export.specs.Taken.{AreExported, ExportTakes};
ghost use Rattle.pool_export.specs.Writes.{IsExportWrite};
ghost use Rattle.pool_export.specs.declared.refusal.Refusal.TheVariants as Causes;

use crate::reading::read_areas;
use crate::refusal::Refusal;
use crate::settling::settle_labels;
use model_disk::{Disk, DiskArray};
use std::alloc::Global;
use uberblock_ring::Uberblock;

/// `NoDisk` where no disk is in use.
fn check_left(out: &[bool]) -> Result<(), Refusal>
    ensures some { OnOk result (SomeInUse out.now) }
    ensures none { IfErr result (λ refusal. (refusal ≡ Causes.NoDisk)
        × ((which : ℕ) → is_out out.now which)) }
{
    for which in 0..out.len() {
        if !out[which] {
            return Ok(());
        }
    }
    Err(Refusal::NoDisk)
}

/// Writes the four labels of each disk in use anew, so that they say that the pool is put away. Each disk's are
/// written alike: as the label that is taken there, in state `Exported`, with the uberblock's claim and group.
/// Taken is the label with the uberblock's configuration and the greatest claim, of several the lowest. `out` says
/// of each disk whether it isn't in use.
///
/// The labels of all disks are read before any is written. Then labels 1 and 3 of each disk are written and all
/// disks in use are flushed, and the same of labels 0 and 2. Which label is taken, and this order, are this
/// project's profile.
///
/// A disk of which a call fails is out from then on: `out` says so, no further call is made on it, and the others
/// are gone on with. Of its labels some may say that the pool is put away, and others not.
///
/// `NoLabel` names the first disk in use that shows the configuration in no label; that and want of memory come before
/// anything is written. `NoDisk` where no disk is left at the end.
pub fn export_labels<D: Disk + Drop>(
    alloc: Global,
    disks: &mut DiskArray<D>,
    out: &mut Vec<bool>,
    uberblock: &Uberblock,
) -> Result<(), Refusal>
    requires out { length out.old.items ≡ length disks.old.starts }
    requires labels { HaveLabels disks.old.starts }
    requires claim { IsNumber uberblock.now.claim }
    requires group { IsNumber uberblock.now.group }

    // Those disks of which a call failed are out now, and were called no more. No others went out.
    ensures absent { GoOutFailing out.old.items out.new.items disks.old disks.new }

    // No disk that was out is called, and all that is written are exported labels with the uberblock's configuration, claim and group.
    ensures makes { MakesOn (InUse out.old.items)
        (IsExportWrite disks.old.starts out.old.items uberblock.now) disks.old disks.new }

    // Where the disks answer truly, each is the label that is taken on its disk.
    ensures taken { ExportTakes out.old.items disks.old uberblock.now disks.new }

    // Then disks are in use still. Each label of each of these shows the one that was taken there, exported, and nothing is unflushed.
    ensures some { OnOk result (SomeInUse out.new.items) }
    ensures exported { OnOk result
        (AreExported out.new.items disks.old uberblock.now disks.new) }
    ensures settled { OnOk result (AreSettled out.new.items disks.new.calls) }

    // What was committed on them still is.
    ensures keeps { OnOk result (ExportKeeps out.new.items disks.old disks.new) }

    // Stopped at any moment, inside a device call too, the disks that were in use at first lead where they led before.
    ensures any_moment { ExportLeads out.old.items disks.old disks.new }

    // And each of them shows the configuration in some label, where label 0 or label 2 of each did before.
    ensures configured_any_moment { ExportConfigures out.old.items disks.old uberblock.now disks.new }

    // And a claim no less than this, if it is no more than the uberblock's, where label 0 or label 2 of each did before.
    ensures labels_any_moment { ExportMarks out.old.items disks.old uberblock.now disks.new }

    // Where it is refused for want of memory or a label, nothing but reads was called.
    ensures refused { IfErr result
        (ExportRefuses out.old.items out.new.items uberblock.now disks.old disks.new) }
{
    let areas = read_areas(alloc, disks, out, uberblock)?;
    settle_labels(disks, out, &areas);
    check_left(out)
}
