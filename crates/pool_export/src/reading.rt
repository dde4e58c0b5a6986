//! The areas that are to be written, read from the labels of the disks.
ghost use Rattle.std.specs.Prelude.{◌≡◌, ◌≤◌, ◌<◌, length, IfOk};
ghost use Rattle.model_disk.specs.Joint.{bytes_of};
ghost use Rattle.uberblock_ring.specs.Uberblock.{IsNumber};
ghost use Rattle.vdev_label.specs.Plain.{label_view};
ghost use Rattle.pool_slots.specs.Labels.{IsValid, inscribed};
ghost use Rattle.pool_slots.specs.Reads.{OnlyReads};
ghost use Rattle.pool_slots.specs.Slots.{HaveLabels, InUse, is_disk};
ghost use Rattle.pool_slots.specs.Present.{is_out};
ghost use Rattle.pool_export.specs.Absence.{GoOutFailing};
ghost use Rattle.pool_export.specs.Faults.{EndsAtFault, IsFaultOf};
ghost use Rattle.pool_export.specs.Reads.{ReadsArea, ReadsAreas, ReadsIfUsed};
ghost use Rattle.pool_export.specs.Taken.{exported};

use crate::label_reads::read_best;
use crate::refusal::Refusal;
use crate::unread::Unread;
use model_disk::{Disk, DiskArray};
use std::alloc::{AllocError, Global};
use uberblock_ring::Uberblock;
use vdev_label::{Label, State, encode_area, relabeled_has_room};

/// The area of a label as it is put away, with the claim and group of an uberblock.
fn put_away(alloc: Global, label: Label, uberblock: &Uberblock) -> Result<Vec<u8>, AllocError>
    requires valid { IsValid (label_view label) }
    requires claim { IsNumber uberblock.now.claim }
    requires group { IsNumber uberblock.now.group }
    ensures { IfOk result (λ area. area.items
        ≡ inscribed (exported (label_view label) uberblock.now)) }
{
    relabeled_has_room();
    let label = Label {
        claim: uberblock.claim,
        group: uberblock.group,
        state: State::Exported,
        ..label
    };
    encode_area(alloc, &label)
}

/// Reads the labels of a disk, and answers the area that is to be written to them.
fn read_area<D: Disk + Drop>(
    alloc: Global,
    disks: &mut DiskArray<D>,
    which: usize,
    uberblock: &Uberblock,
) -> Result<Vec<u8>, Unread>
    requires which { which < length disks.old.starts }
    requires room { 1048576 ≤ length (bytes_of disks.old.starts which) }
    requires claim { IsNumber uberblock.now.claim }
    requires group { IsNumber uberblock.now.group }
    ensures only { OnlyReads (is_disk which) (IsFaultOf result) disks.old disks.new }
    ensures ends { EndsAtFault result disks.old disks.new which }
    ensures reads { ReadsArea uberblock.now disks.old disks.new which result }
{
    match read_best(alloc, disks, which, &uberblock.config_digest)? {
        Some(label) => Ok(put_away(alloc, label, uberblock)?),
        None => Err(Unread::NoLabel { disk: which }),
    }
}

/// The same of a disk in use, which is out from then on where a read fails. Nothing of one that is out.
fn read_or_put_out<D: Disk + Drop>(
    alloc: Global,
    disks: &mut DiskArray<D>,
    out: &mut Vec<bool>,
    which: usize,
    uberblock: &Uberblock,
) -> Result<Option<Vec<u8>>, Refusal>
    requires which { which < length disks.old.starts }
    requires out { length out.old.items ≡ length disks.old.starts }
    requires labels { HaveLabels disks.old.starts }
    requires claim { IsNumber uberblock.now.claim }
    requires group { IsNumber uberblock.now.group }
    ensures absent { GoOutFailing out.old.items out.new.items disks.old disks.new }
    ensures only { OnlyReads (InUse out.old.items) (is_out out.new.items) disks.old disks.new }
    ensures reads { ReadsIfUsed out.new.items uberblock.now disks.old disks.new which result }
{
    if out[which] {
        return Ok(None);
    }
    match read_area(alloc, disks, which, uberblock) {
        Ok(area) => Ok(Some(area)),
        Err(Unread::DiskFault { .. }) => {
            out[which] = true;
            Ok(None)
        }
        Err(Unread::NoMemory) => Err(Refusal::NoMemory),
        Err(Unread::NoLabel { disk }) => Err(Refusal::NoLabel { disk }),
    }
}

/// Reads the labels of all disks in use. Those of which a read fails are out from then on.
pub(crate) fn read_areas<D: Disk + Drop>(
    alloc: Global,
    disks: &mut DiskArray<D>,
    out: &mut Vec<bool>,
    uberblock: &Uberblock,
) -> Result<Vec<Option<Vec<u8>>>, Refusal>
    requires out { length out.old.items ≡ length disks.old.starts }
    requires labels { HaveLabels disks.old.starts }
    requires claim { IsNumber uberblock.now.claim }
    requires group { IsNumber uberblock.now.group }
    ensures absent { GoOutFailing out.old.items out.new.items disks.old disks.new }
    ensures only { OnlyReads (InUse out.old.items) (is_out out.new.items) disks.old disks.new }
    ensures reads { ReadsAreas out.new.items uberblock.now disks.old disks.new result }
{
    let mut all = Vec::new(alloc);
    for which in 0..disks.len() {
        let area = read_or_put_out(alloc, disks, out, which, uberblock)?;
        all.push(area)?;
    }
    Ok(all)
}
