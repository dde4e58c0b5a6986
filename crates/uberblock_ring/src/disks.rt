//! The slots of disks.
ghost use Rattle.std.specs.Prelude.{◌≡◌, ◌≤◌, ◌<◌, ◌*◌, ◌∷◌, ℕ, length, IfOk, OnOk, OnErr};
ghost use Rattle.model_disk.specs.Call.{write_call};
ghost use Rattle.model_disk.specs.Joint.{on, bytes_of, Stands};
ghost use Rattle.uberblock_ring.specs.Place.{slot_at, nth_slot_at};
ghost use Rattle.uberblock_ring.specs.Reads.{size_of, ReadsSlot, ReadsSlots};
ghost use Rattle.uberblock_ring.specs.Slot.{slot_bytes, slot_number};
ghost use Rattle.uberblock_ring.specs.Uberblock.{Fits};

use crate::refusal::Refusal;
use crate::slot::{SLOT_LEN, SLOTS, decode_slot, encode_slot, nth_offset, slot_offset};
use crate::uberblock::Uberblock;
use model_disk::{Disk, DiskArray, DiskError};
use std::alloc::Global;
use vdev_label::{LABEL_LEN, LABELS, label_offset};

/// How many slots a disk has, in all its labels.
pub const DISK_SLOTS: usize = 4 * SLOTS;

/// Writes the slot of an uberblock in one label of a disk. All else on the disk stays.
pub fn write_slot<D: Disk + Drop>(
    disks: &mut DiskArray<D>,
    which: usize,
    label: u64,
    uberblock: &Uberblock,
) -> Result<(), DiskError>
    requires which { which < length disks.old.starts }
    requires label { label < LABELS }
    requires size { LABELS * LABEL_LEN ≤ size_of disks.old which }
    requires fits { Fits uberblock.now }
    ensures starts { disks.new.starts ≡ disks.old.starts }
    ensures call { let at = slot_at
        (size_of disks.old which) label (slot_number uberblock.now.group) in
        disks.new.calls ≡ on which (write_call result at (slot_bytes uberblock.now))
        ∷ disks.old.calls }
{
    let at = label_offset(disks.size(which), label) + slot_offset(uberblock.group);
    disks.write_at(which, at, &encode_slot(uberblock))
}

/// Reads a disk's slot of that number, counted one label after the other. Bytes that spell no
/// uberblock are `None`.
fn read_slot<D: Disk + Drop>(
    disks: &mut DiskArray<D>,
    which: usize,
    number: usize,
) -> Result<Option<Uberblock>, DiskError>
    requires which { which < length disks.old.starts }
    requires number { number < DISK_SLOTS }
    requires size { LABELS * LABEL_LEN ≤ size_of disks.old which }
    ensures starts { disks.new.starts ≡ disks.old.starts }
    ensures calls { ReadsSlot disks.old disks.new which number result }
{
    let label = (number / SLOTS) as u64;
    let slot = number % SLOTS;
    let at = label_offset(disks.size(which), label) + nth_offset(slot);
    let mut bytes = [0; SLOT_LEN];
    disks.read(which, at, &mut bytes)?;
    Ok(decode_slot(slot, &bytes).ok())
}

/// The uberblocks in the slots of a disk, 128 of each label, one label after the other. Slots that have
/// none are `None`. A read that fails is a `DiskFault`, and the last one.
pub fn read_slots<D: Disk + Drop>(
    alloc: Global,
    disks: &mut DiskArray<D>,
    which: usize,
) -> Result<Vec<Option<Uberblock>>, Refusal>
    requires which { which < length disks.old.starts }
    requires size { LABELS * LABEL_LEN ≤ size_of disks.old which }
    ensures starts { disks.new.starts ≡ disks.old.starts }
    ensures calls { ReadsSlots disks.old disks.new which result }
{
    let mut found = vec![in alloc; None; DISK_SLOTS]?;
    for number in 0..DISK_SLOTS {
        found[number] = read_slot(disks, which, number)?;
    }
    Ok(found)
}
