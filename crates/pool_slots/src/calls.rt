//! Calls on one disk, whose failures name it.
ghost use Rattle.std.specs.Prelude.{◌≡◌, ◌≤◌, ◌<◌, ◌+◌, ◌∷◌, length, IfErr};
ghost use Rattle.model_disk.specs.Call.{flush_call, write_call};
ghost use Rattle.model_disk.specs.Joint.{bytes_of, on};
ghost use Rattle.uberblock_ring.specs.Place.{slot_at};
ghost use Rattle.uberblock_ring.specs.Slot.{slot_bytes, slot_number};
ghost use Rattle.uberblock_ring.specs.Uberblock.{Fits};
ghost use Rattle.pool_slots.specs.Failures.{IsFailure};

use crate::refusal::DiskFailure;
use model_disk::{Disk, DiskArray};
use uberblock_ring::Uberblock;

/// Flushes a disk.
pub(crate) fn flush<D: Disk + Drop>(
    disks: &mut DiskArray<D>,
    which: usize,
) -> Result<(), DiskFailure>
    requires which { which < length disks.old.starts }
    ensures starts { disks.new.starts ≡ disks.old.starts }
    ensures calls { disks.new.calls ≡ on which (flush_call result) ∷ disks.old.calls }
    ensures fault { IfErr result (IsFailure disks.old disks.new) }
{
    match disks.flush(which) {
        Ok(()) => Ok(()),
        Err(_) => Err(DiskFailure { disk: which }),
    }
}

/// Writes bytes to a disk.
pub(crate) fn write_at<D: Disk + Drop>(
    disks: &mut DiskArray<D>,
    which: usize,
    at: u64,
    bytes: &[u8],
) -> Result<(), DiskFailure>
    requires which { which < length disks.old.starts }
    requires within { at + length bytes.now ≤ length (bytes_of disks.old.starts which) }
    ensures starts { disks.new.starts ≡ disks.old.starts }
    ensures calls { disks.new.calls ≡ on which (write_call result at bytes.now) ∷ disks.old.calls }
    ensures fault { IfErr result (IsFailure disks.old disks.new) }
{
    match disks.write_at(which, at, bytes) {
        Ok(()) => Ok(()),
        Err(_) => Err(DiskFailure { disk: which }),
    }
}

/// Writes the slot of an uberblock in a label of a disk.
pub(crate) fn write_slot<D: Disk + Drop>(
    disks: &mut DiskArray<D>,
    which: usize,
    label: u64,
    uberblock: &Uberblock,
) -> Result<(), DiskFailure>
    requires which { which < length disks.old.starts }
    requires label { label < 4 }
    requires room { 1048576 ≤ length (bytes_of disks.old.starts which) }
    requires fits { Fits uberblock.now }
    ensures starts { disks.new.starts ≡ disks.old.starts }
    ensures call { let at = slot_at
        (length (bytes_of disks.old.starts which)) label (slot_number uberblock.now.group) in
        disks.new.calls ≡ on which (write_call result at (slot_bytes uberblock.now))
        ∷ disks.old.calls }
    ensures fault { IfErr result (IsFailure disks.old disks.new) }
{
    match uberblock_ring::write_slot(disks, which, label, uberblock) {
        Ok(()) => Ok(()),
        Err(_) => Err(DiskFailure { disk: which }),
    }
}
