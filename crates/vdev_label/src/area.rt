//! The areas of the labels' lists on disks.
ghost use Rattle.std.specs.Prelude.{◌≡◌, ◌≢◌, ◌⊎◌, ◌≤◌, ◌<◌, ◌+◌, ◌*◌, ◌∷◌, ℕ, length, IfErr, OnOk};
ghost use Rattle.model_disk.specs.Call.{read_call, write_call};
ghost use Rattle.model_disk.specs.Joint.{on, bytes_of, content, Stands};
ghost use Rattle.vdev_label.specs.Reads.{place_of};

use crate::place::{AREA_LEN, LABEL_LEN, LABELS, area_offset};
use crate::refusal::Refusal;
use model_disk::{Disk, DiskArray};

/// Reads the area of a label's list.
pub(crate) fn read_area<D: Disk + Drop>(
    disks: &mut DiskArray<D>,
    which: usize,
    number: u64,
    area: &mut [u8],
) -> Result<(), Refusal>
    requires which { which < length disks.old.starts }
    requires number { number < LABELS }
    requires size { LABELS * LABEL_LEN ≤ length (bytes_of disks.old.starts which) }
    requires len { length area.old ≡ AREA_LEN }
    ensures starts { disks.new.starts ≡ disks.old.starts }
    ensures calls { disks.new.calls
        ≡ on which (read_call result (place_of disks.old which number) area.new) ∷ disks.old.calls }
    ensures len { length area.new ≡ AREA_LEN }
    ensures fault { IfErr result (λ refusal. refusal ≡ Refusal.DiskFault) }
{
    let at = area_offset(disks.size(which), number);
    match disks.read(which, at, area) {
        Ok(()) => Ok(()),
        Err(_) => Err(Refusal::DiskFault),
    }
}

/// Writes the area of a label's list.
pub(crate) fn write_area<D: Disk + Drop>(
    disks: &mut DiskArray<D>,
    which: usize,
    number: u64,
    area: &[u8],
) -> Result<(), Refusal>
    requires which { which < length disks.old.starts }
    requires number { number < LABELS }
    requires size { LABELS * LABEL_LEN ≤ length (bytes_of disks.old.starts which) }
    requires len { length area.now ≡ AREA_LEN }
    ensures starts { disks.new.starts ≡ disks.old.starts }
    ensures calls { disks.new.calls
        ≡ on which (write_call result (place_of disks.old which number) area.now)
        ∷ disks.old.calls }
    ensures fault { IfErr result (λ refusal. refusal ≡ Refusal.DiskFault) }
{
    let at = area_offset(disks.size(which), number);
    match disks.write_at(which, at, area) {
        Ok(()) => Ok(()),
        Err(_) => Err(Refusal::DiskFault),
    }
}
