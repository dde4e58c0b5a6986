//! The labels of disks.
ghost use Rattle.std.specs.Prelude.{◌≡◌, ◌≤◌, ◌<◌, ◌*◌, ◌∷◌, ℕ, length, IfOk, OnOk};
ghost use Rattle.model_disk.specs.Joint.{bytes_of, Stands};
ghost use Rattle.vdev_label.specs.Area.{HasRoom, area_of};
ghost use Rattle.vdev_label.specs.Pairs.{label_pairs};
ghost use Rattle.vdev_label.specs.Plain.{label_view};
ghost use Rattle.vdev_label.specs.Reads.{ReadsLabel, WritesArea, KeepsElsewhere, place_of};

use crate::area::{read_area, write_area};
use crate::decoding::decode_area;
use crate::encoding::encode_area;
use crate::label::Label;
use crate::place::{AREA_LEN, LABEL_LEN, LABELS};
use crate::refusal::Refusal;
use model_disk::{Disk, DiskArray};
use std::alloc::{AllocError, Global};

/// So many zeros. A function of their count, so that proofs do not count them.
fn blank(alloc: Global, len: usize) -> Result<Vec<u8>, AllocError>
    ensures { IfOk result (λ bytes. length bytes.items ≡ len) }
{
    vec![in alloc; 0; len]
}

/// Reads a label of a disk. A read that fails is a `DiskFault`, and an area that has no label a
/// `BadLabel`.
#[tactic(auto, using(crate::proofs::ReadLabels::read_answer))]
pub fn read_label<D: Disk + Drop>(
    alloc: Global,
    disks: &mut DiskArray<D>,
    which: usize,
    number: u64,
) -> Result<Label, Refusal>
    requires which { which < length disks.old.starts }
    requires number { number < LABELS }
    requires size { LABELS * LABEL_LEN ≤ length (bytes_of disks.old.starts which) }
    ensures starts { disks.new.starts ≡ disks.old.starts }
    ensures calls { ReadsLabel disks.old disks.new which number result }
{
    let mut area = blank(alloc, AREA_LEN)?;
    read_area(disks, which, number, &mut area)?;
    decode_area(alloc, &area)
}

/// Writes the area of a label's list on a disk. All else on the disk stays, so do the label's slots.
/// A write that fails is a `DiskFault`.
pub fn write_label<D: Disk + Drop>(
    alloc: Global,
    disks: &mut DiskArray<D>,
    which: usize,
    number: u64,
    label: &Label,
) -> Result<(), Refusal>
    requires which { which < length disks.old.starts }
    requires number { number < LABELS }
    requires size { LABELS * LABEL_LEN ≤ length (bytes_of disks.old.starts which) }
    requires room { HasRoom (label_pairs (label_view label.now)) }
    ensures starts { disks.new.starts ≡ disks.old.starts }
    ensures calls { WritesArea disks.old disks.new which number
        (area_of (label_view label.now)) result }
    ensures stands { OnOk result (Stands disks.new which
        (place_of disks.old which number) (area_of (label_view label.now))) }
    ensures elsewhere { KeepsElsewhere disks.old disks.new which number }
{
    let area = encode_area(alloc, label)?;
    write_area(disks, which, number, &area)
}
