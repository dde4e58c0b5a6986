//! Which label of a disk is taken.
ghost use Rattle.std.specs.Prelude.{◌≡◌, ◌≤◌, ◌<◌, ◌↔◌, length, IfOk, IsTrue};
ghost use Rattle.model_disk.specs.Joint.{bytes_of};
ghost use Rattle.vdev_label.specs.Plain.{label_view};
ghost use Rattle.pool_slots.specs.Labels.{IsValid};
ghost use Rattle.pool_slots.specs.Reads.{OnlyReads};
ghost use Rattle.pool_slots.specs.Slots.{is_disk};
ghost use Rattle.pool_export.specs.Faults.{EndsAtFault, IsFaultOf};
ghost use Rattle.pool_export.specs.Reads.{IsAbove, IsBetterOf, ReadsBest, ReadsBetter, unread_as};

use crate::unread::Unread;
use model_disk::{Disk, DiskArray};
use std::alloc::{AllocError, Global};
use vdev_label::{LABELS, Label, config_of_label_fits, read_label};

/// Whether a claim is above that of the best label so far.
fn is_above(best: &Option<Label>, claim: u64) -> bool
    ensures { IsTrue result ↔ IsAbove best.now claim }
{
    match best {
        Some(it) => it.claim < claim,
        None => true,
    }
}

/// The better one of the best label so far and another.
fn better_of(
    alloc: Global,
    best: Option<Label>,
    label: Label,
    digest: &[u8; 32],
) -> Result<Option<Label>, AllocError>
    requires valid { IsValid (label_view label) }
    ensures { IfOk result (IsBetterOf digest.now best label) }
{
    config_of_label_fits();
    let shown = label.config.digest(alloc)?;
    if shown == *digest && is_above(&best, label.claim) {
        Ok(Some(label))
    } else {
        Ok(best)
    }
}

/// What the best label so far is, where a label of a disk is not read for this cause.
fn unread(
    which: usize,
    best: Option<Label>,
    cause: vdev_label::Refusal,
) -> Result<Option<Label>, Unread>
    ensures { result ≡ unread_as which best cause }
{
    match cause {
        vdev_label::Refusal::NoMemory => Err(Unread::NoMemory),
        vdev_label::Refusal::DiskFault => Err(Unread::DiskFault { disk: which }),
        vdev_label::Refusal::BadLabel(_) => Ok(best),
    }
}

/// Reads a label of a disk, and answers the better one of the best label so far and this.
fn read_better<D: Disk + Drop>(
    alloc: Global,
    disks: &mut DiskArray<D>,
    which: usize,
    number: u64,
    digest: &[u8; 32],
    best: Option<Label>,
) -> Result<Option<Label>, Unread>
    requires which { which < length disks.old.starts }
    requires number { number < LABELS }
    requires room { 1048576 ≤ length (bytes_of disks.old.starts which) }
    ensures only { OnlyReads (is_disk which) (IsFaultOf result) disks.old disks.new }
    ensures ends { EndsAtFault result disks.old disks.new which }
    ensures reads { ReadsBetter digest.now best disks.old disks.new which number result }
{
    match read_label(alloc, disks, which, number) {
        Ok(label) => Ok(better_of(alloc, best, label, digest)?),
        Err(cause) => unread(which, best, cause),
    }
}

/// Reads the four labels of a disk, and answers the one that is taken: of those with the configuration
/// the one with the greatest claim, the lowest of several.
pub(crate) fn read_best<D: Disk + Drop>(
    alloc: Global,
    disks: &mut DiskArray<D>,
    which: usize,
    digest: &[u8; 32],
) -> Result<Option<Label>, Unread>
    requires which { which < length disks.old.starts }
    requires room { 1048576 ≤ length (bytes_of disks.old.starts which) }
    ensures only { OnlyReads (is_disk which) (IsFaultOf result) disks.old disks.new }
    ensures ends { EndsAtFault result disks.old disks.new which }
    ensures reads { ReadsBest digest.now disks.old disks.new which result }
{
    let mut best = None;
    for number in 0..LABELS {
        best = read_better(alloc, disks, which, number, digest, best)?;
    }
    Ok(best)
}
