//! Reading the labels of disks.
ghost use Rattle.std.specs.Prelude.{◌≡◌, ◌≤◌, ◌<◌, length, IfOk};
ghost use Rattle.model_disk.specs.Joint.{bytes_of};
ghost use Rattle.vdev_label.specs.Plain.{label_view};
ghost use Rattle.pool_slots.specs.LabelReads.{ReadsAll, ReadsFour, ReadsIfUsed, ReadsLabeled, ReadsShown, unread_as};
ghost use Rattle.pool_slots.specs.Labels.{IsValid, Keeps};
ghost use Rattle.pool_slots.specs.Reads.{IsFaultOf, OnlyReads};
ghost use Rattle.pool_slots.specs.Slots.{HaveLabels, InUse, is_disk};

use crate::label_choice::labeled_of;
use crate::labeled::{Labeled, Shown};
use crate::refusal::Refusal;
use model_disk::{Disk, DiskArray};
use std::alloc::{AllocError, Global};
use vdev_label::{LABELS, Label, read_label};

/// What is kept of a label.
fn shown_of(alloc: Global, label: &Label) -> Result<Shown, AllocError>
    requires valid { IsValid (label_view label.now) }
    ensures { IfOk result (Keeps (label_view label.now)) }
{
    Ok(Shown {
        claim: label.claim,
        config_digest: label.config.digest(alloc)?,
    })
}

/// What a label of a disk shows that is not read for this cause: an invalid one shows nothing.
fn unread(which: usize, cause: vdev_label::Refusal) -> Result<Option<Shown>, Refusal>
    ensures { result ≡ unread_as which cause }
{
    match cause {
        vdev_label::Refusal::NoMemory => Err(Refusal::NoMemory),
        vdev_label::Refusal::DiskFault => Err(Refusal::DiskFault { disk: which }),
        vdev_label::Refusal::BadLabel(_) => Ok(None),
    }
}

/// Reads a label of a disk, and answers what it shows.
fn read_shown<D: Disk + Drop>(
    alloc: Global,
    disks: &mut DiskArray<D>,
    which: usize,
    number: u64,
) -> Result<Option<Shown>, Refusal>
    requires which { which < length disks.old.starts }
    requires number { number < LABELS }
    requires room { 1048576 ≤ length (bytes_of disks.old.starts which) }
    ensures only { OnlyReads (is_disk which) (IsFaultOf result) disks.old disks.new }
    ensures reads { ReadsShown disks.old disks.new which number result }
{
    match read_label(alloc, disks, which, number) {
        Ok(label) => Ok(Some(shown_of(alloc, &label)?)),
        Err(cause) => unread(which, cause),
    }
}

/// Reads the four labels of a disk.
fn read_four<D: Disk + Drop>(
    alloc: Global,
    disks: &mut DiskArray<D>,
    which: usize,
) -> Result<Vec<Option<Shown>>, Refusal>
    requires which { which < length disks.old.starts }
    requires room { 1048576 ≤ length (bytes_of disks.old.starts which) }
    ensures only { OnlyReads (is_disk which) (IsFaultOf result) disks.old disks.new }
    ensures reads { ReadsFour disks.old disks.new which result }
{
    let mut all = Vec::new(alloc);
    for number in 0..LABELS {
        let shown = read_shown(alloc, disks, which, number)?;
        all.push(shown)?;
    }
    Ok(all)
}

/// Reads the four labels of a disk, and answers what a claim takes from them. One whose labels show nothing
/// ends it.
fn read_labeled<D: Disk + Drop>(
    alloc: Global,
    disks: &mut DiskArray<D>,
    which: usize,
    digest: &[u8; 32],
) -> Result<Labeled, Refusal>
    requires which { which < length disks.old.starts }
    requires room { 1048576 ≤ length (bytes_of disks.old.starts which) }
    ensures only { OnlyReads (is_disk which) (IsFaultOf result) disks.old disks.new }
    ensures reads { ReadsLabeled digest.now disks.old disks.new which result }
{
    let shown = read_four(alloc, disks, which)?;
    match labeled_of(&shown, digest) {
        Some(labeled) => Ok(labeled),
        None => Err(Refusal::NoLabel),
    }
}

/// The same of a disk that is in use; nothing of one that is out.
fn read_if_used<D: Disk + Drop>(
    alloc: Global,
    disks: &mut DiskArray<D>,
    out: &[bool],
    which: usize,
    digest: &[u8; 32],
) -> Result<Option<Labeled>, Refusal>
    requires which { which < length disks.old.starts }
    requires out { length out.now ≡ length disks.old.starts }
    requires labels { HaveLabels disks.old.starts }
    ensures only { OnlyReads (InUse out.now) (IsFaultOf result) disks.old disks.new }
    ensures reads { ReadsIfUsed out.now digest.now disks.old disks.new which result }
{
    if out[which] {
        return Ok(None);
    }
    Ok(Some(read_labeled(alloc, disks, which, digest)?))
}

/// Reads the labels of all disks in use.
pub(crate) fn read_labels<D: Disk + Drop>(
    alloc: Global,
    disks: &mut DiskArray<D>,
    out: &[bool],
    digest: &[u8; 32],
) -> Result<Vec<Option<Labeled>>, Refusal>
    requires out { length out.now ≡ length disks.old.starts }
    requires labels { HaveLabels disks.old.starts }
    ensures only { OnlyReads (InUse out.now) (IsFaultOf result) disks.old disks.new }
    ensures reads { ReadsAll out.now digest.now disks.old disks.new result }
{
    let mut all = Vec::new(alloc);
    for which in 0..disks.len() {
        let labeled = read_if_used(alloc, disks, out, which, digest)?;
        all.push(labeled)?;
    }
    Ok(all)
}
