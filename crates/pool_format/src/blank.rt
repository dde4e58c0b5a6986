//! Whether disks show a pool.
ghost use Rattle.std.specs.Prelude.{◌≡◌, ◌≤◌, ◌<◌, ◌↔◌, ℕ, length, Bool, IsTrue, Err, Result};
ghost use Rattle.model_disk.specs.Joint.{bytes_of};
ghost use Rattle.uberblock_ring.specs.Ranking.{Has};
ghost use Rattle.uberblock_ring.specs.declared.uberblock.Uberblock.{Uberblock};
ghost use Rattle.pool_slots.specs.Reads.{OnlyReads};
ghost use Rattle.pool_slots.specs.Slots.{HaveLabels, is_disk};
ghost use Rattle.pool_format.specs.Blank.{ShowsLabel, ShowsLabels, ShowsPool, ShowsSlots, TellsBlank, TellsWhether, is_there, unread_as};
ghost use Rattle.pool_format.specs.Faults.{IsFaultOf};

use crate::refusal::Refusal;
use model_disk::{Disk, DiskArray};
use std::alloc::Global;
use uberblock_ring::{Uberblock, highest, read_slots};
use vdev_label::{LABELS, read_label};

/// Whether a label of a disk shows anything that is not read for this cause.
fn unread(which: usize, cause: vdev_label::Refusal) -> Result<bool, Refusal>
    ensures { result ≡ unread_as which cause }
{
    match cause {
        vdev_label::Refusal::NoMemory => Err(Refusal::NoMemory),
        vdev_label::Refusal::DiskFault => Err(Refusal::DiskFault { disk: which }),
        vdev_label::Refusal::BadLabel(_) => Ok(false),
    }
}

/// Whether a label of a disk shows anything.
fn shows_label<D: Disk + Drop>(
    alloc: Global,
    disks: &mut DiskArray<D>,
    which: usize,
    number: u64,
) -> Result<bool, Refusal>
    requires which { which < length disks.old.starts }
    requires number { number < LABELS }
    requires room { 1048576 ≤ length (bytes_of disks.old.starts which) }
    ensures only { OnlyReads (is_disk which) (IsFaultOf result) disks.old disks.new }
    ensures tells { TellsWhether (ShowsLabel number) disks.old disks.new which result }
{
    match read_label(alloc, disks, which, number) {
        Ok(_) => Ok(true),
        Err(cause) => unread(which, cause),
    }
}

/// Whether one of a disk's labels shows anything.
fn shows_labels<D: Disk + Drop>(
    alloc: Global,
    disks: &mut DiskArray<D>,
    which: usize,
) -> Result<bool, Refusal>
    requires which { which < length disks.old.starts }
    requires room { 1048576 ≤ length (bytes_of disks.old.starts which) }
    ensures only { OnlyReads (is_disk which) (IsFaultOf result) disks.old disks.new }
    ensures tells { TellsWhether ShowsLabels disks.old disks.new which result }
{
    for number in 0..LABELS {
        if shows_label(alloc, disks, which, number)? {
            return Ok(true);
        }
    }
    Ok(false)
}

/// Whether a slot has an uberblock.
fn is_used(slots: &[Option<Uberblock>]) -> bool
    ensures { IsTrue result ↔ ((i : ℕ) × (u : Uberblock) × Has slots.now i u) }
{
    highest(slots).is_some()
}

/// Whether one of a disk's slots shows an uberblock.
fn shows_slots<D: Disk + Drop>(
    alloc: Global,
    disks: &mut DiskArray<D>,
    which: usize,
) -> Result<bool, Refusal>
    requires which { which < length disks.old.starts }
    requires room { 1048576 ≤ length (bytes_of disks.old.starts which) }
    ensures only { OnlyReads (is_disk which) (IsFaultOf result) disks.old disks.new }
    ensures tells { TellsWhether ShowsSlots disks.old disks.new which result }
{
    match read_slots(alloc, disks, which) {
        Ok(slots) => Ok(is_used(&slots)),
        Err(uberblock_ring::Refusal::DiskFault) => Err(Refusal::DiskFault { disk: which }),
        Err(uberblock_ring::Refusal::NoMemory) => Err(Refusal::NoMemory),
        Err(uberblock_ring::Refusal::NoUberblock) => unreachable!(),
    }
}

/// Whether a disk shows a label or an uberblock.
fn shows_pool<D: Disk + Drop>(
    alloc: Global,
    disks: &mut DiskArray<D>,
    which: usize,
) -> Result<bool, Refusal>
    requires which { which < length disks.old.starts }
    requires room { 1048576 ≤ length (bytes_of disks.old.starts which) }
    ensures only { OnlyReads (is_disk which) (IsFaultOf result) disks.old disks.new }
    ensures tells { TellsWhether ShowsPool disks.old disks.new which result }
{
    if shows_labels(alloc, disks, which)? {
        return Ok(true);
    }
    shows_slots(alloc, disks, which)
}

/// Whether no disk shows a pool: none of its four labels is valid, and none of its 512 slots has an
/// uberblock. The first disk that does, and the first read that fails, end the search.
pub fn are_blank<D: Disk + Drop>(alloc: Global, disks: &mut DiskArray<D>) -> Result<bool, Refusal>
    requires room { HaveLabels disks.old.starts }

    // Nothing is called but reads, and only one on the disk that a `DiskFault` names failed.
    ensures only { OnlyReads (is_there disks.old) (IsFaultOf result) disks.old disks.new }

    // What it tells is what the disks hold, where their answers are true.
    ensures tells { TellsBlank disks.old disks.new result }
{
    for which in 0..disks.len() {
        if shows_pool(alloc, disks, which)? {
            return Ok(false);
        }
    }
    Ok(true)
}
