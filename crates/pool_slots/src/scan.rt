//! Reading the slots of disks.
ghost use Rattle.std.specs.Prelude.{◌≡◌, ◌≤◌, ◌<◌, ℕ, length, map, IfOk, IfSome, IfNone};
ghost use Rattle.model_disk.specs.Joint.{bytes_of};
ghost use Rattle.uberblock_ring.specs.Ranking.{Has};
ghost use Rattle.uberblock_ring.specs.declared.uberblock.Uberblock.{Uberblock};
ghost use Rattle.pool_slots.specs.Reads.{IsFaultOf, OnlyReads};
ghost use Rattle.pool_slots.specs.Slots.{HaveLabels, InUse, is_disk};
ghost use Rattle.pool_slots.specs.Opens.{AreFitting, FindsAll, FindsHighest, FindsIfUsed, FindsOn, HasHighest, uberblock_of};

use crate::found::Found;
use crate::refusal::{Refusal, slots_unread};
use model_disk::{Disk, DiskArray};
use std::alloc::{AllocError, Global};
use uberblock_ring::{Uberblock, highest, read_slots};

/// The highest of the uberblocks in a disk's slots, and where it doesn't stand.
fn found_in(slots: &[Option<Uberblock>]) -> Option<Found>
    ensures found { IfSome result (HasHighest slots.now) }
    ensures none { IfNone result ((i : ℕ) (u : Uberblock) → ¬ Has slots.now i u) }
{
    let number = highest(slots)?;
    let uberblock = slots[number]?;
    Some(Found {
        uberblock,
        other_half: 1 - (number / 128) as u64 % 2,
    })
}

/// Reads all slots of a disk, and answers the highest uberblock that they show, if they show one.
fn find<D: Disk + Drop>(
    alloc: Global,
    disks: &mut DiskArray<D>,
    which: usize,
) -> Result<Option<Found>, Refusal>
    requires which { which < length disks.old.starts }
    requires room { 1048576 ≤ length (bytes_of disks.old.starts which) }
    ensures only { OnlyReads (is_disk which) (IsFaultOf result) disks.old disks.new }
    ensures finds { FindsOn disks.old disks.new which result }
{
    let slots = match read_slots(alloc, disks, which) {
        Ok(slots) => slots,
        Err(cause) => return Err(slots_unread(which, cause)),
    };
    Ok(found_in(&slots))
}

/// The same of a disk that is in use; nothing of one that is out.
fn find_if_used<D: Disk + Drop>(
    alloc: Global,
    disks: &mut DiskArray<D>,
    out: &[bool],
    which: usize,
) -> Result<Option<Found>, Refusal>
    requires which { which < length disks.old.starts }
    requires out { length out.now ≡ length disks.old.starts }
    requires labels { HaveLabels disks.old.starts }
    ensures only { OnlyReads (InUse out.now) (IsFaultOf result) disks.old disks.new }
    ensures finds { FindsIfUsed out.now disks.old disks.new which result }
{
    if out[which] {
        return Ok(None);
    }
    find(alloc, disks, which)
}

/// Reads all slots of all disks in use.
pub(crate) fn find_all<D: Disk + Drop>(
    alloc: Global,
    disks: &mut DiskArray<D>,
    out: &[bool],
) -> Result<Vec<Option<Found>>, Refusal>
    requires out { length out.now ≡ length disks.old.starts }
    requires labels { HaveLabels disks.old.starts }
    ensures only { OnlyReads (InUse out.now) (IsFaultOf result) disks.old disks.new }
    ensures finds { FindsAll out.now disks.old disks.new result }
{
    let mut all = Vec::new(alloc);
    for which in 0..disks.len() {
        let found = find_if_used(alloc, disks, out, which)?;
        all.push(found)?;
    }
    Ok(all)
}

/// The uberblocks of what was found.
fn uberblocks_of(alloc: Global, all: &[Option<Found>]) -> Result<Vec<Option<Uberblock>>, AllocError>
    ensures { IfOk result (λ uberblocks. uberblocks.items ≡ map uberblock_of all.now) }
{
    all.iter()
        .map(|found| found.map(|found| found.uberblock))
        .collect(alloc)
}

/// The highest uberblock that was found. `NoUberblock` where none was.
pub(crate) fn highest_of(alloc: Global, all: &[Option<Found>]) -> Result<Uberblock, Refusal>
    requires fits { AreFitting all.now }
    ensures finds { FindsHighest all.now result }
{
    let uberblocks = uberblocks_of(alloc, all)?;
    match highest(&uberblocks) {
        Some(which) => match uberblocks[which] {
            Some(uberblock) => Ok(uberblock),
            None => Err(Refusal::NoUberblock),
        },
        None => Err(Refusal::NoUberblock),
    }
}
