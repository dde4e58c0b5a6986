//! Disks that show one uberblock and no other.
ghost use Rattle.std.specs.Prelude.{◌≡◌, ◌≤◌, ◌<◌, ◌↔◌, ℕ, length, Some, IsTrue, IfErr, OnOk};
ghost use Rattle.model_disk.specs.Joint.{bytes_of};
ghost use Rattle.model_disk.specs.Runs.{Makes, no_write};
ghost use Rattle.pool_create.specs.Alone.{AreReadAlone, HaveAlone, IsReadAlone, IsRefusedAlone, IsRefusedOn, of_ring};
ghost use Rattle.pool_slots.specs.Slots.{HaveLabels};
ghost use Rattle.uberblock_ring.specs.Ranking.{Has};
ghost use Rattle.uberblock_ring.specs.declared.uberblock.Uberblock.{Uberblock};

use model_disk::{Disk, DiskArray};
use pool_open::Refusal;
use std::alloc::Global;
use uberblock_ring::{Uberblock, highest, read_slots};

/// Whether two uberblocks are the same.
pub(crate) fn is_same(one: Uberblock, other: Uberblock) -> bool
    ensures { IsTrue result ↔ (one ≡ other) }
{
    one == other
}

/// Whether the slot has the uberblock or none.
fn has_no_other(slot: Option<Uberblock>, uberblock: Uberblock) -> bool
    ensures { IsTrue result ↔ ((v : Uberblock) → slot ≡ Some v → v ≡ uberblock) }
{
    match slot {
        Some(shown) => is_same(shown, uberblock),
        None => true,
    }
}

/// Whether each slot does.
fn have_no_other(slots: &[Option<Uberblock>], uberblock: Uberblock) -> bool
    ensures { IsTrue result ↔ ((i : ℕ) (v : Uberblock) → Has slots.now i v → v ≡ uberblock) }
{
    for i in 0..slots.len() {
        if !has_no_other(slots[i], uberblock) {
            return false;
        }
    }
    true
}

/// Whether each slot has the uberblock or none, and one has it.
fn have_alone(slots: &[Option<Uberblock>], uberblock: Uberblock) -> bool
    ensures { IsTrue result ↔ HaveAlone slots.now uberblock }
{
    highest(slots).is_some() && have_no_other(slots, uberblock)
}

/// A reason not to read slots, as one not to make a pool.
fn unread(cause: uberblock_ring::Refusal) -> Refusal
    ensures { result ≡ of_ring cause }
{
    match cause {
        uberblock_ring::Refusal::NoMemory => Refusal::NoMemory,
        uberblock_ring::Refusal::DiskFault => Refusal::DiskFault,
        uberblock_ring::Refusal::NoUberblock => Refusal::NoUberblock,
    }
}

/// Reads all slots of a disk. `NoUberblock` where they don't show the uberblock alone.
fn require_alone_on<D: Disk + Drop>(
    alloc: Global,
    disks: &mut DiskArray<D>,
    which: usize,
    uberblock: Uberblock,
) -> Result<(), Refusal>
    requires which { which < length disks.old.starts }
    requires room { 1048576 ≤ length (bytes_of disks.old.starts which) }
    ensures only { Makes no_write disks.old disks.new }
    ensures alone { OnOk result (IsReadAlone uberblock disks.old disks.new which) }
    ensures refused { IfErr result (IsRefusedOn uberblock disks.old disks.new which) }
{
    let slots = match read_slots(alloc, disks, which) {
        Ok(slots) => slots,
        Err(cause) => return Err(unread(cause)),
    };
    if !have_alone(&slots, uberblock) {
        return Err(Refusal::NoUberblock);
    }
    Ok(())
}

/// Reads all slots of all disks. `NoUberblock` at the first disk that doesn't show the uberblock alone.
pub(crate) fn require_alone<D: Disk + Drop>(
    alloc: Global,
    disks: &mut DiskArray<D>,
    uberblock: Uberblock,
) -> Result<(), Refusal>
    requires labels { HaveLabels disks.old.starts }
    ensures only { Makes no_write disks.old disks.new }
    ensures alone { OnOk result (AreReadAlone uberblock disks.old disks.new) }
    ensures refused { IfErr result (IsRefusedAlone uberblock disks.old disks.new) }
{
    for which in 0..disks.len() {
        require_alone_on(alloc, disks, which, uberblock)?;
    }
    Ok(())
}
