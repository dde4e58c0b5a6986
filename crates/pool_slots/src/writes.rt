//! The writes of a phase over the disks in use, and its flush.
ghost use Rattle.std.specs.Prelude.{◌≡◌, ◌<◌, ◌∷◌, length, IfErr, OnOk};
ghost use Rattle.model_disk.specs.Call.{write_call};
ghost use Rattle.model_disk.specs.Joint.{calls_on, content, on};
ghost use Rattle.model_disk.specs.Runs.{IsSettled, no_write};
ghost use Rattle.uberblock_ring.specs.Uberblock.{Fits};
ghost use Rattle.pool_slots.specs.Failures.{IsFailure};
ghost use Rattle.pool_slots.specs.Slots.{AreSettled, HaveLabels, InUse, MakesOn, is_disk};
ghost use Rattle.pool_slots.specs.Writes.{InTurn, IsSlotWrite, SlotsStand, first_half_of, in_half_of, in_use, on_disk};

use crate::calls::{flush, write_at, write_slot};
use crate::found::Found;
use crate::refusal::DiskFailure;
use model_disk::{Disk, DiskArray};
use uberblock_ring::Uberblock;

// ---- flushes

/// Flushes a disk that is in use.
fn flush_if_used<D: Disk + Drop>(
    disks: &mut DiskArray<D>,
    out: &[bool],
    which: usize,
) -> Result<(), DiskFailure>
    requires which { which < length disks.old.starts }
    requires out { length out.now ≡ length disks.old.starts }
    ensures makes { MakesOn (InUse out.now) no_write disks.old disks.new }
    ensures settles { OnOk result (InUse out.now which
        → IsSettled (calls_on which disks.new.calls)) }
    ensures fault { IfErr result (IsFailure disks.old disks.new) }
{
    if out[which] {
        return Ok(());
    }
    flush(disks, which)
}

/// Flushes each disk in use. The first fault ends it.
pub(crate) fn flush_all<D: Disk + Drop>(
    disks: &mut DiskArray<D>,
    out: &[bool],
) -> Result<(), DiskFailure>
    requires out { length out.now ≡ length disks.old.starts }
    ensures makes { MakesOn (InUse out.now) no_write disks.old disks.new }
    ensures settled { OnOk result (AreSettled out.now disks.new.calls) }
    ensures fault { IfErr result (IsFailure disks.old disks.new) }
{
    for which in 0..disks.len() {
        flush_if_used(disks, out, which)?;
    }
    Ok(())
}

// ---- slots

/// Writes the slot of an uberblock in two labels of a disk: in 0 and 2, or in 1 and 3.
fn write_half<D: Disk + Drop>(
    disks: &mut DiskArray<D>,
    which: usize,
    half: u64,
    uberblock: &Uberblock,
) -> Result<(), DiskFailure>
    requires which { which < length disks.old.starts }
    requires half { half < 2 }
    requires labels { HaveLabels disks.old.starts }
    requires fits { Fits uberblock.now }
    ensures makes { MakesOn (is_disk which)
        (IsSlotWrite disks.old.starts uberblock.now (in_half_of which half)) disks.old disks.new }
    ensures stand { OnOk result (SlotsStand (content disks.new) disks.old.starts uberblock.now
        (in_half_of which half) (length disks.old.starts)) }
    ensures fault { IfErr result (IsFailure disks.old disks.new) }
{
    write_slot(disks, which, half, uberblock)?;
    write_slot(disks, which, half + 2, uberblock)
}

/// The half of a disk's labels that is written first: the one in which its highest uberblock was not
/// read; labels 0 and 2 where none was found.
fn first_half(found: Option<Found>) -> u64
    ensures half { result ≡ first_half_of found }
    ensures small { result < 2 }
{
    match found {
        Some(found) => found.other_half % 2,
        None => 0,
    }
}

/// Writes the slot in the half of a disk's labels whose turn it is, if the disk is in use.
fn write_turn_on<D: Disk + Drop>(
    disks: &mut DiskArray<D>,
    out: &[bool],
    all: &[Option<Found>],
    turn: u64,
    which: usize,
    uberblock: &Uberblock,
) -> Result<(), DiskFailure>
    requires which { which < length disks.old.starts }
    requires out { length out.now ≡ length disks.old.starts }
    requires all { length all.now ≡ length disks.old.starts }
    requires turn { turn < 2 }
    requires labels { HaveLabels disks.old.starts }
    requires fits { Fits uberblock.now }
    ensures makes { MakesOn (InUse out.now)
        (IsSlotWrite disks.old.starts uberblock.now (on_disk which (InTurn out.now all.now turn)))
        disks.old disks.new }
    ensures stand { OnOk result (SlotsStand (content disks.new) disks.old.starts uberblock.now
        (on_disk which (InTurn out.now all.now turn)) (length disks.old.starts)) }
    ensures fault { IfErr result (IsFailure disks.old disks.new) }
{
    if out[which] {
        return Ok(());
    }
    write_half(disks, which, (first_half(all[which]) + turn) % 2, uberblock)
}

/// Writes the slot in the half of the labels whose turn it is, on each disk in use its own.
pub(crate) fn write_turn<D: Disk + Drop>(
    disks: &mut DiskArray<D>,
    out: &[bool],
    all: &[Option<Found>],
    turn: u64,
    uberblock: &Uberblock,
) -> Result<(), DiskFailure>
    requires out { length out.now ≡ length disks.old.starts }
    requires all { length all.now ≡ length disks.old.starts }
    requires turn { turn < 2 }
    requires labels { HaveLabels disks.old.starts }
    requires fits { Fits uberblock.now }
    ensures makes { MakesOn (InUse out.now)
        (IsSlotWrite disks.old.starts uberblock.now (InTurn out.now all.now turn))
        disks.old disks.new }
    ensures stand { OnOk result (SlotsStand (content disks.new) disks.old.starts uberblock.now
        (InTurn out.now all.now turn) (length disks.old.starts)) }
    ensures fault { IfErr result (IsFailure disks.old disks.new) }
{
    for which in 0..disks.len() {
        write_turn_on(disks, out, all, turn, which, uberblock)?;
    }
    Ok(())
}
