//! The writes of areas to labels.
ghost use Rattle.std.specs.Prelude.{◌≡◌, ◌↔◌, ◌<◌, ◌≤◌, ◌∷◌, length, IsTrue, IfErr, OnOk};
ghost use Rattle.model_disk.specs.Call.{write_call};
ghost use Rattle.model_disk.specs.Joint.{bytes_of, content, on};
ghost use Rattle.pool_slots.specs.Failures.{IsFailure};
ghost use Rattle.pool_slots.specs.Labels.{AreWhole, AreasOn, AreasStand, InAreaTurn, IsAreaWrite, IsPicked, area_place, copies, of_disk, of_label, turn_of};
ghost use Rattle.pool_slots.specs.Slots.{AreSettled, HaveLabels, InUse, MakesOn, is_disk};

use crate::calls::write_at;
use crate::labeled::{Area, Pick};
use crate::refusal::DiskFailure;
use crate::writes::flush_all;
use model_disk::{Disk, DiskArray};
use vdev_label::{LABELS, label_offset};

/// Where the area of a label begins in it.
const AREA_START: u64 = 0x4000;

/// Writes an area to a label of a disk.
#[tactic(auto, unfolding(crate::specs::Labels::area_place))]
fn write_area<D: Disk + Drop>(
    disks: &mut DiskArray<D>,
    which: usize,
    number: u64,
    area: &[u8],
) -> Result<(), DiskFailure>
    requires which { which < length disks.old.starts }
    requires number { number < LABELS }
    requires whole { length area.now ≡ 114688 }
    requires room { 1048576 ≤ length (bytes_of disks.old.starts which) }
    ensures starts { disks.new.starts ≡ disks.old.starts }
    ensures call { disks.new.calls
        ≡ on which (write_call result (area_place (length (bytes_of disks.old.starts which)) number)
        area.now) ∷ disks.old.calls }
    ensures fault { IfErr result (IsFailure disks.old disks.new) }
{
    let at = label_offset(disks.size(which), number) + AREA_START;
    write_at(disks, which, at, area)
}

/// Whether the label of this number is picked.
fn is_picked(pick: Pick, number: u64) -> bool
    ensures { IsTrue result ↔ IsPicked pick number }
{
    match pick {
        Pick::One(label) => number == label,
        Pick::Others(label) => number != label,
    }
}

/// Writes an area to a label of a disk, if it is picked.
fn write_if_picked<D: Disk + Drop>(
    disks: &mut DiskArray<D>,
    which: usize,
    number: u64,
    area: &[u8],
    pick: Pick,
) -> Result<(), DiskFailure>
    requires which { which < length disks.old.starts }
    requires number { number < LABELS }
    requires whole { length area.now ≡ 114688 }
    requires room { 1048576 ≤ length (bytes_of disks.old.starts which) }
    ensures makes { MakesOn (is_disk which) (IsAreaWrite disks.old.starts
        (of_label number (copies which area.now pick))) disks.old disks.new }
    ensures stand { OnOk result (AreasStand (content disks.new) disks.old.starts
        (of_label number (copies which area.now pick))) }
    ensures fault { IfErr result (IsFailure disks.old disks.new) }
{
    if is_picked(pick, number) {
        write_area(disks, which, number, area)
    } else {
        Ok(())
    }
}

/// Writes an area to the labels of a disk that are picked.
fn write_picked<D: Disk + Drop>(
    disks: &mut DiskArray<D>,
    which: usize,
    area: &[u8],
    pick: Pick,
) -> Result<(), DiskFailure>
    requires which { which < length disks.old.starts }
    requires whole { length area.now ≡ 114688 }
    requires room { 1048576 ≤ length (bytes_of disks.old.starts which) }
    ensures makes { MakesOn (is_disk which)
        (IsAreaWrite disks.old.starts (copies which area.now pick)) disks.old disks.new }
    ensures stand { OnOk result
        (AreasStand (content disks.new) disks.old.starts (copies which area.now pick)) }
    ensures fault { IfErr result (IsFailure disks.old disks.new) }
{
    for number in 0..LABELS {
        write_if_picked(disks, which, number, area, pick)?;
    }
    Ok(())
}

/// Which labels of a disk are written: in the first turn the claim label, then the other three.
fn pick_for(area: &Area, first: bool) -> Pick
    ensures { result ≡ turn_of first area.now }
{
    if first {
        Pick::One(area.first)
    } else {
        Pick::Others(area.first)
    }
}

/// Writes the labels of a disk whose turn it is, if the disk is in use: in the first turn its claim label, in the other the rest.
fn write_on<D: Disk + Drop>(
    disks: &mut DiskArray<D>,
    out: &[bool],
    areas: &[Option<Area>],
    first: bool,
    which: usize,
) -> Result<(), DiskFailure>
    requires which { which < length disks.old.starts }
    requires out { length out.now ≡ length disks.old.starts }
    requires count { length areas.now ≡ length disks.old.starts }
    requires on { AreasOn out.now areas.now }
    requires whole { AreWhole (InAreaTurn areas.now first) }
    requires labels { HaveLabels disks.old.starts }
    ensures makes { MakesOn (InUse out.now) (IsAreaWrite disks.old.starts
        (of_disk which (InAreaTurn areas.now first))) disks.old disks.new }
    ensures stand { OnOk result (AreasStand (content disks.new) disks.old.starts
        (of_disk which (InAreaTurn areas.now first))) }
    ensures fault { IfErr result (IsFailure disks.old disks.new) }
{
    if out[which] {
        return Ok(());
    }
    match &areas[which] {
        Some(area) => write_picked(disks, which, &area.bytes, pick_for(area, first)),
        None => Ok(()),
    }
}

/// Writes the labels whose turn it is, on the disks in use.
fn write_areas<D: Disk + Drop>(
    disks: &mut DiskArray<D>,
    out: &[bool],
    areas: &[Option<Area>],
    first: bool,
) -> Result<(), DiskFailure>
    requires out { length out.now ≡ length disks.old.starts }
    requires count { length areas.now ≡ length disks.old.starts }
    requires on { AreasOn out.now areas.now }
    requires whole { AreWhole (InAreaTurn areas.now first) }
    requires labels { HaveLabels disks.old.starts }
    ensures makes { MakesOn (InUse out.now)
        (IsAreaWrite disks.old.starts (InAreaTurn areas.now first)) disks.old disks.new }
    ensures stand { OnOk result
        (AreasStand (content disks.new) disks.old.starts (InAreaTurn areas.now first)) }
    ensures fault { IfErr result (IsFailure disks.old disks.new) }
{
    for which in 0..disks.len() {
        write_on(disks, out, areas, first, which)?;
    }
    Ok(())
}

/// Writes the labels whose turn it is, and flushes all disks in use.
pub(crate) fn settle_areas<D: Disk + Drop>(
    disks: &mut DiskArray<D>,
    out: &[bool],
    areas: &[Option<Area>],
    first: bool,
) -> Result<(), DiskFailure>
    requires out { length out.now ≡ length disks.old.starts }
    requires count { length areas.now ≡ length disks.old.starts }
    requires on { AreasOn out.now areas.now }
    requires whole { AreWhole (InAreaTurn areas.now first) }
    requires labels { HaveLabels disks.old.starts }
    ensures makes { MakesOn (InUse out.now)
        (IsAreaWrite disks.old.starts (InAreaTurn areas.now first)) disks.old disks.new }
    ensures stand { OnOk result
        (AreasStand (content disks.new) disks.old.starts (InAreaTurn areas.now first)) }
    ensures settled { OnOk result (AreSettled out.now disks.new.calls) }
    ensures fault { IfErr result (IsFailure disks.old disks.new) }
{
    write_areas(disks, out, areas, first)?;
    flush_all(disks, out)
}
