//! The writes of one half of the labels.
ghost use Rattle.std.specs.Prelude.{◌≡◌, ◌<◌, ◌≤◌, ◌∷◌, length, OnOk};
ghost use Rattle.model_disk.specs.Call.{write_call};
ghost use Rattle.model_disk.specs.Joint.{bytes_of, content, on};
ghost use Rattle.pool_slots.specs.Labels.{area_place};
ghost use Rattle.pool_slots.specs.Slots.{HaveLabels, InUse, MakesOn, is_disk};
ghost use Rattle.pool_slots.specs.Writes.{InHalf};
ghost use Rattle.pool_export.specs.Absence.{EndsAs, GoOutFailing};
ghost use Rattle.pool_export.specs.Writes.{AreWhole, AreaStands, AreasStandOn, IsUsedWrite, StandsOn, copy_on, on_one};

use model_disk::{Disk, DiskArray, DiskError};
use vdev_label::{LABELS, label_offset};

/// Where the area of a label begins in it.
const AREA_START: u64 = 0x4000;

/// Writes an area to a label of a disk.
#[tactic(auto, unfolding(pool_slots::specs::Labels::area_place))]
fn write_area<D: Disk + Drop>(
    disks: &mut DiskArray<D>,
    which: usize,
    number: u64,
    area: &[u8],
) -> Result<(), DiskError>
    requires which { which < length disks.old.starts }
    requires number { number < LABELS }
    requires whole { length area.now ≡ 114688 }
    requires room { 1048576 ≤ length (bytes_of disks.old.starts which) }
    ensures starts { disks.new.starts ≡ disks.old.starts }
    ensures call { disks.new.calls
        ≡ on which (write_call result (area_place (length (bytes_of disks.old.starts which)) number)
        area.now) ∷ disks.old.calls }
{
    let at = label_offset(disks.size(which), number) + AREA_START;
    disks.write_at(which, at, area)
}

/// Writes an area to two labels of a disk: to 0 and 2, or to 1 and 3. The first write that fails ends it.
fn write_both<D: Disk + Drop>(
    disks: &mut DiskArray<D>,
    which: usize,
    half: u64,
    area: &[u8],
) -> Result<(), DiskError>
    requires which { which < length disks.old.starts }
    requires half { half < 2 }
    requires whole { length area.now ≡ 114688 }
    requires room { 1048576 ≤ length (bytes_of disks.old.starts which) }
    ensures makes { MakesOn (is_disk which)
        (copy_on which disks.old.starts (InHalf half) area.now) disks.old disks.new }
    ensures stands { OnOk result (AreaStands (content disks.new which)
        (length (bytes_of disks.old.starts which)) (InHalf half) area.now) }
    ensures ends { EndsAs result disks.old disks.new which }
{
    write_area(disks, which, half, area)?;
    write_area(disks, which, half + 2, area)
}

/// The same of a disk in use, which is out from then on where a write fails; nothing on another.
fn write_or_put_out<D: Disk + Drop>(
    disks: &mut DiskArray<D>,
    out: &mut Vec<bool>,
    areas: &[Option<Vec<u8>>],
    which: usize,
    half: u64,
)
    requires which { which < length disks.old.starts }
    requires out { length out.old.items ≡ length disks.old.starts }
    requires count { length areas.now ≡ length disks.old.starts }
    requires half { half < 2 }
    requires whole { AreWhole areas.now }
    requires room { HaveLabels disks.old.starts }
    ensures absent { GoOutFailing out.old.items out.new.items disks.old disks.new }
    ensures makes { MakesOn (on_one which (InUse out.old.items))
        (IsUsedWrite out.old.items disks.old.starts areas.now (InHalf half)) disks.old disks.new }
    ensures stands { InUse out.new.items which
        → StandsOn which (content disks.new) disks.old.starts areas.now (InHalf half) }
{
    if out[which] {
        return;
    }
    let Some(area) = &areas[which] else {
        return;
    };
    if write_both(disks, which, half, area).is_err() {
        out[which] = true;
    }
}

/// Writes half of the labels of each disk in use: 0 and 2, or 1 and 3. Those of which a write fails are out from then on.
pub(crate) fn write_half<D: Disk + Drop>(
    disks: &mut DiskArray<D>,
    out: &mut Vec<bool>,
    areas: &[Option<Vec<u8>>],
    half: u64,
)
    requires out { length out.old.items ≡ length disks.old.starts }
    requires count { length areas.now ≡ length disks.old.starts }
    requires half { half < 2 }
    requires whole { AreWhole areas.now }
    requires room { HaveLabels disks.old.starts }
    ensures absent { GoOutFailing out.old.items out.new.items disks.old disks.new }
    ensures makes { MakesOn (InUse out.old.items)
        (IsUsedWrite out.old.items disks.old.starts areas.now (InHalf half)) disks.old disks.new }
    ensures stand { AreasStandOn out.new.items (content disks.new) disks.old.starts areas.now
        (InHalf half) }
{
    for which in 0..disks.len() {
        write_or_put_out(disks, out, areas, which, half);
    }
}
