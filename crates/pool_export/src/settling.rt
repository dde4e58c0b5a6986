//! Labels written and flushed.
ghost use Rattle.std.specs.Prelude.{◌≡◌, ◌<◌, length};
ghost use Rattle.model_disk.specs.Joint.{calls_on, content};
ghost use Rattle.model_disk.specs.Runs.{IsSettled, no_write};
ghost use Rattle.pool_slots.specs.Slots.{AreSettled, HaveLabels, InUse, MakesOn};
ghost use Rattle.pool_slots.specs.Writes.{InHalf};
ghost use Rattle.pool_export.specs.Absence.{GoOutFailing};
ghost use Rattle.pool_export.specs.Moments.{WritesConfigure, WritesMark};
ghost use Rattle.pool_export.specs.Writes.{AreWhole, AreasOn, AreasStandOn, IsUsedWrite, is_any};

use crate::label_writes::write_half;
use model_disk::{Disk, DiskArray};

/// Flushes a disk in use. Where that fails it is out from then on.
fn flush_or_put_out<D: Disk + Drop>(disks: &mut DiskArray<D>, out: &mut Vec<bool>, which: usize)
    requires which { which < length disks.old.starts }
    requires out { length out.old.items ≡ length disks.old.starts }
    ensures absent { GoOutFailing out.old.items out.new.items disks.old disks.new }
    ensures makes { MakesOn (InUse out.old.items) no_write disks.old disks.new }
    ensures settles { InUse out.new.items which → IsSettled (calls_on which disks.new.calls) }
{
    if out[which] {
        return;
    }
    if disks.flush(which).is_err() {
        out[which] = true;
    }
}

/// Flushes each disk in use. Those of which that fails are out from then on.
fn flush_all<D: Disk + Drop>(disks: &mut DiskArray<D>, out: &mut Vec<bool>)
    requires out { length out.old.items ≡ length disks.old.starts }
    ensures absent { GoOutFailing out.old.items out.new.items disks.old disks.new }
    ensures makes { MakesOn (InUse out.old.items) no_write disks.old disks.new }
    ensures settled { AreSettled out.new.items disks.new.calls }
{
    for which in 0..disks.len() {
        flush_or_put_out(disks, out, which);
    }
}

/// Writes half of the labels of each disk in use, and flushes all of them. Those of which a call fails are out from then on.
fn settle_half<D: Disk + Drop>(
    disks: &mut DiskArray<D>,
    out: &mut Vec<bool>,
    areas: &[Option<Vec<u8>>],
    half: u64,
)
    requires out { length out.old.items ≡ length disks.old.starts }
    requires count { length areas.now ≡ length disks.old.starts }
    requires half { half < 2 }
    requires whole { AreWhole areas.now }
    requires labels { HaveLabels disks.old.starts }
    ensures absent { GoOutFailing out.old.items out.new.items disks.old disks.new }
    ensures makes { MakesOn (InUse out.old.items)
        (IsUsedWrite out.old.items disks.old.starts areas.now (InHalf half)) disks.old disks.new }
    ensures stand { AreasStandOn out.new.items (content disks.new) disks.old.starts areas.now
        (InHalf half) }
    ensures settled { AreSettled out.new.items disks.new.calls }
{
    write_half(disks, out, areas, half);
    flush_all(disks, out);
}

/// Writes the odd labels of each disk in use, and once they are flushed on all of them the even ones, which are
/// flushed too. Those of which a call fails are out from then on.
pub(crate) fn settle_labels<D: Disk + Drop>(
    disks: &mut DiskArray<D>,
    out: &mut Vec<bool>,
    areas: &[Option<Vec<u8>>],
)
    requires out { length out.old.items ≡ length disks.old.starts }
    requires count { length areas.now ≡ length disks.old.starts }
    requires on { AreasOn out.old.items areas.now }
    requires whole { AreWhole areas.now }
    requires labels { HaveLabels disks.old.starts }
    ensures absent { GoOutFailing out.old.items out.new.items disks.old disks.new }
    ensures makes { MakesOn (InUse out.old.items)
        (IsUsedWrite out.old.items disks.old.starts areas.now is_any) disks.old disks.new }
    ensures stand { AreasStandOn out.new.items (content disks.new) disks.old.starts areas.now is_any }
    ensures settled { AreSettled out.new.items disks.new.calls }
    ensures configured { WritesConfigure out.old.items disks.old areas.now disks.new }
    ensures marked { WritesMark out.old.items disks.old areas.now disks.new }
{
    settle_half(disks, out, areas, 1);
    settle_half(disks, out, areas, 0);
}
