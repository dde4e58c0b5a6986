//! Disks that an open goes on without, as a call of its claim failed on them.
ghost use Rattle.std.specs.Prelude.{◌≡◌, ◌<◌, length};
ghost use Rattle.model_disk.specs.Joint.{calls_on};
ghost use Rattle.model_disk.specs.Runs.{IsSettled};
ghost use Rattle.pool_open.specs.Settling.{AreSettledWithout, GoOutFlushing};
ghost use Rattle.pool_slots.specs.Slots.{AreSettled, InUse};

use model_disk::{Disk, DiskArray};

/// Flushes a disk in use. Where that fails it is out from then on.
fn flush_or_put_out<D: Disk + Drop>(disks: &mut DiskArray<D>, out: &mut Vec<bool>, which: usize)
    requires which { which < length disks.old.starts }
    requires count { length out.old.items ≡ length disks.old.starts }
    ensures gone { GoOutFlushing out.old.items out.new.items disks.old disks.new }
    ensures settles { InUse out.new.items which → IsSettled (calls_on which disks.new.calls) }
{
    if out[which] {
        return;
    }
    if disks.flush(which).is_err() {
        out[which] = true;
    }
}

/// Flushes the disks in use. Those of which that fails are out from then on.
fn flush_present<D: Disk + Drop>(disks: &mut DiskArray<D>, out: &mut Vec<bool>)
    requires count { length out.old.items ≡ length disks.old.starts }
    ensures gone { GoOutFlushing out.old.items out.new.items disks.old disks.new }
    ensures settled { AreSettled out.new.items disks.new.calls }
{
    for which in 0..disks.len() {
        flush_or_put_out(disks, out, which);
    }
}

/// Puts out a disk on which a call failed, and flushes the others that are in use, so that nothing that was written to them may still be
/// lost. Those of which that fails are out too.
pub(crate) fn settle_without<D: Disk + Drop>(
    disks: &mut DiskArray<D>,
    out: &mut Vec<bool>,
    which: usize,
)
    requires count { length out.old.items ≡ length disks.old.starts }
    requires used { InUse out.old.items which }
    ensures { AreSettledWithout which out.old.items out.new.items disks.old disks.new }
{
    out[which] = true;
    flush_present(disks, out);
}
