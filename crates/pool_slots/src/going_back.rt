//! Going back from the highest uberblock to one of the groups before it.
ghost use Rattle.std.specs.Prelude.{◌≡◌, ◌≤◌, ◌<◌, length};
ghost use Rattle.model_disk.specs.Joint.{bytes_of};
ghost use Rattle.uberblock_ring.specs.Uberblock.{Fits};
ghost use Rattle.pool_slots.specs.Opens.{FindsRewound, FindsRewoundIfUsed, FindsRewoundOn, TakesFrom};
ghost use Rattle.pool_slots.specs.Reads.{IsFaultOf, OnlyReads};
ghost use Rattle.pool_slots.specs.Slots.{HaveLabels, InUse, is_disk};

use crate::refusal::{Refusal, slots_unread};
use model_disk::{Disk, DiskArray};
use std::alloc::Global;
use uberblock_ring::{Uberblock, read_slots, rewound};

/// Reads all slots of a disk, and answers what they show of the same claim and so many groups less.
fn find_rewound_on<D: Disk + Drop>(
    alloc: Global,
    disks: &mut DiskArray<D>,
    which: usize,
    from: &Uberblock,
    groups: u64,
) -> Result<Option<Uberblock>, Refusal>
    requires which { which < length disks.old.starts }
    requires room { 1048576 ≤ length (bytes_of disks.old.starts which) }
    ensures only { OnlyReads (is_disk which) (IsFaultOf result) disks.old disks.new }
    ensures finds { FindsRewoundOn from.now groups disks.old disks.new which result }
{
    let slots = match read_slots(alloc, disks, which) {
        Ok(slots) => slots,
        Err(cause) => return Err(slots_unread(which, cause)),
    };
    Ok(rewound(&slots, from, groups))
}

/// The same of a disk that is in use; nothing of one that is out.
fn find_rewound_if_used<D: Disk + Drop>(
    alloc: Global,
    disks: &mut DiskArray<D>,
    out: &[bool],
    which: usize,
    from: &Uberblock,
    groups: u64,
) -> Result<Option<Uberblock>, Refusal>
    requires which { which < length disks.old.starts }
    requires out { length out.now ≡ length disks.old.starts }
    requires labels { HaveLabels disks.old.starts }
    ensures only { OnlyReads (InUse out.now) (IsFaultOf result) disks.old disks.new }
    ensures finds { FindsRewoundIfUsed out.now from.now groups disks.old disks.new which result }
{
    if out[which] {
        return Ok(None);
    }
    find_rewound_on(alloc, disks, which, from, groups)
}

/// What the disks in use show of the same claim and so many groups less, on the first that shows it.
/// `NoUberblock` where none does.
fn find_rewound<D: Disk + Drop>(
    alloc: Global,
    disks: &mut DiskArray<D>,
    out: &[bool],
    from: &Uberblock,
    groups: u64,
) -> Result<Uberblock, Refusal>
    requires out { length out.now ≡ length disks.old.starts }
    requires labels { HaveLabels disks.old.starts }
    ensures only { OnlyReads (InUse out.now) (IsFaultOf result) disks.old disks.new }
    ensures finds { FindsRewound out.now from.now groups disks.old disks.new result }
{
    for which in 0..disks.len() {
        match find_rewound_if_used(alloc, disks, out, which, from, groups)? {
            Some(uberblock) => return Ok(uberblock),
            None => {}
        }
    }
    Err(Refusal::NoUberblock)
}

/// What an open takes that goes back so many groups from the highest uberblock.
pub(crate) fn taken_from<D: Disk + Drop>(
    alloc: Global,
    disks: &mut DiskArray<D>,
    out: &[bool],
    highest: &Uberblock,
    rewind: u64,
) -> Result<Uberblock, Refusal>
    requires out { length out.now ≡ length disks.old.starts }
    requires labels { HaveLabels disks.old.starts }
    requires fits { Fits highest.now }
    ensures only { OnlyReads (InUse out.now) (IsFaultOf result) disks.old disks.new }
    ensures takes { TakesFrom out.now highest.now rewind disks.old disks.new result }
{
    if rewind == 0 {
        return Ok(*highest);
    }
    find_rewound(alloc, disks, out, highest, rewind)
}
