//! Claims that are begun and not done.
ghost use Rattle.std.specs.Prelude.{◌≡◌, ◌<◌, ℕ, map, IfOk, IsTrue};
ghost use Rattle.model_disk.specs.Joint.{Disks, calls_on, log_of};
ghost use Rattle.model_disk.specs.Member.{disk_of};
ghost use Rattle.pool_slots.specs.Slots.{HaveLabels};
ghost use Rattle.programs.specs.ClaimStops.{AreKept, AreTold, EndsInClaim, FailsInClaim, HasDone, IsKept, IsTold, fault_of};
ghost use Rattle.programs.specs.DisksKept.{present};

use crate::disks_kept::copy_of;
use crate::stopping::is_left_out;
use model_disk::{Disk, DiskArray, Fault, FaultDisk, MemDisk, Member};
use pool_create::{FoundPool, find};
use pool_slots::{claim, survey_present};
use std::alloc::{AllocError, Global};

/// The bytes of a disk's four labels.
const LABEL_BYTES: u64 = 1 << 20;

/// Whether each disk has room for its labels.
fn have_labels<D: Disk + Drop>(disks: &DiskArray<D>) -> bool
    ensures { IsTrue result → HaveLabels disks.now.starts }
{
    for which in 0..disks.len() {
        if disks.size(which) < LABEL_BYTES {
            return false;
        }
    }
    true
}

/// Surveys disks in their pool's order, and begins a claim: the disks as its first fault leaves them. That nothing fails is told as
/// want of memory.
fn failed_over<D: Disk + Drop>(
    alloc: Global,
    disks: DiskArray<D>,
    out: Vec<bool>,
    rewind: u64,
) -> Result<Vec<D>, AllocError>
    requires rewind { rewind < 3 }
    ensures { IfOk result (λ left. (new : Disks) × FailsInClaim out.items rewind disks new
        × (map D.start left.items ≡ new.starts)
        × ((which : ℕ) → log_of (map D.calls left.items) which ≡ calls_on which new.calls)) }
{
    let mut disks = disks;
    let mut out = out;
    if out.len() != disks.len() || !have_labels(&disks) {
        return Err(AllocError);
    }
    let Ok(survey) = survey_present(alloc, &mut disks, &mut out, rewind) else {
        return Err(AllocError);
    };
    match claim(&survey, &mut disks, &out) {
        Ok(_) => Err(AllocError),
        Err(_) => Ok(disks.into_disks()),
    }
}

/// Finds a pool on disks that are handed in, and begins its claim: its children's disks as the first fault leaves them. The disks are
/// such that a pool was opened on others with the same bytes, and that each fails in a claim: so only memory can be wanting.
pub(crate) fn failed_claim<D: Disk + Drop>(
    alloc: Global,
    disks: Vec<D>,
    rewind: u64,
) -> Result<Vec<Member<D>>, AllocError>
    requires rewind { rewind < 3 }
    ensures { IfOk result (λ members. EndsInClaim D.Disk disks.items rewind members.items) }
{
    let Ok(found) = find(alloc, disks, rewind) else {
        return Err(AllocError);
    };
    let FoundPool { disks, out, .. } = found;
    failed_over(alloc, DiskArray::new(disks), out, rewind)
}

fn fault_of(reached: u32, place: usize) -> Fault
    ensures { result ≡ fault_of reached place }
{
    if place < reached as usize {
        Fault::Write(3)
    } else {
        Fault::Write(1)
    }
}

/// A copy of the disk at this place among those in use, which fails in a claim that gets to so many of them.
fn told(
    alloc: Global,
    disk: &MemDisk,
    reached: u32,
    place: usize,
) -> Result<FaultDisk<MemDisk>, AllocError>
    ensures { IfOk result (λ told. IsTold reached place disk.now told) }
{
    let copy = copy_of(alloc, disk)?;
    Ok(FaultDisk::new(copy, fault_of(reached, place)))
}

/// Copies of the disks but those that are left out, by their numbers, which fail in a claim that gets to so many of them.
pub(crate) fn all_told(
    alloc: Global,
    disks: &[MemDisk],
    absent: &[u32],
    reached: u32,
) -> Result<Vec<FaultDisk<MemDisk>>, AllocError>
    ensures { IfOk result (λ all. AreTold reached 0 (present absent.now disks.now) all.items) }
{
    let mut all = Vec::new(alloc);
    for number in 0..disks.len() {
        let disk = &disks[number];
        if !is_left_out(absent, number) {
            all.push(told(alloc, disk, reached, all.len())?)?;
        }
    }
    Ok(all)
}

/// The disk below, to which nothing of a call that failed was done.
fn done(disk: FaultDisk<MemDisk>) -> MemDisk
    ensures { HasDone disk result }
{
    disk.fails_as_told();
    let below = disk.into_inner();
    let _ = below.bytes();
    below
}

fn kept(member: Member<FaultDisk<MemDisk>>) -> Member<MemDisk>
    ensures { IsKept (disk_of member) (disk_of result) }
{
    match member.into_disk() {
        Some(disk) => Member::present(done(disk)),
        None => Member::absent(0),
    }
}

/// The children with the disks below theirs.
pub(crate) fn all_kept(
    alloc: Global,
    members: Vec<Member<FaultDisk<MemDisk>>>,
) -> Result<Vec<Member<MemDisk>>, AllocError>
    ensures { IfOk result (λ all. AreKept members.items all.items) }
{
    let mut all = Vec::new(alloc);
    for member in members {
        all.push(kept(member))?;
    }
    Ok(all)
}
