//! The disks of a pool that is stopped.
ghost use Rattle.std.specs.Prelude.{◌≡◌, ◌<◌, length, IfOk};
ghost use Rattle.model_disk.specs.Member.{disk_of};
ghost use Rattle.programs.specs.DisksKept.{AreCopies, IsCopyOf, present, put_back, put_one};

use crate::stopping::is_left_out;
use model_disk::{MemDisk, Member};
use std::alloc::{AllocError, Global};

/// Puts the disk of a child, if it has one, in the place of one.
fn put_one(disks: &mut Vec<MemDisk>, number: usize, member: Member<MemDisk>)
    requires { number < length disks.old.items }
    ensures { disks.new.items ≡ put_one (disk_of member) number disks.old.items }
{
    if let Some(disk) = member.into_disk() {
        disks[number] = disk;
    }
}

/// Puts the disks of children in the places of those that are kept.
pub(crate) fn put_back(disks: &mut Vec<MemDisk>, members: Vec<Member<MemDisk>>)
    ensures { disks.new.items ≡ put_back disks.old.items members.items }
{
    let mut number = 0;
    for member in members {
        if number < disks.len() {
            put_one(disks, number, member);
            number += 1;
        }
    }
}

/// A disk with the same bytes.
pub(crate) fn copy_of(alloc: Global, disk: &MemDisk) -> Result<MemDisk, AllocError>
    ensures { IfOk result (λ copy. IsCopyOf disk.now copy) }
{
    Ok(MemDisk::holding(Vec::from_slice(alloc, disk.bytes())?))
}

/// Copies of the disks but those that are left out, by their numbers.
pub(crate) fn copies(
    alloc: Global,
    disks: &[MemDisk],
    absent: &[u32],
) -> Result<Vec<MemDisk>, AllocError>
    ensures { IfOk result (λ copies. AreCopies (present absent.now disks.now) copies.items) }
{
    let mut copies = Vec::new(alloc);
    for number in 0..disks.len() {
        let disk = &disks[number];
        if !is_left_out(absent, number) {
            copies.push(copy_of(alloc, disk)?)?;
        }
    }
    Ok(copies)
}
