//! A law of disks that come back: what it ensures follows from the definitions alone.
ghost use Rattle.pool_members.specs.HandedIn.{CalledDisksComeBack};

use model_disk::Disk;

/// Where on each child's disk a call was made that didn't fail, all disks come back that were handed in: what stands for an absent one
/// answers no call.
pub fn called_disks_come_back<D: Disk + Drop>()
    ensures { CalledDisksComeBack D.Disk }
{}
