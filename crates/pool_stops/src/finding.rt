//! Laws of disks that are handed in in any order: what each ensures follows from the definitions alone.
ghost use Rattle.pool_stops.specs.Found.{FoundDisksMayBeOpened, OwnDisksAreFound, OwnDisksAreOrdered};

use model_disk::Disk;

/// On a pool's own disks, whatever their order, the finding of a pool is refused for want of memory alone, where groups and claims are left.
pub fn own_disks_are_found()
    ensures { OwnDisksAreFound }
{}

/// What is found are its disks in the order of its configuration, and its name and guid.
pub fn own_disks_are_ordered()
    ensures { OwnDisksAreOrdered }
{}

/// Whatever the disks are, where `find` answers a store may be opened over what it gives: so an open behind it is never refused for its vdevs.
pub fn found_disks_may_be_opened<D: Disk + Drop>()
    ensures { FoundDisksMayBeOpened D.Disk }
{}
