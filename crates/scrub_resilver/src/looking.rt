//! A look at a column.
ghost use Rattle.std.specs.Prelude.{◌≡◌, ◌≤◌, ◌<◌, ◌+◌, IfOk, length, true};
ghost use Rattle.model_disk.specs.Joint.{bytes_of};
ghost use Rattle.raidz_io.specs.Places.{IsNamed, disk_of, offset_of};
ghost use Rattle.raidz_io.specs.Reads.{AreUntouched, OnlyReads};
ghost use Rattle.scrub_resilver.specs.Looking.{IsFilled, IsJudged};

use crate::fault::Fault;
use model_disk::{Disk, DiskArray};
use raidz_io::{DATA_START, Vdev};
use raidz_map::{Column, SECTOR_BYTES};
use std::alloc::{AllocError, Global};

/// Where a column begins.
#[derive(Clone, Copy)]
pub(crate) struct Place {
    pub(crate) disk: usize,
    /// The byte of the disk.
    pub(crate) offset: u64,
}

/// Where the column of a vdev begins.
pub(crate) fn place_of(vdev: Vdev, column: Column) -> Place
    requires { IsNamed vdev column }
    ensures disk { result.disk ≡ disk_of vdev column }
    ensures offset { result.offset ≡ offset_of column }
{
    Place {
        disk: vdev.first + column.child as usize,
        offset: column.sector * SECTOR_BYTES + DATA_START,
    }
}

/// Fills the buffer with what is there, and says whether it was: not where the disk is missing, or the read fails.
fn fill<D: Disk + Drop>(
    disks: &mut DiskArray<D>,
    place: Place,
    buffer: &mut [u8],
    missing: &[usize],
) -> bool
    requires which { place.disk < length disks.old.starts }
    requires within { place.offset + length buffer.old
        ≤ length (bytes_of disks.old.starts place.disk) }
    ensures { IsFilled disks.old disks.new missing.now place.disk place.offset buffer.new result }
{
    if missing.contains(&place.disk) {
        return false;
    }
    disks.read(place.disk, place.offset, buffer).is_ok()
}

fn is_same(bytes: &[u8], others: &[u8]) -> bool
    ensures yes { result ≡ true → bytes.now ≡ others.now }
    ensures no { bytes.now ≡ others.now → result ≡ true }
{
    bytes == others
}

/// Reads as many bytes as these are, where the disk isn't missing, and says what is wrong with them: nothing where they are these, and
/// these are known to be the block's.
pub(crate) fn look_at<D: Disk + Drop>(
    disks: &mut DiskArray<D>,
    alloc: Global,
    place: Place,
    bytes: &[u8],
    is_known: bool,
    missing: &[usize],
) -> Result<Option<Fault>, AllocError>
    requires which { place.disk < length disks.old.starts }
    requires within { place.offset + length bytes.now
        ≤ length (bytes_of disks.old.starts place.disk) }
    ensures reads { OnlyReads disks.old disks.new }
    ensures untouched { AreUntouched missing.now disks.old disks.new }
    ensures judged { IfOk result (IsJudged disks.old disks.new missing.now is_known
        place.disk place.offset bytes.now) }
{
    let mut buffer = vec![in alloc; 0; bytes.len()]?;
    if !fill(disks, place, buffer.as_mut_slice(), missing) {
        return Ok(Some(Fault::Unreadable));
    }
    if is_known && is_same(buffer.as_slice(), bytes) {
        return Ok(None);
    }
    Ok(Some(Fault::Wrong))
}
