//! The room that vdevs have on their disks.
ghost use Rattle.std.specs.Prelude.{◌≡◌, true};
ghost use Rattle.raidz_io.specs.Places.{HasRoom};
ghost use Rattle.scrub_resilver.specs.Copies.{HaveRoom};

use block_store::VdevShape;
use model_disk::{Disk, DiskArray};
use raidz_io::DATA_START;

/// Whether a vdev has its disks in the array, and the room there that its shape tells.
fn has_room<D: Disk + Drop>(disks: &DiskArray<D>, shape: VdevShape) -> bool
    ensures { result ≡ true → HasRoom shape.vdev shape.child_sectors disks.now.starts }
{
    let first = shape.vdev.first;
    let children = shape.vdev.geometry.children as usize;
    if disks.len() < first || disks.len() - first < children {
        return false;
    }
    let least = shape.child_sectors * 512 + DATA_START;
    for child in 0..children {
        if disks.size(first + child) < least {
            return false;
        }
    }
    true
}

/// The same of each of these vdevs.
pub(crate) fn have_room<D: Disk + Drop>(disks: &DiskArray<D>, shapes: &[VdevShape]) -> bool
    ensures { result ≡ true → HaveRoom shapes.now disks.now.starts }
{
    for vdev in 0..shapes.len() {
        if !has_room(disks, shapes[vdev]) {
            return false;
        }
    }
    true
}
