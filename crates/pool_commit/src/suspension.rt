//! The disks of a pool's vdevs, and whether it is suspended: whether more disks of a vdev are out than it has parities.
ghost use Rattle.std.specs.Prelude.{◌≡◌, ◌<◌, ◌≤◌, ◌+◌, ◌-◌, ◌^◌, ◌==◌, Some, length, slice_get, IsTrue};
ghost use Rattle.std.specs.List.{list_any};
ghost use Rattle.block_store.specs.Store.{is_out};
ghost use Rattle.pool_model.specs.View.{disks_of, lost_in};
ghost use Rattle.pool_commit.specs.Config.{shown, vdevs_of};
ghost use Rattle.pool_commit.specs.Suspension.{lacks_disks as lacks};

use block_store::BlockStore;
use model_disk::Disk;
use raidz_io::Vdev;

/// Whether more disks of a vdev are out than it has parities.
pub(crate) fn lacks_disks<D: Disk + Drop>(store: &BlockStore<D>) -> bool
    ensures { result ≡ lacks store.now }
{
    for index in 0..store.vdev_count() {
        let vdev = vdev_at(store, index);
        if count_out(store, vdev) > vdev.geometry.parity {
            return true;
        }
    }
    false
}

/// Whether a vdev of the pool has the disk of this number.
pub(crate) fn has_disk<D: Disk + Drop>(store: &BlockStore<D>, disk: usize) -> bool
    ensures vdevs { result ≡ list_any (λ d. d == disk) (disks_of (vdevs_of store.now.spaces)) }
    ensures there { IsTrue result → disk < length store.now.disks.starts }
{
    for index in 0..store.vdev_count() {
        let vdev = vdev_at(store, index);
        if vdev.first <= disk && disk - vdev.first < vdev.geometry.children as usize {
            return true;
        }
    }
    false
}

/// A vdev of the pool. Its disks are in the array.
pub(crate) fn vdev_at<D: Disk + Drop>(store: &BlockStore<D>, index: usize) -> Vdev
    requires { index < length store.now.spaces }
    ensures there { slice_get (vdevs_of store.now.spaces) index ≡ Some (shown result) }
    ensures few { result.first + result.geometry.children ≤ 2 ^ 64 - 1 }
    ensures disks { result.first + result.geometry.children ≤ length store.now.disks.starts }
{
    // Numbers of disks are below their count, which a usize holds.
    let _count = store.disk_count();
    store.shape(index).vdev
}

/// How many disks of a vdev are out.
fn count_out<D: Disk + Drop>(store: &BlockStore<D>, vdev: Vdev) -> u32
    requires { vdev.first + vdev.geometry.children ≤ 2 ^ 64 - 1 }
    ensures { result ≡ lost_in (is_out store.now.out) vdev.first vdev.geometry.children }
{
    let mut count = 0;
    for child in 0..vdev.geometry.children {
        if store.is_out(vdev.first + child as usize) {
            count += 1;
        }
    }
    count
}
