//! The configuration that the first root of a pool has.
ghost use Rattle.std.specs.Prelude.{◌≡◌, ◌+◌, ◌<◌, ◌^◌, suc, length, IfOk};
ghost use Rattle.block_store.specs.Places.{shapes_of};
ghost use Rattle.pool_model.specs.View.{counted};
ghost use Rattle.vdev_label.specs.Config.{FitsConfig, config_bytes};
ghost use Rattle.vdev_label.specs.Plain.{vdev_view, config_view};
ghost use Rattle.pool_commit.specs.Configs.{FitsTable, IsConfigOf, vdev_with};

use block_store::{BlockStore, VdevShape};
use model_disk::Disk;
use std::alloc::{AllocError, Global};
use vdev_label::{Config, Vdev, small_configs_fit};

/// How far the guids of a vdev and the next one lie apart.
const GUIDS_OF_VDEV: u64 = 100;

/// The guids of a vdev's disks: those behind its own.
fn disk_guids(alloc: Global, vdev: u64, children: u32) -> Result<Vec<u64>, AllocError>
    requires { vdev + children < 2 ^ 64 }
    ensures { IfOk result (λ guids. guids.items ≡ counted (suc vdev) children) }
{
    let mut guids = Vec::new(alloc);
    for child in 0..children {
        guids.push(vdev + 1 + u64::from(child))?;
    }
    Ok(guids)
}

/// A vdev of that shape.
fn vdev_of(alloc: Global, guid: u64, shape: VdevShape) -> Result<Vdev, AllocError>
    requires { guid + shape.vdev.geometry.children < 2 ^ 64 }
    ensures { IfOk result (λ vdev. vdev_view vdev ≡ vdev_with guid shape) }
{
    let geometry = shape.vdev.geometry;
    let children = disk_guids(alloc, guid, geometry.children)?;
    Ok(Vdev {
        guid,
        parity: u64::from(geometry.parity),
        child_sectors: shape.child_sectors,
        slab_shift: u64::from(shape.metaslab_shift),
        meta_slabs: shape.meta_slabs,
        children,
    })
}

/// The configuration of a store's vdevs, as long as no caller names guids: the first vdev has 100, the next 200 and so on, and
/// a vdev's disks the numbers behind it. A vdev has at most 32 disks, so no two guids are the same.
pub fn config_of<D: Disk + Drop>(alloc: Global, store: &BlockStore<D>) -> Result<Config, AllocError>
    ensures is { IfOk result (λ config.
        IsConfigOf (shapes_of store.now.spaces) (config_view config)) }
    ensures fits { IfOk result (λ config. FitsConfig (config_view config)) }
    ensures few { IfOk result (λ config. length (config_bytes (config_view config)) < 2 ^ 46) }
    ensures table { IfOk result (λ config. FitsTable (config_view config)) }
{
    small_configs_fit();
    let mut vdevs = Vec::new(alloc);
    let mut guid = GUIDS_OF_VDEV;
    for index in 0..store.vdev_count() {
        let shape = store.shape(index);
        vdevs.push(vdev_of(alloc, guid, shape)?)?;
        guid += GUIDS_OF_VDEV;
    }
    Ok(Config { vdevs })
}
