//! A store in memory: one vdev of three disks, with two metaslabs before its meta region.
use block_pointer::Block;
use block_store::{BlockStore, VdevConfig};
use dataset_snapshots::{KeptDirectory, contents_under};
use model_disk::MemDisk;
use pool_maps::load_maps;
use raidz_map::Geometry;
use std::alloc::Global;
use std::test::Fail;

pub(crate) type Store = BlockStore<MemDisk>;

/// The smallest disk: three have room for five metaslabs.
pub(crate) const DISK_BYTES: usize = 0x800000;

/// How many metaslabs there are before the meta region.
pub(crate) const METASLABS: u64 = 2;

/// How many sectors each has.
pub(crate) const SECTORS: u64 = 4096;

/// A store over these disks, of which nothing is known.
pub(crate) fn store_over(alloc: Global, disks: Vec<MemDisk>) -> Result<Store, Fail> {
    let vdev = VdevConfig {
        geometry: Geometry::new(3, 1, 9)?,
        metaslab_shift: 12,
        meta_slabs: 3,
    };
    Ok(BlockStore::new(alloc, disks, &[vdev])?)
}

/// A store as it is opened, and the directory of its root.
#[derive(Drop)]
pub(crate) struct Opened {
    pub store: Store,
    pub directory: KeptDirectory,
}

/// A store over the same disks, opened by what is under the root alone.
pub(crate) fn opened_again(store: Store, alloc: Global, root: &Block) -> Result<Opened, Fail> {
    let mut store = store_over(alloc, store.into_disks())?;
    let mut left = 100000u64;
    let contents = contents_under(root, &mut store, alloc, root.birth, &mut left, &[])?;
    if load_maps(&mut store, contents.maps) {
        store.take_in(&contents.blocks)?;
    }
    let directory = contents.directory;
    Ok(Opened { store, directory })
}

/// Makes the writes that are due, and takes the blocks of the plan as stored.
pub(crate) fn store_plan(store: &mut Store) {
    for _ in 0..store.due_count() {
        if store.due_count() == 0 || store.write_next().is_err() {
            break;
        }
    }
    store.finish_plan();
}
