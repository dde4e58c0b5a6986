//! Reading the root of a pool before it is claimed.
ghost use Rattle.std.specs.Prelude.{Bool, IfErr, IfOk, List, Option, []};
ghost use Rattle.block_store.specs.declared.shape.VdevShape.{VdevShape as Shape};
ghost use Rattle.disk_set.specs.declared.stale.GroupSpan.{GroupSpan as Groups};
ghost use Rattle.model_disk.specs.Joint.{Disks};
ghost use Rattle.pool_open.specs.Held.{IsStoreOver};
ghost use Rattle.pool_open.specs.Roots.{AreReadBeside, IsReadOfRoot, IsRootNotRead};

use block_pointer::Block;
use block_store::{BlockStore, VdevShape};
use disk_set::GroupSpan;
use model_disk::{Disk, DiskArray};
use pool_core::{RootContents, contents_under};
use space_map_objects::Refusal;
use std::alloc::Global;
use uberblock_ring::Uberblock;

/// What was read of a root, and the disks that it was read from.
#[derive(Drop)]
pub struct ReadRoot<D: Disk + Drop> {
    pub disks: DiskArray<D>,
    pub contents: RootContents,
}

/// Reads what an open keeps of the root of a group: its directory, its names, the blocks of its meta object set and what its space
/// maps leave free. Nothing is written, and a disk that is marked isn't called. The walk of the blocks reads at most `left` of them,
/// whatever the root is.
///
/// `BadConfig` where the vdevs don't take all disks in order, or a disk is too small for its vdev. `BadPointer`, `BadDigest`,
/// `DiskFault` and `BadMap` come from reading, as `contents_under` says. After an error the disks come back.
pub fn read_root<D: Disk + Drop>(
    alloc: Global,
    disks: DiskArray<D>,
    shapes: &[VdevShape],
    out: &[bool],
    root: &Block,
    group: u64,
    left: u64,
) -> Result<ReadRoot<D>, (Refusal, DiskArray<D>)>
    ensures only { IfOk result (λ read. AreReadBeside out.now disks read.disks) }
    ensures contents { IfOk result (λ read.
        IsReadOfRoot disks read.disks shapes.now out.now [] group root.now read.contents) }
    ensures refused { IfErr result (λ failed.
        IsRootNotRead disks failed.1 shapes.now out.now [] group root.now left failed.0) }
{
    match BlockStore::opened(alloc, disks, shapes, out) {
        Ok(store) => read_through(alloc, store, root, group, left),
        Err((refusal, disks)) => Err((Refusal::from(refusal), disks)),
    }
}

/// The same of disks that missed these groups, by their numbers: of blocks that were born in them nothing is read of the disk.
pub(crate) fn read_stale<D: Disk + Drop>(
    alloc: Global,
    disks: DiskArray<D>,
    shapes: &[VdevShape],
    out: &[bool],
    stale: Vec<Option<GroupSpan>>,
    taken: &Uberblock,
    left: u64,
) -> Result<ReadRoot<D>, (Refusal, DiskArray<D>)>
    ensures only { IfOk result (λ read. AreReadBeside out.now disks read.disks) }
    ensures contents { IfOk result (λ read. IsReadOfRoot disks read.disks shapes.now out.now
        stale.items taken.now.group taken.now.root read.contents) }
    ensures refused { IfErr result (λ failed. IsRootNotRead disks failed.1 shapes.now out.now
        stale.items taken.now.group taken.now.root left failed.0) }
{
    match BlockStore::opened(alloc, disks, shapes, out) {
        Ok(mut store) => {
            store.mark_stale(stale);
            read_through(alloc, store, &taken.root, taken.group, left)
        }
        Err((refusal, disks)) => Err((Refusal::from(refusal), disks)),
    }
}

/// Reads it through a store that was opened over the disks.
fn read_through<D: Disk + Drop>(
    alloc: Global,
    store: BlockStore<D>,
    root: &Block,
    group: u64,
    left: u64,
) -> Result<ReadRoot<D>, (Refusal, DiskArray<D>)>
    ensures only { IfOk result (λ read. AreReadBeside store.out store.disks read.disks) }
    ensures contents { IfOk result (λ read. (old : Disks) (shapes : List Shape)
        (out : List Bool) (stale : List (Option Groups))
        → IsStoreOver old shapes out stale store
        → IsReadOfRoot old read.disks shapes out stale group root.now read.contents) }
    ensures refused { IfErr result (λ failed. (old : Disks) (shapes : List Shape)
        (out : List Bool) (stale : List (Option Groups))
        → IsStoreOver old shapes out stale store
        → IsRootNotRead old failed.1 shapes out stale group root.now left failed.0) }
{
    let mut store = store;
    let mut left = left;
    match contents_under(root, &mut store, alloc, group, &mut left, &[]) {
        Ok(contents) => Ok(ReadRoot {
            disks: store.into_array(),
            contents,
        }),
        Err(refusal) => Err((refusal, store.into_array())),
    }
}
