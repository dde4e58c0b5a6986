//! The blocks that a group of a pool leads to, found over the disks of the pool.
ghost use Rattle.std.specs.Prelude.{◌≡◌, ◌⊎◌, IfErr, IfOk};
ghost use Rattle.scrub_resilver.specs.Copies.{HaveRoom};
ghost use Rattle.pool_scrub.specs.Walking.{IsUnwalked, IsWalkedOver, of_store};

use block_pointer::Block;
use block_store::{BlockStore, VdevShape};
use dataset_snapshots::reach;
use disk_set::GroupSpan;
use model_disk::{Disk, DiskArray};
use pool_open::Refusal;
use std::alloc::Global;

/// How the disks of a pool are read: by the shapes of its vdevs, without those that are out, and without those that missed a block's group.
#[derive(Drop)]
pub(crate) struct PoolLayout {
    pub(crate) shapes: Vec<VdevShape>,
    pub(crate) out: Vec<bool>,
    pub(crate) stale: Vec<Option<GroupSpan>>,
}

/// Why a walk over a store was refused. `NoSpace` comes from plans alone, and no walk makes one.
fn told(refusal: block_store::Refusal) -> Refusal
    ensures { result ≡ of_store refusal }
{
    match refusal {
        block_store::Refusal::NoMemory => Refusal::NoMemory,
        block_store::Refusal::DiskFault => Refusal::DiskFault,
        block_store::Refusal::NoSpace => Refusal::NoSpace,
        block_store::Refusal::BadPointer => Refusal::BadPointer,
        block_store::Refusal::BadDigest => Refusal::BadDigest,
        block_store::Refusal::BadConfig => Refusal::BadConfig,
    }
}

/// How many sectors of 512 bytes the vdevs have, which is more than a pool has blocks.
fn sectors_of(shapes: &[VdevShape]) -> u64 {
    let mut sectors: u64 = 0;
    for shape in shapes {
        sectors = sectors.saturating_add(shape.sectors());
    }
    sectors
}

/// All blocks that the root of a group leads to, each once, found over these disks. With an error the disks come back.
pub(crate) fn walk<D: Disk + Drop>(
    alloc: Global,
    disks: DiskArray<D>,
    layout: &PoolLayout,
    root: &Block,
    group: u64,
) -> Result<(Vec<Block>, DiskArray<D>), (Refusal, DiskArray<D>)>
    ensures walked { IfOk result (λ walked.
        IsWalkedOver disks layout.now root.now group walked.0.items walked.1) }
    ensures room { IfOk result (λ walked. HaveRoom (layout.now).shapes.items walked.1.starts) }
    ensures refused { IfErr result (λ failed.
        IsUnwalked disks layout.now root.now group failed.0 failed.1) }
{
    let _count = disks.len();
    let shapes = layout.shapes.as_slice();
    let Ok(stale) = Vec::from_slice(alloc, layout.stale.as_slice()) else {
        return Err((Refusal::NoMemory, disks));
    };
    let mut store = match BlockStore::opened(alloc, disks, shapes, layout.out.as_slice()) {
        Ok(store) => store,
        Err((refusal, disks)) => return Err((told(refusal), disks)),
    };
    store.mark_stale(stale);
    let mut left = sectors_of(shapes);
    match reach(root, &mut store, alloc, group, &mut left, &[]) {
        Ok(blocks) => Ok((blocks, store.into_array())),
        Err(refusal) => Err((told(refusal), store.into_array())),
    }
}
