//! What an open keeps of a pool's root.
ghost use Rattle.std.specs.Prelude.{◌≢◌, ◌≤◌, length, IfOk, IfErr};
ghost use Rattle.block_store.specs.Blocks.{Contents};
ghost use Rattle.block_store.specs.declared.refusal.Refusal.TheVariants.{NoSpace};
ghost use Rattle.block_store.specs.Steps.{OnlyReadsBlocks, AnswersTell};
ghost use Rattle.block_store.specs.Store.{Holds};
ghost use Rattle.dnode_tree.specs.Rewriting.{AreDistinct};
ghost use Rattle.pool_maps.specs.Loads.{AreSetsOf};
ghost use Rattle.pool_model.specs.Pools.{PlainPool};
ghost use Rattle.space_map_objects.specs.Maps.{IsForLossOf};
ghost use Rattle.dataset_snapshots.specs.Contents.{AreContentsFound, AreContentsOf, AreContentsRefused};
ghost use Rattle.dataset_snapshots.specs.Mapped.{HasItsMaps};
ghost use Rattle.dataset_snapshots.specs.Pools.{SpellsPool};
ghost use Rattle.dataset_snapshots.specs.Reach.{meta_blocks_of};

use crate::finding::directory_under;
use crate::kept::KeptDirectory;
use crate::naming::names_by;
use crate::walks::walk_meta;
use block_pointer::Block;
use block_store::BlockStore;
use meta_objset::{StaleSpans, read_stale_spans};
use model_disk::Disk;
use pool_maps::{FreeMetaslab, read_maps};
use space_map_objects::Refusal;
use std::alloc::Global;
use volume_rules::NameIndex;

/// What an open keeps of a pool's root: its directory, with the numbers that no object has, the names of its pool, the blocks of its meta
/// object set, what its space maps leave free, and of which groups a disk missed blocks.
#[derive(Drop)]
pub struct RootContents {
    pub directory: KeptDirectory,
    pub names: NameIndex,
    /// The root's block and those of the meta object set, each once.
    pub blocks: Vec<Block>,
    /// What the space map of each metaslab that has one leaves free.
    pub maps: Vec<FreeMetaslab>,
    pub spans: StaleSpans,
}

/// What is kept of a root as its pool is opened. The meta object set alone is read, and no block of a volume: the root three times,
/// the directory, the record of each dataset, the space maps and their table once each, the stale spans, and the blocks that
/// `objset::walk_within` reads.
///
/// The pool may be forged. The walk reads at most as many blocks as are left to be read, and counts each of them off. `Unread` with
/// `BadPointer` where the block is no root of a pool, its object 1 no directory, its object 3 no table of stale spans, the object of a
/// name no record of a dataset, where the records don't fit one another in chains, where no block is left to be read, where a block of
/// the set is there twice, and where the space maps are none of the pool's vdevs, as `pool_maps::read_maps` says; `BadMap` where one of
/// them is no map. The root was born in the transaction group `birth` or before. The disks that are named are taken as missing.
pub fn contents_under<D: Disk + Drop>(
    root: &Block,
    store: &mut BlockStore<D>,
    alloc: Global,
    birth: u64,
    left: &mut u64,
    missing: &[usize],
) -> Result<RootContents, Refusal>
    ensures reads { OnlyReadsBlocks store.old store.new missing.now }
    ensures fewer { left.new ≤ left.old }

    // Over disks whose answers tell they are the pool's.
    ensures value { IfOk result (λ contents. (stored : Contents) (pool : PlainPool)
        → Holds store.old stored → SpellsPool stored birth root.now pool
        → AnswersTell store.old store.new missing.now
        → AreContentsOf stored store.old.spaces birth root.now pool contents) }

    // Whatever the root is: what was read, each block once, and maps that a store of these vdevs may
    // load; and on a refusal its cause.
    ensures found { IfOk result
        (AreContentsFound store.old.spaces birth root.now left.old left.new) }
    ensures once { IfOk result (λ contents. AreDistinct contents.blocks.items) }
    ensures sets { IfOk result (λ contents. AreSetsOf store.old.spaces contents.maps.items) }
    ensures refused { IfErr result (AreContentsRefused store.old store.new missing.now birth
        root.now left.old left.new) }
    ensures cause { IfErr result (λ refusal. refusal ≢ Refusal.Unread NoSpace) }

    // And the contents of a whole pool that has its space maps, and each of these blocks once, are
    // read, over disks whose answers tell, where as many may be read as these are, unless too many
    // disks miss of a block.
    ensures known { IfErr result (λ refusal. (stored : Contents) (pool : PlainPool)
        → Holds store.old stored → (is : SpellsPool stored birth root.now pool)
        → HasItsMaps store.old.spaces is
        → AreDistinct (meta_blocks_of is) → length (meta_blocks_of is) ≤ left.old
        → AnswersTell store.old store.new missing.now → IsForLossOf refusal) }
{
    let directory = directory_under(root, store, alloc, birth, missing)?;
    let mut taken = Vec::new(alloc);
    let names = names_by(root, store, alloc, birth, &directory, missing, &mut taken)?;
    let meta = walk_meta(root, store, alloc, birth, left, missing)?;
    let maps = read_maps(&meta.set, store, alloc, root.birth, missing)?;
    let spans = read_stale_spans(&meta.set, store, alloc, root.birth, missing)?;
    let kept = KeptDirectory::opened(alloc, directory, taken, &maps, meta.set.objects)?;
    Ok(RootContents {
        directory: kept,
        names,
        blocks: meta.blocks,
        maps,
        spans,
    })
}
