//! All blocks that the root of a pool leads to.
ghost use Rattle.std.specs.Prelude.{◌≡◌, ◌≢◌, ◌⊎◌, ◌+◌, ◌++◌, ◌∷◌, ◌<◌, ◌≤◌, ℕ, All, List, Option, length, IfOk, IfErr, OnOk};
ghost use Rattle.block_pointer.specs.declared.block.Block.{Block};
ghost use Rattle.block_store.specs.Blocks.{Contents};
ghost use Rattle.block_store.specs.Losses.{IsForLoss};
ghost use Rattle.block_store.specs.Steps.{OnlyReadsBlocks, AnswersTell};
ghost use Rattle.block_store.specs.Store.{Holds};
ghost use Rattle.dataset_groups.specs.Chains.{Reading};
ghost use Rattle.dataset_groups.specs.ChainStanding.{HasChains};
ghost use Rattle.dataset_groups.specs.Names.{reach_by};
ghost use Rattle.dead_list.specs.Datasets.{Free, Pool, group_before};
ghost use Rattle.dead_list.specs.Reach.{own_of};
ghost use Rattle.dnode.specs.declared.object_set.ObjectSet.{ObjectSet};
ghost use Rattle.dnode.specs.declared.object_set.ObjectSetKind.TheVariants as sets;
ghost use Rattle.dnode.specs.ObjectSet.{FitsObjectSet};
ghost use Rattle.objset.specs.Sets.{IsSetBlock};
ghost use Rattle.dnode_tree.specs.Rewriting.{AreDistinct};
ghost use Rattle.meta_objset.specs.declared.directory.DirectoryRow.{DirectoryRow};
ghost use Rattle.meta_objset.specs.Found.{IsRecordRefused};
ghost use Rattle.meta_objset.specs.Reading.{HasDirectory};
ghost use Rattle.objset.specs.Objects.{Object, AreObjects};
ghost use Rattle.pool_model.specs.Pools.{PlainPool};
ghost use Rattle.dataset_snapshots.specs.Finding.{IsMetaFound};
ghost use Rattle.dataset_snapshots.specs.Pools.{SpellsPool};
ghost use Rattle.dataset_snapshots.specs.Reach.{meta_blocks_of, reach_of};
ghost use Rattle.dataset_snapshots.specs.Reach.{AreRowsWalked, AreVolumesUnwalked, AreVolumesWalked, IsDatasetUnwalked};
ghost use Rattle.dataset_snapshots.specs.Reach.{IsDatasetWalked, IsGroupBefore, IsMetaMissed, IsMetaWalkRefused, IsMetaWalked};
ghost use Rattle.dataset_snapshots.specs.Reach.{IsReachRefused, IsReached, IsRowUnwalked};

use crate::finding::{read_dataset, read_meta};
use block_pointer::Block;
use block_store::{BlockStore, Refusal};
use dnode::ObjectSet;
use dnode_tree::are_distinct;
use meta_objset::{DatasetRecord, DirectoryRow, read_directory};
use model_disk::Disk;
use std::alloc::{AllocError, Global};

/// All blocks that the root of a pool leads to, each once: that of the root; those of the meta object set, as
/// `objset::walk_within` finds them; and for each row of the directory, in their order, those of its volume or snapshot that were
/// born after the snapshot before it, as `VolumeSet::walk_younger` finds them.
///
/// The pool may be forged. The walks read at most as many blocks as are left to be read, and count each of them off; beside them
/// the directory is read, and the record of each dataset and of the snapshot before it. `BadPointer` also where none is left, and
/// where a block is there twice. The root was born in the transaction group `birth` or before. The disks that are named are taken
/// as missing.
pub fn reach<D: Disk + Drop>(
    root: &Block,
    store: &mut BlockStore<D>,
    alloc: Global,
    birth: u64,
    left: &mut u64,
    missing: &[usize],
) -> Result<Vec<Block>, Refusal>
    ensures reads { OnlyReadsBlocks store.old store.new missing.now }
    ensures fewer { left.new ≤ left.old }
    ensures reach { IfOk result (λ found. (stored : Contents) (pool : PlainPool)
        → Holds store.old stored → (is : SpellsPool stored birth root.now pool)
        → AnswersTell store.old store.new missing.now → found.items ≡ reach_of is) }

    // Whatever the root is: each block was found once, by so many reads, and on a refusal its cause.
    ensures once { IfOk result (λ found. AreDistinct found.items) }
    ensures count { IfOk result (λ found.
        IsReached store.old.spaces birth root.now left.old left.new found.items) }
    ensures refused { IfErr result (IsReachRefused store.old store.new missing.now birth root.now
        left.old left.new) }
    ensures cause { IfErr result (λ refusal. refusal ≢ Refusal.NoSpace) }

    // And a whole pool that has each block once is walked, over disks whose answers tell, where as
    // many may be read as it has blocks, unless too many disks miss of a block.
    ensures known { IfErr result (λ refusal. (stored : Contents) (pool : PlainPool)
        → Holds store.old stored → (is : SpellsPool stored birth root.now pool)
        → AreDistinct (reach_of is) → length (reach_of is) ≤ left.old
        → AnswersTell store.old store.new missing.now → IsForLoss refusal) }
{
    let set = count_meta(root, store, alloc, birth, left, missing)?;
    let own = objset::walk_within(&set, store, alloc, root.birth, left, missing)?;
    let below = walk_volumes(&set, store, alloc, root.birth, left, missing)?;
    let found = with_root(*root, own, &below)?;
    whole(alloc, found)
}

/// The meta object set of a root, and its blocks.
#[derive(Drop)]
pub(crate) struct MetaWalk {
    pub set: ObjectSet,
    /// The root's block, and then those of the set.
    pub blocks: Vec<Block>,
}

/// The meta object set of a root with its blocks, each once, as `objset::walk_within` finds them behind that of the root.
///
/// The pool may be forged. At most as many blocks are read as are left to be read, and each is counted off. `BadPointer` also where
/// none is left, and where a block is there twice. The root was born in the transaction group `birth` or before. The disks that are
/// named are taken as missing.
pub(crate) fn walk_meta<D: Disk + Drop>(
    root: &Block,
    store: &mut BlockStore<D>,
    alloc: Global,
    birth: u64,
    left: &mut u64,
    missing: &[usize],
) -> Result<MetaWalk, Refusal>
    ensures reads { OnlyReadsBlocks store.old store.new missing.now }
    ensures fewer { left.new ≤ left.old }
    ensures fits { IfOk result (λ meta. FitsObjectSet meta.set) }
    ensures value { IfOk result (λ meta. (stored : Contents) (pool : PlainPool)
        → Holds store.old stored → (is : SpellsPool stored birth root.now pool)
        → AnswersTell store.old store.new missing.now
        → (meta.set ≡ is.set) × (meta.blocks.items ≡ meta_blocks_of is)) }

    // Whatever the root is: each block was found once, by so many reads, and on a refusal its cause.
    ensures once { IfOk result (λ meta. AreDistinct meta.blocks.items) }
    ensures walked { IfOk result (λ meta. IsMetaWalked store.old.spaces birth root.now left.old
        left.new meta.set meta.blocks.items) }
    ensures refused { IfErr result (IsMetaWalkRefused store.old store.new missing.now birth
        root.now left.old left.new) }
    ensures cause { IfErr result (λ refusal. refusal ≢ Refusal.NoSpace) }

    // And the set of a whole pool that has each of these blocks once is walked, over disks
    // whose answers tell, where as many may be read as they are, unless too many disks miss of a block.
    ensures known { IfErr result (λ refusal. (stored : Contents) (pool : PlainPool)
        → Holds store.old stored → (is : SpellsPool stored birth root.now pool)
        → AreDistinct (meta_blocks_of is) → length (meta_blocks_of is) ≤ left.old
        → AnswersTell store.old store.new missing.now → IsForLoss refusal) }
{
    let set = count_meta(root, store, alloc, birth, left, missing)?;
    let own = objset::walk_within(&set, store, alloc, root.birth, left, missing)?;
    let found = with_root(*root, own, &[])?;
    let blocks = whole(alloc, found)?;
    Ok(MetaWalk { set, blocks })
}

/// The meta object set of a root, whose block is counted off.
fn count_meta<D: Disk + Drop>(
    root: &Block,
    store: &mut BlockStore<D>,
    alloc: Global,
    birth: u64,
    left: &mut u64,
    missing: &[usize],
) -> Result<ObjectSet, Refusal>
    ensures reads { OnlyReadsBlocks store.old store.new missing.now }
    ensures fits { IfOk result FitsObjectSet }
    ensures fewer { left.new ≤ left.old }
    ensures count { IfOk result (λ set. left.old ≡ left.new + 1) }
    ensures value { IfOk result (λ found. (stored : Contents) (set : ObjectSet)
        → Holds store.old stored → IsSetBlock stored birth root.now set
        → AnswersTell store.old store.new missing.now → found ≡ set) }
    ensures found { IfOk result (IsMetaFound store.old.spaces birth root.now) }
    ensures refused { IfErr result
        (IsMetaMissed store.old store.new missing.now birth root.now left.old) }
    ensures cause { IfErr result (λ refusal. refusal ≢ Refusal.NoSpace) }
    ensures known { IfErr result (λ refusal. (stored : Contents) (set : ObjectSet)
        → Holds store.old stored → IsSetBlock stored birth root.now set → set.kind ≡ sets.Meta
        → 0 < left.old → AnswersTell store.old store.new missing.now → IsForLoss refusal) }
{
    if *left == 0 {
        return Err(Refusal::BadPointer);
    }
    *left -= 1;
    read_meta(root, store, alloc, birth, missing)
}

/// The younger blocks of all datasets that the directory of a set names, in the order of its rows.
fn walk_volumes<D: Disk + Drop>(
    set: &ObjectSet,
    store: &mut BlockStore<D>,
    alloc: Global,
    birth: u64,
    left: &mut u64,
    missing: &[usize],
) -> Result<Vec<Block>, Refusal>
    requires { FitsObjectSet set.now }
    ensures reads { OnlyReadsBlocks store.old store.new missing.now }
    ensures fewer { left.new ≤ left.old }
    ensures blocks { IfOk result (λ found. (stored : Contents) (objects : ℕ → Option Object)
        (own : List Block) (blocks : ℕ → List Block) (pool : Pool) (readings : ℕ → Reading)
        (rows : List DirectoryRow) → Holds store.old stored
        → AreObjects stored birth set.now objects own blocks → HasDirectory (objects 1) rows
        → HasChains stored birth objects pool readings
        → All (λ row. (pool.datasets row.object).kind ≢ Free) rows
        → AnswersTell store.old store.new missing.now → found.items ≡ reach_by pool rows) }
    ensures count { IfOk result (λ found.
        AreVolumesWalked store.old.spaces set.now birth left.old left.new found.items) }
    ensures refused { IfErr result (AreVolumesUnwalked store.old store.new missing.now set.now birth
        left.old left.new) }
    ensures cause { IfErr result (λ refusal. refusal ≢ Refusal.NoSpace) }
    ensures known { IfErr result (λ refusal. (stored : Contents) (objects : ℕ → Option Object)
        (own : List Block) (blocks : ℕ → List Block) (pool : Pool) (readings : ℕ → Reading)
        (rows : List DirectoryRow) → Holds store.old stored
        → AreObjects stored birth set.now objects own blocks → HasDirectory (objects 1) rows
        → HasChains stored birth objects pool readings
        → All (λ row. (pool.datasets row.object).kind ≢ Free) rows
        → length (reach_by pool rows) ≤ left.old
        → AnswersTell store.old store.new missing.now → IsForLoss refusal) }
{
    let directory = read_directory(set, store, alloc, birth, missing)?;
    walk_rows(set, directory.rows(), store, alloc, birth, left, missing)
}

/// The younger blocks of the datasets that the rows name, one after the other.
fn walk_rows<D: Disk + Drop>(
    set: &ObjectSet,
    rows: &[DirectoryRow],
    store: &mut BlockStore<D>,
    alloc: Global,
    birth: u64,
    left: &mut u64,
    missing: &[usize],
) -> Result<Vec<Block>, Refusal>
    requires { FitsObjectSet set.now }
    ensures reads { OnlyReadsBlocks store.old store.new missing.now }
    ensures fewer { left.new ≤ left.old }
    ensures blocks { IfOk result (λ found. (stored : Contents) (objects : ℕ → Option Object)
        (own : List Block) (blocks : ℕ → List Block) (pool : Pool) (readings : ℕ → Reading)
        → Holds store.old stored → AreObjects stored birth set.now objects own blocks
        → HasChains stored birth objects pool readings
        → All (λ row. (pool.datasets row.object).kind ≢ Free) rows.now
        → AnswersTell store.old store.new missing.now → found.items ≡ reach_by pool rows.now) }
    ensures count { IfOk result (λ found.
        AreRowsWalked store.old.spaces set.now birth rows.now left.old left.new found.items) }
    ensures refused { IfErr result (λ refusal. (refusal ≡ Refusal.NoMemory)
        ⊎ IsRowUnwalked store.old store.new missing.now set.now birth rows.now left.old left.new
        refusal) }
    ensures cause { IfErr result (λ refusal. refusal ≢ Refusal.NoSpace) }
    ensures known { IfErr result (λ refusal. (stored : Contents) (objects : ℕ → Option Object)
        (own : List Block) (blocks : ℕ → List Block) (pool : Pool) (readings : ℕ → Reading)
        → Holds store.old stored → AreObjects stored birth set.now objects own blocks
        → HasChains stored birth objects pool readings
        → All (λ row. (pool.datasets row.object).kind ≢ Free) rows.now
        → length (reach_by pool rows.now) ≤ left.old
        → AnswersTell store.old store.new missing.now → IsForLoss refusal) }
{
    let mut found = Vec::new(alloc);
    for row in rows {
        let more = walk_dataset(set, store, alloc, birth, row.object, left, missing)?;
        add(&mut found, &more)?;
    }
    Ok(found)
}

/// Of the dataset whose record an object has, the blocks that were born after the snapshot before it.
fn walk_dataset<D: Disk + Drop>(
    set: &ObjectSet,
    store: &mut BlockStore<D>,
    alloc: Global,
    birth: u64,
    object: u64,
    left: &mut u64,
    missing: &[usize],
) -> Result<Vec<Block>, Refusal>
    requires { FitsObjectSet set.now }
    ensures reads { OnlyReadsBlocks store.old store.new missing.now }
    ensures fewer { left.new ≤ left.old }
    ensures blocks { IfOk result (λ found. (stored : Contents) (objects : ℕ → Option Object)
        (own : List Block) (blocks : ℕ → List Block) (pool : Pool) (readings : ℕ → Reading)
        → Holds store.old stored → AreObjects stored birth set.now objects own blocks
        → HasChains stored birth objects pool readings → (pool.datasets object).kind ≢ Free
        → AnswersTell store.old store.new missing.now → found.items ≡ own_of pool.datasets object) }
    ensures count { IfOk result (λ found.
        IsDatasetWalked store.old.spaces set.now birth object left.old left.new found.items) }
    ensures refused { IfErr result (IsDatasetUnwalked store.old store.new missing.now set.now birth
        object left.old left.new) }
    ensures cause { IfErr result (λ refusal. refusal ≢ Refusal.NoSpace) }
    ensures known { IfErr result (λ refusal. (stored : Contents) (objects : ℕ → Option Object)
        (own : List Block) (blocks : ℕ → List Block) (pool : Pool) (readings : ℕ → Reading)
        → Holds store.old stored → AreObjects stored birth set.now objects own blocks
        → HasChains stored birth objects pool readings → (pool.datasets object).kind ≢ Free
        → length (own_of pool.datasets object) ≤ left.old
        → AnswersTell store.old store.new missing.now → IsForLoss refusal) }
{
    let dataset = read_dataset(set, store, alloc, birth, object, missing)?;
    let since = group_before(set, store, alloc, birth, &dataset.record, missing)?;
    dataset
        .volume
        .walk_younger(store, alloc, birth, since, left, missing)
}

/// The group of the snapshot that a record has before its dataset, or 0 where it has none.
fn group_before<D: Disk + Drop>(
    set: &ObjectSet,
    store: &mut BlockStore<D>,
    alloc: Global,
    birth: u64,
    record: &DatasetRecord,
    missing: &[usize],
) -> Result<u64, Refusal>
    requires { FitsObjectSet set.now }
    ensures reads { OnlyReadsBlocks store.old store.new missing.now }
    ensures value { IfOk result (λ since. (stored : Contents) (objects : ℕ → Option Object)
        (own : List Block) (blocks : ℕ → List Block) (pool : Pool) (readings : ℕ → Reading)
        (object : ℕ) → Holds store.old stored
        → AreObjects stored birth set.now objects own blocks
        → HasChains stored birth objects pool readings
        → (pool.datasets object).before ≡ (record.now).previous
        → AnswersTell store.old store.new missing.now → since ≡ group_before pool.datasets object) }
    ensures found { IfOk result (IsGroupBefore store.old.spaces set.now birth record.now) }
    ensures refused { IfErr result (λ refusal. (refusal ≡ Refusal.NoMemory)
        ⊎ (((record.now).previous ≢ 0) × IsRecordRefused store.old store.new missing.now set.now
        birth (record.now).previous refusal)) }
    ensures cause { IfErr result (λ refusal. refusal ≢ Refusal.NoSpace) }
    ensures known { IfErr result (λ refusal. (stored : Contents) (objects : ℕ → Option Object)
        (own : List Block) (blocks : ℕ → List Block) (pool : Pool) (readings : ℕ → Reading)
        (object : ℕ) → Holds store.old stored
        → AreObjects stored birth set.now objects own blocks
        → HasChains stored birth objects pool readings
        → (pool.datasets object).before ≡ (record.now).previous
        → AnswersTell store.old store.new missing.now → IsForLoss refusal) }
{
    if record.previous == 0 {
        return Ok(0);
    }
    let before = read_dataset(set, store, alloc, birth, record.previous, missing)?;
    Ok(before.record.created)
}

/// Adds blocks to a list.
fn add(found: &mut Vec<Block>, blocks: &[Block]) -> Result<(), AllocError>
    ensures { OnOk result (found.new.items ≡ found.old.items ++ blocks.now) }
{
    found.extend_from_slice(blocks)?;
    Ok(())
}

/// The root's block, and then those of its set and those below.
fn with_root(root: Block, own: Vec<Block>, below: &[Block]) -> Result<Vec<Block>, AllocError>
    ensures { IfOk result (λ found. found.items ≡ root ∷ own.items ++ below.now) }
{
    let mut found = own;
    found.insert(0, root)?;
    found.extend_from_slice(below)?;
    Ok(found)
}

/// The blocks again, if none is there twice.
fn whole(alloc: Global, blocks: Vec<Block>) -> Result<Vec<Block>, Refusal>
    ensures same { IfOk result (λ found. found.items ≡ blocks.items) }
    ensures once { IfOk result (λ found. AreDistinct found.items) }
    ensures refused { IfErr result (λ refusal. (refusal ≡ Refusal.NoMemory)
        ⊎ ((refusal ≡ Refusal.BadPointer) × ¬ AreDistinct blocks.items)) }
    ensures cause { IfErr result (λ refusal. refusal ≢ Refusal.NoSpace) }
{
    let is_once = are_distinct(alloc, &blocks)?;
    if !is_once {
        return Err(Refusal::BadPointer);
    }
    Ok(blocks)
}
