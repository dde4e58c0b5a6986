//! The blocks of a volume that were born after a transaction group.
ghost use Rattle.std.specs.Prelude.{◌≡◌, ◌+◌, ◌<◌, ◌≤◌, ◌↔◌, ◌∷◌, [], ℕ, List, IsTrue, IfOk, IfErr, length};
ghost use Rattle.block_store.specs.Blocks.{Contents};
ghost use Rattle.block_store.specs.Causes.{IsCaused};
ghost use Rattle.block_store.specs.Losses.{IsForLoss};
ghost use Rattle.block_store.specs.Steps.{OnlyReadsBlocks, AnswersTell};
ghost use Rattle.block_store.specs.Store.{Holds};
ghost use Rattle.dnode.specs.ObjectSet.{FitsObjectSet};
ghost use Rattle.dnode.specs.declared.object_set.ObjectSet.{ObjectSet};
ghost use Rattle.dnode.specs.declared.object_set.ObjectSetKind.TheVariants as kinds;
ghost use Rattle.objset.specs.Sets.{IsSetBlock, IsSetFound};
ghost use Rattle.dnode_tree.specs.Rewriting.{AreDistinct};
ghost use Rattle.dnode_tree.specs.Younger.{younger};
ghost use Rattle.volume.specs.Volume.{IsVolume};
ghost use Rattle.volume.specs.Walking.{blocks_of_volume};
ghost use Rattle.dataset_destroys.specs.Younger.{IsTreeMissed, IsTreeRefused};

use block_pointer::Block;
use block_store::{BlockStore, Refusal};
use dnode::{ObjectSet, ObjectSetKind};
use model_disk::Disk;
use objset::read_set;
use std::alloc::{AllocError, Global};

/// The blocks of a volume that were born after the transaction group `since`: that of its object set, `block`, and then those of the set. Where
/// that of the object set is older all are, and none is read. At most as many blocks are read as are left to be read, and each that is read is
/// counted off. `BadPointer` also where none is left, and where the object set is not of a volume. The object set's block was born in the
/// transaction group `birth` or before.
pub(crate) fn younger_blocks<D: Disk + Drop>(
    store: &mut BlockStore<D>,
    alloc: Global,
    block: &Block,
    birth: u64,
    since: u64,
    left: &mut u64,
) -> Result<Vec<Block>, Refusal>
    ensures reads { OnlyReadsBlocks store.old store.new [] }
    ensures fewer { left.new ≤ left.old }
    ensures value { IfOk result (λ found. (stored : Contents) (bound size block_size : ℕ)
        (array : List ℕ) → Holds store.old stored
        → (is : IsVolume stored bound block.now size block_size array) → bound ≤ birth
        → AnswersTell store.old store.new [] → found.items
        ≡ younger since (blocks_of_volume block.now is.set is.has.own is.has.blocks)) }
    ensures caused { IfErr result (IsCaused store.old store.new []) }
    ensures refused { IfErr result
        (IsTreeRefused since store.old store.new birth block.now left.old left.new) }

    // And a volume that has each block once is walked, over disks whose answers tell, where as many are
    // left as it has, unless too many disks miss of a block.
    ensures known { IfErr result (λ refusal. (stored : Contents) (bound size block_size : ℕ)
        (array : List ℕ) → Holds store.old stored
        → (is : IsVolume stored bound block.now size block_size array) → bound ≤ birth
        → AreDistinct (blocks_of_volume block.now is.set is.has.own is.has.blocks)
        → length (blocks_of_volume block.now is.set is.has.own is.has.blocks) ≤ left.old
        → AnswersTell store.old store.new [] → IsForLoss refusal) }
{
    if block.birth <= since {
        return Ok(Vec::new(alloc));
    }
    let set = counted_set(store, alloc, block, birth, left)?;
    let below = objset::walk_younger(&set, store, alloc, block.birth, since, left, &[])?;
    Ok(with_first(below, *block)?)
}

/// The object set of a volume, whose block is counted off.
fn counted_set<D: Disk + Drop>(
    store: &mut BlockStore<D>,
    alloc: Global,
    block: &Block,
    birth: u64,
    left: &mut u64,
) -> Result<ObjectSet, Refusal>
    ensures reads { OnlyReadsBlocks store.old store.new [] }
    ensures fits { IfOk result FitsObjectSet }
    ensures fewer { left.new ≤ left.old }
    ensures count { IfOk result (λ set. left.old ≡ left.new + 1) }
    ensures value { IfOk result (λ set. (stored : Contents) (other : ObjectSet)
        → Holds store.old stored → IsSetBlock stored birth block.now other
        → AnswersTell store.old store.new [] → set ≡ other) }
    ensures found { IfOk result (IsSetFound store.old.spaces birth block.now) }
    ensures kind { IfOk result (λ set. set.kind ≡ kinds.Volume) }
    ensures caused { IfErr result (IsCaused store.old store.new []) }
    ensures refused { IfErr result
        (IsTreeMissed store.old store.new birth block.now left.old) }
    ensures known { IfErr result (λ refusal. (stored : Contents) (other : ObjectSet)
        → Holds store.old stored → IsSetBlock stored birth block.now other
        → other.kind ≡ kinds.Volume → 0 < left.old → AnswersTell store.old store.new []
        → IsForLoss refusal) }
{
    if *left == 0 {
        return Err(Refusal::BadPointer);
    }
    *left -= 1;
    let set = read_set(store, alloc, block, birth, &[])?;
    if !is_of_volume(&set) {
        return Err(Refusal::BadPointer);
    }
    Ok(set)
}

fn is_of_volume(set: &ObjectSet) -> bool
    ensures { IsTrue result ↔ (set.now.kind ≡ kinds.Volume) }
{
    match set.kind {
        ObjectSetKind::Meta => false,
        ObjectSetKind::Volume => true,
    }
}

/// The blocks with another in front of them.
fn with_first(blocks: Vec<Block>, first: Block) -> Result<Vec<Block>, AllocError>
    ensures { IfOk result (λ all. all.items ≡ first ∷ blocks.items) }
{
    let mut all = blocks;
    all.insert(0, first)?;
    Ok(all)
}
