//! Walks over a set that need not be one: so many blocks are read at most.
ghost use Rattle.std.specs.Prelude.{◌≡◌, ◌≢◌, ◌++◌, ◌<◌, ◌≤◌, ℕ, List, Option, All, OnOk, IfOk, IfErr};
ghost use Rattle.block_pointer.specs.declared.block.Block.{Block};
ghost use Rattle.block_store.specs.Causes.{IsCaused};
ghost use Rattle.block_store.specs.Blocks.{Contents};
ghost use Rattle.block_store.specs.Losses.{IsForLoss};
ghost use Rattle.block_store.specs.Steps.{OnlyReadsBlocks, AnswersTell};
ghost use Rattle.block_store.specs.Store.{Holds};
ghost use Rattle.dnode.specs.ObjectSet.{FitsObjectSet};
ghost use Rattle.dnode_tree.specs.Rewriting.{AreDistinct};
ghost use Rattle.dnode_tree.specs.Younger.{younger};
ghost use Rattle.objset.specs.Laws.{HasEachOnce};
ghost use Rattle.objset.specs.Objects.{Object, AreObjects};
ghost use Rattle.objset.specs.Within.{blocks_of_objects, blocks_of_set, reads_of, IsSetWalked, IsSetWalkRefused};
ghost use Rattle.objset.specs.Younger.{IsYoungerSetWalked, IsYoungerSetRefused};

use crate::node_walks::FoundNodes;
use block_pointer::Block;
use block_store::{BlockStore, Refusal};
use dnode::ObjectSet;
use dnode_tree::are_distinct;
use model_disk::Disk;
use std::alloc::{AllocError, Global};

/// All blocks of a set that may be forged: those of its dnodes, and then those of each object, in the order of their
/// numbers. At most as many blocks are read as are left to be read, and each that is read is counted off: all blocks of the
/// dnodes, and of the objects' blocks those above the data. `BadPointer` also where none is left, and where a block is
/// there twice. The set's blocks were born in the transaction group `birth` or before, and those of an object by the birth of
/// the block that has its dnode. The disks that are named are taken as missing.
pub fn walk_within<D: Disk + Drop>(
    set: &ObjectSet,
    store: &mut BlockStore<D>,
    alloc: Global,
    birth: u64,
    left: &mut u64,
    missing: &[usize],
) -> Result<Vec<Block>, Refusal>
    requires { FitsObjectSet set.now }
    ensures reads { OnlyReadsBlocks store.old store.new missing.now }
    ensures fewer { left.new ≤ left.old }
    ensures blocks { IfOk result (λ found. (stored : Contents) (objects : ℕ → Option Object)
        (own : List Block) (blocks : ℕ → List Block) → Holds store.old stored
        → AreObjects stored birth set.now objects own blocks
        → AnswersTell store.old store.new missing.now
        → found.items ≡ blocks_of_set set.now own blocks) }

    // Whatever the set is: each of its blocks was found once, and on a refusal its cause.
    ensures once { IfOk result (λ found. AreDistinct found.items) }
    ensures count { IfOk result (λ found.
        IsSetWalked store.old.spaces set.now birth left.old left.new found.items) }
    ensures refused { IfErr result
        (IsSetWalkRefused store.old store.new missing.now set.now birth left.old left.new) }
    ensures caused { IfErr result (IsCaused store.old store.new missing.now) }
    ensures cause { IfErr result (λ refusal. refusal ≢ Refusal.NoSpace) }

    // And a whole set that has each block once is walked, over disks whose answers tell, where as
    // many are left, unless too many disks miss of a block.
    ensures known { IfErr result (λ refusal. (stored : Contents) (objects : ℕ → Option Object)
        (own : List Block) (blocks : ℕ → List Block) → Holds store.old stored
        → AreObjects stored birth set.now objects own blocks → HasEachOnce own blocks
        → reads_of own (blocks_of_objects set.now blocks) ≤ left.old
        → AnswersTell store.old store.new missing.now → IsForLoss refusal) }
{
    walk_younger(set, store, alloc, birth, 0, left, missing)
}

/// All blocks of a set that were born after the transaction group `since`, in the order of `walk_within`, of a set that may be
/// forged. A block that was born in that group or before is not read, and not judged: nothing below it is younger, and neither
/// is a block of an object whose dnode stands in it. At most as many blocks are read as are left to be read, and each that is
/// read is counted off: of the blocks that are found all of the dnodes, and of the objects those above the data. What else is
/// asked is what `walk_within` asks.
pub fn walk_younger<D: Disk + Drop>(
    set: &ObjectSet,
    store: &mut BlockStore<D>,
    alloc: Global,
    birth: u64,
    since: u64,
    left: &mut u64,
    missing: &[usize],
) -> Result<Vec<Block>, Refusal>
    requires { FitsObjectSet set.now }
    ensures reads { OnlyReadsBlocks store.old store.new missing.now }
    ensures fewer { left.new ≤ left.old }
    ensures blocks { IfOk result (λ found. (stored : Contents) (objects : ℕ → Option Object)
        (own : List Block) (blocks : ℕ → List Block) → Holds store.old stored
        → AreObjects stored birth set.now objects own blocks
        → AnswersTell store.old store.new missing.now
        → found.items ≡ younger since (blocks_of_set set.now own blocks)) }

    // Whatever the set is: each of these blocks was found once, none that is older, and on a refusal
    // its cause.
    ensures younger { IfOk result (λ found. All (λ block. since < block.birth) found.items) }
    ensures once { IfOk result (λ found. AreDistinct found.items) }
    ensures count { IfOk result (λ found. IsYoungerSetWalked since
        store.old.spaces set.now birth left.old left.new found.items) }
    ensures refused { IfErr result (IsYoungerSetRefused since
        store.old store.new missing.now set.now birth left.old left.new) }
    ensures caused { IfErr result (IsCaused store.old store.new missing.now) }
    ensures cause { IfErr result (λ refusal. refusal ≢ Refusal.NoSpace) }

    // And a whole set that has each block once is walked, over disks whose answers tell, where as
    // many are left, unless too many disks miss of a block.
    ensures known { IfErr result (λ refusal. (stored : Contents) (objects : ℕ → Option Object)
        (own : List Block) (blocks : ℕ → List Block) → Holds store.old stored
        → AreObjects stored birth set.now objects own blocks → HasEachOnce own blocks
        → reads_of (younger since own) (younger since (blocks_of_objects set.now blocks))
        ≤ left.old → AnswersTell store.old store.new missing.now → IsForLoss refusal) }
{
    let FoundNodes { blocks, nodes } = crate::node_walks::nodes_younger(
        set, store, alloc, birth, since, left, missing,
    )?;
    let mut found = blocks;
    for it in &nodes {
        let more = dnode_tree::walk_younger(
            &it.node, store, alloc, it.birth, since, left, missing,
        )?;
        add(&mut found, &more)?;
    }
    let is_once = are_distinct(alloc, &found)?;
    if !is_once {
        return Err(Refusal::BadPointer);
    }
    Ok(found)
}

/// Adds blocks to a list.
fn add(found: &mut Vec<Block>, blocks: &[Block]) -> Result<(), AllocError>
    ensures { OnOk result (found.new.items ≡ found.old.items ++ blocks.now) }
{
    found.extend_from_slice(blocks)?;
    Ok(())
}
