//! The blocks that only the tree before a change has.
ghost use Rattle.std.specs.Prelude.{◌≡◌, ◌≢◌, ◌^◌, ◌<◌, ◌≤◌, ◌↔◌, ◌⊎◌, ℕ, List, Option, Contains, OnOk, IfOk, IfErr, ◌++◌, ◌∷◌, []};
ghost use Rattle.std.specs.Bool.{MatchBool};
ghost use Rattle.block_pointer.specs.declared.block.Block.{Block};
ghost use Rattle.block_store.specs.Causes.{IsCaused};
ghost use Rattle.block_store.specs.Blocks.{Contents};
ghost use Rattle.block_store.specs.Losses.{IsForLoss};
ghost use Rattle.block_store.specs.Store.{Holds};
ghost use Rattle.dnode_tree.specs.Freeing.{AreOnlyIn};
ghost use Rattle.block_store.specs.Steps.{OnlyReadsBlocks, AnswersTell};
ghost use Rattle.dnode_tree.specs.Tree.{property_of, IsTree};
ghost use Rattle.dnode_tree.specs.Ways.{root_of, IsWalkRefused};

use crate::walking::{push, walk};
use block_pointer::Block;
use block_store::{BlockStore, Refusal};
use dnode::ObjectNode;
use model_disk::Disk;
use std::alloc::{AllocError, Global};
use std::collections::HashSet;

/// The blocks of an object before a change that the object after it doesn't have, each once, in the order of the walk
/// over the object before. The blocks of both were born in the transaction group `birth` or before. Only indirect blocks
/// are read, and the disks that are named are taken as missing.
pub fn free_blocks<D: Disk + Drop>(
    before: &ObjectNode,
    after: &ObjectNode,
    store: &mut BlockStore<D>,
    alloc: Global,
    birth: u64,
    missing: &[usize],
) -> Result<Vec<Block>, Refusal>
    requires before { before.now.highest < 128 ^ 5 }
    requires after { after.now.highest < 128 ^ 5 }
    ensures reads { OnlyReadsBlocks store.old store.new missing.now }
    ensures freed { IfOk result (λ freed. (stored : Contents) (bound : ℕ)
        (array later : ℕ → Option (List ℕ)) (blocks others : List Block) → Holds store.old stored
        → IsTree stored bound before.now array blocks → bound ≤ birth
        → IsTree stored birth after.now later others → AnswersTell store.old store.new missing.now
        → AreOnlyIn blocks others freed.items) }
    ensures cause { IfErr result (λ refusal. refusal ≢ Refusal.NoSpace) }

    // And whole trees are walked, where answers tell, unless too many disks miss of a block.
    ensures known { IfErr result (λ refusal. (stored : Contents) (bound : ℕ)
        (array later : ℕ → Option (List ℕ)) (blocks others : List Block) → Holds store.old stored
        → IsTree stored bound before.now array blocks → bound ≤ birth
        → IsTree stored birth after.now later others → AnswersTell store.old store.new missing.now
        → IsForLoss refusal) }

    // Whatever the objects are: the walk over one of them was refused.
    ensures refused { IfErr result (λ refusal. IsWalkRefused store.old store.new missing.now
        (property_of after.now) (root_of after.now birth) refusal
        ⊎ IsWalkRefused store.old store.new missing.now (property_of before.now)
        (root_of before.now birth) refusal) }
    ensures caused { IfErr result (IsCaused store.old store.new missing.now) }
{
    let others = walk(after, store, alloc, birth, missing)?;
    let blocks = walk(before, store, alloc, birth, missing)?;
    Ok(blocks_without(alloc, &blocks, &others)?)
}

/// Those blocks that are not among the others, each once.
fn blocks_without(
    alloc: Global,
    blocks: &[Block],
    others: &[Block],
) -> Result<Vec<Block>, AllocError>
    ensures { IfOk result (λ left. AreOnlyIn blocks.now others.now left.items) }
{
    let mut seen = set_of(alloc, others)?;
    let mut left = Vec::new(alloc);
    for block in blocks {
        leave(&mut seen, &mut left, *block)?;
    }
    Ok(left)
}

/// Adds a block to those that were seen, and to those that are left where it is new.
fn leave(seen: &mut HashSet<Block>, left: &mut Vec<Block>, block: Block) -> Result<(), AllocError>
    ensures seen { OnOk result ((other : Block)
        → Contains seen.new.keys other ↔ ((other ≡ block) ⊎ Contains seen.old.keys other)) }
    ensures left { OnOk result (((¬ Contains seen.old.keys block)
        × (left.new.items ≡ left.old.items ++ block ∷ []))
        ⊎ (Contains seen.old.keys block × (left.new.items ≡ left.old.items))) }
{
    if add(seen, block)? {
        push(left, block)?;
    }
    Ok(())
}

fn set_of(alloc: Global, blocks: &[Block]) -> Result<HashSet<Block>, AllocError>
    ensures { IfOk result (λ found. (block : Block)
        → Contains found.keys block ↔ Contains blocks.now block) }
{
    let mut found = HashSet::new(alloc);
    for block in blocks {
        add(&mut found, *block)?;
    }
    Ok(found)
}

/// Adds a block to a set, and says whether it is new there.
pub(crate) fn add(blocks: &mut HashSet<Block>, block: Block) -> Result<bool, AllocError>
    ensures new { IfOk result (λ is_new. MatchBool is_new (¬ Contains blocks.old.keys block)
        (Contains blocks.old.keys block)) }
    ensures kept { IfOk result (λ is_new. (other : Block)
        → Contains blocks.new.keys other ↔ ((other ≡ block) ⊎ Contains blocks.old.keys other)) }
{
    Ok(blocks.insert(block)?)
}
