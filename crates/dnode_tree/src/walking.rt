//! All blocks of a tree.
ghost use Rattle.std.specs.Prelude.{◌≡◌, ◌≢◌, ◌++◌, ◌^◌, ◌<◌, ◌∷◌, [], ℕ, List, Option, OnOk, IfOk, IfErr, ◌↔◌, IsTrue};
ghost use Rattle.block_pointer.specs.declared.block.Block.{Block};
ghost use Rattle.block_store.specs.Causes.{IsCaused};
ghost use Rattle.block_store.specs.Blocks.{Contents};
ghost use Rattle.block_store.specs.Losses.{IsForLoss};
ghost use Rattle.block_store.specs.Reading.{Asks};
ghost use Rattle.block_store.specs.Store.{Holds};
ghost use Rattle.block_store.specs.Steps.{OnlyReadsBlocks, AnswersTell};
ghost use Rattle.dnode_tree.specs.Tree.{property_of, IsPart, IsTree};
ghost use Rattle.dnode_tree.specs.Ways.{reached, root_of, IsWalked, IsWalkRefused, AreWalked};

use crate::descent::{asked_at, read_indirect};
use crate::subtree::Subtree;
use block_pointer::{Block, BlockPtr};
use block_store::{Asked, BlockStore, Refusal};
use dnode::ObjectNode;
use model_disk::Disk;
use std::alloc::{AllocError, Global};

/// All blocks of an object, each before those below it, and otherwise in the order of their data. Only indirect blocks
/// are read, and what is behind a hole is not looked at; of a pointer to a data block its property and its birth are judged. The object's blocks were born in the transaction group `birth`
/// or before. The disks that are named are taken as missing.
pub fn walk<D: Disk + Drop>(
    node: &ObjectNode,
    store: &mut BlockStore<D>,
    alloc: Global,
    birth: u64,
    missing: &[usize],
) -> Result<Vec<Block>, Refusal>
    requires { node.now.highest < 128 ^ 5 }
    ensures reads { OnlyReadsBlocks store.old store.new missing.now }
    ensures blocks { IfOk result (λ found. (stored : Contents) (array : ℕ → Option (List ℕ))
        (blocks : List Block) → Holds store.old stored
        → IsTree stored birth node.now array blocks → AnswersTell store.old store.new missing.now
        → found.items ≡ blocks) }

    // Whatever the tree is: what was walked, and on a refusal its cause.
    ensures found { IfOk result (λ found. AreWalked store.old.spaces node.now birth found.items) }
    ensures refused { IfErr result (IsWalkRefused store.old store.new missing.now
        (property_of node.now) (root_of node.now birth)) }
    ensures caused { IfErr result (IsCaused store.old store.new missing.now) }
    ensures cause { IfErr result (λ refusal. refusal ≢ Refusal.NoSpace) }

    // And a whole tree is walked, where answers tell, unless too many disks miss of a block.
    ensures known { IfErr result (λ refusal. (stored : Contents) (array : ℕ → Option (List ℕ))
        (blocks : List Block) → Holds store.old stored
        → IsTree stored birth node.now array blocks → AnswersTell store.old store.new missing.now
        → IsForLoss refusal) }
{
    let root = Subtree {
        level: node.levels() - 1,
        pointer: node.pointer,
        birth,
    };
    let mut found = Vec::new(alloc);
    collect_below(node, store, alloc, root, missing, &mut found)?;
    Ok(found)
}

/// Adds all blocks of a part of a tree.
fn collect_below<D: Disk + Drop>(
    node: &ObjectNode,
    store: &mut BlockStore<D>,
    alloc: Global,
    part: Subtree,
    missing: &[usize],
    found: &mut Vec<Block>,
) -> Result<(), Refusal>
    ensures reads { OnlyReadsBlocks store.old store.new missing.now }
    ensures blocks { OnOk result ((stored : Contents) (first : ℕ) (array : ℕ → Option (List ℕ))
        (blocks : List Block) → Holds store.old stored
        → IsPart stored node.now first part array blocks
        → AnswersTell store.old store.new missing.now
        → found.new.items ≡ found.old.items ++ blocks) }
    ensures found { OnOk result ((blocks : List Block)
        × (found.new.items ≡ found.old.items ++ blocks)
        × IsWalked store.old.spaces
        (property_of node.now) part.level part.birth part.pointer blocks) }
    ensures refused { IfErr result (IsWalkRefused store.old store.new missing.now
        (property_of node.now)
        (reached part.level part.pointer part.birth)) }
    ensures caused { IfErr result (IsCaused store.old store.new missing.now) }
    ensures cause { IfErr result (λ refusal. refusal ≢ Refusal.NoSpace) }
    ensures known { IfErr result (λ refusal. (stored : Contents) (first : ℕ)
        (array : ℕ → Option (List ℕ)) (blocks : List Block) → Holds store.old stored
        → IsPart stored node.now first part array blocks
        → AnswersTell store.old store.new missing.now
        → IsForLoss refusal) }
{
    let BlockPtr::Block(block) = part.pointer else {
        return Ok(());
    };
    push(found, block)?;
    let asked = asked_at(node, part.level, part.birth);
    if part.level == 0 {
        if !asks(&block, asked) {
            return Err(Refusal::BadPointer);
        }
        return Ok(());
    }
    let children = read_indirect(store, alloc, &block, asked, missing)?;
    for pointer in children.pointers() {
        let child = Subtree {
            level: part.level - 1,
            pointer: *pointer,
            birth: block.birth,
        };
        collect_below(node, store, alloc, child, missing, found)?;
    }
    Ok(())
}

/// Whether the pointer is one that its parent may have.
pub(crate) fn asks(block: &Block, asked: Asked) -> bool
    ensures { IsTrue result ↔ Asks asked block.now }
{
    block.property == asked.property && block.birth <= asked.birth
}

/// Adds a block to a list.
pub(crate) fn push(blocks: &mut Vec<Block>, block: Block) -> Result<(), AllocError>
    ensures ok { OnOk result (blocks.new.items ≡ blocks.old.items ++ block ∷ []) }
{
    blocks.push(block)?;
    Ok(())
}
