//! All objects of a set whose dnodes need not be whole: so many blocks are read at most.
ghost use Rattle.std.specs.Prelude.{◌≡◌, ◌≢◌, ◌⊎◌, ◌+◌, ◌++◌, ◌∷◌, [], ◌<◌, ◌≤◌, ℕ, List, Some, All, OnOk, IfOk, IfErr, length};
ghost use Rattle.block_pointer.specs.declared.block.Block.{Block};
ghost use Rattle.dnode.specs.declared.dnode.Dnode.{Dnode};
ghost use Rattle.dnode.specs.Node.{FitsNode};
ghost use Rattle.dnode.specs.ObjectSet.{FitsObjectSet};
ghost use Rattle.block_store.specs.Causes.{IsCaused};
ghost use Rattle.block_store.specs.Blocks.{Contents};
ghost use Rattle.block_store.specs.Losses.{IsForLoss};
ghost use Rattle.block_store.specs.Store.{Holds};
ghost use Rattle.block_store.specs.Steps.{OnlyReadsBlocks, AnswersTell};
ghost use Rattle.dnode_tree.specs.Rewriting.{AreDistinct};
ghost use Rattle.dnode_tree.specs.Ways.{AreWalked};
ghost use Rattle.dnode_tree.specs.Younger.{is_younger, younger, AreWalkedWhere};
ghost use Rattle.objset.specs.Nodes.{HasNodes, IsNodeIn};
ghost use Rattle.objset.specs.NodeSlots.{HasSlots};
ghost use Rattle.objset.specs.NodesWithin.{asked_of_nodes, objects_of, objects_in, IsNodeAt, IsNodeFrom, IsNodeOfOne, IsBlockRefused, AreNodesRefused};
ghost use Rattle.objset.specs.NodesYounger.{younger_nodes, AreYoungerRefused};

use crate::node_slots::{NODES_A_BLOCK, node_at};
use block_pointer::{Block, Property};
use block_store::{Asked, BlockStore, Refusal};
use dnode::{Dnode, ObjectNode, ObjectSet};
use model_disk::Disk;
use std::alloc::{AllocError, Global};

/// An object by its node, as it was read.
#[derive(Clone, Copy)]
pub struct FoundNode {
    pub node: ObjectNode,
    /// The transaction group in which the block with its dnode was born.
    pub birth: u64,
}

/// The blocks of the dnodes of a set, and the objects that they have.
#[derive(Drop)]
pub struct FoundNodes {
    pub blocks: Vec<Block>,
    pub nodes: Vec<FoundNode>,
}

/// The property of a block of dnodes.
const NODES_PROPERTY: Property = Property {
    level: 0,
    object_type: 10,
    sectors: 32,
};

/// All blocks of the dnodes, as `dnode_tree::walk_within` finds them, and all objects by their numbers, of a set that may be
/// forged: at most as many blocks are read as are left to be read, and each that is read is counted off. The blocks were
/// born in the transaction group `birth` or before. The disks that are named are taken as missing. `BadPointer` also where
/// none is left, and where a block is there twice or spells no dnodes. That there are zeros at number 0 and behind the last
/// dnode is not asked here, as `get` does: what is there is an object too.
pub fn nodes_within<D: Disk + Drop>(
    set: &ObjectSet,
    store: &mut BlockStore<D>,
    alloc: Global,
    birth: u64,
    left: &mut u64,
    missing: &[usize],
) -> Result<FoundNodes, Refusal>
    requires { FitsObjectSet set.now }
    ensures reads { OnlyReadsBlocks store.old store.new missing.now }
    ensures fewer { left.new ≤ left.old }
    ensures fits { IfOk result (λ found. All (λ it. FitsNode it.node) found.nodes.items) }
    ensures value { IfOk result (λ found. (stored : Contents) (nodes : ℕ → Dnode)
        (blocks : List Block) → Holds store.old stored
        → (has : HasNodes stored birth set.now nodes blocks)
        → AnswersTell store.old store.new missing.now
        → (found.blocks.items ≡ blocks)
        × (found.nodes.items ≡ objects_of set.now nodes has.births)) }

    // Whatever the set is: each of its blocks was read once, and on a refusal its cause.
    ensures found { IfOk result (λ found.
        AreWalked store.old.spaces set.now.dnodes birth found.blocks.items) }
    ensures once { IfOk result (λ found. AreDistinct found.blocks.items) }
    ensures from { IfOk result (λ found.
        All (IsNodeOfOne store.old.spaces found.blocks.items) found.nodes.items) }
    ensures count { IfOk result (λ found. left.old ≡ left.new + length found.blocks.items) }
    ensures refused { IfErr result
        (AreNodesRefused store.old store.new missing.now set.now birth left.new) }
    ensures caused { IfErr result (IsCaused store.old store.new missing.now) }
    ensures cause { IfErr result (λ refusal. refusal ≢ Refusal.NoSpace) }

    // And a whole set that has each block once is read, over disks whose answers tell, where as many
    // are left, unless too many disks miss of a block.
    ensures known { IfErr result (λ refusal. (stored : Contents) (nodes : ℕ → Dnode)
        (blocks : List Block) → Holds store.old stored
        → HasNodes stored birth set.now nodes blocks → AreDistinct blocks
        → length blocks ≤ left.old
        → AnswersTell store.old store.new missing.now → IsForLoss refusal) }
{
    nodes_younger(set, store, alloc, birth, 0, left, missing)
}

/// The blocks of the dnodes that were born after the transaction group `since`, as `dnode_tree::walk_younger` finds them, and
/// the objects that have their dnodes in them, by their numbers: the others have no younger blocks. At most as many blocks are
/// read as are left to be read, and each that is read is counted off: each of the blocks that are found. What else is asked is
/// what `nodes_within` asks.
pub fn nodes_younger<D: Disk + Drop>(
    set: &ObjectSet,
    store: &mut BlockStore<D>,
    alloc: Global,
    birth: u64,
    since: u64,
    left: &mut u64,
    missing: &[usize],
) -> Result<FoundNodes, Refusal>
    requires { FitsObjectSet set.now }
    ensures reads { OnlyReadsBlocks store.old store.new missing.now }
    ensures fewer { left.new ≤ left.old }
    ensures fits { IfOk result (λ found. All (λ it. FitsNode it.node) found.nodes.items) }
    ensures value { IfOk result (λ found. (stored : Contents) (nodes : ℕ → Dnode)
        (blocks : List Block) → Holds store.old stored
        → (has : HasNodes stored birth set.now nodes blocks)
        → AnswersTell store.old store.new missing.now
        → (found.blocks.items ≡ younger since blocks)
        × (found.nodes.items ≡ younger_nodes since (objects_of set.now nodes has.births))) }

    // Whatever the set is: each of these blocks was read once, and on a refusal its cause.
    ensures found { IfOk result (λ found. AreWalkedWhere (is_younger since)
        store.old.spaces set.now.dnodes birth found.blocks.items) }
    ensures younger { IfOk result (λ found.
        All (λ block. since < block.birth) found.blocks.items) }
    ensures once { IfOk result (λ found. AreDistinct found.blocks.items) }
    ensures from { IfOk result (λ found.
        All (IsNodeOfOne store.old.spaces found.blocks.items) found.nodes.items) }
    ensures count { IfOk result (λ found. left.old ≡ left.new + length found.blocks.items) }
    ensures refused { IfErr result
        (AreYoungerRefused since store.old store.new missing.now set.now birth left.new) }
    ensures caused { IfErr result (IsCaused store.old store.new missing.now) }
    ensures cause { IfErr result (λ refusal. refusal ≢ Refusal.NoSpace) }

    // And a whole set that has each younger block once is read, over disks whose answers tell, where
    // as many are left, unless too many disks miss of a block.
    ensures known { IfErr result (λ refusal. (stored : Contents) (nodes : ℕ → Dnode)
        (blocks : List Block) → Holds store.old stored
        → HasNodes stored birth set.now nodes blocks → AreDistinct (younger since blocks)
        → length (younger since blocks) ≤ left.old → AnswersTell store.old store.new missing.now
        → IsForLoss refusal) }
{
    let blocks = dnode_tree::walk_younger(&set.dnodes, store, alloc, birth, since, left, missing)?;
    let mut nodes = Vec::new(alloc);
    for block in &blocks {
        if block.property.level == 0 {
            read_nodes(store, alloc, block, left, missing, &mut nodes)?;
        }
    }
    Ok(FoundNodes { blocks, nodes })
}

/// Adds the objects that one block of dnodes has.
fn read_nodes<D: Disk + Drop>(
    store: &mut BlockStore<D>,
    alloc: Global,
    block: &Block,
    left: &mut u64,
    missing: &[usize],
    nodes: &mut Vec<FoundNode>,
) -> Result<(), Refusal>
    ensures reads { OnlyReadsBlocks store.old store.new missing.now }
    ensures fewer { left.new ≤ left.old }
    ensures count { OnOk result (left.old ≡ left.new + 1) }
    ensures fits { OnOk result (All (λ it. FitsNode it.node) nodes.old.items
        → All (λ it. FitsNode it.node) nodes.new.items) }
    ensures value { OnOk result ((stored : Contents) (id : ℕ) (bytes : List ℕ)
        (dnodes : ℕ → Dnode) (births : ℕ → ℕ → ℕ) → Holds store.old stored
        → stored block.now ≡ Some bytes → HasSlots bytes id dnodes
        → births 0 id ≡ block.now.birth → AnswersTell store.old store.new missing.now
        → nodes.new.items ≡ nodes.old.items ++ objects_in dnodes births id) }
    ensures from { OnOk result ((added : List FoundNode)
        × (nodes.new.items ≡ nodes.old.items ++ added)
        × All (IsNodeFrom store.old.spaces block.now) added) }
    ensures refused { IfErr result
        (IsBlockRefused store.old store.new missing.now block.now left.new) }
    ensures caused { IfErr result (IsCaused store.old store.new missing.now) }
    ensures cause { IfErr result (λ refusal. refusal ≢ Refusal.NoSpace) }
    ensures known { IfErr result (λ refusal. (stored : Contents) (id : ℕ) (bytes : List ℕ)
        (dnodes : ℕ → Dnode) → Holds store.old stored
        → stored block.now ≡ Some bytes → HasSlots bytes id dnodes
        → block.now.property ≡ (asked_of_nodes block.now).property → 0 < left.old
        → AnswersTell store.old store.new missing.now → IsForLoss refusal) }
{
    if *left == 0 {
        return Err(Refusal::BadPointer);
    }
    *left -= 1;
    let asked = Asked {
        property: NODES_PROPERTY,
        birth: block.birth,
    };
    let bytes = store.read(alloc, block, asked, missing)?;
    add_nodes(&bytes, block.birth, nodes)
}

/// Adds the objects of a block of dnodes, by its bytes.
fn add_nodes(bytes: &[u8], birth: u64, nodes: &mut Vec<FoundNode>) -> Result<(), Refusal>
    requires { length bytes.now ≡ 16384 }
    ensures fits { OnOk result (All (λ it. FitsNode it.node) nodes.old.items
        → All (λ it. FitsNode it.node) nodes.new.items) }
    ensures value { OnOk result ((id : ℕ) (dnodes : ℕ → Dnode) (births : ℕ → ℕ → ℕ)
        → HasSlots bytes.now id dnodes → births 0 id ≡ birth
        → nodes.new.items ≡ nodes.old.items ++ objects_in dnodes births id) }
    ensures from { OnOk result ((added : List FoundNode)
        × (nodes.new.items ≡ nodes.old.items ++ added)
        × All (IsNodeAt bytes.now birth) added) }
    ensures refused { IfErr result (λ refusal. (refusal ≡ Refusal.NoMemory)
        ⊎ ((refusal ≡ Refusal.BadPointer) × (place : ℕ) × (place < 32)
        × ((node : Dnode) → ¬ IsNodeIn (Some bytes.now) place node))) }
{
    for place in 0..NODES_A_BLOCK {
        let dnode = node_at(bytes, place as usize)?;
        if let Dnode::Object(node) = dnode {
            push(nodes, FoundNode { node, birth })?;
        }
    }
    Ok(())
}

/// Adds an object.
fn push(nodes: &mut Vec<FoundNode>, found: FoundNode) -> Result<(), AllocError>
    ensures { OnOk result (nodes.new.items ≡ nodes.old.items ++ found ∷ []) }
{
    nodes.push(found)?;
    Ok(())
}
