//! One data block of a tree.
ghost use Rattle.std.specs.Prelude.{◌≡◌, ◌≢◌, ◌+◌, ◌^◌, ◌<◌, ℕ, List, Option, IfOk, IfErr, IfSome};
ghost use Rattle.std.specs.Option.{option_map};
ghost use Rattle.block_pointer.specs.declared.block.Block.{Block};
ghost use Rattle.block_store.specs.Causes.{IsCaused};
ghost use Rattle.block_store.specs.Blocks.{Contents};
ghost use Rattle.block_store.specs.Losses.{IsForLoss};
ghost use Rattle.block_store.specs.Store.{Holds};
ghost use Rattle.block_store.specs.Steps.{OnlyReadsBlocks, AnswersTell};
ghost use Rattle.dnode_tree.specs.Births.{AreBirths, HasBirths};
ghost use Rattle.dnode_tree.specs.Tree.{property_of, IsPart, IsTree};
ghost use Rattle.dnode_tree.specs.Ways.{reached, bytes_of, bytes_in, IsFound, IsBlockFound, IsRefused, IsBlockFoundBelow, IsRefusedBelow};

use crate::descent::{asked_at, read_indirect, span};
use crate::subtree::Subtree;
use block_pointer::BlockPtr;
use block_store::{BlockStore, Refusal};
use dnode::ObjectNode;
use model_disk::Disk;
use std::alloc::Global;

/// A data block as it was read.
#[derive(Drop)]
pub struct DataBlock {
    pub bytes: Vec<u8>,
    /// The transaction group in which it was born, as the pointer to it says.
    pub birth: u64,
}

/// The bytes of a data block of an object, or nothing where it has none: one block is read a level. The object's blocks
/// were born in the transaction group `birth` or before. The disks that are named are taken as missing.
pub fn get<D: Disk + Drop>(
    node: &ObjectNode,
    store: &mut BlockStore<D>,
    alloc: Global,
    id: u64,
    birth: u64,
    missing: &[usize],
) -> Result<Option<Vec<u8>>, Refusal>
    requires { node.now.highest < 128 ^ 5 }
    ensures reads { OnlyReadsBlocks store.old store.new missing.now }
    ensures value { IfOk result (λ found. (stored : Contents) (array : ℕ → Option (List ℕ))
        (blocks : List Block) → Holds store.old stored
        → IsTree stored birth node.now array blocks → AnswersTell store.old store.new missing.now
        → option_map (λ bytes. bytes.items) found ≡ array id) }

    // Whatever the tree is: what was read on the way, and on a refusal its cause there.
    ensures found { IfOk result (λ found. IsFound store.old.spaces node.now birth id
        (bytes_of found)) }
    ensures refused { IfErr result (IsRefused store.old store.new missing.now node.now birth id) }
    ensures caused { IfErr result (IsCaused store.old store.new missing.now) }
    ensures cause { IfErr result (λ refusal. refusal ≢ Refusal.NoSpace) }

    // And a whole tree is read, where answers tell, unless too many disks miss of a block.
    ensures known { IfErr result (λ refusal. (stored : Contents) (array : ℕ → Option (List ℕ))
        (blocks : List Block) → Holds store.old stored
        → IsTree stored birth node.now array blocks → AnswersTell store.old store.new missing.now
        → IsForLoss refusal) }
{
    match get_block(node, store, alloc, id, birth, missing)? {
        Some(block) => Ok(Some(block.bytes)),
        None => Ok(None),
    }
}

/// A data block of an object, or nothing where it has none: one block is read a level. The object's blocks were born in the
/// transaction group `birth` or before. The disks that are named are taken as missing.
pub fn get_block<D: Disk + Drop>(
    node: &ObjectNode,
    store: &mut BlockStore<D>,
    alloc: Global,
    id: u64,
    birth: u64,
    missing: &[usize],
) -> Result<Option<DataBlock>, Refusal>
    requires { node.now.highest < 128 ^ 5 }
    ensures reads { OnlyReadsBlocks store.old store.new missing.now }
    ensures value { IfOk result (λ found. (stored : Contents) (array : ℕ → Option (List ℕ))
        (blocks : List Block) → Holds store.old stored
        → IsTree stored birth node.now array blocks → AnswersTell store.old store.new missing.now
        → bytes_in found ≡ array id) }
    ensures born { IfOk result (λ found. (stored : Contents) (births : ℕ → ℕ → ℕ)
        → Holds store.old stored → HasBirths stored node.now births
        → AnswersTell store.old store.new missing.now
        → IfSome found (λ block. block.birth ≡ births 0 id)) }

    // Whatever the tree is: what was read on the way, and on a refusal its cause there.
    ensures found { IfOk result (IsBlockFound store.old.spaces node.now birth id) }
    ensures refused { IfErr result (IsRefused store.old store.new missing.now node.now birth id) }
    ensures caused { IfErr result (IsCaused store.old store.new missing.now) }
    ensures cause { IfErr result (λ refusal. refusal ≢ Refusal.NoSpace) }

    // And a whole tree is read, where answers tell, unless too many disks miss of a block.
    ensures known { IfErr result (λ refusal. (stored : Contents) (array : ℕ → Option (List ℕ))
        (blocks : List Block) → Holds store.old stored
        → IsTree stored birth node.now array blocks → AnswersTell store.old store.new missing.now
        → IsForLoss refusal) }
{
    if id > node.highest {
        return Ok(None);
    }
    let root = Subtree {
        level: node.levels() - 1,
        pointer: node.pointer,
        birth,
    };
    get_below(node, store, alloc, root, id, missing)
}

/// The same in a part of a tree, by the place of the data block in it.
fn get_below<D: Disk + Drop>(
    node: &ObjectNode,
    store: &mut BlockStore<D>,
    alloc: Global,
    part: Subtree,
    place: u64,
    missing: &[usize],
) -> Result<Option<DataBlock>, Refusal>
    requires low { part.level < 6 }
    requires within { place < 128 ^ part.level }
    ensures reads { OnlyReadsBlocks store.old store.new missing.now }
    ensures value { IfOk result (λ found. (stored : Contents) (first : ℕ)
        (array : ℕ → Option (List ℕ)) (blocks : List Block) → Holds store.old stored
        → IsPart stored node.now first part array blocks
        → AnswersTell store.old store.new missing.now
        → bytes_in found ≡ array (first + place)) }
    ensures born { IfOk result (λ found. (stored : Contents) (first : ℕ) (births : ℕ → ℕ → ℕ)
        → Holds store.old stored → AreBirths stored part.level first part.pointer births
        → AnswersTell store.old store.new missing.now
        → IfSome found (λ block. block.birth ≡ births 0 (first + place))) }
    ensures found { IfOk result (IsBlockFoundBelow store.old.spaces (property_of node.now)
        (reached part.level part.pointer part.birth) place) }
    ensures refused { IfErr result (IsRefusedBelow store.old store.new missing.now
        (property_of node.now)
        (reached part.level part.pointer part.birth) place) }
    ensures caused { IfErr result (IsCaused store.old store.new missing.now) }
    ensures cause { IfErr result (λ refusal. refusal ≢ Refusal.NoSpace) }
    ensures known { IfErr result (λ refusal. (stored : Contents) (first : ℕ)
        (array : ℕ → Option (List ℕ)) (blocks : List Block) → Holds store.old stored
        → IsPart stored node.now first part array blocks
        → AnswersTell store.old store.new missing.now
        → IsForLoss refusal) }
{
    let BlockPtr::Block(block) = part.pointer else {
        return Ok(None);
    };
    let asked = asked_at(node, part.level, part.birth);
    if part.level == 0 {
        let bytes = store.read(alloc, &block, asked, missing)?;
        let birth = block.birth;
        return Ok(Some(DataBlock { bytes, birth }));
    }
    let children = read_indirect(store, alloc, &block, asked, missing)?;
    let span = span(part.level - 1);
    let child = Subtree {
        level: part.level - 1,
        pointer: children.get((place / span) as usize),
        birth: block.birth,
    };
    get_below(node, store, alloc, child, place % span, missing)
}
