//! The way down a tree.
ghost use Rattle.std.specs.Prelude.{◌≡◌, ◌≢◌, ◌+◌, ◌*◌, ◌^◌, ◌<◌, ◌≤◌, ◌++◌, ℕ, List, Option, Some, IfOk, IfErr, length, slice_index_or};
ghost use Rattle.block_pointer.specs.declared.block.Block.{Block};
ghost use Rattle.block_pointer.specs.declared.pointer.BlockPtr.{BlockPtr};
ghost use Rattle.dnode.specs.Indirect.{SpellsIndirect};
ghost use Rattle.block_store.specs.Causes.{IsCaused};
ghost use Rattle.block_store.specs.Blocks.{Contents};
ghost use Rattle.block_store.specs.Losses.{IsForLoss};
ghost use Rattle.block_store.specs.Reading.{Asks};
ghost use Rattle.block_store.specs.Store.{Holds};
ghost use Rattle.block_store.specs.Steps.{OnlyReadsBlocks, AnswersTell};
ghost use Rattle.dnode_tree.specs.Births.{AreBirths};
ghost use Rattle.dnode_tree.specs.Subtree.{asked_of, AreParts, blocks_at, joined};
ghost use Rattle.dnode_tree.specs.Tree.{property_of, IsPart};
ghost use Rattle.dnode_tree.specs.PartsRefused.{reached_part, ArePartsRead};
ghost use Rattle.dnode_tree.specs.Ways.{AreReadAs, IsBlockFault, IsRefusedBelow};

use crate::subtree::{Parts, Subtree};
use block_pointer::{Block, BlockPtr, Property};
use block_store::{Asked, BlockStore, Refusal};
use dnode::{Indirect, ObjectNode, POINTERS};
use model_disk::Disk;
use std::alloc::Global;

const INDIRECT_SECTORS: u32 = 32;

/// The property of an object's blocks at a level.
pub(crate) fn property_at(node: &ObjectNode, level: u8) -> Property
    ensures { result ≡ property_of node.now level }
{
    Property {
        level,
        object_type: node.object_type,
        sectors: if level == 0 {
            node.data_sectors
        } else {
            INDIRECT_SECTORS
        },
    }
}

/// What is asked of a pointer to a block of that level.
pub(crate) fn asked_at(node: &ObjectNode, level: u8, birth: u64) -> Asked
    ensures { result ≡ asked_of (property_of node.now level) birth }
{
    Asked {
        property: property_at(node, level),
        birth,
    }
}

/// How many data blocks a part of that level has places for.
#[tactic(auto, using(crate::proofs::Spans::span_fits, crate::proofs::Spans::span_positive))]
pub(crate) fn span(level: u8) -> u64
    requires { level < 6 }
    ensures value { result ≡ 128 ^ level }
    ensures some { 0 < result }
{
    (POINTERS as u64).pow(u32::from(level))
}

/// The pointers of an indirect block. `BadPointer` where its bytes spell none.
pub(crate) fn read_indirect<D: Disk + Drop>(
    store: &mut BlockStore<D>,
    alloc: Global,
    block: &Block,
    asked: Asked,
    missing: &[usize],
) -> Result<Indirect, Refusal>
    ensures reads { OnlyReadsBlocks store.old store.new missing.now }
    ensures asks { IfOk result (λ found. Asks asked block.now) }
    ensures read { IfOk result (AreReadAs store.old.spaces asked block.now) }
    ensures refused { IfErr result (IsBlockFault store.old store.new missing.now asked block.now) }
    ensures caused { IfErr result (IsCaused store.old store.new missing.now) }
    ensures count { IfOk result (λ found. length found ≡ 128) }
    ensures value { IfOk result (λ found. (stored : Contents) (bytes : List ℕ)
        (pointers : List BlockPtr) → Holds store.old stored
        → stored block.now ≡ Some bytes → SpellsIndirect bytes pointers
        → AnswersTell store.old store.new missing.now → found ≡ pointers) }
    ensures cause { IfErr result (λ refusal. refusal ≢ Refusal.NoSpace) }
    ensures known { IfErr result (λ refusal. (stored : Contents) (bytes : List ℕ)
        (pointers : List BlockPtr) → Holds store.old stored
        → stored block.now ≡ Some bytes → SpellsIndirect bytes pointers → Asks asked block.now
        → AnswersTell store.old store.new missing.now
        → IsForLoss refusal) }
{
    let bytes = store.read(alloc, block, asked, missing)?;
    match Indirect::decode(alloc, &bytes) {
        Ok(found) => Ok(found),
        Err(dnode::Refusal::BadPointer) => Err(Refusal::BadPointer),
        Err(dnode::Refusal::NoMemory) => Err(Refusal::NoMemory),
    }
}

/// The id of the first data block of one of the parts below a root, whose own begin at the first.
pub(crate) fn start_of(first: u64, level: u8, place: usize) -> u64
    requires low { level < 5 }
    requires room { first + 128 * 128 ^ level ≤ 128 ^ 5 }
    requires within { place < 128 }
    ensures value { result ≡ first + place * 128 ^ level }
    ensures within { result + 128 ^ level ≤ first + 128 * 128 ^ level }
{
    first + place as u64 * span(level)
}

/// The parts below the root of a part above the data: holes, where the root is one.
pub(crate) fn parts_of<D: Disk + Drop>(
    node: &ObjectNode,
    store: &mut BlockStore<D>,
    alloc: Global,
    part: Subtree,
    missing: &[usize],
) -> Result<Parts, Refusal>
    requires { 0 < part.level }
    ensures reads { OnlyReadsBlocks store.old store.new missing.now }
    ensures level { IfOk result (λ parts. parts.level + 1 ≡ part.level) }
    ensures born { IfOk result (λ parts. parts.birth ≤ part.birth) }
    ensures count { IfOk result (λ parts. length parts.pointers ≡ 128) }
    ensures births { IfOk result (λ parts. (stored : Contents) (first : ℕ) (births : ℕ → ℕ → ℕ)
        → Holds store.old stored → AreBirths stored part.level first part.pointer births
        → AnswersTell store.old store.new missing.now → (k : ℕ) → k < 128
        → AreBirths stored parts.level (first + k * 128 ^ parts.level)
        (slice_index_or parts.pointers k BlockPtr.Hole) births) }
    ensures parts { IfOk result (λ parts. (stored : Contents) (first : ℕ)
        (array : ℕ → Option (List ℕ)) (blocks : List Block) → Holds store.old stored
        → IsPart stored node.now first part array blocks
        → AnswersTell store.old store.new missing.now
        → (below : List (List Block)) × AreParts stored
        (property_of node.now) parts.level first parts.birth parts.pointers array below
        × (blocks ≡ blocks_at part.pointer ++ joined below)) }
    ensures read { IfOk result (ArePartsRead store.old.spaces (property_of node.now) part) }
    ensures refused { IfErr result (λ refusal. (place : ℕ) → IsRefusedBelow store.old store.new
        missing.now (property_of node.now) (reached_part part) place refusal) }
    ensures caused { IfErr result (IsCaused store.old store.new missing.now) }
    ensures cause { IfErr result (λ refusal. refusal ≢ Refusal.NoSpace) }
    ensures known { IfErr result (λ refusal. (stored : Contents) (first : ℕ)
        (array : ℕ → Option (List ℕ)) (blocks : List Block) → Holds store.old stored
        → IsPart stored node.now first part array blocks
        → AnswersTell store.old store.new missing.now
        → IsForLoss refusal) }
{
    let level = part.level - 1;
    let BlockPtr::Block(block) = part.pointer else {
        return Ok(Parts {
            pointers: Indirect::holes(alloc)?,
            level,
            birth: part.birth,
        });
    };
    let asked = asked_at(node, part.level, part.birth);
    Ok(Parts {
        pointers: read_indirect(store, alloc, &block, asked, missing)?,
        level,
        birth: block.birth,
    })
}
