//! Several data blocks of a tree.
ghost use Rattle.std.specs.Prelude.{◌≡◌, ◌≢◌, ◌⊎◌, ◌+◌, ◌++◌, ◌∷◌, ◌^◌, ◌<◌, ◌≤◌, [], ℕ, List, Option, Some, None, All, OnOk, IfOk, IfErr, length, replicate, slice_index, take};
ghost use Rattle.std.specs.List.Sorted.{IsStrictlyIncreasing};
ghost use Rattle.block_pointer.specs.declared.block.Block.{Block};
ghost use Rattle.block_pointer.specs.declared.pointer.BlockPtr.{BlockPtr};
ghost use Rattle.block_store.specs.Causes.{IsCaused};
ghost use Rattle.block_store.specs.Blocks.{Contents};
ghost use Rattle.block_store.specs.Losses.{IsForLoss};
ghost use Rattle.block_store.specs.Reading.{Asks, IsReadable, IsLastFault};
ghost use Rattle.block_store.specs.Store.{Holds, outs};
ghost use Rattle.block_store.specs.Steps.{OnlyReadsBlocks, AnswersTell};
ghost use Rattle.dnode_tree.specs.Many.{AreAsIn, AreFound, AreIdsBetween, HaveAdded, IsDataAdded, IsOneRefused, IsOneRefusedIn};
ghost use Rattle.dnode_tree.specs.Tree.{IsPart, IsTree};

use crate::descent::{asked_at, read_indirect, span, start_of};
use crate::subtree::Subtree;
use block_pointer::{Block, BlockPtr};
use block_store::{Asked, BlockStore, Refusal};
use dnode::{ObjectNode, POINTERS, levels_of};
use model_disk::Disk;
use std::alloc::{AllocError, Global};

/// The bytes of data blocks of an object, in the order of their ids, and nothing where it has none. An indirect block is read
/// once for all blocks below it, and nothing is read where there are only holes. The object's blocks were born in the
/// transaction group `birth` or before. The disks that are named are taken as missing.
pub fn get_many<D: Disk + Drop>(
    node: &ObjectNode,
    store: &mut BlockStore<D>,
    alloc: Global,
    ids: &[u64],
    birth: u64,
    missing: &[usize],
) -> Result<Vec<Option<Vec<u8>>>, Refusal>
    requires highest { node.now.highest < 128 ^ 5 }
    requires once { IsStrictlyIncreasing ids.now }
    ensures reads { OnlyReadsBlocks store.old store.new missing.now }
    ensures idle { All (λ id. node.now.highest < id) ids.now ⊎ (node.now.pointer ≡ BlockPtr.Hole)
        → store.new ≡ store.old }
    ensures value { IfOk result (λ found. (stored : Contents) (array : ℕ → Option (List ℕ))
        (blocks : List Block) → Holds store.old stored
        → IsTree stored birth node.now array blocks → AnswersTell store.old store.new missing.now
        → AreAsIn array ids.now found.items) }

    // Whatever the tree is: what was read on the ways, and on a refusal its cause there.
    ensures found { IfOk result (λ found.
        AreFound store.old.spaces node.now birth ids.now found.items) }
    ensures refused { IfErr result (λ refusal. (refusal ≡ Refusal.NoMemory)
        ⊎ IsOneRefused store.old store.new missing.now node.now birth ids.now refusal) }
    ensures caused { IfErr result (IsCaused store.old store.new missing.now) }
    ensures cause { IfErr result (λ refusal. refusal ≢ Refusal.NoSpace) }

    // And a whole tree is read, where answers tell, unless too many disks miss of a block.
    ensures known { IfErr result (λ refusal. (stored : Contents) (array : ℕ → Option (List ℕ))
        (blocks : List Block) → Holds store.old stored
        → IsTree stored birth node.now array blocks → AnswersTell store.old store.new missing.now
        → IsForLoss refusal) }
{
    let (within, behind) = ids.split_at(count_before(ids, node.highest + 1));
    let root = Subtree {
        level: levels_of(node.highest) - 1,
        pointer: node.pointer,
        birth,
    };
    let reading = TreeReading { node, missing };
    let mut found = Vec::new(alloc);
    reading.add_below(store, alloc, root, 0, within, &mut found)?;
    add_nothing(&mut found, behind.len())?;
    Ok(found)
}

/// What a read of several blocks carries through a tree.
#[derive(Clone, Copy)]
struct TreeReading<'a> {
    node: &'a ObjectNode,
    /// The numbers of the disks that are taken as missing.
    missing: &'a [usize],
}

impl<'a> TreeReading<'a> {
    /// Adds for each id what a part of the tree has at its place. The ids of the part's data blocks begin at the first.
    fn add_below<D: Disk + Drop>(
        self,
        store: &mut BlockStore<D>,
        alloc: Global,
        part: Subtree,
        first: u64,
        ids: &[u64],
        found: &mut Vec<Option<Vec<u8>>>,
    ) -> Result<(), Refusal>
        requires low { part.level < 6 }
        requires room { first + 128 ^ part.level ≤ 128 ^ 5 }
        requires between { AreIdsBetween first (first + 128 ^ part.level) ids.now }
        requires once { IsStrictlyIncreasing ids.now }
        ensures reads { OnlyReadsBlocks store.old store.new self.entry.missing.now }
        ensures idle { (ids.now ≡ []) ⊎ (part.pointer ≡ BlockPtr.Hole) → store.new ≡ store.old }
        ensures added { OnOk result (HaveAdded store.old store.new
            self.entry.missing.now self.entry.node.now part first ids.now found.old.items
            found.new.items) }
        ensures refused { IfErr result (IsOneRefusedIn store.old store.new self.entry.missing.now
            self.entry.node.now part first ids.now) }
        ensures caused { IfErr result (IsCaused store.old store.new self.entry.missing.now) }
        ensures cause { IfErr result (λ refusal. refusal ≢ Refusal.NoSpace) }
        ensures known { IfErr result (λ refusal. (stored : Contents)
            (array : ℕ → Option (List ℕ)) (blocks : List Block) → Holds store.old stored
            → IsPart stored self.entry.node.now first part array blocks
            → AnswersTell store.old store.new self.entry.missing.now → IsForLoss refusal) }
    {
        let BlockPtr::Block(block) = part.pointer else {
            return add_nothing(found, ids.len());
        };
        if ids.is_empty() {
            return Ok(());
        }
        let asked = asked_at(self.node, part.level, part.birth);
        if part.level == 0 {
            return self.add_data(store, alloc, &block, asked, found);
        }
        let children = read_indirect(store, alloc, &block, asked, self.missing)?;
        let level = part.level - 1;
        let mut rest = ids;
        for place in 0..POINTERS {
            let start = start_of(first, level, place);
            let (run, others) = rest.split_at(count_before(rest, start + span(level)));
            rest = others;
            let child = Subtree {
                level,
                pointer: children.get(place),
                birth: block.birth,
            };
            self.add_below(store, alloc, child, start, run, found)?;
        }
        Ok(())
    }

    /// Adds the bytes of a data block.
    fn add_data<D: Disk + Drop>(
        self,
        store: &mut BlockStore<D>,
        alloc: Global,
        block: &Block,
        asked: Asked,
        found: &mut Vec<Option<Vec<u8>>>,
    ) -> Result<(), Refusal>
        ensures reads { OnlyReadsBlocks store.old store.new self.entry.missing.now }
        ensures added { OnOk result (IsDataAdded store.old store.new
            self.entry.missing.now asked block.now found.old.items found.new.items) }
        ensures refused { IfErr result (λ refusal. (refusal ≡ Refusal.NoMemory)
            ⊎ (((refusal ≡ Refusal.BadPointer) × ¬ IsReadable store.old.spaces asked block.now)
            ⊎ IsLastFault store.old store.new (outs store.old ++ self.entry.missing.now)
            block.now refusal)) }
        ensures caused { IfErr result (IsCaused store.old store.new self.entry.missing.now) }
        ensures cause { IfErr result (λ refusal. refusal ≢ Refusal.NoSpace) }
        ensures known { IfErr result (λ refusal. (stored : Contents) (bytes : List ℕ)
            → Holds store.old stored → stored block.now ≡ Some bytes → Asks asked block.now
            → AnswersTell store.old store.new self.entry.missing.now → IsForLoss refusal) }
    {
        let bytes = store.read(alloc, block, asked, self.missing)?;
        push(found, Some(bytes))?;
        Ok(())
    }
}

/// Adds that many times nothing.
fn add_nothing(found: &mut Vec<Option<Vec<u8>>>, count: usize) -> Result<(), Refusal>
    ensures ok { OnOk result (found.new.items ≡ found.old.items ++ replicate count None) }
    ensures refused { IfErr result (λ refusal. refusal ≡ Refusal.NoMemory) }
{
    for _ in 0..count {
        push(found, None)?;
    }
    Ok(())
}

/// Adds what was found of a data block.
fn push(found: &mut Vec<Option<Vec<u8>>>, block: Option<Vec<u8>>) -> Result<(), AllocError>
    ensures ok { OnOk result (found.new.items ≡ found.old.items ++ block ∷ []) }
{
    found.push(block)?;
    Ok(())
}

/// How many ids at the front are before that one.
fn count_before(ids: &[u64], end: u64) -> usize
    ensures within { result ≤ length ids.now }
    ensures before { All (λ id. id < end) (take result ids.now) }
    ensures behind { result < length ids.now → end ≤ slice_index ids.now result }
{
    for (i, id) in ids.iter().enumerate() {
        if *id >= end {
            return i;
        }
    }
    ids.len()
}
