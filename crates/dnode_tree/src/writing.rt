//! Several data blocks of a part of a tree are written at once.
ghost use Rattle.std.specs.Prelude.{◌≡◌, ◌⊎◌, ◌+◌, ◌-◌, ◌*◌, ◌^◌, ◌<◌, ◌≤◌, ◌++◌, All, OnOk, IfOk, IfErr, length, take, slice_index_or};
ghost use Rattle.block_pointer.specs.declared.pointer.BlockPtr.{BlockPtr};
ghost use Rattle.block_pointer.specs.Block.{FitsBlock};
ghost use Rattle.dnode.specs.Indirect.{total_fill};
ghost use Rattle.dnode.specs.Node.{IsNode};
ghost use Rattle.dnode_tree.specs.declared.writes.BlockWrite.{BlockWrite};
ghost use Rattle.block_store.specs.Causes.{IsCaused};
ghost use Rattle.block_store.specs.Demands.{HavePlaces, LackPlaces};
ghost use Rattle.block_store.specs.Steps.{OnlyReadsAndPlans};
ghost use Rattle.dnode_tree.specs.PartsRefused.{IsPartOverfull, IsPartRefused, ArePartsOverfull, ArePartsRefused};
ghost use Rattle.dnode_tree.specs.PartsRewritten.{WritesPart, LacksRoomForPart, WritesParts, LacksRoomForParts};
ghost use Rattle.dnode_tree.specs.Spots.{spots_in, spots_below, demands_at};
ghost use Rattle.dnode_tree.specs.Subtree.{blocks_at};
ghost use Rattle.dnode_tree.specs.Tree.{property_of};
ghost use Rattle.dnode_tree.specs.Writes.{AreInOrder, AreBetween, AreWholeBlocks, HasNoRoom};

use crate::descent::{parts_of, span, start_of};
use crate::subtree::{Parts, Subtree};
use crate::walking::push;
use crate::writes::{BlockWrite, Rewriting};
use block_pointer::{Block, BlockPtr};
use block_store::{BlockStore, Refusal};
use dnode::POINTERS;
use model_disk::Disk;
use std::alloc::{AllocError, Global};

impl<'a> Rewriting<'a> {
    /// Writes data blocks of a part of a tree, whose ids begin at the first. Each block on the way is written once, and those
    /// that give way are added to the replaced ones.
    #[cycle(rewriting)]
    pub(crate) fn write_part<D: Disk + Drop>(
        self,
        store: &mut BlockStore<D>,
        alloc: Global,
        part: Subtree,
        first: u64,
        writes: &[BlockWrite],
        replaced: &mut Vec<Block>,
    ) -> Result<Block, Refusal>
        requires node { IsNode self.node.now }
        requires low { part.level < 6 }
        requires room { first + 128 ^ part.level ≤ 128 ^ 5 }
        requires some { 0 < length writes.now }
        requires between { AreBetween first (first + 128 ^ part.level) writes.now }
        requires order { AreInOrder writes.now }
        requires whole { AreWholeBlocks self.node.now writes.now }
        requires born { 0 < self.birth }
        requires bound { part.birth ≤ self.birth }
        ensures steps { OnlyReadsAndPlans store.old store.new self.entry.missing.now }
        ensures fits { IfOk result FitsBlock }
        ensures property { IfOk result (λ block.
            block.property ≡ property_of self.entry.node.now part.level) }
        ensures rewritten { IfOk result (λ block. WritesPart self.entry store.old store.new part
            first writes.now replaced.old.items replaced.new.items (BlockPtr.Block block)) }
        ensures no_room { IfErr result (λ refusal. refusal ≡ Refusal.NoSpace
            → HasNoRoom store.old store.new self.entry.missing.now
            self.entry.node.now self.entry.copies) }
        ensures known { IfErr result (LacksRoomForPart self.entry store.old store.new part first) }

        // The blocks that the writes reach are placed, each once, and nothing else.
        ensures places { OnOk result (HavePlaces store.old.spaces
            (demands_at self.entry.node.now self.entry.copies
            (spots_in writes.now part.level first))
            store.new.spaces) }
        ensures no_place { IfErr result (λ refusal. refusal ≡ Refusal.NoSpace
            → LackPlaces store.old.spaces
            (demands_at self.entry.node.now self.entry.copies
            (spots_in writes.now part.level first))
            store.new.spaces) }

        // Whatever the part is: its fill count, and why it was refused.
        ensures full { IfOk result (λ block. (block.fill ≤ 128 ^ part.level)
            ⊎ IsPartOverfull store.old.spaces self.entry.node.now part first writes.now) }
        ensures refused { IfErr result (IsPartRefused store.old store.new self.entry.missing.now
            self.entry.node.now part first writes.now) }
        ensures caused { IfErr result (IsCaused store.old store.new self.entry.missing.now) }
    {
        note(replaced, part.pointer)?;
        if part.level == 0 {
            return self.plan_block(store, alloc, &writes[0].bytes, 0, 1);
        }
        let parts = parts_of(self.node, store, alloc, part, self.missing)?;
        self.write_parts(store, alloc, parts, first, 0, writes, replaced)
    }

    /// Writes data blocks of the parts below a root, from one of them on, and then the root.
    #[cycle(rewriting)]
    pub(crate) fn write_parts<D: Disk + Drop>(
        self,
        store: &mut BlockStore<D>,
        alloc: Global,
        parts: Parts,
        first: u64,
        from: usize,
        writes: &[BlockWrite],
        replaced: &mut Vec<Block>,
    ) -> Result<Block, Refusal>
        requires node { IsNode self.node.now }
        requires low { parts.level < 5 }
        requires room { first + 128 * 128 ^ parts.level ≤ 128 ^ 5 }
        requires from { from ≤ 128 }
        requires count { length parts.pointers ≡ 128 }
        requires some { (0 < length writes.now) ⊎ (0 < total_fill parts.pointers) }
        requires between { AreBetween (first + from * 128 ^ parts.level)
            (first + 128 * 128 ^ parts.level) writes.now }
        requires order { AreInOrder writes.now }
        requires whole { AreWholeBlocks self.node.now writes.now }
        requires born { 0 < self.birth }
        requires bound { parts.birth ≤ self.birth }
        ensures steps { OnlyReadsAndPlans store.old store.new self.entry.missing.now }
        ensures fits { IfOk result FitsBlock }
        ensures property { IfOk result (λ block.
            block.property ≡ property_of self.entry.node.now (parts.level + 1)) }
        ensures rewritten { IfOk result (WritesParts self.entry store.old store.new parts first from
            writes.now replaced.old.items replaced.new.items) }
        ensures no_room { IfErr result (λ refusal. refusal ≡ Refusal.NoSpace
            → HasNoRoom store.old store.new self.entry.missing.now
            self.entry.node.now self.entry.copies) }
        ensures known { IfErr result (LacksRoomForParts self.entry store.old store.new parts first
            from writes.now replaced.old.items) }
        ensures places { OnOk result (HavePlaces store.old.spaces
            (demands_at self.entry.node.now self.entry.copies
            (spots_below writes.now parts.level first from (128 - from)))
            store.new.spaces) }
        ensures no_place { IfErr result (λ refusal. refusal ≡ Refusal.NoSpace
            → LackPlaces store.old.spaces
            (demands_at self.entry.node.now self.entry.copies
            (spots_below writes.now parts.level first from (128 - from)))
            store.new.spaces) }
        ensures full { IfOk result (λ block. (block.fill ≤ 128 ^ (parts.level + 1))
            ⊎ ArePartsOverfull store.old.spaces self.entry.node.now parts first from writes.now) }
        ensures refused { IfErr result (ArePartsRefused store.old store.new self.entry.missing.now
            self.entry.node.now parts first from writes.now) }
        ensures caused { IfErr result (IsCaused store.old store.new self.entry.missing.now) }
    {
        let Parts {
            mut pointers,
            level,
            birth: bound,
        } = parts;
        let mut rest = writes;
        for place in from..POINTERS {
            let start = start_of(first, level, place);
            let (run, others) = rest.split_at(count_before(rest, start + span(level)));
            rest = others;
            if run.is_empty() {
                continue;
            }
            let child = Subtree {
                level,
                pointer: pointers.get(place),
                birth: bound,
            };
            let block = self.write_part(store, alloc, child, start, run, replaced)?;
            pointers.set(place, BlockPtr::Block(block));
        }
        let Some(fill) = pointers.fill() else {
            return Err(Refusal::BadPointer);
        };
        let bytes = pointers.encode(alloc)?;
        self.plan_block(store, alloc, &bytes, level + 1, fill)
    }
}

/// How many writes at the front are of blocks before that id.
pub(crate) fn count_before(writes: &[BlockWrite], end: u64) -> usize
    ensures within { result ≤ length writes.now }
    ensures before { All (λ write. write.id < end) (take result writes.now) }
    ensures behind { (other : BlockWrite) → result < length writes.now
        → end ≤ (slice_index_or writes.now result other).id }
{
    for (i, write) in writes.iter().enumerate() {
        if write.id >= end {
            return i;
        }
    }
    writes.len()
}

/// Adds a block that gives way to another.
fn note(replaced: &mut Vec<Block>, pointer: BlockPtr) -> Result<(), AllocError>
    ensures ok { OnOk result (replaced.new.items ≡ replaced.old.items ++ blocks_at pointer) }
{
    if let BlockPtr::Block(block) = pointer {
        push(replaced, block)?;
    }
    Ok(())
}
