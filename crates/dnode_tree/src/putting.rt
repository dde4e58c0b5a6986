//! Several data blocks of an object are written at once.
ghost use Rattle.std.specs.Prelude.{◌≡◌, ◌⊎◌, ◌-◌, ◌+◌, ◌*◌, ◌^◌, ◌<◌, ◌≤◌, ◌||◌, ℕ, List, Option, All, OnOk, IfOk, IfErr};
ghost use Rattle.block_pointer.specs.declared.block.Block.{Block};
ghost use Rattle.block_pointer.specs.Pointer.{Fits};
ghost use Rattle.dnode.specs.Indirect.{fill_of};
ghost use Rattle.dnode.specs.Node.{FitsNode};
ghost use Rattle.block_store.specs.Causes.{IsCaused};
ghost use Rattle.block_store.specs.Blocks.{Contents};
ghost use Rattle.block_store.specs.Demands.{HavePlaces, LackPlaces};
ghost use Rattle.block_store.specs.Plans.{Plans};
ghost use Rattle.block_store.specs.Steps.{OnlyReadsAndPlans, AnswersTell};
ghost use Rattle.dnode_tree.specs.Births.{HasBirths, height_of, births_after};
ghost use Rattle.dnode_tree.specs.PartsRewritten.{root_part, WritesPart, LacksRoomForPart, Raises, LacksRoomToRaise};
ghost use Rattle.dnode_tree.specs.PartsRefused.{IsPartRefused, IsTreeOverfull};
ghost use Rattle.dnode_tree.specs.Refused.{IsOverfull, IsWriteRefused};
ghost use Rattle.dnode_tree.specs.Rewriting.{IsGrown, IsRewritten};
ghost use Rattle.dnode_tree.specs.Spots.{spots_in, spots_of_raise, is_there, has_some, demands_at, demands_of};
ghost use Rattle.dnode_tree.specs.Subtree.{HasProperty};
ghost use Rattle.dnode_tree.specs.Tree.{property_of, IsTree};
ghost use Rattle.dnode_tree.specs.Writes.{AreInOrder, AreBetween, AreWholeBlocks, written, highest_with, HasNoRoom, IsForRoom};

use crate::descent::span;
use crate::subtree::{Parts, Subtree};
use crate::writes::{BlockWrite, CopyCounts, Rewrite, Rewriting};
use crate::writing::count_before;
use block_pointer::{Block, BlockPtr};
use block_store::{BlockStore, Refusal};
use dnode::{Indirect, ObjectNode, levels_of};
use model_disk::Disk;
use std::alloc::Global;

/// Plans an object in which data blocks are written, in the transaction group `birth`. The writes are in the order of
/// their ids, each has the bytes of a whole block, and the object grows to the highest of them. Each block on the way is
/// planned once. The object before stays as it was: its blocks were born in the group `birth` or before.
///
/// `BadPointer` where a pointer on the way to a write may not be followed, and where the fill counts below a block that
/// is planned anew are 2^64 or more. `DiskFault` or `BadDigest` where a block on the way can't be read. After an error
/// blocks may be planned that no object has: begin another plan.
pub fn put_many<D: Disk + Drop>(
    node: &ObjectNode,
    store: &mut BlockStore<D>,
    alloc: Global,
    writes: &[BlockWrite],
    birth: u64,
    copies: CopyCounts,
    missing: &[usize],
) -> Result<Rewrite, Refusal>
    requires node { FitsNode node.now }
    requires ids { All (λ write. write.id < 128 ^ 5) writes.now }
    requires order { AreInOrder writes.now }
    requires whole { AreWholeBlocks node.now writes.now }
    requires born { 0 < birth }
    ensures steps { OnlyReadsAndPlans store.old store.new missing.now }
    ensures node { IfOk result (λ done. FitsNode done.node) }
    ensures grown { IfOk result (λ done. IsGrown node.now done.node writes.now) }
    ensures rewritten { IfOk result (λ done. (stored planned : Contents) (bound : ℕ)
        (array : ℕ → Option (List ℕ)) (blocks : List Block) → Plans store.old stored planned
        → IsTree stored bound node.now array blocks → bound ≤ birth
        → AnswersTell store.old store.new missing.now
        → (later : Contents) × Plans store.new stored later
        × IsRewritten copies planned later birth done (written writes.now array) blocks) }

    // Only what a write reaches is planned, and the roots above the one that was there: all else is born when it was.
    ensures ways { IfOk result (λ done. (stored planned : Contents) (bound : ℕ)
        (array : ℕ → Option (List ℕ)) (blocks : List Block) (births : ℕ → ℕ → ℕ)
        → Plans store.old stored planned → IsTree stored bound node.now array blocks
        → HasBirths stored node.now births → bound ≤ birth
        → AnswersTell store.old store.new missing.now
        → (later : Contents) × Plans store.new stored later
        × IsRewritten copies planned later birth done (written writes.now array) blocks
        × HasBirths later done.node (births_after (height_of node.now) writes.now birth births)) }
    ensures no_room { IfErr result (λ refusal. refusal ≡ Refusal.NoSpace
        → HasNoRoom store.old store.new missing.now node.now copies) }

    // And a whole tree is rewritten, where answers tell, unless there is no room or too
    // many disks miss of a block.
    ensures known { IfErr result (λ refusal. (stored planned : Contents) (bound : ℕ)
        (array : ℕ → Option (List ℕ)) (blocks : List Block) → Plans store.old stored planned
        → IsTree stored bound node.now array blocks → bound ≤ birth
        → AnswersTell store.old store.new missing.now
        → IsForRoom refusal ⊎ (refusal ≡ Refusal.DiskFault)) }

    // For each of these blocks places are taken, once, and for nothing else.
    ensures places { OnOk result (HavePlaces store.old.spaces
        (demands_of node.now copies writes.now) store.new.spaces) }

    // Whatever the tree is: why it was refused.
    ensures refused { IfErr result (λ refusal. (refusal ≡ Refusal.NoMemory)
        ⊎ (((refusal ≡ Refusal.NoSpace) × LackPlaces store.old.spaces
        (demands_of node.now copies writes.now) store.new.spaces)
        ⊎ IsWriteRefused store.old store.new missing.now node.now birth writes.now refusal)) }
    ensures caused { IfErr result (IsCaused store.old store.new missing.now) }
{
    let rewriting = Rewriting {
        node,
        birth,
        copies,
        missing,
    };
    let mut replaced = Vec::new(alloc);
    let highest = highest_of(node.highest, writes);
    let levels = levels_of(node.highest);
    let new_levels = levels_of(highest);
    let (run, mut rest) = writes.split_at(count_before(writes, span(levels - 1)));
    let mut pointer = rewriting.write_root(store, alloc, run, &mut replaced)?;
    for level in levels - 1..new_levels - 1 {
        let (run, others) = rest.split_at(count_before(rest, span(level + 1)));
        rest = others;
        pointer = rewriting.raise(store, alloc, pointer, level, run, &mut replaced)?;
    }
    let node = ObjectNode {
        object_type: node.object_type,
        data_sectors: node.data_sectors,
        highest,
        pointer,
    };
    Ok(Rewrite { node, replaced })
}

impl<'a> Rewriting<'a> {
    /// Writes data blocks that the object's tree has places for.
    fn write_root<D: Disk + Drop>(
        self,
        store: &mut BlockStore<D>,
        alloc: Global,
        writes: &[BlockWrite],
        replaced: &mut Vec<Block>,
    ) -> Result<BlockPtr, Refusal>
        requires node { FitsNode self.node.now }
        requires between { AreBetween 0 (128 ^ height_of self.node.now) writes.now }
        requires order { AreInOrder writes.now }
        requires whole { AreWholeBlocks self.node.now writes.now }
        requires born { 0 < self.birth }
        ensures steps { OnlyReadsAndPlans store.old store.new self.entry.missing.now }
        ensures fits { IfOk result Fits }
        ensures property { IfOk result
            (HasProperty (property_of self.entry.node.now (height_of self.entry.node.now))) }
        ensures rewritten { IfOk result (WritesPart self.entry store.old store.new
            (root_part self.entry) 0 writes.now replaced.old.items replaced.new.items) }
        ensures no_room { IfErr result (λ refusal. refusal ≡ Refusal.NoSpace
            → HasNoRoom store.old store.new self.entry.missing.now
            self.entry.node.now self.entry.copies) }
        ensures known { IfErr result
            (LacksRoomForPart self.entry store.old store.new (root_part self.entry) 0) }
        ensures there { IfOk result (λ pointer. is_there pointer
            ≡ (is_there self.entry.node.now.pointer || has_some writes.now)) }
        ensures places { OnOk result (HavePlaces store.old.spaces
            (demands_at self.entry.node.now self.entry.copies
            (spots_in writes.now (height_of self.entry.node.now) 0))
            store.new.spaces) }
        ensures no_place { IfErr result (λ refusal. refusal ≡ Refusal.NoSpace
            → LackPlaces store.old.spaces
            (demands_at self.entry.node.now self.entry.copies
            (spots_in writes.now (height_of self.entry.node.now) 0))
            store.new.spaces) }
        ensures full { IfOk result (λ pointer.
            (fill_of pointer ≤ 128 ^ height_of self.entry.node.now)
            ⊎ IsTreeOverfull store.old.spaces self.entry.node.now (root_part self.entry)
            writes.now) }
        ensures refused { IfErr result (IsPartRefused store.old store.new self.entry.missing.now
            self.entry.node.now (root_part self.entry) 0 writes.now) }
        ensures caused { IfErr result (IsCaused store.old store.new self.entry.missing.now) }
    {
        if writes.is_empty() {
            return Ok(self.node.pointer);
        }
        let root = Subtree {
            level: self.node.levels() - 1,
            pointer: self.node.pointer,
            birth: self.birth,
        };
        let block = self.write_part(store, alloc, root, 0, writes, replaced)?;
        Ok(BlockPtr::Block(block))
    }

    /// Makes a tree one level higher, and writes data blocks in its new parts.
    fn raise<D: Disk + Drop>(
        self,
        store: &mut BlockStore<D>,
        alloc: Global,
        root: BlockPtr,
        level: u8,
        writes: &[BlockWrite],
        replaced: &mut Vec<Block>,
    ) -> Result<BlockPtr, Refusal>
        requires node { FitsNode self.node.now }
        requires low { level < 5 }
        requires root { Fits root }
        requires between { AreBetween (128 ^ level) (128 * 128 ^ level) writes.now }
        requires order { AreInOrder writes.now }
        requires whole { AreWholeBlocks self.node.now writes.now }
        requires born { 0 < self.birth }
        ensures steps { OnlyReadsAndPlans store.old store.new self.entry.missing.now }
        ensures fits { IfOk result Fits }
        ensures property { IfOk result (HasProperty (property_of self.entry.node.now (level + 1))) }
        ensures rewritten { IfOk result (Raises self.entry store.old store.new root level
            writes.now replaced.old.items replaced.new.items) }
        ensures no_room { IfErr result (λ refusal. refusal ≡ Refusal.NoSpace
            → HasNoRoom store.old store.new self.entry.missing.now
            self.entry.node.now self.entry.copies) }
        ensures known { IfErr result (LacksRoomToRaise self.entry store.old store.new root level
            writes.now replaced.old.items) }
        ensures there { IfOk result (λ pointer.
            is_there pointer ≡ (is_there root || has_some writes.now)) }
        ensures places { OnOk result (HavePlaces store.old.spaces
            (demands_at self.entry.node.now self.entry.copies
            (spots_of_raise root writes.now level))
            store.new.spaces) }
        ensures no_place { IfErr result (λ refusal. refusal ≡ Refusal.NoSpace
            → LackPlaces store.old.spaces
            (demands_at self.entry.node.now self.entry.copies
            (spots_of_raise root writes.now level))
            store.new.spaces) }
        ensures full { IfOk result (λ pointer. (fill_of pointer ≤ 128 ^ (level + 1))
            ⊎ IsOverfull level root) }
        ensures refused { IfErr result (λ refusal. IsForRoom refusal
            ⊎ ((refusal ≡ Refusal.BadPointer) × IsOverfull level root)) }
        ensures caused { IfErr result (IsCaused store.old store.new self.entry.missing.now) }
    {
        if root.is_hole() && writes.is_empty() {
            return Ok(BlockPtr::Hole);
        }
        let mut pointers = Indirect::holes(alloc)?;
        pointers.set(0, root);
        let parts = Parts {
            pointers,
            level,
            birth: self.birth,
        };
        let block = self.write_parts(store, alloc, parts, 0, 1, writes, replaced)?;
        Ok(BlockPtr::Block(block))
    }
}

/// The highest id of an object after writes.
fn highest_of(before: u64, writes: &[BlockWrite]) -> u64
    requires before { before < 128 ^ 5 }
    requires ids { All (λ write. write.id < 128 ^ 5) writes.now }
    ensures small { result < 128 ^ 5 }
    ensures from { before ≤ result }
    ensures room { All (λ write. write.id ≤ result) writes.now }
    ensures least { (highest : ℕ) → before ≤ highest → All (λ write. write.id ≤ highest) writes.now
        → result ≤ highest }
    ensures value { result ≡ highest_with writes.now before }
{
    let mut highest = before;
    for write in writes {
        highest = highest.max(write.id);
    }
    highest
}
