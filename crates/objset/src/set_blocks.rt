//! The block of an object set.
ghost use Rattle.std.specs.Prelude.{◌≡◌, ◌<◌, [], IfOk, IfErr, length};
ghost use Rattle.block_pointer.specs.Block.{FitsBlock};
ghost use Rattle.block_pointer.specs.Copies.{dvas};
ghost use Rattle.block_store.specs.Causes.{IsCaused};
ghost use Rattle.block_store.specs.Blocks.{Contents, Adds, count_of};
ghost use Rattle.block_store.specs.Places.{AreChosen, RanOut};
ghost use Rattle.block_store.specs.Plans.{Plans};
ghost use Rattle.block_store.specs.Steps.{OnlyReadsAndPlans};
ghost use Rattle.dnode.specs.ObjectSet.{FitsObjectSet, object_set_bytes};
ghost use Rattle.objset.specs.Sets.{IsSetBlock, asked_of_set};
ghost use Rattle.dnode_tree.specs.Writes.{IsForRoom};
ghost use Rattle.objset.specs.Changes.{copies_of};

use crate::changes::SetCopies;
use block_pointer::Block;
use block_store::{BlockStore, Refusal};
use dnode::ObjectSet;
use model_disk::Disk;
use std::alloc::Global;

/// Plans the block of an object set, in the transaction group `birth`. It has as many copies as the set's kind asks of blocks
/// that are no data of an object.
///
/// After an error a part of the room for it may be taken: begin another plan.
pub fn plan_set<D: Disk + Drop>(
    set: &ObjectSet,
    store: &mut BlockStore<D>,
    alloc: Global,
    birth: u64,
) -> Result<Block, Refusal>
    requires set { FitsObjectSet set.now }
    requires born { 0 < birth }
    ensures steps { OnlyReadsAndPlans store.old store.new [] }
    ensures fits { IfOk result FitsBlock }
    ensures birth { IfOk result (λ block. block.birth ≡ birth) }
    ensures property { IfOk result (λ block. block.property ≡ (asked_of_set birth).property) }
    ensures copies { IfOk result (λ block.
        length (dvas block.copies) ≡ count_of (copies_of set.now.kind).other) }
    ensures planned { IfOk result (λ block. (stored planned : Contents)
        → Plans store.old stored planned
        → (later : Contents) × Plans store.new stored later
        × Adds planned later block (object_set_bytes set.now)
        × IsSetBlock later birth block set.now) }
    ensures places { IfOk result (λ block.
        AreChosen store.old.spaces [] 2 (count_of (copies_of set.now.kind).other)
        (dvas block.copies) store.new.spaces) }
    ensures refused { IfErr result IsForRoom }
    ensures caused { IfErr result (IsCaused store.old store.new []) }
    ensures no_room { IfErr result (λ refusal. refusal ≡ Refusal.NoSpace
        → RanOut store.old.spaces 2 (count_of (copies_of set.now.kind).other) store.new.spaces) }
{
    let copies = SetCopies::of_kind(set.kind).other;
    crate::object_sets::plan_set(set, store, alloc, birth, copies)
}
