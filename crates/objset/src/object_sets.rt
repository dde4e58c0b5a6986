//! The block of an object set.
ghost use Rattle.std.specs.Prelude.{◌≡◌, ◌≢◌, ◌<◌, [], IfOk, IfErr, length};
ghost use Rattle.block_pointer.specs.Block.{FitsBlock};
ghost use Rattle.block_pointer.specs.Copies.{dvas};
ghost use Rattle.dnode.specs.declared.object_set.ObjectSet.{ObjectSet};
ghost use Rattle.dnode.specs.ObjectSet.{FitsObjectSet, object_set_bytes};
ghost use Rattle.block_store.specs.Causes.{IsCaused};
ghost use Rattle.block_store.specs.Blocks.{Contents, Adds, count_of};
ghost use Rattle.block_store.specs.Losses.{IsForLoss};
ghost use Rattle.block_store.specs.Places.{AreChosen, RanOut};
ghost use Rattle.block_store.specs.Plans.{Plans};
ghost use Rattle.block_store.specs.Store.{Holds};
ghost use Rattle.block_store.specs.Steps.{OnlyReadsBlocks, OnlyReadsAndPlans, AnswersTell};
ghost use Rattle.dnode_tree.specs.Writes.{IsForRoom};
ghost use Rattle.objset.specs.Sets.{IsSetBlock, IsSetFound, IsSetRefused, asked_of_set};

use block_pointer::{Block, Property};
use block_store::{Asked, BlockStore, CopyCount, NewBlock, Refusal};
use dnode::ObjectSet;
use model_disk::Disk;
use std::alloc::Global;

/// How many bytes an object set has.
const SET_LEN: usize = 1024;

/// The property of an object set's block.
const SET_PROPERTY: Property = Property {
    level: 0,
    object_type: 11,
    sectors: 2,
};

/// The object set that a block spells: of level 0, type 11 and 1,024 bytes, born in the transaction group `birth` or
/// before. The disks that are named are taken as missing. `BadPointer` where the bytes spell none.
pub fn read_set<D: Disk + Drop>(
    store: &mut BlockStore<D>,
    alloc: Global,
    block: &Block,
    birth: u64,
    missing: &[usize],
) -> Result<ObjectSet, Refusal>
    ensures reads { OnlyReadsBlocks store.old store.new missing.now }
    ensures fits { IfOk result FitsObjectSet }
    ensures value { IfOk result (λ found. (stored : Contents) (set : ObjectSet)
        → Holds store.old stored → IsSetBlock stored birth block.now set
        → AnswersTell store.old store.new missing.now → found ≡ set) }

    // Whatever the block is: what was read, and on a refusal its cause.
    ensures found { IfOk result (IsSetFound store.old.spaces birth block.now) }
    ensures refused { IfErr result (IsSetRefused store.old store.new missing.now birth block.now) }
    ensures caused { IfErr result (IsCaused store.old store.new missing.now) }
    ensures cause { IfErr result (λ refusal. refusal ≢ Refusal.NoSpace) }

    // And it is read, over disks whose answers tell, unless too many disks miss of a block.
    ensures known { IfErr result (λ refusal. (stored : Contents) (set : ObjectSet)
        → Holds store.old stored → IsSetBlock stored birth block.now set
        → AnswersTell store.old store.new missing.now → IsForLoss refusal) }
{
    let asked = Asked {
        property: SET_PROPERTY,
        birth,
    };
    let found = store.read(alloc, block, asked, missing)?;
    let mut bytes = [0; SET_LEN];
    bytes.copy_from_slice(&found);
    match ObjectSet::decode(&bytes) {
        Ok(set) => Ok(set),
        Err(_) => Err(Refusal::BadPointer),
    }
}

/// Plans the block of an object set, in the transaction group `birth`.
///
/// After an error a part of the room for it may be taken: begin another plan.
pub fn plan_set<D: Disk + Drop>(
    set: &ObjectSet,
    store: &mut BlockStore<D>,
    alloc: Global,
    birth: u64,
    copies: CopyCount,
) -> Result<Block, Refusal>
    requires set { FitsObjectSet set.now }
    requires born { 0 < birth }
    ensures steps { OnlyReadsAndPlans store.old store.new [] }
    ensures fits { IfOk result FitsBlock }
    ensures birth { IfOk result (λ block. block.birth ≡ birth) }
    ensures property { IfOk result (λ block. block.property ≡ (asked_of_set birth).property) }
    ensures copies { IfOk result (λ block. length (dvas block.copies) ≡ count_of copies) }
    ensures planned { IfOk result (λ block. (stored planned : Contents)
        → Plans store.old stored planned
        → (later : Contents) × Plans store.new stored later
        × Adds planned later block (object_set_bytes set.now)
        × IsSetBlock later birth block set.now) }
    ensures places { IfOk result (λ block.
        AreChosen store.old.spaces [] 2 (count_of copies) (dvas block.copies) store.new.spaces) }
    ensures refused { IfErr result IsForRoom }
    ensures caused { IfErr result (IsCaused store.old store.new []) }
    ensures no_room { IfErr result (λ refusal. refusal ≡ Refusal.NoSpace
        → RanOut store.old.spaces 2 (count_of copies) store.new.spaces) }
{
    let new = NewBlock {
        property: SET_PROPERTY,
        birth,
        fill: 1,
    };
    store.plan_write(alloc, &set.encode(), new, copies)
}
