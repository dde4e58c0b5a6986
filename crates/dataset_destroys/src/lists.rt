//! Dead lists of which one is given over to another.
ghost use Rattle.std.specs.Prelude.{◌≡◌, ◌≢◌, ◌⊎◌, ◌++◌, [], ℕ, List, Option, All, IsPermutation, OnOk, IfOk, IfErr};
ghost use Rattle.block_pointer.specs.declared.block.Block.{Block};
ghost use Rattle.block_pointer.specs.Block.{FitsBlock};
ghost use Rattle.block_store.specs.Blocks.{Contents};
ghost use Rattle.block_store.specs.Causes.{IsCaused};
ghost use Rattle.block_store.specs.Losses.{IsForLoss};
ghost use Rattle.block_store.specs.Steps.{OnlyReadsBlocks};
ghost use Rattle.dataset_chains.specs.Refused.{IsListLost};
ghost use Rattle.dataset_chains.specs.Over.{AreOver, HasListNow};
ghost use Rattle.dataset_chains.specs.States.{AreOfOneSet, HaveSameRecords, IsNumber, list_at};
ghost use Rattle.dataset_destroys.specs.Steps.{AreGivenOver, TellsObjects, group_of};
ghost use Rattle.dead_list.specs.Blocks.{IsSplit};
ghost use Rattle.objset.specs.Objects.{Object};

use crate::places::Place;
use block_pointer::Block;
use block_store::{BlockStore, Refusal};
use dataset_chains::DatasetChanges;
use dead_list::DeadList;
use model_disk::Disk;
use std::alloc::{AllocError, Global};

/// Of the dead blocks of what comes after a snapshot those that were born after the snapshot before it come behind those in `freed`. The others and
/// the snapshot's own become those of what comes after it.
pub(crate) fn give_over<D: Disk + Drop>(
    changes: &mut DatasetChanges,
    store: &mut BlockStore<D>,
    alloc: Global,
    place: &Place,
    freed: &mut Vec<Block>,
) -> Result<(), Refusal>
    ensures reads { OnlyReadsBlocks store.old store.new [] }
    ensures one_set { AreOfOneSet changes.old changes.new }
    ensures records { HaveSameRecords changes.old changes.new }
    ensures number { OnOk result (IsNumber (place.now).gone.dead_list) }
    ensures touched { OnOk result ((list : ℕ)
        → (list_at changes.new list ≡ list_at changes.old list)
        ⊎ (((place.now).gone.dead_list ≡ list) ⊎ ((place.now).after.dead_list ≡ list))) }
    ensures behind { OnOk result ((gone : List Block)
        × (freed.new.items ≡ freed.old.items ++ gone)) }
    ensures value { OnOk result ((stored : Contents) (objects : ℕ → Option Object)
        (dead own : List Block) → TellsObjects store.old store.new changes.old stored objects
        → AreOver objects changes.old → (place.now).gone.dead_list ≢ (place.now).after.dead_list
        → HasListNow objects changes.old (place.now).after.dead_list dead
        → HasListNow objects changes.old (place.now).gone.dead_list own
        → (gone : List Block) × (freed.new.items ≡ freed.old.items ++ gone)
        × AreGivenOver objects changes.old changes.new (place.now).gone.dead_list
        (place.now).after.dead_list (group_of (place.now).before) dead own gone) }
    ensures caused { IfErr result (IsCaused store.old store.new []) }
    ensures refused { IfErr result (λ refusal. (refusal ≡ Refusal.NoMemory)
        ⊎ IsListLost store.old store.new changes.old refusal) }
    ensures known { IfErr result (λ refusal. (stored : Contents) (objects : ℕ → Option Object)
        (dead own : List Block) → TellsObjects store.old store.new changes.old stored objects
        → AreOver objects changes.old → (place.now).gone.dead_list ≢ (place.now).after.dead_list
        → IsNumber (place.now).gone.dead_list → IsNumber (place.now).after.dead_list
        → HasListNow objects changes.old (place.now).after.dead_list dead
        → HasListNow objects changes.old (place.now).gone.dead_list own → IsForLoss refusal) }
{
    let dead = changes.take_list(store, alloc, place.after.dead_list)?;
    let own = changes.take_list(store, alloc, place.gone.dead_list)?;
    let merged = parted(alloc, dead, own, place.since(), freed)?;
    changes.put_list(place.after.dead_list, merged)?;
    Ok(())
}

/// The blocks of a dead list that were born after a group come behind those in `freed`; the others and those of another list are handed out.
fn parted(
    alloc: Global,
    dead: DeadList,
    own: DeadList,
    since: u64,
    freed: &mut Vec<Block>,
) -> Result<DeadList, AllocError>
    ensures fits { IfOk result (λ merged. All FitsBlock dead → All FitsBlock own
        → All FitsBlock merged) }
    ensures value { IfOk result (λ merged. (gone : List Block) × (older : List Block)
        × (freed.new.items ≡ freed.old.items ++ gone) × IsSplit since dead gone older
        × IsPermutation (older ++ own) merged) }
{
    let mut older = dead;
    let mut joining = own;
    let young = older.split_at(alloc, since)?;
    older.merge(&mut joining)?;
    let mut gone = young.into_blocks()?;
    freed.append(&mut gone)?;
    Ok(older)
}
