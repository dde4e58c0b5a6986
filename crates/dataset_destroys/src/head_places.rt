//! A head in its chain, as it is looked up.
ghost use Rattle.std.specs.Prelude.{◌≡◌, [], ℕ, Option, OnOk, IfOk, IfErr};
ghost use Rattle.block_store.specs.Blocks.{Contents};
ghost use Rattle.block_store.specs.Causes.{IsCaused};
ghost use Rattle.block_store.specs.Losses.{IsForLoss};
ghost use Rattle.block_store.specs.Steps.{OnlyReadsBlocks};
ghost use Rattle.dataset_chains.specs.Chains.{Reading, SpellsChains};
ghost use Rattle.dataset_chains.specs.Refused.{HasKnown};
ghost use Rattle.dataset_chains.specs.Touched.{AreAtMostRead};
ghost use Rattle.dataset_chains.specs.Over.{AreOver, HasRecordNow};
ghost use Rattle.dataset_chains.specs.States.{AreOfOneSet, HaveSameLists, IsNumber};
ghost use Rattle.dataset_destroys.specs.HeadPlaces.{AreHeadPlaced, FitsHead, IsBadBefore, IsCloneOf, IsLoneHead};
ghost use Rattle.dataset_destroys.specs.Refused.{IsHeadUnfit};
ghost use Rattle.dataset_destroys.specs.Steps.{AreSameNow, IsFound, IsKnownBefore, TellsObjects, group_of};
ghost use Rattle.dead_list.specs.Datasets.{Pool};
ghost use Rattle.dead_list.specs.Operations.{DestroyHead, MayDo};
ghost use Rattle.meta_objset.specs.Record.{FitsRecord};
ghost use Rattle.meta_objset.specs.declared.record.DatasetKind.TheVariants as kinds;
ghost use Rattle.meta_objset.specs.declared.record.DatasetRecord.{DatasetRecord};
ghost use Rattle.objset.specs.Objects.{Object};

use crate::records::{is_head, known_record, record_before};
use block_store::{BlockStore, Refusal};
use dataset_chains::DatasetChanges;
use meta_objset::DatasetRecord;
use model_disk::Disk;
use std::alloc::Global;

/// A head without snapshots of its own, in its chain.
#[derive(Clone, Copy)]
pub(crate) struct HeadPlace {
    /// Of the head's object.
    pub(crate) number: u64,
    /// The head's record.
    pub(crate) gone: DatasetRecord,
    /// That of its origin, where it is a clone.
    pub(crate) before: Option<DatasetRecord>,
}

impl HeadPlace {
    /// Looks a head up.
    pub(crate) fn find<D: Disk + Drop>(
        changes: &mut DatasetChanges,
        store: &mut BlockStore<D>,
        alloc: Global,
        number: u64,
    ) -> Result<HeadPlace, Refusal>
        ensures reads { OnlyReadsBlocks store.old store.new [] }
        ensures one_set { AreOfOneSet changes.old changes.new }
        ensures lists { HaveSameLists changes.old changes.new }
        ensures number { IfOk result (λ place. place.number ≡ number) }
        ensures fits { IfOk result FitsHead }
        ensures lone { IfOk result IsLoneHead }
        ensures known_as { IfOk result (λ place. HasKnown changes.new number place.gone) }
        ensures known_before { IfOk result (λ place.
            IsKnownBefore changes.new place.gone.previous place.before) }
        ensures touched { OnOk result (AreAtMostRead changes.old changes.new) }
        ensures value { IfOk result (λ place. (stored : Contents) (objects : ℕ → Option Object)
            → TellsObjects store.old store.new changes.old stored objects
            → AreOver objects changes.old
            → AreSameNow objects changes.old changes.new
            × AreHeadPlaced objects changes.old place) }
        ensures caused { IfErr result (IsCaused store.old store.new []) }
        ensures refused { IfErr result
            (IsHeadUnfit store.old store.new changes.old changes.new number) }
        ensures known { IfErr result (λ refusal. (stored known : Contents) (group : ℕ)
            (objects : ℕ → Option Object) (pool : Pool) (readings : ℕ → Reading)
            → TellsObjects store.old store.new changes.old stored objects
            → SpellsChains known group objects changes.old pool readings
            → MayDo pool (DestroyHead number) → IsForLoss refusal) }
    {
        let gone = head_record(changes, store, alloc, number)?;
        let before = record_before(changes, store, alloc, &gone)?;
        judged(before, number)?;
        Ok(HeadPlace {
            number,
            gone,
            before,
        })
    }

    /// The group of the snapshot before.
    pub(crate) fn since(&self) -> u64
        ensures { result ≡ group_of (self.now).before }
    {
        match self.before {
            Some(before) => before.created,
            None => 0,
        }
    }
}

/// The record of a head.
fn head_record<D: Disk + Drop>(
    changes: &mut DatasetChanges,
    store: &mut BlockStore<D>,
    alloc: Global,
    number: u64,
) -> Result<DatasetRecord, Refusal>
    ensures reads { OnlyReadsBlocks store.old store.new [] }
    ensures one_set { AreOfOneSet changes.old changes.new }
    ensures lists { HaveSameLists changes.old changes.new }
    ensures known_as { IfOk result (HasKnown changes.new number) }
    ensures fits { IfOk result (λ found. FitsRecord found × IsNumber number) }
    ensures kind { IfOk result (λ found. found.kind ≡ kinds.Volume) }
    ensures touched { OnOk result (AreAtMostRead changes.old changes.new) }
    ensures value { IfOk result (λ found. (stored : Contents) (objects : ℕ → Option Object)
        → TellsObjects store.old store.new changes.old stored objects → AreOver objects changes.old
        → IsFound objects changes.old changes.new number found) }
    ensures caused { IfErr result (IsCaused store.old store.new []) }
    ensures refused { IfErr result
        (IsHeadUnfit store.old store.new changes.old changes.new number) }
    ensures known { IfErr result (λ refusal. (stored : Contents) (objects : ℕ → Option Object)
        → TellsObjects store.old store.new changes.old stored objects → AreOver objects changes.old
        → IsNumber number → (r : DatasetRecord) → HasRecordNow objects changes.old number r
        → r.kind ≡ kinds.Volume → IsForLoss refusal) }
{
    let gone = known_record(changes, store, alloc, number)?;
    if !is_head(&gone) {
        return Err(Refusal::BadPointer);
    }
    Ok(gone)
}

/// `BadPointer` where what is before a head is its own snapshot, or has no clones.
fn judged(before: Option<DatasetRecord>, number: u64) -> Result<(), Refusal>
    ensures clone { OnOk result (IsCloneOf number before) }
    ensures cause { IfErr result (λ refusal. refusal ≡ Refusal.BadPointer) }
    ensures refused { IfErr result (λ refusal. IsBadBefore number before) }
{
    let Some(before) = before else {
        return Ok(());
    };
    if before.next == number {
        return Err(Refusal::BadPointer);
    }
    if before.clones == 0 {
        return Err(Refusal::BadPointer);
    }
    Ok(())
}
