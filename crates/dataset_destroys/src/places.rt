//! A snapshot in its chain, as it is looked up.
ghost use Rattle.std.specs.Prelude.{◌≡◌, [], ℕ, Option, OnOk, IfOk, IfErr};
ghost use Rattle.block_store.specs.Blocks.{Contents};
ghost use Rattle.block_store.specs.Causes.{IsCaused};
ghost use Rattle.block_store.specs.Losses.{IsForLoss};
ghost use Rattle.block_store.specs.Steps.{OnlyReadsBlocks};
ghost use Rattle.dataset_chains.specs.Chains.{Reading, SpellsChains};
ghost use Rattle.dataset_chains.specs.Refused.{HasKnown};
ghost use Rattle.dataset_chains.specs.Touched.{AreAtMostRead};
ghost use Rattle.dataset_chains.specs.Over.{AreOver, HasRecordNow};
ghost use Rattle.dataset_chains.specs.States.{AreOfOneSet, HaveSameLists, IsNumber};
ghost use Rattle.dataset_destroys.specs.Places.{ArePlaced, FitsPlace, IsLone};
ghost use Rattle.dataset_destroys.specs.Refused.{IsSnapshotKept};
ghost use Rattle.dataset_destroys.specs.Steps.{AreSameNow, IsFound, TellsObjects, group_of};
ghost use Rattle.dead_list.specs.Datasets.{Pool};
ghost use Rattle.dead_list.specs.Operations.{DestroySnapshot, MayDo};
ghost use Rattle.meta_objset.specs.Record.{FitsRecord};
ghost use Rattle.meta_objset.specs.declared.record.DatasetKind.TheVariants as kinds;
ghost use Rattle.meta_objset.specs.declared.record.DatasetRecord.{DatasetRecord};
ghost use Rattle.objset.specs.Objects.{Object};

use crate::records::{is_snapshot, known_record, record_before};
use block_store::{BlockStore, Refusal};
use dataset_chains::DatasetChanges;
use meta_objset::DatasetRecord;
use model_disk::Disk;
use std::alloc::Global;

/// A snapshot without clones, in its chain.
#[derive(Clone, Copy)]
pub(crate) struct Place {
    /// Of the snapshot's object.
    pub(crate) number: u64,
    /// The snapshot's record.
    pub(crate) gone: DatasetRecord,
    /// That of what comes after it.
    pub(crate) after: DatasetRecord,
    /// That of the snapshot before it, where there is one.
    pub(crate) before: Option<DatasetRecord>,
}

impl Place {
    /// Looks a snapshot up.
    pub(crate) fn find<D: Disk + Drop>(
        changes: &mut DatasetChanges,
        store: &mut BlockStore<D>,
        alloc: Global,
        number: u64,
    ) -> Result<Place, Refusal>
        ensures reads { OnlyReadsBlocks store.old store.new [] }
        ensures one_set { AreOfOneSet changes.old changes.new }
        ensures lists { HaveSameLists changes.old changes.new }
        ensures number { IfOk result (λ place. place.number ≡ number) }
        ensures fits { IfOk result FitsPlace }
        ensures lone { IfOk result IsLone }
        ensures known_as { IfOk result (λ place. HasKnown changes.new number place.gone) }
        ensures known_after { IfOk result
            (λ place. HasKnown changes.new place.gone.next place.after) }
        ensures touched { OnOk result (AreAtMostRead changes.old changes.new) }
        ensures value { IfOk result (λ place. (stored : Contents) (objects : ℕ → Option Object)
            → TellsObjects store.old store.new changes.old stored objects
            → AreOver objects changes.old
            → AreSameNow objects changes.old changes.new × ArePlaced objects changes.old place) }
        ensures caused { IfErr result (IsCaused store.old store.new []) }
        ensures refused { IfErr result
            (IsSnapshotKept store.old store.new changes.old changes.new number) }
        ensures known { IfErr result (λ refusal. (stored known : Contents) (group : ℕ)
            (objects : ℕ → Option Object) (pool : Pool) (readings : ℕ → Reading)
            → TellsObjects store.old store.new changes.old stored objects
            → SpellsChains known group objects changes.old pool readings
            → MayDo pool (DestroySnapshot number) → IsForLoss refusal) }
    {
        let gone = lone_snapshot(changes, store, alloc, number)?;
        let after = follower(changes, store, alloc, number, &gone)?;
        let before = record_before(changes, store, alloc, &gone)?;
        Ok(Place {
            number,
            gone,
            after,
            before,
        })
    }

    /// The group of the snapshot before.
    pub(crate) fn since(&self) -> u64
        ensures { result ≡ group_of (self.now).before }
    {
        match self.before {
            Some(before) => before.created,
            None => 0,
        }
    }
}

/// The record of a snapshot without clones.
fn lone_snapshot<D: Disk + Drop>(
    changes: &mut DatasetChanges,
    store: &mut BlockStore<D>,
    alloc: Global,
    number: u64,
) -> Result<DatasetRecord, Refusal>
    ensures reads { OnlyReadsBlocks store.old store.new [] }
    ensures one_set { AreOfOneSet changes.old changes.new }
    ensures lists { HaveSameLists changes.old changes.new }
    ensures known_as { IfOk result (HasKnown changes.new number) }
    ensures fits { IfOk result (λ found. FitsRecord found × IsNumber number) }
    ensures kind { IfOk result (λ found. found.kind ≡ kinds.Snapshot) }
    ensures clones { IfOk result (λ found. found.clones ≡ 0) }
    ensures touched { OnOk result (AreAtMostRead changes.old changes.new) }
    ensures value { IfOk result (λ found. (stored : Contents) (objects : ℕ → Option Object)
        → TellsObjects store.old store.new changes.old stored objects → AreOver objects changes.old
        → IsFound objects changes.old changes.new number found) }
    ensures caused { IfErr result (IsCaused store.old store.new []) }
    ensures refused { IfErr result
        (IsSnapshotKept store.old store.new changes.old changes.new number) }
    ensures known { IfErr result (λ refusal. (stored : Contents) (objects : ℕ → Option Object)
        → TellsObjects store.old store.new changes.old stored objects → AreOver objects changes.old
        → IsNumber number → (r : DatasetRecord) → HasRecordNow objects changes.old number r
        → r.kind ≡ kinds.Snapshot → r.clones ≡ 0 → IsForLoss refusal) }
{
    let gone = known_record(changes, store, alloc, number)?;
    if !is_snapshot(&gone) {
        return Err(Refusal::BadPointer);
    }
    if gone.clones != 0 {
        return Err(Refusal::BadPointer);
    }
    Ok(gone)
}

/// The record of what comes after a snapshot, and names it as the one before.
fn follower<D: Disk + Drop>(
    changes: &mut DatasetChanges,
    store: &mut BlockStore<D>,
    alloc: Global,
    number: u64,
    gone: &DatasetRecord,
) -> Result<DatasetRecord, Refusal>
    ensures reads { OnlyReadsBlocks store.old store.new [] }
    ensures one_set { AreOfOneSet changes.old changes.new }
    ensures lists { HaveSameLists changes.old changes.new }
    ensures known_as { IfOk result (HasKnown changes.new (gone.now).next) }
    ensures keeps { OnOk result ((other : ℕ) (r : DatasetRecord) → HasKnown changes.old other r
        → HasKnown changes.new other r) }
    ensures touched { OnOk result (AreAtMostRead changes.old changes.new) }
    ensures fits { IfOk result (λ found. FitsRecord found × IsNumber (gone.now).next) }
    ensures linked { IfOk result (λ found. found.previous ≡ number) }
    ensures value { IfOk result (λ found. (stored : Contents) (objects : ℕ → Option Object)
        → TellsObjects store.old store.new changes.old stored objects → AreOver objects changes.old
        → IsFound objects changes.old changes.new (gone.now).next found) }
    ensures caused { IfErr result (IsCaused store.old store.new []) }
    ensures refused { IfErr result (λ refusal. HasKnown changes.old number gone.now
        → IsSnapshotKept store.old store.new changes.old changes.new number refusal) }
    ensures known { IfErr result (λ refusal. (stored : Contents) (objects : ℕ → Option Object)
        → TellsObjects store.old store.new changes.old stored objects → AreOver objects changes.old
        → IsNumber (gone.now).next → (r : DatasetRecord)
        → HasRecordNow objects changes.old (gone.now).next r → r.previous ≡ number
        → IsForLoss refusal) }
{
    let after = known_record(changes, store, alloc, gone.next)?;
    if after.previous != number {
        return Err(Refusal::BadPointer);
    }
    Ok(after)
}
