//! Records that a destroy looks at.
ghost use Rattle.std.specs.Prelude.{◌≡◌, ◌≢◌, ◌↔◌, [], ℕ, Option, IsTrue, OnOk, IfOk, IfErr};
ghost use Rattle.block_store.specs.Blocks.{Contents};
ghost use Rattle.block_store.specs.Causes.{IsCaused};
ghost use Rattle.block_store.specs.Losses.{IsForLoss};
ghost use Rattle.block_store.specs.Steps.{OnlyReadsBlocks};
ghost use Rattle.dataset_chains.specs.Refused.{HasKnown, IsRecordLost};
ghost use Rattle.dataset_chains.specs.Touched.{AreAtMostRead};
ghost use Rattle.dataset_chains.specs.Over.{AreOver, HasRecordNow};
ghost use Rattle.dataset_chains.specs.States.{AreOfOneSet, HaveSameLists, IsNumber, record_at};
ghost use Rattle.dataset_destroys.specs.Steps.{AreSameNow, FitsBefore, IsBefore, IsFound, IsKnownBefore, IsPutNow, IsTakenOut, TellsObjects};
ghost use Rattle.meta_objset.specs.Record.{FitsRecord};
ghost use Rattle.meta_objset.specs.declared.record.DatasetKind.TheVariants as kinds;
ghost use Rattle.meta_objset.specs.declared.record.DatasetRecord.{DatasetRecord};
ghost use Rattle.objset.specs.Objects.{Object};

use block_store::{BlockStore, Refusal};
use dataset_chains::DatasetChanges;
use meta_objset::{DatasetKind, DatasetRecord};
use model_disk::Disk;
use std::alloc::{AllocError, Global};

/// The record at a number, as the group leaves it so far. `BadPointer` where there is none.
pub(crate) fn known_record<D: Disk + Drop>(
    changes: &mut DatasetChanges,
    store: &mut BlockStore<D>,
    alloc: Global,
    number: u64,
) -> Result<DatasetRecord, Refusal>
    ensures reads { OnlyReadsBlocks store.old store.new [] }
    ensures one_set { AreOfOneSet changes.old changes.new }
    ensures lists { HaveSameLists changes.old changes.new }
    ensures known_as { IfOk result (HasKnown changes.new number) }
    ensures keeps { OnOk result ((other : ℕ) (r : DatasetRecord) → HasKnown changes.old other r
        → HasKnown changes.new other r) }
    ensures touched { OnOk result (AreAtMostRead changes.old changes.new) }
    ensures fits { IfOk result (λ found. FitsRecord found × IsNumber number) }
    ensures value { IfOk result (λ found. (stored : Contents) (objects : ℕ → Option Object)
        → TellsObjects store.old store.new changes.old stored objects → AreOver objects changes.old
        → IsFound objects changes.old changes.new number found) }
    ensures caused { IfErr result (IsCaused store.old store.new []) }
    ensures refused { IfErr result (IsRecordLost store.old store.new changes.old) }
    ensures known { IfErr result (λ refusal. (stored : Contents) (objects : ℕ → Option Object)
        → TellsObjects store.old store.new changes.old stored objects → IsNumber number
        → (r : DatasetRecord) → HasRecordNow objects changes.old number r → IsForLoss refusal) }
{
    let found = changes.record(store, alloc, number)?;
    Ok(found)
}

/// The record of the snapshot before a dataset, where there is one.
pub(crate) fn record_before<D: Disk + Drop>(
    changes: &mut DatasetChanges,
    store: &mut BlockStore<D>,
    alloc: Global,
    dataset: &DatasetRecord,
) -> Result<Option<DatasetRecord>, Refusal>
    ensures reads { OnlyReadsBlocks store.old store.new [] }
    ensures one_set { AreOfOneSet changes.old changes.new }
    ensures lists { HaveSameLists changes.old changes.new }
    ensures known_as { IfOk result (IsKnownBefore changes.new (dataset.now).previous) }
    ensures keeps { OnOk result ((other : ℕ) (r : DatasetRecord) → HasKnown changes.old other r
        → HasKnown changes.new other r) }
    ensures touched { OnOk result (AreAtMostRead changes.old changes.new) }
    ensures fits { IfOk result (FitsBefore (dataset.now).previous) }
    ensures value { IfOk result (λ found. (stored : Contents) (objects : ℕ → Option Object)
        → TellsObjects store.old store.new changes.old stored objects → AreOver objects changes.old
        → AreSameNow objects changes.old changes.new
        × IsBefore objects changes.old (dataset.now).previous found) }
    ensures caused { IfErr result (IsCaused store.old store.new []) }
    ensures refused { IfErr result (IsRecordLost store.old store.new changes.old) }
    ensures known { IfErr result (λ refusal. (stored : Contents) (objects : ℕ → Option Object)
        → TellsObjects store.old store.new changes.old stored objects
        → ((dataset.now).previous ≢ 0 → IsNumber (dataset.now).previous
        × ((r : DatasetRecord) × HasRecordNow objects changes.old (dataset.now).previous r))
        → IsForLoss refusal) }
{
    if dataset.previous == 0 {
        return Ok(None);
    }
    let before = known_record(changes, store, alloc, dataset.previous)?;
    Ok(Some(before))
}

/// Whether the dataset is a snapshot.
pub(crate) fn is_snapshot(dataset: &DatasetRecord) -> bool
    ensures { IsTrue result ↔ ((dataset.now).kind ≡ kinds.Snapshot) }
{
    match dataset.kind {
        DatasetKind::Snapshot => true,
        DatasetKind::Volume => false,
    }
}

/// Whether it is a head.
pub(crate) fn is_head(dataset: &DatasetRecord) -> bool
    ensures { IsTrue result ↔ ((dataset.now).kind ≡ kinds.Volume) }
{
    match dataset.kind {
        DatasetKind::Snapshot => false,
        DatasetKind::Volume => true,
    }
}

/// Another record in place of one that was read.
pub(crate) fn put_record(
    changes: &mut DatasetChanges,
    number: u64,
    dataset: &DatasetRecord,
) -> Result<(), AllocError>
    requires fits { FitsRecord dataset.now }
    requires number { IsNumber number }
    ensures one_set { AreOfOneSet changes.old changes.new }
    ensures lists { HaveSameLists changes.old changes.new }
    ensures others { OnOk result ((other : ℕ) → other ≢ number
        → record_at changes.new other ≡ record_at changes.old other) }
    ensures value { OnOk result ((objects : ℕ → Option Object) (r : DatasetRecord)
        → AreOver objects changes.old → HasRecordNow objects changes.old number r
        → IsPutNow objects changes.old changes.new number dataset.now) }
{
    changes.change_record(number, dataset)?;
    Ok(())
}

/// The object of a record that was read goes.
pub(crate) fn take_out(changes: &mut DatasetChanges, number: u64) -> Result<(), AllocError>
    requires { IsNumber number }
    ensures one_set { AreOfOneSet changes.old changes.new }
    ensures lists { HaveSameLists changes.old changes.new }
    ensures others { OnOk result ((other : ℕ) → other ≢ number
        → record_at changes.new other ≡ record_at changes.old other) }
    ensures value { OnOk result ((objects : ℕ → Option Object) (r : DatasetRecord)
        → AreOver objects changes.old → HasRecordNow objects changes.old number r
        → IsTakenOut objects changes.old changes.new number) }
{
    changes.free_record(number)?;
    Ok(())
}
