//! Records are read and changed.
ghost use Rattle.std.specs.Prelude.{◌≡◌, ◌≢◌, ◌⊎◌, ◌↔◌, ◌*◌, ◌^◌, ◌<◌, [], ℕ, List, Option, Some, None, OnOk, OnErr, IfOk, IfErr, IfSome, IsTrue, MatchOption};
ghost use Rattle.block_pointer.specs.declared.block.Block.{Block};
ghost use Rattle.block_store.specs.Blocks.{Contents};
ghost use Rattle.block_store.specs.Causes.{IsCaused};
ghost use Rattle.block_store.specs.Losses.{IsForLoss};
ghost use Rattle.block_store.specs.Steps.{OnlyReadsBlocks, AnswersTell};
ghost use Rattle.block_store.specs.Store.{Holds};
ghost use Rattle.meta_objset.specs.Found.{IsRecordFound, IsRecordRefused};
ghost use Rattle.meta_objset.specs.Datasets.{HasRecord};
ghost use Rattle.meta_objset.specs.Record.{FitsRecord};
ghost use Rattle.meta_objset.specs.declared.record.DatasetRecord.{DatasetRecord};
ghost use Rattle.objset.specs.Objects.{Object, AreObjects};
ghost use Rattle.dataset_changes.specs.Over.{AreOver, HasRecordNow};
ghost use Rattle.dataset_changes.specs.Refused.{IsRecordUnread};
ghost use Rattle.dataset_changes.specs.States.{AreOfOneSet, HasRecordPut, HaveSameLists, HaveSameRecords, IsKnownAs, IsNumber};
ghost use Rattle.dataset_changes.specs.States.{birth_of, is_made_record, once_read, record_at, set_of, with_record, without_record};
ghost use Rattle.dataset_changes.specs.declared.states.RecordState.TheVariants as records;

use crate::changes::DatasetChanges;
use crate::states::RecordState;
use block_store::{BlockStore, Refusal};
use meta_objset::DatasetRecord;
use model_disk::Disk;
use std::alloc::{AllocError, Global};

/// The numbers of an object set are below this: 32 in each of 128^5 blocks.
const NUMBERS_END: u64 = 32 << 35;

/// Objects up to this one have the pool's tables.
const LAST_TABLE: u64 = 4;

/// Whether a number is one of an object behind the tables.
pub(crate) fn is_number(number: u64) -> bool
    ensures { IsTrue result ↔ IsNumber number }
{
    LAST_TABLE < number && number < NUMBERS_END
}

impl DatasetChanges {
    /// The record at a number, as the group leaves it so far. It is read of the set where it wasn't yet. `BadPointer` where the number is none
    /// of an object behind the tables, where the object is none of a record, and where the record is gone.
    pub fn record<D: Disk + Drop>(
        &mut self,
        store: &mut BlockStore<D>,
        alloc: Global,
        number: u64,
    ) -> Result<DatasetRecord, Refusal>
        ensures reads { OnlyReadsBlocks store.old store.new [] }
        ensures idle { record_at self.old number ≢ None → store.new ≡ store.old }
        ensures one_set { AreOfOneSet self.old self.new }
        ensures lists { HaveSameLists self.old self.new }
        ensures kept { IfOk result (λ found. HasRecordPut self.old number
            (Some (once_read (record_at self.old number) found)) self.new) }
        ensures left { OnErr result (HaveSameRecords self.old self.new) }
        ensures fits { IfOk result (λ found. FitsRecord found × IsNumber number) }
        ensures known_as { IfOk result (λ found.
            (record_at self.new number ≡ Some (records.Read found))
            ⊎ ((record_at self.new number ≡ Some (records.Changed found))
            ⊎ (record_at self.new number ≡ Some (records.Made found)))) }

        // What wasn't known yet was read of the set.
        ensures found { IfOk result (λ found. record_at self.old number ≡ None
            → IsRecordFound store.old.spaces (set_of self.old) (birth_of self.old) number found) }

        // Over disks whose answers tell it is the one that there is now.
        ensures value { IfOk result (λ found. (stored : Contents) (objects : ℕ → Option Object)
            (own : List Block) (blocks : ℕ → List Block) → Holds store.old stored
            → AreObjects stored (birth_of self.old) (set_of self.old) objects own blocks
            → AnswersTell store.old store.new [] → AreOver objects self.old
            → AreOver objects self.new × HasRecordNow objects self.old number found
            × ((r : DatasetRecord) → HasRecordNow objects self.old number r → r ≡ found)) }

        // Whatever the set is: why it was not read.
        ensures caused { IfErr result (IsCaused store.old store.new []) }
        ensures refused { IfErr result (IsRecordUnread store.old store.new self.old number) }

        // And one that is there is read, over disks whose answers tell, unless too many disks miss of a
        // block.
        ensures known { IfErr result (λ refusal. (stored : Contents) (objects : ℕ → Option Object)
            (own : List Block) (blocks : ℕ → List Block) → Holds store.old stored
            → AreObjects stored (birth_of self.old) (set_of self.old) objects own blocks
            → AnswersTell store.old store.new [] → IsNumber number → (r : DatasetRecord)
            → HasRecordNow objects self.old number r → IsForLoss refusal) }
    {
        if !is_number(number) {
            return Err(Refusal::BadPointer);
        }
        if let Some(dataset) = self.known_record(number)? {
            return Ok(dataset);
        }
        self.read_record(store, alloc, number)
    }

    /// Another record in place of one that is there, and that was read or made. `NoMemory` is the only error.
    pub fn change_record(&mut self, number: u64, dataset: &DatasetRecord) -> Result<(), AllocError>
        requires fits { FitsRecord dataset.now }
        requires number { IsNumber number }
        ensures one_set { AreOfOneSet self.old self.new }
        ensures lists { HaveSameLists self.old self.new }
        ensures put { OnOk result (HasRecordPut self.old number
            (Some (with_record (record_at self.old number) dataset.now)) self.new) }
        ensures over { OnOk result ((objects : ℕ → Option Object) (r : DatasetRecord)
            → AreOver objects self.old → HasRecordNow objects self.old number r
            → AreOver objects self.new) }
    {
        if self.is_record_made(number) {
            return self.insert_record(number, RecordState::Made(*dataset));
        }
        self.insert_record(number, RecordState::Changed(*dataset))
    }

    /// The record of an object that is made.
    pub fn make_record(&mut self, number: u64, dataset: &DatasetRecord) -> Result<(), AllocError>
        requires fits { FitsRecord dataset.now }
        requires number { IsNumber number }
        ensures one_set { AreOfOneSet self.old self.new }
        ensures lists { HaveSameLists self.old self.new }
        ensures put { OnOk result
            (HasRecordPut self.old number (Some (records.Made dataset.now)) self.new) }
        ensures over { OnOk result ((objects : ℕ → Option Object) → AreOver objects self.old
            → objects number ≡ None → AreOver objects self.new) }
    {
        self.insert_record(number, RecordState::Made(*dataset))
    }

    /// The object of a record goes. One that was made isn't made.
    pub fn free_record(&mut self, number: u64) -> Result<(), AllocError>
        requires number { IsNumber number }
        ensures one_set { AreOfOneSet self.old self.new }
        ensures lists { HaveSameLists self.old self.new }
        ensures put { OnOk result
            (HasRecordPut self.old number (without_record (record_at self.old number)) self.new) }
        ensures over { OnOk result ((objects : ℕ → Option Object) (r : DatasetRecord)
            → AreOver objects self.old → HasRecordNow objects self.old number r
            → AreOver objects self.new) }
    {
        if self.is_record_made(number) {
            self.remove_record(number);
            return Ok(());
        }
        self.insert_record(number, RecordState::Gone)
    }

    /// The record at a number, where it was read or made. `BadPointer` where it is gone.
    fn known_record(&self, number: u64) -> Result<Option<DatasetRecord>, Refusal>
        ensures known { IfOk result (λ found. MatchOption found
            (record_at self.now number ≡ None) (IsKnownAs (record_at self.now number))) }
        ensures fits { IfOk result (λ found. IfSome found FitsRecord) }
        ensures refused { IfErr result (λ refusal. (refusal ≡ Refusal.BadPointer)
            × (record_at self.now number ≡ Some records.Gone)) }
    {
        match self.records.get(&number) {
            None => Ok(None),
            Some(RecordState::Read(dataset)) => Ok(Some(*dataset)),
            Some(RecordState::Changed(dataset)) => Ok(Some(*dataset)),
            Some(RecordState::Made(dataset)) => Ok(Some(*dataset)),
            Some(RecordState::Gone) => Err(Refusal::BadPointer),
        }
    }

    /// Whether the object of the record at a number is made.
    fn is_record_made(&self, number: u64) -> bool
        ensures { result ≡ is_made_record (record_at self.now number) }
    {
        match self.records.get(&number) {
            Some(RecordState::Made(_)) => true,
            _ => false,
        }
    }

    /// Reads the record at a number of the set, and keeps it.
    fn read_record<D: Disk + Drop>(
        &mut self,
        store: &mut BlockStore<D>,
        alloc: Global,
        number: u64,
    ) -> Result<DatasetRecord, Refusal>
        requires { IsNumber number }
        ensures reads { OnlyReadsBlocks store.old store.new [] }
        ensures one_set { AreOfOneSet self.old self.new }
        ensures lists { HaveSameLists self.old self.new }
        ensures put { IfOk result (λ found.
            HasRecordPut self.old number (Some (records.Read found)) self.new) }
        ensures left { OnErr result (HaveSameRecords self.old self.new) }
        ensures fits { IfOk result FitsRecord }
        ensures found { IfOk result (IsRecordFound store.old.spaces (set_of self.old)
            (birth_of self.old) number) }
        ensures value { IfOk result (λ found. (stored : Contents) (objects : ℕ → Option Object)
            (own : List Block) (blocks : ℕ → List Block) → Holds store.old stored
            → AreObjects stored (birth_of self.old) (set_of self.old) objects own blocks
            → AnswersTell store.old store.new [] → HasRecord (objects number) found) }
        ensures one { IfOk result (λ found. (stored : Contents) (objects : ℕ → Option Object)
            (own : List Block) (blocks : ℕ → List Block) → Holds store.old stored
            → AreObjects stored (birth_of self.old) (set_of self.old) objects own blocks
            → AnswersTell store.old store.new [] → (other : DatasetRecord)
            → HasRecord (objects number) other → found ≡ other) }
        ensures caused { IfErr result (IsCaused store.old store.new []) }
        ensures refused { IfErr result (λ refusal. (refusal ≡ Refusal.NoMemory)
            ⊎ IsRecordRefused store.old store.new [] (set_of self.old) (birth_of self.old)
            number refusal) }
        ensures known { IfErr result (λ refusal. (stored : Contents) (objects : ℕ → Option Object)
            (own : List Block) (blocks : ℕ → List Block) → Holds store.old stored
            → AreObjects stored (birth_of self.old) (set_of self.old) objects own blocks
            → AnswersTell store.old store.new [] → (r : DatasetRecord)
            → HasRecord (objects number) r → IsForLoss refusal) }
    {
        let found = meta_objset::read_record(&self.set, store, alloc, number, self.birth, &[])?;
        self.insert_record(number, RecordState::Read(found))?;
        Ok(found)
    }
}
