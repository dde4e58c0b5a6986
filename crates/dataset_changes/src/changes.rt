//! What a group makes of records and dead lists.
ghost use Rattle.dnode.specs.ObjectSet.{FitsObjectSet};
ghost use Rattle.dataset_changes.specs.Fitting.{FitLists, FitLists-prop, FitRecords, FitRecords-prop, FitsObjectSet-prop};

use crate::states::{ListState, RecordState};
use dnode::ObjectSet;
use std::alloc::{AllocError, Global};
use std::collections::BTreeMap;

/// What a transaction group makes of the records and dead lists of a meta object set so far. The set stays as it is: a record or list
/// is read of it when it is first asked for, and `into_changes` tells what becomes of its objects.
///
/// Where a method answers an error what it was to change is perhaps changed in part: these changes are to be dropped.
#[derive(Drop)]
pub struct DatasetChanges {
    pub(crate) set: ObjectSet,
    pub(crate) birth: u64,
    /// By the numbers of their objects.
    pub(crate) records: BTreeMap<u64, RecordState>,
    pub(crate) lists: BTreeMap<u64, ListState>,
    ghost fits: { FitsObjectSet set } by { FitsObjectSet-prop set },
    ghost records_fit: { FitRecords records } by { FitRecords-prop records },
    ghost lists_fit: { FitLists lists } by { FitLists-prop lists },
}

impl DatasetChanges {
    ghost use Rattle.std.specs.Prelude.{◌≡◌, Some, None, IfSome, OnOk, OnErr};
    ghost use Rattle.dnode.specs.ObjectSet.{FitsObjectSet};
    ghost use Rattle.dataset_changes.specs.Fitting.{FitsListState, FitsRecordState};
    ghost use Rattle.dataset_changes.specs.Numbers.{IsNumber};
    ghost use Rattle.dataset_changes.specs.States.{AreOfOneSet, AreUntouched, HasListPut, HasRecordPut, HaveSameLists, HaveSameRecords};
    ghost use Rattle.dataset_changes.specs.States.{birth_of, list_at, set_of};

    /// None yet, of a meta object set whose blocks were born in the transaction group `birth` or before.
    pub fn new(alloc: Global, set: ObjectSet, birth: u64) -> DatasetChanges
        requires { FitsObjectSet set }
        ensures of_set { (set_of result ≡ set) × (birth_of result ≡ birth) }
        ensures none { AreUntouched result }
    {
        DatasetChanges {
            set,
            birth,
            records: BTreeMap::new(alloc),
            lists: BTreeMap::new(alloc),
        }
    }

    /// Says what became of the record at a number.
    pub(crate) fn insert_record(
        &mut self,
        number: u64,
        state: RecordState,
    ) -> Result<(), AllocError>
        requires fits { FitsRecordState state }
        requires number { IsNumber number }
        ensures one_set { AreOfOneSet self.old self.new }
        ensures lists { HaveSameLists self.old self.new }
        ensures put { OnOk result (HasRecordPut self.old number (Some state) self.new) }
        ensures left { OnErr result (HaveSameRecords self.old self.new) }
    {
        self.records.insert(number, state)?;
        Ok(())
    }

    /// Nothing became of the record at a number.
    pub(crate) fn remove_record(&mut self, number: u64)
        ensures one_set { AreOfOneSet self.old self.new }
        ensures lists { HaveSameLists self.old self.new }
        ensures put { HasRecordPut self.old number None self.new }
    {
        self.records.remove(&number);
    }

    /// Says what became of the dead list at a number.
    pub(crate) fn insert_list(&mut self, number: u64, state: ListState) -> Result<(), AllocError>
        requires fits { FitsListState state }
        requires number { IsNumber number }
        ensures one_set { AreOfOneSet self.old self.new }
        ensures records { HaveSameRecords self.old self.new }
        ensures put { OnOk result (HasListPut self.old number (Some state) self.new) }
        ensures left { OnErr result (HaveSameLists self.old self.new) }
    {
        self.lists.insert(number, state)?;
        Ok(())
    }

    /// Takes out what became of the dead list at a number.
    pub(crate) fn remove_list(&mut self, number: u64) -> Option<ListState>
        ensures one_set { AreOfOneSet self.old self.new }
        ensures records { HaveSameRecords self.old self.new }
        ensures value { result ≡ list_at self.old number }
        ensures fits { IfSome result FitsListState }
        ensures put { HasListPut self.old number None self.new }
    {
        self.lists.remove(&number)
    }
}
