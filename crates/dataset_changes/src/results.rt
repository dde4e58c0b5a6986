//! The changes of the set's objects that a group's records and dead lists come to.
ghost use Rattle.std.specs.Prelude.{◌≡◌, ◌≢◌, ◌⊎◌, ℕ, Some, None, OnOk, IfOk, IfErr};
ghost use Rattle.std.specs.BTreeMap.{IsOrdered, Updates, get};
ghost use Rattle.std.specs.Ordering.{nat_cmp};
ghost use Rattle.dataset_changes.specs.Fitting.{FitLists, FitRecords};
ghost use Rattle.dataset_changes.specs.Planned.{AreListsPlanned, AreRecordPlans, changes_of};
ghost use Rattle.dataset_changes.specs.Results.{AreChangesOf, AreMixed};

use crate::changes::DatasetChanges;
use crate::planning::{list_plan, record_plan};
use crate::states::{ListState, RecordState};
use block_store::Refusal;
use objset::{Change, ObjectChange};
use std::alloc::{AllocError, Global};
use std::collections::BTreeMap;

impl DatasetChanges {
    /// The changes of the set's objects, in the order of their numbers. `BadPointer` where one number has both a record and a dead list, which
    /// can't be where they were read and made of a whole set.
    pub fn into_changes(self, alloc: Global) -> Result<Vec<ObjectChange>, Refusal>
        ensures are { IfOk result (λ made. AreChangesOf self made.items) }
        ensures refused { IfErr result (λ refusal. (refusal ≡ Refusal.NoMemory)
            ⊎ ((refusal ≡ Refusal.BadPointer) × AreMixed self)) }
    {
        let DatasetChanges { records, lists, .. } = self;
        let mut plans = record_plans(alloc, records)?;
        plan_lists(alloc, &mut plans, lists)?;
        let made = in_order(alloc, plans)?;
        Ok(made)
    }
}

/// Plans what has to be changed of an object.
fn put_plan(
    plans: &mut BTreeMap<u64, Option<Change>>,
    number: u64,
    plan: Option<Change>,
) -> Result<(), AllocError>
    ensures { OnOk result (Updates nat_cmp plans.old plans.new number (Some plan)) }
{
    plans.insert(number, plan)?;
    Ok(())
}

/// What has to be changed of each object that has a record, by the objects' numbers.
fn record_plans(
    alloc: Global,
    records: BTreeMap<u64, RecordState>,
) -> Result<BTreeMap<u64, Option<Change>>, Refusal>
    requires { FitRecords records }
    ensures are { IfOk result (AreRecordPlans records) }
    ensures refused { IfErr result (λ refusal. refusal ≡ Refusal.NoMemory) }
{
    let mut plans = BTreeMap::new(alloc);
    let mut rest = records;
    while let Some((number, state)) = rest.pop_first() {
        put_plan(&mut plans, number, record_plan(alloc, state)?)?;
    }
    Ok(plans)
}

/// The same of each object that has a dead list, beside what is planned. `BadPointer` where there is a plan for one of them already.
fn plan_lists(
    alloc: Global,
    plans: &mut BTreeMap<u64, Option<Change>>,
    lists: BTreeMap<u64, ListState>,
) -> Result<(), Refusal>
    requires { FitLists lists }
    ensures are { OnOk result (AreListsPlanned lists plans.old plans.new) }
    ensures refused { IfErr result (λ refusal. (refusal ≡ Refusal.NoMemory)
        ⊎ ((refusal ≡ Refusal.BadPointer) × ((number : ℕ)
        × (get nat_cmp plans.old number ≢ None) × (get nat_cmp lists number ≢ None)))) }
{
    let mut rest = lists;
    while let Some((number, state)) = rest.pop_first() {
        if plans.contains_key(&number) {
            return Err(Refusal::BadPointer);
        }
        put_plan(plans, number, list_plan(alloc, state)?)?;
    }
    Ok(())
}

/// The changes that are planned, in the order of their objects' numbers.
fn in_order(
    alloc: Global,
    plans: BTreeMap<u64, Option<Change>>,
) -> Result<Vec<ObjectChange>, AllocError>
    ensures ordered { IsOrdered nat_cmp plans }
    ensures are { IfOk result (λ made. made.items ≡ changes_of plans.entries) }
{
    let mut made = Vec::with_capacity(alloc, plans.len())?;
    let mut rest = plans;
    while let Some((number, plan)) = rest.pop_first() {
        if let Some(change) = plan {
            made.push(ObjectChange { number, change })?;
        }
    }
    Ok(made)
}
