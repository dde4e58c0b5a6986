//! The change of an object that a record or a dead list comes to.
ghost use Rattle.std.specs.Prelude.{◌≡◌, IfOk, IfErr, Some, None, All};
ghost use Rattle.block_pointer.specs.Block.{FitsBlock};
ghost use Rattle.dataset_changes.specs.Fitting.{FitsListState, FitsRecordState};
ghost use Rattle.dataset_changes.specs.Planned.{ServesList, ServesRecord};
ghost use Rattle.dataset_changes.specs.declared.states.ListState.TheVariants as lists;

use crate::states::{ListState, RecordState};
use block_store::Refusal;
use dead_list::DeadList;
use object_table::TableEnd;
use objset::Change;
use std::alloc::Global;

/// What has to be changed of an object for what became of its record: nothing where it was only read.
pub(crate) fn record_plan(alloc: Global, state: RecordState) -> Result<Option<Change>, Refusal>
    requires { FitsRecordState state }
    ensures serves { IfOk result (ServesRecord state) }
    ensures refused { IfErr result (λ refusal. refusal ≡ Refusal.NoMemory) }
{
    match state {
        RecordState::Read(_) => Ok(None),
        RecordState::Changed(dataset) => {
            let change = meta_objset::record_change(alloc, &dataset)?;
            Ok(Some(change))
        }
        RecordState::Made(dataset) => {
            let change = meta_objset::record_creation(alloc, &dataset)?;
            Ok(Some(change))
        }
        RecordState::Gone => Ok(Some(Change::Free)),
    }
}

/// The same of a dead list: nothing where no blocks were added.
pub(crate) fn list_plan(alloc: Global, state: ListState) -> Result<Option<Change>, Refusal>
    requires { FitsListState state }
    ensures serves { IfOk result (ServesList state) }
    ensures refused { IfErr result (λ refusal. refusal ≡ Refusal.NoMemory) }
{
    match state {
        ListState::Added { end, blocks } => added_plan(alloc, end, blocks),
        ListState::Whole(list) => whole_plan(alloc, list),
        ListState::Made(list) => made_plan(alloc, list),
        ListState::Gone => Ok(Some(Change::Free)),
    }
}

fn added_plan(alloc: Global, end: TableEnd, blocks: DeadList) -> Result<Option<Change>, Refusal>
    requires { All FitsBlock blocks }
    ensures serves { IfOk result (ServesList (lists.Added end blocks)) }
    ensures refused { IfErr result (λ refusal. refusal ≡ Refusal.NoMemory) }
{
    if blocks.is_empty() {
        return Ok(None);
    }
    let added = blocks.into_blocks()?;
    match dead_list_objects::extension(alloc, &end, &added) {
        Ok(change) => Ok(Some(change)),
        Err(_) => Err(Refusal::NoMemory),
    }
}

fn whole_plan(alloc: Global, list: DeadList) -> Result<Option<Change>, Refusal>
    requires { All FitsBlock list }
    ensures serves { IfOk result (ServesList (lists.Whole list)) }
    ensures refused { IfErr result (λ refusal. refusal ≡ Refusal.NoMemory) }
{
    match dead_list_objects::replacement(alloc, &list) {
        Ok(change) => Ok(Some(change)),
        Err(_) => Err(Refusal::NoMemory),
    }
}

fn made_plan(alloc: Global, list: DeadList) -> Result<Option<Change>, Refusal>
    requires { All FitsBlock list }
    ensures serves { IfOk result (ServesList (lists.Made list)) }
    ensures refused { IfErr result (λ refusal. refusal ≡ Refusal.NoMemory) }
{
    match dead_list_objects::creation(alloc, &list) {
        Ok(change) => Ok(Some(change)),
        Err(_) => Err(Refusal::NoMemory),
    }
}
