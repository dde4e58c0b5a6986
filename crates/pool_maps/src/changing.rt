//! The change of a metaslab's map.
ghost use Rattle.std.specs.Prelude.{◌≡◌, ◌⊎◌, ◌+◌, ◌*◌, ◌/◌, ◌<◌, ◌≤◌, [], ℕ, List, Option, None, length, IfOk, IfErr};
ghost use Rattle.block_pointer.specs.declared.block.Block.{Block};
ghost use Rattle.block_store.specs.Blocks.{Contents};
ghost use Rattle.block_store.specs.Causes.{IsCaused};
ghost use Rattle.block_store.specs.Losses.{IsForLoss};
ghost use Rattle.block_store.specs.Steps.{OnlyReadsBlocks, AnswersTell};
ghost use Rattle.block_store.specs.Store.{Holds};
ghost use Rattle.dnode.specs.ObjectSet.{FitsObjectSet};
ghost use Rattle.object_table.specs.Ends.{IsEndOf, IsEndRefused};
ghost use Rattle.object_table.specs.Shape.{AreRows};
ghost use Rattle.object_table.specs.Tables.{HasTable};
ghost use Rattle.objset.specs.Changes.{IsGoodChange, MayChange, after_change};
ghost use Rattle.objset.specs.Objects.{Object, AreObjects};
ghost use Rattle.space_map.specs.Allocated.{gaps_of};
ghost use Rattle.space_map.specs.FreeRuns.{FreeRuns};
ghost use Rattle.space_map_objects.specs.Maps.{HasMap, map_kind};
ghost use Rattle.pool_maps.specs.Refused.{of_map};
ghost use Rattle.pool_maps.specs.Updates.{IsSized, LeadsFrom, Says};

use crate::update::Update;
use block_store::{BlockStore, Refusal};
use dnode::ObjectSet;
use model_disk::Disk;
use object_table::TableEnd;
use objset::Change;
use space_map::wants_condensing;
use space_map_objects::{creation, extension, read_map_end, replacement};
use std::alloc::Global;

/// The change by which the object of a map comes to say the update. The set's blocks were born in the transaction group `birth` or
/// before.
pub(crate) fn update_map<D: Disk + Drop>(
    set: &ObjectSet,
    store: &mut BlockStore<D>,
    alloc: Global,
    number: u64,
    birth: u64,
    update: &Update,
) -> Result<Change, Refusal>
    requires set { FitsObjectSet set.now }
    requires sized { IsSized update.now }
    requires rows { AreRows map_kind.rows (length update.now.entries.items / 8)
        update.now.entries.items }
    requires some { 0 < length update.now.entries.items }
    ensures reads { OnlyReadsBlocks store.old store.new [] }
    ensures good { IfOk result IsGoodChange }
    ensures value { IfOk result (λ change. (stored : Contents) (objects : ℕ → Option Object)
        (own : List Block) (blocks : ℕ → List Block) (before : FreeRuns)
        → Holds store.old stored → AreObjects stored birth set.now objects own blocks
        → AnswersTell store.old store.new [] → HasMap (objects number) before.sectors before
        → LeadsFrom before update.now → MayChange change (objects number)
        × Says (after_change change (objects number)) update.now) }
    ensures refused { IfErr result (λ refusal. (refusal ≡ Refusal.NoMemory)
        ⊎ IsEndRefused store.old store.new [] set.now birth map_kind number refusal) }
    ensures caused { IfErr result (IsCaused store.old store.new []) }
    ensures known { IfErr result (λ refusal. (stored : Contents) (objects : ℕ → Option Object)
        (own : List Block) (blocks : ℕ → List Block) (before : FreeRuns)
        → Holds store.old stored → AreObjects stored birth set.now objects own blocks
        → AnswersTell store.old store.new [] → HasMap (objects number) before.sectors before
        → IsForLoss refusal) }
{
    match read_map_end(set, store, alloc, number, birth, &[]) {
        Ok(end) => change_of(alloc, &end, update),
        Err(refusal) => Err(of_map(refusal)),
    }
}

/// The change of a map of which this is the end: entries behind those that it has, or the shortest map, where it would have more than
/// two for each run of allocated sectors, and 64.
fn change_of(alloc: Global, end: &TableEnd, update: &Update) -> Result<Change, Refusal>
    requires sized { IsSized update.now }
    requires rows { AreRows map_kind.rows (length update.now.entries.items / 8)
        update.now.entries.items }
    requires some { 0 < length update.now.entries.items }
    ensures good { IfOk result IsGoodChange }
    ensures value { IfOk result (λ change. (object : Option Object) (before : FreeRuns)
        → ((bytes : List ℕ) → HasTable map_kind object bytes
        → IsEndOf map_kind object bytes end.now)
        → HasMap object before.sectors before → LeadsFrom before update.now
        → MayChange change object
        × Says (after_change change object) update.now) }
    ensures refused { IfErr result (λ refusal. refusal ≡ Refusal.NoMemory) }
{
    let added = update.entries.len() / 8;
    let Some(entries) = (end.rows as usize).checked_add(added) else {
        return shortest_map(alloc, update);
    };
    if wants_condensing(entries, &update.free) {
        return shortest_map(alloc, update);
    }
    more_entries(alloc, end, update)
}

/// The change that gives a map's object the shortest map of what is free.
fn shortest_map(alloc: Global, update: &Update) -> Result<Change, Refusal>
    requires { IsSized update.now }
    ensures good { IfOk result IsGoodChange }
    ensures value { IfOk result (λ change. (object : Option Object) (before : FreeRuns)
        → HasMap object before.sectors before → MayChange change object
        × Says (after_change change object) update.now) }
    ensures refused { IfErr result (λ refusal. refusal ≡ Refusal.NoMemory) }
{
    match replacement(alloc, &update.free) {
        Ok(change) => Ok(change),
        Err(_) => Err(Refusal::NoMemory),
    }
}

/// The change that adds the update's entries to a map.
fn more_entries(alloc: Global, end: &TableEnd, update: &Update) -> Result<Change, Refusal>
    requires rows { AreRows map_kind.rows (length update.now.entries.items / 8)
        update.now.entries.items }
    requires some { 0 < length update.now.entries.items }
    requires few { end.now.rows + length update.now.entries.items / 8
        ≤ 2 * length (gaps_of update.now.free) + 64 }
    ensures good { IfOk result IsGoodChange }
    ensures value { IfOk result (λ change. (object : Option Object) (before : FreeRuns)
        → ((bytes : List ℕ) → HasTable map_kind object bytes
        → IsEndOf map_kind object bytes end.now)
        → HasMap object before.sectors before → LeadsFrom before update.now
        → MayChange change object
        × Says (after_change change object) update.now) }
    ensures refused { IfErr result (λ refusal. refusal ≡ Refusal.NoMemory) }
{
    match extension(alloc, end, &update.entries) {
        Ok(change) => Ok(change),
        Err(_) => Err(Refusal::NoMemory),
    }
}

/// The change that makes the object of a metaslab's first map, which is the shortest one of what is free.
pub(crate) fn first_map(alloc: Global, update: &Update) -> Result<Change, Refusal>
    requires { IsSized update.now }
    ensures good { IfOk result IsGoodChange }
    ensures may { IfOk result (λ change. MayChange change None) }
    ensures value { IfOk result (λ change.
        Says (after_change change None) update.now) }
    ensures refused { IfErr result (λ refusal. refusal ≡ Refusal.NoMemory) }
{
    match creation(alloc, &update.free) {
        Ok(change) => Ok(change),
        Err(_) => Err(Refusal::NoMemory),
    }
}

/// What is answered where a map is not read.
fn of_map(refusal: space_map_objects::Refusal) -> Refusal
    ensures { result ≡ of_map refusal }
{
    match refusal {
        space_map_objects::Refusal::NoMemory => Refusal::NoMemory,
        space_map_objects::Refusal::BadMap => Refusal::BadPointer,
        space_map_objects::Refusal::Unread(why) => why,
    }
}
