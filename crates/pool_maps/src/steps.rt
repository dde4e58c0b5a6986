//! The steps of a plan of space maps.
ghost use Rattle.std.specs.Prelude.{◌≡◌, ◌⊎◌, ◌+◌, ◌/◌, ◌<◌, ◌≤◌, [], ℕ, List, Option, Some, None, false, true, length, slice_get, OnOk, IfOk, IfErr};
ghost use Rattle.block_pointer.specs.declared.block.Block.{Block};
ghost use Rattle.block_store.specs.Blocks.{Contents};
ghost use Rattle.block_store.specs.Causes.{IsCaused};
ghost use Rattle.block_store.specs.Losses.{IsForLoss};
ghost use Rattle.block_store.specs.Releases.{AreReleased, copies_of_all};
ghost use Rattle.block_store.specs.Shapes.{first_meta};
ghost use Rattle.block_store.specs.Spaces.{VdevSpace};
ghost use Rattle.block_store.specs.Steps.{OnlyReadsBlocks, AnswersTell};
ghost use Rattle.block_store.specs.Store.{Holds};
ghost use Rattle.dnode.specs.ObjectSet.{FitsObjectSet};
ghost use Rattle.meta_objset.specs.Reading.{HasSpaceMaps};
ghost use Rattle.meta_objset.specs.SpaceMaps.{LacksMetaslab, maps_kind};
ghost use Rattle.object_table.specs.Ends.{IsEndRefused};
ghost use Rattle.object_table.specs.Shape.{AreRows};
ghost use Rattle.object_table.specs.Tables.{IsOfKind};
ghost use Rattle.objset.specs.Changes.{IsGoodChange, MayChange, after_change};
ghost use Rattle.objset.specs.Objects.{Object, AreObjects};
ghost use Rattle.objset.specs.declared.changes.Change.{Change};
ghost use Rattle.space_map.specs.FreeRuns.{FreeRuns};
ghost use Rattle.space_map_objects.specs.Maps.{HasMap, map_kind};
ghost use Rattle.pool_maps.specs.Maps.{HasMapPlace};
ghost use Rattle.pool_maps.specs.Numbers.{LacksNumbers};
ghost use Rattle.pool_maps.specs.Plans.{Advances, AreAhead, AreAll, AreBelow, AreIn, AreOrdered, AreUnmade};
ghost use Rattle.pool_maps.specs.Plans.{IsMade, IsPutIn, IsRewritten, IsSound, IsStep, IsThat, numbers_end};
ghost use Rattle.pool_maps.specs.Refused.{IsMapRefused, IsSomeRefused, IsTaken};
ghost use Rattle.pool_maps.specs.Updates.{IsSized, LeadsFrom, Says};

use crate::changing::{first_map, update_map};
use crate::putting::put_in;
use crate::update::{Update, update_of};
use block_pointer::Block;
use block_store::{BlockStore, Refusal};
use dnode::ObjectSet;
use meta_objset::{MetaslabMap, MetaslabPlace, SpaceMaps};
use model_disk::Disk;
use objset::{Change, ObjectChange};
use std::alloc::Global;

/// The numbers of objects are below 32 * 128^5.
const NUMBERS_END: u64 = 1 << 40;

/// The number of the object that has the table of the maps.
const SPACE_MAPS: u64 = 4;

/// A table has less than 2^46 bytes of rows.
const MOST_MAPS: usize = 1 << 40;

/// The space maps of a pool as a group's plan goes on.
#[derive(Drop)]
pub(crate) struct MapPlan {
    pub maps: SpaceMaps,
    /// Whether a metaslab got its first map.
    pub grown: bool,
    /// In the order of their objects' numbers.
    pub changes: Vec<ObjectChange>,
    /// The number of the next object that is made.
    pub next: u64,
}

impl MapPlan {
    /// Plans the maps of all vdevs.
    pub fn plan_all<D: Disk + Drop>(
        &mut self,
        set: &ObjectSet,
        store: &mut BlockStore<D>,
        alloc: Global,
        birth: u64,
        gone: &[Block],
    ) -> Result<(), Refusal>
        requires set { FitsObjectSet set.now }
        requires ordered { AreOrdered self.old.changes.items }
        ensures reads { OnlyReadsBlocks store.old store.new [] }
        ensures step { OnOk result (IsStep store.old.spaces gone.now self.old self.new) }
        ensures advances { OnOk result ((stored : Contents) (objects : ℕ → Option Object)
            (own : List Block) (blocks : ℕ → List Block) → Holds store.old stored
            → AreObjects stored birth set.now objects own blocks
            → AnswersTell store.old store.new [] → IsSound store.old.spaces self.old
            → AreUnmade self.old objects
            → Advances objects store.old.spaces gone.now AreAll self.old self.new) }
        ensures known { IfErr result (λ refusal. (stored : Contents)
            (objects : ℕ → Option Object) (own : List Block) (blocks : ℕ → List Block)
            → Holds store.old stored → AreObjects stored birth set.now objects own blocks
            → AnswersTell store.old store.new [] → IsSound store.old.spaces self.old
            → AreUnmade self.old objects → AreBelow self.old
            → AreAhead objects store.old.spaces AreAll self.old
            → (after : List VdevSpace) (group : ℕ)
            → AreReleased store.old.spaces (copies_of_all gone.now) group after
            → IsForLoss refusal ⊎ (refusal ≡ Refusal.NoSpace)) }
        ensures refused { IfErr result (λ refusal. (refusal ≡ Refusal.NoMemory)
            ⊎ IsSomeRefused store.old store.new set.now birth gone.now self.old refusal) }
        ensures caused { IfErr result (λ refusal. IsCaused store.old store.new [] refusal
            ⊎ ((refusal ≡ Refusal.NoSpace) × LacksNumbers store.old.spaces self.old.next)) }
    {
        for vdev in 0..store.vdev_count() {
            self.plan_vdev(set, store, alloc, birth, vdev, gone)?;
        }
        Ok(())
    }

    /// Plans the maps of a vdev: of its metaslabs before the meta region.
    fn plan_vdev<D: Disk + Drop>(
        &mut self,
        set: &ObjectSet,
        store: &mut BlockStore<D>,
        alloc: Global,
        birth: u64,
        vdev: usize,
        gone: &[Block],
    ) -> Result<(), Refusal>
        requires set { FitsObjectSet set.now }
        requires there { vdev < length store.old.spaces }
        requires ordered { AreOrdered self.old.changes.items }
        ensures reads { OnlyReadsBlocks store.old store.new [] }
        ensures step { OnOk result (IsStep store.old.spaces gone.now self.old self.new) }
        ensures advances { OnOk result ((stored : Contents) (objects : ℕ → Option Object)
            (own : List Block) (blocks : ℕ → List Block) → Holds store.old stored
            → AreObjects stored birth set.now objects own blocks
            → AnswersTell store.old store.new [] → IsSound store.old.spaces self.old
            → AreUnmade self.old objects
            → Advances objects store.old.spaces gone.now (AreIn vdev) self.old self.new) }
        ensures known { IfErr result (λ refusal. (stored : Contents)
            (objects : ℕ → Option Object) (own : List Block) (blocks : ℕ → List Block)
            → Holds store.old stored → AreObjects stored birth set.now objects own blocks
            → AnswersTell store.old store.new [] → IsSound store.old.spaces self.old
            → AreUnmade self.old objects → AreBelow self.old
            → AreAhead objects store.old.spaces (AreIn vdev) self.old
            → (after : List VdevSpace) (group : ℕ)
            → AreReleased store.old.spaces (copies_of_all gone.now) group after
            → IsForLoss refusal ⊎ (refusal ≡ Refusal.NoSpace)) }
        ensures refused { IfErr result (λ refusal. (refusal ≡ Refusal.NoMemory)
            ⊎ IsSomeRefused store.old store.new set.now birth gone.now self.old refusal) }
        ensures numbers { OnOk result ((space : VdevSpace)
            → slice_get store.old.spaces vdev ≡ Some space
            → self.new.next ≤ self.old.next + first_meta space.shape) }
        ensures caused { IfErr result (λ refusal. IsCaused store.old store.new [] refusal
            ⊎ ((refusal ≡ Refusal.NoSpace) × ((space : VdevSpace)
            → slice_get store.old.spaces vdev ≡ Some space
            → numbers_end < self.old.next + first_meta space.shape))) }
    {
        let count = store.shape(vdev).first_meta();
        for index in 0..count {
            let place = MetaslabPlace {
                vdev: vdev as u64,
                index,
            };
            self.plan_metaslab(set, store, alloc, birth, place, gone)?;
        }
        Ok(())
    }

    /// Plans the map of a metaslab.
    fn plan_metaslab<D: Disk + Drop>(
        &mut self,
        set: &ObjectSet,
        store: &mut BlockStore<D>,
        alloc: Global,
        birth: u64,
        place: MetaslabPlace,
        gone: &[Block],
    ) -> Result<(), Refusal>
        requires set { FitsObjectSet set.now }
        requires place { HasMapPlace store.old.spaces place }
        requires ordered { AreOrdered self.old.changes.items }
        ensures reads { OnlyReadsBlocks store.old store.new [] }
        ensures step { OnOk result (IsStep store.old.spaces gone.now self.old self.new) }
        ensures advances { OnOk result ((stored : Contents) (objects : ℕ → Option Object)
            (own : List Block) (blocks : ℕ → List Block) → Holds store.old stored
            → AreObjects stored birth set.now objects own blocks
            → AnswersTell store.old store.new [] → IsSound store.old.spaces self.old
            → AreUnmade self.old objects
            → Advances objects store.old.spaces gone.now (IsThat place) self.old self.new) }
        ensures known { IfErr result (λ refusal. (stored : Contents)
            (objects : ℕ → Option Object) (own : List Block) (blocks : ℕ → List Block)
            → Holds store.old stored → AreObjects stored birth set.now objects own blocks
            → AnswersTell store.old store.new [] → IsSound store.old.spaces self.old
            → AreUnmade self.old objects → AreBelow self.old
            → AreAhead objects store.old.spaces (IsThat place) self.old
            → (after : List VdevSpace) (group : ℕ)
            → AreReleased store.old.spaces (copies_of_all gone.now) group after
            → IsForLoss refusal ⊎ (refusal ≡ Refusal.NoSpace)) }
        ensures refused { IfErr result (λ refusal. (refusal ≡ Refusal.NoMemory)
            ⊎ IsMapRefused store.old store.new set.now birth gone.now self.old place refusal) }
        ensures numbers { OnOk result (self.new.next ≤ self.old.next + 1) }
        ensures caused { IfErr result (λ refusal. IsCaused store.old store.new [] refusal
            ⊎ ((refusal ≡ Refusal.NoSpace) × (numbers_end ≤ self.old.next))) }
    {
        let update = update_of(store, alloc, place, gone)?;
        if update.entries.is_empty() {
            return Ok(());
        }
        match self.maps.get(place) {
            Some(map) => self.rewrite(set, store, alloc, birth, map.object, &update),
            None => self.make(alloc, place, &update),
        }
    }

    /// Plans the change of a map that is there, of the object of that number.
    fn rewrite<D: Disk + Drop>(
        &mut self,
        set: &ObjectSet,
        store: &mut BlockStore<D>,
        alloc: Global,
        birth: u64,
        number: u64,
        update: &Update,
    ) -> Result<(), Refusal>
        requires set { FitsObjectSet set.now }
        requires ordered { AreOrdered self.old.changes.items }
        requires rows { AreRows map_kind.rows (length update.now.entries.items / 8)
            update.now.entries.items }
        requires some { 0 < length update.now.entries.items }
        requires sized { IsSized update.now }
        ensures reads { OnlyReadsBlocks store.old store.new [] }
        ensures ordered { OnOk result (AreOrdered self.new.changes.items) }
        ensures value { OnOk result ((change : Change)
            × IsRewritten self.old number change self.new
            × ((stored : Contents) (objects : ℕ → Option Object) (own : List Block)
            (blocks : ℕ → List Block) (before : FreeRuns) → Holds store.old stored
            → AreObjects stored birth set.now objects own blocks
            → AnswersTell store.old store.new []
            → HasMap (objects number) before.sectors before → LeadsFrom before update.now
            → MayChange change (objects number)
            × Says (after_change change (objects number)) update.now)) }
        ensures known { IfErr result (λ refusal. (stored : Contents)
            (objects : ℕ → Option Object) (own : List Block) (blocks : ℕ → List Block)
            (before : FreeRuns) → Holds store.old stored
            → AreObjects stored birth set.now objects own blocks
            → AnswersTell store.old store.new []
            → HasMap (objects number) before.sectors before
            → IsForLoss refusal ⊎ IsTaken self.old.changes.items number) }
        ensures refused { IfErr result (λ refusal. (refusal ≡ Refusal.NoMemory)
            ⊎ (IsEndRefused store.old store.new [] set.now birth map_kind number refusal
            ⊎ ((refusal ≡ Refusal.BadPointer) × IsTaken self.old.changes.items number))) }
        ensures caused { IfErr result (IsCaused store.old store.new []) }
    {
        let change = update_map(set, store, alloc, number, birth, update)?;
        self.put(number, change)
    }

    /// Plans the first map of a metaslab.
    fn make(&mut self, alloc: Global, place: MetaslabPlace, update: &Update) -> Result<(), Refusal>
        requires ordered { AreOrdered self.old.changes.items }
        requires lacks { LacksMetaslab self.old.maps place }
        requires sized { IsSized update.now }
        ensures ordered { OnOk result (AreOrdered self.new.changes.items) }
        ensures made { OnOk result ((change : Change) × IsMade self.old place change self.new
            × MayChange change None
            × Says (after_change change None) update.now) }
        ensures refused { IfErr result (λ refusal. (refusal ≡ Refusal.NoMemory)
            ⊎ (((refusal ≡ Refusal.NoSpace) × (numbers_end ≤ self.old.next))
            ⊎ ((refusal ≡ Refusal.BadPointer) × (self.old.next < numbers_end)
            × IsTaken self.old.changes.items self.old.next))) }
    {
        let object = self.next;
        if object >= NUMBERS_END {
            return Err(Refusal::NoSpace);
        }
        let change = first_map(alloc, update)?;
        self.put(object, change)?;
        let metaslab = place;
        self.maps.set(MetaslabMap { metaslab, object })?;
        self.next = object + 1;
        self.grown = true;
        Ok(())
    }

    /// Puts the change of an object among the others.
    fn put(&mut self, number: u64, change: Change) -> Result<(), Refusal>
        requires ordered { AreOrdered self.old.changes.items }
        requires good { IsGoodChange change }
        ensures ordered { OnOk result (AreOrdered self.new.changes.items) }
        ensures put { OnOk result (IsRewritten self.old number change self.new) }
        ensures refused { IfErr result (λ refusal. (refusal ≡ Refusal.NoMemory)
            ⊎ ((refusal ≡ Refusal.BadPointer) × IsTaken self.old.changes.items number)) }
    {
        if number == 0 || number >= NUMBERS_END {
            return Err(Refusal::BadPointer);
        }
        if put_in(&mut self.changes, ObjectChange { number, change })? {
            return Ok(());
        }
        Err(Refusal::BadPointer)
    }

    /// All changes, with the one that makes the maps' table.
    pub fn with_first_table(mut self, alloc: Global) -> Result<Vec<ObjectChange>, Refusal>
        requires ordered { AreOrdered self.changes.items }
        ensures ordered { IfOk result (λ all. AreOrdered all.items) }
        ensures table { IfOk result (λ all. (change : Change)
            × IsPutIn self.changes.items (record { number = 4; change = change }) all.items
            × MayChange change None × HasSpaceMaps (after_change change None) self.maps) }
        ensures refused { IfErr result (λ refusal. (refusal ≡ Refusal.NoMemory)
            ⊎ ((refusal ≡ Refusal.BadPointer) × IsTaken self.changes.items 4)) }
    {
        if self.maps.rows().len() >= MOST_MAPS {
            return Err(Refusal::NoMemory);
        }
        let Ok(change) = self.maps.creation(alloc) else {
            return Err(Refusal::NoMemory);
        };
        self.put(SPACE_MAPS, change)?;
        Ok(self.changes)
    }

    /// All changes, with that of the maps' table where a metaslab got its first map.
    pub fn with_table(mut self, alloc: Global) -> Result<Vec<ObjectChange>, Refusal>
        requires ordered { AreOrdered self.changes.items }
        ensures ordered { IfOk result (λ all. AreOrdered all.items) }
        ensures same { IfOk result (λ all. self.grown ≡ false → all.items ≡ self.changes.items) }
        ensures table { IfOk result (λ all. self.grown ≡ true → (change : Change)
            × IsPutIn self.changes.items (record { number = 4; change = change }) all.items
            × ((object : Object) → IsOfKind maps_kind object → MayChange change (Some object)
            × HasSpaceMaps (after_change change (Some object)) self.maps)) }
        ensures refused { IfErr result (λ refusal. (refusal ≡ Refusal.NoMemory)
            ⊎ ((refusal ≡ Refusal.BadPointer) × IsTaken self.changes.items 4)) }
    {
        if self.grown {
            if self.maps.rows().len() >= MOST_MAPS {
                return Err(Refusal::NoMemory);
            }
            let Ok(change) = self.maps.replacement(alloc) else {
                return Err(Refusal::NoMemory);
            };
            self.put(SPACE_MAPS, change)?;
        }
        Ok(self.changes)
    }
}
