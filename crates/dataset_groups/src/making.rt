//! Volumes that a group makes.
ghost use Rattle.std.specs.Prelude.{◌≡◌, ◌⊎◌, ◌+◌, ◌<◌, ◌≤◌, false, true, ℕ, [], Option, OnOk, IfErr};
ghost use Rattle.block_store.specs.Blocks.{Contents, Extends};
ghost use Rattle.block_store.specs.Causes.{IsCaused};
ghost use Rattle.block_store.specs.Plans.{Plans};
ghost use Rattle.block_store.specs.Steps.{OnlyReadsAndPlans, AnswersTell};
ghost use Rattle.dataset_destroys.specs.Chains.{Reading};
ghost use Rattle.dataset_destroys.specs.States.{AreOfOneSet};
ghost use Rattle.dead_list.specs.Datasets.{Pool};
ghost use Rattle.dnode_tree.specs.Writes.{IsForRoom};
ghost use Rattle.meta_objset.specs.Directory.{LacksName};
ghost use Rattle.meta_objset.specs.Names.{IsName};
ghost use Rattle.meta_objset.specs.Record.{FitsRecord};
ghost use Rattle.objset.specs.Objects.{Object};
ghost use Rattle.pool_model.specs.declared.item.Change.TheVariants.{Create};
ghost use Rattle.pool_model.specs.Pools.{PlainPool, changed};
ghost use Rattle.volume_rules.specs.GoodChanges.{is_good_making};
ghost use Rattle.dataset_groups.specs.Actions.{AreActed};
ghost use Rattle.dataset_groups.specs.Adding.{IsAdded};
ghost use Rattle.dataset_groups.specs.Demands.{IsMakingRefused, MakesOne};
ghost use Rattle.dataset_groups.specs.Groups.{SpellsGroup};
ghost use Rattle.dataset_groups.specs.NewVolumes.{numbers_end};
ghost use Rattle.dataset_groups.specs.Touched.{TouchesNew};

use crate::datasets::GroupDatasets;
use crate::new_volume::NewVolume;
use block_store::{BlockStore, Refusal};
use dataset_destroys::create;
use meta_objset::DatasetRecord;
use model_disk::Disk;
use pool_model::Name;
use std::alloc::Global;

impl GroupDatasets {
    /// Makes a volume of these sizes, in bytes, under a name. A name that is there already is passed over. The volume takes two objects: its
    /// record, and an empty dead list. `BadConfig` where a volume can't have this name or these sizes; `NoSpace` also where no numbers are left
    /// for its objects.
    pub(crate) fn create_one<D: Disk + Drop>(
        &mut self,
        store: &mut BlockStore<D>,
        alloc: Global,
        group: u64,
        name: &Name,
        size: u64,
        block_size: u64,
    ) -> Result<(), Refusal>
        requires born { 0 < group }
        requires behind { 4 < self.old.next }
        requires end { self.old.bounds.end ≤ numbers_end }
        ensures steps { OnlyReadsAndPlans store.old store.new [] }
        ensures behind { 4 < self.new.next }
        ensures within { self.old.next ≤ self.old.bounds.end
            → self.new.next ≤ self.old.bounds.end }
        ensures bounds { self.new.bounds ≡ self.old.bounds }
        ensures next { (self.old.next ≤ self.new.next) × (self.new.next ≤ self.old.next + 2) }
        ensures idle { OnOk result (self.new.next ≡ self.old.next → self.new ≡ self.old) }
        ensures one_set { AreOfOneSet self.old.changes self.new.changes }
        ensures value { OnOk result ((stored planned : Contents) → Plans store.old stored planned
            → AnswersTell store.old store.new []
            → (later : Contents) × Plans store.new stored later × Extends planned later
            × ((objects : ℕ → Option Object) (pool : Pool) (readings : ℕ → Reading)
            (plain : PlainPool) → SpellsGroup planned group objects self.old pool readings plain
            → AreActed group objects planned later self.old self.new pool
            (changed group plain (Create name.now size block_size)))) }
        ensures caused { IfErr result (λ refusal. IsCaused store.old store.new [] refusal
            ⊎ ((refusal ≡ Refusal.NoSpace) × (self.old.bounds.end < self.old.next + 2))) }
        ensures bad { IfErr result (λ refusal. refusal ≡ Refusal.BadConfig
            → is_good_making (Create name.now size block_size) ≡ false) }
        ensures known { IfErr result (λ refusal.
            is_good_making (Create name.now size block_size) ≡ true
            → (stored planned : Contents) → Plans store.old stored planned
            → AnswersTell store.old store.new []
            → IsForRoom refusal ⊎ (refusal ≡ Refusal.DiskFault)) }
        ensures places { OnOk result (MakesOne store.old store.new group self.old self.new
            (Create name.now size block_size)) }
        ensures touched { OnOk result ((self.new ≡ self.old)
            ⊎ TouchesNew self.old.changes self.new.changes self.old.next) }
        ensures refused { IfErr result (IsMakingRefused store.old store.new self.old.changes group
            self.old.directory [] self.old.next self.old.bounds.end
            (Create name.now size block_size)) }
    {
        let new = NewVolume::of(name, size, block_size)?;
        if self.directory.get(&new.name).is_some() {
            return Ok(());
        }
        if self.bounds.end.saturating_sub(self.next) < 2 {
            return Err(Refusal::NoSpace);
        }
        let object_set = new.planned(store, alloc, group)?;
        let dataset = new.record(group, self.next + 1, object_set);
        self.add(alloc, &new.name, &dataset)
    }

    /// Adds a dataset, with an empty dead list, under a name that the directory hasn't got.
    fn add(
        &mut self,
        alloc: Global,
        name: &[u8; 56],
        dataset: &DatasetRecord,
    ) -> Result<(), Refusal>
        requires named { IsName name.now }
        requires lacks { LacksName self.old.directory name.now }
        requires fits { FitsRecord dataset.now }
        requires behind { 4 < self.old.next }
        requires numbers { self.old.next + 2 ≤ numbers_end }
        requires list { (dataset.now).dead_list ≡ self.old.next + 1 }
        ensures one_set { AreOfOneSet self.old.changes self.new.changes }
        ensures bounds { self.new.bounds ≡ self.old.bounds }
        ensures added { OnOk result (IsAdded self.old name.now dataset.now self.new) }
        ensures refused { IfErr result (λ refusal. (refusal ≡ Refusal.NoMemory)
            × (self.new.next ≡ self.old.next)) }
    {
        create(&mut self.changes, alloc, self.next, dataset)?;
        self.directory.insert(name, self.next)?;
        self.next += 2;
        Ok(())
    }
}
