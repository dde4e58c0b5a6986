//! Clones that a group makes.
ghost use Rattle.std.specs.Prelude.{◌≡◌, ◌⊎◌, ◌+◌, ◌<◌, ◌≤◌, false, true, ℕ, List, [], Option, OnOk, IfOk, IfErr};
ghost use Rattle.block_pointer.specs.declared.block.Block.{Block};
ghost use Rattle.block_store.specs.Blocks.{Contents};
ghost use Rattle.block_store.specs.Causes.{IsCaused};
ghost use Rattle.block_store.specs.Losses.{IsForLoss};
ghost use Rattle.block_store.specs.Steps.{OnlyReadsBlocks, AnswersTell};
ghost use Rattle.block_store.specs.Store.{Holds};
ghost use Rattle.dataset_destroys.specs.Chains.{Reading, SpellsChains};
ghost use Rattle.dataset_destroys.specs.ChainRefused.{HasMostClones, IsChainRefused};
ghost use Rattle.dataset_destroys.specs.States.{AreOfOneSet, birth_of, set_of};
ghost use Rattle.dataset_destroys.specs.DatasetChanges.{DatasetChanges};
ghost use Rattle.dead_list.specs.Datasets.{Pool};
ghost use Rattle.dead_list.specs.Operations.{IsSnapshot};
ghost use Rattle.dnode_tree.specs.Writes.{IsForRoom};
ghost use Rattle.meta_objset.specs.declared.record.DatasetKind.TheVariants as kinds;
ghost use Rattle.meta_objset.specs.Directory.{LacksName};
ghost use Rattle.meta_objset.specs.Names.{IsName, IsNamed};
ghost use Rattle.objset.specs.Objects.{Object, AreObjects};
ghost use Rattle.pool_model.specs.declared.item.Change.TheVariants.{Clone};
ghost use Rattle.pool_model.specs.Pools.{PlainPool, changed};
ghost use Rattle.volume_rules.specs.GoodChanges.{is_good_making};
ghost use Rattle.dataset_groups.specs.Actions.{AreActed};
ghost use Rattle.dataset_groups.specs.Adding.{IsCloned};
ghost use Rattle.dataset_groups.specs.Demands.{IsMakingRefused, MakesOne};
ghost use Rattle.dataset_groups.specs.Groups.{SpellsGroup};
ghost use Rattle.dataset_groups.specs.NewVolumes.{numbers_end};
ghost use Rattle.dataset_groups.specs.Touched.{TouchesChange};

use crate::datasets::GroupDatasets;
use block_store::{BlockStore, Refusal};
use dataset_destroys::{NewNumbers, clone};
use dead_list::reach_has_each_block_once;
use meta_objset::padded;
use model_disk::Disk;
use pool_model::Name;
use std::alloc::Global;
use volume_rules::is_good_name;

impl GroupDatasets {
    /// Makes a clone of a snapshot, under a name. A name that is there already is passed over, and so is a snapshot that isn't there. The clone
    /// takes two objects: its record, and an empty dead list. No block of the snapshot is read. `BadConfig` where a snapshot or a clone can't
    /// have these names; `NoSpace` where no numbers are left for the objects, or the snapshot's clones can't be counted any more; `BadPointer`
    /// where the snapshot's object is none of a snapshot's record.
    pub(crate) fn clone_one<D: Disk + Drop>(
        &mut self,
        store: &mut BlockStore<D>,
        alloc: Global,
        group: u64,
        snapshot: &Name,
        name: &Name,
    ) -> Result<(), Refusal>
        requires born { 0 < group }
        requires behind { 4 < self.old.next }
        requires end { self.old.bounds.end ≤ numbers_end }
        ensures reads { OnlyReadsBlocks store.old store.new [] }
        ensures behind { 4 < self.new.next }
        ensures within { self.old.next ≤ self.old.bounds.end
            → self.new.next ≤ self.old.bounds.end }
        ensures bounds { self.new.bounds ≡ self.old.bounds }
        ensures next { (self.old.next ≤ self.new.next) × (self.new.next ≤ self.old.next + 2) }
        ensures idle { OnOk result (self.new.next ≡ self.old.next → self.new ≡ self.old) }
        ensures one_set { AreOfOneSet self.old.changes self.new.changes }
        ensures value { OnOk result ((stored known : Contents) (objects : ℕ → Option Object)
            (own : List Block) (blocks : ℕ → List Block) (pool : Pool) (readings : ℕ → Reading)
            (plain : PlainPool) → Holds store.old stored
            → AreObjects stored (birth_of self.old.changes) (set_of self.old.changes)
            objects own blocks
            → AnswersTell store.old store.new []
            → SpellsGroup known group objects self.old pool readings plain
            → AreActed group objects known known self.old self.new pool
            (changed group plain (Clone snapshot.now name.now))) }
        ensures caused { IfErr result (λ refusal. IsCaused store.old store.new [] refusal
            ⊎ (((refusal ≡ Refusal.NoSpace) × (self.old.bounds.end < self.old.next + 2))
            ⊎ ((origin : ℕ) × HasMostClones self.new.changes origin refusal))) }
        ensures bad { IfErr result (λ refusal. refusal ≡ Refusal.BadConfig
            → is_good_making (Clone snapshot.now name.now) ≡ false) }
        ensures known { IfErr result (λ refusal. (stored known : Contents)
            (objects : ℕ → Option Object) (own : List Block) (blocks : ℕ → List Block)
            (pool : Pool) (readings : ℕ → Reading) (plain : PlainPool)
            → is_good_making (Clone snapshot.now name.now) ≡ true → Holds store.old stored
            → AreObjects stored (birth_of self.old.changes) (set_of self.old.changes)
            objects own blocks
            → AnswersTell store.old store.new []
            → SpellsGroup known group objects self.old pool readings plain
            → IsForRoom refusal ⊎ (refusal ≡ Refusal.DiskFault)) }
        ensures places { OnOk result (MakesOne store.old store.new group self.old self.new
            (Clone snapshot.now name.now)) }
        ensures touched { OnOk result ((self.new ≡ self.old)
            ⊎ TouchesChange self.old.changes self.new.changes self.old.directory self.old.next
            (Clone snapshot.now name.now)) }
        ensures refused { IfErr result (IsMakingRefused store.old store.new self.old.changes group
            self.old.directory [] self.old.next self.old.bounds.end
            (Clone snapshot.now name.now)) }
    {
        let name = name_of_clone(alloc, snapshot, name)?;
        if self.directory.get(&name).is_some() {
            return Ok(());
        }
        let Some(origin) = self.object_of(snapshot) else {
            return Ok(());
        };
        if self.bounds.end.saturating_sub(self.next) < 2 {
            return Err(Refusal::NoSpace);
        }
        reach_has_each_block_once();
        self.clone_as(store, alloc, group, origin, &name)
    }

    /// Makes a clone of a snapshot under a name that the directory hasn't got.
    fn clone_as<D: Disk + Drop>(
        &mut self,
        store: &mut BlockStore<D>,
        alloc: Global,
        group: u64,
        origin: u64,
        name: &[u8; 56],
    ) -> Result<(), Refusal>
        requires named { IsName name.now }
        requires lacks { LacksName self.old.directory name.now }
        requires behind { 4 < self.old.next }
        requires numbers { self.old.next + 2 ≤ numbers_end }
        ensures reads { OnlyReadsBlocks store.old store.new [] }
        ensures next { (self.old.next ≤ self.new.next) × (self.new.next ≤ self.old.next + 2) }
        ensures bounds { self.new.bounds ≡ self.old.bounds }
        ensures one_set { AreOfOneSet self.old.changes self.new.changes }
        ensures cloned { OnOk result
            (IsCloned store.old store.new group origin self.old name.now self.new) }
        ensures caused { IfErr result (λ refusal. IsCaused store.old store.new [] refusal
            ⊎ HasMostClones self.new.changes origin refusal) }
        ensures refused { IfErr result (λ refusal. (last : DatasetChanges)
            × (HasMostClones last origin refusal
            ⊎ IsChainRefused store.old store.new self.old.changes last origin kinds.Snapshot
            refusal)) }
        ensures known { IfErr result (λ refusal. (stored known : Contents)
            (objects : ℕ → Option Object) (own : List Block) (blocks : ℕ → List Block)
            (pool : Pool) (readings : ℕ → Reading) → Holds store.old stored
            → AreObjects stored (birth_of self.old.changes) (set_of self.old.changes)
            objects own blocks
            → AnswersTell store.old store.new []
            → SpellsChains known group objects self.old.changes pool readings
            → IsSnapshot pool.datasets origin
            → IsForLoss refusal ⊎ (refusal ≡ Refusal.NoSpace)) }
    {
        let numbers = NewNumbers {
            dataset: self.next,
            dead_list: self.next + 1,
        };
        clone(&mut self.changes, store, alloc, origin, numbers, group)?;
        self.directory.insert(name, self.next)?;
        self.next += 2;
        Ok(())
    }
}

/// The name of a clone, padded as in a row. `BadConfig` where a snapshot or a clone can't have these names.
fn name_of_clone(alloc: Global, snapshot: &Name, name: &Name) -> Result<[u8; 56], Refusal>
    ensures named { IfOk result (λ padded. IsNamed padded name.now) }
    ensures good { IfOk result (λ padded.
        is_good_making (Clone snapshot.now name.now) ≡ true) }
    ensures refused { IfErr result (λ refusal. (refusal ≡ Refusal.NoMemory)
        ⊎ ((refusal ≡ Refusal.BadConfig)
        × (is_good_making (Clone snapshot.now name.now) ≡ false))) }
{
    let volume = snapshot.volume_part(alloc)?;
    if !snapshot.is_of_snapshot() || !is_good_name(&volume) || !is_good_name(name) {
        return Err(Refusal::BadConfig);
    }
    padded(name.as_slice()).ok_or(Refusal::BadConfig)
}
