//! What the actions of a group make.
ghost use Rattle.std.specs.Prelude.{◌≡◌, ◌⊎◌, ◌+◌, ◌*◌, ◌<◌, ◌≤◌, false, true, ℕ, List, [], Option, fold, length, OnOk, IfErr};
ghost use Rattle.block_pointer.specs.declared.block.Block.{Block};
ghost use Rattle.block_store.specs.Blocks.{Contents, Extends};
ghost use Rattle.block_store.specs.Causes.{IsCaused};
ghost use Rattle.block_store.specs.Plans.{Plans};
ghost use Rattle.block_store.specs.Steps.{OnlyReadsAndPlans, AnswersTell};
ghost use Rattle.dataset_destroys.specs.Chains.{Reading};
ghost use Rattle.dataset_destroys.specs.States.{AreOfOneSet, birth_of, set_of};
ghost use Rattle.dead_list.specs.Datasets.{Pool};
ghost use Rattle.dnode_tree.specs.Writes.{IsForRoom};
ghost use Rattle.objset.specs.Objects.{Object, AreObjects};
ghost use Rattle.pool_model.specs.Pools.{PlainPool, changed};
ghost use Rattle.volume_rules.specs.GoodChanges.{is_good_making};
ghost use Rattle.dataset_groups.specs.Actions.{AreActed};
ghost use Rattle.dataset_groups.specs.Causes.{IsCloning, LacksNumbers};
ghost use Rattle.dataset_groups.specs.Demands.{IsActionRefused, IsMakingRefused, MakesAll, MakesOne};
ghost use Rattle.dataset_groups.specs.Groups.{SpellsGroup};
ghost use Rattle.dataset_groups.specs.NewVolumes.{AreGoodChanges, numbers_end};
ghost use Rattle.dataset_groups.specs.Touched.{TouchesChange};

use crate::datasets::GroupDatasets;
use block_store::{BlockStore, Refusal};
use model_disk::Disk;
use pool_model::{Action, Change};
use std::alloc::Global;

impl GroupDatasets {
    /// Does these actions, in order: makes volumes, takes snapshots of what volumes are by then, and makes clones of snapshots. A name that is
    /// there already is passed over, and so is a snapshot of a volume, or a clone of a snapshot, that isn't there. Each volume, snapshot and
    /// clone takes two objects, for records and dead lists. `BadConfig` where a name or a size is none that a volume or a snapshot can have,
    /// and for a destroy: a group destroys before its writes, by `destroy_all`; `NoSpace` also where no numbers are left for objects, or a
    /// snapshot's clones can't be counted any more; `BadPointer` where a snapshot's volume has no record of a volume, or a clone's snapshot
    /// none of a snapshot.
    pub fn act_all<D: Disk + Drop>(
        &mut self,
        store: &mut BlockStore<D>,
        alloc: Global,
        group: u64,
        actions: &[Action],
    ) -> Result<(), Refusal>
        requires born { 0 < group }
        requires behind { 4 < self.old.next }
        requires end { self.old.bounds.end ≤ numbers_end }
        ensures steps { OnlyReadsAndPlans store.old store.new [] }
        ensures behind { 4 < self.new.next }
        ensures within { self.old.next ≤ self.old.bounds.end
            → self.new.next ≤ self.old.bounds.end }
        ensures bounds { self.new.bounds ≡ self.old.bounds }
        ensures next { (self.old.next ≤ self.new.next)
            × (self.new.next ≤ self.old.next + 2 * length actions.now) }
        ensures idle { OnOk result (self.new.next ≡ self.old.next → self.new ≡ self.old) }
        ensures one_set { AreOfOneSet self.old.changes self.new.changes }

        // The datasets are those after the actions.
        ensures value { OnOk result ((stored planned : Contents) (objects : ℕ → Option Object)
            (own : List Block) (blocks : ℕ → List Block) (pool : Pool) (readings : ℕ → Reading)
            (plain : PlainPool) → Plans store.old stored planned
            → AreObjects stored (birth_of self.old.changes) (set_of self.old.changes)
            objects own blocks
            → AnswersTell store.old store.new []
            → SpellsGroup planned group objects self.old pool readings plain
            → (later : Contents) × Plans store.new stored later × Extends planned later
            × AreActed group objects planned later self.old self.new pool
            (fold (λ p a. changed group p a.change) plain actions.now)) }

        // Of a refusal for lack of disks or room, the block; or numbers are wanting.
        ensures caused { IfErr result (λ refusal. IsCaused store.old store.new [] refusal
            ⊎ ((refusal ≡ Refusal.NoSpace)
            × LacksNumbers self.old.next self.old.bounds.end actions.now 0)) }
        ensures bad { IfErr result (λ refusal. refusal ≡ Refusal.BadConfig
            → ¬ AreGoodChanges actions.now) }

        // Over disks whose answers tell, and where all may be done, only room is wanting, or disks.
        ensures known { IfErr result (λ refusal. (stored planned : Contents)
            (objects : ℕ → Option Object) (own : List Block) (blocks : ℕ → List Block)
            (pool : Pool) (readings : ℕ → Reading) (plain : PlainPool) → AreGoodChanges actions.now
            → Plans store.old stored planned
            → AreObjects stored (birth_of self.old.changes) (set_of self.old.changes)
            objects own blocks
            → AnswersTell store.old store.new []
            → SpellsGroup planned group objects self.old pool readings plain
            → IsForRoom refusal ⊎ (refusal ≡ Refusal.DiskFault)) }

        // Whatever the datasets are: what is made, which records and lists are touched, what places are taken for, and on a refusal its cause.
        ensures places { OnOk result
            (MakesAll store.old store.new group self.old self.new actions.now) }
        ensures refused { IfErr result (λ refusal. (refusal ≡ Refusal.NoMemory)
            ⊎ IsActionRefused store.old store.new self.old.changes group self.old.directory
            self.old.next self.old.bounds.end actions.now refusal) }
    {
        for action in actions {
            self.act_one(store, alloc, group, &action.change)?;
        }
        Ok(())
    }

    /// Does one action: makes a volume, takes a snapshot, or makes a clone; a destroy is refused.
    fn act_one<D: Disk + Drop>(
        &mut self,
        store: &mut BlockStore<D>,
        alloc: Global,
        group: u64,
        change: &Change,
    ) -> Result<(), Refusal>
        requires born { 0 < group }
        requires behind { 4 < self.old.next }
        requires end { self.old.bounds.end ≤ numbers_end }
        ensures steps { OnlyReadsAndPlans store.old store.new [] }
        ensures behind { 4 < self.new.next }
        ensures within { self.old.next ≤ self.old.bounds.end
            → self.new.next ≤ self.old.bounds.end }
        ensures bounds { self.new.bounds ≡ self.old.bounds }
        ensures next { (self.old.next ≤ self.new.next) × (self.new.next ≤ self.old.next + 2) }
        ensures idle { OnOk result (self.new.next ≡ self.old.next → self.new ≡ self.old) }
        ensures one_set { AreOfOneSet self.old.changes self.new.changes }
        ensures value { OnOk result ((stored planned : Contents) → Plans store.old stored planned
            → AnswersTell store.old store.new []
            → (later : Contents) × Plans store.new stored later × Extends planned later
            × ((objects : ℕ → Option Object) (own : List Block) (blocks : ℕ → List Block)
            (pool : Pool) (readings : ℕ → Reading) (plain : PlainPool)
            → AreObjects stored (birth_of self.old.changes) (set_of self.old.changes)
            objects own blocks
            → SpellsGroup planned group objects self.old pool readings plain
            → AreActed group objects planned later self.old self.new pool
            (changed group plain change.now))) }
        ensures caused { IfErr result (λ refusal. IsCaused store.old store.new [] refusal
            ⊎ ((refusal ≡ Refusal.NoSpace)
            × ((self.old.bounds.end < self.old.next + 2) ⊎ IsCloning change.now))) }
        ensures bad { IfErr result (λ refusal. refusal ≡ Refusal.BadConfig
            → is_good_making change.now ≡ false) }
        ensures known { IfErr result (λ refusal. (stored planned : Contents)
            (objects : ℕ → Option Object) (own : List Block) (blocks : ℕ → List Block)
            (pool : Pool) (readings : ℕ → Reading) (plain : PlainPool)
            → is_good_making change.now ≡ true → Plans store.old stored planned
            → AreObjects stored (birth_of self.old.changes) (set_of self.old.changes)
            objects own blocks
            → AnswersTell store.old store.new []
            → SpellsGroup planned group objects self.old pool readings plain
            → IsForRoom refusal ⊎ (refusal ≡ Refusal.DiskFault)) }
        ensures places { OnOk result
            (MakesOne store.old store.new group self.old self.new change.now) }
        ensures touched { OnOk result ((self.new ≡ self.old)
            ⊎ TouchesChange self.old.changes self.new.changes self.old.directory self.old.next
            change.now) }
        ensures refused { IfErr result (IsMakingRefused store.old store.new self.old.changes group
            self.old.directory [] self.old.next self.old.bounds.end change.now) }
    {
        match change {
            Change::Create {
                name,
                size,
                block_size,
            } => self.create_one(store, alloc, group, name, *size, *block_size),
            Change::Snapshot { volume, part } => self.take_one(store, alloc, group, volume, part),
            Change::Clone { snapshot, name } => {
                self.clone_one(store, alloc, group, snapshot, name)
            }
            Change::Destroy { .. } => Err(Refusal::BadConfig),
        }
    }
}
