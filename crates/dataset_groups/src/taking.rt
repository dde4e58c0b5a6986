//! Snapshots that a group takes.
ghost use Rattle.std.specs.Prelude.{◌≡◌, ◌⊎◌, ◌+◌, ◌<◌, ◌≤◌, false, true, ℕ, List, [], Option, None, Contains, OnOk, IfOk, IfErr, IfSome};
ghost use Rattle.block_pointer.specs.declared.block.Block.{Block};
ghost use Rattle.block_store.specs.Blocks.{Contents};
ghost use Rattle.block_store.specs.Causes.{IsCaused};
ghost use Rattle.block_store.specs.Losses.{IsForLoss};
ghost use Rattle.block_store.specs.Steps.{OnlyReadsBlocks, AnswersTell};
ghost use Rattle.block_store.specs.Store.{Holds};
ghost use Rattle.dataset_destroys.specs.Chains.{Reading, SpellsChains};
ghost use Rattle.dataset_destroys.specs.ChainRefused.{IsChainRefused};
ghost use Rattle.dataset_destroys.specs.States.{AreOfOneSet, birth_of, set_of};
ghost use Rattle.dataset_destroys.specs.DatasetChanges.{DatasetChanges};
ghost use Rattle.dead_list.specs.Datasets.{Pool};
ghost use Rattle.dead_list.specs.Operations.{IsHead};
ghost use Rattle.dnode_tree.specs.Writes.{IsForRoom};
ghost use Rattle.meta_objset.specs.declared.directory.DirectoryRow.{DirectoryRow};
ghost use Rattle.meta_objset.specs.declared.record.DatasetKind.TheVariants as kinds;
ghost use Rattle.meta_objset.specs.Directory.{IsDirectory, LacksName};
ghost use Rattle.meta_objset.specs.Names.{IsName, IsNamed};
ghost use Rattle.objset.specs.Objects.{Object, AreObjects};
ghost use Rattle.pool_model.specs.declared.item.Change.TheVariants.{Snapshot};
ghost use Rattle.pool_model.specs.Names.{snapshot_name};
ghost use Rattle.pool_model.specs.Pools.{PlainPool, changed};
ghost use Rattle.volume_rules.specs.GoodChanges.{is_good_making};
ghost use Rattle.dataset_groups.specs.Actions.{AreActed};
ghost use Rattle.dataset_groups.specs.Adding.{IsTaken};
ghost use Rattle.dataset_groups.specs.Demands.{IsMakingRefused, IsNameThere, MakesOne};
ghost use Rattle.dataset_groups.specs.Groups.{SpellsGroup};
ghost use Rattle.dataset_groups.specs.NewVolumes.{numbers_end};
ghost use Rattle.dataset_groups.specs.Touched.{TouchesChange};

use crate::datasets::GroupDatasets;
use block_store::{BlockStore, Refusal};
use dataset_destroys::{NewNumbers, snapshot};
use dead_list::reach_has_each_block_once;
use meta_objset::padded;
use model_disk::Disk;
use pool_model::Name;
use std::alloc::Global;
use volume_rules::is_good_name;

impl GroupDatasets {
    /// Takes a snapshot of a volume, which has this part behind the volume's name. A name that is there already is passed over, and so is a
    /// volume that isn't there. The snapshot takes two objects: its record, and a dead list, which is the volume's from now on. No block of the
    /// volume is read. `BadConfig` where a volume or a part can't have these names; `NoSpace` where no numbers are left for the objects;
    /// `BadPointer` where the volume's object is none of a volume's record.
    pub(crate) fn take_one<D: Disk + Drop>(
        &mut self,
        store: &mut BlockStore<D>,
        alloc: Global,
        group: u64,
        volume: &Name,
        part: &Name,
    ) -> Result<(), Refusal>
        requires born { 0 < group }
        requires behind { 4 < self.old.next }
        requires end { self.old.bounds.end ≤ numbers_end }
        ensures reads { OnlyReadsBlocks store.old store.new [] }
        ensures behind { 4 < self.new.next }
        ensures within { self.old.next ≤ self.old.bounds.end
            → self.new.next ≤ self.old.bounds.end }
        ensures bounds { self.new.bounds ≡ self.old.bounds }
        ensures next { (self.old.next ≤ self.new.next) × (self.new.next ≤ self.old.next + 2) }
        ensures idle { OnOk result (self.new.next ≡ self.old.next → self.new ≡ self.old) }
        ensures one_set { AreOfOneSet self.old.changes self.new.changes }
        ensures value { OnOk result ((stored known : Contents) (objects : ℕ → Option Object)
            (own : List Block) (blocks : ℕ → List Block) (pool : Pool) (readings : ℕ → Reading)
            (plain : PlainPool) → Holds store.old stored
            → AreObjects stored (birth_of self.old.changes) (set_of self.old.changes)
            objects own blocks
            → AnswersTell store.old store.new []
            → SpellsGroup known group objects self.old pool readings plain
            → AreActed group objects known known self.old self.new pool
            (changed group plain (Snapshot volume.now part.now))) }
        ensures caused { IfErr result (λ refusal. IsCaused store.old store.new [] refusal
            ⊎ ((refusal ≡ Refusal.NoSpace) × (self.old.bounds.end < self.old.next + 2))) }
        ensures bad { IfErr result (λ refusal. refusal ≡ Refusal.BadConfig
            → is_good_making (Snapshot volume.now part.now) ≡ false) }
        ensures known { IfErr result (λ refusal. (stored known : Contents)
            (objects : ℕ → Option Object) (own : List Block) (blocks : ℕ → List Block)
            (pool : Pool) (readings : ℕ → Reading) (plain : PlainPool)
            → is_good_making (Snapshot volume.now part.now) ≡ true → Holds store.old stored
            → AreObjects stored (birth_of self.old.changes) (set_of self.old.changes)
            objects own blocks
            → AnswersTell store.old store.new []
            → SpellsGroup known group objects self.old pool readings plain
            → IsForRoom refusal ⊎ (refusal ≡ Refusal.DiskFault)) }
        ensures places { OnOk result (MakesOne store.old store.new group self.old self.new
            (Snapshot volume.now part.now)) }
        ensures touched { OnOk result ((self.new ≡ self.old)
            ⊎ TouchesChange self.old.changes self.new.changes self.old.directory self.old.next
            (Snapshot volume.now part.now)) }
        ensures refused { IfErr result (IsMakingRefused store.old store.new self.old.changes group
            self.old.directory [] self.old.next self.old.bounds.end
            (Snapshot volume.now part.now)) }
    {
        let name = row_name(alloc, volume, part)?;
        if self.directory.get(&name).is_some() {
            return Ok(());
        }
        let Some(head) = self.object_of(volume) else {
            return Ok(());
        };
        if self.bounds.end.saturating_sub(self.next) < 2 {
            return Err(Refusal::NoSpace);
        }
        reach_has_each_block_once();
        self.take(store, alloc, group, head, &name)
    }

    /// Takes a snapshot of a head under a name that the directory hasn't got.
    fn take<D: Disk + Drop>(
        &mut self,
        store: &mut BlockStore<D>,
        alloc: Global,
        group: u64,
        head: u64,
        name: &[u8; 56],
    ) -> Result<(), Refusal>
        requires named { IsName name.now }
        requires lacks { LacksName self.old.directory name.now }
        requires behind { 4 < self.old.next }
        requires numbers { self.old.next + 2 ≤ numbers_end }
        ensures reads { OnlyReadsBlocks store.old store.new [] }
        ensures next { (self.old.next ≤ self.new.next) × (self.new.next ≤ self.old.next + 2) }
        ensures bounds { self.new.bounds ≡ self.old.bounds }
        ensures one_set { AreOfOneSet self.old.changes self.new.changes }
        ensures taken { OnOk result
            (IsTaken store.old store.new group head self.old name.now self.new) }
        ensures caused { IfErr result (IsCaused store.old store.new []) }
        ensures refused { IfErr result (λ refusal. (last : DatasetChanges)
            × IsChainRefused store.old store.new self.old.changes last head kinds.Volume
            refusal) }
        ensures known { IfErr result (λ refusal. (stored known : Contents)
            (objects : ℕ → Option Object) (own : List Block) (blocks : ℕ → List Block)
            (pool : Pool) (readings : ℕ → Reading) → Holds store.old stored
            → AreObjects stored (birth_of self.old.changes) (set_of self.old.changes)
            objects own blocks
            → AnswersTell store.old store.new []
            → SpellsChains known group objects self.old.changes pool readings
            → IsHead pool.datasets head → IsForLoss refusal) }
    {
        let numbers = NewNumbers {
            dataset: self.next,
            dead_list: self.next + 1,
        };
        snapshot(&mut self.changes, store, alloc, head, numbers, group)?;
        self.directory.insert(name, self.next)?;
        self.next += 2;
        Ok(())
    }

    /// The object that the directory has for a name.
    pub(crate) fn object_of(&self, name: &Name) -> Option<u64>
        ensures order { IsDirectory (self.now).directory }
        ensures found { IfSome result (λ object. (row : DirectoryRow)
            × Contains (self.now).directory row × IsNamed row.name name.now
            × (row.object ≡ object)) }
        ensures none { result ≡ None → ¬ IsNameThere (self.now).directory name.now }
    {
        // Each name stands in one row.
        let _rows = self.directory.rows();
        let name = padded(name.as_slice())?;
        self.directory.get(&name)
    }
}

/// The name of a volume's snapshot, padded as in a row. `BadConfig` where a volume or a part can't have these names.
fn row_name(alloc: Global, volume: &Name, part: &Name) -> Result<[u8; 56], Refusal>
    ensures named { IfOk result (λ name. IsNamed name (snapshot_name volume.now part.now)) }
    ensures good { IfOk result (λ name.
        is_good_making (Snapshot volume.now part.now) ≡ true) }
    ensures refused { IfErr result (λ refusal. (refusal ≡ Refusal.NoMemory)
        ⊎ ((refusal ≡ Refusal.BadConfig)
        × (is_good_making (Snapshot volume.now part.now) ≡ false))) }
{
    if !is_good_name(volume) || !is_good_name(part) {
        return Err(Refusal::BadConfig);
    }
    let name = volume.with_part(alloc, part)?;
    padded(name.as_slice()).ok_or(Refusal::BadConfig)
}
