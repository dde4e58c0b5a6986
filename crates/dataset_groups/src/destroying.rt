//! Datasets that a group destroys.
ghost use Rattle.std.specs.Prelude.{◌≡◌, ◌↔◌, ◌++◌, ◌∷◌, [], ℕ, List, Option, Any, IsTrue, OnOk, IfOk, IfErr};
ghost use Rattle.block_pointer.specs.declared.block.Block.{Block};
ghost use Rattle.block_store.specs.Blocks.{Contents};
ghost use Rattle.block_store.specs.Causes.{IsCaused};
ghost use Rattle.block_store.specs.Losses.{IsForLoss};
ghost use Rattle.block_store.specs.Steps.{OnlyReadsBlocks, AnswersTell};
ghost use Rattle.block_store.specs.Store.{Holds};
ghost use Rattle.dataset_destroys.specs.Chains.{Reading};
ghost use Rattle.dataset_destroys.specs.States.{AreOfOneSet, birth_of, set_of};
ghost use Rattle.dead_list.specs.Datasets.{Pool};
ghost use Rattle.meta_objset.specs.Directory.{IsDirectory, IsWithout};
ghost use Rattle.objset.specs.Objects.{Object, AreObjects};
ghost use Rattle.pool_model.specs.Pools.{MayBeDestroyed, PlainPool, all_destroyed, destroyed};
ghost use Rattle.dataset_groups.specs.Demands.{IsNameThere};
ghost use Rattle.dataset_groups.specs.Destroys.{AreDestroyed, AreDestroysRefused, DestroysAll, DestroysOne, HasAtMost};
ghost use Rattle.dataset_groups.specs.Groups.{SpellsGroup};

use crate::datasets::GroupDatasets;
use block_pointer::Block;
use block_store::{BlockStore, Refusal};
use dataset_destroys::destroy;
use dead_list::reach_has_each_block_once;
use meta_objset::padded;
use model_disk::Disk;
use pool_model::Name;
use std::alloc::Global;

impl GroupDatasets {
    /// Destroys the volumes and snapshots of these names, in order, before anything else is made of the group. A name that isn't there is passed
    /// over. The blocks that nothing reaches any more come behind those in `freed`. Of a volume those blocks are read that were born after the
    /// snapshot before it, at most `most` of them; of a snapshot two dead lists are read. `true` where a name went. `BadPointer` where a volume has
    /// snapshots of its own, or a snapshot clones, and where a record, a dead list or a volume's tree is none.
    ///
    /// After an error `freed` is perhaps changed in part too.
    pub fn destroy_all<D: Disk + Drop>(
        &mut self,
        store: &mut BlockStore<D>,
        alloc: Global,
        group: u64,
        most: u64,
        names: &[Name],
        freed: &mut Vec<Block>,
    ) -> Result<bool, Refusal>
        ensures reads { OnlyReadsBlocks store.old store.new [] }
        ensures one_set { AreOfOneSet self.old.changes self.new.changes }

        // The datasets are those without these names, where each may be destroyed in its turn.
        ensures value { OnOk result ((stored : Contents) (objects : ℕ → Option Object)
            (own : List Block) (blocks : ℕ → List Block) (pool : Pool) (readings : ℕ → Reading)
            (plain : PlainPool) → Holds store.old stored
            → AreObjects stored (birth_of self.old.changes) (set_of self.old.changes)
            objects own blocks
            → AnswersTell store.old store.new []
            → SpellsGroup stored group objects self.old pool readings plain
            → MayBeDestroyed names.now plain
            → (gone : List Block) × (freed.new.items ≡ freed.old.items ++ gone)
            × AreDestroyed group objects stored self.old self.new pool readings
            (all_destroyed names.now plain) gone) }
        ensures behind { OnOk result ((gone : List Block)
            × (freed.new.items ≡ freed.old.items ++ gone)) }
        ensures renamed { IfOk result (λ renamed. IsTrue renamed
            ↔ Any (IsNameThere self.old.directory) names.now) }

        // Of a refusal for lack of disks or room, the block.
        ensures caused { IfErr result (IsCaused store.old store.new []) }

        // And over disks whose answers tell only memory is wanting, or disks.
        ensures known { IfErr result (λ refusal. (stored : Contents) (objects : ℕ → Option Object)
            (own : List Block) (blocks : ℕ → List Block) (pool : Pool) (readings : ℕ → Reading)
            (plain : PlainPool) → Holds store.old stored
            → AreObjects stored (birth_of self.old.changes) (set_of self.old.changes)
            objects own blocks
            → AnswersTell store.old store.new []
            → SpellsGroup stored group objects self.old pool readings plain
            → MayBeDestroyed names.now plain → HasAtMost pool most → IsForLoss refusal) }

        // Whatever the datasets are: which are destroyed, and which records and lists are touched; on a refusal its cause.
        ensures which { OnOk result (DestroysAll self.old self.new names.now) }
        ensures refused { IfErr result
            (AreDestroysRefused store.old store.new self.old group most names.now) }
    {
        let mut renamed = false;
        for name in names {
            if self.destroy_one(store, alloc, group, most, name, freed)? {
                renamed = true;
            }
        }
        Ok(renamed)
    }

    /// Destroys the volume or snapshot of that name. `false` where there is none.
    fn destroy_one<D: Disk + Drop>(
        &mut self,
        store: &mut BlockStore<D>,
        alloc: Global,
        group: u64,
        most: u64,
        name: &Name,
        freed: &mut Vec<Block>,
    ) -> Result<bool, Refusal>
        ensures reads { OnlyReadsBlocks store.old store.new [] }
        ensures one_set { AreOfOneSet self.old.changes self.new.changes }
        ensures value { OnOk result ((stored : Contents) (objects : ℕ → Option Object)
            (own : List Block) (blocks : ℕ → List Block) (pool : Pool) (readings : ℕ → Reading)
            (plain : PlainPool) → Holds store.old stored
            → AreObjects stored (birth_of self.old.changes) (set_of self.old.changes)
            objects own blocks
            → AnswersTell store.old store.new []
            → SpellsGroup stored group objects self.old pool readings plain
            → MayBeDestroyed (name.now ∷ []) plain
            → (gone : List Block) × (freed.new.items ≡ freed.old.items ++ gone)
            × AreDestroyed group objects stored self.old self.new pool readings
            (destroyed name.now plain) gone) }
        ensures behind { OnOk result ((gone : List Block)
            × (freed.new.items ≡ freed.old.items ++ gone)) }
        ensures there { IfOk result (λ there. IsTrue there
            ↔ IsNameThere self.old.directory name.now) }
        ensures caused { IfErr result (IsCaused store.old store.new []) }
        ensures known { IfErr result (λ refusal. (stored : Contents) (objects : ℕ → Option Object)
            (own : List Block) (blocks : ℕ → List Block) (pool : Pool) (readings : ℕ → Reading)
            (plain : PlainPool) → Holds store.old stored
            → AreObjects stored (birth_of self.old.changes) (set_of self.old.changes)
            objects own blocks
            → AnswersTell store.old store.new []
            → SpellsGroup stored group objects self.old pool readings plain
            → MayBeDestroyed (name.now ∷ []) plain → HasAtMost pool most → IsForLoss refusal) }
        ensures which { OnOk result (DestroysOne self.old self.new name.now) }
        ensures refused { IfErr result
            (AreDestroysRefused store.old store.new self.old group most (name.now ∷ [])) }
    {
        let Some(padded) = padded(name.as_slice()) else {
            return Ok(false);
        };
        let Some(object) = self.directory.get(&padded) else {
            return Ok(false);
        };
        let mut left = most;
        reach_has_each_block_once();
        destroy(
            &mut self.changes,
            store,
            alloc,
            object,
            group,
            &mut left,
            freed,
        )?;
        self.remove_row(&padded);
        Ok(true)
    }

    /// Takes the row of a name out, padded as in a row. The names ascend before that and after.
    fn remove_row(&mut self, name: &[u8; 56])
        ensures order { IsDirectory self.old.directory × IsDirectory self.new.directory }
        ensures rows { IsWithout self.old.directory name.now self.new.directory }
        ensures others { (self.new.changes ≡ self.old.changes) × (self.new.next ≡ self.old.next) }
        ensures bounds { self.new.bounds ≡ self.old.bounds }
    {
        let _rows = self.directory.rows();
        self.directory.remove(name);
        let _rows = self.directory.rows();
    }
}
