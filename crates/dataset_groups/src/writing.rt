//! Heads that a group writes to.
ghost use Rattle.std.specs.Prelude.{◌≡◌, ◌≤◌, ◌<◌, ◌++◌, ◌∷◌, ◌⊎◌, [], ℕ, List, Option, All, OnOk, IfErr, fold};
ghost use Rattle.block_pointer.specs.declared.block.Block.{Block};
ghost use Rattle.block_store.specs.Blocks.{Contents, Extends};
ghost use Rattle.block_store.specs.Causes.{IsCaused};
ghost use Rattle.block_store.specs.Plans.{Plans};
ghost use Rattle.block_store.specs.Steps.{OnlyReadsAndPlans, AnswersTell};
ghost use Rattle.dataset_destroys.specs.Chains.{Reading, SpellsChains};
ghost use Rattle.dataset_destroys.specs.ChainTouched.{KeepsDeadLists};
ghost use Rattle.dataset_destroys.specs.States.{AreOfOneSet, birth_of, set_of};
ghost use Rattle.dead_list.specs.Datasets.{Pool};
ghost use Rattle.dnode_tree.specs.Writes.{IsForRoom};
ghost use Rattle.objset.specs.Objects.{Object, AreObjects};
ghost use Rattle.pool_model.specs.declared.item.Write.{Write};
ghost use Rattle.pool_model.specs.Pools.{PlainPool, written as pool_written};
ghost use Rattle.dataset_groups.specs.Demands.{AreHeadsRefused, HasHeadDemands, HavePlacesFor};
ghost use Rattle.dataset_groups.specs.Groups.{SpellsGroup};
ghost use Rattle.dataset_groups.specs.Heads.{HasHeadPlaces, IsHeadRefused, IsHeadWritten, IsWrittenTo};
ghost use Rattle.dataset_groups.specs.Leaving.{AddsData, IsReachExchanged};
ghost use Rattle.dataset_groups.specs.Names.{reach_by};
ghost use Rattle.dataset_groups.specs.Touched.{TouchesHeads};
ghost use Rattle.dataset_groups.specs.Writing.{AreWritten, FitsHead, numbers_of};

use crate::datasets::GroupDatasets;
use block_pointer::Block;
use block_store::{BlockStore, Refusal};
use dataset_destroys::{RewrittenHead, overwrite};
use dead_list::reach_has_each_block_once;
use model_disk::Disk;
use std::alloc::Global;
use std::collections::VecDeque;
use volume::{BlockWrite, VolumeSet};

/// A head that a group writes to.
#[derive(Drop)]
pub struct WrittenHead {
    /// Of the object of its record.
    pub number: u64,
    /// Its data before the group.
    pub volume: VolumeSet,
    /// The blocks that the writes change, whole, with their bytes after them.
    pub blocks: Vec<BlockWrite>,
}

impl GroupDatasets {
    /// Plans these heads with their blocks in the transaction group `group`, one after the other, and changes their records. Of the blocks that
    /// gave way to others those are freed that were born after the snapshot before the head: they come behind those in `freed`. The others join
    /// the head's dead list. `BadPointer` where a head's volume or record is none.
    pub fn write_all<D: Disk + Drop>(
        &mut self,
        store: &mut BlockStore<D>,
        alloc: Global,
        group: u64,
        written: Vec<WrittenHead>,
        freed: &mut Vec<Block>,
    ) -> Result<(), Refusal>
        requires born { 0 < group }
        requires fits { All FitsHead written.items }
        ensures steps { OnlyReadsAndPlans store.old store.new [] }
        ensures directory { self.new.directory ≡ self.old.directory }
        ensures next { self.new.next ≡ self.old.next }
        ensures bounds { self.new.bounds ≡ self.old.bounds }
        ensures one_set { AreOfOneSet self.old.changes self.new.changes }
        ensures behind { OnOk result ((gone : List Block)
            × (freed.new.items ≡ freed.old.items ++ gone)) }

        // Where these are the heads that writes are to, the datasets are those after the writes. What is freed are the blocks that were reached
        // before and aren't any more; what is planned is what is reached besides.
        ensures value { OnOk result ((stored planned : Contents) (bound : ℕ)
            (objects : ℕ → Option Object) (own : List Block) (blocks : ℕ → List Block)
            (pool : Pool) (readings : ℕ → Reading) (plain : PlainPool) (writes : List Write)
            → Plans store.old stored planned
            → AreObjects stored (birth_of self.old.changes) (set_of self.old.changes)
            objects own blocks
            → AnswersTell store.old store.new [] → bound ≤ group
            → SpellsGroup planned group objects self.old pool readings plain
            → AreWritten stored bound pool readings self.old.directory writes written.items
            → (later : Contents) × Plans store.new stored later × Extends planned later
            × (new : Pool) × (now : ℕ → Reading)
            × SpellsGroup later group objects self.new new now (fold pool_written plain writes)
            × (gone : List Block) × (freed.new.items ≡ freed.old.items ++ gone)
            × IsReachExchanged group planned later (reach_by pool self.old.directory)
            (reach_by new self.old.directory) gone × AddsData planned later) }

        // Of a refusal for lack of disks or room, the block.
        ensures caused { IfErr result (IsCaused store.old store.new []) }

        // Over disks whose answers tell only room is wanting, or disks.
        ensures known { IfErr result (λ refusal. (stored planned : Contents) (bound : ℕ)
            (objects : ℕ → Option Object) (own : List Block) (blocks : ℕ → List Block)
            (pool : Pool) (readings : ℕ → Reading) (plain : PlainPool) (writes : List Write)
            → Plans store.old stored planned
            → AreObjects stored (birth_of self.old.changes) (set_of self.old.changes)
            objects own blocks
            → AnswersTell store.old store.new [] → bound ≤ group
            → SpellsGroup planned group objects self.old pool readings plain
            → AreWritten stored bound pool readings self.old.directory writes written.items
            → IsForRoom refusal ⊎ (refusal ≡ Refusal.DiskFault)) }

        // Whatever the heads are: which records and lists are changed, what places are taken for, and on a refusal its cause.
        ensures touched { OnOk result
            (TouchesHeads self.old.changes self.new.changes (numbers_of written.items)) }
        ensures places { OnOk result (HavePlacesFor store.old store.new
            (HasHeadDemands store.old.spaces group) written.items) }
        ensures refused { IfErr result
            (AreHeadsRefused store.old store.new self.old.changes group written.items) }
    {
        let mut left = VecDeque::from_vec(written);
        'writing: while let Some(head) = left.pop_front() {
            self.write(store, alloc, group, head, freed)?;
        }
        reach_has_each_block_once();
        Ok(())
    }

    /// Plans one of them.
    fn write<D: Disk + Drop>(
        &mut self,
        store: &mut BlockStore<D>,
        alloc: Global,
        group: u64,
        head: WrittenHead,
        freed: &mut Vec<Block>,
    ) -> Result<(), Refusal>
        requires born { 0 < group }
        requires fits { FitsHead head }
        ensures steps { OnlyReadsAndPlans store.old store.new [] }
        ensures directory { self.new.directory ≡ self.old.directory }
        ensures next { self.new.next ≡ self.old.next }
        ensures bounds { self.new.bounds ≡ self.old.bounds }
        ensures one_set { AreOfOneSet self.old.changes self.new.changes }
        ensures behind { OnOk result ((gone : List Block)
            × (freed.new.items ≡ freed.old.items ++ gone)) }
        ensures value { OnOk result ((stored planned : Contents) (bound : ℕ)
            (objects : ℕ → Option Object) (own : List Block) (blocks : ℕ → List Block)
            (pool : Pool) (readings : ℕ → Reading) (array : List ℕ)
            → Plans store.old stored planned
            → AreObjects stored (birth_of self.old.changes) (set_of self.old.changes)
            objects own blocks
            → AnswersTell store.old store.new [] → bound ≤ group
            → SpellsChains planned group objects self.old.changes pool readings
            → IsWrittenTo stored bound pool readings head array
            → (later : Contents) × Plans store.new stored later × Extends planned later
            × (gone : List Block) × (freed.new.items ≡ freed.old.items ++ gone)
            × (after : Pool) × IsHeadWritten planned later group objects self.old.changes
            self.new.changes pool after readings head.number array gone) }
        ensures caused { IfErr result (IsCaused store.old store.new []) }
        ensures known { IfErr result (λ refusal. (stored planned : Contents) (bound : ℕ)
            (objects : ℕ → Option Object) (own : List Block) (blocks : ℕ → List Block)
            (pool : Pool) (readings : ℕ → Reading) (array : List ℕ)
            → Plans store.old stored planned
            → AreObjects stored (birth_of self.old.changes) (set_of self.old.changes)
            objects own blocks
            → AnswersTell store.old store.new [] → bound ≤ group
            → SpellsChains planned group objects self.old.changes pool readings
            → IsWrittenTo stored bound pool readings head array
            → IsForRoom refusal ⊎ (refusal ≡ Refusal.DiskFault)) }
        ensures touched { OnOk result
            (TouchesHeads self.old.changes self.new.changes (head.number ∷ [])) }
        ensures kept { OnOk result (KeepsDeadLists self.old.changes self.new.changes) }
        ensures places { OnOk result (HasHeadPlaces store.old store.new group head) }
        ensures refused { IfErr result
            (IsHeadRefused store.old store.new self.old.changes group head) }
    {
        let WrittenHead {
            number,
            volume,
            blocks,
        } = head;
        if blocks.is_empty() {
            return Ok(());
        }
        let placed = volume.placed(store, alloc, blocks, group)?;
        let rewritten = RewrittenHead {
            number,
            object_set: placed.volume.block(),
            left: placed.replaced,
        };
        overwrite(&mut self.changes, store, alloc, &rewritten, freed)?;
        Ok(())
    }
}
