//! A volume is made.
ghost use Rattle.std.specs.Prelude.{◌≡◌, ◌⊎◌, ◌%◌, ◌≤◌, ◌<◌, ◌^◌, [], IsTrue, OnOk, IfOk, IfErr, replicate};
ghost use Rattle.block_pointer.specs.Block.{FitsBlock};
ghost use Rattle.block_store.specs.Blocks.{Contents, Extends};
ghost use Rattle.block_store.specs.Causes.{IsCaused};
ghost use Rattle.block_store.specs.Plans.{Plans};
ghost use Rattle.block_store.specs.Steps.{OnlyReadsAndPlans, AnswersTell};
ghost use Rattle.dnode_tree.specs.Writes.{IsForRoom};
ghost use Rattle.objset.specs.declared.changes.Change.{Change};
ghost use Rattle.pool_model.specs.Names.{is_block_size};
ghost use Rattle.volume.specs.Demands.{empty_set, HasPlacesFor, IsCreation, IsPlanRefused};
ghost use Rattle.volume.specs.Placing.{IsMade, LacksRoom};
ghost use Rattle.volume.specs.Volume.{HasShape, Spells, block_of};

use crate::placing::plan_change;
use crate::volume::{VOLUME_TYPE, VolumeSet};
use block_pointer::BlockPtr;
use block_store::{BlockStore, Refusal};
use dnode::{ObjectNode, ObjectSet, ObjectSetKind};
use model_disk::Disk;
use objset::Change;
use std::alloc::Global;

/// A volume's object set with no object.
const EMPTY: ObjectSet = ObjectSet {
    dnodes: ObjectNode {
        object_type: 10,
        data_sectors: 32,
        highest: 0,
        pointer: BlockPtr::Hole,
    },
    kind: ObjectSetKind::Volume,
    objects: 1,
};

impl VolumeSet {
    /// Plans a volume of zeros in the transaction group `birth`, with no blocks of data: `size` and `block_size` in bytes.
    ///
    /// After an error blocks may be planned that no volume has: begin another plan.
    pub fn create<D: Disk + Drop>(
        store: &mut BlockStore<D>,
        alloc: Global,
        size: u64,
        block_size: u64,
        birth: u64,
    ) -> Result<VolumeSet, Refusal>
        requires block_sized { IsTrue (is_block_size block_size) }
        requires whole { size % block_size ≡ 0 }
        requires least { block_size ≤ size }
        requires most { size ≤ 2 ^ 40 }
        requires born { 0 < birth }
        ensures steps { OnlyReadsAndPlans store.old store.new [] }
        ensures fits { IfOk result (λ volume. FitsBlock (block_of volume)) }
        ensures shape { IfOk result (λ volume. HasShape volume size block_size) }
        ensures value { IfOk result (λ volume. (stored planned : Contents)
            → Plans store.old stored planned → AnswersTell store.old store.new []
            → (later : Contents) × Plans store.new stored later × Extends planned later
            × Spells later birth volume (replicate size 0)
            × IsMade planned later birth volume) }
        ensures no_room { IfErr result (λ refusal. refusal ≡ Refusal.NoSpace
            → LacksRoom store.old store.new) }

        // What places are taken for, and on a refusal its cause.
        ensures places { OnOk result ((change : Change) × IsCreation block_size change
            × HasPlacesFor store.old store.new empty_set birth change) }
        ensures caused { IfErr result (IsCaused store.old store.new []) }
        ensures refused { IfErr result (λ refusal. (change : Change)
            × IsCreation block_size change
            × IsPlanRefused store.old store.new empty_set birth birth change
            refusal) }

        // Only room is wanting, over disks whose answers tell, unless too many disks miss of a
        // block.
        ensures known { IfErr result (λ refusal. (stored planned : Contents)
            → Plans store.old stored planned → AnswersTell store.old store.new []
            → IsForRoom refusal ⊎ (refusal ≡ Refusal.DiskFault)) }
    {
        let creation = Change::Create {
            object_type: VOLUME_TYPE,
            data_sectors: (block_size / 512) as u32,
            writes: Vec::new(alloc),
        };
        let planned = plan_change(&EMPTY, store, alloc, creation, birth, birth)?;
        Ok(VolumeSet::new(size, block_size, planned.block))
    }
}
