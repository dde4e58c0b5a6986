//! A volume that a group makes.
ghost use Rattle.std.specs.Prelude.{◌≡◌, ◌≢◌, ◌⊎◌, ◌<◌, [], false, true, replicate, IfOk, IfErr, OnOk};
ghost use Rattle.block_pointer.specs.Block.{FitsBlock};
ghost use Rattle.block_store.specs.Blocks.{Contents, Extends};
ghost use Rattle.block_store.specs.Causes.{IsCaused};
ghost use Rattle.block_store.specs.Plans.{Plans};
ghost use Rattle.block_store.specs.Steps.{OnlyReadsAndPlans, AnswersTell};
ghost use Rattle.dnode_tree.specs.Writes.{IsForRoom};
ghost use Rattle.meta_objset.specs.Names.{IsName};
ghost use Rattle.meta_objset.specs.Record.{FitsRecord};
ghost use Rattle.volume_rules.specs.GoodChanges.{is_good_making, is_good_size};
ghost use Rattle.volume.specs.Placing.{LacksRoom};
ghost use Rattle.volume.specs.Volume.{IsVolume};
ghost use Rattle.volume.specs.Walking.{blocks_of_volume};
ghost use Rattle.dataset_groups.specs.Leaving.{AddsData, IsReachExchanged};

use block_pointer::Block;
use block_store::{BlockStore, Refusal};
use meta_objset::{DatasetKind, DatasetRecord, padded};
use model_disk::Disk;
use pool_model::Name;
use std::alloc::Global;
use volume::VolumeSet;
use volume_rules::{is_good_name, is_good_shape};

/// A volume that may be made: its name can stand in a row, and it can have its sizes.
#[derive(Clone, Copy)]
pub(crate) struct NewVolume {
    /// Padded as in a row.
    pub name: [u8; 56],
    /// In bytes.
    size: u64,
    /// In bytes.
    block_size: u64,
    ghost good: { is_good_size size block_size ≡ true },
}

impl NewVolume {
    ghost use Rattle.dataset_groups.specs.Demands.{HasNewPlaces, IsNewRefused};
    ghost use Rattle.pool_model.specs.declared.item.Change.TheVariants.{Create};
    ghost use Rattle.dataset_groups.specs.NewVolumes.{IsNewVolume, new_record};

    /// A volume of this name and these sizes, in bytes. `BadConfig` where a volume can't have them.
    pub fn of(name: &Name, size: u64, block_size: u64) -> Result<NewVolume, Refusal>
        ensures is { IfOk result (IsNewVolume name.now size block_size) }
        ensures named { IfOk result (λ new. IsName new.name) }
        ensures good { IfOk result (λ new.
            is_good_making (Create name.now size block_size) ≡ true) }
        ensures refused { IfErr result (λ refusal. (refusal ≡ Refusal.BadConfig)
            × (is_good_making (Create name.now size block_size) ≡ false)) }
    {
        if !is_good_name(name) || !is_good_shape(size, block_size) {
            return Err(Refusal::BadConfig);
        }
        let Some(name) = padded(name.as_slice()) else {
            return Err(Refusal::BadConfig);
        };
        Ok(NewVolume {
            name,
            size,
            block_size,
        })
    }

    /// Its record, where it is made in this group with that dead list and object set.
    pub fn record(&self, group: u64, dead_list: u64, object_set: Block) -> DatasetRecord
        requires { FitsBlock object_set }
        ensures value { result ≡ new_record self.now group dead_list object_set }
        ensures fits { FitsRecord result }
    {
        DatasetRecord {
            kind: DatasetKind::Volume,
            size: self.size,
            block_size: self.block_size,
            created: group,
            previous: 0,
            next: 0,
            clones: 0,
            dead_list,
            object_set,
        }
    }

    /// Plans its object set in the transaction group `group`: the block that spells it.
    ///
    /// After an error blocks may be planned that no volume has: begin another plan.
    pub fn planned<D: Disk + Drop>(
        &self,
        store: &mut BlockStore<D>,
        alloc: Global,
        group: u64,
    ) -> Result<Block, Refusal>
        requires born { 0 < group }
        ensures steps { OnlyReadsAndPlans store.old store.new [] }
        ensures fits { IfOk result FitsBlock }
        ensures value { IfOk result (λ object_set. (stored planned : Contents)
            → Plans store.old stored planned → AnswersTell store.old store.new []
            → (later : Contents) × Plans store.new stored later × Extends planned later
            × (is : IsVolume later group object_set self.now.size self.now.block_size
            (replicate self.now.size 0))
            × IsReachExchanged group planned later []
            (blocks_of_volume object_set is.set is.has.own is.has.blocks) []
            × AddsData planned later) }
        ensures caused { IfErr result (IsCaused store.old store.new []) }
        ensures cause { IfErr result (λ refusal. refusal ≢ Refusal.BadConfig) }
        ensures no_room { IfErr result (λ refusal. refusal ≡ Refusal.NoSpace
            → LacksRoom store.old store.new) }
        ensures known { IfErr result (λ refusal. (stored planned : Contents)
            → Plans store.old stored planned → AnswersTell store.old store.new []
            → IsForRoom refusal ⊎ (refusal ≡ Refusal.DiskFault)) }
        ensures places { OnOk result
            (HasNewPlaces store.old store.new group self.now.block_size) }
        ensures refused { IfErr result
            (IsNewRefused store.old store.new group self.now.block_size) }
    {
        let volume = VolumeSet::create(store, alloc, self.size, self.block_size, group)?;
        Ok(volume.block())
    }
}
