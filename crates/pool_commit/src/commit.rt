//! The committed half of a core.
ghost use Rattle.std.specs.Prelude.{ℕ, List, [], ◌≡◌, ◌⊎◌, ◌<◌, ◌≤◌, ◌+◌, ◌-◌, ◌^◌, ◌++◌, not, filter};
ghost use Rattle.std.specs.Prelude.{length, map, false, IsTrue, ◌↔◌, OnOk, IfOk, IfErr};
ghost use Rattle.model_disk.specs.Joint.{calls_on, log_of};
ghost use Rattle.block_store.specs.declared.shape.VdevShape.{VdevShape as ShapeOf};
ghost use Rattle.block_store.specs.Config.{AreShapes, IsFewVdevs};
ghost use Rattle.block_store.specs.Store.{is_out};
ghost use Rattle.pool_model.specs.Pools.{no_volumes};
ghost use Rattle.pool_model.specs.View.{View, counted, disks_of};
ghost use Rattle.uberblock_ring.specs.Uberblock.{IsNumber};
ghost use Rattle.volume_rules.specs.Index.{Knows};
ghost use Rattle.pool_commit.specs.HasDisks.{AreBelow, AreDueOn, HasDisks};
ghost use Rattle.pool_commit.specs.Slots.{LabelsLieAside, IsStampOf, slots_of_disk, all_slots};
ghost use Rattle.block_store.specs.Places.{shapes_of};
ghost use Rattle.pool_commit.specs.Config.{vdevs_of, vdevs_from};
ghost use Rattle.pool_commit.specs.Configs.{IsConfigOf, configs_from};
ghost use Rattle.vdev_label.specs.Plain.{config_view};
ghost use Rattle.pool_commit.specs.Suspension.{lacks_disks};

use crate::config::config_of;
use crate::kept::{Kept, KeptGroup, Planned};
use crate::refusal::Refusal;
use crate::stamp::Stamp;
use crate::suspension::{lacks_disks, vdev_at};
use block_pointer::Block;
use block_store::{BlockStore, VdevConfig, VdevShape};
use dataset_snapshots::KeptDirectory;
use disk_set::{Behind, SlotWrite};
use meta_objset::{Directory, StaleSpans};
use model_disk::{Disk, DiskArray};
use raidz_io::Vdev;
use std::alloc::{AllocError, Global};
use std::collections::VecDeque;
use std::sync::Arc;
use vdev_label::Config;
use volume_rules::NameIndex;

/// The group that `create` commits.
const FIRST_GROUP: u64 = 3;

/// And its claim.
const FIRST_CLAIM: u64 = 1;

/// The blocks of a pool over its disks, the roots of the last three committed groups, and the plan of the next one.
#[derive(Drop)]
pub struct Commit<D: Disk + Drop> {
    pub(crate) store: BlockStore<D>,
    pub(crate) kept: Kept,
    pub(crate) planned: Option<Planned>,
    // Whether more disks of a vdev are out than it has parities: counted anew where a disk goes out.
    pub(crate) suspended: bool,
    // What the uberblocks of its commits have in common.
    pub(crate) stamp: Stamp,
    ghost disks: { HasDisks (length store.disks.starts) planned },
    ghost suspension: { suspended ≡ lacks_disks store },
    ghost labels: { LabelsLieAside store.disks.starts store.spaces },
    ghost claim: { IsNumber stamp.claim },
}

/// The directory of a pool with no root.
pub(crate) fn no_directory(alloc: Global) -> Result<Arc<KeptDirectory, Global>, AllocError>
    ensures { IfOk result (λ directory. directory.value ≡ []) }
{
    let directory = KeptDirectory::new(alloc, Directory::new(alloc));
    Ok(Arc::new(alloc, directory)?)
}

/// The names of a pool with no volumes.
pub(crate) fn no_names(alloc: Global) -> Result<Arc<NameIndex, Global>, AllocError>
    ensures { IfOk result (λ names. Knows names.value no_volumes) }
{
    Ok(Arc::new(alloc, NameIndex::new(alloc))?)
}

/// No spans: no disk lacks a block.
pub(crate) fn no_spans(alloc: Global) -> Result<Arc<StaleSpans, Global>, AllocError>
    ensures { IfOk result (λ spans. spans.value ≡ []) }
{
    Ok(Arc::new(alloc, StaleSpans::new(alloc))?)
}

/// A configuration that each group after it shares.
fn shared(alloc: Global, config: Config) -> Result<Arc<Config, Global>, AllocError>
    ensures value { IfOk result (λ made. made.value ≡ config) }
{
    Ok(Arc::new(alloc, config)?)
}

/// The slots of these disks: one in each label of each disk, in order.
fn slots_of(alloc: Global, disks: &VecDeque<usize>) -> Result<VecDeque<SlotWrite>, AllocError>
    ensures { IfOk result (λ slots. slots.items ≡ all_slots disks.now.items) }
{
    let mut slots = VecDeque::new(alloc);
    for index in 0..disks.len() {
        add_slots(disks[index], &mut slots)?;
    }
    Ok(slots)
}

/// Adds the slots of a disk.
fn add_slots(disk: usize, slots: &mut VecDeque<SlotWrite>) -> Result<(), AllocError>
    ensures { OnOk result (slots.new.items ≡ slots.old.items ++ slots_of_disk disk) }
{
    slots.push_back(SlotWrite { disk, label: 0 })?;
    slots.push_back(SlotWrite { disk, label: 1 })?;
    slots.push_back(SlotWrite { disk, label: 2 })?;
    slots.push_back(SlotWrite { disk, label: 3 })?;
    Ok(())
}

impl<D: Disk + Drop> Commit<D> {
    ghost use Rattle.pool_model.specs.View.{is_suspended, is_planned};
    ghost use Rattle.pool_commit.specs.Backs.{Backs, AreDueBehind};
    ghost use Rattle.pool_commit.specs.Started.{started_on_disks};
    ghost use Rattle.pool_commit.specs.State.{has_plan, HasNoPlan, NoneIsOut};
    ghost use Rattle.pool_commit.specs.StateOf.{state_of, disks_in};

    /// The empty pool, committed as group 3 under claim 1, whose guids are 100, 101 and so on. The vdevs take the disks in order, each as
    /// many as it has children. The uberblocks of later groups have the claim and what tells the configuration.
    pub fn new(alloc: Global, disks: Vec<D>, vdevs: &[VdevConfig]) -> Result<Self, Refusal>
        ensures starts { IfOk result (λ commit.
            (disks_in commit).starts ≡ map D.start disks.items) }
        ensures calls { IfOk result (λ commit. (which : ℕ)
            → calls_on which (disks_in commit).calls ≡ log_of (map D.calls disks.items) which) }
        ensures backs { IfOk result (λ commit.
            Backs (state_of commit) (started_on_disks (vdevs_from 0 vdevs.now))) }
        ensures stamp { IfOk result (λ commit. IsStampOf (configs_from 100
            (shapes_of (state_of commit).store.spaces)) 1 (state_of commit).stamp) }
        ensures config { IfOk result (λ commit. IsConfigOf
            (shapes_of (state_of commit).store.spaces)
            (config_view (state_of commit).kept.last.config.value)) }
        ensures refused { IfErr result (λ refusal. (refusal ≡ Refusal.NoMemory)
            ⊎ ((refusal ≡ Refusal.BadConfig) × ((shapes : List ShapeOf) → ¬ (IsFewVdevs vdevs.now
            × AreShapes (map D.start disks.items) 0 vdevs.now shapes)))) }
    {
        let store = match BlockStore::new(alloc, disks, vdevs) {
            Ok(store) => store,
            Err(block_store::Refusal::BadConfig) => return Err(Refusal::BadConfig),
            Err(_) => return Err(Refusal::NoMemory),
        };
        let config = config_of(alloc, &store)?;
        let stamp = Stamp::new(alloc, &config, FIRST_CLAIM)?;
        let first = KeptGroup {
            root: None,
            names: no_names(alloc)?,
            directory: no_directory(alloc)?,
            spans_under: no_spans(alloc)?,
            spans: no_spans(alloc)?,
            config: shared(alloc, config)?,
        };
        let suspended = lacks_disks(&store);
        Ok(Commit {
            store,
            kept: Kept::new(FIRST_GROUP, first),
            planned: None,
            suspended,
            stamp,
        })
    }

    /// The disks, in the order of their numbers. What is planned is dropped.
    pub fn into_disks(self) -> Vec<D>
        ensures starts { map D.start result.items ≡ (disks_in self).starts }
        ensures calls { (which : ℕ)
            → log_of (map D.calls result.items) which ≡ calls_on which (disks_in self).calls }
    {
        let Commit { store, .. } = self;
        store.into_disks()
    }

    /// The disks, in the order of their numbers, with the record of all calls. What is planned is dropped.
    pub fn into_array(self) -> DiskArray<D>
        ensures { result ≡ disks_in self }
    {
        let Commit { store, .. } = self;
        store.into_array()
    }

    /// The root of the committed group. A pool has none before its first group is committed.
    pub fn last_root(&self) -> Option<Block>
        ensures { result ≡ (state_of self.now).kept.last.root }
    {
        self.kept.last().root
    }

    /// The shapes of the vdevs, in order.
    pub fn shapes(&self, alloc: Global) -> Result<Vec<VdevShape>, AllocError>
        ensures { IfOk result (λ shapes.
            shapes.items ≡ shapes_of (state_of self.now).store.spaces) }
    {
        let mut shapes = Vec::new(alloc);
        for index in 0..self.store.vdev_count() {
            shapes.push(self.store.shape(index))?;
        }
        Ok(shapes)
    }

    /// Whether no disk is out.
    pub fn is_whole(&self) -> bool
        ensures { IsTrue result ↔ NoneIsOut (state_of self.now) }
    {
        for disk in 0..self.store.disk_count() {
            if self.store.is_out(disk) {
                return false;
            }
        }
        true
    }

    /// Whether more disks of a vdev are out than it has parities.
    pub fn is_suspended(&self) -> bool
        ensures { (v : View) → Backs (state_of self.now) v → result ≡ is_suspended v }
    {
        self.suspended
    }

    /// Whether the group that is synced has a plan.
    pub fn is_planned(&self) -> bool
        ensures planned { result ≡ has_plan (state_of self.now) }
        ensures unplanned { result ≡ false → HasNoPlan (state_of self.now) }
        ensures view { (v : View) → Backs (state_of self.now) v → result ≡ is_planned v.sync }
    {
        self.planned.is_some()
    }

    /// The disks that are not out, in order.
    pub(crate) fn disks_in_use(&self, alloc: Global) -> Result<VecDeque<usize>, AllocError>
        ensures disks { IfOk result (λ disks. disks.items
            ≡ filter (λ disk. not (is_out self.now.store.out disk))
            (disks_of (vdevs_of self.now.store.spaces))) }
        ensures there { IfOk result (λ disks.
            AreBelow (length self.now.store.disks.starts) disks.items) }
    {
        let mut disks = VecDeque::new(alloc);
        for index in 0..self.store.vdev_count() {
            self.add_in_use(vdev_at(&self.store, index), &mut disks)?;
        }
        Ok(disks)
    }

    /// What is due behind the block writes of each plan: a flush of each disk in use, a slot in each of its labels, and a flush.
    pub(crate) fn due_behind(&self, alloc: Global) -> Result<Behind, AllocError>
        ensures are { IfOk result (λ behind. AreDueBehind behind
            (filter (λ disk. not (is_out self.now.store.out disk))
            (disks_of (vdevs_of self.now.store.spaces)))) }
        ensures there { IfOk result (λ behind.
            AreDueOn (length self.now.store.disks.starts) behind) }
    {
        let flushes = self.disks_in_use(alloc)?;
        let slot_flushes = self.disks_in_use(alloc)?;
        let slots = slots_of(alloc, &flushes)?;
        Ok(Behind {
            flushes,
            slots,
            slot_flushes,
        })
    }

    /// Adds the disks of a vdev that are not out.
    fn add_in_use(&self, vdev: Vdev, disks: &mut VecDeque<usize>) -> Result<(), AllocError>
        requires few { vdev.first + vdev.geometry.children ≤ 2 ^ 64 - 1 }
        ensures { OnOk result (disks.new.items ≡ disks.old.items
            ++ filter (λ disk. not (is_out self.now.store.out disk))
            (counted vdev.first vdev.geometry.children)) }
    {
        for child in 0..vdev.geometry.children {
            let disk = vdev.first + child as usize;
            if !self.store.is_out(disk) {
                disks.push_back(disk)?;
            }
        }
        Ok(())
    }
}
