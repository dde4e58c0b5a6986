//! The core and its steps.
ghost use Rattle.std.specs.Prelude.{◌≡◌, ◌⊎◌, ◌<◌, ◌&&◌, ◌↔◌, IsTrue, ℕ, List, Some, map, IfOk, IfErr};
ghost use Rattle.model_disk.specs.Joint.{calls_on, log_of};
ghost use Rattle.pool_model.specs.declared.step.Step.TheVariants as steps;
ghost use Rattle.pool_model.specs.declared.volume.PlainVolume.{PlainVolume};
ghost use Rattle.pool_model.specs.Pools.{volume_at};
ghost use Rattle.pool_model.specs.View.{View, is_suspended, now_of};
ghost use Rattle.volume_rules.specs.Covering.{IsCovered};
ghost use Rattle.volume_rules.specs.Shapes.{rows_of, shape_of};
ghost use Rattle.pool_commit.specs.Backs.{Backs};
ghost use Rattle.block_store.specs.declared.shape.VdevShape.{VdevShape as ShapeOf};
ghost use Rattle.block_store.specs.Config.{AreShapes, IsFewVdevs};
ghost use Rattle.block_store.specs.Places.{shapes_of};
ghost use Rattle.pool_commit.specs.Calls.{GrewTo};
ghost use Rattle.pool_commit.specs.Config.{vdevs_from};
ghost use Rattle.pool_commit.specs.Started.{started_on_disks};
ghost use Rattle.pool_commit.specs.State.{NoneIsOut};
ghost use Rattle.pool_core.specs.Moves.{Moves};
ghost use Rattle.pool_core.specs.Represents.{Represents};
ghost use Rattle.pool_core.specs.StateOf.{disks_in, state_of};
ghost use Rattle.pool_core.specs.Steps.{TakesStep, is_barred as barred_step};

use block_pointer::Block;
use block_store::{VdevConfig, VdevShape};
use model_disk::{Disk, DiskArray};
use pool_commit::Commit;
use pool_intake::Intake;
use pool_model::{Refusal, Reply, Step};
use std::alloc::{AllocError, Global};
use volume_rules::NamedShape;

/// A pool over disks: what it accepts, and what is committed.
#[derive(Drop)]
pub struct Core<D: Disk + Drop> {
    pub(crate) alloc: Global,
    pub(crate) intake: Intake,
    pub(crate) commit: Commit<D>,
}

/// Whether a suspended pool refuses the step: it refuses all but Release, DiskOut and the reads.
fn is_barred(step: &Step) -> bool
    ensures { result ≡ barred_step step.now }
{
    !matches!(
        step,
        Step::Release(_) | Step::DiskOut(_) | Step::Read { .. } | Step::ReadUnder { .. }
    )
}

impl<D: Disk + Drop> Core<D> {
    /// An empty pool over these disks, committed as group 3: a sound start. The vdevs take the disks in order, each as
    /// many as it has children. Shapes and disks that no pool may have are `BadConfig`.
    pub fn create(alloc: Global, disks: Vec<D>, vdevs: &[VdevConfig]) -> Result<Self, Refusal>
        ensures starts { IfOk result (λ core. (disks_in core).starts ≡ map D.start disks.items) }
        ensures calls { IfOk result (λ core. (which : ℕ)
            → calls_on which (disks_in core).calls ≡ log_of (map D.calls disks.items) which) }
        ensures represents { IfOk result (λ core. Represents (state_of core)
            (started_on_disks (vdevs_from 0 vdevs.now))) }
        ensures refused { IfErr result (λ refusal. (refusal ≡ Refusal.NoMemory)
            ⊎ ((refusal ≡ Refusal.BadConfig) × ((shapes : List ShapeOf)
            → ¬ (IsFewVdevs vdevs.now × AreShapes (map D.start disks.items) 0 vdevs.now shapes)))) }
    {
        match Commit::new(alloc, disks, vdevs) {
            Ok(commit) => Ok(Core {
                alloc,
                intake: Intake::new(alloc),
                commit,
            }),
            Err(refusal) => Err(Refusal::from(refusal)),
        }
    }

    /// The disks, in the order of their numbers. What was accepted and isn't committed is dropped.
    pub fn into_disks(self) -> Vec<D>
        ensures starts { map D.start result.items ≡ (disks_in self).starts }
        ensures calls { (which : ℕ)
            → log_of (map D.calls result.items) which ≡ calls_on which (disks_in self).calls }
    {
        let Core { commit, .. } = self;
        commit.into_disks()
    }

    /// The same, with the record of all calls.
    pub fn into_array(self) -> DiskArray<D>
        ensures { result ≡ disks_in self }
    {
        let Core { commit, .. } = self;
        commit.into_array()
    }

    /// The root of the committed group. A pool has none before its first group is committed.
    pub fn last_root(&self) -> Option<Block>
        ensures { result ≡ (state_of self.now).commit.kept.last.root }
    {
        self.commit.last_root()
    }

    /// The shapes of the vdevs, in order.
    pub fn shapes(&self, alloc: Global) -> Result<Vec<VdevShape>, AllocError>
        ensures { IfOk result (λ shapes.
            shapes.items ≡ shapes_of (state_of self.now).commit.store.spaces) }
    {
        self.commit.shapes(alloc)
    }

    /// The names of NOW, in the order of their bytes, and what stands there.
    pub fn rows(&self, alloc: Global) -> Result<Vec<NamedShape>, AllocError>
        ensures { IfOk result (λ rows. (v : View) → Represents (state_of self.now) v →
            rows.items ≡ rows_of (now_of v)) }
    {
        let rows = self.intake.rows(alloc)?;
        Ok(rows)
    }

    /// Whether no disk is out.
    pub fn is_whole(&self) -> bool
        ensures { IsTrue result ↔ NoneIsOut (state_of self.now).commit }
    {
        self.commit.is_whole()
    }

    /// Whether the pool is suspended, and refuses the step for that.
    pub(crate) fn is_refused(&self, step: &Step) -> bool
        ensures { (v : View) → Backs (state_of self.now).commit v
            → result ≡ (barred_step step.now && is_suspended v) }
    {
        let suspended = self.commit.is_suspended();
        is_barred(step) && suspended
    }

    /// One step of the machine. Release, Close, Quiesce, Device and DiskOut take no memory.
    pub fn step(&mut self, step: Step) -> Reply
        ensures grew { GrewTo (disks_in self.old) (disks_in self.new) }
        ensures goes { TakesStep (state_of self.old) step result (state_of self.new) }

        // Byte for byte, what it writes, and what it leaves as it was.
        ensures moves { Moves step (state_of self.old).commit (state_of self.new).commit }

        // A read that one pending write has whole reads no disk.
        ensures covered { (v : View) (volume : PlainVolume) (name : List ℕ) (offset len : ℕ)
            → Represents (state_of self.old) v → step ≡ steps.Read name offset len
            → volume_at name (now_of v) ≡ Some volume
            → IsCovered v name (shape_of volume) offset len
            → state_of self.new ≡ state_of self.old }
    {
        if self.is_refused(&step) {
            return Reply::Refused(Refusal::Suspended);
        }
        match step {
            Step::Hold(writer) => self.intake.hold(writer),
            Step::Write(write) => self.intake.write(write),
            Step::Act(action) => self.intake.act(self.alloc, action),
            Step::Release(writer) => self.intake.release(writer),
            Step::Close => self.intake.close(),
            Step::Quiesce => self.intake.quiesce(),
            Step::Plan { timestamp } => self.plan(timestamp),
            Step::Device => self.device(),
            Step::DiskOut(disk) => self.disk_out(disk),
            Step::Read { name, offset, len } => self.read(&name, offset, len),
            Step::ReadUnder {
                group,
                name,
                offset,
                len,
            } => self.reply_under(group, &name, offset, len),
        }
    }
}
