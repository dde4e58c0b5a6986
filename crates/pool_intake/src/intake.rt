//! The intake of a pool.
use pool_model::{Action, Item, Name, Refusal, Reply, Write};
use std::alloc::{AllocError, Global};
use txg_pipeline::{Pending, Pipeline};
use volume_rules::{
    NameIndex, NamedShape, VolumeShape, against_write, base_name, is_covered, read_pending,
};

/// What a pool accepts: its groups, the holds of writers, the pending items, and the names of NOW.
///
/// A refused call leaves what was accepted as it was. Whether the pool is suspended is for the caller to judge first.
#[derive(Drop)]
pub struct Intake {
    pipeline: Pipeline,
    index: NameIndex,
}

impl Intake {
    ghost use Rattle.std.specs.Option.{option_copied};
    ghost use Rattle.std.specs.Prelude.{◌↔◌, ◌<◌, Bool, IsTrue, ℕ, suc, List, length, replicate, ◌+◌, ◌≤◌, None, Some, false, is_some, IfSome, IfOk, IfErr, OnOk, ◌≡◌};
    ghost use Rattle.pool_model.specs.declared.step.Step.TheVariants as steps;
    ghost use Rattle.pool_model.specs.declared.volume.PlainVolume.{PlainVolume};
    ghost use Rattle.pool_model.specs.Pools.{PlainPool, volume_at};
    ghost use Rattle.pool_model.specs.View.{View, Vdev, Unplanned, started, opened_as, is_syncing, is_planned, is_suspended, now_of};
    ghost use Rattle.pool_model.specs.Refusals.{greatest, refusal_of};
    ghost use Rattle.pool_model.specs.Machine.{taken, committed_next};
    ghost use Rattle.volume_rules.specs.Shapes.{rows_of, shape_of, shape_at};
    ghost use Rattle.volume_rules.specs.Covering.{IsCovered};
    ghost use Rattle.volume_rules.specs.Index.{Knows};
    ghost use Rattle.volume_rules.specs.NowMoves.{IsMadeBy};
    ghost use Rattle.volume_rules.specs.Overlay.{base_of, HasRange};
    ghost use Rattle.volume_rules.specs.Sources.{base_name};
    ghost use Rattle.pool_intake.specs.Follows.{Follows, TakesStep, TakesStepUnlessSuspended};
    ghost use Rattle.pool_intake.specs.Rest.{IsAtRest};

    /// An intake over an empty pool that is committed as group 3.
    pub fn new(alloc: Global) -> Intake
        ensures { (vdevs : List Vdev) → Follows result (started vdevs) }
    {
        Intake {
            pipeline: Pipeline::new(alloc, 3),
            index: NameIndex::new(alloc),
        }
    }

    /// An intake over a pool that was committed before as that group, and has these names: as it is opened nobody has a hold, and
    /// each writer begins with number 1.
    pub fn opened(alloc: Global, group: u64, index: NameIndex) -> Intake
        requires { group < greatest }
        ensures { (vdevs : List Vdev) (out : ℕ → Bool) (stale : ℕ → ℕ → Bool) (pool : PlainPool)
            → Knows index pool → IsMadeBy group pool
            → Follows result (opened_as vdevs out stale group pool) }
    {
        Intake {
            pipeline: Pipeline::new(alloc, group),
            index,
        }
    }

    /// The writer takes a hold of the open group.
    pub fn hold(&mut self, writer: u32) -> Reply
        ensures { TakesStepUnlessSuspended self.old (steps.Hold writer) result self.new }
    {
        match self.pipeline.hold(writer) {
            Ok(group) => Reply::Held(group),
            Err(cause) => Reply::Refused(Refusal::from(cause)),
        }
    }

    /// A write joins the group of its writer's hold.
    pub fn write(&mut self, write: Write) -> Reply
        ensures { TakesStepUnlessSuspended self.old (steps.Write write) result self.new }
    {
        if let Some(cause) = self.write_refusal(&write) {
            return Reply::Refused(cause);
        }
        match self.pipeline.accept(Item::Write(write)) {
            Ok(group) => Reply::Receipt(group),
            Err(cause) => Reply::Refused(Refusal::from(cause)),
        }
    }

    /// An action joins the open group, and takes effect in NOW at once.
    pub fn act(&mut self, alloc: Global, action: Action) -> Reply
        ensures { TakesStepUnlessSuspended self.old (steps.Act action) result self.new }
    {
        let Ok(refusal) = self.action_refusal(alloc, &action) else {
            return Reply::Refused(Refusal::NoMemory);
        };
        if let Some(cause) = refusal {
            return Reply::Refused(cause);
        }
        let group = self.pipeline.open_group();
        let Ok(change) = self.index.change_by(alloc, group, &action.change) else {
            return Reply::Refused(Refusal::NoMemory);
        };
        let Ok(()) = self.index.reserve() else {
            return Reply::Refused(Refusal::NoMemory);
        };
        match self.pipeline.accept(Item::Action(action)) {
            Ok(group) => {
                self.index.make(change);
                Reply::Receipt(group)
            }
            Err(cause) => Reply::Refused(Refusal::from(cause)),
        }
    }

    /// The writer gives its hold back, of a suspended pool too.
    pub fn release(&mut self, writer: u32) -> Reply
        ensures { TakesStep self.old (steps.Release writer) result self.new }
    {
        match self.pipeline.release(writer) {
            Ok(()) => Reply::Released,
            Err(cause) => Reply::Refused(Refusal::from(cause)),
        }
    }

    /// The open group begins to wait, and the next one opens.
    pub fn close(&mut self) -> Reply
        ensures { TakesStepUnlessSuspended self.old steps.Close result self.new }
    {
        match self.pipeline.close_open() {
            Ok(group) => Reply::Closed(group),
            Err(cause) => Reply::Refused(Refusal::from(cause)),
        }
    }

    /// The waiting group takes nothing more, where no hold is left in it.
    pub fn quiesce(&mut self) -> Reply
        ensures { TakesStepUnlessSuspended self.old steps.Quiesce result self.new }
    {
        match self.pipeline.mark_quiesced() {
            Ok(group) => Reply::Quiesced(group),
            Err(cause) => Reply::Refused(Refusal::from(cause)),
        }
    }

    /// Takes the quiesced group to be synced, if none is synced. `NotNow` where none is quiesced either.
    pub fn begin_sync(&mut self) -> Result<(), Refusal>
        ensures begun { OnOk result ((v : View) (timestamp : ℕ) → Follows self.old v
            → is_suspended v ≡ false → is_planned v.sync ≡ false
            → (refusal_of v (steps.Plan timestamp) ≡ None) × Follows self.new (taken v Unplanned)) }
        ensures refused { IfErr result (λ cause. (v : View) (timestamp : ℕ) → Follows self.old v
            → is_suspended v ≡ false → is_planned v.sync ≡ false
            → (refusal_of v (steps.Plan timestamp) ≡ Some cause) × Follows self.new v) }
    {
        if self.pipeline.is_syncing() {
            return Ok(());
        }
        match self.pipeline.take() {
            Ok(_) => Ok(()),
            Err(cause) => Err(Refusal::from(cause)),
        }
    }

    /// What the group that is synced has accepted.
    pub fn syncing_items(&self) -> Option<&Pending>
        ensures some { (v : View) → Follows self.now v → is_some result ≡ is_syncing v.sync }
        ensures items { IfSome result (λ items. (v : View) → Follows self.now v
            → items.now ≡ v.ledger (suc v.committed)) }
    {
        self.pipeline.syncing_items()
    }

    /// The group that was committed last.
    pub fn committed_group(&self) -> u64
        ensures { (v : View) → Follows self.now v → result ≡ v.committed }
    {
        self.pipeline.committed_group()
    }

    /// Whether all that was accepted is committed: no group is synced or waits, and none above the committed one has accepted anything.
    pub fn is_at_rest(&self) -> bool
        ensures { (v : View) → Follows self.now v → IsTrue result ↔ IsAtRest v }
    {
        if self.pipeline.is_syncing() {
            return false;
        }
        if self.pipeline.waiting().is_some() {
            return false;
        }
        self.pipeline.open_items().is_empty()
    }

    /// The group that is synced is committed, and its items are let go.
    pub fn commit(&mut self) -> Result<u64, Refusal>
        ensures committed { IfOk result (λ group. (v : View) → Follows self.old v
            → (group ≡ suc v.committed) × Follows self.new (committed_next v)) }
        ensures refused { IfErr result (λ cause. (cause ≡ Refusal.NotNow)
            × ((v : View) → Follows self.old v → (is_syncing v.sync ≡ false)
            × Follows self.new v)) }
    {
        match self.pipeline.committed() {
            Ok(group) => Ok(group),
            Err(cause) => Err(Refusal::from(cause)),
        }
    }

    /// The shape of the volume of that name, in NOW.
    pub fn find(&self, name: &Name) -> Option<VolumeShape>
        ensures { (v : View) → Follows self.now v → result ≡ shape_at name.now (now_of v) }
    {
        self.index.find(name)
    }

    /// The names of NOW, in the order of their bytes, and what stands there.
    pub fn rows(&self, alloc: Global) -> Result<Vec<NamedShape>, AllocError>
        ensures { IfOk result (λ rows. (v : View) → Follows self.now v →
            rows.items ≡ rows_of (now_of v)) }
    {
        self.index.rows(alloc)
    }

    /// Where in the committed pool the bytes stand that a name of NOW has but for pending writes: at the name itself; of a
    /// snapshot or a clone that isn't committed yet at the name that it comes from; nowhere where a pending group makes a
    /// volume of zeros.
    pub fn base_name<'a>(&'a self, name: &'a Name) -> Option<&'a Name>
        ensures { (v : View) → Follows self.now v → option_copied result ≡ base_name v name.now }
    {
        base_name(&self.pipeline, name)
    }

    /// Lays all pending writes over a range of what this name of NOW stands for, which has this shape: the buffer holds the
    /// range of the bytes that lie under them (those that the committed pool has at the base name, or zeros where there is
    /// none), and then has the range of its bytes.
    pub fn read_pending(&self, shape: VolumeShape, name: &Name, offset: u64, buffer: &mut [u8])
        requires { offset + length buffer.old ≤ shape.size }
        ensures laid { (v : View) (volume : PlainVolume) → Follows self.now v
            → volume_at name.now (now_of v) ≡ Some volume → shape_of volume ≡ shape
            → HasRange buffer.old (base_of v name.now volume) offset
            → HasRange buffer.new volume.bytes offset }

        // Where a pending write has the whole range, zeros may lie under it.
        ensures covered { (v : View) (volume : PlainVolume) → Follows self.now v
            → volume_at name.now (now_of v) ≡ Some volume → shape_of volume ≡ shape →
            IsCovered v name.now shape offset (length buffer.old) →
            buffer.old ≡ replicate (length buffer.old) 0
            → HasRange buffer.new volume.bytes offset }
    {
        read_pending(&self.pipeline, shape, name, offset, buffer);
    }

    /// Whether one pending write to the volume of this name, which has this shape in NOW, has every byte of the range.
    pub fn is_covered(&self, shape: VolumeShape, name: &Name, offset: u64, len: u64) -> bool
        ensures { (v : View) → Follows self.now v →
            IsTrue result ↔ IsCovered v name.now shape offset len }
    {
        is_covered(&self.pipeline, shape, name, offset, len)
    }

    // Why a write is refused, by its writer's hold and number and by its volume in NOW.
    fn write_refusal(&self, write: &Write) -> Option<Refusal>
        ensures { (v : View) → Follows self.now v → is_suspended v ≡ false
            → result ≡ refusal_of v (steps.Write write.now) }
    {
        match self.pipeline.admitted(write.writer, write.number) {
            Ok(group) => against_write(write, group, self.index.find(&write.volume)),
            Err(cause) => Some(Refusal::from(cause)),
        }
    }

    // Why an action is refused, by its writer's hold and number and by the names of NOW.
    fn action_refusal(&self, alloc: Global, action: &Action) -> Result<Option<Refusal>, AllocError>
        ensures { IfOk result (λ refusal. (v : View) → Follows self.now v
            → is_suspended v ≡ false → refusal ≡ refusal_of v (steps.Act action.now)) }
    {
        match self.pipeline.admitted(action.writer, action.number) {
            Ok(group) if group != self.pipeline.open_group() => Ok(Some(Refusal::NotNow)),
            Ok(_) => self.index.against(alloc, &action.change),
            Err(cause) => Ok(Some(Refusal::from(cause))),
        }
    }
}
