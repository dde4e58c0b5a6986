//! The device calls of a plan.
ghost use Rattle.std.specs.Prelude.{◌≡◌, ◌<◌, ◌∷◌, ◌^◌, min, length, false, true, []};
ghost use Rattle.std.specs.Prelude.{Some, None, OnOk, IfErr, IfSome, IfNone};
ghost use Rattle.model_disk.specs.Call.{write_call};
ghost use Rattle.model_disk.specs.Joint.{on};
ghost use Rattle.model_disk.specs.Runs.{Makes, no_write};
ghost use Rattle.block_store.specs.Plans.{KeepsPlans};
ghost use Rattle.block_store.specs.Store.{IsOutToo};
ghost use Rattle.uberblock_ring.specs.Slot.{slot_bytes};
ghost use Rattle.uberblock_ring.specs.Uberblock.{Fits};
ghost use Rattle.pool_model.specs.View.{View, is_planned};
ghost use Rattle.pool_commit.specs.Backs.{Backs};
ghost use Rattle.pool_commit.specs.StateOf.{state_of, disks_in};
ghost use Rattle.pool_commit.specs.Calls.{GrewTo};
ghost use Rattle.pool_commit.specs.Making.{MadeWrites, MadeFlushes, MadeSlots, KeepsContent};
ghost use Rattle.pool_commit.specs.Making.{FailedWrite, FailedFlush, FailedSlot};
ghost use Rattle.pool_commit.specs.Making.{FlushesMove, FlushesMoveBut, SlotsMove, SlotsMoveBut};
ghost use Rattle.pool_commit.specs.declared.device.Progress.TheVariants as progress;
ghost use Rattle.pool_commit.specs.Progress.{Progresses, DropsPlan, CarriesOn, LeavesOut, with_plan};
ghost use Rattle.pool_commit.specs.HasDisks.{AreBelow, AreSlotsBelow, HasDisks};
ghost use Rattle.pool_commit.specs.Slots.{LabelsLieAside, place_of};
ghost use Rattle.pool_commit.specs.Writing.{IsDueSlot, IsDueWrite, WritesPlan};

use crate::commit::Commit;
use crate::kept::Planned;
use crate::suspension::lacks_disks;
use block_store::BlockStore;
use disk_set::{FailedDisk, SlotWrite};
use model_disk::Disk;
use pool_model::Phase;
use std::alloc::{AllocError, Global};
use std::collections::VecDeque;
use std::thread::Threads;
use uberblock_ring::{Uberblock, encode_slot, slot_offset};
use vdev_label::label_offset;
use worker_items::Gate;

/// The most device calls that one step makes.
const MOST_CALLS: usize = 4;

/// How far the calls of a step brought the plan.
#[derive(Clone, Copy, PartialEq, Eq)]
pub enum Progress {
    /// Calls of this phase were made, and some are left.
    Moved(Phase),
    /// Nothing is left: the group is committed.
    Done,
    /// This disk failed a call. It is out, and the plan is dropped.
    Dropped(usize),
}

/// Makes up to four of the writes that are due. The first fault ends them.
fn make_writes<D: Disk + Drop>(store: &mut BlockStore<D>) -> Result<(), FailedDisk>
    ensures grew { GrewTo store.old.disks store.new.disks }
    ensures made { OnOk result (MadeWrites store.old store.new (min (length store.old.due) 4)) }
    ensures failed { IfErr result (λ failed. FailedWrite store.old store.new failed.disk) }
    ensures makes { Makes (IsDueWrite store.old.due) store.old.disks store.new.disks }
{
    for _ in 0..store.due_count().min(MOST_CALLS) {
        if let Err(failed) = store.write_next() {
            return Err(failed);
        }
    }
    Ok(())
}

/// Flushes up to four of the disks. The first fault ends them.
fn make_flushes<D: Disk + Drop>(
    store: &mut BlockStore<D>,
    flushes: &mut VecDeque<usize>,
) -> Result<(), FailedDisk>
    requires { AreBelow (length store.old.disks.starts) flushes.old.items }
    ensures made { OnOk result (MadeFlushes store.old store.new flushes.old.items
        flushes.new.items (min (length flushes.old.items) 4)) }
    ensures due { store.new.due ≡ store.old.due }
    ensures there { AreBelow (length store.old.disks.starts) flushes.new.items }
    ensures flushed { OnOk result
        (FlushesMove store.old store.new flushes.old.items flushes.new.items) }
    ensures failed { IfErr result (λ failed. FailedFlush store.old store.new flushes.old.items
        flushes.new.items failed.disk) }
    ensures flushed_but { IfErr result (λ failed. FlushesMoveBut failed.disk store.old store.new
        flushes.old.items flushes.new.items) }

    // No byte of a disk changes.
    ensures content { KeepsContent store.old store.new }
    ensures makes { Makes no_write store.old.disks store.new.disks }
{
    for _ in 0..flushes.len().min(MOST_CALLS) {
        let Some(disk) = flushes.pop_front() else {
            return Ok(());
        };
        if let Err(failed) = store.flush(disk) {
            return Err(failed);
        }
    }
    Ok(())
}

/// Writes the slot of an uberblock in a label of a disk. Where it fails the disk is out from then on.
fn write_slot<D: Disk + Drop>(
    store: &mut BlockStore<D>,
    write: SlotWrite,
    uberblock: &Uberblock,
) -> Result<(), FailedDisk>
    requires there { write.disk < length store.old.disks.starts }
    requires label { write.label < 4 }
    requires aside { LabelsLieAside store.old.disks.starts store.old.spaces }
    requires fits { Fits uberblock.now }
    ensures starts { store.new.disks.starts ≡ store.old.disks.starts }
    ensures spaces { store.new.spaces ≡ store.old.spaces }
    ensures due { store.new.due ≡ store.old.due }
    ensures call { let at = place_of store.old.disks.starts write uberblock.now.group in
        store.new.disks.calls
        ≡ on write.disk (write_call result at (slot_bytes uberblock.now)) ∷ store.old.disks.calls }
    ensures out { OnOk result (store.new.out ≡ store.old.out) }
    ensures failed { IfErr result (λ failed. failed.disk ≡ write.disk) }
    ensures out_too { IfErr result (λ failed. IsOutToo store.old.out write.disk store.new.out) }
    ensures stale { store.new.spans.stale ≡ store.old.spans.stale }
    ensures plans { KeepsPlans store.old store.new }
{
    let size = store.disk_size(write.disk);
    let at = label_offset(size, write.label) + slot_offset(uberblock.group);
    store.write_aside(write.disk, at, &encode_slot(uberblock))
}

/// Writes up to four of the slots of an uberblock. The first fault ends them.
fn make_slots<D: Disk + Drop>(
    store: &mut BlockStore<D>,
    uberblock: &Uberblock,
    slots: &mut VecDeque<SlotWrite>,
) -> Result<(), FailedDisk>
    requires there { AreSlotsBelow (length store.old.disks.starts) slots.old.items }
    requires aside { LabelsLieAside store.old.disks.starts store.old.spaces }
    requires fits { Fits uberblock.now }
    ensures made { OnOk result (MadeSlots store.old store.new slots.old.items
        slots.new.items (min (length slots.old.items) 4)) }
    ensures due { store.new.due ≡ store.old.due }
    ensures there { AreSlotsBelow (length store.old.disks.starts) slots.new.items }
    ensures moved { OnOk result (SlotsMove store.old store.new uberblock.now
        slots.old.items slots.new.items) }
    ensures failed { IfErr result (λ failed. FailedSlot store.old store.new slots.old.items
        slots.new.items failed.disk) }
    ensures moved_but { IfErr result (λ failed. SlotsMoveBut failed.disk store.old store.new
        uberblock.now slots.old.items slots.new.items) }
    ensures makes { Makes (IsDueSlot store.old.disks.starts uberblock.now slots.old.items)
        store.old.disks store.new.disks }
{
    for _ in 0..slots.len().min(MOST_CALLS) {
        let Some(write) = slots.pop_front() else {
            return Ok(());
        };
        if let Err(failed) = write_slot(store, write, uberblock) {
            return Err(failed);
        }
    }
    Ok(())
}

impl<D: Disk + Drop> Commit<D> {
    /// Makes the parity of the blocks that are due, where it is not made, by as many workers: worker k makes that of the extents i, in the
    /// order in which they are due, with i modulo the number of workers k, and passes the gate before each. With no memory for it nothing
    /// is made: each parity is then made as it is written.
    pub fn make_due<R: Threads + Sync, G: Gate + Sync>(
        &mut self,
        rt: &R,
        alloc: Global,
        gate: &G,
        workers: usize,
    ) -> Result<(), AllocError>
        requires { 0 < workers }
        ensures { state_of self.new ≡ state_of self.old }
    {
        self.store.make_due(rt, alloc, gate, workers)
    }

    /// Makes the parity of the blocks that are due, where it is not made, on this thread. It takes no memory.
    pub fn make_due_here(&mut self)
        ensures { state_of self.new ≡ state_of self.old }
    {
        self.store.make_due_here();
    }

    /// Makes the next device calls of the plan: up to four writes of blocks, or where none is left up to four flushes, then of slots, then
    /// flushes again. The first fault ends them. Where a disk fails before the slots, or too many disks are out, the plan is dropped; from
    /// the slots on the commit goes on without it. Where there is no plan the answer is `None`.
    pub fn device(&mut self) -> Option<Progress>
        ensures grew { GrewTo (disks_in self.old) (disks_in self.new) }
        ensures idle { IfNone result (disks_in self.new ≡ disks_in self.old) }
        ensures none { IfNone result ((v : View) → Backs (state_of self.old) v
            → (is_planned v.sync ≡ false) × Backs (state_of self.new) v) }
        ensures some { IfSome result (λ progress. (v : View) → Backs (state_of self.old) v
            → v.committed < 2 ^ 62 → (is_planned v.sync ≡ true)
            × Progresses (state_of self.old) progress (state_of self.new) v) }

        // Byte for byte, what the plan writes: its blocks, and once they are flushed its uberblock in the slots.
        ensures writes { WritesPlan (state_of self.old) (state_of self.new) }
    {
        let planned = self.planned.take()?;
        if self.store.due_count() > 0 {
            return Some(self.write(planned));
        }
        if !planned.behind.flushes.is_empty() {
            return Some(self.flush(planned));
        }
        if !planned.behind.slots.is_empty() {
            return Some(self.write_slots(planned));
        }
        Some(self.flush_slots(planned))
    }

    /// Makes writes of this plan.
    fn write(&mut self, planned: Planned) -> Progress
        requires none { self.old.planned ≡ None }
        requires there { HasDisks (length self.old.store.disks.starts) (Some planned) }
        requires some { 0 < length self.old.store.due }
        ensures grew { GrewTo self.old.store.disks self.new.store.disks }
        ensures goes { (v : View) → Backs (with_plan (state_of self.old) planned) v
            → v.committed < 2 ^ 62
            → Progresses (with_plan (state_of self.old) planned) result (state_of self.new) v }
        ensures writes { WritesPlan (with_plan (state_of self.old) planned) (state_of self.new) }
    {
        match make_writes(&mut self.store) {
            Ok(()) => self.go_on(planned, Phase::Blocks),
            Err(failed) => {
                self.suspended = lacks_disks(&self.store);
                self.drop_plan(failed)
            }
        }
    }

    /// Makes flushes of this plan, of which no write is due.
    fn flush(&mut self, mut planned: Planned) -> Progress
        requires none { self.old.planned ≡ None }
        requires there { HasDisks (length self.old.store.disks.starts) (Some planned) }
        requires written { self.old.store.due ≡ [] }
        requires some { 0 < length planned.behind.flushes.items }
        ensures grew { GrewTo self.old.store.disks self.new.store.disks }
        ensures goes { (v : View) → Backs (with_plan (state_of self.old) planned) v
            → v.committed < 2 ^ 62
            → Progresses (with_plan (state_of self.old) planned) result (state_of self.new) v }
        ensures writes { WritesPlan (with_plan (state_of self.old) planned) (state_of self.new) }
    {
        match make_flushes(&mut self.store, &mut planned.behind.flushes) {
            Ok(()) => self.go_on(planned, Phase::BlocksFlush),
            Err(failed) => {
                self.suspended = lacks_disks(&self.store);
                self.drop_plan(failed)
            }
        }
    }

    /// Writes slots of this plan, whose blocks are written and flushed.
    fn write_slots(&mut self, mut planned: Planned) -> Progress
        requires none { self.old.planned ≡ None }
        requires there { HasDisks (length self.old.store.disks.starts) (Some planned) }
        requires written { self.old.store.due ≡ [] }
        requires flushed { planned.behind.flushes.items ≡ [] }
        requires some { 0 < length planned.behind.slots.items }
        ensures grew { GrewTo self.old.store.disks self.new.store.disks }
        ensures goes { (v : View) → Backs (with_plan (state_of self.old) planned) v
            → v.committed < 2 ^ 62
            → Progresses (with_plan (state_of self.old) planned) result (state_of self.new) v }
        ensures writes { WritesPlan (with_plan (state_of self.old) planned) (state_of self.new) }
    {
        match make_slots(
            &mut self.store,
            &planned.uberblock,
            &mut planned.behind.slots,
        ) {
            Ok(()) => self.go_on(planned, Phase::Slots),
            Err(failed) => {
                self.suspended = lacks_disks(&self.store);
                self.go_without(planned, failed, Phase::Slots)
            }
        }
    }

    /// Flushes slots of this plan, which are all written. Where no flush is left either, the group is committed.
    fn flush_slots(&mut self, mut planned: Planned) -> Progress
        requires none { self.old.planned ≡ None }
        requires there { HasDisks (length self.old.store.disks.starts) (Some planned) }
        requires written { self.old.store.due ≡ [] }
        requires flushed { planned.behind.flushes.items ≡ [] }
        requires shown { planned.behind.slots.items ≡ [] }
        ensures grew { GrewTo self.old.store.disks self.new.store.disks }
        ensures goes { (v : View) → Backs (with_plan (state_of self.old) planned) v
            → v.committed < 2 ^ 62
            → Progresses (with_plan (state_of self.old) planned) result (state_of self.new) v }
        ensures writes { WritesPlan (with_plan (state_of self.old) planned) (state_of self.new) }
    {
        match make_flushes(&mut self.store, &mut planned.behind.slot_flushes) {
            Ok(()) => self.go_on(planned, Phase::SlotsFlush),
            Err(failed) => {
                self.suspended = lacks_disks(&self.store);
                self.go_without(planned, failed, Phase::SlotsFlush)
            }
        }
    }

    /// A disk failed a call from the slots on: the commit goes on without it, unless too many disks are out.
    fn go_without(&mut self, mut planned: Planned, failed: FailedDisk, phase: Phase) -> Progress
        requires none { self.old.planned ≡ None }
        requires there { HasDisks (length self.old.store.disks.starts) (Some planned) }
        ensures grew { self.new.store.disks ≡ self.old.store.disks }
        ensures goes { LeavesOut (state_of self.old) planned failed.disk phase result
            (state_of self.new) }
    {
        if self.suspended {
            return self.drop_plan(failed);
        }
        planned.behind.leave_out(failed.disk);
        self.go_on(planned, phase)
    }

    /// A disk failed a call of the plan, which is dropped.
    fn drop_plan(&mut self, failed: FailedDisk) -> Progress
        ensures result { result ≡ progress.Dropped failed.disk }
        ensures store { DropsPlan self.old.store self.new.store }
        ensures kept { self.new.kept ≡ self.old.kept }
        ensures planned { self.new.planned ≡ self.old.planned }
        ensures stamp { self.new.stamp ≡ self.old.stamp }
    {
        self.store
            .drop_plan(self.kept.committed().saturating_add(1));
        Progress::Dropped(failed.disk)
    }

    /// Calls of a phase were made. Where nothing is left, the group is committed.
    fn go_on(&mut self, planned: Planned, phase: Phase) -> Progress
        requires none { self.old.planned ≡ None }
        requires there { HasDisks (length self.old.store.disks.starts) (Some planned) }
        ensures { CarriesOn (state_of self.old) planned phase result (state_of self.new) }
    {
        if self.store.due_count() > 0 || !planned.behind.is_done() {
            self.planned = Some(planned);
            return Progress::Moved(phase);
        }
        self.store.finish_plan();
        self.kept.shift(planned.after);
        self.store
            .drop_plan(self.kept.committed().saturating_add(1));
        Progress::Done
    }
}
