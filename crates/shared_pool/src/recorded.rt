//! A core, and the record of the steps that it took.
ghost use Rattle.std.specs.Prelude.{◌≡◌, ◌+◌, ◌^◌, ◌≤◌, ◌<◌, ◌++◌, ◌∷◌, [], length, vec_len, vec_capacity};
ghost use Rattle.shared_pool.specs.History.{entry};
ghost use Rattle.shared_pool.specs.Weights.{is_writers, weight_of, writers_steps, Counts};

use crate::copies::{Copies, copies_for, copy_of_reply};
use crate::counts::{Books, Shares};
use crate::refusal::Refusal;
use pool_model::{Reply, Step};
use pool_steps::PoolSteps;
use std::alloc::{AllocError, Global};
use std::marker::Model;
use std::mem;
use std::snapshot::Snapshot;
use std::sync::ledger::{Book, Ledger};
use std::thread::Threads;
use worker_items::Gate;

/// How many steps a record has room for.
pub const ROOM: usize = 65_536;

/// How many steps of writers the sealed records may have in all.
pub const MOST_SEALED: u64 = 1 << 62;

/// A step that was taken, with its reply.
#[derive(Drop)]
pub struct Entry {
    pub step: Step,
    pub reply: Reply,
}

/// A core, and the record of the steps that it took since the record began or was last sealed.
#[derive(Drop)]
pub struct Recorded<C: PoolSteps, L: Ledger, M: Ledger> {
    alloc: Global,
    core: C,
    // The core as it was when the first record began.
    origin: Snapshot<C>,
    // The core as it was when this record began.
    start: Snapshot<C>,
    entries: Vec<Entry>,
    // How many steps of writers the sealed records have.
    sealed: u64,
    // Counts the steps of writers and the calls, of all records.
    books: Books<L, M>,
    // The book of calls as it was when this record began.
    begun: Snapshot<Book<M>>,
}

impl<C: PoolSteps, L: Ledger, M: Ledger> Model for Recorded<C, L, M> {
    ghost use Rattle.std.specs.Prelude.{◌≤◌, vec_capacity};
    ghost use Rattle.shared_pool.specs.History.{History, IsRecord};

    ghost Value = { History C };

    ghost view = { λ r. record {
      core = r.core;
      origin = r.origin.value;
      start = r.start.value;
      entries = r.entries.items;
      sealed = r.sealed;
      total = r.books.steps.total;
      begun = r.begun.value.total;
      calls = r.books.calls.total;
    } };

    ghost invariant = { λ r.
        IsRecord C.PoolSteps (record {
          core = r.core;
          origin = r.origin.value;
          start = r.start.value;
          entries = r.entries.items;
          sealed = r.sealed;
          total = r.books.steps.total;
          begun = r.begun.value.total;
          calls = r.books.calls.total;
        })
        × (65536 ≤ vec_capacity r.entries) };
}

impl<C: PoolSteps, L: Ledger, M: Ledger> Recorded<C, L, M> {
    ghost use Rattle.std.specs.Prelude.{IfOk, IfErr, OnOk, OnErr};
    ghost use Rattle.pool_model.specs.View.{View};
    ghost use Rattle.pool_model.specs.declared.step.Step.TheVariants as steps;
    ghost use Rattle.shared_pool.specs.History.{IsRecord, Takes, Seals, Tells};
    ghost use Rattle.shared_pool.specs.Hinders.{HindersStep, HindersSeal};
    ghost use Rattle.pool_model.specs.Refusals.{takes_memory};
    ghost use Rattle.pool_steps.specs.Room.{most_bytes};
    ghost use Rattle.std.specs.Prelude.{true};

    /// An empty record, with room for all its steps, of a core that stands for a view, as far as what its disks answer is true.
    pub fn new(alloc: Global, core: C, books: Books<L, M>) -> Result<Recorded<C, L, M>, Refusal>
        requires sound { C.answers_tell core core → (v : View) × C.represents core v }
        requires none { (books.steps.total ≡ 0) × (books.calls.total ≡ 0) }
        ensures start { IfOk result (λ r. (r.core ≡ core) × (r.start ≡ core) × (r.origin ≡ core)) }
        ensures empty { IfOk result (λ r. (r.entries ≡ []) × (r.sealed ≡ 0) × (r.begun ≡ 0)) }
        ensures refused { IfErr result (λ refusal. refusal ≡ Refusal.NoMemory) }
    {
        let entries = Vec::with_capacity(alloc, ROOM)?;
        let start = Snapshot::of(&core);
        let origin = Snapshot::of(&core);
        let begun = Snapshot::of(&books.calls);
        Ok(Recorded {
            alloc,
            core,
            origin,
            start,
            entries,
            sealed: 0,
            books,
            begun,
        })
    }

    pub(crate) fn alloc(&self) -> Global {
        self.alloc
    }

    /// Takes one step and records it, with its reply. What the record needs is got before, so that at an `Err` no step is
    /// taken. Of a step that takes no memory the record takes none either.
    pub fn take_step(&mut self, mut step: Step, shares: &mut Shares<L, M>) -> Result<Reply, Refusal>
        ensures before { IsRecord C.PoolSteps self.old }
        ensures after { IsRecord C.PoolSteps self.new }
        ensures taken { IfOk result (λ reply. Takes C.PoolSteps self.old step reply self.new) }
        ensures counted { Counts (weight_of step) result
            shares.old.steps.amount shares.new.steps.amount }
        ensures called { Counts 1 result shares.old.calls.amount shares.new.calls.amount }
        ensures parts { shares.new.steps.parts ≡ shares.old.steps.parts }
        ensures hindered { IfErr result (λ refusal. HindersStep step refusal self.old) }
        ensures same { OnErr result (self.new ≡ self.old) }
    {
        let copies = copies_for(self.alloc, &mut step);
        self.take_copied(step, copies, shares)
    }

    /// Takes one step and records its copy, with the reply. The copy was made before, so that who holds the lock needn't wait
    /// for it; where memory ran out for it that is told only of a record that isn't full.
    pub(crate) fn take_copied(
        &mut self,
        step: Step,
        copies: Result<Copies, AllocError>,
        shares: &mut Shares<L, M>,
    ) -> Result<Reply, Refusal>
        requires copy { IfOk copies (λ it. it.step ≡ step) }
        requires empty { IfOk copies (λ it. it.room.items ≡ []) }
        requires room { IfOk copies (λ it. most_bytes step ≤ vec_capacity it.room) }
        requires memory { OnErr copies (takes_memory step ≡ true) }
        ensures before { IsRecord C.PoolSteps self.old }
        ensures after { IsRecord C.PoolSteps self.new }
        ensures taken { IfOk result (λ reply. Takes C.PoolSteps self.old step reply self.new) }
        ensures counted { Counts (weight_of step) result
            shares.old.steps.amount shares.new.steps.amount }
        ensures called { Counts 1 result shares.old.calls.amount shares.new.calls.amount }
        ensures parts { shares.new.steps.parts ≡ shares.old.steps.parts }
        ensures hindered { IfErr result (λ refusal. HindersStep step refusal self.old) }
        ensures same { OnErr result (self.new ≡ self.old) }
    {
        if self.entries.len() == ROOM {
            return Err(Refusal::RecordFull);
        }
        let Copies { step: copy, room } = copies?;
        let weight = weight_of(&step);
        let mut reply = self.core.take_step(step);
        let copied = copy_of_reply(self.alloc, room, &mut reply);
        append(&mut self.entries, copy, copied);
        self.books.count(shares, weight);
        Ok(reply)
    }

    /// Takes the step Plan and records it, as `take_step` does. The core may share its work among so many workers, who pass
    /// the gate before each item that they make.
    pub fn plan_with<R: Threads + Sync, G: Gate + Sync>(
        &mut self,
        rt: &R,
        gate: &G,
        workers: usize,
        timestamp: u64,
        shares: &mut Shares<L, M>,
    ) -> Result<Reply, Refusal>
        requires { 0 < workers }
        ensures before { IsRecord C.PoolSteps self.old }
        ensures after { IsRecord C.PoolSteps self.new }
        ensures taken { IfOk result (λ reply. Takes C.PoolSteps self.old
            (steps.Plan timestamp) reply self.new) }
        ensures counted { shares.new.steps.amount ≡ shares.old.steps.amount }
        ensures called { Counts 1 result shares.old.calls.amount shares.new.calls.amount }
        ensures parts { shares.new.steps.parts ≡ shares.old.steps.parts }
        ensures hindered { IfErr result (λ refusal.
            HindersStep (steps.Plan timestamp) refusal self.old) }
        ensures same { OnErr result (self.new ≡ self.old) }
    {
        if self.entries.len() == ROOM {
            return Err(Refusal::RecordFull);
        }
        let mut reply = self.core.plan_with(rt, gate, workers, timestamp);
        let copied = copy_of_reply(self.alloc, Vec::new(self.alloc), &mut reply);
        append(&mut self.entries, Step::Plan { timestamp }, copied);
        self.books.count(shares, 0);
        Ok(reply)
    }

    /// Lets a new record begin at the present core, and hands out the one so far.
    pub fn seal(&mut self, shares: &mut Shares<L, M>) -> Result<Vec<Entry>, Refusal>
        ensures before { IsRecord C.PoolSteps self.old }
        ensures after { IsRecord C.PoolSteps self.new }
        ensures sealed { OnOk result (Seals self.old self.new) }
        ensures out { IfOk result (λ entries. entries.items ≡ self.old.entries) }
        ensures counted { shares.new.steps.amount ≡ shares.old.steps.amount }
        ensures called { Counts 1 result shares.old.calls.amount shares.new.calls.amount }
        ensures parts { shares.new.steps.parts ≡ shares.old.steps.parts }
        ensures hindered { IfErr result (λ refusal. HindersSeal refusal self.old) }
        ensures same { OnErr result (self.new ≡ self.old) }
    {
        let sealed = self.sealed + count_writers_steps(self.entries.as_slice());
        if sealed > MOST_SEALED {
            return Err(Refusal::RecordFull);
        }
        let room = Vec::with_capacity(self.alloc, ROOM)?;
        self.sealed = sealed;
        self.start = Snapshot::of(&self.core);
        self.books.count(shares, 0);
        self.begun = Snapshot::of(&self.books.calls);
        Ok(mem::replace(&mut self.entries, room))
    }

    /// What the record tells, and that the shares of all threads have counted the steps of writers and the calls.
    pub fn audit(&mut self, all: &mut Shares<L, M>)
        requires steps { all.old.steps.parts ≡ L.parts }
        requires calls { all.old.calls.parts ≡ M.parts }
        ensures record { IsRecord C.PoolSteps self.new }
        ensures tells { Tells C.PoolSteps self.new }
        ensures counted { all.old.steps.amount ≡ self.new.sealed + writers_steps self.new.entries }
        ensures called { all.old.calls.amount ≡ self.new.begun + length self.new.entries }
        ensures same { self.new ≡ self.old }
        ensures shares { (all.new.steps.amount ≡ all.old.steps.amount)
            × (all.new.calls.amount ≡ all.old.calls.amount)
            × (all.new.steps.parts ≡ all.old.steps.parts) }
    {
        self.books.audit(all);
    }

    /// The steps of the record with their replies, in the order in which they were taken.
    pub fn entries(&self) -> &[Entry]
        ensures { result.now ≡ self.now.entries }
    {
        self.entries.as_slice()
    }

    /// The core. The record is dropped.
    pub fn into_core(self) -> C
        ensures { result ≡ self.core }
    {
        self.core
    }
}

fn append(entries: &mut Vec<Entry>, step: Step, reply: Reply)
    requires { vec_len entries.old < vec_capacity entries.old }
    ensures items { entries.new.items ≡ entries.old.items ++ entry step reply ∷ [] }
    ensures len { vec_len entries.new ≡ vec_len entries.old + 1 }
    ensures room { vec_capacity entries.old ≤ vec_capacity entries.new }
{
    entries.push(Entry { step, reply }).unwrap();
}

fn is_writers_step(step: &Step) -> bool
    ensures { result ≡ is_writers step.now }
{
    !matches!(
        step,
        Step::Close | Step::Quiesce | Step::Plan { .. } | Step::Device | Step::DiskOut(_)
    )
}

fn weight_of(step: &Step) -> u64
    ensures { result ≡ weight_of step.now }
{
    u64::from(is_writers_step(step))
}

fn count_writers_steps(entries: &[Entry]) -> u64
    ensures { result ≡ writers_steps entries.now }
{
    entries
        .iter()
        .filter(|entry| is_writers_step(&entry.step))
        .count() as u64
}
