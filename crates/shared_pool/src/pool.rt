//! The core under a lock.
ghost use Rattle.std.specs.Prelude.{◌≡◌, ◌<◌};

use crate::copies::copies_for;
use crate::counts::Shares;
use crate::handles::{Quiescer, Syncer, Writer};
use crate::recorded::{Entry, Recorded};
use crate::refusal::Refusal;
use pool_model::{Reply, Step};
use pool_steps::PoolSteps;
use std::alloc::Global;
use std::sync::ledger::Ledger;
use std::sync::{Mutex, Wait};
use std::thread::Threads;
use worker_items::Gate;

/// A pool that threads share. Each thread takes its steps through handles: `Writer`, `Quiescer`, `Syncer`.
#[derive(Drop)]
pub struct SharedPool<C: PoolSteps, L: Ledger, M: Ledger> {
    alloc: Global,
    recorded: Mutex<Recorded<C, L, M>>,
}

impl<C: PoolSteps, L: Ledger, M: Ledger> SharedPool<C, L, M> {
    ghost use Rattle.std.specs.Prelude.{IfOk, IfErr};
    ghost use Rattle.pool_model.specs.declared.step.Step.TheVariants as steps;
    ghost use Rattle.shared_pool.specs.Moments.{Answers, WasSealed, WasNotSealed};
    ghost use Rattle.shared_pool.specs.Weights.{Counts, weight_of};

    pub fn new(recorded: Recorded<C, L, M>) -> SharedPool<C, L, M> {
        SharedPool {
            alloc: recorded.alloc(),
            recorded: Mutex::new(recorded),
        }
    }

    /// The record, once no thread has a handle.
    pub fn into_inner(self) -> Recorded<C, L, M> {
        self.recorded.into_inner()
    }

    /// A handle of the writer with this number.
    pub fn writer(&self, number: u32, shares: Shares<L, M>) -> Writer<'_, C, L, M>
        ensures shares { result.shares ≡ shares }
        ensures number { result.number ≡ number }
    {
        Writer {
            pool: self,
            number,
            shares,
        }
    }

    /// A handle of what closes and quiesces groups.
    pub fn quiescer(&self, shares: Shares<L, M>) -> Quiescer<'_, C, L, M>
        ensures { result.shares ≡ shares }
    {
        Quiescer { pool: self, shares }
    }

    /// A handle of what plans groups and writes them.
    pub fn syncer(&self, shares: Shares<L, M>) -> Syncer<'_, C, L, M>
        ensures { result.shares ≡ shares }
    {
        Syncer { pool: self, shares }
    }

    /// Takes one step, at some moment between other threads' steps.
    pub(crate) fn take_step<R: Wait>(
        &self,
        rt: &R,
        mut step: Step,
        shares: &mut Shares<L, M>,
    ) -> Result<Reply, Refusal>
        ensures answered { Answers C.PoolSteps step result }
        ensures counted { Counts (weight_of step) result
            shares.old.steps.amount shares.new.steps.amount }
        ensures called { Counts 1 result shares.old.calls.amount shares.new.calls.amount }
        ensures parts { shares.new.steps.parts ≡ shares.old.steps.parts }
    {
        // Copied before the lock is taken: no other thread waits for it.
        let copies = copies_for(self.alloc, &mut step);
        self.recorded.lock(rt).take_copied(step, copies, shares)
    }

    /// Takes the step Plan with so many workers, at some such moment.
    pub(crate) fn plan_with<R: Threads + Wait + Sync, G: Gate + Sync>(
        &self,
        rt: &R,
        gate: &G,
        workers: usize,
        timestamp: u64,
        shares: &mut Shares<L, M>,
    ) -> Result<Reply, Refusal>
        requires { 0 < workers }
        ensures answered { Answers C.PoolSteps (steps.Plan timestamp) result }
        ensures counted { shares.new.steps.amount ≡ shares.old.steps.amount }
        ensures called { Counts 1 result shares.old.calls.amount shares.new.calls.amount }
        ensures parts { shares.new.steps.parts ≡ shares.old.steps.parts }
    {
        self.recorded
            .lock(rt)
            .plan_with(rt, gate, workers, timestamp, shares)
    }

    /// Seals the record, at some such moment.
    pub(crate) fn seal<R: Wait>(
        &self,
        rt: &R,
        shares: &mut Shares<L, M>,
    ) -> Result<Vec<Entry>, Refusal>
        ensures sealed { IfOk result (λ entries. WasSealed C.PoolSteps entries.items) }
        ensures hindered { IfErr result (λ refusal. WasNotSealed C.PoolSteps refusal) }
        ensures counted { shares.new.steps.amount ≡ shares.old.steps.amount }
        ensures called { Counts 1 result shares.old.calls.amount shares.new.calls.amount }
        ensures parts { shares.new.steps.parts ≡ shares.old.steps.parts }
    {
        self.recorded.lock(rt).seal(shares)
    }
}
