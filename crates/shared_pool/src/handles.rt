//! What threads hold of a shared pool.
ghost use Rattle.std.specs.Prelude.{◌≡◌, ◌<◌, IfOk, IfErr};
ghost use Rattle.pool_model.specs.declared.step.Step.TheVariants as steps;
ghost use Rattle.shared_pool.specs.Moments.{Answers, WasSealed, WasNotSealed};
ghost use Rattle.shared_pool.specs.Weights.{Counts};

use crate::counts::Shares;
use crate::pool::SharedPool;
use crate::recorded::Entry;
use crate::refusal::Refusal;
use pool_model::{Action, Bytes, Change, Name, Reply, Step, Write};
use pool_steps::PoolSteps;
use std::sync::Wait;
use std::sync::ledger::Ledger;
use std::thread::Threads;
use worker_items::Gate;

/// Takes the steps of one writer. Its share counts them.
#[derive(Drop)]
pub struct Writer<'a, C: PoolSteps, L: Ledger, M: Ledger> {
    pub(crate) pool: &'a SharedPool<C, L, M>,
    pub(crate) number: u32,
    pub(crate) shares: Shares<L, M>,
}

/// Closes the open group, and quiesces the one that waits.
#[derive(Drop)]
pub struct Quiescer<'a, C: PoolSteps, L: Ledger, M: Ledger> {
    pub(crate) pool: &'a SharedPool<C, L, M>,
    pub(crate) shares: Shares<L, M>,
}

/// Plans groups, makes their device calls, takes disks out, and seals the record.
#[derive(Drop)]
pub struct Syncer<'a, C: PoolSteps, L: Ledger, M: Ledger> {
    pub(crate) pool: &'a SharedPool<C, L, M>,
    pub(crate) shares: Shares<L, M>,
}

impl<'a, C: PoolSteps, L: Ledger, M: Ledger> Writer<'a, C, L, M> {
    /// Takes a hold of the open group.
    pub fn hold<R: Wait>(&mut self, rt: &R) -> Result<Reply, Refusal>
        ensures answered { Answers C.PoolSteps (steps.Hold self.old.number) result }
        ensures counted { Counts 1 result
            self.old.shares.steps.amount self.new.shares.steps.amount }
        ensures called { Counts 1 result self.old.shares.calls.amount self.new.shares.calls.amount }
        ensures parts { self.new.shares.steps.parts ≡ self.old.shares.steps.parts }
        ensures number { self.new.number ≡ self.old.number }
    {
        self.pool
            .take_step(rt, Step::Hold(self.number), &mut self.shares)
    }

    /// Gives the hold back.
    pub fn release<R: Wait>(&mut self, rt: &R) -> Result<Reply, Refusal>
        ensures answered { Answers C.PoolSteps (steps.Release self.old.number) result }
        ensures counted { Counts 1 result
            self.old.shares.steps.amount self.new.shares.steps.amount }
        ensures called { Counts 1 result self.old.shares.calls.amount self.new.shares.calls.amount }
        ensures parts { self.new.shares.steps.parts ≡ self.old.shares.steps.parts }
        ensures number { self.new.number ≡ self.old.number }
    {
        self.pool
            .take_step(rt, Step::Release(self.number), &mut self.shares)
    }

    /// Writes bytes to a volume.
    pub fn write<R: Wait>(
        &mut self,
        rt: &R,
        number: u64,
        volume: Name,
        offset: u64,
        bytes: Bytes,
    ) -> Result<Reply, Refusal>
        ensures answered { Answers C.PoolSteps (steps.Write (record {
          writer = self.old.number;
          number = number;
          volume = volume;
          offset = offset;
          bytes = bytes;
        })) result }
        ensures counted { Counts 1 result
            self.old.shares.steps.amount self.new.shares.steps.amount }
        ensures called { Counts 1 result self.old.shares.calls.amount self.new.shares.calls.amount }
        ensures parts { self.new.shares.steps.parts ≡ self.old.shares.steps.parts }
        ensures number { self.new.number ≡ self.old.number }
    {
        let write = Write {
            writer: self.number,
            number,
            volume,
            offset,
            bytes,
        };
        self.pool
            .take_step(rt, Step::Write(write), &mut self.shares)
    }

    /// Makes or destroys volumes and snapshots.
    pub fn act<R: Wait>(&mut self, rt: &R, number: u64, change: Change) -> Result<Reply, Refusal>
        ensures answered { Answers C.PoolSteps (steps.Act (record {
          writer = self.old.number;
          number = number;
          change = change;
        })) result }
        ensures counted { Counts 1 result
            self.old.shares.steps.amount self.new.shares.steps.amount }
        ensures called { Counts 1 result self.old.shares.calls.amount self.new.shares.calls.amount }
        ensures parts { self.new.shares.steps.parts ≡ self.old.shares.steps.parts }
        ensures number { self.new.number ≡ self.old.number }
    {
        let action = Action {
            writer: self.number,
            number,
            change,
        };
        self.pool.take_step(rt, Step::Act(action), &mut self.shares)
    }

    /// Reads what all accepted groups make.
    pub fn read<R: Wait>(
        &mut self,
        rt: &R,
        name: Name,
        offset: u64,
        len: u64,
    ) -> Result<Reply, Refusal>
        ensures answered { Answers C.PoolSteps (steps.Read name offset len) result }
        ensures counted { Counts 1 result
            self.old.shares.steps.amount self.new.shares.steps.amount }
        ensures called { Counts 1 result self.old.shares.calls.amount self.new.shares.calls.amount }
        ensures parts { self.new.shares.steps.parts ≡ self.old.shares.steps.parts }
        ensures number { self.new.number ≡ self.old.number }
    {
        self.pool
            .take_step(rt, Step::Read { name, offset, len }, &mut self.shares)
    }

    /// Reads what a committed group contains.
    pub fn read_under<R: Wait>(
        &mut self,
        rt: &R,
        group: u64,
        name: Name,
        offset: u64,
        len: u64,
    ) -> Result<Reply, Refusal>
        ensures answered { Answers C.PoolSteps (steps.ReadUnder group name offset len) result }
        ensures counted { Counts 1 result
            self.old.shares.steps.amount self.new.shares.steps.amount }
        ensures called { Counts 1 result self.old.shares.calls.amount self.new.shares.calls.amount }
        ensures parts { self.new.shares.steps.parts ≡ self.old.shares.steps.parts }
        ensures number { self.new.number ≡ self.old.number }
    {
        self.pool.take_step(
            rt,
            Step::ReadUnder {
                group,
                name,
                offset,
                len,
            },
            &mut self.shares,
        )
    }

    /// The shares, given back.
    pub fn into_shares(self) -> Shares<L, M>
        ensures { result ≡ self.entry.shares }
    {
        self.shares
    }
}

impl<'a, C: PoolSteps, L: Ledger, M: Ledger> Quiescer<'a, C, L, M> {
    /// Lets the open group wait, and opens the next.
    pub fn close<R: Wait>(&mut self, rt: &R) -> Result<Reply, Refusal>
        ensures answered { Answers C.PoolSteps steps.Close result }
        ensures counted { self.new.shares.steps.amount ≡ self.old.shares.steps.amount }
        ensures called { Counts 1 result self.old.shares.calls.amount self.new.shares.calls.amount }
        ensures parts { self.new.shares.steps.parts ≡ self.old.shares.steps.parts }
    {
        self.pool.take_step(rt, Step::Close, &mut self.shares)
    }

    /// Asks that the waiting group be quiesced.
    pub fn quiesce<R: Wait>(&mut self, rt: &R) -> Result<Reply, Refusal>
        ensures answered { Answers C.PoolSteps steps.Quiesce result }
        ensures counted { self.new.shares.steps.amount ≡ self.old.shares.steps.amount }
        ensures called { Counts 1 result self.old.shares.calls.amount self.new.shares.calls.amount }
        ensures parts { self.new.shares.steps.parts ≡ self.old.shares.steps.parts }
    {
        self.pool.take_step(rt, Step::Quiesce, &mut self.shares)
    }

    /// The shares, given back.
    pub fn into_shares(self) -> Shares<L, M>
        ensures { result ≡ self.entry.shares }
    {
        self.shares
    }
}

impl<'a, C: PoolSteps, L: Ledger, M: Ledger> Syncer<'a, C, L, M> {
    /// Takes the quiesced group to be synced, or plans again the syncing one whose plan was dropped.
    pub fn plan<R: Wait>(&mut self, rt: &R, timestamp: u64) -> Result<Reply, Refusal>
        ensures answered { Answers C.PoolSteps (steps.Plan timestamp) result }
        ensures counted { self.new.shares.steps.amount ≡ self.old.shares.steps.amount }
        ensures called { Counts 1 result self.old.shares.calls.amount self.new.shares.calls.amount }
        ensures parts { self.new.shares.steps.parts ≡ self.old.shares.steps.parts }
    {
        self.pool
            .take_step(rt, Step::Plan { timestamp }, &mut self.shares)
    }

    /// The same. The core may share its work among so many workers, who pass the gate before each item that they make.
    pub fn plan_with<R: Threads + Wait + Sync, G: Gate + Sync>(
        &mut self,
        rt: &R,
        gate: &G,
        workers: usize,
        timestamp: u64,
    ) -> Result<Reply, Refusal>
        requires { 0 < workers }
        ensures answered { Answers C.PoolSteps (steps.Plan timestamp) result }
        ensures counted { self.new.shares.steps.amount ≡ self.old.shares.steps.amount }
        ensures called { Counts 1 result self.old.shares.calls.amount self.new.shares.calls.amount }
        ensures parts { self.new.shares.steps.parts ≡ self.old.shares.steps.parts }
    {
        self.pool
            .plan_with(rt, gate, workers, timestamp, &mut self.shares)
    }

    /// Makes the next device calls of the plan.
    pub fn device<R: Wait>(&mut self, rt: &R) -> Result<Reply, Refusal>
        ensures answered { Answers C.PoolSteps steps.Device result }
        ensures counted { self.new.shares.steps.amount ≡ self.old.shares.steps.amount }
        ensures called { Counts 1 result self.old.shares.calls.amount self.new.shares.calls.amount }
        ensures parts { self.new.shares.steps.parts ≡ self.old.shares.steps.parts }
    {
        self.pool.take_step(rt, Step::Device, &mut self.shares)
    }

    /// Takes the disk of this number out of use.
    pub fn put_out<R: Wait>(&mut self, rt: &R, disk: usize) -> Result<Reply, Refusal>
        ensures answered { Answers C.PoolSteps (steps.DiskOut disk) result }
        ensures counted { self.new.shares.steps.amount ≡ self.old.shares.steps.amount }
        ensures called { Counts 1 result self.old.shares.calls.amount self.new.shares.calls.amount }
        ensures parts { self.new.shares.steps.parts ≡ self.old.shares.steps.parts }
    {
        self.pool
            .take_step(rt, Step::DiskOut(disk), &mut self.shares)
    }

    /// Lets a new record begin, and hands out the one so far.
    pub fn seal<R: Wait>(&mut self, rt: &R) -> Result<Vec<Entry>, Refusal>
        ensures sealed { IfOk result (λ entries. WasSealed C.PoolSteps entries.items) }
        ensures hindered { IfErr result (λ refusal. WasNotSealed C.PoolSteps refusal) }
        ensures counted { self.new.shares.steps.amount ≡ self.old.shares.steps.amount }
        ensures called { Counts 1 result self.old.shares.calls.amount self.new.shares.calls.amount }
        ensures parts { self.new.shares.steps.parts ≡ self.old.shares.steps.parts }
    {
        self.pool.seal(rt, &mut self.shares)
    }

    /// The shares, given back.
    pub fn into_shares(self) -> Shares<L, M>
        ensures { result ≡ self.entry.shares }
    {
        self.shares
    }
}
