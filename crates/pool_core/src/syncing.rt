//! Plans and device calls.
ghost use Rattle.std.specs.Prelude.{◌≡◌, ℕ, suc, true, if◌then◌else◌};
ghost use Rattle.pool_model.specs.declared.refusal.Refusal.TheVariants as causes;
ghost use Rattle.pool_model.specs.declared.step.Reply.TheVariants as replies;
ghost use Rattle.pool_model.specs.declared.step.Step.TheVariants as steps;
ghost use Rattle.pool_model.specs.Machine.{committed_next};
ghost use Rattle.pool_model.specs.View.{View, is_syncing, is_suspended};
ghost use Rattle.pool_commit.specs.Backs.{Backs};
ghost use Rattle.pool_commit.specs.Calls.{GrewTo};
ghost use Rattle.pool_intake.specs.Follows.{Follows};
ghost use Rattle.pool_core.specs.Moves.{Moves};
ghost use Rattle.pool_core.specs.StateOf.{disks_in, state_of};
ghost use Rattle.pool_core.specs.Steps.{TakesStepUnlessSuspended};

use crate::pool::Core;
use model_disk::Disk;
use pool_commit::Progress;
use pool_model::{Refusal, Reply};

impl<D: Disk + Drop> Core<D> {
    /// Takes the step Plan, and makes the parity of the plan's blocks on this thread, in the plan's order.
    pub(crate) fn plan(&mut self, timestamp: u64) -> Reply
        ensures grew { GrewTo (disks_in self.old) (disks_in self.new) }
        ensures goes { (time : ℕ) → TakesStepUnlessSuspended (state_of self.old)
            (steps.Plan time) result (state_of self.new) }
        ensures moves { Moves (steps.Plan timestamp)
            (state_of self.old).commit (state_of self.new).commit }
    {
        let reply = self.plan_blocks(timestamp);
        self.commit.make_due_here();
        reply
    }

    /// Takes the quiesced group to be synced, or the one whose plan was dropped, and plans it. The parity of its blocks is still to be made.
    pub(crate) fn plan_blocks(&mut self, timestamp: u64) -> Reply
        ensures grew { GrewTo (disks_in self.old) (disks_in self.new) }
        ensures goes { (time : ℕ) → TakesStepUnlessSuspended (state_of self.old)
            (steps.Plan time) result (state_of self.new) }
        ensures moves { Moves (steps.Plan timestamp)
            (state_of self.old).commit (state_of self.new).commit }
    {
        if self.commit.is_planned() {
            return Reply::Refused(Refusal::NotNow);
        }
        match self.intake.begin_sync() {
            Ok(()) => {}
            Err(cause) => return Reply::Refused(cause),
        }
        let Some(items) = self.intake.syncing_items() else {
            return Reply::Refused(Refusal::NotNow);
        };
        match self.commit.plan(self.alloc, items, timestamp) {
            Ok(()) => Reply::Planned(self.intake.committed_group().saturating_add(1)),
            Err(refusal) => Reply::Refused(Refusal::from(refusal)),
        }
    }

    /// Makes the next device calls of the plan.
    pub(crate) fn device(&mut self) -> Reply
        ensures grew { GrewTo (disks_in self.old) (disks_in self.new) }
        ensures goes { TakesStepUnlessSuspended (state_of self.old) steps.Device result
            (state_of self.new) }
        ensures moves { Moves steps.Device (state_of self.old).commit (state_of self.new).commit }
    {
        match self.commit.device() {
            None => Reply::Refused(Refusal::NotNow),
            Some(Progress::Moved(phase)) => Reply::Moved(phase),
            Some(Progress::Done) => self.commit_group(),
            Some(Progress::Dropped(disk)) => self.replan(disk),
        }
    }

    /// All device calls of the group that is synced are made.
    fn commit_group(&mut self) -> Reply
        ensures commit { (state_of self.new).commit ≡ (state_of self.old).commit }
        ensures committed { (v : View) → Follows (state_of self.old).intake v
            → is_syncing v.sync ≡ true
            → (result ≡ replies.Committed (suc v.committed))
            × Follows (state_of self.new).intake (committed_next v) }
    {
        match self.intake.commit() {
            Ok(group) => Reply::Committed(group),
            Err(cause) => Reply::Refused(cause),
        }
    }

    /// A disk failed a call of the plan, which is dropped: the pool waits to be planned again, or it is suspended.
    fn replan(&self, disk: usize) -> Reply
        ensures { (v : View) → Backs (state_of self.now).commit v
            → result ≡
            (if is_suspended v then replies.Refused causes.Suspended else replies.Replan disk) }
    {
        if self.commit.is_suspended() {
            return Reply::Refused(Refusal::Suspended);
        }
        Reply::Replan(disk)
    }
}
