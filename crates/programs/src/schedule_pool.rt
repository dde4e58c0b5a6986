//! Pools that schedules are run against.
ghost use Rattle.std.specs.Prelude.{IfErr, IfOk, MatchOption};

use crate::commands::answer;
use crate::machine::StepMachine;
use crate::outcome::Outcome;
use planners::Planner;
use pool_model::Refusal;
use schedule_lines::{Command, PoolLine};
use std::alloc::{AllocError, Global};

/// A pool that the commands of a schedule are run against.
pub trait SchedulePool: Drop {
    ghost use Rattle.pool_model.specs.declared.refusal.Refusal.{Refusal};
    ghost use Rattle.programs.specs.declared.outcome.Outcome.{Outcome};
    ghost use Rattle.schedule_lines.specs.declared.command.Command.{Command};
    ghost use Rattle.schedule_lines.specs.declared.command.PoolLine.{PoolLine};

    /// The pools that a schedule's first line may make.
    ghost creates: { PoolLine → Self → Type 0 };

    /// Why a first line may make none.
    ghost refuses: { PoolLine → Refusal → Type 0 };

    /// What may come of a command, and the pool after it.
    ghost outcomes: { Self → Command → Outcome → Self → Type 0 };

    /// The commands that can't stand before the pool as it is.
    ghost faults: { Self → Command → Type 0 };

    /// The pool of a schedule's first line: an empty one, committed as group 3 under claim 1.
    fn create(alloc: Global, line: &PoolLine) -> Result<Self, Refusal>
        ensures made { IfOk result (λ pool. creates line.now pool) }
        ensures refused { IfErr result (λ cause. refuses line.now cause) };

    /// Runs a command: none where it can't stand here. After an error the pool is of no more use.
    fn run_command<X: Planner>(
        &mut self,
        planner: &X,
        alloc: Global,
        command: Command,
    ) -> Result<Option<Outcome>, AllocError>
        requires { X.ready }
        ensures { IfOk result (λ found. MatchOption found (faults self.old command)
            (λ outcome. outcomes self.old command outcome self.new)) };
}

/// A machine of steps, whose outcomes are its replies. It has no disks that could be stopped or opened.
impl<P: StepMachine> SchedulePool for P {
    ghost use Rattle.programs.specs.Answers.{IsNoStep};
    ghost use Rattle.programs.specs.Outcomes.{Replies};

    ghost creates = { P.creates };

    ghost refuses = { P.refuses };

    ghost outcomes = { Replies P.steps };

    ghost faults = { λ _ command. IsNoStep command };

    fn create(alloc: Global, line: &PoolLine) -> Result<P, Refusal> {
        <P as StepMachine>::create(alloc, line)
    }

    fn run_command<X: Planner>(
        &mut self,
        planner: &X,
        alloc: Global,
        command: Command,
    ) -> Result<Option<Outcome>, AllocError> {
        match answer(planner, alloc, self, command)? {
            None => Ok(None),
            Some(reply) => Ok(Some(Outcome::Replied(reply))),
        }
    }
}
