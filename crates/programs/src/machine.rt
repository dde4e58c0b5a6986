//! Pools that take the machine's steps.
ghost use Rattle.std.specs.Prelude.{IfOk, IfErr};

use plain_machine::Machine;
use planners::Planner;
use pool_model::{Refusal, Reply, Step};
use schedule_lines::PoolLine;
use std::alloc::Global;

/// A pool that takes the machine's steps.
pub trait StepMachine: Drop {
    ghost use Rattle.pool_model.specs.declared.refusal.Refusal.{Refusal};
    ghost use Rattle.pool_model.specs.declared.step.Step.{Step};
    ghost use Rattle.pool_model.specs.declared.step.Reply.{Reply};
    ghost use Rattle.schedule_lines.specs.declared.command.PoolLine.{PoolLine};

    /// The pools that a schedule's first line may make.
    ghost creates: { PoolLine → Self → Type 0 };

    /// Why a first line may make none.
    ghost refuses: { PoolLine → Refusal → Type 0 };

    /// What a step may answer, and the pool after it.
    ghost steps: { Self → Step → Reply → Self → Type 0 };

    /// The pool of a schedule's first line: an empty one, committed as group 3 under claim 1.
    fn create(alloc: Global, line: &PoolLine) -> Result<Self, Refusal>
        ensures made { IfOk result (λ pool. creates line.now pool) }
        ensures refused { IfErr result (λ cause. refuses line.now cause) };

    /// One step, taken whole. A core over disks has its plans made by that planner.
    fn step<X: Planner>(&mut self, planner: &X, step: Step) -> Reply
        requires { X.ready }
        ensures { steps self.old step result self.new };
}

/// The machine in memory, which has no disks: each first line makes the same pool.
impl StepMachine for Machine {
    ghost use Rattle.std.specs.Prelude.{[]};
    ghost use Rattle.pool_model.specs.View.{started};
    ghost use Rattle.plain_machine.specs.Represents.{Represents, TakesStep};

    ghost creates = { λ _ machine. Represents machine (started []) };

    ghost refuses = { λ _ _. ⊥ };

    ghost steps = { TakesStep };

    fn create(alloc: Global, _line: &PoolLine) -> Result<Machine, Refusal> {
        Ok(Machine::create(alloc))
    }

    fn step<X: Planner>(&mut self, _planner: &X, step: Step) -> Reply {
        Machine::step(self, step)
    }
}
