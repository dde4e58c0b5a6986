//! Those who make plans.
ghost use Rattle.std.specs.Prelude.{◌<◌};
ghost use Rattle.pool_create.specs.Calls.{GrewTo};
ghost use Rattle.pool_create.specs.CoreStateOf.{disks_in, state_of};
ghost use Rattle.pool_create.specs.CoreSteps.{TakesStep};
ghost use Rattle.pool_create.specs.Moves.{Moves};

use model_disk::Disk;
use pool_create::{Core, plan_with};
use pool_model::{Reply, Step};
use std::thread::Threads;
use worker_items::OpenGate;

/// What makes the plans of a core over disks.
pub trait Planner {
    ghost use Rattle.pool_model.specs.declared.step.Step.TheVariants as steps;
    ghost use Rattle.pool_create.specs.Calls.{GrewTo};
    ghost use Rattle.pool_create.specs.CoreStateOf.{disks_in, state_of};
    ghost use Rattle.pool_create.specs.CoreSteps.{TakesStep};
    ghost use Rattle.pool_create.specs.Moves.{Moves};

    /// What it stands on beside its value: a type that threads share is one that they may share.
    ghost ready: { Type 0 };

    /// Takes the step Plan, as `Core::step` does.
    fn plan<D: Disk + Drop>(&self, core: &mut Core<D>, timestamp: u64) -> Reply
        requires { ready }
        ensures grew { GrewTo (disks_in core.old) (disks_in core.new) }
        ensures goes { TakesStep (state_of core.old) (steps.Plan timestamp)
            result (state_of core.new) }
        ensures moves { Moves (steps.Plan timestamp)
            (state_of core.old).commit (state_of core.new).commit };
}

/// The thread that takes the step, which makes the parity of the plan's blocks too.
#[derive(Clone, Copy, Drop)]
pub struct Alone;

impl Planner for Alone {
    ghost ready = { Unit {0} };

    fn plan<D: Disk + Drop>(&self, core: &mut Core<D>, timestamp: u64) -> Reply {
        core.step(Step::Plan { timestamp })
    }
}

/// So many workers, each in a thread of its own, which share the parity of a plan's blocks.
#[derive(Drop)]
pub struct Workers<'a, R> {
    rt: &'a R,
    workers: usize,
    ghost some: { 0 < workers },
}

impl<'a, R: Threads + Sync> Workers<'a, R> {
    pub fn new(rt: &'a R, workers: usize) -> Workers<'a, R>
        requires { 0 < workers }
    {
        Workers { rt, workers }
    }
}

impl<'a, R: Threads + Sync> Planner for Workers<'a, R> {
    ghost use Rattle.std.specs.Thread.{IsSync};

    ghost ready = { IsSync R.row };

    fn plan<D: Disk + Drop>(&self, core: &mut Core<D>, timestamp: u64) -> Reply {
        plan_with(self.rt, &OpenGate, self.workers, core, timestamp)
    }
}

/// One step of a core whose plans that planner makes.
pub fn step_of<D: Disk + Drop, X: Planner>(planner: &X, core: &mut Core<D>, step: Step) -> Reply
    requires { X.ready }
    ensures grew { GrewTo (disks_in core.old) (disks_in core.new) }
    ensures goes { TakesStep (state_of core.old) step result (state_of core.new) }
    ensures moves { Moves step (state_of core.old).commit (state_of core.new).commit }
{
    match step {
        Step::Plan { timestamp } => planner.plan(core, timestamp),
        other => core.step(other),
    }
}
