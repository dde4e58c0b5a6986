//! What the commands of a schedule do to a pool.
ghost use Rattle.std.specs.Prelude.{◌≡◌, MatchOption, IfOk, OnErr};
ghost use Rattle.programs.specs.Answers.{Answers, IsNoStep, RunsOn, runs_on};

use crate::machine::StepMachine;
use line_steps::{first_step, next_step};
use planners::Planner;
use pool_model::{Reply, Step};
use schedule_lines::Command;
use std::alloc::{AllocError, Global};

/// Takes a step, and each step that brings its group on: the last reply.
fn run_on<P: StepMachine, X: Planner>(planner: &X, pool: &mut P, step: Step) -> Reply
    requires { X.ready }
    ensures { RunsOn P.steps pool.old step result pool.new }
{
    let mut reply = pool.step(planner, step);
    for _ in 0..u64::MAX {
        let Some(step) = next_step(&reply) else {
            return reply;
        };
        reply = pool.step(planner, step);
    }
    reply
}

/// Whether a command goes on from its first step.
pub(crate) fn runs_on(command: &Command) -> bool
    ensures { result ≡ runs_on command.now }
{
    matches!(command, Command::Commit | Command::Sync)
}

/// Does what a command asks, and gives the reply that is printed: none where the command is no step of a pool.
pub fn answer<P: StepMachine, X: Planner>(
    planner: &X,
    alloc: Global,
    pool: &mut P,
    command: Command,
) -> Result<Option<Reply>, AllocError>
    requires { X.ready }
    ensures ok { IfOk result (λ found. MatchOption found
        (IsNoStep command × (pool.new ≡ pool.old))
        (λ last. Answers P.steps pool.old command last pool.new)) }
    ensures err { OnErr result (pool.new ≡ pool.old) }
{
    let goes_on = runs_on(&command);
    let Some(step) = first_step(alloc, command)? else {
        return Ok(None);
    };
    Ok(Some(if goes_on {
        run_on(planner, pool, step)
    } else {
        pool.step(planner, step)
    }))
}
