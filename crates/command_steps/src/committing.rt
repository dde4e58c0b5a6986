//! Commits of what the open group has.
ghost use Rattle.std.specs.Prelude.{◌≡◌, [], ◌∷◌, MatchOption};
ghost use Rattle.command_steps.specs.Changes.{Commits};
ghost use Rattle.command_steps.specs.Due.{next_of};
ghost use Rattle.command_steps.specs.Sessions.{RunsOn};

use pool_model::{Reply, Step};
use pool_steps::PoolSteps;

/// Closes the open group with what it has, and commits it. The timestamp goes into the uberblock.
///
/// `Committed` says that the next group is committed: of a pool at rest, with the pool of the last one. The first refusal
/// ends it and is the answer: no group is committed then. Where what the disks answer tells what was written, another answer comes only after 2^64
/// steps.
pub fn commit<P: PoolSteps>(pool: &mut P, timestamp: u64) -> Reply
    ensures follows { P.came_from pool.old pool.new }
    ensures commits { Commits P.PoolSteps timestamp pool.old result pool.new }
{
    run_on(pool, Step::Close, timestamp)
}

/// Takes a step, and each step that brings its group on: the last reply.
pub(crate) fn run_on<P: PoolSteps>(pool: &mut P, step: Step, timestamp: u64) -> Reply
    ensures { RunsOn P.PoolSteps timestamp pool.old (step ∷ []) result pool.new }
{
    let mut reply = pool.take_step(step);
    for _ in 0..u64::MAX {
        let Some(step) = next_step(&reply, timestamp) else {
            return reply;
        };
        reply = pool.take_step(step);
    }
    reply
}

/// The step that brings the group of a reply on, unless it is committed or refused.
fn next_step(reply: &Reply, timestamp: u64) -> Option<Step>
    ensures { MatchOption result (next_of timestamp reply.now ≡ [])
        (λ step. next_of timestamp reply.now ≡ step ∷ []) }
{
    match reply {
        Reply::Closed(_) => Some(Step::Quiesce),
        Reply::Quiesced(_) | Reply::Replan(_) => Some(Step::Plan { timestamp }),
        Reply::Planned(_) | Reply::Moved(_) => Some(Step::Device),
        _ => None,
    }
}
