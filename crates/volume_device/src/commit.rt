//! The commit of the open group.
ghost use Rattle.std.specs.Prelude.{◌≡◌, [], ◌∷◌, MatchOption};
ghost use Rattle.command_steps.specs.Due.{next_of};
ghost use Rattle.volume_device.specs.Commits.{Commits};

use pool_model::{Reply, Step};
use pool_steps::PoolSteps;

/// Closes the open group, which nobody holds, and commits it: the last reply. `Committed` says that it is committed. Where
/// what the disks answer tells what was written, a reply that is no refusal either comes only after 2^64 steps.
pub(crate) fn commit<P: PoolSteps>(core: &mut P, timestamp: u64) -> Reply
    ensures { Commits P.PoolSteps core.old result core.new }
{
    let mut reply = core.take_step(Step::Close);
    for _ in 0..u64::MAX {
        let Some(step) = next_step(&reply, timestamp) else {
            return reply;
        };
        reply = core.take_step(step);
    }
    reply
}

/// The step that brings the group on after this reply, unless it is committed or refused.
fn next_step(reply: &Reply, timestamp: u64) -> Option<Step>
    ensures { MatchOption result (next_of timestamp reply.now ≡ [])
        (λ step. next_of timestamp reply.now ≡ step ∷ []) }
{
    match reply {
        Reply::Closed(_) => Some(Step::Quiesce),
        Reply::Quiesced(_) | Reply::Replan(_) => Some(Step::Plan { timestamp }),
        Reply::Planned(_) | Reply::Moved(_) => Some(Step::Device),
        _ => None,
    }
}
