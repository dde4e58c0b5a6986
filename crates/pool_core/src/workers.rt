//! Plans that workers share.
ghost use Rattle.std.specs.Prelude.{◌<◌};
ghost use Rattle.pool_model.specs.declared.step.Step.TheVariants as steps;
ghost use Rattle.pool_commit.specs.Calls.{GrewTo};
ghost use Rattle.pool_core.specs.Moves.{Moves};
ghost use Rattle.pool_core.specs.StateOf.{disks_in, state_of};
ghost use Rattle.pool_core.specs.Steps.{TakesStep};

use crate::pool::Core;
use model_disk::Disk;
use pool_model::{Refusal, Reply, Step};
use std::thread::Threads;
use worker_items::Gate;

/// Takes the step Plan, and shares the parity of the plan's blocks among workers, each in a thread of its own: worker k makes
/// that of the extents whose number, in the plan's order, is k modulo the number of workers, and passes the gate before each.
/// Where memory for that is short it is made on this thread, without a gate. `step` is the same with this thread as its one worker,
/// which passes no gate.
pub fn plan_with<D: Disk + Drop, R: Threads + Sync, G: Gate + Sync>(
    rt: &R,
    gate: &G,
    workers: usize,
    core: &mut Core<D>,
    timestamp: u64,
) -> Reply
    requires { 0 < workers }
    ensures grew { GrewTo (disks_in core.old) (disks_in core.new) }
    ensures goes { TakesStep (state_of core.old) (steps.Plan timestamp)
        result (state_of core.new) }
    ensures moves { Moves (steps.Plan timestamp)
        (state_of core.old).commit (state_of core.new).commit }
{
    if core.is_refused(&Step::Plan { timestamp }) {
        return Reply::Refused(Refusal::Suspended);
    }
    let reply = core.plan_blocks(timestamp);
    let alloc = core.alloc;
    if core.commit.make_due(rt, alloc, gate, workers).is_err() {
        core.commit.make_due_here();
    }
    reply
}
