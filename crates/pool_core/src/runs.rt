//! Whole runs of a core.
ghost use Rattle.std.specs.Prelude.{◌≡◌, ◌++◌, List, OnOk, IfErr, OnErr};
ghost use Rattle.pool_model.specs.declared.step.Step.{Step};
ghost use Rattle.pool_core.specs.Runs.{Ran};
ghost use Rattle.pool_core.specs.StateOf.{state_of};

use crate::pool::Core;
use model_disk::Disk;
use pool_model::{Refusal, Reply, Step};
use std::collections::VecDeque;

/// Takes the steps in order, and adds the reply of each. At an `Err`, which is want of memory, the replies had no room for
/// one more: that step and those after it are not taken.
pub fn run<D: Disk + Drop>(
    core: &mut Core<D>,
    steps: Vec<Step>,
    replies: &mut Vec<Reply>,
) -> Result<(), Refusal>
    ensures all { OnOk result (Ran (state_of core.old) steps.items replies.old.items
        (state_of core.new) replies.new.items) }
    ensures memory { IfErr result (λ refusal. refusal ≡ Refusal.NoMemory) }
    ensures front { OnErr result ((taken rest : List Step) × (taken ++ rest ≡ steps.items)
        × Ran (state_of core.old) taken replies.old.items (state_of core.new) replies.new.items) }
{
    let mut left = VecDeque::from_vec(steps);
    'taking: while let Some(step) = left.pop_front() {
        if replies.try_reserve(1).is_err() {
            return Err(Refusal::NoMemory);
        }
        let reply = core.step(step);
        let Ok(()) = replies.push(reply) else {
            return Err(Refusal::NoMemory);
        };
    }
    Ok(())
}
