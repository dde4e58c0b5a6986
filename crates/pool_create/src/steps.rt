//! The steps of the first group, and what their replies come to.
ghost use Rattle.std.specs.Prelude.{◌≡◌, IfErr, IfOk};
ghost use Rattle.pool_create.specs.FirstGroup.{AreFirstSteps, RanFirst};
ghost use Rattle.pool_open.specs.Calls.{GrewTo};
ghost use Rattle.pool_open.specs.CoreStateOf.{disks_in, state_of};

use model_disk::Disk;
use pool_open::{Core, Refusal, Reply, Step, run};
use std::alloc::{AllocError, Global};

/// How many times device calls are made: four a step at most, more than the first group of any pool has.
const DEVICE_STEPS: usize = 4096;

/// Closes the open group, quiesces it, plans it and makes its device calls. A step with nothing to do does nothing.
fn first_steps(alloc: Global) -> Result<Vec<Step>, AllocError>
    ensures { IfOk result (λ steps. AreFirstSteps steps.items) }
{
    let mut steps = vec![in alloc; Step::Close, Step::Quiesce, Step::Plan { timestamp: 0 }]?;
    for _ in 0..DEVICE_STEPS {
        steps.push(Step::Device)?;
    }
    Ok(steps)
}

/// Takes these steps.
pub(crate) fn run_first<D: Disk + Drop>(
    alloc: Global,
    core: &mut Core<D>,
) -> Result<Vec<Reply>, Refusal>
    ensures ran { IfOk result (λ replies.
        RanFirst (state_of core.old) (state_of core.new) replies.items) }
    ensures grew { GrewTo (disks_in core.old) (disks_in core.new) }
    ensures refused { IfErr result (λ refusal. refusal ≡ Refusal.NoMemory) }
{
    let steps = first_steps(alloc)?;
    let mut replies = Vec::new(alloc);
    match run(core, steps, &mut replies) {
        Ok(()) => Ok(replies),
        Err(_) => Err(Refusal::NoMemory),
    }
}
