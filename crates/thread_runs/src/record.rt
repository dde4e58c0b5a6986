//! A record on one thread: it goes on, and is printed where it is full.
ghost use Rattle.std.specs.Prelude.{◌≡◌, OnOk};
ghost use Rattle.thread_runs.specs.Printing.{PrintsRecord, PrintsRecords};

use crate::printing::print_entries;
use crate::refusal::Refusal;
use crate::syncing::{TIMESTAMP, next_step};
use pool_model::{Reply, Step};
use pool_steps::PoolSteps;
use shared_pool::{ROOM, Recorded, Shares};
use std::alloc::Global;
use std::io::Write;
use std::sync::ledger::Ledger;

/// Prints the record, and lets a new one begin.
pub(crate) fn print_record<C: PoolSteps, L: Ledger, M: Ledger, W: Write>(
    alloc: Global,
    recorded: &mut Recorded<C, L, M>,
    all: &mut Shares<L, M>,
    output: &mut W,
) -> Result<(), Refusal>
    requires { (all.old.steps.parts ≡ L.parts) × (L.parts ≡ M.parts) }
    ensures printed { OnOk result
        (PrintsRecord C.PoolSteps (W.contents output.old) (W.contents output.new)) }
    ensures parts { all.new.steps.parts ≡ all.old.steps.parts }
{
    recorded.audit(all);
    print_entries(alloc, output, recorded.entries())?;
    seal(recorded, all)
}

fn seal<C: PoolSteps, L: Ledger, M: Ledger>(
    recorded: &mut Recorded<C, L, M>,
    all: &mut Shares<L, M>,
) -> Result<(), Refusal>
    ensures { all.new.steps.parts ≡ all.old.steps.parts }
{
    match recorded.seal(all) {
        Ok(_) => Ok(()),
        Err(_) => Err(Refusal::Memory),
    }
}

/// Prints the record where it is full.
fn make_room<C: PoolSteps, L: Ledger, M: Ledger, W: Write>(
    alloc: Global,
    recorded: &mut Recorded<C, L, M>,
    all: &mut Shares<L, M>,
    output: &mut W,
) -> Result<(), Refusal>
    requires { (all.old.steps.parts ≡ L.parts) × (L.parts ≡ M.parts) }
    ensures printed { OnOk result
        (PrintsRecords C.PoolSteps (W.contents output.old) (W.contents output.new)) }
    ensures parts { all.new.steps.parts ≡ all.old.steps.parts }
{
    if recorded.entries().len() == ROOM {
        print_record(alloc, recorded, all, output)
    } else {
        Ok(())
    }
}

/// Takes a step. A record that is full is printed before.
fn take<C: PoolSteps, L: Ledger, M: Ledger, W: Write>(
    alloc: Global,
    recorded: &mut Recorded<C, L, M>,
    all: &mut Shares<L, M>,
    output: &mut W,
    step: Step,
) -> Result<Reply, Refusal>
    requires { (all.old.steps.parts ≡ L.parts) × (L.parts ≡ M.parts) }
    ensures printed { OnOk result
        (PrintsRecords C.PoolSteps (W.contents output.old) (W.contents output.new)) }
    ensures parts { all.new.steps.parts ≡ all.old.steps.parts }
{
    make_room(alloc, recorded, all, output)?;
    match recorded.take_step(step, all) {
        Ok(reply) => Ok(reply),
        Err(_) => Err(Refusal::Memory),
    }
}

/// Takes a step, and each step that brings its group on.
fn take_on<C: PoolSteps, L: Ledger, M: Ledger, W: Write>(
    alloc: Global,
    recorded: &mut Recorded<C, L, M>,
    all: &mut Shares<L, M>,
    output: &mut W,
    step: Step,
) -> Result<(), Refusal>
    requires { (all.old.steps.parts ≡ L.parts) × (L.parts ≡ M.parts) }
    ensures printed { OnOk result
        (PrintsRecords C.PoolSteps (W.contents output.old) (W.contents output.new)) }
    ensures parts { all.new.steps.parts ≡ all.old.steps.parts }
{
    let mut reply = take(alloc, recorded, all, output, step)?;
    for _ in 0..u64::MAX {
        let Some(step) = next_step(&reply) else {
            return Ok(());
        };
        reply = take(alloc, recorded, all, output, step)?;
    }
    Ok(())
}

/// Takes steps, one behind the other.
pub(crate) fn take_all<C: PoolSteps, L: Ledger, M: Ledger, W: Write>(
    alloc: Global,
    recorded: &mut Recorded<C, L, M>,
    all: &mut Shares<L, M>,
    output: &mut W,
    steps: Vec<Step>,
) -> Result<(), Refusal>
    requires { (all.old.steps.parts ≡ L.parts) × (L.parts ≡ M.parts) }
    ensures printed { OnOk result
        (PrintsRecords C.PoolSteps (W.contents output.old) (W.contents output.new)) }
    ensures parts { all.new.steps.parts ≡ all.old.steps.parts }
{
    for step in steps {
        take(alloc, recorded, all, output, step)?;
    }
    Ok(())
}

/// Commits what is planned, what waits and what is open, as far as holds and disks allow.
pub(crate) fn commit_all<C: PoolSteps, L: Ledger, M: Ledger, W: Write>(
    alloc: Global,
    recorded: &mut Recorded<C, L, M>,
    all: &mut Shares<L, M>,
    output: &mut W,
) -> Result<(), Refusal>
    requires { (all.old.steps.parts ≡ L.parts) × (L.parts ≡ M.parts) }
    ensures printed { OnOk result
        (PrintsRecords C.PoolSteps (W.contents output.old) (W.contents output.new)) }
    ensures parts { all.new.steps.parts ≡ all.old.steps.parts }
{
    let plan = Step::Plan {
        timestamp: TIMESTAMP,
    };
    take_on(alloc, recorded, all, output, Step::Device)?;
    take_on(alloc, recorded, all, output, Step::Quiesce)?;
    take_on(alloc, recorded, all, output, plan)?;
    take_on(alloc, recorded, all, output, Step::Close)
}
