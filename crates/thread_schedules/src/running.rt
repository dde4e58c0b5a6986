//! Schedules of which threads run a part.
ghost use Rattle.std.specs.Prelude.{◌≡◌, ◌+◌, ◌<◌, ◌≤◌, ◌↔◌, OnOk, IfErr};
ghost use Rattle.pool_model.specs.View.{View};
ghost use Rattle.pool_create.specs.CoreStateOf.{state_of};
ghost use Rattle.pool_create.specs.Represents.{Represents};
ghost use Rattle.programs.specs.Faults.{IsNoLine};
ghost use Rattle.thread_schedules.specs.Ends.{EndsInThreads, IsThreadsFault, RunsInThreads};
ghost use Rattle.thread_schedules.specs.Runs.{PrintsRuns};

use crate::back::{read_back, read_nothing};
use crate::begun::{Beginning, Begun, SharedPlanner};
use crate::core_pool::CorePool;
use crate::front::run_front;
use crate::stage::core_at;
use model_disk::{MemDisk, Member};
use programs::{Core, ExitStatus, Lines, Refusal, SchedulePool};
use shared_pool::{Books, Recorded};
use std::alloc::Global;
use std::io::{BufRead, Write};
use std::marker::{Brand, PhantomData};
use std::sync::Wait;
use std::sync::ledger::{Blank, Ledger};
use std::thread::Threads;
use thread_runs::{ThreadLines, run_in_threads};

fn refused(refusal: thread_runs::Refusal) -> Refusal
    ensures { IsNoLine result }
{
    match refusal {
        thread_runs::Refusal::Output => Refusal::Output,
        thread_runs::Refusal::Memory => Refusal::Memory,
    }
}

/// Runs lines by threads over a core, in ledgers of its own.
fn run_begun<
    X: SharedPlanner + Sync,
    J: Beginning + Send + Sync,
    L: Ledger + Send + Sync,
    M: Ledger + Send + Sync,
    R: Threads + Wait + Sync,
    W: Write,
>(
    rt: &R,
    planner: &X,
    alloc: Global,
    core: Core<Member<MemDisk>>,
    lines: ThreadLines,
    output: &mut W,
    steps: Blank,
    calls: Blank,
) -> Result<(), Refusal>
    requires ready { X.ready }
    requires begins { (v : View) → J.represents v ↔ Represents (state_of core) v }
    requires steps { (steps.name ≡ L.name) × (steps.parts ≡ L.parts) }
    requires calls { (calls.name ≡ M.name) × (calls.parts ≡ M.parts) }
    requires parts { (steps.parts ≡ lines.threads + 3) × (calls.parts ≡ lines.threads + 3) }
    requires threads { 0 < lines.threads }
    ensures ok { OnOk result
        (PrintsRuns (state_of core) (W.contents output.old) (W.contents output.new)) }
    ensures fault { IfErr result IsNoLine }
{
    let (books, all) = Books::<L, M>::open(steps, calls);
    let begun = Begun::<X, J> {
        core,
        planner,
        beginning: PhantomData,
    };
    let Ok(recorded) = Recorded::new(alloc, begun, books) else {
        return Err(Refusal::Memory);
    };
    match run_in_threads(rt, alloc, recorded, all, lines, output) {
        Ok(()) => Ok(()),
        Err(refusal) => Err(refused(refusal)),
    }
}

/// Runs lines by threads over a core.
fn run_behind<X: SharedPlanner + Sync, R: Threads + Wait + Sync, W: Write>(
    rt: &R,
    planner: &X,
    alloc: Global,
    core: Core<Member<MemDisk>>,
    lines: ThreadLines,
    output: &mut W,
) -> Result<(), Refusal>
    requires ready { X.ready }
    requires few { (0 < lines.threads) × (lines.threads ≤ 64) }
    ensures ok { OnOk result
        (PrintsRuns (state_of core) (W.contents output.old) (W.contents output.new)) }
    ensures fault { IfErr result IsNoLine }
{
    let parts = lines.threads as u64 + 3;
    run_begun::<X, Brand, Brand, Brand, R, W>(
        rt,
        planner,
        alloc,
        core,
        lines,
        output,
        Blank::new(parts),
        Blank::new(parts),
    )
}

fn run_all<
    P: SchedulePool + CorePool,
    X: SharedPlanner + Sync,
    I: BufRead + Drop,
    W: Write,
    R: Threads + Wait + Sync,
>(
    rt: &R,
    planner: &X,
    alloc: Global,
    threads: usize,
    input: I,
    output: &mut W,
) -> Result<(), Refusal>
    requires ready { X.ready }
    requires few { (0 < threads) × (threads ≤ 64) }
    ensures ok { OnOk result (RunsInThreads P.creates P.refuses P.outcomes P.core_of
        (I.remaining input) (W.contents output.old) (W.contents output.new)) }
    ensures fault { IfErr result (IsThreadsFault P.creates P.refuses P.outcomes P.faults P.core_of
        (I.remaining input) (W.contents output.old) (W.contents output.new)) }
{
    let mut lines = Lines::new(alloc, input);
    let stage = run_front::<P, X, I, W>(planner, alloc, &mut lines, output)?;
    let Some(core) = core_at(stage) else {
        return read_nothing(alloc, &mut lines);
    };
    let behind = read_back(alloc, threads, &mut lines)?;
    run_behind(rt, planner, alloc, core, behind, output)
}

/// Runs a schedule of which threads run a part, against a pool of its own. The lines before `threads` are run in order, and recounted: each line as
/// it is spelled, and in a comment behind it what it prints. Behind `threads` come lines of writers and then lines that read: so many threads send
/// those of writers, and plans are made and written beside them; what is left is committed, and then the others read. The record of all
/// steps is printed as lines with their replies in comments, in one piece or more.
///
/// It ends at the first fault, as `schedule` does: a line that can't be run where it stands, also behind `threads`, is told before a thread is started; with no
/// line `threads` it is the line behind the last one. What stands on the output by then stays.
pub fn schedule_in_threads<
    P: SchedulePool + CorePool,
    X: SharedPlanner + Sync,
    I: BufRead + Drop,
    W: Write,
    E: Write,
    R: Threads + Wait + Sync,
>(
    rt: &R,
    planner: &X,
    alloc: Global,
    threads: usize,
    input: I,
    output: &mut W,
    errors: &mut E,
) -> ExitStatus
    requires ready { X.ready }
    requires few { (0 < threads) × (threads ≤ 64) }
    // The lines were read to their end. What was printed is what is recounted of those before `threads`, and then runs of the core that the
    // others began with. Or there is a cause why not: a line that can't be run, behind lines that can.
    ensures { EndsInThreads P.creates P.refuses P.outcomes P.faults P.core_of
        (I.remaining input) (W.contents output.old) (W.contents output.new) result }
{
    match run_all::<P, X, I, W, R>(rt, planner, alloc, threads, input, output) {
        Ok(()) => ExitStatus::Done,
        Err(refusal) => {
            // Where this can't be told either, the status still says it.
            let _ = writeln!(errors, "poolrun: {refusal}");
            let _ = errors.flush();
            ExitStatus::Fault(refusal)
        }
    }
}
