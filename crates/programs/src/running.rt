//! Running a schedule.
ghost use Rattle.std.specs.Prelude.{ℕ, List, [], ◌∷◌, ◌++◌, OnOk, IfErr};
ghost use Rattle.std.specs.Io.KnownBytes.{Appends};
ghost use Rattle.programs.specs.Faults.{EndsAs, IsFaultOf, IsNoLine, IsPoolFault};
ghost use Rattle.programs.specs.Outcomes.{IsOutcomeText};
ghost use Rattle.programs.specs.Plays.{AnswersAll, RunsSchedule};

use crate::lines::Lines;
use crate::outcome::{Outcome, outcome_text};
use crate::refusal::Refusal;
use crate::schedule_pool::SchedulePool;
use crate::status::ExitStatus;
use planners::Planner;
use pool_model::Reply;
use schedule_lines::Command;
use std::alloc::Global;
use std::io::{BufRead, Write};

fn print<W: Write>(output: &mut W, text: &str) -> Result<(), Refusal>
    ensures ok { OnOk result
        (Appends (W.contents output.old) (W.contents output.new) (text.now ++ (10 ∷ []))) }
    ensures fault { IfErr result IsNoLine }
{
    output
        .write_all(text.as_bytes())
        .map_err(|_| Refusal::Output)?;
    output.write_all(b"\n").map_err(|_| Refusal::Output)?;
    output.flush().map_err(|_| Refusal::Output)
}

fn print_reply<W: Write>(alloc: Global, output: &mut W, reply: &Outcome) -> Result<(), Refusal>
    ensures ok { OnOk result ((line : List ℕ) × IsOutcomeText reply.now line
        × Appends (W.contents output.old) (W.contents output.new) (line ++ (10 ∷ []))) }
    ensures fault { IfErr result IsNoLine }
{
    let text = outcome_text(alloc, reply)?;
    print(output, text.as_str())
}

/// Runs the lines behind the first against a pool.
fn run_lines<P: SchedulePool, X: Planner, R: BufRead + Drop, W: Write>(
    planner: &X,
    alloc: Global,
    mut pool: P,
    lines: &mut Lines<R>,
    output: &mut W,
) -> Result<(), Refusal>
    requires { X.ready }
    ensures ok { OnOk result (AnswersAll P.outcomes pool (R.remaining lines.old.input)
        (W.contents output.old) (W.contents output.new)) }
    ensures fault { IfErr result (IsPoolFault P.outcomes P.faults pool
        (R.remaining lines.old.input) lines.old.count
        (W.contents output.old) (W.contents output.new)) }
{
    for _ in 0..u64::MAX {
        let Some(command) = lines.next_command(alloc)? else {
            return Ok(());
        };
        let Some(reply) = pool.run_command(planner, alloc, command)? else {
            return Err(lines.fault());
        };
        print_reply(alloc, output, &reply)?;
    }
    Err(Refusal::Input)
}

fn run_schedule<P: SchedulePool, X: Planner, R: BufRead + Drop, W: Write>(
    planner: &X,
    alloc: Global,
    input: R,
    output: &mut W,
) -> Result<(), Refusal>
    requires { X.ready }
    ensures ok { OnOk result (RunsSchedule P.creates P.refuses P.outcomes
        (R.remaining input) (W.contents output.old) (W.contents output.new)) }
    ensures fault { IfErr result (IsFaultOf P.creates P.refuses P.outcomes P.faults
        (R.remaining input) (W.contents output.old) (W.contents output.new)) }
{
    let mut lines = Lines::new(alloc, input);
    let Some(command) = lines.next_command(alloc)? else {
        return Ok(());
    };
    let Command::Pool(line) = command else {
        return Err(lines.fault());
    };
    match P::create(alloc, &line) {
        Ok(pool) => {
            print(output, "pool 3 claim 1")?;
            run_lines(planner, alloc, pool, &mut lines, output)
        }
        Err(refusal) => {
            let refused = Outcome::Replied(Reply::Refused(refusal));
            print_reply(alloc, output, &refused)?;
            let later = lines.next_command(alloc)?;
            match later {
                None => Ok(()),
                Some(_) => Err(lines.fault()),
            }
        }
    }
}

/// Runs the schedule of an input against a pool of its own: a reply a line on the output, which is flushed after each.
///
/// It ends at the first fault, which is told on `errors` as `poolrun: line N`, where lines are counted from 1, or as
/// `poolrun: input`, `poolrun: output` or `poolrun: out of memory`; what stands on the output by then stays. Where the pool
/// can't be made, its refusal is printed, and each later line that isn't skipped is a fault. Plans are made by the planner,
/// whose workers make what one thread makes.
pub fn schedule<P: SchedulePool, X: Planner, R: BufRead + Drop, W: Write, E: Write>(
    planner: &X,
    alloc: Global,
    input: R,
    output: &mut W,
    errors: &mut E,
) -> ExitStatus
    requires { X.ready }
    // The lines were read to their end, and what was printed is what comes of them.
    // Or there is a cause why not: a line that can't be run, behind lines that were.
    ensures { EndsAs P.creates P.refuses P.outcomes P.faults
        (R.remaining input) (W.contents output.old) (W.contents output.new) result }
{
    match run_schedule::<P, X, R, W>(planner, alloc, input, output) {
        Ok(()) => ExitStatus::Done,
        Err(refusal) => {
            // Where this can't be told either, the status still says it.
            let _ = writeln!(errors, "poolrun: {refusal}");
            let _ = errors.flush();
            ExitStatus::Fault(refusal)
        }
    }
}
