//! The lines before `threads`.
ghost use Rattle.std.specs.Prelude.{◌≡◌, ◌+◌, ℕ, List, Option, length, IfOk, IfErr};
ghost use Rattle.programs.specs.Faults.{counted};
ghost use Rattle.thread_schedules.specs.Inputs.{IsFront, IsFrontFault, ReadsThreads};

use crate::stage::{Stage, recount};
use programs::{Lines, Planner, Refusal, SchedulePool};
use schedule_lines::Line;
use std::alloc::Global;
use std::io::{BufRead, Write};

/// Runs the lines before `threads`, and recounts them. Where there is no such line, the line behind the last is the fault.
pub(crate) fn run_front<P: SchedulePool, X: Planner, I: BufRead + Drop, W: Write>(
    planner: &X,
    alloc: Global,
    lines: &mut Lines<I>,
    output: &mut W,
) -> Result<Stage<P>, Refusal>
    requires ready { X.ready }
    requires first { lines.old.count ≡ 0 }
    ensures ok { IfOk result (λ stage. (marked : Option (List ℕ))
        × (front : IsFront P.creates P.refuses P.outcomes (I.remaining lines.old.input)
        (W.contents output.old) stage marked (W.contents output.new))
        × ReadsThreads marked (I.remaining lines.new.input)
        × (lines.new.count ≡ counted (length front.lines + 1))) }
    ensures fault { IfErr result (IsFrontFault P.creates P.refuses P.outcomes P.faults
        (I.remaining lines.old.input) (W.contents output.old) (W.contents output.new)) }
{
    let mut stage: Stage<P> = Stage::Unmade;
    for _ in 0..u64::MAX {
        let wanting = lines.fault_behind();
        let Some(line) = lines.next_line(alloc)? else {
            return Err(wanting);
        };
        match line {
            Line::Skipped => {}
            Line::Threads => return Ok(stage),
            Line::Command(command) => {
                let Some(next) = recount(planner, alloc, stage, command, output)? else {
                    return Err(lines.fault());
                };
                stage = next;
            }
        }
    }
    Err(Refusal::Input)
}
