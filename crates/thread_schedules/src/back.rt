//! The lines behind `threads`.
ghost use Rattle.std.specs.Prelude.{◌≡◌, ◌+◌, [], ℕ, List, Option, Some, None, length, nat_eq, not, IfOk, IfErr, true, OnOk, if◌then◌else◌};
ghost use Rattle.std.specs.List.{list_any};
ghost use Rattle.std.specs.Io.KnownBytes.{IsAtEnd};
ghost use Rattle.pool_create.specs.CoreState.{CoreState};
ghost use Rattle.programs.specs.Faults.{counted};
ghost use Rattle.programs.specs.Reads.{commands_of};
ghost use Rattle.thread_schedules.specs.Ends.{CannotFollow};
ghost use Rattle.thread_schedules.specs.Inputs.{IsBack, IsBackFault};
ghost use Rattle.thread_schedules.specs.Kinds.{AreThreadLines, is_read, may_follow};

use programs::{Lines, Refusal, first_step};
use schedule_lines::{Command, Line};
use std::alloc::{AllocError, Global};
use std::io::BufRead;
use thread_runs::ThreadLines;

/// Reads what is left where no pool runs: a command is a fault.
pub(crate) fn read_nothing<I: BufRead + Drop>(
    alloc: Global,
    rest: &mut Lines<I>,
) -> Result<(), Refusal>
    ensures ok { OnOk result ((end : Option (List ℕ))
        × (back : IsBack (I.remaining rest.old.input) end) × IsAtEnd end
        × (commands_of back.lines ≡ [])) }
    ensures fault { IfErr result
        (IsBackFault (CannotFollow None) (I.remaining rest.old.input) rest.old.count) }
{
    for _ in 0..u64::MAX {
        let Some(line) = rest.next_line(alloc)? else {
            return Ok(());
        };
        match line {
            Line::Skipped => {}
            Line::Threads => return Err(rest.fault()),
            Line::Command(_) => return Err(rest.fault()),
        }
    }
    Err(Refusal::Input)
}

/// Adds the step of a command, and says so: false where it can't follow.
fn add(alloc: Global, behind: &mut ThreadLines, command: Command) -> Result<bool, AllocError>
    ensures threads { behind.new.threads ≡ behind.old.threads }
    ensures taken { (commands : List Command)
        → nat_eq (length behind.old.reads.items) 0 ≡ not (list_any is_read commands)
        → IfOk result (λ is_taken. is_taken ≡ may_follow commands command) }
    ensures reads { IfOk result (λ is_taken. is_taken ≡ true → length behind.new.reads.items
        ≡ length behind.old.reads.items + (if is_read command then 1 else 0)) }
{
    match first_step(alloc, command)? {
        Some(step) => behind.push(step),
        None => Ok(false),
    }
}

/// Reads the lines that threads run.
pub(crate) fn read_back<I: BufRead + Drop>(
    alloc: Global,
    threads: usize,
    lines: &mut Lines<I>,
) -> Result<ThreadLines, Refusal>
    ensures threads { IfOk result (λ behind. behind.threads ≡ threads) }
    ensures ok { OnOk result ((end : Option (List ℕ))
        × (back : IsBack (I.remaining lines.old.input) end) × IsAtEnd end
        × AreThreadLines (commands_of back.lines)) }
    ensures fault { (core : CoreState) → IfErr result
        (IsBackFault (CannotFollow (Some core)) (I.remaining lines.old.input) lines.old.count) }
{
    let mut behind = ThreadLines::new(alloc, threads);
    for _ in 0..u64::MAX {
        let Some(line) = lines.next_line(alloc)? else {
            return Ok(behind);
        };
        match line {
            Line::Skipped => {}
            Line::Threads => return Err(lines.fault()),
            Line::Command(command) => {
                if !add(alloc, &mut behind, command)? {
                    return Err(lines.fault());
                }
            }
        }
    }
    Err(Refusal::Input)
}
