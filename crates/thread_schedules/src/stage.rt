//! How far a schedule is with its pool.
ghost use Rattle.std.specs.Prelude.{◌≡◌, MatchOption, IfOk, IfErr, OnOk, List, ℕ, string_bytes, option_map};
ghost use Rattle.std.specs.Io.KnownBytes.{Appends};
ghost use Rattle.pool_create.specs.CoreStateOf.{state_of};
ghost use Rattle.programs.specs.Faults.{IsNoLine};
ghost use Rattle.thread_schedules.specs.Stages.{Comes, Misplaced, core_at, recounted, told_as};

use crate::core_pool::CorePool;
use model_disk::{MemDisk, Member};
use pool_model::Reply;
use programs::{Core, Outcome, Planner, Refusal, SchedulePool, outcome_text};
use schedule_lines::{Command, line_bytes};
use std::alloc::{AllocError, Global};
use std::io::Write;

/// How far a schedule is with its pool.
#[derive(Drop)]
pub enum Stage<P> {
    /// No line was run yet.
    Unmade,
    Made(P),
    /// The pool of the first line was refused.
    Refused,
}

/// What is said of a command, and the stage behind it.
struct Said<P> {
    text: String,
    stage: Stage<P>,
}

/// Runs the first command: none where it asks for no pool.
fn first_said<P: SchedulePool>(
    alloc: Global,
    command: Command,
) -> Result<Option<Said<P>>, AllocError>
    ensures { IfOk result (λ found. MatchOption found
        (Misplaced P.faults Stage.Unmade command)
        (λ it. Comes P.creates P.refuses P.outcomes Stage.Unmade command
        (string_bytes it.text) it.stage)) }
{
    let Command::Pool(line) = command else {
        return Ok(None);
    };
    match P::create(alloc, &line) {
        Ok(pool) => Ok(Some(Said {
            text: String::from_str(alloc, "pool 3 claim 1")?,
            stage: Stage::Made(pool),
        })),
        Err(cause) => Ok(Some(Said {
            text: outcome_text(alloc, &Outcome::Replied(Reply::Refused(cause)))?,
            stage: Stage::Refused,
        })),
    }
}

/// Runs a command against a pool: none where it can't stand there.
fn next_said<P: SchedulePool, X: Planner>(
    planner: &X,
    alloc: Global,
    mut pool: P,
    command: Command,
) -> Result<Option<Said<P>>, AllocError>
    requires { X.ready }
    ensures { IfOk result (λ found. MatchOption found (P.faults pool command)
        (λ it. Comes P.creates P.refuses P.outcomes (Stage.Made pool) command
        (string_bytes it.text) it.stage)) }
{
    let Some(outcome) = pool.run_command(planner, alloc, command)? else {
        return Ok(None);
    };
    Ok(Some(Said {
        text: outcome_text(alloc, &outcome)?,
        stage: Stage::Made(pool),
    }))
}

/// Runs a command: none where it can't stand there.
fn said_of<P: SchedulePool, X: Planner>(
    planner: &X,
    alloc: Global,
    stage: Stage<P>,
    command: Command,
) -> Result<Option<Said<P>>, AllocError>
    requires { X.ready }
    ensures { IfOk result (λ found. MatchOption found (Misplaced P.faults stage command)
        (λ it. Comes P.creates P.refuses P.outcomes stage command
        (string_bytes it.text) it.stage)) }
{
    match stage {
        Stage::Unmade => first_said(alloc, command),
        Stage::Made(pool) => next_said(planner, alloc, pool, command),
        Stage::Refused => Ok(None),
    }
}

/// A line, and behind it, as a comment, what is said of it.
fn text_of(alloc: Global, line: &[u8], said: &str) -> Result<Vec<u8>, AllocError>
    ensures { IfOk result (λ text. text.items ≡ told_as line.now said.now) }
{
    let mut text = Vec::from_slice(alloc, line)?;
    text.extend_from_slice(b"\n# ")?;
    text.extend_from_slice(said.as_bytes())?;
    text.extend_from_slice(b"\n")?;
    Ok(text)
}

fn print<W: Write>(output: &mut W, text: &[u8]) -> Result<(), Refusal>
    ensures ok { OnOk result (Appends (W.contents output.old) (W.contents output.new) text.now) }
    ensures fault { IfErr result IsNoLine }
{
    output.write_all(text).map_err(|_| Refusal::Output)?;
    output.flush().map_err(|_| Refusal::Output)
}

/// Runs a command and recounts it: none where it can't stand there.
pub(crate) fn recount<P: SchedulePool, X: Planner, W: Write>(
    planner: &X,
    alloc: Global,
    stage: Stage<P>,
    command: Command,
    output: &mut W,
) -> Result<Option<Stage<P>>, Refusal>
    requires { X.ready }
    ensures ok { IfOk result (λ found. MatchOption found
        (Misplaced P.faults stage command × (W.contents output.new ≡ W.contents output.old))
        (λ next. (said : List ℕ)
        × Comes P.creates P.refuses P.outcomes stage command said next
        × Appends (W.contents output.old) (W.contents output.new) (recounted command said))) }
    ensures fault { IfErr result IsNoLine }
{
    let line = line_bytes(alloc, &command)?;
    let Some(said) = said_of(planner, alloc, stage, command)? else {
        return Ok(None);
    };
    let Said { text, stage } = said;
    let text = text_of(alloc, line.as_slice(), text.as_str())?;
    print(output, text.as_slice())?;
    Ok(Some(stage))
}

/// The core of the pool, where one runs.
pub(crate) fn core_at<P: CorePool>(stage: Stage<P>) -> Option<Core<Member<MemDisk>>>
    ensures { option_map state_of result ≡ core_at P.core_of stage }
{
    match stage {
        Stage::Made(pool) => pool.into_core(),
        Stage::Unmade | Stage::Refused => None,
    }
}
