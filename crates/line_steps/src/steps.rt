//! The first step of a command, and the step behind a reply.
ghost use Rattle.std.specs.Prelude.{◌≡◌, ℕ, MatchOption, IfOk};
ghost use Rattle.pool_model.specs.declared.step.Step.TheVariants as step;
ghost use Rattle.command_steps.specs.Lengths.{StandsFor};
ghost use Rattle.line_steps.specs.Begins.{Begins, IsNoStep, action_of, clone_by, destroy_by, next_of, snapshot_by, write_of};

use command_steps::written_len;
use pool_model::{Action, Bytes, Change, Reply, Step, Write};
use schedule_lines::{
    CloneLine, Command, CreateLine, DestroyLine, ReadLine, SnapshotLine, UnderLine, WriteLine,
};
use std::alloc::{AllocError, Global};

// A schedule tells no time.
const TIMESTAMP: u64 = 0;

fn write_step(alloc: Global, line: WriteLine) -> Result<Step, AllocError>
    ensures { IfOk result (λ s. (n : ℕ) × StandsFor line.len n
        × (s ≡ step.Write (write_of line n))) }
{
    let bytes = vec![in alloc; line.byte; written_len(line.len)]?;
    Ok(Step::Write(Write {
        writer: line.writer,
        number: line.number,
        volume: line.volume,
        offset: line.offset,
        bytes: Bytes::new(bytes),
    }))
}

fn create_step(line: CreateLine) -> Step
    ensures { result ≡ step.Act (action_of line) }
{
    Step::Act(Action {
        writer: line.writer,
        number: line.number,
        change: Change::Create {
            name: line.volume,
            size: line.size,
            block_size: line.block_size,
        },
    })
}

fn snapshot_step(line: SnapshotLine) -> Step
    ensures { result ≡ step.Act (snapshot_by line) }
{
    Step::Act(Action {
        writer: line.writer,
        number: line.number,
        change: Change::Snapshot {
            volume: line.volume,
            part: line.part,
        },
    })
}

fn clone_step(line: CloneLine) -> Step
    ensures { result ≡ step.Act (clone_by line) }
{
    Step::Act(Action {
        writer: line.writer,
        number: line.number,
        change: Change::Clone {
            snapshot: line.snapshot,
            name: line.name,
        },
    })
}

fn destroy_step(line: DestroyLine) -> Step
    ensures { result ≡ step.Act (destroy_by line) }
{
    Step::Act(Action {
        writer: line.writer,
        number: line.number,
        change: Change::Destroy { name: line.name },
    })
}

fn read_step(line: ReadLine) -> Step
    ensures { result ≡ step.Read line.name line.offset line.len }
{
    Step::Read {
        name: line.name,
        offset: line.offset,
        len: line.len,
    }
}

fn under_step(line: UnderLine) -> Step
    ensures { result ≡ step.ReadUnder line.group line.name line.offset line.len }
{
    Step::ReadUnder {
        group: line.group,
        name: line.name,
        offset: line.offset,
        len: line.len,
    }
}

/// The first step of a command, or none where the command is no step of a pool.
pub fn first_step(alloc: Global, command: Command) -> Result<Option<Step>, AllocError>
    ensures { IfOk result (λ found. MatchOption found (IsNoStep command) (λ s. Begins command s)) }
{
    Ok(Some(match command {
        Command::Pool(_) | Command::Stop(_) | Command::Reopen(_) => return Ok(None),
        Command::Hold { writer } => Step::Hold(writer),
        Command::Release { writer } => Step::Release(writer),
        Command::Write(line) => write_step(alloc, line)?,
        Command::Create(line) => create_step(line),
        Command::Snapshot(line) => snapshot_step(line),
        Command::Clone(line) => clone_step(line),
        Command::Destroy(line) => destroy_step(line),
        Command::Close | Command::Sync => Step::Close,
        Command::Quiesced => Step::Quiesce,
        Command::Plan | Command::Commit => Step::Plan {
            timestamp: TIMESTAMP,
        },
        Command::Device => Step::Device,
        Command::Read(line) => read_step(line),
        Command::Under(line) => under_step(line),
        Command::Out { disk } => Step::DiskOut(disk as usize),
    }))
}

/// The step that brings the group of a reply on, unless it is committed or refused.
pub fn next_step(reply: &Reply) -> Option<Step>
    ensures { result ≡ next_of reply.now }
{
    match reply {
        Reply::Closed(_) => Some(Step::Quiesce),
        Reply::Quiesced(_) | Reply::Replan(_) => Some(Step::Plan {
            timestamp: TIMESTAMP,
        }),
        Reply::Planned(_) | Reply::Moved(_) => Some(Step::Device),
        _ => None,
    }
}
