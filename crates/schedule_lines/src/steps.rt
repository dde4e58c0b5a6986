//! Steps as the commands that ask for them.
ghost use Rattle.std.specs.Prelude.{◌≡◌, ◌≢◌, ℕ, length, replicate, IfOk, MatchOption};
ghost use Rattle.pool_model.specs.declared.step.Step.TheVariants as step;
ghost use Rattle.schedule_lines.specs.Steps.{AsksFor, HasNoLine};

use crate::command::{
    CloneLine, Command, CreateLine, DestroyLine, ReadLine, SnapshotLine, UnderLine, WriteLine,
};
use crate::equal_bytes::count_in_front;
use pool_model::{Action, Change, Step, Write};
use std::alloc::{AllocError, Global};

/// The byte that all bytes are; of no bytes it is 0.
fn only_byte(bytes: &[u8]) -> Option<u8>
    ensures { MatchOption result ((count byte : ℕ) → bytes.now ≢ replicate count byte)
        (λ byte. bytes.now ≡ replicate (length bytes.now) byte) }
{
    let [byte, ..] = bytes else {
        return Some(0);
    };
    if count_in_front(*byte, bytes) == bytes.len() {
        Some(*byte)
    } else {
        None
    }
}

fn write_command(alloc: Global, write: &Write) -> Result<Option<Command>, AllocError>
    ensures { IfOk result (λ found. MatchOption found (HasNoLine (step.Write write.now))
        (λ command. AsksFor command (step.Write write.now))) }
{
    let Some(byte) = only_byte(write.bytes.as_slice()) else {
        return Ok(None);
    };
    Ok(Some(Command::Write(WriteLine {
        writer: write.writer,
        number: write.number,
        volume: write.volume.copied(alloc)?,
        offset: write.offset,
        len: write.bytes.len() as u64,
        byte,
    })))
}

fn act_command(alloc: Global, action: &Action) -> Result<Command, AllocError>
    ensures { IfOk result (λ command. AsksFor command (step.Act action.now)) }
{
    let writer = action.writer;
    let number = action.number;
    Ok(match &action.change {
        Change::Create {
            name,
            size,
            block_size,
        } => Command::Create(CreateLine {
            writer,
            number,
            volume: name.copied(alloc)?,
            size: *size,
            block_size: *block_size,
        }),
        Change::Snapshot { volume, part } => Command::Snapshot(SnapshotLine {
            writer,
            number,
            volume: volume.copied(alloc)?,
            part: part.copied(alloc)?,
        }),
        Change::Clone { snapshot, name } => Command::Clone(CloneLine {
            writer,
            number,
            snapshot: snapshot.copied(alloc)?,
            name: name.copied(alloc)?,
        }),
        Change::Destroy { name } => Command::Destroy(DestroyLine {
            writer,
            number,
            name: name.copied(alloc)?,
        }),
    })
}

/// The command that takes a disk out; no line says a number that is not below 2^32.
fn out_command(disk: usize) -> Option<Command>
    ensures { MatchOption result (HasNoLine (step.DiskOut disk))
        (λ command. AsksFor command (step.DiskOut disk)) }
{
    match u32::try_from(disk) {
        Ok(disk) => Some(Command::Out { disk }),
        Err(_) => None,
    }
}

/// The command that asks for a step, or none where no line says it: a write of bytes that are not all alike, a plan that tells
/// a time, or a disk whose number is not below 2^32.
pub fn command_of(alloc: Global, step: &Step) -> Result<Option<Command>, AllocError>
    ensures { IfOk result (λ found. MatchOption found (HasNoLine step.now)
        (λ command. AsksFor command step.now)) }
{
    Ok(Some(match step {
        Step::Hold(writer) => Command::Hold { writer: *writer },
        Step::Write(write) => return write_command(alloc, write),
        Step::Act(action) => act_command(alloc, action)?,
        Step::Release(writer) => Command::Release { writer: *writer },
        Step::Close => Command::Close,
        Step::Quiesce => Command::Quiesced,
        Step::Plan { timestamp } => {
            if *timestamp != 0 {
                return Ok(None);
            }
            Command::Plan
        }
        Step::Device => Command::Device,
        Step::DiskOut(disk) => return Ok(out_command(*disk)),
        Step::Read { name, offset, len } => Command::Read(ReadLine {
            name: name.copied(alloc)?,
            offset: *offset,
            len: *len,
        }),
        Step::ReadUnder {
            group,
            name,
            offset,
            len,
        } => Command::Under(UnderLine {
            group: *group,
            name: name.copied(alloc)?,
            offset: *offset,
            len: *len,
        }),
    }))
}
