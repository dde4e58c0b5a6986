//! Commands as the lines that say them.
ghost use Rattle.std.specs.Prelude.{◌≡◌, ◌+◌, ◌/◌, ◌%◌, ◌<◌, false, ◌∷◌, ◌++◌, IfOk, OnOk};
ghost use Rattle.std.specs.Fmt.{decimal, digit_glyph};
ghost use Rattle.std.specs.List.{flat_map};
ghost use Rattle.schedule_lines.specs.Grammar.{words_of, line_of_command};
ghost use Rattle.schedule_lines.specs.Hexadecimal.{byte_text};
ghost use Rattle.schedule_lines.specs.Spelling.{spelled};

use crate::command::{
    CloneLine, Command, CreateLine, DestroyLine, PoolLine, ReadLine, ReopenLine, SnapshotLine,
    StopPoint, UnderLine, WriteLine,
};
use itoa::Buffer;
use std::alloc::{AllocError, Global};

fn push_word(line: &mut Vec<u8>, word: &[u8]) -> Result<(), AllocError>
    ensures { OnOk result (line.new.items ≡ line.old.items ++ (32 ∷ word.now)) }
{
    line.push(b' ')?;
    line.extend_from_slice(word)
}

fn push_number(line: &mut Vec<u8>, number: u64) -> Result<(), AllocError>
    ensures { OnOk result (line.new.items ≡ line.old.items ++ (32 ∷ decimal number)) }
{
    push_word(line, Buffer::new().format(number).as_bytes())
}

fn push_numbers(line: &mut Vec<u8>, numbers: &[u32]) -> Result<(), AllocError>
    ensures { OnOk result (line.new.items
        ≡ line.old.items ++ flat_map (λ n. 32 ∷ decimal n) numbers.now) }
{
    for number in numbers {
        push_number(line, u64::from(*number))?;
    }
    Ok(())
}

/// A hexadecimal digit, lower case.
fn digit(value: u8) -> u8
    requires { value < 16 }
    ensures { result ≡ digit_glyph false value }
{
    if value < 10 {
        b'0' + value
    } else {
        b'a' + (value - 10)
    }
}

fn push_byte(line: &mut Vec<u8>, byte: u8) -> Result<(), AllocError>
    ensures { OnOk result (line.new.items ≡ line.old.items ++ (32 ∷ byte_text byte)) }
{
    push_word(line, &[digit(byte / 16), digit(byte % 16)])
}

/// A word and a number.
fn numbered(alloc: Global, word: &[u8], number: u32) -> Result<Vec<u8>, AllocError>
    ensures { IfOk result (λ line. line.items ≡ word.now ++ (32 ∷ decimal number)) }
{
    let mut line = Vec::from_slice(alloc, word)?;
    push_number(&mut line, u64::from(number))?;
    Ok(line)
}

/// A word, a writer, and the number of its item.
fn item_front(alloc: Global, word: &[u8], writer: u32, number: u64) -> Result<Vec<u8>, AllocError>
    ensures { IfOk result (λ line.
        line.items ≡ (word.now ++ (32 ∷ decimal writer)) ++ (32 ∷ decimal number)) }
{
    let mut line = numbered(alloc, word, writer)?;
    push_number(&mut line, number)?;
    Ok(line)
}

fn pool_bytes(alloc: Global, pool: &PoolLine) -> Result<Vec<u8>, AllocError>
    ensures { IfOk result (λ line. line.items ≡ spelled (words_of (Command.Pool pool.now))) }
{
    let mut line = numbered(alloc, b"pool", pool.parities)?;
    push_number(&mut line, u64::from(pool.disks))?;
    push_number(&mut line, pool.bytes)?;
    push_number(&mut line, u64::from(pool.metaslab_shift))?;
    push_number(&mut line, u64::from(pool.meta_metaslabs))?;
    Ok(line)
}

fn write_bytes(alloc: Global, write: &WriteLine) -> Result<Vec<u8>, AllocError>
    ensures { IfOk result (λ line. line.items ≡ spelled (words_of (Command.Write write.now))) }
{
    let mut line = item_front(alloc, b"write", write.writer, write.number)?;
    push_word(&mut line, write.volume.as_slice())?;
    push_number(&mut line, write.offset)?;
    push_number(&mut line, write.len)?;
    push_byte(&mut line, write.byte)?;
    Ok(line)
}

fn create_bytes(alloc: Global, create: &CreateLine) -> Result<Vec<u8>, AllocError>
    ensures { IfOk result (λ line. line.items ≡ spelled (words_of (Command.Create create.now))) }
{
    let mut line = item_front(alloc, b"create", create.writer, create.number)?;
    push_word(&mut line, create.volume.as_slice())?;
    push_number(&mut line, create.size)?;
    push_number(&mut line, create.block_size)?;
    Ok(line)
}

fn snapshot_bytes(alloc: Global, snapshot: &SnapshotLine) -> Result<Vec<u8>, AllocError>
    ensures { IfOk result (λ line.
        line.items ≡ spelled (words_of (Command.Snapshot snapshot.now))) }
{
    let mut line = item_front(alloc, b"snapshot", snapshot.writer, snapshot.number)?;
    push_word(&mut line, snapshot.volume.as_slice())?;
    push_word(&mut line, snapshot.part.as_slice())?;
    Ok(line)
}

fn clone_bytes(alloc: Global, clone: &CloneLine) -> Result<Vec<u8>, AllocError>
    ensures { IfOk result (λ line. line.items ≡ spelled (words_of (Command.Clone clone.now))) }
{
    let mut line = item_front(alloc, b"clone", clone.writer, clone.number)?;
    push_word(&mut line, clone.snapshot.as_slice())?;
    push_word(&mut line, clone.name.as_slice())?;
    Ok(line)
}

fn destroy_bytes(alloc: Global, destroy: &DestroyLine) -> Result<Vec<u8>, AllocError>
    ensures { IfOk result (λ line. line.items ≡ spelled (words_of (Command.Destroy destroy.now))) }
{
    let mut line = item_front(alloc, b"destroy", destroy.writer, destroy.number)?;
    push_word(&mut line, destroy.name.as_slice())?;
    Ok(line)
}

fn read_bytes(alloc: Global, read: &ReadLine) -> Result<Vec<u8>, AllocError>
    ensures { IfOk result (λ line. line.items ≡ spelled (words_of (Command.Read read.now))) }
{
    let mut line = Vec::from_slice(alloc, b"read")?;
    push_word(&mut line, read.name.as_slice())?;
    push_number(&mut line, read.offset)?;
    push_number(&mut line, read.len)?;
    Ok(line)
}

fn under_bytes(alloc: Global, under: &UnderLine) -> Result<Vec<u8>, AllocError>
    ensures { IfOk result (λ line. line.items ≡ spelled (words_of (Command.Under under.now))) }
{
    let mut line = Vec::from_slice(alloc, b"under")?;
    push_number(&mut line, under.group)?;
    push_word(&mut line, under.name.as_slice())?;
    push_number(&mut line, under.offset)?;
    push_number(&mut line, under.len)?;
    Ok(line)
}

fn stop_bytes(alloc: Global, stop: StopPoint) -> Result<Vec<u8>, AllocError>
    ensures { IfOk result (λ line. line.items ≡ spelled (words_of (Command.Stop stop))) }
{
    match stop {
        StopPoint::Blocks => Vec::from_slice(alloc, b"stop blocks"),
        StopPoint::Slots { disks } => numbered(alloc, b"stop slots", disks),
        StopPoint::Claim { disks } => numbered(alloc, b"stop claim", disks),
    }
}

fn reopen_bytes(alloc: Global, reopen: &ReopenLine) -> Result<Vec<u8>, AllocError>
    ensures { IfOk result (λ line. line.items ≡ spelled (words_of (Command.Reopen reopen.now))) }
{
    let mut line = Vec::from_slice(alloc, b"reopen")?;
    push_number(&mut line, reopen.rewind)?;
    push_numbers(&mut line, reopen.absent.as_slice())?;
    Ok(line)
}

fn bytes_of(alloc: Global, command: &Command) -> Result<Vec<u8>, AllocError>
    ensures { IfOk result (λ line. line.items ≡ spelled (words_of command.now)) }
{
    match command {
        Command::Pool(pool) => pool_bytes(alloc, pool),
        Command::Hold { writer } => numbered(alloc, b"hold", *writer),
        Command::Release { writer } => numbered(alloc, b"release", *writer),
        Command::Write(write) => write_bytes(alloc, write),
        Command::Create(create) => create_bytes(alloc, create),
        Command::Snapshot(snapshot) => snapshot_bytes(alloc, snapshot),
        Command::Clone(clone) => clone_bytes(alloc, clone),
        Command::Destroy(destroy) => destroy_bytes(alloc, destroy),
        Command::Close => Vec::from_slice(alloc, b"close"),
        Command::Quiesced => Vec::from_slice(alloc, b"quiesced"),
        Command::Plan => Vec::from_slice(alloc, b"plan"),
        Command::Device => Vec::from_slice(alloc, b"device"),
        Command::Commit => Vec::from_slice(alloc, b"commit"),
        Command::Sync => Vec::from_slice(alloc, b"sync"),
        Command::Read(read) => read_bytes(alloc, read),
        Command::Under(under) => under_bytes(alloc, under),
        Command::Out { disk } => numbered(alloc, b"out", *disk),
        Command::Stop(stop) => stop_bytes(alloc, *stop),
        Command::Reopen(reopen) => reopen_bytes(alloc, reopen),
    }
}

/// The line that says a command, without a line feed. Where its words are words, it is read as that command again.
pub fn line_bytes(alloc: Global, command: &Command) -> Result<Vec<u8>, AllocError>
    ensures { IfOk result (λ line. line.items ≡ line_of_command command.now) }
{
    bytes_of(alloc, command)
}
