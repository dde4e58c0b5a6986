//! Reading lines.
ghost use Rattle.std.specs.Prelude.{◌≡◌, ◌⊎◌, IfOk, Ok, Err};
ghost use Rattle.schedule_lines.specs.declared.command.Line.{Line};
ghost use Rattle.schedule_lines.specs.Grammar.{Spells};
ghost use Rattle.schedule_lines.specs.Reading.{Gives, pool_at, write_at, create_at, snapshot_at, clone_at, destroy_at, read_at, under_at, stop_at, numbers_at, reopen_at, command_at, said_line, line_of};

use crate::command::{
    CloneLine, Command, CreateLine, DestroyLine, Line, PoolLine, ReadLine, ReopenLine,
    SnapshotLine, StopPoint, UnderLine, WriteLine,
};
use crate::disk_numbers::DiskNumbers;
use crate::keyword::Keyword;
use crate::refusal::Refusal;
use crate::words::Words;
use std::alloc::Global;

#[tactic(auto, unfolding(crate::specs::Reading::pool_at))]
fn pool(words: &mut Words) -> Result<PoolLine, Refusal>
    ensures { Gives (λ pool. (pool, words.new)) result (pool_at words.old) }
{
    Ok(PoolLine {
        parities: words.number32()?,
        disks: words.number32()?,
        bytes: words.number64()?,
        metaslab_shift: words.number32()?,
        meta_metaslabs: words.number32()?,
    })
}

#[tactic(auto, unfolding(crate::specs::Reading::write_at))]
fn write(alloc: Global, words: &mut Words) -> Result<WriteLine, Refusal>
    ensures { Gives (λ write. (write, words.new)) result (write_at words.old) }
{
    Ok(WriteLine {
        writer: words.number32()?,
        number: words.number64()?,
        volume: words.name(alloc)?,
        offset: words.number64()?,
        len: words.number64()?,
        byte: words.byte()?,
    })
}

#[tactic(auto, unfolding(crate::specs::Reading::create_at))]
fn create(alloc: Global, words: &mut Words) -> Result<CreateLine, Refusal>
    ensures { Gives (λ create. (create, words.new)) result (create_at words.old) }
{
    Ok(CreateLine {
        writer: words.number32()?,
        number: words.number64()?,
        volume: words.name(alloc)?,
        size: words.number64()?,
        block_size: words.number64()?,
    })
}

#[tactic(auto, unfolding(crate::specs::Reading::snapshot_at))]
fn snapshot(alloc: Global, words: &mut Words) -> Result<SnapshotLine, Refusal>
    ensures { Gives (λ snapshot. (snapshot, words.new)) result (snapshot_at words.old) }
{
    Ok(SnapshotLine {
        writer: words.number32()?,
        number: words.number64()?,
        volume: words.name(alloc)?,
        part: words.name(alloc)?,
    })
}

#[tactic(auto, unfolding(crate::specs::Reading::clone_at))]
fn clone(alloc: Global, words: &mut Words) -> Result<CloneLine, Refusal>
    ensures { Gives (λ clone. (clone, words.new)) result (clone_at words.old) }
{
    Ok(CloneLine {
        writer: words.number32()?,
        number: words.number64()?,
        snapshot: words.name(alloc)?,
        name: words.name(alloc)?,
    })
}

#[tactic(auto, unfolding(crate::specs::Reading::destroy_at))]
fn destroy(alloc: Global, words: &mut Words) -> Result<DestroyLine, Refusal>
    ensures { Gives (λ destroy. (destroy, words.new)) result (destroy_at words.old) }
{
    Ok(DestroyLine {
        writer: words.number32()?,
        number: words.number64()?,
        name: words.name(alloc)?,
    })
}

#[tactic(auto, unfolding(crate::specs::Reading::read_at))]
fn read(alloc: Global, words: &mut Words) -> Result<ReadLine, Refusal>
    ensures { Gives (λ read. (read, words.new)) result (read_at words.old) }
{
    Ok(ReadLine {
        name: words.name(alloc)?,
        offset: words.number64()?,
        len: words.number64()?,
    })
}

#[tactic(auto, unfolding(crate::specs::Reading::under_at))]
fn under(alloc: Global, words: &mut Words) -> Result<UnderLine, Refusal>
    ensures { Gives (λ under. (under, words.new)) result (under_at words.old) }
{
    Ok(UnderLine {
        group: words.number64()?,
        name: words.name(alloc)?,
        offset: words.number64()?,
        len: words.number64()?,
    })
}

#[tactic(auto, unfolding(crate::specs::Reading::stop_at))]
fn stop(words: &mut Words) -> Result<StopPoint, Refusal>
    ensures { Gives (λ stop. (stop, words.new)) result (stop_at words.old) }
{
    let word = words.word()?;
    if word == b"blocks".as_slice() {
        Ok(StopPoint::Blocks)
    } else if word == b"slots".as_slice() {
        Ok(StopPoint::Slots {
            disks: words.number32()?,
        })
    } else if word == b"claim".as_slice() {
        Ok(StopPoint::Claim {
            disks: words.number32()?,
        })
    } else {
        Err(Refusal::Fault)
    }
}

/// All numbers that are left.
fn numbers(alloc: Global, words: &mut Words) -> Result<Vec<u32>, Refusal>
    ensures { Gives (λ numbers. (numbers.items, words.new)) result (numbers_at words.old) }
{
    let mut numbers = Vec::new(alloc);
    while !words.is_done() {
        numbers.push(words.number32()?)?;
    }
    Ok(numbers)
}

#[tactic(auto, unfolding(crate::specs::Reading::reopen_at))]
fn reopen(alloc: Global, words: &mut Words) -> Result<ReopenLine, Refusal>
    ensures { Gives (λ reopen. (reopen, words.new)) result (reopen_at words.old) }
{
    Ok(ReopenLine {
        rewind: words.rewind()?,
        absent: DiskNumbers::new(numbers(alloc, words)?),
    })
}

/// The command of a keyword, from the words behind it.
#[tactic(auto, unfolding(crate::specs::Reading::command_at))]
fn command(alloc: Global, keyword: Keyword, words: &mut Words) -> Result<Command, Refusal>
    ensures { Gives (λ command. (command, words.new)) result (command_at keyword words.old) }
{
    Ok(match keyword {
        Keyword::Pool => Command::Pool(pool(words)?),
        Keyword::Hold => Command::Hold {
            writer: words.number32()?,
        },
        Keyword::Release => Command::Release {
            writer: words.number32()?,
        },
        Keyword::Write => Command::Write(write(alloc, words)?),
        Keyword::Create => Command::Create(create(alloc, words)?),
        Keyword::Snapshot => Command::Snapshot(snapshot(alloc, words)?),
        Keyword::Clone => Command::Clone(clone(alloc, words)?),
        Keyword::Destroy => Command::Destroy(destroy(alloc, words)?),
        Keyword::Close => Command::Close,
        Keyword::Quiesced => Command::Quiesced,
        Keyword::Plan => Command::Plan,
        Keyword::Device => Command::Device,
        Keyword::Commit => Command::Commit,
        Keyword::Sync => Command::Sync,
        Keyword::Read => Command::Read(read(alloc, words)?),
        Keyword::Under => Command::Under(under(alloc, words)?),
        Keyword::Out => Command::Out {
            disk: words.number32()?,
        },
        Keyword::Stop => Command::Stop(stop(words)?),
        Keyword::Reopen => Command::Reopen(reopen(alloc, words)?),
    })
}

/// A line that isn't skipped.
#[tactic(auto, unfolding(crate::specs::Reading::said_line, crate::specs::Reading::whole_command))]
fn said_line(alloc: Global, line: &[u8]) -> Result<Line, Refusal>
    ensures { Gives (λ line. line) result (said_line line.now) }
{
    if line == b"threads".as_slice() {
        return Ok(Line::Threads);
    }
    let mut words = Words::new(line);
    let keyword = Keyword::from_word(words.word()?).ok_or(Refusal::Fault)?;
    let command = command(alloc, keyword, &mut words)?;
    words.end()?;
    Ok(Line::Command(command))
}

#[tactic(auto, unfolding(crate::specs::Reading::line_of))]
fn line_of(alloc: Global, line: &[u8]) -> Result<Line, Refusal>
    ensures { Gives (λ line. line) result (line_of line.now) }
{
    if line.first().is_none_or(|b| *b == b'#') {
        return Ok(Line::Skipped);
    }
    said_line(alloc, line)
}

/// What a line says, without its line feed.
pub fn parse(alloc: Global, line: &[u8]) -> Result<Line, Refusal>
    // What is read is spelled so.
    ensures found { IfOk result (λ value. Spells value line.now) }
    // What is spelled so is read, unless memory runs out.
    ensures only { (value : Line) → Spells value line.now
        → (result ≡ Ok value) ⊎ (result ≡ Err Refusal.NoMemory) }
    // A fault spells nothing.
    ensures fault { result ≡ Err Refusal.Fault → (value : Line) → Spells value line.now → ⊥ }
{
    line_of(alloc, line)
}
