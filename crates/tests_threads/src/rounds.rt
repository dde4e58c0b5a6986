//! Lines of sixteen writers, of whom the last takes snapshots.
ghost use Rattle.std.specs.Prelude.{◌<◌};

use std::alloc::{AllocError, Global};

/// How often a writer asks for a hold that it gets once.
const HOLDS: u32 = 8;

/// The lines of one writer's turn: holds, and then a write or a snapshot.
fn push_turn(alloc: Global, text: &mut String, writer: u64, round: u64) -> Result<(), AllocError>
    requires { (writer < 100) × (round < 100000) }
{
    let line = if writer == 16 {
        format!(in alloc; "snapshot 16 {round} v s{round}\nrelease 16\n")?
    } else {
        let number = if writer == 1 { round + 1 } else { round };
        let offset = writer * 512;
        let byte = round % 90 + 10;
        format!(in alloc; "write {writer} {number} v {offset} 512 {byte}\nrelease {writer}\n")?
    };
    let hold = format!(in alloc; "hold {writer}\n")?;
    for _ in 0..HOLDS {
        text.push_str(hold.as_str())?;
    }
    text.push_str(line.as_str())
}

/// So many rounds of writers 1 to 15, in one of a hundred also a snapshot by writer 16; and then two reads.
pub fn rounds(alloc: Global, rounds: u64) -> Result<String, AllocError>
    requires { rounds < 100000 }
{
    let mut text = String::new(alloc);
    for round in 1..rounds + 1 {
        for writer in 1..16 {
            push_turn(alloc, &mut text, writer, round)?;
        }
        if round % 100 == 4 {
            push_turn(alloc, &mut text, 16, round / 100 + 1)?;
        }
    }
    text.push_str("read v 512 512\nread v@s1 0 0\n")?;
    Ok(text)
}

/// How the record of so many rounds ends.
pub fn end_of(alloc: Global, rounds: u64) -> Result<String, AllocError> {
    let byte = rounds % 90 + 10;
    format!(in alloc; "\nread v 512 512\n# {byte}x512\nread v@s1 0 0\n# empty\n")
}

/// How many replies stand in a schedule as comments.
pub fn replies_in(text: &str) -> u64 {
    let mut count = 0u64;
    for line in text.lines() {
        if line.starts_with("# ") {
            count = count.saturating_add(1);
        }
    }
    count
}

/// The lines of one writer, whose number this word is: the second of each.
fn lines_by(alloc: Global, text: &str, writer: &str) -> Result<String, AllocError> {
    let mut own = String::new(alloc);
    for line in text.lines() {
        let Some((_, rest)) = line.split_once(' ') else {
            continue;
        };
        let word = match rest.split_once(' ') {
            Some((word, _)) => word,
            None => rest,
        };
        if word == writer {
            own.push_str(line)?;
            own.push_str("\n")?;
        }
    }
    Ok(own)
}

/// The first of writers 1 to 15 whose lines in a record are not just those that were handed in, in their order. (Writer 16's actions may come
/// too late, and are sent again.)
pub fn first_astray(alloc: Global, lines: &str, record: &str) -> Result<Option<u64>, AllocError> {
    for writer in 1..16u64 {
        let word = format!(in alloc; "{writer}")?;
        if lines_by(alloc, lines, word.as_str())? != lines_by(alloc, record, word.as_str())? {
            return Ok(Some(writer));
        }
    }
    Ok(None)
}
