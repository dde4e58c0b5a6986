//! Records, printed as schedules.
ghost use Rattle.std.specs.Prelude.{◌≡◌, ◌++◌, IfOk, MatchOption, OnOk, length, string_bytes};
ghost use Rattle.std.specs.Io.KnownBytes.{Appends, Keeps};
ghost use Rattle.schedule_lines.specs.Steps.{HasNoLine};
ghost use Rattle.thread_runs.specs.Printing.{IsEntryText, WritesEntries};

use crate::refusal::Refusal;
use schedule_lines::{command_of, line_bytes, reply_text};
use shared_pool::Entry;
use std::alloc::{AllocError, Global};
use std::io::Write;

/// The line of an entry's step, and its reply as a comment behind it. Some steps have no line.
fn entry_bytes(alloc: Global, entry: &Entry) -> Result<Option<Vec<u8>>, AllocError>
    ensures { IfOk result (λ found. MatchOption found (HasNoLine entry.now.step)
        (λ text. IsEntryText entry.now text.items)) }
{
    let Some(command) = command_of(alloc, &entry.step)? else {
        return Ok(None);
    };
    let mut text = line_bytes(alloc, &command)?;
    let reply = reply_text(alloc, &entry.reply)?;
    text.extend_from_slice(b"\n# ")?;
    text.extend_from_slice(reply.as_bytes())?;
    text.extend_from_slice(b"\n")?;
    Ok(Some(text))
}

fn print<W: Write>(output: &mut W, text: &[u8]) -> Result<(), Refusal>
    ensures { OnOk result (Appends (W.contents output.old) (W.contents output.new) text.now) }
{
    output.write_all(text).map_err(|_| Refusal::Output)
}

fn flush<W: Write>(output: &mut W) -> Result<(), Refusal>
    ensures { OnOk result (Keeps (W.contents output.old) (W.contents output.new)) }
{
    output.flush().map_err(|_| Refusal::Output)
}

/// Prints the entries, in their order. A step that has no line can't be put out.
pub(crate) fn print_entries<W: Write>(
    alloc: Global,
    output: &mut W,
    entries: &[Entry],
) -> Result<(), Refusal>
    ensures { OnOk result
        (WritesEntries entries.now (W.contents output.old) (W.contents output.new)) }
{
    for entry in entries {
        let Some(text) = entry_bytes(alloc, entry)? else {
            return Err(Refusal::Output);
        };
        print(output, text.as_slice())?;
    }
    flush(output)
}
