//! Running a command line.
ghost use Rattle.std.specs.Prelude.{◌≡◌, IfErr, map, OnOk};
ghost use Rattle.std.specs.Io.KnownBytes.{Appends};
ghost use Rattle.pool_command.specs.declared.command.Command.TheVariants.{Zfs};
ghost use Rattle.commands.specs.Ends.{status_by, status_of};
ghost use Rattle.commands.specs.Lines.{EndsCommand};
ghost use Rattle.commands.specs.Performs.{IsPlain, Streams};
ghost use Rattle.commands.specs.Running.{IsLineOf, IsPerformed, IsUnperformed};

use crate::explaining::explain;
use crate::performing::perform;
use crate::pools::Pools;
use crate::serving::serve_volume;
use crate::status::ExitStatus;
use crate::stop::Stop;
use crate::streaming::read_all;
use pool_command::{Command, Files, ZfsCommand, parse};
use pool_model::Name;
use std::alloc::Global;
use std::fmt::Display;
use std::io::{self, Read, Write};

/// Prints what there is to print.
fn print<W: Write>(output: &mut W, bytes: &[u8]) -> io::Result<()>
    ensures { OnOk result (Appends (W.contents output.old) (W.contents output.new) bytes.now) }
{
    output.write_all(bytes)?;
    output.flush()
}

/// Tells why a command ended before its end.
fn tell<R: Display, E: Write>(errors: &mut E, program: &str, stop: &Stop<R>) -> ExitStatus
    ensures { result ≡ status_of stop.now }
{
    // Where this can't be told either, the status still says it.
    let _ = writeln!(errors, "{program}: {stop}");
    ExitStatus::of(stop)
}

/// How the command of these words ended; and tells why, where that was before its end, and what helps.
fn end<S: Pools, E: Write>(
    alloc: Global,
    pools: &S,
    words: &[&str],
    errors: &mut E,
    ended: &Result<(), Stop<S::Refusal>>,
) -> ExitStatus
    ensures { result ≡ status_by ended.now }
{
    let Err(stop) = ended else {
        return ExitStatus::Done;
    };
    let status = tell(errors, words.first().copied().unwrap_or("zpool"), stop);
    if let Stop::Pools(cause) = stop {
        explain(alloc, pools, words, cause, errors);
    }
    status
}

/// A command by how it prints.
#[derive(Drop)]
enum Line {
    /// At its end.
    Plain(Command),
    /// A whole volume, piece by piece.
    ReadAll { name: Name, files: Files },
    /// Replies to requests, as they come.
    Serve { name: Name, files: Files },
}

/// How a line of `zfs` prints.
fn zfs_line_of(command: ZfsCommand) -> Line
    ensures { IsLineOf (Zfs command) result }
{
    match command {
        ZfsCommand::ReadAll { name, files } => Line::ReadAll { name, files },
        ZfsCommand::Serve { name, files } => Line::Serve { name, files },
        command => Line::Plain(Command::Zfs(command)),
    }
}

/// How a command prints.
fn line_of(command: Command) -> Line
    ensures { IsLineOf command result }
{
    match command {
        Command::Zpool(command) => Line::Plain(Command::Zpool(command)),
        Command::Zfs(command) => zfs_line_of(command),
    }
}

/// Does what a plain line asks for, and prints what it has to print then.
fn perform_and_print<S: Pools, R: Read, W: Write>(
    alloc: Global,
    pools: &mut S,
    command: Command,
    timestamp: u64,
    input: &mut R,
    output: &mut W,
) -> Result<(), Stop<S::Refusal>>
    requires { IsPlain command }
    ensures done { OnOk result (IsPerformed S.Pools S.Pool.PoolSteps command timestamp
        (R.remaining input.old) pools.old pools.new (W.contents output.old) (W.contents output.new)) }
    ensures stopped { IfErr result (IsUnperformed S.Pools S.Pool.PoolSteps command timestamp
        (R.remaining input.old) pools.old pools.new (W.contents output.old) (W.contents output.new)) }
{
    let printed = match perform(alloc, pools, command, timestamp, input) {
        Ok(printed) => printed,
        Err(stop) => return Err(stop),
    };
    match print(output, printed.as_slice()) {
        Ok(()) => Ok(()),
        Err(_) => Err(Stop::Output),
    }
}

/// Runs a command line, whose first word is the name of the program, `zpool` or `zfs`: opens the pool on its files, takes its steps, commits,
/// and prints then. Why it ended before its end is told on `errors` in a line, as `zpool: refused 22 TooManyMissing`,
/// and what the pools know beside that in further lines.
///
/// Faults of the line come first, before a file is opened; then those of standard input, of which a write of one range takes all before a file is
/// opened; then what the pool answers. A whole volume is read, written and served as it comes.
pub fn command<S: Pools, R: Read, W: Write, E: Write>(
    alloc: Global,
    pools: &mut S,
    words: &[&str],
    timestamp: u64,
    input: &mut R,
    output: &mut W,
    errors: &mut E,
) -> ExitStatus
    ensures { EndsCommand S.Pools S.Pool.PoolSteps
        (map (λ w. w.now) words.now) timestamp (R.remaining input.old) pools.old pools.new
        (W.contents output.old) (W.contents output.new) result }
{
    let command = match parse(alloc, words) {
        Ok(command) => command,
        Err(refusal) => {
            if refusal.is_answer() {
                return match write!(output, "{refusal}") {
                    Ok(()) => ExitStatus::Done,
                    Err(_) => ExitStatus::Fault,
                };
            }
            let _ = write!(errors, "{refusal}");
            return ExitStatus::Fault;
        }
    };
    match line_of(command) {
        Line::Plain(command) => {
            let ended = perform_and_print(alloc, pools, command, timestamp, input, output);
            return end(alloc, pools, words, errors, &ended);
        }
        Line::ReadAll { name, files } => {
            let ended = read_all(alloc, pools, &files, name, output);
            return end(alloc, pools, words, errors, &ended);
        }
        Line::Serve { name, files } => {
            let ended = serve_volume(alloc, pools, &files, name, timestamp, input, output);
            return end(alloc, pools, words, errors, &ended);
        }
    }
}
