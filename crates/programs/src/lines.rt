//! The lines of a schedule, read one by one.
ghost use Rattle.std.specs.Prelude.{◌≡◌, ◌+◌, [], ◌∷◌, MatchOption, IfOk, IfErr};
ghost use Rattle.std.specs.Io.BufRead.{strip_last};
ghost use Rattle.std.specs.Io.KnownBytes.{IsAtEnd};
ghost use Rattle.programs.specs.Faults.{IsLineFault, IsNextFault, ReadsCommand, counted};
ghost use Rattle.programs.specs.Reads.{IsSchedule, ReadsLines, commands_of};

use crate::refusal::Refusal;
use schedule_lines::{Command, Line, parse};
use std::alloc::Global;
use std::io::{BufRead, ErrorKind};

fn without_line_feed(line: &[u8]) -> &[u8]
    ensures { result.now ≡ strip_last 10 line.now }
{
    match line {
        [front @ .., b'\n'] => front,
        _ => line,
    }
}

/// The command of a line: none of a line that is skipped, or that only threads look at.
fn command_in(line: Line) -> Option<Command>
    ensures { MatchOption result (commands_of (line ∷ []) ≡ [])
        (λ command. line ≡ Line.Command command) }
{
    match line {
        Line::Command(command) => Some(command),
        Line::Skipped | Line::Threads => None,
    }
}

/// The lines of an input, of which one is kept at a time.
#[derive(Drop)]
pub struct Lines<R> {
    input: R,
    line: Vec<u8>,
    /// How many lines were read.
    count: u64,
}

impl<R: BufRead + Drop> Lines<R> {
    pub fn new(alloc: Global, input: R) -> Lines<R>
        ensures input { result.input ≡ input }
        ensures count { result.count ≡ 0 }
    {
        Lines {
            input,
            line: Vec::new(alloc),
            count: 0,
        }
    }

    /// The refusal of the line that was read last.
    pub fn fault(&self) -> Refusal
        ensures { result ≡ Refusal.Line self.now.count }
    {
        Refusal::Line(self.count)
    }

    /// The refusal of the line behind that one.
    pub fn fault_behind(&self) -> Refusal
        ensures { result ≡ Refusal.Line (counted (self.now.count + 1)) }
    {
        Refusal::Line(self.count.saturating_add(1))
    }

    /// The next command, or none at the end of the input.
    pub fn next_command(&mut self, alloc: Global) -> Result<Option<Command>, Refusal>
        ensures found { IfOk result (λ found. MatchOption found
            (IsSchedule (R.remaining self.old.input) [])
            (λ command. ReadsCommand (R.remaining self.old.input) self.old.count command
            (R.remaining self.new.input) self.new.count)) }
        ensures fault { IfErr result
            (IsLineFault (R.remaining self.old.input) self.old.count) }
    {
        for _ in 0..u64::MAX {
            let Some(line) = self.next_line(alloc)? else {
                return Ok(None);
            };
            if let Some(command) = command_in(line) {
                return Ok(Some(command));
            }
        }
        Err(Refusal::Input)
    }

    /// What the next line says, or none at the end of the input.
    pub fn next_line(&mut self, alloc: Global) -> Result<Option<Line>, Refusal>
        ensures found { IfOk result (λ found. MatchOption found
            (IsAtEnd (R.remaining self.old.input))
            (λ line. ReadsLines (R.remaining self.old.input) (line ∷ [])
            (R.remaining self.new.input) × (self.new.count ≡ counted (self.old.count + 1)))) }
        ensures fault { IfErr result (IsNextFault (R.remaining self.old.input) self.old.count) }
    {
        self.line.clear();
        match self.input.read_until(b'\n', &mut self.line) {
            Ok(0) => return Ok(None),
            Ok(_) => {}
            Err(error) if error.kind() == ErrorKind::OutOfMemory => return Err(Refusal::Memory),
            Err(_) => return Err(Refusal::Input),
        }
        self.count = self.count.saturating_add(1);
        match parse(alloc, without_line_feed(self.line.as_slice())) {
            Ok(line) => Ok(Some(line)),
            Err(schedule_lines::Refusal::Fault) => Err(self.fault()),
            Err(schedule_lines::Refusal::NoMemory) => Err(Refusal::Memory),
        }
    }
}
