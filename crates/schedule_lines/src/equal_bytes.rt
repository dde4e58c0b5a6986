//! Runs of equal bytes, as a read's reply prints them.
ghost use Rattle.std.specs.Prelude.{◌≡◌, ◌==◌, [], List, IfOk, MatchOption, string_bytes};
ghost use Rattle.std.specs.List.{prefix_len};
ghost use Rattle.schedule_lines.specs.declared.equal_bytes.Run.{Run};
ghost use Rattle.schedule_lines.specs.Runs.{BeginsWithRun, AreRuns, runs_text};

use std::alloc::{AllocError, Global};
use std::fmt;

/// A byte, and how many times it stands in a row. It prints as `ffx1024`.
#[derive(Clone, Copy, Debug, PartialEq, Eq)]
pub struct Run {
    pub byte: u8,
    pub count: usize,
}

impl fmt::Display for Run {
    ghost use Rattle.std.specs.Prelude.{Some};
    ghost use Rattle.schedule_lines.specs.Runs.{run_text};

    ghost output = { λ run. Some (run_text run) };

    fn fmt<W: fmt::Write>(&self, f: &mut fmt::Formatter<W>) -> fmt::Result {
        let Run { byte, count } = *self;
        write!(f, "{byte:02x}x{count}")
    }
}

pub(crate) fn count_in_front(byte: u8, bytes: &[u8]) -> usize
    ensures { result ≡ prefix_len (λ b. b == byte) bytes.now }
{
    bytes.iter().take_while(|b| **b == byte).count()
}

fn first_run(bytes: &[u8]) -> Option<Run>
    ensures { MatchOption result (bytes.now ≡ []) (λ run. BeginsWithRun run bytes.now) }
{
    let [byte, ..] = bytes else {
        return None;
    };
    Some(Run {
        byte: *byte,
        count: count_in_front(*byte, bytes),
    })
}

/// The longest runs of equal bytes, in order.
pub fn runs(alloc: Global, bytes: &[u8]) -> Result<Vec<Run>, AllocError>
    ensures { IfOk result (λ runs. AreRuns bytes.now runs.items) }
{
    let mut runs = Vec::new(alloc);
    let mut rest = bytes;
    while let Some(run) = first_run(rest) {
        runs.push(run)?;
        rest = &rest[run.count..];
    }
    Ok(runs)
}

/// The runs of the bytes, parted by one space, as `01x512 00x512`.
pub fn runs_text(alloc: Global, bytes: &[u8]) -> Result<String, AllocError>
    ensures { IfOk result (λ text. (runs : List Run) × AreRuns bytes.now runs
        × (string_bytes text ≡ runs_text runs)) }
{
    let runs = runs(alloc, bytes)?;
    let Some((first, others)) = runs.split_first() else {
        return String::from_str(alloc, "empty");
    };
    let mut text = format!(in alloc; "{first}")?;
    for run in others {
        write!(text, " {run}")?;
    }
    Ok(text)
}
