//! What is printed of a scrub.
ghost use Rattle.std.specs.Prelude.{◌≡◌, IfOk, string_bytes};
ghost use Rattle.pool_command.specs.Tables.{scrub_text};

use std::alloc::{AllocError, Global};
use std::fmt;

/// What a scrub found. It prints as its lines, each with its line feed: the group and the findings, and what is left, if anything is.
#[derive(Clone, Copy)]
pub struct ScrubReport {
    /// The one whose blocks were looked at.
    pub group: u64,
    /// How many columns were unreadable or wrong.
    pub findings: u64,
    /// How many still are after the repair.
    pub left: u64,
}

impl fmt::Display for ScrubReport {
    ghost use Rattle.std.specs.Prelude.{Some};
    ghost use Rattle.pool_command.specs.Tables.{scrub_text};

    ghost output = { λ report. Some (scrub_text report) };

    fn fmt<W: fmt::Write>(&self, f: &mut fmt::Formatter<W>) -> fmt::Result {
        let ScrubReport {
            group,
            findings,
            left,
        } = *self;
        writeln!(f, "group {group} findings {findings}")?;
        if left > 0 {
            writeln!(f, "left {left}")?;
        }
        Ok(())
    }
}

/// What is printed of a scrub: its group and its findings in a line, and in a second one what is left, where something is.
pub fn scrub_text(alloc: Global, report: &ScrubReport) -> Result<String, AllocError>
    ensures { IfOk result (λ text. string_bytes text ≡ scrub_text report.now) }
{
    format!(in alloc; "{report}")
}
