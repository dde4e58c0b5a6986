//! What a program tells its caller at its end.
ghost use Rattle.std.specs.Prelude.{◌≡◌};
ghost use Rattle.programs.specs.Statuses.{status_number};

use crate::refusal::Refusal;

/// How a program ended.
#[derive(Clone, Copy, PartialEq, Eq)]
pub enum ExitStatus {
    Done,
    /// A line that it can't run, input or output that fails, or want of memory in the program itself.
    Fault(Refusal),
}

impl ExitStatus {
    /// The number that the process ends with.
    pub fn number(self) -> u8
        ensures { result ≡ status_number self }
    {
        match self {
            ExitStatus::Done => 0,
            ExitStatus::Fault(_) => 2,
        }
    }
}
