//! What a program tells by its exit status.
ghost use Rattle.std.specs.Prelude.{◌≡◌};

use crate::stop::Stop;

/// How a command ended.
#[derive(Clone, Copy)]
pub enum ExitStatus {
    /// All was done that the line asks for.
    Done,
    /// It is refused, or a disk failed.
    Refused,
    /// The line is none, standard input or output failed, or the command isn't there yet.
    Fault,
}

impl ExitStatus {
    ghost use Rattle.commands.specs.Ends.{number_of, status_of};

    /// The program's exit status: 0, 1 or 2.
    pub fn number(&self) -> u8
        ensures { result ≡ number_of self.now }
    {
        match self {
            ExitStatus::Done => 0,
            ExitStatus::Refused => 1,
            ExitStatus::Fault => 2,
        }
    }

    /// How a command ended that was stopped.
    pub(crate) fn of<R>(stop: &Stop<R>) -> ExitStatus
        ensures { result ≡ status_of stop.now }
    {
        match stop {
            Stop::Pools(_) | Stop::Pool(_) | Stop::DiskLost => ExitStatus::Refused,
            Stop::Input | Stop::Protocol | Stop::Output | Stop::NotThere => ExitStatus::Fault,
        }
    }
}
