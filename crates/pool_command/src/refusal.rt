//! Why words are no command.
ghost use Rattle.std.specs.Prelude.{◌≡◌};
ghost use Rattle.pool_command.specs.Causes.{of_words};
ghost use Rattle.pool_command.specs.declared.refusal.Refusal.TheVariants.{NoMemory};

use clap::error::ErrorKind;
use std::alloc::{AllocError, AllocFailed};
use thiserror::Error;

/// Why words are no command. It prints as the whole text that the program shows, with its line feed. All but an answer are
/// faults of the line: the program ends with status 2, and with 0 at an answer.
#[derive(Debug, Drop, Error)]
pub enum Refusal {
    /// The words are no line of the program, or they ask for help or the version.
    #[error("{0}")]
    Words(clap::Error),
    /// A word that a command has to have is missing, or is no number. The options and places of each command are such that
    /// these words are refused before.
    #[error("error: a word is missing, or is no number\n\nFor more information, try '--help'.\n")]
    Missing,
    #[error("error: TYPE is raidz1 or raidz2\n\nFor more information, try '--help'.\n")]
    NoType,
    #[error("error: a snapshot's name is VOLUME@SNAPSHOT\n\nFor more information, try '--help'.\n")]
    NoPart,
    #[error("error: of the files at least one is new, and at least one isn't\n\nFor more information, try '--help'.\n")]
    NoNewFiles,
    #[error("error: give one of --at N and --all\n\nFor more information, try '--help'.\n")]
    NoPlace,
    #[error("error: give both --at N and --len N, or neither\n\nFor more information, try '--help'.\n")]
    HalfRange,
    #[error("error: the program is zpool or zfs\n")]
    NoProgram,
    #[error("error: out of memory\n")]
    NoMemory,
}

impl Refusal {
    ghost use Rattle.pool_command.specs.Causes.{is_answer};

    /// Whether it is no fault: help or the version was asked for, and the text goes to the output.
    pub fn is_answer(&self) -> bool
        ensures { result ≡ is_answer self.now }
    {
        match self {
            Refusal::Words(error) => {
                matches!(
                    error.kind(),
                    ErrorKind::DisplayHelp | ErrorKind::DisplayVersion
                )
            }
            _ => false,
        }
    }
}

impl From<clap::Error> for Refusal {
    ghost from_gives = { λ error refusal. refusal ≡ of_words error };

    fn from(error: clap::Error) -> Refusal {
        match error.kind() {
            ErrorKind::OutOfMemory => Refusal::NoMemory,
            _ => Refusal::Words(error),
        }
    }
}

impl From<AllocError> for Refusal {
    ghost from_gives = { λ _ refusal. refusal ≡ NoMemory };

    fn from(_error: AllocError) -> Refusal {
        Refusal::NoMemory
    }
}

impl<T: Drop> From<AllocFailed<T>> for Refusal {
    ghost from_gives = { λ _ refusal. refusal ≡ NoMemory };

    fn from(_error: AllocFailed<T>) -> Refusal {
        Refusal::NoMemory
    }
}
