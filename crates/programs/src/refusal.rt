//! Why a schedule isn't run to its end.
ghost use Rattle.std.specs.Prelude.{◌≡◌};
ghost use Rattle.programs.specs.declared.refusal.Refusal.TheVariants.{Memory};

use std::alloc::AllocError;
use thiserror::Error;

/// Why a schedule isn't run to its end. It prints as it is told behind the program's name.
#[derive(Clone, Copy, Debug, PartialEq, Eq, Error)]
pub enum Refusal {
    /// A line that spells nothing, or that can't stand where it does. Lines are counted from 1.
    #[error("line {0}")]
    Line(u64),
    #[error("input")]
    Input,
    #[error("output")]
    Output,
    /// Memory ran out in the program itself.
    #[error("out of memory")]
    Memory,
}

impl From<AllocError> for Refusal {
    ghost from_gives = { λ _ refusal. refusal ≡ Memory };

    fn from(_error: AllocError) -> Refusal {
        Refusal::Memory
    }
}
