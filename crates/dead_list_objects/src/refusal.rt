//! Why a dead list is not read or made.
ghost use Rattle.std.specs.Prelude.{◌≡◌};

use std::alloc::AllocError;
use thiserror::Error;

/// A dead list that was not read or made.
#[derive(Debug, Clone, Copy, PartialEq, Eq, Drop, Error)]
pub enum Refusal {
    #[error("out of memory")]
    NoMemory,
    /// A row of the list's object is no block pointer, or a hole's.
    #[error("the dead list is not one")]
    BadList,
    /// The rows of the list's object can't be read, or it is no object of a dead list.
    #[error("{0}")]
    Unread(block_store::Refusal),
}

impl From<AllocError> for Refusal {
    ghost use Rattle.dead_list_objects.specs.declared.refusal.Refusal.TheVariants.{NoMemory};

    ghost from_gives = { λ _ refusal. refusal ≡ NoMemory };

    fn from(_error: AllocError) -> Refusal {
        Refusal::NoMemory
    }
}

impl From<block_store::Refusal> for Refusal {
    ghost use Rattle.dead_list_objects.specs.Refused.{of_read};

    ghost from_gives = { λ why refusal. refusal ≡ of_read why };

    fn from(why: block_store::Refusal) -> Refusal {
        match why {
            block_store::Refusal::NoMemory => Refusal::NoMemory,
            _ => Refusal::Unread(why),
        }
    }
}
