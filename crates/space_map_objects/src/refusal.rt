//! Why a space map is not read or made.
ghost use Rattle.std.specs.Prelude.{◌≡◌};

use std::alloc::AllocError;
use thiserror::Error;

/// A space map that was not read or made.
#[derive(Debug, Clone, Copy, PartialEq, Eq, Drop, Error)]
pub enum Refusal {
    #[error("out of memory")]
    NoMemory,
    /// An entry is none, lies past the metaslab's end, or does not change each sector that it names.
    #[error("the space map is not one")]
    BadMap,
    /// The rows of the map's object can't be read, or it is no object of a space map.
    #[error("{0}")]
    Unread(block_store::Refusal),
}

impl From<AllocError> for Refusal {
    ghost use Rattle.space_map_objects.specs.declared.refusal.Refusal.TheVariants.{NoMemory};

    ghost from_gives = { λ _ refusal. refusal ≡ NoMemory };

    fn from(_error: AllocError) -> Refusal {
        Refusal::NoMemory
    }
}

impl From<block_store::Refusal> for Refusal {
    ghost use Rattle.space_map_objects.specs.Refused.{of_read};

    ghost from_gives = { λ why refusal. refusal ≡ of_read why };

    fn from(why: block_store::Refusal) -> Refusal {
        match why {
            block_store::Refusal::NoMemory => Refusal::NoMemory,
            _ => Refusal::Unread(why),
        }
    }
}
