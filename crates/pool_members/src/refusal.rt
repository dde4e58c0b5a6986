//! Why disks are not put in order.
ghost use Rattle.std.specs.Prelude.{◌≡◌};

use std::alloc::AllocError;
use thiserror::Error;

#[derive(Clone, Copy, Debug, PartialEq, Eq, Error)]
pub enum Refusal {
    #[error("out of memory")]
    NoMemory,
    /// Two children name one disk, or one names a place at which none was handed in.
    #[error("the children do not name disks that were handed in, each once")]
    NotEachOnce,
}

impl From<AllocError> for Refusal {
    ghost use Rattle.pool_members.specs.declared.refusal.Refusal.TheVariants.{NoMemory};

    ghost from_gives = { λ _ refusal. refusal ≡ NoMemory };

    fn from(_error: AllocError) -> Refusal {
        Refusal::NoMemory
    }
}
