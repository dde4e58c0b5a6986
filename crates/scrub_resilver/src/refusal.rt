//! Why blocks are not looked at.
ghost use Rattle.std.specs.Prelude.{◌≡◌};

use std::alloc::{AllocError, AllocFailed};

/// Why blocks are not looked at, or not mended.
#[derive(Debug, Clone, Copy, PartialEq, Eq, Drop, thiserror::Error)]
pub enum Refusal {
    #[error("out of memory")]
    NoMemory,
    /// A copy lies in no vdev of the pool, or passes its end.
    #[error("the block pointer is bad")]
    BadPointer,
}

impl From<AllocError> for Refusal {
    ghost use Rattle.scrub_resilver.specs.declared.refusal.Refusal.TheVariants.{NoMemory};

    ghost from_gives = { λ _ refusal. refusal ≡ NoMemory };

    fn from(_error: AllocError) -> Refusal {
        Refusal::NoMemory
    }
}

impl<T: Drop> From<AllocFailed<T>> for Refusal {
    ghost use Rattle.scrub_resilver.specs.declared.refusal.Refusal.TheVariants.{NoMemory};

    ghost from_gives = { λ _ refusal. refusal ≡ NoMemory };

    fn from(_error: AllocFailed<T>) -> Refusal {
        Refusal::NoMemory
    }
}
