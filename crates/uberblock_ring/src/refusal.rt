ghost use Rattle.std.specs.Prelude.{◌≡◌};
ghost use Rattle.uberblock_ring.specs.declared.refusal.Refusal.TheVariants.{NoMemory, DiskFault};

use model_disk::DiskError;
use std::alloc::{AllocError, AllocFailed};
use thiserror::Error;

/// Why slots are not read.
#[derive(Clone, Copy, Debug, PartialEq, Eq, Error)]
pub enum Refusal {
    #[error("the slot has no uberblock")]
    NoUberblock,
    #[error("the disk failed")]
    DiskFault,
    #[error("out of memory")]
    NoMemory,
}

impl From<DiskError> for Refusal {
    ghost from_gives = { λ _ refusal. refusal ≡ DiskFault };

    fn from(_error: DiskError) -> Refusal {
        Refusal::DiskFault
    }
}

impl From<AllocError> for Refusal {
    ghost from_gives = { λ _ refusal. refusal ≡ NoMemory };

    fn from(_error: AllocError) -> Refusal {
        Refusal::NoMemory
    }
}

impl<T: Drop> From<AllocFailed<T>> for Refusal {
    ghost from_gives = { λ _ refusal. refusal ≡ NoMemory };

    fn from(_error: AllocFailed<T>) -> Refusal {
        Refusal::NoMemory
    }
}
