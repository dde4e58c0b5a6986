//! Why no pool is found on disks.
ghost use Rattle.std.specs.Prelude.{◌≡◌};

use std::alloc::{AllocError, AllocFailed};
use thiserror::Error;
use vdev_label::Breach;

#[derive(Clone, Copy, Debug, PartialEq, Eq, Error)]
pub enum Refusal {
    #[error("out of memory")]
    NoMemory,
    /// No disk has a valid label; what is wrong with the first that could be read.
    #[error("bad label: {0}")]
    BadLabel(Breach),
    /// No slot is to be taken, or no number is left after it.
    #[error("no uberblock")]
    NoUberblock,
    /// More disks of a vdev are absent than it has parities.
    #[error("too many disks are missing")]
    TooManyMissing,
    /// The labels are of several pools, or disagree on which disk is which.
    #[error("the disks are not those of one pool")]
    PoolMismatch,
    /// No label has the configuration that the slot names, or it breaks a limit.
    #[error("bad configuration")]
    BadConfig,
}

impl From<AllocError> for Refusal {
    ghost use Rattle.pool_labels.specs.declared.refusal.Refusal.TheVariants.{NoMemory};

    ghost from_gives = { λ _ refusal. refusal ≡ NoMemory };

    fn from(_error: AllocError) -> Refusal {
        Refusal::NoMemory
    }
}

impl<T: Drop> From<AllocFailed<T>> for Refusal {
    ghost use Rattle.pool_labels.specs.declared.refusal.Refusal.TheVariants.{NoMemory};

    ghost from_gives = { λ _ refusal. refusal ≡ NoMemory };

    fn from(_error: AllocFailed<T>) -> Refusal {
        Refusal::NoMemory
    }
}
