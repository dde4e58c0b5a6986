ghost use Rattle.std.specs.Prelude.{◌≡◌};
ghost use Rattle.vdev_label.specs.declared.refusal.Refusal.TheVariants.{NoMemory};

use std::alloc::{AllocError, AllocFailed};
use thiserror::Error;

/// What is wrong with a label. Where several things are, it is the first of these.
#[derive(Clone, Copy, Debug, PartialEq, Eq, Error)]
pub enum Breach {
    /// The word at the end of the area is another.
    #[error("tail")]
    Tail,
    /// The digest at the end of the area is another.
    #[error("digest")]
    Digest,
    /// The area doesn't begin with a name-value list that has only zeros behind it.
    #[error("list")]
    List,
    /// A pair is missing, of another type, additional or out of range.
    #[error("pairs")]
    Pairs,
}

/// Why a label is not read or not written.
#[derive(Clone, Copy, Debug, PartialEq, Eq, Error)]
pub enum Refusal {
    #[error("out of memory")]
    NoMemory,
    #[error("the disk failed")]
    DiskFault,
    #[error("bad label: {0}")]
    BadLabel(Breach),
}

impl From<AllocError> for Refusal {
    ghost from_gives = { λ _ refusal. refusal ≡ NoMemory };

    fn from(_error: AllocError) -> Refusal {
        Refusal::NoMemory
    }
}

impl<T: Drop> From<AllocFailed<T>> for Refusal {
    ghost from_gives = { λ _ refusal. refusal ≡ NoMemory };

    fn from(_error: AllocFailed<T>) -> Refusal {
        Refusal::NoMemory
    }
}
