//! Why disks are not opened.
ghost use Rattle.std.specs.Prelude.{◌≡◌};
ghost use Rattle.pool_slots.specs.OpenRefusals.{of_label, of_ring};

use std::alloc::{AllocError, AllocFailed};
use thiserror::Error;

/// A call on the disk of this number failed.
#[derive(Clone, Copy, Debug, PartialEq, Eq, Error)]
#[error("disk {disk} failed")]
pub struct DiskFailure {
    pub disk: usize,
}

#[derive(Clone, Copy, Debug, PartialEq, Eq, Error)]
pub enum Refusal {
    #[error("out of memory")]
    NoMemory,
    #[error("disk {disk} failed")]
    DiskFault { disk: usize },
    /// Or none that is so many groups below the highest, under its claim.
    #[error("no disk has an uberblock")]
    NoUberblock,
    /// With the configuration of the uberblock that is taken; or a disk has no label at all.
    #[error("no label has the configuration")]
    NoLabel,
    /// The pool was opened 2^62 times.
    #[error("no claim is left")]
    UsedUp,
}

impl Refusal {
    ghost use Rattle.std.specs.Prelude.{ℕ, IfNone, IfSome};
    ghost use Rattle.pool_slots.specs.Reads.{is_fault};

    /// The disk that failed, where one did.
    pub fn disk(&self) -> Option<usize>
        ensures some { IfSome result (is_fault self.now) }
        ensures none { IfNone result ((disk : ℕ) → ¬ is_fault self.now disk) }
    {
        match self {
            Refusal::DiskFault { disk } => Some(*disk),
            Refusal::NoMemory | Refusal::NoUberblock | Refusal::NoLabel | Refusal::UsedUp => None,
        }
    }
}

impl From<DiskFailure> for Refusal {
    ghost use Rattle.pool_slots.specs.declared.refusal.Refusal.TheVariants.{DiskFault};

    ghost from_gives = { λ failure refusal. refusal ≡ DiskFault failure.disk };

    fn from(failure: DiskFailure) -> Refusal {
        Refusal::DiskFault { disk: failure.disk }
    }
}

impl From<AllocError> for Refusal {
    ghost use Rattle.pool_slots.specs.declared.refusal.Refusal.TheVariants.{NoMemory};

    ghost from_gives = { λ _ refusal. refusal ≡ NoMemory };

    fn from(_error: AllocError) -> Refusal {
        Refusal::NoMemory
    }
}

impl<T: Drop> From<AllocFailed<T>> for Refusal {
    ghost use Rattle.pool_slots.specs.declared.refusal.Refusal.TheVariants.{NoMemory};

    ghost from_gives = { λ _ refusal. refusal ≡ NoMemory };

    fn from(_error: AllocFailed<T>) -> Refusal {
        Refusal::NoMemory
    }
}

/// Why slots of a disk are not read, as a refusal.
pub(crate) fn slots_unread(which: usize, cause: uberblock_ring::Refusal) -> Refusal
    ensures { result ≡ of_ring which cause }
{
    match cause {
        uberblock_ring::Refusal::NoMemory => Refusal::NoMemory,
        uberblock_ring::Refusal::DiskFault => Refusal::DiskFault { disk: which },
        uberblock_ring::Refusal::NoUberblock => Refusal::NoUberblock,
    }
}

/// Why a label of a disk is not read, as a refusal.
pub(crate) fn label_unread(which: usize, cause: vdev_label::Refusal) -> Refusal
    ensures { result ≡ of_label which cause }
{
    match cause {
        vdev_label::Refusal::NoMemory => Refusal::NoMemory,
        vdev_label::Refusal::DiskFault => Refusal::DiskFault { disk: which },
        vdev_label::Refusal::BadLabel(_) => Refusal::NoLabel,
    }
}
