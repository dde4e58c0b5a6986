//! Why a store is not made, or a block is not read or written.
ghost use Rattle.std.specs.Prelude.{◌≡◌};

use std::alloc::{AllocError, AllocFailed};

/// A store that was not made, or a block that was not read or planned. What an error leaves is said at each call.
#[derive(Debug, Clone, Copy, PartialEq, Eq, Drop, thiserror::Error)]
pub enum Refusal {
    #[error("out of memory")]
    NoMemory,
    /// Each copy was tried, and of the last one more columns are lost than its vdev has parities: on disks that are
    /// out or missing, or that failed in this read.
    #[error("more columns of the block are lost than it has parities")]
    DiskFault,
    /// Behind what is planned so far, no vdev has a free place for a copy of the block.
    #[error("no room for the block")]
    NoSpace,
    /// The pointer is not what its parent asks, or leads to no place of the pool.
    #[error("the block pointer is bad")]
    BadPointer,
    /// Each copy was tried. Of the last one no more columns are lost than there are parities, and no choice of those
    /// that were read has the digest.
    #[error("the block has another digest")]
    BadDigest,
    /// The vdevs or the disks of a new store are not within its limits.
    #[error("the store cannot be made of these vdevs and disks")]
    BadConfig,
}

impl From<AllocError> for Refusal {
    ghost use Rattle.block_store.specs.declared.refusal.Refusal.TheVariants.{NoMemory};

    ghost from_gives = { λ _ refusal. refusal ≡ NoMemory };

    fn from(_error: AllocError) -> Refusal {
        Refusal::NoMemory
    }
}

impl<T: Drop> From<AllocFailed<T>> for Refusal {
    ghost use Rattle.block_store.specs.declared.refusal.Refusal.TheVariants.{NoMemory};

    ghost from_gives = { λ _ refusal. refusal ≡ NoMemory };

    fn from(_error: AllocFailed<T>) -> Refusal {
        Refusal::NoMemory
    }
}
