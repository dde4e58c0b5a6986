//! Why a pool is not made, or a plan or a read is refused.
ghost use Rattle.std.specs.Prelude.{◌≡◌};

use std::alloc::AllocError;

#[derive(Debug, Clone, Copy, PartialEq, Eq, Drop, thiserror::Error)]
pub enum Refusal {
    #[error("out of memory")]
    NoMemory,
    /// No copy of a block could be read: of the last one more columns are lost than its vdev has parities.
    #[error("more columns of a block are lost than it has parities")]
    DiskFault,
    /// No free run of the size that a block needs is left.
    #[error("no room for a block")]
    NoSpace,
    /// A block is not what its volume asks.
    #[error("a block pointer is bad")]
    BadPointer,
    /// No copy of a block could be read: no choice of the last one's columns has the digest.
    #[error("a block has another digest")]
    BadDigest,
    #[error("no volume of that name")]
    NoSuchName,
    /// The range is not within the volume, or has more than 1 MiB.
    #[error("the range is past the volume or too long")]
    OutOfRange,
    /// The group is not one of the last three.
    #[error("the group is not kept")]
    GroupGone,
    /// A pool of this shape, or over these disks, can't be made; or a volume of this shape.
    #[error("the pool cannot be made of these vdevs and disks")]
    BadConfig,
}

impl From<AllocError> for Refusal {
    ghost use Rattle.pool_commit.specs.declared.refusal.Refusal.TheVariants.{NoMemory};

    ghost from_gives = { λ _ refusal. refusal ≡ NoMemory };

    fn from(_error: AllocError) -> Refusal {
        Refusal::NoMemory
    }
}

impl From<block_store::Refusal> for Refusal {
    ghost use Rattle.pool_commit.specs.Causes.{of_store};

    ghost from_gives = { λ cause refusal. refusal ≡ of_store cause };

    fn from(cause: block_store::Refusal) -> Refusal {
        match cause {
            block_store::Refusal::NoMemory => Refusal::NoMemory,
            block_store::Refusal::DiskFault => Refusal::DiskFault,
            block_store::Refusal::NoSpace => Refusal::NoSpace,
            block_store::Refusal::BadPointer => Refusal::BadPointer,
            block_store::Refusal::BadDigest => Refusal::BadDigest,
            block_store::Refusal::BadConfig => Refusal::BadPointer,
        }
    }
}

impl From<Refusal> for pool_model::Refusal {
    ghost use Rattle.pool_commit.specs.Causes.{cause_of};

    ghost from_gives = { λ cause refusal. refusal ≡ cause_of cause };

    fn from(cause: Refusal) -> pool_model::Refusal {
        match cause {
            Refusal::NoMemory => pool_model::Refusal::NoMemory,
            Refusal::DiskFault => pool_model::Refusal::DiskFault,
            Refusal::NoSpace => pool_model::Refusal::NoSpace,
            Refusal::BadPointer => pool_model::Refusal::BadPointer,
            Refusal::BadDigest => pool_model::Refusal::BadDigest,
            Refusal::NoSuchName => pool_model::Refusal::NoSuchName,
            Refusal::OutOfRange => pool_model::Refusal::OutOfRange,
            Refusal::GroupGone => pool_model::Refusal::GroupGone,
            Refusal::BadConfig => pool_model::Refusal::BadConfig,
        }
    }
}
