//! Why a pool is not opened.
ghost use Rattle.std.specs.Prelude.{◌≡◌};
ghost use Rattle.pool_open.specs.Causes.{argument_of, name_of, number_of};
ghost use Rattle.pool_open.specs.declared.refusal.Refusal.TheVariants.{NoMemory};

use std::alloc::{AllocError, AllocFailed};
use thiserror::Error;
use vdev_label::Breach;

#[derive(Clone, Copy, Debug, PartialEq, Eq, Error)]
pub enum Refusal {
    #[error("out of memory")]
    NoMemory,
    /// Of a block more columns are lost than its vdev has parities; or a call on a disk of a new pool failed.
    #[error("a disk failed")]
    DiskFault,
    /// A new pool has no room for its first group.
    #[error("no room for a block")]
    NoSpace,
    /// No disk has a valid label; what is wrong with the first that could be read.
    #[error("bad label: {0}")]
    BadLabel(Breach),
    /// No slot is to be taken, or no number is left after it.
    #[error("no uberblock")]
    NoUberblock,
    /// A block of the root is not what its parent asks, or is there twice; or a space map or a block has no place of its own.
    #[error("a block pointer is bad")]
    BadPointer,
    /// No choice of a block's columns has its digest.
    #[error("a block has another digest")]
    BadDigest,
    /// More disks of a vdev are absent, or failed, than it has parities.
    #[error("too many disks are missing")]
    TooManyMissing,
    /// The labels are of several pools, or disagree on which disk is which.
    #[error("the disks are not those of one pool")]
    PoolMismatch,
    /// No label has the configuration that the slot names, or it breaks a limit.
    #[error("bad configuration")]
    BadConfig,
    /// The entries of a metaslab's space map are none.
    #[error("a space map is bad")]
    BadMap,
}

impl Refusal {
    /// The number by which a schedule's output and a program's error name it.
    pub fn number(&self) -> u8
        ensures { result ≡ number_of self.now }
    {
        match self {
            Refusal::NoMemory => 1,
            Refusal::DiskFault => 2,
            Refusal::NoSpace => 3,
            Refusal::BadLabel(_) => 18,
            Refusal::NoUberblock => 19,
            Refusal::BadPointer => 20,
            Refusal::BadDigest => 21,
            Refusal::TooManyMissing => 22,
            Refusal::PoolMismatch => 23,
            Refusal::BadConfig => 24,
            Refusal::BadMap => 27,
        }
    }

    /// The name that stands after the number.
    pub fn name(&self) -> &'static str
        ensures { result.now ≡ name_of self.now }
    {
        match self {
            Refusal::NoMemory => "NoMemory",
            Refusal::DiskFault => "DiskFault",
            Refusal::NoSpace => "NoSpace",
            Refusal::BadLabel(_) => "BadLabel",
            Refusal::NoUberblock => "NoUberblock",
            Refusal::BadPointer => "BadPointer",
            Refusal::BadDigest => "BadDigest",
            Refusal::TooManyMissing => "TooManyMissing",
            Refusal::PoolMismatch => "PoolMismatch",
            Refusal::BadConfig => "BadConfig",
            Refusal::BadMap => "BadMap",
        }
    }

    /// What stands after the name: of a bad label what is wrong with it. Empty where nothing does.
    pub fn argument(&self) -> &'static str
        ensures { result.now ≡ argument_of self.now }
    {
        match self {
            Refusal::BadLabel(Breach::Tail) => "tail",
            Refusal::BadLabel(Breach::Digest) => "digest",
            Refusal::BadLabel(Breach::List) => "list",
            Refusal::BadLabel(Breach::Pairs) => "pairs",
            _ => "",
        }
    }
}

impl From<AllocError> for Refusal {
    ghost from_gives = { λ _ refusal. refusal ≡ NoMemory };

    fn from(_error: AllocError) -> Refusal {
        Refusal::NoMemory
    }
}

impl<T: Drop> From<AllocFailed<T>> for Refusal {
    ghost from_gives = { λ _ refusal. refusal ≡ NoMemory };

    fn from(_error: AllocFailed<T>) -> Refusal {
        Refusal::NoMemory
    }
}

impl From<pool_labels::Refusal> for Refusal {
    ghost use Rattle.pool_open.specs.Causes.{of_labels};

    ghost from_gives = { λ cause refusal. refusal ≡ of_labels cause };

    fn from(cause: pool_labels::Refusal) -> Refusal {
        match cause {
            pool_labels::Refusal::NoMemory => Refusal::NoMemory,
            pool_labels::Refusal::BadLabel(breach) => Refusal::BadLabel(breach),
            pool_labels::Refusal::NoUberblock => Refusal::NoUberblock,
            pool_labels::Refusal::TooManyMissing => Refusal::TooManyMissing,
            pool_labels::Refusal::PoolMismatch => Refusal::PoolMismatch,
            pool_labels::Refusal::BadConfig => Refusal::BadConfig,
        }
    }
}

impl From<pool_slots::Refusal> for Refusal {
    ghost use Rattle.pool_open.specs.Causes.{of_slots};

    ghost from_gives = { λ cause refusal. refusal ≡ of_slots cause };

    fn from(cause: pool_slots::Refusal) -> Refusal {
        match cause {
            pool_slots::Refusal::NoMemory => Refusal::NoMemory,
            pool_slots::Refusal::DiskFault { .. } => Refusal::DiskFault,
            pool_slots::Refusal::NoUberblock | pool_slots::Refusal::UsedUp => Refusal::NoUberblock,
            pool_slots::Refusal::NoLabel => Refusal::BadConfig,
        }
    }
}

impl From<block_store::Refusal> for Refusal {
    ghost use Rattle.pool_open.specs.Causes.{of_store};

    ghost from_gives = { λ cause refusal. refusal ≡ of_store cause };

    fn from(cause: block_store::Refusal) -> Refusal {
        match cause {
            block_store::Refusal::NoMemory => Refusal::NoMemory,
            block_store::Refusal::DiskFault => Refusal::DiskFault,
            block_store::Refusal::NoSpace => Refusal::NoSpace,
            block_store::Refusal::BadPointer => Refusal::BadPointer,
            block_store::Refusal::BadDigest => Refusal::BadDigest,
            block_store::Refusal::BadConfig => Refusal::BadConfig,
        }
    }
}

impl From<space_map_objects::Refusal> for Refusal {
    ghost use Rattle.pool_open.specs.Causes.{of_root};

    ghost from_gives = { λ cause refusal. refusal ≡ of_root cause };

    fn from(cause: space_map_objects::Refusal) -> Refusal {
        match cause {
            space_map_objects::Refusal::NoMemory => Refusal::NoMemory,
            space_map_objects::Refusal::BadMap => Refusal::BadMap,
            space_map_objects::Refusal::Unread(cause) => Refusal::from(cause),
        }
    }
}

impl From<pool_format::Refusal> for Refusal {
    ghost use Rattle.pool_open.specs.Causes.{of_format};

    ghost from_gives = { λ cause refusal. refusal ≡ of_format cause };

    fn from(cause: pool_format::Refusal) -> Refusal {
        match cause {
            pool_format::Refusal::NoMemory => Refusal::NoMemory,
            pool_format::Refusal::DiskFault { .. } => Refusal::DiskFault,
        }
    }
}
