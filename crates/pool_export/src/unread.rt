//! Why the labels of a disk aren't read.
ghost use Rattle.pool_export.specs.declared.unread.Unread.TheVariants.{NoMemory};
ghost use Rattle.std.specs.Prelude.{◌≡◌};

use std::alloc::AllocError;

#[derive(Clone, Copy, Debug, PartialEq, Eq)]
pub(crate) enum Unread {
    NoMemory,
    DiskFault { disk: usize },
    /// With the configuration of the uberblock.
    NoLabel { disk: usize },
}

impl From<AllocError> for Unread {
    ghost from_gives = { λ _ cause. cause ≡ NoMemory };

    fn from(_error: AllocError) -> Unread {
        Unread::NoMemory
    }
}
