//! Pools whose core can be taken out.
ghost use Rattle.pool_create.specs.CoreStateOf.{state_of};

use model_disk::{MemDisk, Member};
use programs::{Core, PoolOnDisks};

/// A pool that may have a core, over disks in memory.
pub trait CorePool {
    ghost use Rattle.std.specs.Prelude.{◌≡◌, Option, option_map};
    ghost use Rattle.pool_create.specs.CoreState.{CoreState};
    ghost use Rattle.pool_create.specs.CoreStateOf.{state_of};

    /// The core, while the pool runs.
    ghost core_of: { Self → Option CoreState };

    /// The core, where the pool runs.
    fn into_core(self) -> Option<Core<Member<MemDisk>>>
        ensures { option_map state_of result ≡ core_of self };
}

impl CorePool for PoolOnDisks {
    ghost use Rattle.programs.specs.OnDisks.{state_of as pool_state};

    ghost core_of = { λ pool. (pool_state pool).core };

    fn into_core(self) -> Option<Core<Member<MemDisk>>> {
        PoolOnDisks::into_core(self)
    }
}
