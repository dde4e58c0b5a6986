//! Laws of commands: functions with no code, whose contracts are proved of the definitions.
ghost use Rattle.std.specs.Prelude.{ℕ, Bool, List};
ghost use Rattle.pool_model.specs.Pools.{PlainPool};
ghost use Rattle.pool_model.specs.View.{Vdev, opened_as};
ghost use Rattle.command_steps.specs.Made.{IsAtRest};

/// A pool that was just opened is at rest, whatever group was committed before, whichever disks are out, and whatever blocks
/// they lack.
pub fn opened_pools_are_at_rest()
    ensures { (vdevs : List Vdev) (out : ℕ → Bool) (stale : ℕ → ℕ → Bool) (group : ℕ)
        (pool : PlainPool) → IsAtRest (opened_as vdevs out stale group pool) }
{}
