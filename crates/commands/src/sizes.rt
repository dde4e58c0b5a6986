//! How long a volume is.
ghost use Rattle.std.specs.Prelude.{◌≡◌, IfOk, MatchOption};
ghost use Rattle.pool_model.specs.Pools.{PlainPool};
ghost use Rattle.pool_model.specs.View.{View, now_of};
ghost use Rattle.commands.specs.Rows.{AreRowsOf, HasNone, HasOfSize};

use crate::pools::Pools;
use pool_command::VolumeRow;
use pool_model::{Name, Refusal};
use std::alloc::Global;

/// The size that a table tells of this name.
fn size_in(rows: &[VolumeRow], name: &Name) -> Option<u64>
    ensures { (pool : PlainPool) → AreRowsOf pool rows.now
        → MatchOption result (HasNone name.now pool) (λ size. HasOfSize name.now size pool) }
{
    for i in 0..rows.len() {
        let row = &rows[i];
        if row.name.as_bytes() == name.as_slice() {
            return Some(row.size);
        }
    }
    None
}

/// How many bytes the volume or snapshot of that name has. `NoSuchName` where there is none.
pub(crate) fn size_of<S: Pools>(alloc: Global, pool: &S::Pool, name: &Name) -> Result<u64, Refusal>
    ensures { IfOk result (λ size. (v : View) → S.Pool.represents pool.now v
        → HasOfSize name.now size (now_of v)) }
{
    let rows = S::rows(alloc, pool)?;
    match size_in(rows.as_slice(), name) {
        Some(size) => Ok(size),
        None => Err(Refusal::NoSuchName),
    }
}
