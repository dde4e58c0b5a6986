//! The pool that a command line asks for.
ghost use Rattle.std.specs.Prelude.{◌≡◌, ◌⊎◌, IfErr, IfOk};
ghost use Rattle.file_pools.specs.Asking.{IsAskedFor, IsNoPool};
ghost use Rattle.pool_create.specs.OpenRefusal.TheVariants.{BadConfig, NoMemory};

use crate::guids::{child_guids, guid};
use block_store::sectors_for_blocks;
use pool_command::NewPool;
use pool_create::{PoolIdentity, Refusal};
use std::alloc::Global;
use vdev_label::{Config, Vdev};

/// The name, the guids and the one vdev of the pool that the line asks for. `BadConfig` where its files are too small or too large for
/// a disk, or its name is no text.
pub(crate) fn asked(alloc: Global, pool: &NewPool) -> Result<(PoolIdentity, Config), Refusal>
    ensures asked { IfOk result (λ asked. IsAskedFor pool.now asked.0 asked.1) }
    ensures refused { IfErr result (λ cause. (cause ≡ NoMemory)
        ⊎ ((cause ≡ BadConfig) × IsNoPool pool.now)) }
{
    let Some(child_sectors) = sectors_for_blocks(pool.bytes) else {
        return Err(Refusal::BadConfig);
    };
    let Ok(count) = u32::try_from(pool.files.as_slice().len()) else {
        return Err(Refusal::BadConfig);
    };
    let Ok(name) = String::from_utf8(pool.name.copied(alloc)?.into_vec()) else {
        return Err(Refusal::BadConfig);
    };
    let identity = PoolIdentity {
        name,
        guid: guid(alloc, pool.seed, 0)?,
    };
    let vdev = Vdev {
        guid: guid(alloc, pool.seed, 1)?,
        parity: u64::from(pool.parities),
        child_sectors,
        slab_shift: pool.shift,
        meta_slabs: pool.meta,
        children: child_guids(alloc, pool.seed, count)?,
    };
    let vdevs = vec![in alloc; vdev]?;
    Ok((identity, Config { vdevs }))
}
