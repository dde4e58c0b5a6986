//! A new pool is read as an open reads it.
ghost use Rattle.std.specs.Prelude.{◌≡◌, length, IfErr, IfOk};
ghost use Rattle.block_store.specs.Opened.{MayBeOpened};
ghost use Rattle.pool_open.specs.CoreStateOf.{state_of};
ghost use Rattle.pool_create.specs.Planning.{none_out};
ghost use Rattle.pool_create.specs.ReadingBack.{IsReadBack, IsUnread, of_read};
ghost use Rattle.pool_open.specs.Held.{IsLaidOver};
ghost use Rattle.pool_slots.specs.Slots.{HaveLabels};
ghost use Rattle.uberblock_ring.specs.Uberblock.{IsNumber};

use crate::planning::NewPool;
use crate::surveying::survey_alone;
use block_pointer::Block;
use block_store::writes_elsewhere_keep;
use meta_objset::StaleSpans;
use model_disk::{Disk, DiskArray};
use pool_open::{KnownDisks, KnownRoot, OpenedPool, ReadRoot, Refusal, core_over, read_root};
use std::alloc::Global;
use std::sync::Arc;

/// Why a pool that was just made is refused: one that doesn't show its configuration shows no uberblock of it.
pub(crate) fn of_read(cause: Refusal) -> Refusal
    ensures { result ≡ of_read cause }
{
    match cause {
        Refusal::BadConfig => Refusal::NoUberblock,
        cause => cause,
    }
}

/// Reads the pool whose first group has this root. After an error the disks come back.
pub(crate) fn read_back<D: Disk + Drop>(
    alloc: Global,
    disks: DiskArray<D>,
    pool: &NewPool,
    root: Block,
) -> Result<OpenedPool<D>, (Refusal, DiskArray<D>)>
    requires labels { HaveLabels disks.starts }
    requires out { pool.now.out.items ≡ none_out (length disks.starts) }
    requires claim { IsNumber pool.now.stamp.claim }
    requires may { MayBeOpened disks.starts pool.now.shapes.items pool.now.out.items }
    requires laid { IsLaidOver disks pool.now.shapes.items pool.now.out.items }
    ensures read { IfOk result (λ opened.
        IsReadBack disks pool.now root opened.uberblock (state_of opened.core)) }
    ensures refused { IfErr result (λ failed.
        IsUnread disks pool.now root failed.1 failed.0) }
{
    writes_elsewhere_keep();
    let Ok(config) = Arc::try_clone(&pool.config) else {
        return Err((Refusal::NoMemory, disks));
    };
    let mut disks = disks;
    let taken = match survey_alone(alloc, &mut disks, pool, root) {
        Ok(taken) => taken,
        Err(refusal) => return Err((refusal, disks)),
    };
    let read = match read_root(alloc, disks, &pool.shapes, &pool.out, &root, 3, u64::MAX) {
        Ok(read) => read,
        Err((refusal, disks)) => return Err((Refusal::from(refusal), disks)),
    };
    let ReadRoot { disks, contents } = read;
    let spans = StaleSpans::new(alloc);
    let root = KnownRoot {
        contents,
        stale: Vec::new(alloc),
        disks: KnownDisks { config, spans },
    };
    let core = core_over(alloc, disks, &pool.shapes, &pool.out, &taken, root)?;
    Ok(OpenedPool {
        core,
        uberblock: taken,
    })
}
