//! Exporting a pool: its labels say that it is put away, and its disks are given back.
ghost use Rattle.std.specs.Prelude.{◌≡◌, IfErr, IfOk};
ghost use Rattle.pool_core.specs.Last.{IsLastUberblock};
ghost use Rattle.pool_core.specs.Exporting.{IsExportable};
ghost use Rattle.pool_core.specs.StateOf.{state_of};
ghost use Rattle.pool_open.specs.Exporting.{IsNotExported, IsPutAway, RefusesExport, of_export, outs_of, shapes_in};

use crate::opening::OpenedPool;
use crate::tolerance::are_tolerable;
use block_store::VdevShape;
use model_disk::Disk;
use pool_core::{Core, Refusal};
use pool_export::export_labels;
use std::alloc::Global;
use uberblock_ring::Uberblock;

/// A pool that was not exported.
#[derive(Drop)]
pub enum NotExported<D: Disk + Drop> {
    /// No call was made on its disks: the pool is as it was, and goes on.
    Refused {
        refusal: Refusal,
        pool: OpenedPool<D>,
    },
    /// Its labels were being written. All that it accepted is committed, and from these disks it may be opened again.
    Stopped {
        refusal: Refusal,
        disks: Vec<D>,
    },
}

/// What an export needs of a core: the shapes of its vdevs, which of its disks are out, and the uberblock that its labels are written for.
#[derive(Drop)]
struct LastState {
    shapes: Vec<VdevShape>,
    out: Vec<bool>,
    uberblock: Uberblock,
}

/// The same, where the pool may be exported.
#[tactic(auto, using(crate::proofs::PutAway::refuses))]
fn last_state<D: Disk + Drop>(alloc: Global, core: &Core<D>) -> Result<LastState, Refusal>
    ensures exportable { IfOk result (λ _. IsExportable (state_of core.now)) }
    ensures shapes { IfOk result (λ last. last.shapes.items ≡ shapes_in (state_of core.now)) }
    ensures out { IfOk result (λ last. last.out.items ≡ outs_of (state_of core.now)) }
    ensures uberblock { IfOk result (λ last.
        IsLastUberblock (state_of core.now).commit last.uberblock) }
    ensures refused { IfErr result (RefusesExport (state_of core.now)) }
{
    if let Some(refusal) = core.export_refusal() {
        return Err(refusal);
    }
    let Some(uberblock) = core.last_uberblock() else {
        return Err(Refusal::BadConfig);
    };
    let Ok(out) = core.marks(alloc) else {
        return Err(Refusal::NoMemory);
    };
    let Ok(shapes) = core.shapes(alloc) else {
        return Err(Refusal::NoMemory);
    };
    Ok(LastState {
        shapes,
        out,
        uberblock,
    })
}

/// Why a pool's labels are not written, as one of the machine's causes.
fn of_labels(cause: pool_export::Refusal) -> Refusal
    ensures { result ≡ of_export cause }
{
    match cause {
        pool_export::Refusal::NoMemory => Refusal::NoMemory,
        pool_export::Refusal::NoLabel { .. } => Refusal::BadConfig,
        pool_export::Refusal::NoDisk => Refusal::Suspended,
    }
}

/// Exports a pool, which ends here: writes the labels of its disks in use, so that they say that it is put away, and gives its disks
/// back in the order of their numbers, with what stands for the absent ones. Then it may be opened again.
///
/// A disk of which a call fails is out from then on, and the export goes on without it, as long as of no vdev more disks are out than it has
/// parities. Such a disk's labels may say that the pool is put away, or not: an open makes nothing of that.
///
/// It is refused, and goes on, where it is `Suspended`; `NotNow` while a group is synced or waits, or the open one has accepted something;
/// with `BadConfig` where no group of it has an uberblock; and where memory is short at once. Else its disks are given back as a stop
/// might leave them: where memory is short, a disk in use shows its configuration in no label (`BadConfig`), or too many disks failed
/// (`Suspended`).
pub fn export<D: Disk + Drop>(alloc: Global, pool: OpenedPool<D>) -> Result<Vec<D>, NotExported<D>>
    ensures exported { IfOk result (λ disks. IsPutAway D.Disk (state_of pool.core) disks.items) }
    ensures not { IfErr result (IsNotExported D.Disk pool) }
{
    let last = match last_state(alloc, &pool.core) {
        Ok(last) => last,
        Err(refusal) => return Err(NotExported::Refused { refusal, pool }),
    };
    let LastState {
        shapes,
        mut out,
        uberblock,
    } = last;
    pool.core.disks_have_labels();
    let mut disks = pool.core.into_array();
    if let Err(cause) = export_labels(alloc, &mut disks, &mut out, &uberblock) {
        return Err(NotExported::Stopped {
            refusal: of_labels(cause),
            disks: disks.into_disks(),
        });
    }
    if !are_tolerable(&shapes, &out) {
        return Err(NotExported::Stopped {
            refusal: Refusal::Suspended,
            disks: disks.into_disks(),
        });
    }
    Ok(disks.into_disks())
}
