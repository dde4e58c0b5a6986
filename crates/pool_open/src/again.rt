//! Cores that are begun anew over the disks of a pool that is open.
ghost use Rattle.std.specs.Prelude.{◌≡◌, ◌↔◌, IfErr, IfOk, IsTrue};
ghost use Rattle.pool_core.specs.StateOf.{state_of};
ghost use Rattle.pool_open.specs.Again.{GoesOnFrom, IsCoreAgain, IsNoCoreAgain};
ghost use Rattle.stale_disks.specs.Rules.{guids_in, stale_groups};
ghost use Rattle.vdev_label.specs.Plain.{config_view};

use crate::known::KnownRoot;
use crate::opening::{core_over, fitting};
use crate::refusal::Refusal;
use crate::roots::read_stale;
use crate::tolerance::count_sectors;
use block_store::{VdevShape, writes_elsewhere_keep};
use disk_set::GroupSpan;
use model_disk::{Disk, DiskArray};
use pool_core::{Core, KnownDisks};
use stale_disks::{disk_guids, stale_groups};
use std::alloc::{AllocError, Global};
use uberblock_ring::Uberblock;
use words::LAST_COUNT;

/// Whether groups are left behind that of the uberblock.
fn goes_on_from(claimed: &Uberblock) -> bool
    ensures { IsTrue result ↔ GoesOnFrom claimed.now }
{
    0 < claimed.claim && claimed.claim <= LAST_COUNT && claimed.group < LAST_COUNT
}

/// The groups that each disk missed by what is known, by the disks' numbers, twice.
fn groups_missed(
    alloc: Global,
    known: &KnownDisks,
) -> Result<(Vec<Option<GroupSpan>>, Vec<Option<GroupSpan>>), AllocError>
    ensures missed { IfOk result (λ missed. missed.0.items
        ≡ stale_groups (known.now).spans (guids_in (config_view (known.now).config.value))) }
    ensures again { IfOk result (λ missed. missed.1.items ≡ missed.0.items) }
{
    let guids = disk_guids(alloc, known.config.as_ref())?;
    let stale = stale_groups(alloc, &known.spans, &guids)?;
    let again = Vec::from_slice(alloc, &stale)?;
    Ok((stale, again))
}

/// The core of a pool whose disks show this uberblock, with these disks out, as it is known by now of which groups each disk lacks blocks: reads
/// the root once more, and goes on from it under the claim that stands. Nothing is written.
///
/// `NoUberblock` where no group is left behind that of the uberblock, and `BadConfig` where the vdevs don't lie on the disks; `BadPointer`,
/// `BadDigest`, `DiskFault` and `BadMap` come from reading what the root holds, as with `open_over`. After an error the disks come back.
pub fn core_again<D: Disk + Drop>(
    alloc: Global,
    disks: DiskArray<D>,
    shapes: &[VdevShape],
    out: &[bool],
    claimed: &Uberblock,
    known: KnownDisks,
) -> Result<Core<D>, (Refusal, DiskArray<D>)>
    ensures again { IfOk result (λ core. IsCoreAgain disks shapes.now out.now claimed.now
        known.config.value known.spans (state_of core)) }
    ensures refused { IfErr result (λ failed. IsNoCoreAgain disks shapes.now out.now
        claimed.now known.config.value known.spans failed.1 failed.0) }
{
    writes_elsewhere_keep();
    if !goes_on_from(claimed) {
        return Err((Refusal::NoUberblock, disks));
    }
    let disks = fitting(alloc, disks, shapes, out)?;
    let Ok((stale, again)) = groups_missed(alloc, &known) else {
        return Err((Refusal::NoMemory, disks));
    };
    let left = count_sectors(shapes);
    let read = match read_stale(alloc, disks, shapes, out, again, claimed, left) {
        Ok(read) => read,
        Err((cause, disks)) => return Err((Refusal::from(cause), disks)),
    };
    let root = KnownRoot {
        contents: read.contents,
        stale,
        disks: known,
    };
    match core_over(alloc, read.disks, shapes, out, claimed, root) {
        Ok(core) => Ok(core),
        Err(failed) => Err(failed),
    }
}
