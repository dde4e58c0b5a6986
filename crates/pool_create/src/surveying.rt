//! What a new pool's disks show.
ghost use Rattle.std.specs.Prelude.{◌≡◌, ◌⊎◌, ℕ, true, length, slice_get, Some, IfErr, IfOk};
ghost use Rattle.std.specs.Bool.{OnFalse, OnTrue};
ghost use Rattle.model_disk.specs.Runs.{Makes, no_write};
ghost use Rattle.pool_create.specs.Alone.{AreReadAlone};
ghost use Rattle.pool_create.specs.Planning.{none_out};
ghost use Rattle.pool_create.specs.ReadingBack.{IsCauseOfReading, IsSurveyRefused, IsTakenOf, first_uberblock};
ghost use Rattle.pool_slots.specs.Failures.{HasFailedOn};
ghost use Rattle.pool_slots.specs.Slots.{HaveLabels};

use crate::planning::{NewPool, none_out};
use crate::slots::{is_same, require_alone};
use block_pointer::Block;
use model_disk::{Disk, DiskArray};
use pool_open::Refusal;
use pool_slots::survey_present;
use std::alloc::Global;
use uberblock_ring::Uberblock;

/// Whether no disk is marked.
fn is_none_out(out: &[bool]) -> bool
    ensures none { OnTrue result (out.now ≡ none_out (length out.now)) }
    ensures some { OnFalse result ((which : ℕ) × (slice_get out.now which ≡ Some true)) }
{
    for i in 0..out.len() {
        if out[i] {
            return false;
        }
    }
    true
}

/// The uberblock of the first group with this root.
fn first_uberblock(pool: &NewPool, root: Block) -> Uberblock
    ensures { result ≡ first_uberblock pool.now root }
{
    let stamp = pool.stamp;
    let config_digest = stamp.config_digest;
    Uberblock {
        group: 3,
        guid_sum: stamp.guid_sum,
        timestamp: 0,
        root,
        claim: stamp.claim,
        config_digest,
    }
}

/// The uberblock that an open would take. `DiskFault` where a disk can't be read.
fn taken_uberblock<D: Disk + Drop>(
    alloc: Global,
    disks: &mut DiskArray<D>,
) -> Result<Uberblock, Refusal>
    requires labels { HaveLabels disks.old.starts }
    ensures only { Makes no_write disks.old disks.new }
    ensures taken { IfOk result
        (IsTakenOf disks.old disks.new (none_out (length disks.old.starts))) }
    ensures refused { IfErr result (λ refusal. (refusal ≡ Refusal.NoMemory)
        ⊎ (((refusal ≡ Refusal.DiskFault)
        × ((which : ℕ) × HasFailedOn disks.old disks.new which))
        ⊎ IsSurveyRefused disks.old disks.new refusal)) }
{
    let mut out = none_out(alloc, disks.len())?;
    let survey = survey_present(alloc, disks, &mut out, 0)?;
    if !is_none_out(&out) {
        return Err(Refusal::DiskFault);
    }
    Ok(survey.taken())
}

/// The same, which must be that of the first group.
fn survey_first<D: Disk + Drop>(
    alloc: Global,
    disks: &mut DiskArray<D>,
    pool: &NewPool,
    root: Block,
) -> Result<Uberblock, Refusal>
    requires labels { HaveLabels disks.old.starts }
    requires out { pool.now.out.items ≡ none_out (length disks.old.starts) }
    ensures only { Makes no_write disks.old disks.new }
    ensures taken { IfOk result (IsTakenOf disks.old disks.new pool.now.out.items) }
    ensures is { IfOk result (λ u. u ≡ first_uberblock pool.now root) }
    ensures refused { IfErr result (IsCauseOfReading disks.old disks.new pool.now root) }
{
    let taken = taken_uberblock(alloc, disks)?;
    if !is_same(taken, first_uberblock(pool, root)) {
        return Err(Refusal::NoUberblock);
    }
    Ok(taken)
}

/// The same, which must be the only one that each disk's slots show.
pub(crate) fn survey_alone<D: Disk + Drop>(
    alloc: Global,
    disks: &mut DiskArray<D>,
    pool: &NewPool,
    root: Block,
) -> Result<Uberblock, Refusal>
    requires labels { HaveLabels disks.old.starts }
    requires out { pool.now.out.items ≡ none_out (length disks.old.starts) }
    ensures only { Makes no_write disks.old disks.new }
    ensures taken { IfOk result (IsTakenOf disks.old disks.new pool.now.out.items) }
    ensures is { IfOk result (λ u. u ≡ first_uberblock pool.now root) }
    ensures alone { IfOk result (λ u. AreReadAlone u disks.old disks.new) }
    ensures refused { IfErr result (IsCauseOfReading disks.old disks.new pool.now root) }
{
    let taken = survey_first(alloc, disks, pool, root)?;
    require_alone(alloc, disks, taken)?;
    Ok(taken)
}
