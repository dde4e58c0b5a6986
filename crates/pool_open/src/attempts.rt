//! Opening a pool whose disks are in order. Where its claim fails on a disk, it is opened over the disks that are left.
ghost use Rattle.std.specs.Prelude.{◌≡◌, ◌<◌, length, IfErr, IfOk};
ghost use Rattle.block_store.specs.Opened.{MayBeOpened};
ghost use Rattle.pool_core.specs.State.{config_of};
ghost use Rattle.pool_core.specs.StateOf.{state_of};
ghost use Rattle.pool_open.specs.Held.{IsLaidOver};
ghost use Rattle.pool_open.specs.Known.{IsKnownBy};
ghost use Rattle.pool_open.specs.Opening.{IsNotOpenedOver};
ghost use Rattle.pool_open.specs.Retried.{IsAttempt, IsNotOpenedAtLast, IsOpenedAtLast, IsPoolRead, KeepsConfig};
ghost use Rattle.pool_slots.specs.Slots.{HaveLabels};
ghost use Rattle.stale_disks.specs.Rules.{guids_in};
ghost use Rattle.vdev_label.specs.Plain.{config_view};

use crate::known::{KnownRoot, read_known};
use crate::opening::{OpenedPool, core_over, fitting, survey_disks};
use crate::refusal::Refusal;
use crate::settling::settle_without;
use crate::tolerance::are_tolerable;
use block_store::{VdevShape, writes_elsewhere_keep};
use model_disk::{Disk, DiskArray};
use pool_slots::{Survey, claim};
use std::alloc::Global;
use std::sync::Arc;
use vdev_label::Config;

/// What an attempt came to that was not refused.
#[derive(Drop)]
pub(crate) enum Attempt<D: Disk + Drop> {
    Opened(OpenedPool<D>),
    /// A write or flush of its claim failed. The disk is out on which it did, and on those that are left nothing is unflushed.
    ClaimFailed { disks: DiskArray<D>, out: Vec<bool> },
}

/// What was read of a pool before it is claimed, and the disks that it was read from.
#[derive(Drop)]
struct ReadPool<D: Disk + Drop> {
    disks: DiskArray<D>,
    out: Vec<bool>,
    survey: Survey,
    root: KnownRoot,
}

/// Surveys the disks in use, and reads the root of what is taken. Nothing is written.
fn read_pool<D: Disk + Drop>(
    alloc: Global,
    disks: DiskArray<D>,
    shapes: &[VdevShape],
    out: Vec<bool>,
    rewind: u64,
    config: &Arc<Config, Global>,
) -> Result<ReadPool<D>, (Refusal, DiskArray<D>)>
    requires may { MayBeOpened disks.starts shapes.now out.items }
    requires labels { HaveLabels disks.starts }
    ensures read { IfOk result (λ read. IsPoolRead disks shapes.now out.items read.out.items
        rewind read.survey read.root.contents read.root.stale.items read.disks) }
    ensures known { IfOk result (λ read.
        IsKnownBy read.out.items read.survey.claimed.group read.root) }
    ensures config { IfOk result (λ read.
        read.root.disks.config.value ≡ config.now.value) }
    ensures refused { IfErr result (λ failed.
        IsNotOpenedOver (guids_in (config_view config.now.value))
        disks shapes.now out.items rewind failed.1 failed.0) }
{
    let mut out = out;
    let mut disks = disks;
    let survey = match survey_disks(alloc, &mut disks, &mut out, shapes, rewind) {
        Ok(survey) => survey,
        Err(refusal) => return Err((refusal, disks)),
    };
    let taken = survey.claimed();
    match read_known(alloc, disks, shapes, &out, &taken, config) {
        Ok(read) => Ok(ReadPool {
            disks: read.disks,
            out,
            survey,
            root: read.root,
        }),
        Err((refusal, disks)) => Err((Refusal::from(refusal), disks)),
    }
}

/// One attempt to open a pool over disks that a store may be opened over.
fn open_once<D: Disk + Drop>(
    alloc: Global,
    disks: DiskArray<D>,
    shapes: &[VdevShape],
    out: Vec<bool>,
    rewind: u64,
    config: &Arc<Config, Global>,
) -> Result<Attempt<D>, (Refusal, DiskArray<D>)>
    requires rewind { rewind < 3 }
    requires may { MayBeOpened disks.starts shapes.now out.items }
    requires labels { HaveLabels disks.starts }
    requires laid { IsLaidOver disks shapes.now out.items }
    ensures attempted { IfOk result (IsAttempt D.Disk disks shapes.now out.items rewind) }
    ensures config { IfOk result (KeepsConfig D.Disk config.now.value) }
    ensures refused { IfErr result (λ failed.
        IsNotOpenedOver (guids_in (config_view config.now.value))
        disks shapes.now out.items rewind failed.1 failed.0) }
{
    writes_elsewhere_keep();
    let read = read_pool(alloc, disks, shapes, out, rewind, config)?;
    let ReadPool {
        mut disks,
        mut out,
        survey,
        root,
    } = read;
    match claim(&survey, &mut disks, &out) {
        Ok(claimed) => {
            let core = core_over(alloc, disks, shapes, &out, &claimed, root)?;
            Ok(Attempt::Opened(OpenedPool {
                core,
                uberblock: claimed,
            }))
        }
        Err(failure) => {
            settle_without(&mut disks, &mut out, failure.disk);
            Ok(Attempt::ClaimFailed { disks, out })
        }
    }
}

/// Attempts it, and where the claim fails attempts it again over the disks that are left: each time they are fewer.
fn open_left<D: Disk + Drop>(
    alloc: Global,
    disks: DiskArray<D>,
    shapes: &[VdevShape],
    out: Vec<bool>,
    rewind: u64,
    config: &Arc<Config, Global>,
) -> Result<OpenedPool<D>, (Refusal, DiskArray<D>)>
    requires rewind { rewind < 3 }
    requires may { MayBeOpened disks.starts shapes.now out.items }
    requires labels { HaveLabels disks.starts }
    requires laid { IsLaidOver disks shapes.now out.items }
    ensures opened { IfOk result (λ pool.
        IsOpenedAtLast disks shapes.now out.items rewind pool.uberblock (state_of pool.core)) }
    ensures config { IfOk result (λ pool. config_of (state_of pool.core) ≡ config.now.value) }
    ensures refused { IfErr result (λ failed.
        IsNotOpenedAtLast (guids_in (config_view config.now.value))
        disks shapes.now out.items rewind failed.1 failed.0) }
{
    match open_once(alloc, disks, shapes, out, rewind, config)? {
        Attempt::Opened(pool) => Ok(pool),
        Attempt::ClaimFailed { disks, out } => {
            if !are_tolerable(shapes, &out) {
                return Err((Refusal::TooManyMissing, disks));
            }
            open_left(alloc, disks, shapes, out, rewind, config)
        }
    }
}

/// Opens a pool of this configuration whose disks are in its order: reads what they show and what its root holds, claims it, and goes
/// on from its group. Where it goes back (`rewind`, 1 or 2) it is the group that is so many less. A disk of which a label or slot can't
/// be read is out from then on, and nothing is written to it.
///
/// So is a disk on which a write or flush of the claim fails. Then the others are flushed, and are opened anew: they are read again, and
/// claimed above what that claim wrote. This goes on while of no vdev more disks are out than it has parities (this project's profile).
///
/// `BadConfig` where the vdevs don't lie on the disks; what `survey_present` answers, and no group left is `NoUberblock` too;
/// `TooManyMissing` where of a vdev more disks are out than it has parities, as they were absent, or a read, or a claim failed on them;
/// `BadPointer`, `BadDigest`, `DiskFault` and `BadMap` come from reading what the root holds. Where no claim was begun nothing was written.
/// `BadPointer` also where a space map is of no metaslab before a meta region, or a block of the meta object set lies in no place of the
/// pool or shares a sector with another. After an error the disks come back.
pub fn open_over<D: Disk + Drop>(
    alloc: Global,
    disks: DiskArray<D>,
    shapes: &[VdevShape],
    out: Vec<bool>,
    rewind: u64,
    config: &Arc<Config, Global>,
) -> Result<OpenedPool<D>, (Refusal, DiskArray<D>)>
    requires rewind { rewind < 3 }
    requires out { length out.items ≡ length disks.starts }
    ensures opened { IfOk result (λ pool.
        IsOpenedAtLast disks shapes.now out.items rewind pool.uberblock (state_of pool.core)) }
    ensures config { IfOk result (λ pool. config_of (state_of pool.core) ≡ config.now.value) }
    ensures refused { IfErr result (λ failed.
        IsNotOpenedAtLast (guids_in (config_view config.now.value))
        disks shapes.now out.items rewind failed.1 failed.0) }
{
    let disks = fitting(alloc, disks, shapes, &out)?;
    open_left(alloc, disks, shapes, out, rewind, config)
}
