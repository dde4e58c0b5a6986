//! Making a pool over disks that stand in an array.
ghost use Rattle.std.specs.Prelude.{◌≡◌, length, IfErr, IfOk};
ghost use Rattle.pool_open.specs.CoreStateOf.{state_of};
ghost use Rattle.pool_create.specs.Creating.{CreateRefuses, IsCreated};
ghost use Rattle.pool_create.specs.Planning.{IsAllowedPool, IsNewPool};
ghost use Rattle.pool_create.specs.Stages.{IsFit, IsLaid, IsMade, IsUnfit, IsUnmade};
ghost use Rattle.pool_format.specs.Labels.{children_of};
ghost use Rattle.vdev_label.specs.Plain.{config_view};

use crate::first_group::{FirstGroup, first_group};
use crate::labeling::{fitting, label, refuse_used};
use crate::planning::{NewPool, plan};
use crate::reading_back::{of_read, read_back};
use block_store::writes_elsewhere_keep;
use model_disk::{Disk, DiskArray};
use pool_format::PoolIdentity;
use pool_open::{OpenedPool, Refusal};
use std::alloc::Global;
use vdev_label::Config;

/// The disks, where the pool fits them and they show none. Nothing is written, and else they come back.
fn fit_blank<D: Disk + Drop>(
    alloc: Global,
    disks: DiskArray<D>,
    new: &NewPool,
) -> Result<DiskArray<D>, (Refusal, DiskArray<D>)>
    ensures fit { IfOk result (IsFit disks new.now) }
    ensures refused { IfErr result (λ failed. IsUnfit disks new.now failed.1 failed.0) }
{
    let mut disks = fitting(alloc, disks, new)?;
    match refuse_used(alloc, &mut disks) {
        Ok(()) => Ok(disks),
        Err(refusal) => Err((refusal, disks)),
    }
}

/// Makes the pool on disks that show none. After an error they come back.
fn make<D: Disk + Drop>(
    alloc: Global,
    disks: DiskArray<D>,
    pool: PoolIdentity,
    config: Config,
    new: &NewPool,
) -> Result<OpenedPool<D>, (Refusal, DiskArray<D>)>
    requires new { IsNewPool config (length disks.starts) new.now }
    requires laid { IsLaid disks new.now }
    requires count { length (children_of (config_view config)) ≡ length disks.starts }
    requires allowed { IsAllowedPool pool config }
    ensures made { IfOk result (λ opened.
        IsMade disks pool config new.now opened.uberblock (state_of opened.core)) }
    ensures refused { IfErr result (λ failed.
        IsUnmade disks pool config new.now failed.1 failed.0) }
{
    writes_elsewhere_keep();
    let first = first_group(alloc, disks, new)?;
    let FirstGroup { mut disks, root } = first;
    match label(alloc, &mut disks, pool, config) {
        Ok(()) => {}
        Err(refusal) => return Err((refusal, disks)),
    }
    match read_back(alloc, disks, new, root) {
        Ok(opened) => Ok(opened),
        Err((refusal, disks)) => Err((of_read(refusal), disks)),
    }
}

/// Makes a pool over disks that stand in an array, in the order of the children of its configuration. See `create`.
pub fn create_over<D: Disk + Drop>(
    alloc: Global,
    disks: DiskArray<D>,
    pool: PoolIdentity,
    config: Config,
) -> Result<OpenedPool<D>, (Refusal, DiskArray<D>)>
    ensures created { IfOk result (λ opened.
        IsCreated disks pool config opened.uberblock (state_of opened.core)) }
    ensures refused { IfErr result (λ failed.
        CreateRefuses disks pool config failed.1 failed.0) }
{
    let planned = match plan(alloc, disks.len(), &pool, &config) {
        Ok(planned) => planned,
        Err(refusal) => return Err((refusal, disks)),
    };
    let blank = fit_blank(alloc, disks, &planned)?;
    make(alloc, blank, pool, config, &planned)
}
