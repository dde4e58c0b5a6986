//! Pools that run, by what the calls promise that make and open them.
ghost use Rattle.std.specs.Prelude.{◌≡◌, length, IfErr, IfOk};
ghost use Rattle.pool_create.specs.CoreStateOf.{state_of};
ghost use Rattle.stale_disks.specs.Rules.{guids_in};
ghost use Rattle.vdev_label.specs.Plain.{config_view};
ghost use Rattle.tests_stops.specs.Lives.{IsRefusedAgain, IsRefusedWell, OpensWell, RunsAtFirst};

use crate::pools::{DISK_BYTES, config};
use block_store::VdevShape;
use model_disk::{Disk, DiskArray, MemDisk, Member};
use pool_create::{
    NotOpened, OpenedFrom, OpenedPool, Refusal, create_over, open, open_over,
    unfailing_opens_claim_once,
};
use pool_format::PoolIdentity;
use pool_stops::{
    created_pools_run_as, fault_free_opens_succeed, found_disks_may_be_opened, led_disks_open,
    own_pools_open_again,
};
use raidz_io::Vdev;
use raidz_map::Geometry;
use std::alloc::Global;
use std::sync::Arc;
use std::test::*;
use vdev_label::Config;

/// Makes a pool, which runs behind its first uberblock.
fn created(
    alloc: Global,
    disks: DiskArray<MemDisk>,
    pool: PoolIdentity,
    config: Config,
) -> Result<OpenedPool<MemDisk>, (Refusal, DiskArray<MemDisk>)>
    ensures { IfOk result (λ opened. RunsAtFirst disks opened.uberblock (state_of opened.core)) }
{
    created_pools_run_as();
    create_over(alloc, disks, pool, config)
}

/// Opens it, and it runs on. Where nothing hinders it, it isn't refused but for want of memory.
fn reopened(
    alloc: Global,
    disks: DiskArray<MemDisk>,
    shapes: &[VdevShape],
    out: Vec<bool>,
    config: &Arc<Config, Global>,
) -> Result<OpenedPool<MemDisk>, (Refusal, DiskArray<MemDisk>)>
    requires out { length out.items ≡ length disks.starts }
    ensures opened { IfOk result (λ opened.
        OpensWell disks shapes.now out.items opened.uberblock (state_of opened.core)) }
    ensures refused { IfErr result (λ failed.
        IsRefusedWell (guids_in (config_view config.now.value))
        disks shapes.now out.items failed.1 failed.0) }
{
    unfailing_opens_claim_once();
    led_disks_open();
    fault_free_opens_succeed();
    open_over(alloc, disks, shapes, out, 0, config)
}

/// Opens it on its disks, in any order. Where nothing hinders it, it isn't refused but for want of memory, and never for the vdevs of
/// a pool that was found.
fn opened_again<D: Disk + Drop>(
    alloc: Global,
    disks: Vec<D>,
) -> Result<(OpenedPool<Member<D>>, OpenedFrom<D>), NotOpened<D>>
    ensures { IfErr result (IsRefusedAgain D.Disk disks.items) }
{
    own_pools_open_again::<D>();
    found_disks_may_be_opened::<D>();
    open(alloc, disks, 0)
}

/// The claims of a pool that was made, and then opened on the disks of its core.
fn claims(alloc: Global) -> Result<[u64; 2], Refusal> {
    let Ok(geometry) = Geometry::new(3, 1, 9) else {
        return Err(Refusal::BadConfig);
    };
    let shape = VdevShape {
        vdev: Vdev { geometry, first: 0 },
        child_sectors: 7168,
        metaslab_shift: 12,
        meta_slabs: 2,
    };
    let shapes = vec![in alloc; shape]?;
    let name = String::from_str(alloc, "pool")?;
    let config = config(alloc)?;
    let kept = Arc::new(alloc, crate::pools::config(alloc)?)?;
    let disks = DiskArray::new(MemDisk::several(alloc, 3, DISK_BYTES)?);
    let made = created(alloc, disks, PoolIdentity { name, guid: 1 }, config);
    let OpenedPool { core, uberblock } = made.map_err(|(refusal, _)| refusal)?;
    let disks = core.into_array();
    let out = vec![in alloc; false; disks.len()]?;
    match reopened(alloc, disks, &shapes, out, &kept) {
        Ok(again) => Ok([uberblock.claim, again.uberblock.claim]),
        Err((refusal, _)) => Err(refusal),
    }
}

/// Of a pool whose disks are handed in in another order.
fn claim_in_any_order(alloc: Global) -> Result<u64, Refusal> {
    let name = String::from_str(alloc, "pool")?;
    let config = config(alloc)?;
    let disks = DiskArray::new(MemDisk::several(alloc, 3, DISK_BYTES)?);
    let made = created(alloc, disks, PoolIdentity { name, guid: 1 }, config);
    let made = made.map_err(|(refusal, _)| refusal)?;
    let mut disks = made.core.into_array().into_disks();
    disks.reverse();
    match opened_again(alloc, disks) {
        Ok((again, _)) => Ok(again.uberblock.claim),
        Err(failed) => Err(failed.refusal()),
    }
}

#[test]
fn a_new_pool_runs_and_is_opened_in_any_order(rt: HostRuntime) {
    assert!(rt; claims(rt.alloc()) == Ok([1, 2]));
    assert!(rt; claim_in_any_order(rt.alloc()) == Ok(2));
}
