//! What is told of a pool.
ghost use Rattle.std.specs.Prelude.{◌≡◌, false, IfOk, map, string_bytes};
ghost use Rattle.file_pools.specs.Telling.{Shows, disk_rows, has_lost, state_of, told, vdev_rows};
ghost use Rattle.pool_create.specs.CoreStateOf.{state_of as core_state};

use meta_objset::StaleSpan;
use model_disk::Disk;
use pool_command::{DiskState, DiskStatus, PoolStatus, VdevStatus};
use pool_create::Core;
use std::alloc::{AllocError, Global};
use uberblock_ring::Uberblock;
use vdev_label::Config;

/// Of which groups a disk in use lacks blocks, if it has a span.
fn state_in_use(spans: &[StaleSpan], guid: u64) -> DiskState
    ensures { result ≡ state_of false spans.now guid }
{
    match spans.split_first() {
        Some((span, _)) if span.disk == guid => DiskState::Stale {
            from: span.from,
            to: span.to,
        },
        Some((_, rest)) => state_in_use(rest, guid),
        None => DiskState::Online,
    }
}

/// Whether a disk is in use, and of which groups it lacks blocks then.
fn state(is_out: bool, spans: &[StaleSpan], guid: u64) -> DiskState
    ensures { result ≡ state_of is_out spans.now guid }
{
    if is_out {
        return DiskState::Absent;
    }
    state_in_use(spans, guid)
}

/// The disks from this number on; those that are marked are absent, and of the others those stale that have a span.
fn disks_of(
    alloc: Global,
    guids: &[u64],
    first: usize,
    out: &[bool],
    spans: &[StaleSpan],
) -> Result<Vec<DiskStatus>, AllocError>
    ensures { IfOk result (λ disks.
        disks.items ≡ disk_rows first guids.now out.now spans.now) }
{
    let mut disks = Vec::new(alloc);
    let mut number = first;
    for guid in guids {
        let is_out = out.get(number).copied().unwrap_or(false);
        disks.push(DiskStatus {
            number,
            guid: *guid,
            state: state(is_out, spans, *guid),
        })?;
        number = number.saturating_add(1);
    }
    Ok(disks)
}

/// The vdevs of the configuration, in order.
fn vdevs_of(
    alloc: Global,
    config: &Config,
    out: &[bool],
    spans: &[StaleSpan],
) -> Result<Vec<VdevStatus>, AllocError>
    ensures { IfOk result (λ vdevs. map told vdevs.items
        ≡ vdev_rows 0 0 config.now.vdevs.items out.now spans.now) }
{
    let mut vdevs = Vec::new(alloc);
    let mut first = 0usize;
    for number in 0..config.vdevs.len() {
        let vdev = &config.vdevs[number];
        vdevs.push(VdevStatus {
            number,
            parities: vdev.parity.min(255) as u32,
            disks: disks_of(alloc, vdev.children.as_slice(), first, out, spans)?,
        })?;
        first = first.saturating_add(vdev.children.len());
    }
    Ok(vdevs)
}

/// Whether one of the disks is out now that wasn't before.
pub(crate) fn has_lost(before: &[bool], now: &[bool]) -> bool
    ensures { result ≡ has_lost before.now now.now }
{
    match (before.split_first(), now.split_first()) {
        (Some((was, before)), Some((is, now))) => *is && !*was || has_lost(before, now),
        _ => false,
    }
}

/// What a status tells of an opened pool.
pub(crate) fn status_of<D: Disk + Drop>(
    alloc: Global,
    core: &Core<D>,
    name: &String,
    uberblock: &Uberblock,
) -> Result<PoolStatus, AllocError>
    ensures { IfOk result (Shows (core_state core.now) (string_bytes name.now) uberblock.now) }
{
    let out = core.marks(alloc)?;
    let spans = core.stale_spans().rows();
    Ok(PoolStatus {
        name: name.clone()?,
        claim: uberblock.claim,
        group: uberblock.group,
        vdevs: vdevs_of(alloc, core.config(), out.as_slice(), spans)?,
    })
}
