//! What is told of a pool, and the rows of its volumes.
ghost use Rattle.std.specs.Prelude.{◌≡◌, IfOk, map};
ghost use Rattle.commands.specs.Rows.{listed};
ghost use Rattle.tests_memory.specs.Telling.{has_lost, listed_at};

use pool_command::{DiskState, DiskStatus, VdevStatus, VolumeRow};
use pool_create::NamedShape;
use pool_model::Refusal;
use std::alloc::{AllocError, Global};
use vdev_label::Config;

/// The one vdev of the pool; the disks that are marked are absent.
pub(crate) fn vdevs_of(
    alloc: Global,
    config: &Config,
    out: &[bool],
) -> Result<Vec<VdevStatus>, AllocError> {
    let mut disks = Vec::new(alloc);
    let Some(vdev) = config.vdevs.first() else {
        return Ok(Vec::new(alloc));
    };
    for (number, guid) in vdev.children.iter().enumerate() {
        disks.push(DiskStatus {
            number,
            guid: *guid,
            state: match out.get(number) {
                Some(true) => DiskState::Absent,
                _ => DiskState::Online,
            },
        })?;
    }
    let vdev = VdevStatus {
        number: 0,
        parities: vdev.parity.min(255) as u32,
        disks,
    };
    Ok(vec![in alloc; vdev]?)
}

/// Whether one of the disks is out now that wasn't before.
pub(crate) fn has_lost(before: &[bool], now: &[bool]) -> bool
    ensures { result ≡ has_lost before.now now.now }
{
    match (before.split_first(), now.split_first()) {
        (Some((was, before)), Some((is, now))) => *is && !*was || has_lost(before, now),
        _ => false,
    }
}

/// The row of a name.
fn volume_row(alloc: Global, row: &NamedShape) -> Result<VolumeRow, Refusal>
    ensures { IfOk result (λ told. listed told ≡ listed_at row.now) }
{
    let Ok(name) = row.name.copied(alloc) else {
        return Err(Refusal::NoMemory);
    };
    let Ok(name) = String::from_utf8(name.into_vec()) else {
        return Err(Refusal::BadPointer);
    };
    Ok(VolumeRow {
        name,
        size: row.shape.size,
        block_size: row.shape.block_size,
        group: row.shape.group,
    })
}

/// The rows of these names, in their order.
pub(crate) fn volume_rows(alloc: Global, rows: &[NamedShape]) -> Result<Vec<VolumeRow>, Refusal>
    ensures { IfOk result (λ told. map listed told.items ≡ map listed_at rows.now) }
{
    let mut told = Vec::new(alloc);
    for row in rows {
        let Ok(()) = told.push(volume_row(alloc, row)?) else {
            return Err(Refusal::NoMemory);
        };
    }
    Ok(told)
}
