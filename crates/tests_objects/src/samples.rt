//! Blocks and records that calls name.
ghost use Rattle.std.specs.Prelude.{◌<◌};
ghost use Rattle.block_pointer.specs.Block.{FitsBlock};
ghost use Rattle.dataset_changes.specs.Numbers.{IsNumber};
ghost use Rattle.meta_objset.specs.Record.{FitsRecord};

use crate::lines::Call;
use block_pointer::{Block, Copies, Dva, Property};
use meta_objset::{DatasetKind, DatasetRecord};

/// A block of 8 KiB with one copy.
pub(crate) fn born_in(birth: u64) -> Block
    requires { 0 < birth }
    ensures { FitsBlock result }
{
    Block {
        copies: Copies::One(Dva {
            vdev: 3,
            offset: 0x0123_4567,
            allocated: 18,
        }),
        property: Property {
            level: 0,
            object_type: 23,
            sectors: 16,
        },
        birth,
        fill: 1,
        checksum: [0xee; 32],
    }
}

/// The record of a `snapshot`, of a volume of 1 MiB in blocks of 4 KiB, or of a `small` one of 64 KiB in blocks of 8 KiB. Behind the
/// number of its object a call has the group that it was made in, the previous and the next object, how many clones there are, and the
/// dead list.
pub(crate) fn record_of(call: &Call, object_set: Block) -> DatasetRecord
    requires { FitsBlock object_set }
    ensures fits { FitsRecord result }
    ensures list { IsNumber result.dead_list }
{
    let (kind, next) = match call.kind {
        "snapshot" => (DatasetKind::Snapshot, call.number(3)),
        _ => (DatasetKind::Volume, 0),
    };
    let (size, block_size) = match call.kind {
        "small" => (65_536, 8192),
        _ => (1 << 20, 4096),
    };
    DatasetRecord {
        kind,
        size,
        block_size,
        created: call.number(1),
        previous: call.number(2),
        next,
        clones: call.number(4),
        dead_list: call.object(5),
        object_set,
    }
}
