//! Meta object sets that are made by hand, and what stands in them.
ghost use Rattle.std.specs.Prelude.{◌*◌, ◌^◌, ◌<◌, length, IfOk};
ghost use Rattle.block_pointer.specs.Block.{FitsBlock};
ghost use Rattle.dnode.specs.ObjectSet.{FitsObjectSet};
ghost use Rattle.meta_objset.specs.Record.{FitsRecord};
ghost use Rattle.objset.specs.Changes.{IsGoodChange};

use crate::groups::one_span;
use crate::lines::Call;
use crate::stores::{Store, store_plan};
use block_pointer::{Block, BlockPtr};
use dnode::{ObjectNode, ObjectSet, ObjectSetKind};
use meta_objset::{
    DatasetKind, DatasetRecord, Directory, MetaslabMap, MetaslabPlace, SpaceMaps, is_name, padded,
    record_creation,
};
use objset::{Change, ObjectChange, Refusal, change};
use space_map::{FreeSet, Kind, Run};
use std::alloc::Global;
use std::test::Fail;
use volume::VolumeSet;

/// A meta object set with no object.
pub(crate) const EMPTY: ObjectSet = ObjectSet {
    dnodes: ObjectNode {
        object_type: 10,
        data_sectors: 32,
        highest: 0,
        pointer: BlockPtr::Hole,
    },
    kind: ObjectSetKind::Meta,
    objects: 1,
};

/// The set with one change, once it is stored.
pub(crate) fn with(
    set: &ObjectSet,
    store: &mut Store,
    alloc: Global,
    number: u64,
    made: Change,
    birth: u64,
) -> Result<ObjectSet, Refusal>
    requires set { FitsObjectSet set.now }
    requires number { (0 < number) × (number < 32 * 128 ^ 5) }
    requires made { IsGoodChange made }
    requires born { 0 < birth }
    ensures { IfOk result FitsObjectSet }
{
    let changes = [ObjectChange {
        number,
        change: made,
    }];
    store.drop_plan(birth);
    let done = change(set, store, alloc, &changes, birth, birth, &[])?;
    store_plan(store);
    Ok(done.set)
}

/// The block of a volume of 1 MiB of zeros, once it is stored.
fn volume_block(store: &mut Store, alloc: Global) -> Result<Block, Refusal>
    ensures { IfOk result FitsBlock }
{
    store.drop_plan(1);
    let volume = VolumeSet::create(store, alloc, 1 << 20, 4096, 1)?;
    store_plan(store);
    Ok(volume.block())
}

/// The record of a volume of 1 MiB, or of a snapshot: behind the number of its object and the group a call has the previous and the next
/// object, how many clones there are, and the dead list.
fn record_of(call: &Call, object_set: Block) -> DatasetRecord
    requires { FitsBlock object_set }
    ensures { FitsRecord result }
{
    let (kind, next) = match call.names {
        "snapshot" => (DatasetKind::Snapshot, call.number(3)),
        _ => (DatasetKind::Volume, 0),
    };
    DatasetRecord {
        kind,
        size: 1 << 20,
        block_size: 4096,
        created: 1,
        previous: call.number(2),
        next,
        clones: call.number(4),
        dead_list: call.number(5),
        object_set,
    }
}

/// A directory of names: behind the number of its object and the group a call has the objects of these.
fn directory_of(alloc: Global, call: &Call) -> Result<Directory, Fail>
    ensures { IfOk result (λ directory. length directory < 2 ^ 40) }
{
    let mut directory = Directory::new(alloc);
    let mut at = 2usize;
    for word in call.names.split_whitespace() {
        if let Some(name) = padded(word.as_bytes())
            && is_name(&name)
        {
            directory.insert(&name, call.number(at))?;
        }
        at = at.saturating_add(1);
    }
    if directory.rows().len() > 2 {
        return Ok(Directory::new(alloc));
    }
    Ok(directory)
}

/// The change that makes an object. A `record` points to a volume that is made in group 1, and is the last one then. `space` is the map
/// of a metaslab of so many sectors, all free but eight from one on, and `maps` has a vdev, a metaslab and the object of its map; `spans`
/// has a disk and the first and last group that it missed; else it is a directory.
pub(crate) fn object_made(
    store: &mut Store,
    alloc: Global,
    call: &Call,
    last: &mut Option<DatasetRecord>,
) -> Result<Change, Fail>
    ensures { IfOk result IsGoodChange }
{
    let (first, second, third) = (call.number(2), call.number(3), call.number(4));
    match call.name {
        "record" => {
            let record = record_of(call, volume_block(store, alloc)?);
            *last = Some(record);
            Ok(record_creation(alloc, &record)?)
        }
        "space" => {
            let sectors = first.clamp(64, 1 << 16);
            let start = second.min(sectors - 8);
            let mut free = FreeSet::new(alloc, sectors)?;
            free.change(Kind::Allocated, Run { start, len: 8 })?;
            Ok(space_map_objects::creation(alloc, &free)?)
        }
        "maps" => {
            let mut maps = SpaceMaps::new(alloc);
            let (vdev, index) = (first, second);
            let metaslab = MetaslabPlace { vdev, index };
            let object = third;
            maps.set(MetaslabMap { metaslab, object })?;
            if maps.rows().len() > 1 {
                return Err(Fail::new("too many maps"));
            }
            Ok(maps.creation(alloc)?)
        }
        "spans" => Ok(one_span(alloc, first, second, third)?.creation(alloc)?),
        _ => Ok(directory_of(alloc, call)?.creation(alloc)?),
    }
}
