//! Objects of a set over a store in memory: tables, records and lists in them.
ghost use Rattle.std.specs.Prelude.{◌*◌, ◌^◌, ◌<◌, ◌≤◌, All, IfOk, OnOk};
ghost use Rattle.block_pointer.specs.Block.{FitsBlock};
ghost use Rattle.dataset_changes.specs.Fitting.{FitsObjectSet-prop};
ghost use Rattle.dnode.specs.ObjectSet.{FitsObjectSet};
ghost use Rattle.objset.specs.Changes.{IsGoodChange};
ghost use Rattle.pool_maps.specs.Plans.{AreOrdered};

use crate::forms::{Forms, kind_of, whole_rows};
use crate::lines::Call;
use crate::samples::{born_in, record_of};
use crate::texts::{births, record_text, runs_text, told};
use block_pointer::{Block, BlockPtr};
use block_store::{BlockStore, VdevConfig};
use dead_list::DeadList;
use dnode::{ObjectNode, ObjectSet, ObjectSetKind};
use meta_objset::{
    config_creation, config_replacement, read_config, read_directory, read_record, read_space_maps,
    read_stale_spans, record_change, record_creation,
};
use model_disk::MemDisk;
use objset::{BlockWrite, Change, ObjectChange, Refusal, change};
use raidz_map::Geometry;
use space_map::{FreeSet, Kind, Run};
use space_map_objects::SPACE_MAP_KIND;
use std::alloc::{AllocError, Global};
use std::test::Fail;
use vdev_label::Config;

pub(crate) type Store = BlockStore<MemDisk>;

/// A set with no object.
pub(crate) const EMPTY: ObjectSet = ObjectSet {
    dnodes: ObjectNode {
        object_type: 10,
        data_sectors: 32,
        highest: 0,
        pointer: BlockPtr::Hole,
    },
    kind: ObjectSetKind::Volume,
    objects: 1,
};

/// A store and a set of it. `empty` takes the set with no object, before group 1, and `group` has the next changes be of another group.
/// `make`, `rewrite` and `extend` change an object: its number, and then the bytes of rows, the groups that the blocks of a dead `list` were born
/// in, where a run of a map (`space`) begins that is in use and how long it is, or the fields of a record. They tell which blocks they write. `read` reads an
/// object, and `end` how many rows it has.
#[derive(Drop)]
pub(crate) struct Objects {
    pub(crate) forms: Forms,
    pub(crate) store: Store,
    /// The blocks that the next group gives back.
    pub(crate) gone: Vec<Block>,
    pub(crate) set: ObjectSet,
    pub(crate) group: u64,
    ghost fits: { FitsObjectSet set } by { FitsObjectSet-prop set },
    ghost born: { 0 < group },
}

/// A store of one vdev of three disks, whose metaslabs of the meta region are so many: with twelve it has room for the blocks of many meta object sets.
pub(crate) fn new_store(alloc: Global, meta_slabs: u64) -> Result<Store, Refusal> {
    let Ok(geometry) = Geometry::new(3, 1, 9) else {
        return Err(Refusal::BadConfig);
    };
    let vdev = VdevConfig {
        geometry,
        metaslab_shift: 12,
        meta_slabs,
    };
    let disks = MemDisk::several(alloc, 3, 16 << 20)?;
    BlockStore::new(alloc, disks, &[vdev])
}

/// Makes the writes that are due, and takes the blocks of the plan as stored.
pub(crate) fn store_plan(store: &mut Store) {
    for _ in 0..store.due_count() {
        if store.due_count() == 0 || store.write_next().is_err() {
            break;
        }
    }
    store.finish_plan();
}

/// The set with the changes, once all that is planned is stored.
pub(crate) fn stored(
    set: &ObjectSet,
    store: &mut Store,
    alloc: Global,
    changes: &[ObjectChange],
    before: u64,
    birth: u64,
) -> Result<ObjectSet, Refusal>
    requires set { FitsObjectSet set.now }
    requires changes { AreOrdered changes.now }
    requires born { 0 < birth }
    ensures { IfOk result FitsObjectSet }
{
    let done = change(set, store, alloc, changes, before, birth, &[])?;
    store_plan(store);
    Ok(done.set)
}

fn add(list: &mut DeadList, block: Block) -> Result<(), AllocError>
    requires list { All FitsBlock list.old }
    requires block { FitsBlock block }
    ensures { OnOk result (All FitsBlock list.new) }
{
    list.push(block)
}

/// The ids of the blocks that a change writes.
fn written(alloc: Global, change: &Change) -> Result<String, AllocError> {
    let (name, writes) = match change {
        Change::Create { writes, .. } => ("creates", writes),
        Change::Put { writes } => ("puts", writes),
        Change::Replace { writes } => ("replaces by", writes),
        Change::Free => return String::from_str(alloc, "frees"),
    };
    let mut text = String::from_str(alloc, name)?;
    for write in writes {
        write!(text, " {}", write.id)?;
    }
    Ok(text)
}

/// What a call makes of a record.
fn record_made(alloc: Global, call: &Call) -> Result<Change, Refusal>
    ensures { IfOk result IsGoodChange }
{
    let record = record_of(call, born_in(1));
    if call.verb == "make" {
        return record_creation(alloc, &record);
    }
    record_change(alloc, &record)
}

/// What a call makes of a dead list of one block or two.
fn list_made(
    set: &ObjectSet,
    store: &mut Store,
    alloc: Global,
    call: &Call,
    group: u64,
) -> Result<Change, Fail>
    requires { FitsObjectSet set.now }
    ensures { IfOk result IsGoodChange }
{
    let number = call.number(0);
    let (first, second) = (
        born_in(call.number(1).max(1)),
        born_in(call.number(2).max(1)),
    );
    if call.verb == "extend" {
        let end = dead_list_objects::read_dead_list_end(set, store, alloc, number, group, &[])?;
        return Ok(dead_list_objects::extension(alloc, &end, &[first, second])?);
    }
    let mut list = DeadList::new(alloc);
    add(&mut list, first)?;
    if call.numbers.len() > 2 {
        add(&mut list, second)?;
    }
    if call.verb == "make" {
        return Ok(dead_list_objects::creation(alloc, &list)?);
    }
    Ok(dead_list_objects::replacement(alloc, &list)?)
}

/// What a call makes of the map of a metaslab of 64 sectors.
fn space_made(
    set: &ObjectSet,
    store: &mut Store,
    alloc: Global,
    call: &Call,
    group: u64,
) -> Result<Change, Fail>
    requires { FitsObjectSet set.now }
    ensures { IfOk result IsGoodChange }
{
    if let Some(entries) = whole_rows(&SPACE_MAP_KIND, call) {
        let number = call.number(0);
        let end = space_map_objects::read_map_end(set, store, alloc, number, group, &[])?;
        return Ok(space_map_objects::extension(alloc, &end, entries)?);
    }
    let start = call.number(1).min(63);
    let len = call.number(2).clamp(1, 64 - start);
    let mut free = FreeSet::new(alloc, 64)?;
    free.change(Kind::Allocated, Run { start, len })?;
    if call.verb == "make" {
        return Ok(space_map_objects::creation(alloc, &free)?);
    }
    Ok(space_map_objects::replacement(alloc, &free)?)
}

/// The change that makes an object of one block of these bytes.
fn block_made(alloc: Global, bytes: &[u8; 4096]) -> Result<Change, AllocError>
    ensures { IfOk result IsGoodChange }
{
    let block = BlockWrite {
        id: 0,
        bytes: Vec::from_slice(alloc, bytes)?,
    };
    Ok(Change::Create {
        object_type: 211,
        data_sectors: 8,
        writes: vec![in alloc; block]?,
    })
}

/// What a call makes of a table of any kind.
fn table_made(
    set: &ObjectSet,
    store: &mut Store,
    alloc: Global,
    call: &Call,
    group: u64,
) -> Result<Change, Fail>
    requires { FitsObjectSet set.now }
    ensures { IfOk result IsGoodChange }
{
    let kind = kind_of(call.kind);
    let Some(rows) = whole_rows(&kind, call) else {
        return Err(Fail::new("no whole rows"));
    };
    let made = match call.verb {
        "make" => object_table::creation(alloc, kind, rows),
        "rewrite" => object_table::replacement(alloc, kind, rows),
        _ => {
            let number = call.number(0);
            let end = object_table::read_end(set, store, alloc, kind, number, group, &[])?;
            object_table::extension(alloc, kind, &end, rows)
        }
    };
    Ok(made?)
}

/// What a call makes of one of the pool's tables, or of a configuration with no vdevs.
fn form_made(forms: &Forms, alloc: Global, call: &Call) -> Result<Change, object_table::Refusal>
    ensures { IfOk result IsGoodChange }
{
    let makes = call.verb == "make";
    let config = Config {
        vdevs: Vec::new(alloc),
    };
    match call.kind {
        "names" if makes && forms.names.rows().len() < 1000 => forms.names.creation(alloc),
        "names" if forms.names.rows().len() < 1000 => forms.names.replacement(alloc),
        "spans" if makes && forms.spans.rows().len() < 1000 => forms.spans.creation(alloc),
        "spans" if forms.spans.rows().len() < 1000 => forms.spans.replacement(alloc),
        "maps" if makes && forms.maps.rows().len() < 1000 => forms.maps.creation(alloc),
        "maps" if forms.maps.rows().len() < 1000 => forms.maps.replacement(alloc),
        _ if makes => config_creation(alloc, &config),
        _ => config_replacement(alloc, &config),
    }
}

/// How many rows an object has by its end.
fn rows_at_end(
    set: &ObjectSet,
    store: &mut Store,
    alloc: Global,
    call: &Call,
    group: u64,
) -> Result<String, Fail>
    requires { FitsObjectSet set.now }
{
    let number = call.number(0);
    let end = match call.kind {
        "list" => dead_list_objects::read_dead_list_end(set, store, alloc, number, group, &[])?,
        "space" => space_map_objects::read_map_end(set, store, alloc, number, group, &[])?,
        kind => {
            let kind = kind_of(kind);
            match object_table::read_end(set, store, alloc, kind, number, group, &[]) {
                Ok(end) => end,
                Err(refusal) => return Ok(format!(in alloc; "{refusal:?}")?),
            }
        }
    };
    Ok(format!(in alloc; "{} rows", end.rows)?)
}

/// What the dead list in an object has, or which runs the map in it leaves free.
fn list_read(
    set: &ObjectSet,
    store: &mut Store,
    alloc: Global,
    call: &Call,
    group: u64,
) -> Result<String, Fail>
    requires { FitsObjectSet set.now }
{
    let number = call.number(0);
    if call.kind == "list" {
        return match dead_list_objects::read_dead_list(set, store, alloc, number, group, &[]) {
            Ok(list) => Ok(births(alloc, &list.into_blocks()?)?),
            Err(refusal) => Ok(format!(in alloc; "{refusal:?}")?),
        };
    }
    match space_map_objects::read_free_set(set, store, alloc, number, 64, group, &[]) {
        Ok(free) => Ok(runs_text(alloc, free.runs())?),
        Err(refusal) => Ok(format!(in alloc; "{refusal:?}")?),
    }
}

/// What the pool's table in an object has, or the record in it.
fn form_read(
    set: &ObjectSet,
    store: &mut Store,
    forms: &mut Forms,
    alloc: Global,
    call: &Call,
    group: u64,
) -> Result<String, Refusal>
    requires { FitsObjectSet set.now }
{
    let number = call.number(0);
    match call.kind {
        "names" => forms.names = read_directory(set, store, alloc, group, &[])?,
        "spans" => forms.spans = read_stale_spans(set, store, alloc, group, &[])?,
        "maps" => forms.maps = read_space_maps(set, store, alloc, group, &[])?,
        "config" => {
            let config = read_config(set, store, alloc, group, &[])?;
            return Ok(format!(in alloc; "{} vdevs", config.vdevs.len())?);
        }
        "record" => {
            let record = read_record(set, store, alloc, number, group, &[])?;
            return Ok(record_text(alloc, &record)?);
        }
        kind => {
            let rows = object_table::read(set, store, alloc, kind_of(kind), number, group, &[])?;
            return Ok(told(alloc, &rows)?);
        }
    }
    match forms.encoded(alloc, call) {
        Ok(bytes) => Ok(told(alloc, &bytes)?),
        Err(_) => Err(Refusal::NoMemory),
    }
}

impl Objects {
    /// What a call makes of an object.
    fn made(&mut self, alloc: Global, call: &Call) -> Result<Change, Fail>
        ensures { IfOk result IsGoodChange }
    {
        let group = self.group;
        match call.kind {
            "names" | "spans" | "maps" | "config" => Ok(form_made(&self.forms, alloc, call)?),
            "volume" => Ok(record_made(alloc, call)?),
            "list" => list_made(&self.set, &mut self.store, alloc, call, group),
            "space" => space_made(&self.set, &mut self.store, alloc, call, group),
            "block" => match call.bytes.first_chunk::<4096>() {
                Some(bytes) => Ok(block_made(alloc, bytes)?),
                None => Err(Fail::new("no whole block")),
            },
            _ => table_made(&self.set, &mut self.store, alloc, call, group),
        }
    }

    /// Changes an object.
    fn put(&mut self, alloc: Global, call: &Call) -> Result<String, Fail> {
        let number = call.number(0).clamp(1, 1 << 39);
        let change = self.made(alloc, call)?;
        let text = written(alloc, &change)?;
        self.store_changes(alloc, &[ObjectChange { number, change }])?;
        Ok(text)
    }

    /// Has the set with these changes, as the group's, in place of the set.
    pub(crate) fn store_changes(
        &mut self,
        alloc: Global,
        changes: &[ObjectChange],
    ) -> Result<(), Refusal>
        requires { AreOrdered changes.now }
    {
        self.store.drop_plan(self.group);
        self.set = stored(
            &self.set,
            &mut self.store,
            alloc,
            changes,
            self.group,
            self.group,
        )?;
        Ok(())
    }

    pub(crate) fn answer(&mut self, alloc: Global, call: &Call) -> Result<String, Fail> {
        let group = self.group;
        match (call.verb, call.kind) {
            ("empty", _) => {
                self.forms = Forms::new(alloc);
                self.set = EMPTY;
                self.group = 1;
            }
            ("group", _) => self.group = call.number(0).max(1),
            ("make" | "rewrite" | "extend", _) => return self.put(alloc, call),
            ("end", _) => return rows_at_end(&self.set, &mut self.store, alloc, call, group),
            ("read", "list" | "space") => {
                return list_read(&self.set, &mut self.store, alloc, call, group);
            }
            ("read", _) => {
                let (set, store) = (&self.set, &mut self.store);
                return match form_read(set, store, &mut self.forms, alloc, call, group) {
                    Ok(text) => Ok(text),
                    Err(refusal) => Ok(format!(in alloc; "{refusal:?}")?),
                };
            }
            _ => return self.forms.answer(alloc, call),
        }
        Ok(format!(in alloc; "ok")?)
    }
}
