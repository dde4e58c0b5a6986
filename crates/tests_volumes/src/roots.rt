//! What is under roots.
use crate::lines::Call;
use crate::stores::Store;
use crate::texts::{bytes_text, contents_text};
use block_pointer::{Block, Copies};
use block_store::Refusal as Cause;
use dataset_snapshots::{
    NextRoot, VolumeRange, contents_under, find, find_in, reach, read_range, read_range_in,
};
use dnode_tree::are_distinct;
use meta_objset::DatasetRecord;
use pool_model::Name;
use pool_open::read_root;
use space_map_objects::Refusal;
use std::alloc::Global;
use std::test::Fail;

/// What a root has of a name: the number of its `object`, by the directory that is kept where it is `object_in`; its `size`; whether its
/// record is the `same` as the last that was made by hand; or that something is `there`.
pub(crate) fn dataset_text(
    at: &NextRoot,
    store: &mut Store,
    alloc: Global,
    call: &Call,
    last: Option<DatasetRecord>,
) -> Result<String, Fail> {
    let name = Name::new(Vec::from_slice(alloc, call.names.as_bytes())?);
    let (root, birth) = (&at.root, at.root.birth);
    let found = if call.name == "object_in" {
        let directory = at.directory.directory();
        find_in(root, store, alloc, birth, directory, &name, &[])?
    } else {
        find(root, store, alloc, birth, &name, &[])?
    };
    let Some(dataset) = found else {
        return Ok(format!(in alloc; "none")?);
    };
    let text = match (call.name, last) {
        ("same", Some(record)) => format!(in alloc; "{}", dataset.record == record),
        ("size", _) => format!(in alloc; "{}", dataset.volume.size()),
        ("there", _) => format!(in alloc; "there"),
        _ => format!(in alloc; "{}", dataset.object),
    };
    Ok(text?)
}

/// The bytes of a volume under a root, by the directory that is kept where it is `read_in`, or why they were not read: behind the root's
/// number a call has where they begin and how many they are.
pub(crate) fn range_text(
    at: &NextRoot,
    store: &mut Store,
    alloc: Global,
    call: &Call,
) -> Result<String, Fail> {
    let name = Name::new(Vec::from_slice(alloc, call.names.as_bytes())?);
    let range = VolumeRange {
        name: &name,
        offset: call.number(1),
        len: call.number(2).min(1 << 20),
    };
    let (root, birth) = (&at.root, at.root.birth);
    let read = if call.name == "read_in" {
        let directory = at.directory.directory();
        read_range_in(root, store, alloc, birth, directory, &range, &[])
    } else {
        read_range(root, store, alloc, birth, &range, &[])
    };
    match read {
        Ok(bytes) => Ok(bytes_text(alloc, &bytes)?),
        Err(refusal) => Ok(format!(in alloc; "{refusal:?}")?),
    }
}

/// How many of the blocks that a root leads to have one copy, two and three, and how many are left to be read of so many.
pub(crate) fn reached(
    root: &Block,
    store: &mut Store,
    alloc: Global,
    most: u64,
) -> Result<String, Fail> {
    let mut left = most;
    let blocks = match reach(root, store, alloc, root.birth, &mut left, &[]) {
        Ok(blocks) => blocks,
        Err(refusal) => return Ok(format!(in alloc; "{refusal:?}")?),
    };
    let one = blocks
        .iter()
        .filter(|block| matches!(block.copies, Copies::One(..)));
    let two = blocks
        .iter()
        .filter(|block| matches!(block.copies, Copies::Two(..)));
    let three = blocks
        .iter()
        .filter(|block| matches!(block.copies, Copies::Three(..)));
    let (one, two, three) = (one.count(), two.count(), three.count());
    Ok(format!(in alloc; "{one} {two} {three}, {left} left")?)
}

/// Whether the blocks that were replaced are those that the root before leads to and the one after doesn't, each once.
pub(crate) fn has_left(
    before: &Block,
    next: &NextRoot,
    store: &mut Store,
    alloc: Global,
) -> Result<String, Fail> {
    let mut most = 100;
    let old = reach(before, store, alloc, before.birth, &mut most, &[])?;
    let new = reach(&next.root, store, alloc, next.root.birth, &mut most, &[])?;
    let mut gone = 0usize;
    let mut right = are_distinct(alloc, &next.replaced)?;
    for block in &old {
        let left = !new.contains(block);
        right = right && left == next.replaced.contains(block);
        gone = gone.saturating_add(usize::from(left));
    }
    right = right && gone == next.replaced.len();
    Ok(format!(in alloc; "{right}")?)
}

/// What is kept of a root, of which so many blocks may be read: its contents, or the `stale` span, or why not. `refused` tells
/// whether it is, as a bad pointer, before any block is counted off.
pub(crate) fn kept(
    root: &Block,
    store: &mut Store,
    alloc: Global,
    call: &Call,
) -> Result<String, Fail> {
    let most = call.number(1);
    let mut left = most;
    let read = contents_under(root, store, alloc, root.birth, &mut left, &[]);
    if call.name == "refused" {
        let is_refused = matches!(read, Err(Refusal::Unread(Cause::BadPointer)));
        return Ok(format!(in alloc; "{}", is_refused && left == most)?);
    }
    let contents = match read {
        Ok(contents) => contents,
        Err(refusal) => return Ok(format!(in alloc; "{refusal:?}")?),
    };
    if call.name == "kept" {
        return Ok(contents_text(alloc, &contents, call.names)?);
    }
    let text = match contents.spans.rows() {
        [] => format!(in alloc; "none"),
        [span] => format!(in alloc; "{} {} {}", span.disk, span.from, span.to),
        _ => format!(in alloc; "several"),
    };
    Ok(text?)
}

/// What comes of the disks, when no store knows their blocks any more: how many `reads` they have counted; or what an open reads of a root,
/// of which so many blocks may be read. The first of the names has a mark for each disk, which is `x` for one that is out. `open_maps`
/// tells how many space maps and stale spans there are, or the number of the refusal.
pub(crate) fn ended(
    roots: &[NextRoot],
    store: Store,
    alloc: Global,
    call: &Call,
) -> Result<String, Fail> {
    let Some(at) = roots.get(call.number(0) as usize) else {
        return Err(Fail::new("no such root"));
    };
    if call.name == "reads" {
        let disks = store.into_disks();
        let sum = disks
            .iter()
            .fold(0u64, |sum, disk| sum.saturating_add(disk.reads));
        return Ok(format!(in alloc; "{sum}")?);
    }
    let (marks, names) = call.names.split_once(" ").unwrap_or((call.names, ""));
    let marks = marks.as_bytes().iter();
    let out: Vec<bool> = marks.map(|mark| *mark == b'x').collect(alloc)?;
    let mut shapes = Vec::new(alloc);
    for index in 0..store.vdev_count() {
        shapes.push(store.shape(index))?;
    }
    let (disks, left, root) = (store.into_array(), call.number(1), &at.root);
    let read = match read_root(alloc, disks, &shapes, &out, root, root.birth, left) {
        Ok(read) => read.contents,
        Err((refusal, _)) if call.name == "open_maps" => {
            let number = pool_open::Refusal::from(refusal).number();
            return Ok(format!(in alloc; "{number}")?);
        }
        Err((refusal, _)) => return Ok(format!(in alloc; "{refusal:?}")?),
    };
    if call.name == "open_maps" {
        let (maps, spans) = (read.maps.len(), read.spans.rows().len());
        return Ok(format!(in alloc; "{maps} maps, {spans} spans")?);
    }
    Ok(contents_text(alloc, &read, names)?)
}
