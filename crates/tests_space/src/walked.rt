//! Space maps beside the walk of a root.
ghost use Rattle.dnode.specs.ObjectSet.{FitsObjectSet};

use crate::stores::{METASLABS, SECTORS, Store};
use block_pointer::{Block, Copies, Dva};
use dataset_snapshots::reach;
use dnode::ObjectSet;
use meta_objset::{MetaslabPlace, SpaceMaps, read_space_maps};
use objset::read_set;
use space_map::{FreeSet, Kind, Refusal, Run, wants_condensing};
use space_map_objects::{read_free_set, read_map_end};
use std::alloc::{AllocError, Global};
use std::test::Fail;

/// Where the copies of blocks lie.
pub(crate) fn places_of(blocks: &[Block], alloc: Global) -> Result<Vec<Dva>, AllocError> {
    let mut places = Vec::new(alloc);
    for block in blocks {
        match block.copies {
            Copies::One(first) => places.extend_from_slice(&[first])?,
            Copies::Two(first, second) => places.extend_from_slice(&[first, second])?,
            Copies::Three(first, second, third) => {
                places.extend_from_slice(&[first, second, third])?;
            }
        }
    }
    Ok(places)
}

/// How many sectors these take before the meta region.
pub(crate) fn sectors_of(places: &[Dva]) -> u64 {
    let mut sectors = 0u64;
    for place in places {
        if place.offset < METASLABS * SECTORS {
            sectors = sectors.saturating_add(u64::from(place.allocated));
        }
    }
    sectors
}

/// Takes a copy's sectors, where it lies in the metaslab. `BadMap` where they are not all free.
fn take(free: &mut FreeSet, place: Dva, index: u64) -> Result<(), Refusal> {
    if place.offset / SECTORS != index {
        return Ok(());
    }
    let run = Run {
        start: place.offset % SECTORS,
        len: u64::from(place.allocated),
    };
    if run.len == 0 || run.start + run.len > free.sectors() {
        return Err(Refusal::BadMap);
    }
    free.change(Kind::Allocated, run)
}

/// What copies at these places leave free of a metaslab. `BadMap` where two of them lie on one another.
fn free_by_walk(places: &[Dva], alloc: Global, index: u64) -> Result<FreeSet, Refusal> {
    let mut free = FreeSet::new(alloc, SECTORS)?;
    for place in places {
        take(&mut free, *place, index)?;
    }
    Ok(free)
}

/// How many metaslabs have a map that leaves free what copies at these places do, and has no more entries than two for each run in
/// use, and 64.
fn count_right(
    set: &ObjectSet,
    store: &mut Store,
    alloc: Global,
    birth: u64,
    maps: &SpaceMaps,
    places: &[Dva],
) -> Result<u64, Fail>
    requires { FitsObjectSet set.now }
{
    let mut count = 0u64;
    for index in 0..METASLABS {
        if let Some(map) = maps.get(MetaslabPlace { vdev: 0, index }) {
            let wanted = free_by_walk(places, alloc, index)?;
            let free = read_free_set(set, store, alloc, map.object, SECTORS, birth, &[])?;
            let end = read_map_end(set, store, alloc, map.object, birth, &[])?;
            if free.runs() == wanted.runs() && !wants_condensing(end.rows as usize, &wanted) {
                count = count.saturating_add(1);
            }
        }
    }
    Ok(count)
}

/// At most four tables, two space maps, and records and dead lists of two volumes, two snapshots and a clone are there at once, and a volume
/// that is made anew as one is destroyed takes two numbers more.
const MOST_NUMBERS: u64 = 19;

/// How many sectors before the meta region blocks take that a root leads to. `None` where the maps under it don't leave free, of each
/// metaslab there, all other sectors, or where numbers of objects that are gone were not taken again. Something is in use in each, so that
/// each has a map.
pub(crate) fn sectors_if_right(
    root: &Block,
    store: &mut Store,
    alloc: Global,
) -> Result<Option<u64>, Fail> {
    let mut most = 100000u64;
    let blocks = reach(root, store, alloc, root.birth, &mut most, &[])?;
    let places = places_of(&blocks, alloc)?;
    let set = read_set(store, alloc, root, root.birth, &[])?;
    let maps = read_space_maps(&set, store, alloc, root.birth, &[])?;
    let count = count_right(&set, store, alloc, root.birth, &maps, &places)?;
    let are_right = count == METASLABS && maps.rows().len() as u64 == METASLABS;
    let are_few = set.objects <= MOST_NUMBERS;
    Ok((are_right && are_few).then_some(sectors_of(&places)))
}
