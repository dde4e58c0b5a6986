//! Space maps that follow what groups plan and give back.
ghost use Rattle.std.specs.Prelude.{◌<◌};
ghost use Rattle.dnode.specs.ObjectSet.{FitsObjectSet};

use crate::cases::{FOLLOWED, NO_MORE, wrong_of};
use crate::lines::Call;
use crate::objects::{Objects, Store, new_store, stored};
use block_pointer::{Block, Property};
use block_store::{BlockStore, CopyCount, NewBlock, Refusal};
use dnode::ObjectSet;
use meta_objset::{MetaslabPlace, SpaceMaps, read_space_maps};
use pool_maps::{load_maps, plan_maps, read_maps};
use space_map::FreeSet;
use space_map_objects::read_free_set;
use std::alloc::Global;
use std::mem;
use std::test::Fail;

/// Plans a block of two copies, each of which takes six sectors.
fn plan_block(store: &mut Store, alloc: Global, birth: u64) -> Result<Block, Refusal>
    requires { 0 < birth }
{
    let bytes = vec![in alloc; 5u8; 2048]?;
    let new = NewBlock {
        property: Property {
            level: 0,
            object_type: 23,
            sectors: 4,
        },
        birth,
        fill: 1,
    };
    store.plan_write(alloc, bytes.as_slice(), new, CopyCount::Two)
}

/// Whether a metaslab is there, of which a set's map leaves other sectors free than the store leaves unused. Where there is no map
/// all of them are free.
fn differs(
    set: &ObjectSet,
    store: &mut Store,
    alloc: Global,
    maps: &SpaceMaps,
    index: u64,
    birth: u64,
) -> Result<bool, Fail>
    requires { FitsObjectSet set.now }
{
    let free = match maps.get(MetaslabPlace { vdev: 0, index }) {
        Some(map) => read_free_set(set, store, alloc, map.object, 4096, birth, &[])?,
        None => FreeSet::new(alloc, 4096)?,
    };
    if store.has_metaslab(0, index as usize) {
        let unused = store.unused_before(0, index as usize)?;
        return Ok(unused.runs() != free.runs());
    }
    Ok(false)
}

/// In how many metaslabs before the meta region they do.
fn differ(set: &ObjectSet, store: &mut Store, alloc: Global, birth: u64) -> Result<usize, Fail>
    requires { FitsObjectSet set.now }
{
    let maps = read_space_maps(set, store, alloc, birth, &[])?;
    let metaslabs = if store.vdev_count() == 0 {
        0
    } else {
        store.shape(0).first_meta()
    };
    let mut count = 0usize;
    for index in 0..metaslabs {
        if differs(set, store, alloc, &maps, index, birth)? {
            count = count.saturating_add(1);
        }
    }
    Ok(count)
}

/// A store without blocks over the disks of another of one vdev.
fn over_disks_of(store: Store, alloc: Global) -> Result<Store, Refusal> {
    if store.vdev_count() == 0 {
        return Err(Refusal::BadConfig);
    }
    let shapes = [store.shape(0)];
    match BlockStore::opened(alloc, store.into_array(), &shapes, &[false; 3]) {
        Ok(store) => Ok(store),
        Err((refusal, _)) => Err(refusal),
    }
}

impl Objects {
    /// The next group plans a block and gives back the one before. How many changes of maps there are.
    fn follow(&mut self, alloc: Global, next: u64) -> Result<usize, Refusal> {
        let (before, birth) = (self.group, self.group.saturating_add(1));
        self.store.begin_plan(birth)?;
        let block = plan_block(&mut self.store, alloc, birth)?;
        let changes = plan_maps(
            &self.set,
            &mut self.store,
            alloc,
            before,
            &self.gone,
            Vec::new(alloc),
            next,
        )?;
        self.store.release(&self.gone, birth)?;
        self.set = stored(&self.set, &mut self.store, alloc, &changes, before, birth)?;
        self.group = birth;
        self.gone = vec![in alloc; block; 1]?;
        Ok(changes.len())
    }

    /// The same, and in how many metaslabs the maps before and behind the group differ from the store.
    fn followed(&mut self, alloc: Global, next: u64) -> Result<String, Fail> {
        let (before, group) = (self.set, self.group);
        let changes = self.follow(alloc, next)?;
        let old = differ(&before, &mut self.store, alloc, group)?;
        let new = differ(&self.set, &mut self.store, alloc, self.group)?;
        Ok(format!(in alloc; "{changes} changes {old} {new} differ")?)
    }

    /// What comes of a call on the space maps. `follow` has a group, whose new maps have the numbers from this one on: how many changes of maps
    /// there are, and in how many metaslabs the maps before and behind the group differ from the store. `many` has so many groups, and `idle` plans
    /// one in which nothing is done. `differ` counts the metaslabs that differ, `reopen` opens the disks with no blocks known, and `load` loads the
    /// maps there.
    pub(crate) fn map_answer(&mut self, alloc: Global, call: &Call) -> Result<String, Fail> {
        let (number, group) = (call.number(0), self.group);
        let text = match call.verb {
            "follow" => return self.followed(alloc, number),
            "many" => {
                for _ in 0..number {
                    let next = self.group.saturating_add(1).saturating_mul(4);
                    self.follow(alloc, next)?;
                }
                format!(in alloc; "group {}", self.group)
            }
            "idle" => {
                let (set, store, none) = (&self.set, &mut self.store, Vec::new(alloc));
                let changes = plan_maps(set, store, alloc, group, &[], none, number)?;
                format!(in alloc; "{} changes", changes.len())
            }
            "differ" => {
                let count = differ(&self.set, &mut self.store, alloc, group)?;
                format!(in alloc; "{count} differ")
            }
            "reopen" => {
                let store = mem::replace(&mut self.store, new_store(alloc, 1)?);
                self.store = over_disks_of(store, alloc)?;
                format!(in alloc; "ok")
            }
            "load" => {
                let maps = read_maps(&self.set, &mut self.store, alloc, group, &[])?;
                format!(in alloc; "{}", load_maps(&mut self.store, maps))
            }
            _ => return self.answer(alloc, call),
        };
        Ok(text?)
    }
}

#[test]
fn maps_follow_what_groups_take(rt: HostRuntime) -> Result<(), Fail> {
    let wrong = wrong_of(&rt, rt.alloc(), [FOLLOWED, NO_MORE])?;
    assert!(rt; wrong.is_empty(), "{wrong}");
    Ok(())
}
