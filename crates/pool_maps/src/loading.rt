//! What the space maps of a pool leave free is loaded as the pool is opened.
ghost use Rattle.std.specs.Prelude.{◌≡◌, ◌↔◌, IsTrue};
ghost use Rattle.std.specs.Bool.{OnTrue, OnFalse};
ghost use Rattle.block_store.specs.Maps.{LoadsIn};
ghost use Rattle.block_store.specs.Places.{filled};
ghost use Rattle.pool_maps.specs.Loads.{AreApart, AreFreeBefore, AreLoadedAs, AreSetsOf};
ghost use Rattle.pool_maps.specs.Loads.{IsLoadStopped, MayBeLoaded, NothingIsReleased, OnlyLoads};

use crate::judging::is_place;
use crate::reading::FreeMetaslab;
use block_store::BlockStore;
use model_disk::Disk;

/// Loads what the space maps of a pool leave free in a store in which no sector before the meta regions is used yet: from then on just
/// that is unused of each metaslab with a map. `false` where a set is of no metaslab before a meta region, of one with more sectors or
/// fewer, or of one in which a sector is used; then those before it are loaded.
pub fn load_maps<D: Disk + Drop>(store: &mut BlockStore<D>, maps: Vec<FreeMetaslab>) -> bool
    ensures loads { OnlyLoads store.old store.new }
    ensures value { OnTrue result (AreApart maps.items
        → AreLoadedAs store.old.spaces maps.items store.new.spaces) }
    ensures released { OnTrue result
        (NothingIsReleased filled store.old.spaces store.new.spaces) }
    ensures refused { OnFalse result
        (IsLoadStopped store.old.spaces maps.items store.new.spaces) }

    // Maps of a pool are always loaded in a store without blocks before the meta regions.
    ensures always { AreSetsOf store.old.spaces maps.items
        → AreFreeBefore store.old.spaces → IsTrue result }
{
    for read in maps {
        if !load_one(store, read) {
            return false;
        }
    }
    true
}

/// Loads what one of them leaves free.
fn load_one<D: Disk + Drop>(store: &mut BlockStore<D>, read: FreeMetaslab) -> bool
    ensures may { IsTrue result ↔ MayBeLoaded store.old.spaces read }
    ensures loads { OnlyLoads store.old store.new }
    ensures loaded { OnTrue result (LoadsIn store.old.spaces read.metaslab.vdev
        read.metaslab.index read.free store.new.spaces) }
    ensures left { OnFalse result (store.new ≡ store.old) }
{
    let place = read.metaslab;
    is_place(store, place) && store.load_map(place.vdev as usize, place.index as usize, read.free)
}
