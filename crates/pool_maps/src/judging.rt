//! Whether the rows of the space maps' table are a pool's.
ghost use Rattle.std.specs.Prelude.{◌≢◌, ◌↔◌, ◌<◌, All, IsTrue};
ghost use Rattle.std.specs.Bool.{OnTrue, OnFalse};
ghost use Rattle.meta_objset.specs.SpaceMaps.{AreSpaceMaps};
ghost use Rattle.meta_objset.specs.declared.space_maps.MetaslabMap.{MetaslabMap};
ghost use Rattle.pool_maps.specs.Maps.{AreRowsOf, HasMapPlace};

use block_store::BlockStore;
use meta_objset::{MetaslabMap, MetaslabPlace};
use model_disk::Disk;

/// The objects of the tables have the numbers up to this one.
const LAST_TABLE: u64 = 4;

/// Whether the rows are of metaslabs before the meta regions, each with an object of its own behind the tables.
pub(crate) fn are_rows<D: Disk + Drop>(store: &BlockStore<D>, rows: &[MetaslabMap]) -> bool
    requires { AreSpaceMaps rows.now }
    ensures are { OnTrue result (AreRowsOf store.now.spaces rows.now) }
    ensures none { OnFalse result (¬ AreRowsOf store.now.spaces rows.now) }
{
    for (i, row) in rows.iter().enumerate() {
        if !is_row(store, row) || is_named(&rows[..i], row.object) {
            return false;
        }
    }
    true
}

/// Whether a row is of a metaslab before a meta region, and names no table.
fn is_row<D: Disk + Drop>(store: &BlockStore<D>, row: &MetaslabMap) -> bool
    ensures { IsTrue result ↔
        (HasMapPlace store.now.spaces row.now.metaslab × (4 < row.now.object)) }
{
    is_place(store, row.metaslab) && row.object > LAST_TABLE
}

/// Whether a metaslab is there, before its vdev's meta region.
pub(crate) fn is_place<D: Disk + Drop>(store: &BlockStore<D>, place: MetaslabPlace) -> bool
    ensures { IsTrue result ↔ HasMapPlace store.now.spaces place }
{
    let vdev = place.vdev as usize;
    vdev < store.vdev_count() && place.index < store.shape(vdev).first_meta()
}

/// Whether one of the rows names the object.
fn is_named(rows: &[MetaslabMap], object: u64) -> bool
    ensures named { OnTrue result (¬ All (λ row. row.object ≢ object) rows.now) }
    ensures none { OnFalse result (All (λ row. row.object ≢ object) rows.now) }
{
    rows.iter().any(|row| row.object == object)
}
