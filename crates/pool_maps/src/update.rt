//! What a metaslab's space map is to say of a plan.
ghost use Rattle.std.specs.Prelude.{◌≡◌, ◌⊎◌, ◌/◌, ◌^◌, ◌≤◌, length, IfOk, IfErr};
ghost use Rattle.block_store.specs.Gone.{AreNotReleasable};
ghost use Rattle.object_table.specs.Shape.{AreRows};
ghost use Rattle.space_map_objects.specs.Maps.{map_kind};
ghost use Rattle.pool_maps.specs.Maps.{HasMapPlace};
ghost use Rattle.pool_maps.specs.Updates.{IsUpdateOf};

use block_pointer::Block;
use block_store::{BlockStore, Refusal};
use meta_objset::MetaslabPlace;
use model_disk::Disk;
use space_map::{FreeSet, append_update};
use std::alloc::Global;

/// What a metaslab's space map is to say of a plan.
#[derive(Drop)]
pub(crate) struct Update {
    /// The entries, of 8 bytes each, that lead from what the map leaves free to what it is to leave free.
    pub entries: Vec<u8>,
    /// What it is to leave free.
    pub free: FreeSet,
}

/// What a metaslab's space map is to say once the plan is committed and these blocks are given back. `BadPointer` only where the
/// blocks can't all be given back.
pub(crate) fn update_of<D: Disk + Drop>(
    store: &BlockStore<D>,
    alloc: Global,
    place: MetaslabPlace,
    gone: &[Block],
) -> Result<Update, Refusal>
    requires { HasMapPlace store.now.spaces place }
    ensures update { IfOk result (IsUpdateOf store.now.spaces gone.now place) }
    ensures few { IfOk result (λ update. update.free.sectors ≤ 2 ^ 20) }
    ensures rows { IfOk result (λ update.
        AreRows map_kind.rows (length update.entries.items / 8) update.entries.items) }
    ensures refused { IfErr result (λ refusal. (refusal ≡ Refusal.NoMemory)
        ⊎ ((refusal ≡ Refusal.BadPointer) × AreNotReleasable store.now.spaces gone.now)) }
{
    let vdev = place.vdev as usize;
    let metaslab = place.index as usize;
    let before = store.unused_before(vdev, metaslab)?;
    let free = store.unused_after(vdev, metaslab, gone)?;
    let mut entries = Vec::new(alloc);
    append_update(&mut entries, &before, &free)?;
    Ok(Update { entries, free })
}
