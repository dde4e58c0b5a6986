//! Space maps are read.
ghost use Rattle.std.specs.Prelude.{◌≡◌, ◌⊎◌, ◌^◌, ◌<◌, ℕ, List, Option, IfOk, IfErr};
ghost use Rattle.block_pointer.specs.declared.block.Block.{Block};
ghost use Rattle.block_store.specs.Blocks.{Contents};
ghost use Rattle.block_store.specs.Steps.{OnlyReadsBlocks, AnswersTell};
ghost use Rattle.block_store.specs.Store.{Holds};
ghost use Rattle.dnode.specs.ObjectSet.{FitsObjectSet};
ghost use Rattle.objset.specs.Objects.{Object, AreObjects};
ghost use Rattle.object_table.specs.Ends.{IsEndFound, IsEndOf};
ghost use Rattle.object_table.specs.Tables.{HasTable};
ghost use Rattle.space_map_objects.specs.Causes.{IsCausedOf};
ghost use Rattle.space_map_objects.specs.Maps.{map_kind, HasMap, HasSomeMap, IsEndUnread, IsForLossOf, IsMapFound, IsMapRefused, LeavesFree, SpellsNoMap};

use crate::kind::SPACE_MAP_KIND;
use crate::refusal::Refusal;
use block_store::BlockStore;
use dnode::ObjectSet;
use model_disk::Disk;
use object_table::TableEnd;
use space_map::{FreeSet, replay};
use std::alloc::Global;

/// The sectors that a space map leaves free of its metaslab, which has so many, by the number of the map's object. `BadMap`
/// where the object's rows are no map of such a metaslab; `Unread` with `BadPointer` where it is no object of a map. The set's
/// blocks were born in the transaction group `birth` or before. The disks that are named are taken as missing.
pub fn read_free_set<D: Disk + Drop>(
    set: &ObjectSet,
    store: &mut BlockStore<D>,
    alloc: Global,
    number: u64,
    sectors: u64,
    birth: u64,
    missing: &[usize],
) -> Result<FreeSet, Refusal>
    requires set { FitsObjectSet set.now }
    requires not_empty { 0 < sectors }
    requires few { sectors < 2 ^ 47 }
    ensures reads { OnlyReadsBlocks store.old store.new missing.now }
    ensures value { IfOk result (λ free. (stored : Contents) (objects : ℕ → Option Object)
        (own : List Block) (blocks : ℕ → List Block) → Holds store.old stored
        → AreObjects stored birth set.now objects own blocks
        → AnswersTell store.old store.new missing.now
        → HasMap (objects number) sectors free) }

    // Whatever the set is: what was read, and on a refusal its cause.
    ensures found { IfOk result (IsMapFound store.old.spaces set.now birth number sectors) }
    ensures refused { IfErr result
        (IsMapRefused store.old store.new missing.now set.now birth number sectors) }
    ensures caused { IfErr result (IsCausedOf store.old store.new missing.now) }

    // And it is read, over disks whose answers tell, unless too many disks miss of a block.
    ensures known { IfErr result (λ refusal. (stored : Contents) (objects : ℕ → Option Object)
        (own : List Block) (blocks : ℕ → List Block) → Holds store.old stored
        → AreObjects stored birth set.now objects own blocks
        → AnswersTell store.old store.new missing.now
        → IsForLossOf refusal ⊎ ¬ HasSomeMap (objects number) sectors) }
{
    let rows = object_table::read(set, store, alloc, SPACE_MAP_KIND, number, birth, missing)?;
    free_set_of(alloc, &rows, sectors)
}

/// What the entries that the rows spell leave free.
fn free_set_of(alloc: Global, rows: &[u8], sectors: u64) -> Result<FreeSet, Refusal>
    requires not_empty { 0 < sectors }
    requires few { sectors < 2 ^ 47 }
    ensures found { IfOk result (LeavesFree rows.now sectors) }
    ensures refused { IfErr result (λ refusal. (refusal ≡ Refusal.NoMemory)
        ⊎ ((refusal ≡ Refusal.BadMap) × SpellsNoMap rows.now sectors)) }
{
    match replay(alloc, rows, sectors) {
        Ok(free) => Ok(free),
        Err(space_map::Refusal::BadMap) => Err(Refusal::BadMap),
        Err(space_map::Refusal::NoMemory) => Err(Refusal::NoMemory),
    }
}

/// The end of a space map, by the number of its object: what `extension` has to know of it, and the number of its entries. Of
/// the map's blocks the first and the last are read. `Unread` with `BadPointer` where it is no object of a map, or where no
/// table has these two blocks; the entries are not judged. The set's blocks were born in the transaction group `birth` or
/// before. The disks that are named are taken as missing.
pub fn read_map_end<D: Disk + Drop>(
    set: &ObjectSet,
    store: &mut BlockStore<D>,
    alloc: Global,
    number: u64,
    birth: u64,
    missing: &[usize],
) -> Result<TableEnd, Refusal>
    requires set { FitsObjectSet set.now }
    ensures reads { OnlyReadsBlocks store.old store.new missing.now }
    ensures value { IfOk result (λ end. (stored : Contents) (objects : ℕ → Option Object)
        (own : List Block) (blocks : ℕ → List Block) → Holds store.old stored
        → AreObjects stored birth set.now objects own blocks
        → AnswersTell store.old store.new missing.now
        → (entries : List ℕ) → HasTable map_kind (objects number) entries
        → IsEndOf map_kind (objects number) entries end) }

    // Whatever the set is: what was read, and on a refusal its cause.
    ensures found { IfOk result (IsEndFound store.old.spaces set.now birth map_kind number) }
    ensures refused { IfErr result
        (IsEndUnread store.old store.new missing.now set.now birth number) }
    ensures caused { IfErr result (IsCausedOf store.old store.new missing.now) }

    // And it is read, over disks whose answers tell, unless too many disks miss of a block.
    ensures known { IfErr result (λ refusal. (stored : Contents) (objects : ℕ → Option Object)
        (own : List Block) (blocks : ℕ → List Block) → Holds store.old stored
        → AreObjects stored birth set.now objects own blocks
        → AnswersTell store.old store.new missing.now
        → IsForLossOf refusal
        ⊎ ((entries : List ℕ) → ¬ HasTable map_kind (objects number) entries)) }
{
    let end = object_table::read_end(set, store, alloc, SPACE_MAP_KIND, number, birth, missing)?;
    Ok(end)
}
