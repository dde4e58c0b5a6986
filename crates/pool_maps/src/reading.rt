//! The space maps of a pool are read.
ghost use Rattle.std.specs.Prelude.{◌≡◌, ◌⊎◌, ◌++◌, ◌∷◌, [], ℕ, List, Option, All, OnOk, IfOk, IfErr};
ghost use Rattle.std.specs.List.{AllZip};
ghost use Rattle.block_pointer.specs.declared.block.Block.{Block};
ghost use Rattle.block_store.specs.Blocks.{Contents};
ghost use Rattle.block_store.specs.Maps.{HasSectors};
ghost use Rattle.block_store.specs.Steps.{AnswersTell, OnlyReadsBlocks};
ghost use Rattle.block_store.specs.Store.{Holds};
ghost use Rattle.dnode.specs.ObjectSet.{FitsObjectSet};
ghost use Rattle.meta_objset.specs.Reading.{HasSpaceMaps};
ghost use Rattle.meta_objset.specs.declared.space_maps.MetaslabMap.{MetaslabMap};
ghost use Rattle.objset.specs.Objects.{Object, AreObjects};
ghost use Rattle.pool_maps.specs.Loads.{AreFreeFound, AreMapsUnread, AreReadMaps, AreSetsOf};
ghost use Rattle.pool_maps.specs.Loads.{HasMapFor, HaveMaps, IsFreeFound, IsReadOf, IsRowUnread};
ghost use Rattle.pool_maps.specs.Maps.{AreRowsOf, HasMapPlace};
ghost use Rattle.space_map_objects.specs.Causes.{IsCausedOf};
ghost use Rattle.space_map_objects.specs.Maps.{IsForLossOf, IsMapRefused};

use crate::judging::are_rows;
use block_store::BlockStore;
use dnode::ObjectSet;
use meta_objset::{MetaslabMap, MetaslabPlace, read_space_maps};
use model_disk::Disk;
use space_map::FreeSet;
use space_map_objects::{Refusal, read_free_set};
use std::alloc::{AllocError, Global};

/// What a metaslab's space map leaves free.
#[derive(Drop)]
pub struct FreeMetaslab {
    /// The metaslab.
    pub metaslab: MetaslabPlace,
    /// The number of the map's object.
    pub object: u64,
    /// The sectors of it that the map leaves free.
    pub free: FreeSet,
}

/// What the space maps of a meta object set leave free, in the order of its table of them. The set's blocks were born in the
/// transaction group `birth` or before. The disks that are named are taken as missing.
///
/// `Unread` with `BadPointer` also where a row is of no metaslab before a meta region, names one of the tables, or the object that
/// another row names; `BadMap` where the object's rows are no map of such a metaslab.
pub fn read_maps<D: Disk + Drop>(
    set: &ObjectSet,
    store: &mut BlockStore<D>,
    alloc: Global,
    birth: u64,
    missing: &[usize],
) -> Result<Vec<FreeMetaslab>, Refusal>
    requires set { FitsObjectSet set.now }
    ensures reads { OnlyReadsBlocks store.old store.new missing.now }
    ensures value { IfOk result (λ read. (stored : Contents) (objects : ℕ → Option Object)
        (own : List Block) (blocks : ℕ → List Block) → Holds store.old stored
        → AreObjects stored birth set.now objects own blocks
        → AnswersTell store.old store.new missing.now
        → AreReadMaps objects store.old.spaces read.items) }

    // Whatever the set is: what was read, which a store of these vdevs may load, and on a refusal its cause.
    ensures found { IfOk result (λ read.
        AreFreeFound store.old.spaces set.now birth read.items) }
    ensures sets { IfOk result (λ read. AreSetsOf store.old.spaces read.items) }
    ensures refused { IfErr result (λ refusal. (refusal ≡ Refusal.NoMemory)
        ⊎ AreMapsUnread store.old store.new missing.now set.now birth refusal) }
    ensures caused { IfErr result (IsCausedOf store.old store.new missing.now) }

    // And they are read, over disks whose answers tell, unless too many disks miss of a block.
    ensures known { IfErr result (λ refusal. (stored : Contents) (objects : ℕ → Option Object)
        (own : List Block) (blocks : ℕ → List Block) → Holds store.old stored
        → AreObjects stored birth set.now objects own blocks
        → AnswersTell store.old store.new missing.now
        → (maps : List MetaslabMap) → HasSpaceMaps (objects 4) maps
        → AreRowsOf store.old.spaces maps → HaveMaps objects store.old.spaces maps
        → IsForLossOf refusal) }
{
    let maps = read_space_maps(set, store, alloc, birth, missing)?;
    if !are_rows(store, maps.rows()) {
        return Err(Refusal::Unread(block_store::Refusal::BadPointer));
    }
    read_each(set, store, alloc, birth, maps.rows(), missing)
}

/// Reads the maps of these rows.
fn read_each<D: Disk + Drop>(
    set: &ObjectSet,
    store: &mut BlockStore<D>,
    alloc: Global,
    birth: u64,
    rows: &[MetaslabMap],
    missing: &[usize],
) -> Result<Vec<FreeMetaslab>, Refusal>
    requires set { FitsObjectSet set.now }
    requires places { All (λ row. HasMapPlace store.old.spaces row.metaslab) rows.now }
    ensures reads { OnlyReadsBlocks store.old store.new missing.now }
    ensures value { IfOk result (λ read. (stored : Contents) (objects : ℕ → Option Object)
        (own : List Block) (blocks : ℕ → List Block) → Holds store.old stored
        → AreObjects stored birth set.now objects own blocks
        → AnswersTell store.old store.new missing.now
        → AllZip (IsReadOf objects store.old.spaces) rows.now read.items) }
    ensures found { IfOk result (λ read.
        AllZip (IsFreeFound store.old.spaces set.now birth) rows.now read.items) }
    ensures refused { IfErr result (λ refusal. (refusal ≡ Refusal.NoMemory)
        ⊎ IsRowUnread store.old store.new missing.now set.now birth rows.now refusal) }
    ensures caused { IfErr result (IsCausedOf store.old store.new missing.now) }
    ensures known { IfErr result (λ refusal. (stored : Contents) (objects : ℕ → Option Object)
        (own : List Block) (blocks : ℕ → List Block) → Holds store.old stored
        → AreObjects stored birth set.now objects own blocks
        → AnswersTell store.old store.new missing.now
        → HaveMaps objects store.old.spaces rows.now → IsForLossOf refusal) }
{
    let mut read = Vec::new(alloc);
    for row in rows {
        let free = read_one(set, store, alloc, birth, row, missing)?;
        push(&mut read, free)?;
    }
    Ok(read)
}

/// Adds one to those that were read.
fn push(read: &mut Vec<FreeMetaslab>, free: FreeMetaslab) -> Result<(), AllocError>
    ensures { OnOk result (read.new.items ≡ read.old.items ++ free ∷ []) }
{
    Ok(read.push(free)?)
}

/// Reads the map of a row.
fn read_one<D: Disk + Drop>(
    set: &ObjectSet,
    store: &mut BlockStore<D>,
    alloc: Global,
    birth: u64,
    row: &MetaslabMap,
    missing: &[usize],
) -> Result<FreeMetaslab, Refusal>
    requires set { FitsObjectSet set.now }
    requires place { HasMapPlace store.old.spaces row.now.metaslab }
    ensures reads { OnlyReadsBlocks store.old store.new missing.now }
    ensures value { IfOk result (λ read. (stored : Contents) (objects : ℕ → Option Object)
        (own : List Block) (blocks : ℕ → List Block) → Holds store.old stored
        → AreObjects stored birth set.now objects own blocks
        → AnswersTell store.old store.new missing.now
        → IsReadOf objects store.old.spaces row.now read) }
    ensures found { IfOk result (IsFreeFound store.old.spaces set.now birth row.now) }
    ensures refused { IfErr result (λ refusal. (sectors : ℕ)
        → HasSectors store.old.spaces row.now.metaslab.vdev sectors
        → IsMapRefused store.old store.new missing.now set.now birth row.now.object sectors
        refusal) }
    ensures caused { IfErr result (IsCausedOf store.old store.new missing.now) }
    ensures known { IfErr result (λ refusal. (stored : Contents) (objects : ℕ → Option Object)
        (own : List Block) (blocks : ℕ → List Block) → Holds store.old stored
        → AreObjects stored birth set.now objects own blocks
        → AnswersTell store.old store.new missing.now
        → HasMapFor (objects row.now.object) store.old.spaces row.now.metaslab
        → IsForLossOf refusal) }
{
    let metaslab = row.metaslab;
    let sectors = store.shape(metaslab.vdev as usize).metaslab_sectors();
    let free = read_free_set(set, store, alloc, row.object, sectors, birth, missing)?;
    Ok(FreeMetaslab {
        metaslab,
        object: row.object,
        free,
    })
}
