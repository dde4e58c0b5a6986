//! The pool's tables are read.
ghost use Rattle.std.specs.Prelude.{◌≡◌, ◌≢◌, ◌⊎◌, ℕ, List, Option, IfOk, IfErr};
ghost use Rattle.block_pointer.specs.declared.block.Block.{Block};
ghost use Rattle.block_store.specs.Blocks.{Contents};
ghost use Rattle.block_store.specs.Causes.{IsCaused};
ghost use Rattle.block_store.specs.Losses.{IsForLoss};
ghost use Rattle.block_store.specs.Steps.{OnlyReadsBlocks, AnswersTell};
ghost use Rattle.block_store.specs.Store.{Holds};
ghost use Rattle.dnode.specs.ObjectSet.{FitsObjectSet};
ghost use Rattle.objset.specs.Objects.{Object, AreObjects};
ghost use Rattle.meta_objset.specs.declared.directory.DirectoryRow.{DirectoryRow};
ghost use Rattle.meta_objset.specs.declared.space_maps.MetaslabMap.{MetaslabMap};
ghost use Rattle.meta_objset.specs.declared.stale_spans.StaleSpan.{StaleSpan};
ghost use Rattle.meta_objset.specs.Directory.{IsDirectory, rows_bytes};
ghost use Rattle.meta_objset.specs.Found.{AreConfigRows, AreDirectoryRows, AreMapRows, AreMapsFound, AreSpanRows, AreSpansFound, IsConfigFound, IsDirectoryFound, IsRowsRefused};
ghost use Rattle.meta_objset.specs.Reading.{HasDirectory, HasConfig, HasSpaceMaps, HasStaleSpans, config_kind, directory_kind};
ghost use Rattle.meta_objset.specs.SpaceMaps.{AreSpaceMaps, maps_bytes, maps_kind};
ghost use Rattle.meta_objset.specs.StaleSpans.{AreStaleSpans, spans_bytes, spans_kind};
ghost use Rattle.vdev_label.specs.Config.{SpellsConfig};
ghost use Rattle.vdev_label.specs.Plain.{PlainVdev, config_view};

use crate::config::{KIND as CONFIG_KIND, config_in};
use crate::directory::{Directory, KIND as DIRECTORY_KIND};
use crate::space_maps::{SPACE_MAPS_KIND, SpaceMaps};
use crate::stale_spans::{STALE_SPANS_KIND, StaleSpans};
use block_store::{BlockStore, Refusal};
use dnode::ObjectSet;
use model_disk::Disk;
use std::alloc::Global;
use vdev_label::Config;

/// The number of the directory's object.
const DIRECTORY: u64 = 1;

/// The directory of a meta object set. `BadPointer` where object 1 is no directory. The set's blocks were born in the
/// transaction group `birth` or before. The disks that are named are taken as missing.
pub fn read_directory<D: Disk + Drop>(
    set: &ObjectSet,
    store: &mut BlockStore<D>,
    alloc: Global,
    birth: u64,
    missing: &[usize],
) -> Result<Directory, Refusal>
    requires { FitsObjectSet set.now }
    ensures reads { OnlyReadsBlocks store.old store.new missing.now }
    ensures value { IfOk result (λ directory. (stored : Contents) (objects : ℕ → Option Object)
        (own : List Block) (blocks : ℕ → List Block) → Holds store.old stored
        → AreObjects stored birth set.now objects own blocks
        → AnswersTell store.old store.new missing.now
        → HasDirectory (objects 1) directory) }
    // There is no other directory.
    ensures one { IfOk result (λ directory. (stored : Contents) (objects : ℕ → Option Object)
        (own : List Block) (blocks : ℕ → List Block) → Holds store.old stored
        → AreObjects stored birth set.now objects own blocks
        → AnswersTell store.old store.new missing.now
        → (other : List DirectoryRow) → HasDirectory (objects 1) other → directory ≡ other) }

    // Whatever the set is: what was read, and on a refusal its cause.
    ensures found { IfOk result (IsDirectoryFound store.old.spaces set.now birth) }
    ensures refused { IfErr result (λ refusal. (refusal ≡ Refusal.NoMemory)
        ⊎ IsRowsRefused store.old store.new missing.now set.now birth directory_kind 1
        AreDirectoryRows refusal) }
    ensures caused { IfErr result (IsCaused store.old store.new missing.now) }
    ensures cause { IfErr result (λ refusal. refusal ≢ Refusal.NoSpace) }

    // And it is read, over disks whose answers tell, unless too many disks miss of a block.
    ensures known { IfErr result (λ refusal. (stored : Contents) (objects : ℕ → Option Object)
        (own : List Block) (blocks : ℕ → List Block) → Holds store.old stored
        → AreObjects stored birth set.now objects own blocks
        → AnswersTell store.old store.new missing.now
        → IsForLoss refusal ⊎ ((refusal ≡ Refusal.BadPointer)
        × ((rows : List DirectoryRow) → ¬ HasDirectory (objects 1) rows))) }
{
    let rows = object_table::read(set, store, alloc, DIRECTORY_KIND, DIRECTORY, birth, missing)?;
    directory_of(alloc, &rows)
}

/// The directory whose rows these are.
fn directory_of(alloc: Global, rows: &[u8]) -> Result<Directory, Refusal>
    ensures found { IfOk result (λ found. IsDirectory found × (rows.now ≡ rows_bytes found)) }
    ensures only { (other : List DirectoryRow) → IsDirectory other → rows.now ≡ rows_bytes other
        → IfOk result (λ found. found ≡ other) }
    ensures cause { IfErr result (λ refusal. refusal ≢ Refusal.NoSpace) }
    ensures refused { IfErr result (λ refusal. (refusal ≡ Refusal.NoMemory)
        ⊎ ((refusal ≡ Refusal.BadPointer)
        × ((found : List DirectoryRow) → IsDirectory found → rows.now ≢ rows_bytes found))) }
{
    match Directory::from_rows(alloc, rows) {
        Ok(directory) => Ok(directory),
        Err(object_table::Refusal::BadPointer) => Err(Refusal::BadPointer),
        Err(object_table::Refusal::NoMemory) => Err(Refusal::NoMemory),
    }
}

/// The number of the configuration's object.
const CONFIG: u64 = 2;

/// The configuration in a meta object set. What its values are is not judged here. `BadPointer` where object 2 is no
/// configuration. The set's blocks were born in the transaction group `birth` or before. The disks that are named are taken as
/// missing.
pub fn read_config<D: Disk + Drop>(
    set: &ObjectSet,
    store: &mut BlockStore<D>,
    alloc: Global,
    birth: u64,
    missing: &[usize],
) -> Result<Config, Refusal>
    requires { FitsObjectSet set.now }
    ensures reads { OnlyReadsBlocks store.old store.new missing.now }
    ensures value { IfOk result (λ config. (stored : Contents) (objects : ℕ → Option Object)
        (own : List Block) (blocks : ℕ → List Block) → Holds store.old stored
        → AreObjects stored birth set.now objects own blocks
        → AnswersTell store.old store.new missing.now
        → HasConfig (objects 2) (config_view config)) }

    // Whatever the set is: what was read, and on a refusal its cause.
    ensures found { IfOk result (λ config.
        IsConfigFound store.old.spaces set.now birth (config_view config)) }
    ensures refused { IfErr result (λ refusal. (refusal ≡ Refusal.NoMemory)
        ⊎ IsRowsRefused store.old store.new missing.now set.now birth config_kind 2
        AreConfigRows refusal) }
    ensures caused { IfErr result (IsCaused store.old store.new missing.now) }
    ensures cause { IfErr result (λ refusal. refusal ≢ Refusal.NoSpace) }

    // And it is read, over disks whose answers tell, unless too many disks miss of a block.
    ensures known { IfErr result (λ refusal. (stored : Contents) (objects : ℕ → Option Object)
        (own : List Block) (blocks : ℕ → List Block) → Holds store.old stored
        → AreObjects stored birth set.now objects own blocks
        → AnswersTell store.old store.new missing.now
        → IsForLoss refusal ⊎ ((refusal ≡ Refusal.BadPointer)
        × ((vdevs : List PlainVdev) → ¬ HasConfig (objects 2) vdevs))) }
{
    let rows = object_table::read(set, store, alloc, CONFIG_KIND, CONFIG, birth, missing)?;
    config_of(alloc, &rows)
}

/// The configuration whose bytes these are.
fn config_of(alloc: Global, rows: &[u8]) -> Result<Config, Refusal>
    ensures found { IfOk result (λ config. SpellsConfig rows.now (config_view config)) }
    ensures cause { IfErr result (λ refusal. refusal ≢ Refusal.NoSpace) }
    ensures refused { IfErr result (λ refusal. (refusal ≡ Refusal.NoMemory)
        ⊎ ((refusal ≡ Refusal.BadPointer)
        × ((vdevs : List PlainVdev) → ¬ SpellsConfig rows.now vdevs))) }
{
    match config_in(alloc, rows) {
        Ok(config) => Ok(config),
        Err(object_table::Refusal::BadPointer) => Err(Refusal::BadPointer),
        Err(object_table::Refusal::NoMemory) => Err(Refusal::NoMemory),
    }
}

/// The number of the stale spans' object.
const STALE_SPANS: u64 = 3;

/// The stale spans in a meta object set. `BadPointer` where object 3 has none. The set's blocks were born in the
/// transaction group `birth` or before. The disks that are named are taken as missing.
pub fn read_stale_spans<D: Disk + Drop>(
    set: &ObjectSet,
    store: &mut BlockStore<D>,
    alloc: Global,
    birth: u64,
    missing: &[usize],
) -> Result<StaleSpans, Refusal>
    requires { FitsObjectSet set.now }
    ensures reads { OnlyReadsBlocks store.old store.new missing.now }
    ensures value { IfOk result (λ spans. (stored : Contents) (objects : ℕ → Option Object)
        (own : List Block) (blocks : ℕ → List Block) → Holds store.old stored
        → AreObjects stored birth set.now objects own blocks
        → AnswersTell store.old store.new missing.now
        → HasStaleSpans (objects 3) spans) }
    // There are no others.
    ensures one { IfOk result (λ spans. (stored : Contents) (objects : ℕ → Option Object)
        (own : List Block) (blocks : ℕ → List Block) → Holds store.old stored
        → AreObjects stored birth set.now objects own blocks
        → AnswersTell store.old store.new missing.now
        → (other : List StaleSpan) → HasStaleSpans (objects 3) other → spans ≡ other) }

    // Whatever the set is: what was read, and on a refusal its cause.
    ensures found { IfOk result (AreSpansFound store.old.spaces set.now birth) }
    ensures refused { IfErr result (λ refusal. (refusal ≡ Refusal.NoMemory)
        ⊎ IsRowsRefused store.old store.new missing.now set.now birth spans_kind 3
        AreSpanRows refusal) }
    ensures caused { IfErr result (IsCaused store.old store.new missing.now) }
    ensures cause { IfErr result (λ refusal. refusal ≢ Refusal.NoSpace) }

    // And it is read, over disks whose answers tell, unless too many disks miss of a block.
    ensures known { IfErr result (λ refusal. (stored : Contents) (objects : ℕ → Option Object)
        (own : List Block) (blocks : ℕ → List Block) → Holds store.old stored
        → AreObjects stored birth set.now objects own blocks
        → AnswersTell store.old store.new missing.now
        → IsForLoss refusal ⊎ ((refusal ≡ Refusal.BadPointer)
        × ((spans : List StaleSpan) → ¬ HasStaleSpans (objects 3) spans))) }
{
    let rows = object_table::read(
        set,
        store,
        alloc,
        STALE_SPANS_KIND,
        STALE_SPANS,
        birth,
        missing,
    )?;
    spans_of(alloc, &rows)
}

/// The spans whose rows these are.
fn spans_of(alloc: Global, rows: &[u8]) -> Result<StaleSpans, Refusal>
    ensures found { IfOk result (λ found. AreStaleSpans found × (rows.now ≡ spans_bytes found)) }
    ensures only { (other : List StaleSpan) → AreStaleSpans other → rows.now ≡ spans_bytes other
        → IfOk result (λ found. found ≡ other) }
    ensures cause { IfErr result (λ refusal. refusal ≢ Refusal.NoSpace) }
    ensures refused { IfErr result (λ refusal. (refusal ≡ Refusal.NoMemory)
        ⊎ ((refusal ≡ Refusal.BadPointer)
        × ((found : List StaleSpan) → AreStaleSpans found → rows.now ≢ spans_bytes found))) }
{
    match StaleSpans::from_rows(alloc, rows) {
        Ok(spans) => Ok(spans),
        Err(object_table::Refusal::BadPointer) => Err(Refusal::BadPointer),
        Err(object_table::Refusal::NoMemory) => Err(Refusal::NoMemory),
    }
}

/// The number of the space maps' object.
const SPACE_MAPS: u64 = 4;

/// The space maps in a meta object set. `BadPointer` where object 4 has none. The set's blocks were born in the
/// transaction group `birth` or before. The disks that are named are taken as missing.
pub fn read_space_maps<D: Disk + Drop>(
    set: &ObjectSet,
    store: &mut BlockStore<D>,
    alloc: Global,
    birth: u64,
    missing: &[usize],
) -> Result<SpaceMaps, Refusal>
    requires { FitsObjectSet set.now }
    ensures reads { OnlyReadsBlocks store.old store.new missing.now }
    ensures value { IfOk result (λ maps. (stored : Contents) (objects : ℕ → Option Object)
        (own : List Block) (blocks : ℕ → List Block) → Holds store.old stored
        → AreObjects stored birth set.now objects own blocks
        → AnswersTell store.old store.new missing.now
        → HasSpaceMaps (objects 4) maps) }
    // There are no others.
    ensures one { IfOk result (λ maps. (stored : Contents) (objects : ℕ → Option Object)
        (own : List Block) (blocks : ℕ → List Block) → Holds store.old stored
        → AreObjects stored birth set.now objects own blocks
        → AnswersTell store.old store.new missing.now
        → (other : List MetaslabMap) → HasSpaceMaps (objects 4) other → maps ≡ other) }

    // Whatever the set is: what was read, and on a refusal its cause.
    ensures found { IfOk result (AreMapsFound store.old.spaces set.now birth) }
    ensures refused { IfErr result (λ refusal. (refusal ≡ Refusal.NoMemory)
        ⊎ IsRowsRefused store.old store.new missing.now set.now birth maps_kind 4
        AreMapRows refusal) }
    ensures caused { IfErr result (IsCaused store.old store.new missing.now) }
    ensures cause { IfErr result (λ refusal. refusal ≢ Refusal.NoSpace) }

    // And it is read, over disks whose answers tell, unless too many disks miss of a block.
    ensures known { IfErr result (λ refusal. (stored : Contents) (objects : ℕ → Option Object)
        (own : List Block) (blocks : ℕ → List Block) → Holds store.old stored
        → AreObjects stored birth set.now objects own blocks
        → AnswersTell store.old store.new missing.now
        → IsForLoss refusal ⊎ ((refusal ≡ Refusal.BadPointer)
        × ((maps : List MetaslabMap) → ¬ HasSpaceMaps (objects 4) maps))) }
{
    let rows = object_table::read(
        set,
        store,
        alloc,
        SPACE_MAPS_KIND,
        SPACE_MAPS,
        birth,
        missing,
    )?;
    maps_of(alloc, &rows)
}

/// The space maps whose rows these are.
fn maps_of(alloc: Global, rows: &[u8]) -> Result<SpaceMaps, Refusal>
    ensures found { IfOk result (λ found. AreSpaceMaps found × (rows.now ≡ maps_bytes found)) }
    ensures only { (other : List MetaslabMap) → AreSpaceMaps other → rows.now ≡ maps_bytes other
        → IfOk result (λ found. found ≡ other) }
    ensures cause { IfErr result (λ refusal. refusal ≢ Refusal.NoSpace) }
    ensures refused { IfErr result (λ refusal. (refusal ≡ Refusal.NoMemory)
        ⊎ ((refusal ≡ Refusal.BadPointer)
        × ((found : List MetaslabMap) → AreSpaceMaps found → rows.now ≢ maps_bytes found))) }
{
    match SpaceMaps::from_rows(alloc, rows) {
        Ok(maps) => Ok(maps),
        Err(object_table::Refusal::BadPointer) => Err(Refusal::BadPointer),
        Err(object_table::Refusal::NoMemory) => Err(Refusal::NoMemory),
    }
}
