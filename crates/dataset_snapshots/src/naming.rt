//! The names of a pool, by the directory under its root.
ghost use Rattle.std.specs.Prelude.{◌≡◌, ◌≢◌, ◌⊎◌, ◌∷◌, ◌++◌, ℕ, List, [], Option, None, IfOk, IfErr, OnOk};
ghost use Rattle.std.specs.List.{AllZip};
ghost use Rattle.block_pointer.specs.declared.block.Block.{Block};
ghost use Rattle.block_store.specs.Blocks.{Contents};
ghost use Rattle.block_store.specs.Losses.{IsForLoss};
ghost use Rattle.block_store.specs.Steps.{OnlyReadsBlocks, AnswersTell};
ghost use Rattle.block_store.specs.Store.{Holds};
ghost use Rattle.dataset_groups.specs.Chains.{Reading};
ghost use Rattle.dataset_groups.specs.ChainStanding.{HasChains};
ghost use Rattle.dataset_groups.specs.Names.{NamesPool};
ghost use Rattle.dead_list.specs.Datasets.{Pool};
ghost use Rattle.dnode.specs.ObjectSet.{FitsObjectSet};
ghost use Rattle.meta_objset.specs.declared.directory.DirectoryRow.{DirectoryRow};
ghost use Rattle.meta_objset.specs.Directory.{IsDirectory};
ghost use Rattle.meta_objset.specs.Names.{IsName, IsNamed};
ghost use Rattle.objset.specs.Objects.{Object, AreObjects};
ghost use Rattle.pool_model.specs.declared.volume.PlainVolume.{PlainVolume};
ghost use Rattle.pool_model.specs.Pools.{PlainPool, volume_at, with_volume};
ghost use Rattle.volume_rules.specs.Index.{Knows};
ghost use Rattle.volume_rules.specs.Shapes.{shape_of};
ghost use Rattle.dataset_snapshots.specs.Contents.{AreChainsFound, AreNamesFound, AreNamesRefused, AreUnchained, AreVolumesNamed};
ghost use Rattle.dataset_snapshots.specs.Contents.{IsRowUnnamed, IsShapeIn};
ghost use Rattle.dataset_snapshots.specs.Pools.{IsRecordKind, SpellsDataset, SpellsPool};

use crate::chaining::{RowRecord, chained_index};
use crate::clones::set_origins;
use crate::finding::{name_in, read_dataset, read_meta};
use block_pointer::Block;
use block_store::{BlockStore, Refusal};
use dnode::ObjectSet;
use meta_objset::{DatasetKind, DatasetRecord, Directory, DirectoryRow};
use model_disk::Disk;
use pool_model::VolumeKind;
use std::alloc::{AllocError, Global};
use volume_rules::{NameIndex, NewName, VolumeEntry, VolumeShape};

/// The names of the pool whose root has this directory, at each the shape of its volume, and of a clone its snapshot. It reads the root
/// and the record of each dataset. `BadPointer` where the block is no root of a pool, the object of a name no record of a dataset, or
/// where the records don't fit one another in chains. The numbers of the records and dead lists come behind those in `taken`.
pub(crate) fn names_by<D: Disk + Drop>(
    root: &Block,
    store: &mut BlockStore<D>,
    alloc: Global,
    birth: u64,
    directory: &Directory,
    missing: &[usize],
    taken: &mut Vec<u64>,
) -> Result<NameIndex, Refusal>
    ensures reads { OnlyReadsBlocks store.old store.new missing.now }
    ensures value { IfOk result (λ names. (stored : Contents) (pool : PlainPool)
        → Holds store.old stored → (is : SpellsPool stored birth root.now pool)
        → directory.now ≡ is.rows
        → AnswersTell store.old store.new missing.now → Knows names pool) }
    ensures found { IfOk result (AreNamesFound store.old.spaces birth root.now directory.now) }
    ensures refused { IfErr result (AreNamesRefused store.old store.new missing.now birth root.now
        directory.now) }
    ensures cause { IfErr result (λ refusal. refusal ≢ Refusal.NoSpace) }
    ensures known { IfErr result (λ refusal. (stored : Contents) (pool : PlainPool)
        → Holds store.old stored → (is : SpellsPool stored birth root.now pool)
        → directory.now ≡ is.rows
        → AnswersTell store.old store.new missing.now → IsForLoss refusal) }
{
    let set = read_meta(root, store, alloc, birth, missing)?;
    names_of(
        &set,
        directory.rows(),
        store,
        alloc,
        root.birth,
        missing,
        taken,
    )
}

/// The names of rows, at each the shape of its volume, and of a clone its snapshot. `BadPointer` where the records don't fit one another
/// in chains.
fn names_of<D: Disk + Drop>(
    set: &ObjectSet,
    rows: &[DirectoryRow],
    store: &mut BlockStore<D>,
    alloc: Global,
    birth: u64,
    missing: &[usize],
    taken: &mut Vec<u64>,
) -> Result<NameIndex, Refusal>
    requires fits { FitsObjectSet set.now }
    requires is { IsDirectory rows.now }
    ensures reads { OnlyReadsBlocks store.old store.new missing.now }
    ensures value { IfOk result (λ names. (stored : Contents) (objects : ℕ → Option Object)
        (own : List Block) (blocks : ℕ → List Block) (volumes : List PlainVolume)
        (pool : Pool) (readings : ℕ → Reading)
        → Holds store.old stored → AreObjects stored birth set.now objects own blocks
        → AllZip (SpellsDataset stored birth objects) rows.now volumes
        → HasChains stored birth objects pool readings
        → NamesPool pool readings rows.now (record { volumes = volumes })
        → AnswersTell store.old store.new missing.now
        → Knows names (record { volumes = volumes })) }
    ensures found { IfOk result (AreVolumesNamed store.old.spaces set.now birth rows.now) }
    ensures chains { OnOk result (AreChainsFound store.old.spaces set.now birth rows.now) }
    ensures refused { IfErr result (λ refusal. (refusal ≡ Refusal.NoMemory)
        ⊎ (IsRowUnnamed store.old store.new missing.now set.now birth rows.now refusal
        ⊎ AreUnchained store.old.spaces set.now birth rows.now refusal)) }
    ensures cause { IfErr result (λ refusal. refusal ≢ Refusal.NoSpace) }
    ensures known { IfErr result (λ refusal. (stored : Contents) (objects : ℕ → Option Object)
        (own : List Block) (blocks : ℕ → List Block) (volumes : List PlainVolume)
        (pool : Pool) (readings : ℕ → Reading)
        → Holds store.old stored → AreObjects stored birth set.now objects own blocks
        → AllZip (SpellsDataset stored birth objects) rows.now volumes
        → HasChains stored birth objects pool readings
        → NamesPool pool readings rows.now (record { volumes = volumes })
        → AnswersTell store.old store.new missing.now → IsForLoss refusal) }
{
    let mut names = NameIndex::new(alloc);
    let mut records = Vec::new(alloc);
    for row in rows {
        let dataset = read_dataset(set, store, alloc, birth, row.object, missing)?;
        let record = dataset.record;
        add_name(alloc, &mut names, row, shape_in(&record))?;
        let object = row.object;
        add_record(&mut records, taken, RowRecord { object, record })?;
    }
    let Some(index) = chained_index(alloc, &records)? else {
        return Err(Refusal::BadPointer);
    };
    set_origins(alloc, &mut names, rows, &index)?;
    Ok(names)
}

/// The shape of the volume or snapshot of a record.
fn shape_in(record: &DatasetRecord) -> VolumeShape
    ensures { IsShapeIn record.now result }
{
    VolumeShape {
        size: record.size,
        block_size: record.block_size,
        group: record.created,
        kind: kind_of(record.kind),
    }
}

/// What the name of a dataset stands for.
fn kind_of(kind: DatasetKind) -> VolumeKind
    ensures { IsRecordKind result kind }
{
    match kind {
        DatasetKind::Volume => VolumeKind::Volume,
        DatasetKind::Snapshot => VolumeKind::Snapshot,
    }
}

/// Adds the name of a row, and the shape of its volume, which has no origin so far.
fn add_name(
    alloc: Global,
    names: &mut NameIndex,
    row: &DirectoryRow,
    shape: VolumeShape,
) -> Result<(), AllocError>
    requires { IsName row.now.name }
    ensures { OnOk result ((pool : PlainPool) (volume : PlainVolume) → Knows names.old pool
        → IsNamed row.now.name volume.name → volume_at volume.name pool ≡ None
        → shape_of volume ≡ shape → volume.origin ≡ None
        → Knows names.new (with_volume volume pool)) }
{
    let name = name_in(alloc, row)?;
    let entry = VolumeEntry {
        shape,
        origin: None,
    };
    names.reserve()?;
    names.add(NewName { name, entry });
    Ok(())
}

/// Adds the record of a row, and to the numbers that are taken its own and that of its dead list.
fn add_record(
    records: &mut Vec<RowRecord>,
    taken: &mut Vec<u64>,
    one: RowRecord,
) -> Result<(), AllocError>
    ensures { OnOk result (records.new.items ≡ records.old.items ++ one ∷ []) }
{
    taken.push(one.object)?;
    taken.push(one.record.dead_list)?;
    records.push(one)?;
    Ok(())
}
