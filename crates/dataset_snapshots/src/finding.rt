//! What a root has of a name.
ghost use Rattle.std.specs.Prelude.{◌≡◌, ◌≢◌, ◌⊎◌, ℕ, List, Option, Some, None, IfOk, IfErr};
ghost use Rattle.block_pointer.specs.declared.block.Block.{Block};
ghost use Rattle.block_store.specs.Blocks.{Contents};
ghost use Rattle.block_store.specs.Losses.{IsForLoss};
ghost use Rattle.block_store.specs.Steps.{OnlyReadsBlocks, AnswersTell};
ghost use Rattle.block_store.specs.Store.{Holds};
ghost use Rattle.dnode.specs.declared.object_set.ObjectSet.{ObjectSet};
ghost use Rattle.dnode.specs.declared.object_set.ObjectSetKind.TheVariants as sets;
ghost use Rattle.dnode.specs.ObjectSet.{FitsObjectSet};
ghost use Rattle.objset.specs.Sets.{IsSetBlock};
ghost use Rattle.meta_objset.specs.declared.directory.DirectoryRow.{DirectoryRow};
ghost use Rattle.meta_objset.specs.declared.record.DatasetRecord.{DatasetRecord};
ghost use Rattle.meta_objset.specs.Datasets.{HasRecord};
ghost use Rattle.meta_objset.specs.Found.{AreDirectoryRows, IsDirectoryFound, IsRecordFound, IsRecordRefused, IsRowsRefused};
ghost use Rattle.meta_objset.specs.Names.{IsName, IsNamed};
ghost use Rattle.meta_objset.specs.Reading.{HasDirectory, directory_kind};
ghost use Rattle.meta_objset.specs.Record.{IsRecord};
ghost use Rattle.objset.specs.Objects.{Object, AreObjects};
ghost use Rattle.pool_model.specs.Pools.{PlainPool, volume_at};
ghost use Rattle.volume.specs.Volume.{HasShape, block_of};
ghost use Rattle.dataset_snapshots.specs.Finding.{AreRowsFound, HasDataset, IsVolumeOf, IsMetaFound, IsMetaRefused};
ghost use Rattle.dataset_snapshots.specs.Finding.{IsDirectoryRefused, IsNumberIn, IsFound, IsFoundIn, IsRefused, IsRefusedIn};
ghost use Rattle.dataset_snapshots.specs.Pools.{SpellsPool};

use block_pointer::Block;
use block_store::{BlockStore, Refusal};
use dnode::{ObjectSet, ObjectSetKind};
use meta_objset::{
    DatasetRecord, Directory, DirectoryRow, padded, read_directory, read_record, unpadded,
};
use model_disk::Disk;
use objset::read_set;
use pool_model::Name;
use std::alloc::{AllocError, Global};
use volume::VolumeSet;

/// A dataset under a root.
#[derive(Clone, Copy)]
pub struct Dataset {
    /// The number of the object that has its record.
    pub object: u64,
    pub record: DatasetRecord,
    /// Its data: the object set that the record points to.
    pub volume: VolumeSet,
}

/// The dataset of that name under a root: nothing where the root's directory hasn't got the name. It reads the root, its
/// directory and the dataset's record, and none of the dataset's data. The root was born in the transaction group `birth` or
/// before. The disks that are named are taken as missing. `BadPointer` where the block is no root of a pool, its object 1 no
/// directory, or the object that the directory has for the name no record of a dataset.
pub fn find<D: Disk + Drop>(
    root: &Block,
    store: &mut BlockStore<D>,
    alloc: Global,
    birth: u64,
    name: &Name,
    missing: &[usize],
) -> Result<Option<Dataset>, Refusal>
    ensures reads { OnlyReadsBlocks store.old store.new missing.now }

    // It has the record and the bytes of the volume that the pool has there.
    ensures value { IfOk result (λ found. (stored : Contents) (pool : PlainPool)
        → Holds store.old stored → SpellsPool stored birth root.now pool
        → AnswersTell store.old store.new missing.now
        → HasDataset stored (root.now).birth (volume_at name.now pool) found) }

    // Whatever the root is: what was read, and on a refusal its cause.
    ensures found { IfOk result (IsFound store.old.spaces birth root.now name.now) }
    ensures refused { IfErr result (λ refusal. (refusal ≡ Refusal.NoMemory)
        ⊎ IsRefused store.old store.new missing.now birth root.now name.now refusal) }

    // And it is found, over disks whose answers tell, unless too many disks miss of a block.
    ensures known { IfErr result (λ refusal. (stored : Contents) (pool : PlainPool)
        → Holds store.old stored → SpellsPool stored birth root.now pool
        → AnswersTell store.old store.new missing.now → IsForLoss refusal) }
{
    let set = read_meta(root, store, alloc, birth, missing)?;
    let number = object_of(&set, store, alloc, root.birth, name, missing)?;
    let Some(object) = number else {
        return Ok(None);
    };
    let dataset = read_dataset(&set, store, alloc, root.birth, object, missing)?;
    Ok(Some(dataset))
}

/// The directory under a root. It reads the root and the directory, and nothing else. A caller who keeps it beside the root spares
/// later reads the directory's blocks: `find_in` and `read_range_in` take it. The root was born in the transaction group `birth` or
/// before. The disks that are named are taken as missing. `BadPointer` where the block is no root of a pool, or its object 1 no
/// directory.
pub fn directory_under<D: Disk + Drop>(
    root: &Block,
    store: &mut BlockStore<D>,
    alloc: Global,
    birth: u64,
    missing: &[usize],
) -> Result<Directory, Refusal>
    ensures reads { OnlyReadsBlocks store.old store.new missing.now }

    // It is that of the pool: the very rows that the root spells it by.
    ensures value { IfOk result (λ directory. (stored : Contents) (pool : PlainPool)
        → Holds store.old stored → (is : SpellsPool stored birth root.now pool)
        → AnswersTell store.old store.new missing.now → directory ≡ is.rows) }

    // Whatever the root is: what was read, and on a refusal its cause.
    ensures found { IfOk result (λ directory. (set : ObjectSet)
        × AreRowsFound store.old.spaces birth root.now set directory) }
    ensures refused { IfErr result (λ refusal. (refusal ≡ Refusal.NoMemory)
        ⊎ (IsMetaRefused store.old store.new missing.now birth root.now refusal
        ⊎ IsDirectoryRefused store.old store.new missing.now birth root.now refusal)) }

    // And it is read, over disks whose answers tell, unless too many disks miss of a block.
    ensures known { IfErr result (λ refusal. (stored : Contents) (pool : PlainPool)
        → Holds store.old stored → SpellsPool stored birth root.now pool
        → AnswersTell store.old store.new missing.now → IsForLoss refusal) }
{
    let set = read_meta(root, store, alloc, birth, missing)?;
    read_directory(&set, store, alloc, root.birth, missing)
}

/// The dataset of that name under a root whose directory is kept in memory: nothing where the directory hasn't got the name, and then
/// nothing is read. Else it reads the root and the dataset's record, and nothing of the directory's blocks. `BadPointer` where the
/// block is no root of a pool, or the object that the directory has for the name no record of a dataset. All else is as in `find`.
pub fn find_in<D: Disk + Drop>(
    root: &Block,
    store: &mut BlockStore<D>,
    alloc: Global,
    birth: u64,
    directory: &Directory,
    name: &Name,
    missing: &[usize],
) -> Result<Option<Dataset>, Refusal>
    ensures reads { OnlyReadsBlocks store.old store.new missing.now }
    ensures idle { IfOk result (λ found. found ≡ None → store.new ≡ store.old) }

    // Where the directory is the root's, it has the record and the bytes of the volume that the pool has there.
    ensures value { IfOk result (λ found. (stored : Contents) (pool : PlainPool)
        → Holds store.old stored → (is : SpellsPool stored birth root.now pool)
        → directory.now ≡ is.rows → AnswersTell store.old store.new missing.now
        → HasDataset stored (root.now).birth (volume_at name.now pool) found) }

    // Whatever the root and the directory are: what was read, and on a refusal its cause.
    ensures found { IfOk result
        (IsFoundIn store.old.spaces birth root.now directory.now name.now) }
    ensures refused { IfErr result (λ refusal. (refusal ≡ Refusal.NoMemory)
        ⊎ IsRefusedIn store.old store.new missing.now birth root.now directory.now name.now
        refusal) }

    // And it is found, over disks whose answers tell, unless too many disks miss of a block.
    ensures known { IfErr result (λ refusal. (stored : Contents) (pool : PlainPool)
        → Holds store.old stored → (is : SpellsPool stored birth root.now pool)
        → directory.now ≡ is.rows
        → AnswersTell store.old store.new missing.now → IsForLoss refusal) }
{
    let Some(object) = number_in(directory, name) else {
        return Ok(None);
    };
    let set = read_meta(root, store, alloc, birth, missing)?;
    let dataset = read_dataset(&set, store, alloc, root.birth, object, missing)?;
    Ok(Some(dataset))
}

/// The meta object set of a root. `BadPointer` where the block spells another.
pub(crate) fn read_meta<D: Disk + Drop>(
    root: &Block,
    store: &mut BlockStore<D>,
    alloc: Global,
    birth: u64,
    missing: &[usize],
) -> Result<ObjectSet, Refusal>
    ensures reads { OnlyReadsBlocks store.old store.new missing.now }
    ensures fits { IfOk result FitsObjectSet }
    ensures value { IfOk result (λ found. (stored : Contents) (set : ObjectSet)
        → Holds store.old stored → IsSetBlock stored birth root.now set
        → AnswersTell store.old store.new missing.now → found ≡ set) }
    ensures found { IfOk result (IsMetaFound store.old.spaces birth root.now) }
    ensures refused { IfErr result
        (IsMetaRefused store.old store.new missing.now birth root.now) }
    ensures cause { IfErr result (λ refusal. refusal ≢ Refusal.NoSpace) }
    ensures known { IfErr result (λ refusal. (stored : Contents) (set : ObjectSet)
        → Holds store.old stored → IsSetBlock stored birth root.now set → set.kind ≡ sets.Meta
        → AnswersTell store.old store.new missing.now → IsForLoss refusal) }
{
    let set = read_set(store, alloc, root, birth, missing)?;
    match set.kind {
        ObjectSetKind::Meta => Ok(set),
        ObjectSetKind::Volume => Err(Refusal::BadPointer),
    }
}

/// The number of the object that the directory has for a name.
fn object_of<D: Disk + Drop>(
    set: &ObjectSet,
    store: &mut BlockStore<D>,
    alloc: Global,
    birth: u64,
    name: &Name,
    missing: &[usize],
) -> Result<Option<u64>, Refusal>
    requires { FitsObjectSet set.now }
    ensures reads { OnlyReadsBlocks store.old store.new missing.now }
    ensures value { IfOk result (λ number. (stored : Contents) (objects : ℕ → Option Object)
        (own : List Block) (blocks : ℕ → List Block) (rows : List DirectoryRow)
        → Holds store.old stored → AreObjects stored birth set.now objects own blocks
        → HasDirectory (objects 1) rows → AnswersTell store.old store.new missing.now
        → IsNumberIn rows name.now number) }
    ensures found { IfOk result (λ number. (rows : List DirectoryRow)
        × IsDirectoryFound store.old.spaces set.now birth rows × IsNumberIn rows name.now number) }
    ensures refused { IfErr result (λ refusal. (refusal ≡ Refusal.NoMemory)
        ⊎ IsRowsRefused store.old store.new missing.now set.now birth directory_kind 1
        AreDirectoryRows refusal) }
    ensures known { IfErr result (λ refusal. (stored : Contents) (objects : ℕ → Option Object)
        (own : List Block) (blocks : ℕ → List Block) (rows : List DirectoryRow)
        → Holds store.old stored → AreObjects stored birth set.now objects own blocks
        → HasDirectory (objects 1) rows → AnswersTell store.old store.new missing.now
        → IsForLoss refusal) }
{
    let directory = read_directory(set, store, alloc, birth, missing)?;
    Ok(number_in(&directory, name))
}

/// The number that a directory has for a name.
pub(crate) fn number_in(directory: &Directory, name: &Name) -> Option<u64>
    ensures { IsNumberIn directory.now name.now result }
{
    let name = padded(name.as_slice())?;
    directory.get(&name)
}

/// The dataset whose record an object has.
pub(crate) fn read_dataset<D: Disk + Drop>(
    set: &ObjectSet,
    store: &mut BlockStore<D>,
    alloc: Global,
    birth: u64,
    object: u64,
    missing: &[usize],
) -> Result<Dataset, Refusal>
    requires { FitsObjectSet set.now }
    ensures reads { OnlyReadsBlocks store.old store.new missing.now }
    ensures value { IfOk result (λ dataset. (stored : Contents) (objects : ℕ → Option Object)
        (own : List Block) (blocks : ℕ → List Block) (r : DatasetRecord)
        → Holds store.old stored → AreObjects stored birth set.now objects own blocks
        → HasRecord (objects object) r → AnswersTell store.old store.new missing.now
        → dataset.record ≡ r) }
    ensures is { IfOk result IsVolumeOf }
    ensures object { IfOk result (λ dataset. dataset.object ≡ object) }
    ensures found { IfOk result (λ dataset.
        IsRecordFound store.old.spaces set.now birth object dataset.record) }
    ensures refused { IfErr result (λ refusal. (refusal ≡ Refusal.NoMemory)
        ⊎ IsRecordRefused store.old store.new missing.now set.now birth object refusal) }
    ensures cause { IfErr result (λ refusal. refusal ≢ Refusal.NoSpace) }
    ensures known { IfErr result (λ refusal. (stored : Contents) (objects : ℕ → Option Object)
        (own : List Block) (blocks : ℕ → List Block) (r : DatasetRecord)
        → Holds store.old stored → AreObjects stored birth set.now objects own blocks
        → HasRecord (objects object) r → AnswersTell store.old store.new missing.now
        → IsForLoss refusal) }
{
    let record = read_record(set, store, alloc, object, birth, missing)?;
    Ok(Dataset {
        object,
        record,
        volume: volume_of(&record),
    })
}

/// The data of a dataset.
fn volume_of(dataset: &DatasetRecord) -> VolumeSet
    requires { IsRecord dataset.now }
    ensures shape { HasShape result (dataset.now).size (dataset.now).block_size }
    ensures block { block_of result ≡ (dataset.now).object_set }
{
    VolumeSet::new(dataset.size, dataset.block_size, dataset.object_set)
}

/// The name of a row.
pub(crate) fn name_in(alloc: Global, row: &DirectoryRow) -> Result<Name, AllocError>
    requires { IsName row.now.name }
    ensures { IfOk result (IsNamed row.now.name) }
{
    Ok(Name::new(Vec::from_slice(alloc, unpadded(&row.name))?))
}
