//! Volumes that a group writes to, as they are read.
ghost use Rattle.std.specs.Prelude.{◌≡◌, ◌≢◌, ◌↔◌, false, ◌⊎◌, ◌++◌, ◌∷◌, [], ℕ, List, Option, None, All, Contains, IsTrue, IfSome, IfNone, IfOk, IfErr, OnOk};
ghost use Rattle.std.specs.List.{AllZip};
ghost use Rattle.std.specs.List.Sorted.{IsStrictlyIncreasing};
ghost use Rattle.block_pointer.specs.declared.block.Block.{Block};
ghost use Rattle.block_store.specs.Blocks.{Contents};
ghost use Rattle.block_store.specs.Losses.{IsForLoss};
ghost use Rattle.block_store.specs.Steps.{OnlyReadsBlocks, AnswersTell};
ghost use Rattle.block_store.specs.Store.{Holds};
ghost use Rattle.dataset_groups.specs.Over.{AreOver};
ghost use Rattle.dataset_groups.specs.States.{AreUntouched, birth_of, record_at, set_of};
ghost use Rattle.dataset_groups.specs.Writing.{FitsHead, numbers_of};
ghost use Rattle.meta_objset.specs.declared.directory.DirectoryRow.{DirectoryRow};
ghost use Rattle.meta_objset.specs.Names.{IsName, IsNamed};
ghost use Rattle.objset.specs.Objects.{Object, AreObjects};
ghost use Rattle.pool_model.specs.declared.volume.PlainVolume.{PlainVolume};
ghost use Rattle.pool_model.specs.Pools.{is_snapshot};
ghost use Rattle.volume_rules.specs.Overlay.{after_writes};
ghost use Rattle.volume.specs.Volume.{Spells, block_size_of};
ghost use Rattle.volume.specs.Writing.{AreBlocksOf, IsArrayWith};
ghost use Rattle.dataset_snapshots.specs.Opening.{AreBlocksFound, AreBlocksRefused, IsOneUnread, IsWrittenOf, IsWrittenRefused};
ghost use Rattle.dataset_snapshots.specs.Pools.{SpellsDataset};
ghost use Rattle.dataset_snapshots.specs.Writing.{HasRow, IsReadFrom, IsWrittenBut};
ghost use Rattle.dataset_snapshots.specs.Writing.{KeepsDatasets, KeepsGroup};

use crate::finding::{name_in, number_in};
use block_store::{BlockStore, Refusal};
use dataset_groups::{GroupDatasets, WrittenHead};
use meta_objset::{Directory, DirectoryRow};
use model_disk::Disk;
use pool_model::{Name, Write};
use std::alloc::{AllocError, Global};
use txg_pipeline::Pending;
use volume::{BlockWrite, GroupWrites, VolumeSet};

/// The objects of the volumes that are written to, in the order of their numbers, but for those that are to be destroyed. A write to the name of a
/// snapshot does nothing.
pub(crate) fn written_objects(
    directory: &Directory,
    alloc: Global,
    writes: &[Write],
    destroyed: &[Name],
) -> Result<Vec<u64>, AllocError>
    ensures objects { IfOk result (λ objects. (object : ℕ) → Contains objects.items object
        ↔ IsWrittenBut directory.now destroyed.now writes.now object) }
    ensures once { IfOk result (λ objects. IsStrictlyIncreasing objects.items) }
{
    // Each name stands in one row.
    let _rows = directory.rows();
    let mut objects = Vec::new(alloc);
    for write in writes {
        if write.volume.is_of_snapshot() || is_among(destroyed, &write.volume) {
            continue;
        }
        if let Some(object) = number_in(directory, &write.volume) {
            objects.push(object)?;
        }
    }
    objects.as_mut_slice().sort_unstable();
    objects.dedup();
    Ok(objects)
}

/// Whether the name is one of these.
fn is_among(names: &[Name], name: &Name) -> bool
    ensures { IsTrue result ↔ Contains names.now name.now }
{
    names.iter().any(|one| one.is(name))
}

/// Reads the volumes that have these objects: the record of each, and the blocks that the writes change. The set's blocks were born
/// in the transaction group `birth` or before. `BadPointer` where a number is none that a record's object may have.
pub(crate) fn read_written<D: Disk + Drop>(
    datasets: &mut GroupDatasets,
    store: &mut BlockStore<D>,
    alloc: Global,
    birth: u64,
    objects: &[u64],
    items: &Pending,
) -> Result<Vec<WrittenHead>, Refusal>
    requires rows { All (λ object. (row : DirectoryRow) × HasRow datasets.old.directory object row)
        objects.now }
    requires once { IsStrictlyIncreasing objects.now }
    requires born { birth_of datasets.old.changes ≡ birth }
    requires none { AreUntouched datasets.old.changes }
    ensures reads { OnlyReadsBlocks store.old store.new [] }
    ensures kept { OnOk result (KeepsDatasets datasets.old datasets.new) }
    ensures numbers { IfOk result (λ read. numbers_of read.items ≡ objects.now) }
    ensures fits { IfOk result (λ read. All FitsHead read.items) }
    ensures value { IfOk result (λ read. (stored : Contents) (there : ℕ → Option Object)
        (own : List Block) (blocks : ℕ → List Block) → Holds store.old stored
        → AreObjects stored birth (set_of datasets.old.changes) there own blocks
        → AnswersTell store.old store.new []
        → All (IsReadFrom stored birth there items.now.writes datasets.old.directory) read.items
        × KeepsGroup there datasets.old datasets.new) }
    ensures known { IfErr result (λ refusal. (stored : Contents) (there : ℕ → Option Object)
        (own : List Block) (blocks : ℕ → List Block) (volumes : List PlainVolume)
        → Holds store.old stored
        → AreObjects stored birth (set_of datasets.old.changes) there own blocks
        → AllZip (SpellsDataset stored birth there) datasets.old.directory volumes
        → AnswersTell store.old store.new [] → IsForLoss refusal) }

    // Whatever the set is: what was read, and on a refusal its cause.
    ensures found { IfOk result (λ read. All (IsWrittenOf store.old.spaces
        (set_of datasets.old.changes) birth items.now.writes datasets.old.directory) read.items) }
    ensures refused { IfErr result (λ refusal. (refusal ≡ Refusal.NoMemory)
        ⊎ IsOneUnread store.old store.new (set_of datasets.old.changes) birth items.now.writes
        datasets.old.directory objects.now refusal) }
{
    let mut read = Vec::new(alloc);
    for object in objects {
        let head = read_one(datasets, store, alloc, birth, *object, items)?;
        push(&mut read, head)?;
    }
    Ok(read)
}

/// The first row that has the object.
fn row_of(directory: &Directory, object: u64) -> Option<&DirectoryRow>
    ensures held { IfSome result (λ row. HasRow directory.now object row.now) }
    ensures named { IfSome result (λ row. IsName row.now.name) }
    ensures none { IfNone result ((row : DirectoryRow) → ¬ HasRow directory.now object row) }
{
    directory.rows().iter().find(|row| row.object == object)
}

/// The volume that the first row with this object names, with the blocks that the writes change. Its record wasn't read yet.
fn read_one<D: Disk + Drop>(
    datasets: &mut GroupDatasets,
    store: &mut BlockStore<D>,
    alloc: Global,
    birth: u64,
    object: u64,
    items: &Pending,
) -> Result<WrittenHead, Refusal>
    requires row { (row : DirectoryRow) × HasRow datasets.old.directory object row }
    requires born { birth_of datasets.old.changes ≡ birth }
    requires unread { record_at datasets.old.changes object ≡ None }
    ensures reads { OnlyReadsBlocks store.old store.new [] }
    ensures kept { OnOk result (KeepsDatasets datasets.old datasets.new) }
    ensures others { OnOk result ((other : ℕ) → other ≢ object
        → record_at datasets.new.changes other ≡ record_at datasets.old.changes other) }
    ensures number { IfOk result (λ head. head.number ≡ object) }
    ensures fits { IfOk result FitsHead }
    ensures value { IfOk result (λ head. (stored : Contents) (there : ℕ → Option Object)
        (own : List Block) (blocks : ℕ → List Block) → Holds store.old stored
        → AreObjects stored birth (set_of datasets.old.changes) there own blocks
        → AnswersTell store.old store.new [] → AreOver there datasets.old.changes
        → IsReadFrom stored birth there items.now.writes datasets.old.directory head
        × KeepsGroup there datasets.old datasets.new × AreOver there datasets.new.changes) }
    ensures known { IfErr result (λ refusal. (stored : Contents) (there : ℕ → Option Object)
        (own : List Block) (blocks : ℕ → List Block) (volumes : List PlainVolume)
        → Holds store.old stored
        → AreObjects stored birth (set_of datasets.old.changes) there own blocks
        → AllZip (SpellsDataset stored birth there) datasets.old.directory volumes
        → AnswersTell store.old store.new [] → AreOver there datasets.old.changes
        → IsForLoss refusal) }
    ensures found { IfOk result (IsWrittenOf store.old.spaces (set_of datasets.old.changes) birth
        items.now.writes datasets.old.directory) }
    ensures refused { IfErr result (λ refusal. (row : DirectoryRow)
        × HasRow datasets.old.directory object row
        × IsWrittenRefused store.old store.new (set_of datasets.old.changes) birth
        items.now.writes row refusal) }
{
    let Some(row) = row_of(&datasets.directory, object) else {
        return Err(Refusal::BadPointer);
    };
    let row = *row;
    let record = datasets.changes.record(store, alloc, object)?;
    let volume = VolumeSet::new(record.size, record.block_size, record.object_set);
    let blocks = changed_blocks(&volume, store, alloc, birth, &row, items)?;
    Ok(WrittenHead {
        number: object,
        volume,
        blocks,
    })
}

/// The blocks that the writes change of the volume that a row names.
fn changed_blocks<D: Disk + Drop>(
    volume: &VolumeSet,
    store: &mut BlockStore<D>,
    alloc: Global,
    birth: u64,
    row: &DirectoryRow,
    items: &Pending,
) -> Result<Vec<BlockWrite>, Refusal>
    requires named { IsName row.now.name }
    ensures reads { OnlyReadsBlocks store.old store.new [] }
    ensures blocks { IfOk result (λ blocks. AreBlocksOf volume.now blocks.items) }
    ensures value { IfOk result (λ blocks. (stored : Contents) (plain : PlainVolume)
        → Holds store.old stored → IsNamed row.now.name plain.name
        → is_snapshot plain.kind ≡ false → Spells stored birth volume.now plain.bytes
        → AnswersTell store.old store.new []
        → IsArrayWith plain.bytes (block_size_of volume.now) blocks.items
        (after_writes plain items.now.writes).bytes) }
    ensures known { IfErr result (λ refusal. (stored : Contents) (array : List ℕ)
        → Holds store.old stored → Spells stored birth volume.now array
        → AnswersTell store.old store.new [] → IsForLoss refusal) }
    ensures found { IfOk result (λ blocks.
        AreBlocksFound store.old.spaces volume.now birth items.now.writes row.now blocks.items) }
    ensures refused { IfErr result (λ refusal. (refusal ≡ Refusal.NoMemory)
        ⊎ AreBlocksRefused store.old store.new volume.now birth items.now.writes row.now refusal) }
{
    let name = name_in(alloc, row)?;
    let changes = GroupWrites { name: &name, items };
    volume.changed_blocks(store, alloc, birth, &changes)
}

/// Adds a volume to a list.
fn push(read: &mut Vec<WrittenHead>, head: WrittenHead) -> Result<(), AllocError>
    ensures { OnOk result (read.new.items ≡ read.old.items ++ head ∷ []) }
{
    read.push(head)?;
    Ok(())
}
