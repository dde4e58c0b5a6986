//! Records of datasets in objects of the meta object set.
ghost use Rattle.std.specs.Prelude.{◌≡◌, ◌≢◌, ◌⊎◌, ◌↔◌, ℕ, List, Option, Some, None, length, IsTrue, IfOk, IfErr};
ghost use Rattle.block_pointer.specs.declared.block.Block.{Block};
ghost use Rattle.block_store.specs.Blocks.{Contents};
ghost use Rattle.block_store.specs.Causes.{IsCaused};
ghost use Rattle.block_store.specs.Losses.{IsForLoss};
ghost use Rattle.block_store.specs.Steps.{OnlyReadsBlocks, AnswersTell};
ghost use Rattle.block_store.specs.Store.{Holds};
ghost use Rattle.dnode.specs.ObjectSet.{FitsObjectSet};
ghost use Rattle.objset.specs.NodesFound.{IsNodeRefused};
ghost use Rattle.objset.specs.Changes.{IsGoodChange, MayChange, after_change};
ghost use Rattle.objset.specs.Objects.{Object, AreObjects};
ghost use Rattle.meta_objset.specs.declared.record.DatasetRecord.{DatasetRecord};
ghost use Rattle.meta_objset.specs.Datasets.{IsRecordObject, HasRecord, IsRecordWrite};
ghost use Rattle.meta_objset.specs.Found.{IsRecordThere, IsNoRecordThere, IsRecordFound, IsRecordRefused};
ghost use Rattle.meta_objset.specs.Record.{FitsRecord, SpellsRecord};

use crate::record::DatasetRecord;
use block_store::{BlockStore, Refusal};
use dnode::ObjectSet;
use model_disk::Disk;
use objset::{BlockWrite, Change, ObjectShape};
use std::alloc::{AllocError, Global};

/// The shape of the object of a record.
const SHAPE: ObjectShape = ObjectShape {
    object_type: 201,
    data_sectors: 1,
    highest: 0,
};

/// How many bytes a record has.
const RECORD_LEN: usize = 512;

/// The record of a dataset in a meta object set, by the number of its object. `BadPointer` where the object has no record: it is
/// not there, has another type, blocks of another size or more than one, or its block spells none. The set's blocks were born in
/// the transaction group `birth` or before. The disks that are named are taken as missing.
pub fn read_record<D: Disk + Drop>(
    set: &ObjectSet,
    store: &mut BlockStore<D>,
    alloc: Global,
    number: u64,
    birth: u64,
    missing: &[usize],
) -> Result<DatasetRecord, Refusal>
    requires { FitsObjectSet set.now }
    ensures reads { OnlyReadsBlocks store.old store.new missing.now }
    ensures value { IfOk result (λ found. (stored : Contents) (objects : ℕ → Option Object)
        (own : List Block) (blocks : ℕ → List Block) → Holds store.old stored
        → AreObjects stored birth set.now objects own blocks
        → AnswersTell store.old store.new missing.now
        → HasRecord (objects number) found) }
    // There is no other record.
    ensures one { IfOk result (λ found. (stored : Contents) (objects : ℕ → Option Object)
        (own : List Block) (blocks : ℕ → List Block) → Holds store.old stored
        → AreObjects stored birth set.now objects own blocks
        → AnswersTell store.old store.new missing.now
        → (other : DatasetRecord) → HasRecord (objects number) other → found ≡ other) }

    // Whatever the set is: what was read, and on a refusal its cause.
    ensures found { IfOk result (IsRecordFound store.old.spaces set.now birth number) }
    ensures refused { IfErr result (λ refusal. (refusal ≡ Refusal.NoMemory)
        ⊎ IsRecordRefused store.old store.new missing.now set.now birth number refusal) }
    ensures caused { IfErr result (IsCaused store.old store.new missing.now) }
    ensures cause { IfErr result (λ refusal. refusal ≢ Refusal.NoSpace) }

    // And it is read, over disks whose answers tell, unless too many disks miss of a block.
    ensures known { IfErr result (λ refusal. (stored : Contents) (objects : ℕ → Option Object)
        (own : List Block) (blocks : ℕ → List Block) → Holds store.old stored
        → AreObjects stored birth set.now objects own blocks
        → AnswersTell store.old store.new missing.now
        → IsForLoss refusal ⊎ ((refusal ≡ Refusal.BadPointer)
        × ((r : DatasetRecord) → ¬ HasRecord (objects number) r))) }
{
    expect_record(set, store, alloc, number, birth, missing)?;
    let Some(bytes) = objset::get(set, store, alloc, number, 0, birth, missing)? else {
        return Err(Refusal::BadPointer);
    };
    record_of(&bytes)
}

/// `BadPointer` where the object is none for a record.
fn expect_record<D: Disk + Drop>(
    set: &ObjectSet,
    store: &mut BlockStore<D>,
    alloc: Global,
    number: u64,
    birth: u64,
    missing: &[usize],
) -> Result<(), Refusal>
    requires { FitsObjectSet set.now }
    ensures reads { OnlyReadsBlocks store.old store.new missing.now }
    ensures value { IfOk result (λ _. (stored : Contents) (objects : ℕ → Option Object)
        (own : List Block) (blocks : ℕ → List Block) → Holds store.old stored
        → AreObjects stored birth set.now objects own blocks
        → AnswersTell store.old store.new missing.now
        → (there : Object) × (objects number ≡ Some there) × IsRecordObject there) }
    ensures found { IfOk result (λ _. IsRecordThere store.old.spaces set.now birth number) }
    ensures refused { IfErr result (λ refusal.
        IsNodeRefused store.old store.new missing.now set.now birth number refusal
        ⊎ ((refusal ≡ Refusal.BadPointer)
        × IsNoRecordThere store.old.spaces set.now birth number)) }
    ensures caused { IfErr result (IsCaused store.old store.new missing.now) }
    ensures cause { IfErr result (λ refusal. refusal ≢ Refusal.NoSpace) }
    ensures known { IfErr result (λ refusal. (stored : Contents) (objects : ℕ → Option Object)
        (own : List Block) (blocks : ℕ → List Block) → Holds store.old stored
        → AreObjects stored birth set.now objects own blocks
        → AnswersTell store.old store.new missing.now
        → IsForLoss refusal ⊎ ((refusal ≡ Refusal.BadPointer)
        × ((r : DatasetRecord) → ¬ HasRecord (objects number) r))) }
{
    let found = objset::find(set, store, alloc, number, birth, missing)?;
    let Some(shape) = found else {
        return Err(Refusal::BadPointer);
    };
    if !is_of_record(&shape) {
        return Err(Refusal::BadPointer);
    }
    Ok(())
}

/// Whether an object of that shape may have a record.
fn is_of_record(shape: &ObjectShape) -> bool
    ensures { IsTrue result ↔ ((shape.now.object_type ≡ 201) × (shape.now.data_sectors ≡ 1)
        × (shape.now.highest ≡ 0)) }
{
    shape.object_type == SHAPE.object_type
        && shape.data_sectors == SHAPE.data_sectors
        && shape.highest == SHAPE.highest
}

/// The record that a block spells. `BadPointer` where it spells none.
fn record_of(block: &[u8]) -> Result<DatasetRecord, Refusal>
    ensures size { IfOk result (λ _. length block.now ≡ 512) }
    ensures found { IfOk result (SpellsRecord block.now) }
    ensures only { (r : DatasetRecord) → SpellsRecord block.now r
        → IfOk result (λ found. found ≡ r) }
    ensures refused { IfErr result (λ refusal. (refusal ≡ Refusal.BadPointer)
        × (length block.now ≡ 512 → (r : DatasetRecord) → ¬ SpellsRecord block.now r)) }
{
    if block.len() != RECORD_LEN {
        return Err(Refusal::BadPointer);
    }
    let mut bytes = [0; RECORD_LEN];
    bytes.copy_from_slice(block);
    match DatasetRecord::decode(&bytes) {
        Ok(record) => Ok(record),
        Err(_) => Err(Refusal::BadPointer),
    }
}

/// The change of an object set that makes the object of a record: `read_record` finds it. `NoMemory` is its only error.
pub fn record_creation(alloc: Global, dataset: &DatasetRecord) -> Result<Change, Refusal>
    requires { FitsRecord dataset.now }
    ensures good { IfOk result IsGoodChange }
    ensures made { IfOk result (λ change. HasRecord (after_change change None) dataset.now) }
    ensures refused { IfErr result (λ refusal. refusal ≡ Refusal.NoMemory) }
{
    Ok(Change::Create {
        object_type: SHAPE.object_type,
        data_sectors: SHAPE.data_sectors,
        writes: writes_of(alloc, dataset)?,
    })
}

/// The change of an object set that writes another record to an object that is there for one. `NoMemory` is the only error.
pub fn record_change(alloc: Global, dataset: &DatasetRecord) -> Result<Change, Refusal>
    requires { FitsRecord dataset.now }
    ensures good { IfOk result IsGoodChange }
    ensures may { IfOk result (λ change. (object : Object) → IsRecordObject object
        → MayChange change (Some object)) }
    ensures made { IfOk result (λ change. (object : Object) → IsRecordObject object
        → HasRecord (after_change change (Some object)) dataset.now) }
    ensures refused { IfErr result (λ refusal. refusal ≡ Refusal.NoMemory) }
{
    let writes = writes_of(alloc, dataset)?;
    Ok(Change::Put { writes })
}

/// The block of a record.
fn writes_of(alloc: Global, dataset: &DatasetRecord) -> Result<Vec<BlockWrite>, AllocError>
    requires { FitsRecord dataset.now }
    ensures { IfOk result (λ writes. IsRecordWrite dataset.now writes.items) }
{
    let bytes = Vec::from_slice(alloc, &dataset.encode())?;
    let mut writes = Vec::new(alloc);
    writes.push(BlockWrite { id: 0, bytes })?;
    Ok(writes)
}
