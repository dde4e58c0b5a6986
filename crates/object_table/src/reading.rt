//! Tables are read.
ghost use Rattle.std.specs.Prelude.{◌≡◌, ◌≢◌, ◌⊎◌, ◌↔◌, ◌+◌, ◌^◌, ◌<◌, ◌≤◌, ℕ, List, Option, Some, None, IsTrue, IfOk, IfErr};
ghost use Rattle.block_pointer.specs.declared.block.Block.{Block};
ghost use Rattle.block_store.specs.Blocks.{Contents};
ghost use Rattle.block_store.specs.Causes.{IsCaused};
ghost use Rattle.block_store.specs.Losses.{IsForLoss};
ghost use Rattle.block_store.specs.Steps.{OnlyReadsBlocks, AnswersTell};
ghost use Rattle.block_store.specs.Store.{Holds};
ghost use Rattle.dnode.specs.ObjectSet.{FitsObjectSet};
ghost use Rattle.objset.specs.NodesFound.{IsNodeRefused};
ghost use Rattle.objset.specs.Objects.{Object, AreObjects, EndsAt};
ghost use Rattle.object_table.specs.Found.{AreBlocksFound, AreBlocksRefused, IsObjectFound, IsOtherFound, IsTableFound, IsTableRefused};
ghost use Rattle.object_table.specs.Rows.{SpellsRows};
ghost use Rattle.object_table.specs.Shape.{FitsShape};
ghost use Rattle.object_table.specs.Tables.{IsFront, IsOfKind, HasTable};

use crate::kind::TableKind;
use crate::refusal::Refusal as RowsRefusal;
use crate::rows::decode;
use crate::shape::RowShape;
use block_store::{BlockStore, Refusal};
use dnode::ObjectSet;
use model_disk::Disk;
use objset::ObjectShape;
use std::alloc::Global;

/// How many sectors of 512 bytes a block of a table has.
pub(crate) const BLOCK_SECTORS: u32 = 8;

/// The rows of a table, one after the other, by the number of its object. `BadPointer` where the object is no such table: it is
/// not there, has another type or blocks of another size, or its blocks up to the highest spell no rows. The set's blocks were
/// born in the transaction group `birth` or before. The disks that are named are taken as missing.
pub fn read<D: Disk + Drop>(
    set: &ObjectSet,
    store: &mut BlockStore<D>,
    alloc: Global,
    kind: TableKind,
    number: u64,
    birth: u64,
    missing: &[usize],
) -> Result<Vec<u8>, Refusal>
    requires set { FitsObjectSet set.now }
    requires shape { FitsShape kind.rows }
    ensures reads { OnlyReadsBlocks store.old store.new missing.now }
    ensures value { IfOk result (λ rows. (stored : Contents) (objects : ℕ → Option Object)
        (own : List Block) (blocks : ℕ → List Block) → Holds store.old stored
        → AreObjects stored birth set.now objects own blocks
        → AnswersTell store.old store.new missing.now
        → HasTable kind (objects number) rows.items) }
    // It has no other rows.
    ensures one { IfOk result (λ rows. (stored : Contents) (objects : ℕ → Option Object)
        (own : List Block) (blocks : ℕ → List Block) → Holds store.old stored
        → AreObjects stored birth set.now objects own blocks
        → AnswersTell store.old store.new missing.now
        → (other : List ℕ) → HasTable kind (objects number) other → rows.items ≡ other) }

    // Whatever the set is: what was read, and on a refusal its cause.
    ensures found { IfOk result (λ rows.
        IsTableFound store.old.spaces set.now birth kind number rows.items) }
    ensures refused { IfErr result (λ refusal. (refusal ≡ Refusal.NoMemory)
        ⊎ IsTableRefused store.old store.new missing.now set.now birth kind number refusal) }
    ensures caused { IfErr result (IsCaused store.old store.new missing.now) }
    ensures cause { IfErr result (λ refusal. refusal ≢ Refusal.NoSpace) }

    // And it is read, over disks whose answers tell, unless too many disks miss of a block.
    ensures known { IfErr result (λ refusal. (stored : Contents) (objects : ℕ → Option Object)
        (own : List Block) (blocks : ℕ → List Block) → Holds store.old stored
        → AreObjects stored birth set.now objects own blocks
        → AnswersTell store.old store.new missing.now
        → IsForLoss refusal ⊎ ((refusal ≡ Refusal.BadPointer)
        × ((rows : List ℕ) → ¬ HasTable kind (objects number) rows))) }
{
    let count = block_count(set, store, alloc, kind, number, birth, missing)?;
    let bytes = read_blocks(set, store, alloc, number, count, birth, missing)?;
    rows_of(alloc, kind.rows, &bytes)
}

/// Whether an object of that shape may have such a table.
fn is_of_kind(shape: &ObjectShape, kind: TableKind) -> bool
    ensures { IsTrue result
        ↔ ((shape.now.object_type ≡ kind.object_type) × (shape.now.data_sectors ≡ 8)) }
{
    shape.object_type == kind.object_type && shape.data_sectors == BLOCK_SECTORS
}

/// How many blocks the object of a table has.
pub(crate) fn block_count<D: Disk + Drop>(
    set: &ObjectSet,
    store: &mut BlockStore<D>,
    alloc: Global,
    kind: TableKind,
    number: u64,
    birth: u64,
    missing: &[usize],
) -> Result<u64, Refusal>
    requires { FitsObjectSet set.now }
    ensures reads { OnlyReadsBlocks store.old store.new missing.now }
    ensures value { IfOk result (λ count. (stored : Contents) (objects : ℕ → Option Object)
        (own : List Block) (blocks : ℕ → List Block) → Holds store.old stored
        → AreObjects stored birth set.now objects own blocks
        → AnswersTell store.old store.new missing.now
        → (there : Object) × (objects number ≡ Some there) × IsOfKind kind there × EndsAt there
        × (there.highest + 1 ≡ count)) }
    ensures few { IfOk result (λ count. (0 < count) × (count ≤ 128 ^ 5)) }
    ensures found { IfOk result (λ count. (highest : ℕ) × (highest + 1 ≡ count)
        × IsObjectFound store.old.spaces set.now birth kind number highest) }
    ensures refused { IfErr result (λ refusal.
        IsNodeRefused store.old store.new missing.now set.now birth number refusal
        ⊎ ((refusal ≡ Refusal.BadPointer)
        × IsOtherFound store.old.spaces set.now birth kind number)) }
    ensures caused { IfErr result (IsCaused store.old store.new missing.now) }
    ensures cause { IfErr result (λ refusal. refusal ≢ Refusal.NoSpace) }
    ensures known { IfErr result (λ refusal. (stored : Contents) (objects : ℕ → Option Object)
        (own : List Block) (blocks : ℕ → List Block) → Holds store.old stored
        → AreObjects stored birth set.now objects own blocks
        → AnswersTell store.old store.new missing.now
        → IsForLoss refusal ⊎ ((refusal ≡ Refusal.BadPointer)
        × ((rows : List ℕ) → ¬ HasTable kind (objects number) rows))) }
{
    let found = objset::find(set, store, alloc, number, birth, missing)?;
    let Some(shape) = found else {
        return Err(Refusal::BadPointer);
    };
    if !is_of_kind(&shape, kind) {
        return Err(Refusal::BadPointer);
    }
    Ok(shape.highest + 1)
}

/// The bytes of an object's first blocks, one block after the other. `BadPointer` where one of them is a hole.
fn read_blocks<D: Disk + Drop>(
    set: &ObjectSet,
    store: &mut BlockStore<D>,
    alloc: Global,
    number: u64,
    count: u64,
    birth: u64,
    missing: &[usize],
) -> Result<Vec<u8>, Refusal>
    requires { FitsObjectSet set.now }
    ensures reads { OnlyReadsBlocks store.old store.new missing.now }
    ensures value { IfOk result (λ bytes. (stored : Contents) (objects : ℕ → Option Object)
        (own : List Block) (blocks : ℕ → List Block) → Holds store.old stored
        → AreObjects stored birth set.now objects own blocks
        → AnswersTell store.old store.new missing.now
        → (there : Object) → objects number ≡ Some there → IsFront there.array count bytes.items) }
    ensures found { IfOk result (λ bytes.
        AreBlocksFound store.old.spaces set.now birth number count bytes.items) }
    ensures refused { IfErr result
        (AreBlocksRefused store.old store.new missing.now set.now birth number count) }
    ensures caused { IfErr result (IsCaused store.old store.new missing.now) }
    ensures cause { IfErr result (λ refusal. refusal ≢ Refusal.NoSpace) }
    ensures known { IfErr result (λ refusal. (stored : Contents) (objects : ℕ → Option Object)
        (own : List Block) (blocks : ℕ → List Block) → Holds store.old stored
        → AreObjects stored birth set.now objects own blocks
        → AnswersTell store.old store.new missing.now
        → (there : Object) → objects number ≡ Some there
        → IsForLoss refusal ⊎ ((refusal ≡ Refusal.BadPointer)
        × ((id : ℕ) × (id < count) × (there.array id ≡ None)))) }
{
    let mut bytes = Vec::new(alloc);
    for id in 0..count {
        let found = objset::get(set, store, alloc, number, id, birth, missing)?;
        let Some(block) = found else {
            return Err(Refusal::BadPointer);
        };
        bytes.extend_from_slice(&block)?;
    }
    Ok(bytes)
}

/// The rows that a table's bytes spell.
fn rows_of(alloc: Global, shape: RowShape, bytes: &[u8]) -> Result<Vec<u8>, Refusal>
    requires { FitsShape shape }
    ensures found { IfOk result (λ rows. SpellsRows shape bytes.now rows.items) }
    ensures only { (rows : List ℕ) → SpellsRows shape bytes.now rows
        → IfOk result (λ found. found.items ≡ rows) }
    ensures cause { IfErr result (λ refusal. refusal ≢ Refusal.NoSpace) }
    ensures refused { IfErr result (λ refusal. (refusal ≡ Refusal.NoMemory)
        ⊎ ((refusal ≡ Refusal.BadPointer)
        × ((rows : List ℕ) → ¬ SpellsRows shape bytes.now rows))) }
{
    match decode(alloc, shape, bytes) {
        Ok(rows) => Ok(rows),
        Err(RowsRefusal::BadPointer) => Err(Refusal::BadPointer),
        Err(RowsRefusal::NoMemory) => Err(Refusal::NoMemory),
    }
}
