//! The end of a table: what has to be known of it to add rows.
ghost use Rattle.std.specs.Prelude.{◌≡◌, ◌≢◌, ◌⊎◌, ◌+◌, ◌^◌, ◌<◌, ◌≤◌, ℕ, List, Option, Some, None, IfOk, IfErr, IfSome, length};
ghost use Rattle.block_pointer.specs.declared.block.Block.{Block};
ghost use Rattle.block_store.specs.Blocks.{Contents};
ghost use Rattle.block_store.specs.Causes.{IsCaused};
ghost use Rattle.block_store.specs.Losses.{IsForLoss};
ghost use Rattle.block_store.specs.Steps.{OnlyReadsBlocks, AnswersTell};
ghost use Rattle.block_store.specs.Store.{Holds};
ghost use Rattle.dnode.specs.ObjectSet.{FitsObjectSet};
ghost use Rattle.objset.specs.Found.{IsDataFound, IsDataRefused};
ghost use Rattle.objset.specs.Objects.{Object, AreObjects};
ghost use Rattle.object_table.specs.Ends.{AreEndsOfSome, IsEndBlockRefused, IsEndFound, IsEndOf, IsEndRefused};
ghost use Rattle.object_table.specs.Shape.{FitsShape};
ghost use Rattle.object_table.specs.Tables.{HasTable};

use crate::kind::TableKind;
use crate::reading::block_count;
use crate::rows::{BLOCK_LEN, WORD_LEN, is_zero, number_of};
use crate::shape::RowShape;
use block_store::{BlockStore, Refusal};
use dnode::ObjectSet;
use model_disk::Disk;
use std::alloc::Global;

/// What has to be known of a table to add rows to it.
#[derive(Drop)]
pub struct TableEnd {
    /// How many rows it has.
    pub rows: u64,
    /// The bytes of its first block.
    pub first: Vec<u8>,
    /// Those of its last block, which is the first where there is one alone.
    pub last: Vec<u8>,
}

/// The end of a table, by the number of its object, of which the dnode, the first block and the last one are read. `BadPointer`
/// where the object is not there, has another type or blocks of another size, where one of the two blocks is a hole, and where
/// no table has both: the number of rows does not fit the number of blocks, or a byte beside it or behind the last row is not
/// zero. What stands between the two blocks is not judged. The set's blocks were born in the transaction group `birth` or
/// before. The disks that are named are taken as missing.
pub fn read_end<D: Disk + Drop>(
    set: &ObjectSet,
    store: &mut BlockStore<D>,
    alloc: Global,
    kind: TableKind,
    number: u64,
    birth: u64,
    missing: &[usize],
) -> Result<TableEnd, Refusal>
    requires set { FitsObjectSet set.now }
    requires shape { FitsShape kind.rows }
    ensures reads { OnlyReadsBlocks store.old store.new missing.now }
    ensures value { IfOk result (λ end. (stored : Contents) (objects : ℕ → Option Object)
        (own : List Block) (blocks : ℕ → List Block) → Holds store.old stored
        → AreObjects stored birth set.now objects own blocks
        → AnswersTell store.old store.new missing.now
        → (rows : List ℕ) → HasTable kind (objects number) rows
        → IsEndOf kind (objects number) rows end) }

    // Whatever the set is: what was read, and on a refusal its cause.
    ensures found { IfOk result (IsEndFound store.old.spaces set.now birth kind number) }
    ensures refused { IfErr result (λ refusal. (refusal ≡ Refusal.NoMemory)
        ⊎ IsEndRefused store.old store.new missing.now set.now birth kind number refusal) }
    ensures caused { IfErr result (IsCaused store.old store.new missing.now) }
    ensures cause { IfErr result (λ refusal. refusal ≢ Refusal.NoSpace) }

    // And it is read, over disks whose answers tell, unless too many disks miss of a block.
    ensures known { IfErr result (λ refusal. (stored : Contents) (objects : ℕ → Option Object)
        (own : List Block) (blocks : ℕ → List Block) → Holds store.old stored
        → AreObjects stored birth set.now objects own blocks
        → AnswersTell store.old store.new missing.now
        → IsForLoss refusal ⊎ ((refusal ≡ Refusal.BadPointer)
        × ((rows : List ℕ) → ¬ HasTable kind (objects number) rows))) }
{
    let count = block_count(set, store, alloc, kind, number, birth, missing)?;
    let highest = count - 1;
    let (first, last) = read_ends(set, store, alloc, number, highest, birth, missing)?;
    end_of(kind.rows, highest, first, last)
}

/// The bytes of an object's first block and of the last one. `BadPointer` where one of them is a hole.
fn read_ends<D: Disk + Drop>(
    set: &ObjectSet,
    store: &mut BlockStore<D>,
    alloc: Global,
    number: u64,
    highest: u64,
    birth: u64,
    missing: &[usize],
) -> Result<(Vec<u8>, Vec<u8>), Refusal>
    requires { FitsObjectSet set.now }
    ensures reads { OnlyReadsBlocks store.old store.new missing.now }
    ensures same { IfOk result (λ ends. highest ≡ 0 → ends.1.items ≡ ends.0.items) }
    ensures value { IfOk result (λ ends. (stored : Contents) (objects : ℕ → Option Object)
        (own : List Block) (blocks : ℕ → List Block) → Holds store.old stored
        → AreObjects stored birth set.now objects own blocks
        → AnswersTell store.old store.new missing.now
        → (there : Object) → objects number ≡ Some there
        → (there.array 0 ≡ Some ends.0.items) × (there.array highest ≡ Some ends.1.items)) }
    ensures found { IfOk result (λ ends.
        IsDataFound store.old.spaces set.now birth number 0 (Some ends.0.items)
        × IsDataFound store.old.spaces set.now birth number highest (Some ends.1.items)) }
    ensures refused { IfErr result (λ refusal. (refusal ≡ Refusal.NoMemory)
        ⊎ IsEndBlockRefused store.old store.new missing.now set.now birth number highest refusal) }
    ensures caused { IfErr result (IsCaused store.old store.new missing.now) }
    ensures cause { IfErr result (λ refusal. refusal ≢ Refusal.NoSpace) }
    ensures known { IfErr result (λ refusal. (stored : Contents) (objects : ℕ → Option Object)
        (own : List Block) (blocks : ℕ → List Block) → Holds store.old stored
        → AreObjects stored birth set.now objects own blocks
        → AnswersTell store.old store.new missing.now
        → (there : Object) → objects number ≡ Some there
        → IsForLoss refusal ⊎ ((refusal ≡ Refusal.BadPointer)
        × ((there.array 0 ≡ None) ⊎ (there.array highest ≡ None)))) }
{
    let first = read_block(set, store, alloc, number, 0, birth, missing)?;
    if highest == 0 {
        let last = Vec::from_slice(alloc, &first)?;
        return Ok((first, last));
    }
    let last = read_block(set, store, alloc, number, highest, birth, missing)?;
    Ok((first, last))
}

/// The bytes of a block of an object. `BadPointer` where it is a hole.
fn read_block<D: Disk + Drop>(
    set: &ObjectSet,
    store: &mut BlockStore<D>,
    alloc: Global,
    number: u64,
    id: u64,
    birth: u64,
    missing: &[usize],
) -> Result<Vec<u8>, Refusal>
    requires { FitsObjectSet set.now }
    ensures reads { OnlyReadsBlocks store.old store.new missing.now }
    ensures value { IfOk result (λ bytes. (stored : Contents) (objects : ℕ → Option Object)
        (own : List Block) (blocks : ℕ → List Block) → Holds store.old stored
        → AreObjects stored birth set.now objects own blocks
        → AnswersTell store.old store.new missing.now
        → (there : Object) → objects number ≡ Some there → there.array id ≡ Some bytes.items) }
    ensures found { IfOk result (λ bytes.
        IsDataFound store.old.spaces set.now birth number id (Some bytes.items)) }
    ensures refused { IfErr result (λ refusal. ((refusal ≡ Refusal.BadPointer)
        × IsDataFound store.old.spaces set.now birth number id None)
        ⊎ IsDataRefused store.old store.new missing.now set.now birth number id refusal) }
    ensures caused { IfErr result (IsCaused store.old store.new missing.now) }
    ensures cause { IfErr result (λ refusal. refusal ≢ Refusal.NoSpace) }
    ensures known { IfErr result (λ refusal. (stored : Contents) (objects : ℕ → Option Object)
        (own : List Block) (blocks : ℕ → List Block) → Holds store.old stored
        → AreObjects stored birth set.now objects own blocks
        → AnswersTell store.old store.new missing.now
        → (there : Object) → objects number ≡ Some there
        → IsForLoss refusal ⊎ ((refusal ≡ Refusal.BadPointer) × (there.array id ≡ None))) }
{
    let found = objset::get(set, store, alloc, number, id, birth, missing)?;
    let Some(bytes) = found else {
        return Err(Refusal::BadPointer);
    };
    Ok(bytes)
}

/// The end of a table with this first and this last block. `BadPointer` where no table has them.
fn end_of(shape: RowShape, highest: u64, first: Vec<u8>, last: Vec<u8>) -> Result<TableEnd, Refusal>
    requires shape { FitsShape shape }
    requires few { highest < 128 ^ 5 }
    requires same { highest ≡ 0 → last.items ≡ first.items }
    ensures kept { IfOk result (λ end.
        (end.first.items ≡ first.items) × (end.last.items ≡ last.items)) }
    ensures found { IfOk result (λ end.
        AreEndsOfSome shape highest end.rows first.items last.items) }
    ensures only { (count : ℕ) → AreEndsOfSome shape highest count first.items last.items
        → IfOk result (λ end. end.rows ≡ count) }
    ensures refused { IfErr result (λ refusal. (refusal ≡ Refusal.BadPointer)
        × ((count : ℕ) → ¬ AreEndsOfSome shape highest count first.items last.items)) }
{
    match rows_between(shape, highest, &first, &last) {
        Some(rows) => Ok(TableEnd { rows, first, last }),
        None => Err(Refusal::BadPointer),
    }
}

/// How many rows a table has with this first and this last block, if one has them.
fn rows_between(shape: RowShape, highest: u64, first: &[u8], last: &[u8]) -> Option<u64>
    requires shape { FitsShape shape }
    requires few { highest < 128 ^ 5 }
    requires same { highest ≡ 0 → last.now ≡ first.now }
    ensures found { IfSome result (λ count.
        AreEndsOfSome shape highest count first.now last.now) }
    ensures only { (count : ℕ) → AreEndsOfSome shape highest count first.now last.now
        → result ≡ Some count }
{
    if first.len() != BLOCK_LEN || last.len() != BLOCK_LEN {
        return None;
    }
    let (word, blank) = first[..shape.first_len].split_at(WORD_LEN);
    let count = number_of(word);
    let start = highest as usize * BLOCK_LEN;
    if count > (start + BLOCK_LEN) as u64 {
        return None;
    }
    let place = shape.first_len + count as usize * shape.row_len;
    if place <= start || place > start + BLOCK_LEN {
        return None;
    }
    if !is_zero(blank) || !is_zero(&last[place - start..]) {
        return None;
    }
    Some(count)
}
