//! Dead lists are made.
ghost use Rattle.std.specs.Prelude.{◌≡◌, ◌/◌, ◌^◌, ◌<◌, ◌++◌, ℕ, List, Some, None, All, IsPermutation, length, IfOk, IfErr};
ghost use Rattle.block_pointer.specs.declared.block.Block.{Block};
ghost use Rattle.block_pointer.specs.Block.{FitsBlock};
ghost use Rattle.dead_list.specs.Rows.{SpellsList};
ghost use Rattle.objset.specs.Changes.{IsGoodChange, MayChange, after_change};
ghost use Rattle.objset.specs.Objects.{Object};
ghost use Rattle.object_table.specs.Ends.{IsEndOf};
ghost use Rattle.object_table.specs.Extended.{IsExtension};
ghost use Rattle.object_table.specs.Shape.{AreRows};
ghost use Rattle.object_table.specs.Tables.{IsOfKind};
ghost use Rattle.dead_list_objects.specs.Lists.{dead_list_kind, HasDeadList};

use crate::kind::DEAD_LIST_KIND;
use crate::refusal::Refusal;
use block_pointer::Block;
use dead_list::DeadList;
use object_table::TableEnd;
use objset::Change;
use std::alloc::{AllocError, Global};

/// A table has less than 2^46 bytes of rows.
const ROWS_END: usize = 1 << 46;

/// The change of an object set that makes the object of a dead list: `read_dead_list` finds it. `NoMemory` is the only error,
/// also where the rows would have 2^46 bytes.
pub fn creation(alloc: Global, list: &DeadList) -> Result<Change, Refusal>
    requires { All FitsBlock list.now }
    ensures good { IfOk result IsGoodChange }
    ensures made { IfOk result (λ change. HasDeadList (after_change change None) list.now) }
    ensures refused { IfErr result (λ refusal. refusal ≡ Refusal.NoMemory) }
{
    let rows = rows_of(alloc, list)?;
    match object_table::creation(alloc, DEAD_LIST_KIND, &rows) {
        Ok(change) => Ok(change),
        Err(_) => Err(Refusal::NoMemory),
    }
}

/// The change of an object set that writes a dead list's object anew: it has this list. The object is there, with the type and
/// the blocks of a dead list's. `NoMemory` is the only error, as in `creation`.
pub fn replacement(alloc: Global, list: &DeadList) -> Result<Change, Refusal>
    requires { All FitsBlock list.now }
    ensures good { IfOk result IsGoodChange }
    ensures may { IfOk result (λ change. (object : Object) → IsOfKind dead_list_kind object
        → MayChange change (Some object)) }
    ensures made { IfOk result (λ change. (object : Object) → IsOfKind dead_list_kind object
        → HasDeadList (after_change change (Some object)) list.now) }
    ensures refused { IfErr result (λ refusal. refusal ≡ Refusal.NoMemory) }
{
    let rows = rows_of(alloc, list)?;
    match object_table::replacement(alloc, DEAD_LIST_KIND, &rows) {
        Ok(change) => Ok(change),
        Err(_) => Err(Refusal::NoMemory),
    }
}

/// The change of an object set that adds blocks to a dead list, of whose object the end is known (`read_dead_list_end`): it has
/// the old blocks and these. The first block of the list's object is written, and the blocks from the one on in which the new
/// rows begin. `NoMemory` is the only error, also where the rows would have 2^46 bytes or the end is that of no dead list.
pub fn extension(alloc: Global, end: &TableEnd, blocks: &[Block]) -> Result<Change, Refusal>
    requires fit { All FitsBlock blocks.now }
    requires some { 0 < length blocks.now }
    ensures good { IfOk result IsGoodChange }
    ensures writes { IfOk result (IsExtension dead_list_kind.rows end.now.rows) }
    ensures may { IfOk result (λ change. (object : Object) → IsOfKind dead_list_kind object
        → MayChange change (Some object)) }
    ensures made { IfOk result (λ change. (object : Object) (rows : List ℕ) (list : List Block)
        → IsEndOf dead_list_kind (Some object) rows end.now → SpellsList rows list
        → HasDeadList (after_change change (Some object)) (list ++ blocks.now)) }
    ensures refused { IfErr result (λ refusal. refusal ≡ Refusal.NoMemory) }
{
    let list = list_of(alloc, blocks)?;
    let rows = rows_of(alloc, &list)?;
    match object_table::extension(alloc, DEAD_LIST_KIND, end, &rows) {
        Ok(change) => Ok(change),
        Err(_) => Err(Refusal::NoMemory),
    }
}

/// A list of these blocks.
fn list_of(alloc: Global, blocks: &[Block]) -> Result<DeadList, AllocError>
    ensures { IfOk result (IsPermutation blocks.now) }
{
    let mut list = DeadList::new(alloc);
    for block in blocks {
        list.push(*block)?;
    }
    Ok(list)
}

/// The rows of a list.
fn rows_of(alloc: Global, list: &DeadList) -> Result<Vec<u8>, Refusal>
    requires { All FitsBlock list.now }
    ensures list { IfOk result (λ rows. SpellsList rows.items list.now) }
    ensures rows { IfOk result (λ rows.
        AreRows dead_list_kind.rows (length rows.items / 128) rows.items) }
    ensures few { IfOk result (λ rows. length rows.items < 2 ^ 46) }
    ensures refused { IfErr result (λ refusal. refusal ≡ Refusal.NoMemory) }
{
    let rows = list.encode(alloc)?;
    if rows.len() >= ROWS_END {
        return Err(Refusal::NoMemory);
    }
    Ok(rows)
}
