//! Tables are made.
ghost use Rattle.std.specs.Prelude.{◌≡◌, ◌++◌, ◌+◌, ◌*◌, ◌/◌, ◌%◌, ◌^◌, ◌<◌, ◌∷◌, [], Some, None, length, IfOk, IfErr, OnOk};
ghost use Rattle.objset.specs.Changes.{IsGoodChange, MayChange, after_change};
ghost use Rattle.objset.specs.Objects.{Object};
ghost use Rattle.object_table.specs.Made.{AreBlocksOf, AreTableWrites};
ghost use Rattle.object_table.specs.Shape.{FitsShape, AreRows};
ghost use Rattle.object_table.specs.Tables.{IsOfKind, HasTable};

use crate::kind::TableKind;
use crate::reading::BLOCK_SECTORS;
use crate::refusal::Refusal;
use crate::rows::{BLOCK_LEN, encode};
use crate::shape::RowShape;
use objset::{BlockWrite, Change};
use std::alloc::{AllocError, Global};

/// The change of an object set that makes the object of a table with these rows: `read` finds them. `NoMemory` is its only
/// error.
pub fn creation(alloc: Global, kind: TableKind, rows: &[u8]) -> Result<Change, Refusal>
    requires used { 0 < kind.object_type }
    requires shape { FitsShape kind.rows }
    requires rows { AreRows kind.rows (length rows.now / kind.rows.row_len) rows.now }
    requires few { length rows.now < 2 ^ 46 }
    ensures good { IfOk result IsGoodChange }
    ensures made { IfOk result (λ change. HasTable kind (after_change change None) rows.now) }
    ensures refused { IfErr result (λ refusal. refusal ≡ Refusal.NoMemory) }
{
    Ok(Change::Create {
        object_type: kind.object_type,
        data_sectors: BLOCK_SECTORS,
        writes: writes_of(alloc, kind.rows, rows)?,
    })
}

/// The change of an object set that writes the object of a table anew, with these rows alone: `read` finds them. The object
/// is there, with the table's type and blocks of 8 sectors. `NoMemory` is the only error.
pub fn replacement(alloc: Global, kind: TableKind, rows: &[u8]) -> Result<Change, Refusal>
    requires shape { FitsShape kind.rows }
    requires rows { AreRows kind.rows (length rows.now / kind.rows.row_len) rows.now }
    requires few { length rows.now < 2 ^ 46 }
    ensures good { IfOk result IsGoodChange }
    ensures may { IfOk result (λ change. (object : Object) → IsOfKind kind object
        → MayChange change (Some object)) }
    ensures made { IfOk result (λ change. (object : Object) → IsOfKind kind object
        → HasTable kind (after_change change (Some object)) rows.now) }
    ensures refused { IfErr result (λ refusal. refusal ≡ Refusal.NoMemory) }
{
    let writes = writes_of(alloc, kind.rows, rows)?;
    Ok(Change::Replace { writes })
}

/// The blocks of a table with these rows.
fn writes_of(alloc: Global, shape: RowShape, rows: &[u8]) -> Result<Vec<BlockWrite>, Refusal>
    requires shape { FitsShape shape }
    requires rows { AreRows shape (length rows.now / shape.row_len) rows.now }
    requires few { length rows.now < 2 ^ 46 }
    ensures made { IfOk result (λ writes. AreTableWrites shape rows.now writes.items) }
    ensures refused { IfErr result (λ refusal. refusal ≡ Refusal.NoMemory) }
{
    let bytes = encode(alloc, shape, rows)?;
    Ok(blocks_of(alloc, 0, &bytes)?)
}

/// The blocks of a table's bytes, in the order of their ids, which begin at the first.
pub(crate) fn blocks_of(
    alloc: Global,
    first: u64,
    bytes: &[u8],
) -> Result<Vec<BlockWrite>, AllocError>
    requires whole { length bytes.now % 4096 ≡ 0 }
    requires few { first * 4096 + length bytes.now < 2 ^ 47 }
    ensures { IfOk result (λ writes.
        AreBlocksOf first bytes.now (length bytes.now / 4096) writes.items) }
{
    let mut writes = Vec::new(alloc);
    for place in 0..bytes.len() / BLOCK_LEN {
        let at = place * BLOCK_LEN;
        let block = Vec::from_slice(alloc, &bytes[at..at + BLOCK_LEN])?;
        push(&mut writes, first + place as u64, block)?;
    }
    Ok(writes)
}

/// Adds the write of a block to a list.
fn push(writes: &mut Vec<BlockWrite>, id: u64, bytes: Vec<u8>) -> Result<(), AllocError>
    ensures { OnOk result (writes.new.items
        ≡ writes.old.items ++ (record { id = id; bytes = bytes }) ∷ []) }
{
    writes.push(BlockWrite { id, bytes })?;
    Ok(())
}
