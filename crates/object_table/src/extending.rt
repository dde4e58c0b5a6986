//! Tables get more rows.
ghost use Rattle.std.specs.Prelude.{◌≡◌, ◌+◌, ◌*◌, ◌/◌, ◌^◌, ◌<◌, ◌≤◌, ◌↔◌, ◌∷◌, [], ◌++◌, List, ℕ, Some, length, drop, IsTrue, IfOk, IfErr, OnOk};
ghost use Rattle.objset.specs.Changes.{IsGoodChange, MayChange, after_change};
ghost use Rattle.objset.specs.Objects.{Object};
ghost use Rattle.words.specs.Words.{word_bytes};
ghost use Rattle.object_table.specs.Ends.{IsEndOf};
ghost use Rattle.object_table.specs.Extended.{AreEndWrites, AreTailBytes, AreTailWrites, HasRoomFor, IsExtension};
ghost use Rattle.object_table.specs.Shape.{FitsShape, AreRows};
ghost use Rattle.object_table.specs.Tables.{IsOfKind, HasTable};

use crate::ends::TableEnd;
use crate::kind::TableKind;
use crate::making::blocks_of;
use crate::refusal::Refusal;
use crate::rows::{BLOCK_LEN, put};
use crate::shape::RowShape;
use objset::{BlockWrite, Change};
use std::alloc::{AllocError, Global};

/// A table has less than 2^46 bytes of rows.
const ROWS_END: usize = 1 << 46;

/// The change of an object set that adds these rows behind those of a table, of which the end is known: `read` finds the old
/// rows and then these. The first block is written, which has the number of rows, and the blocks from the one on in which the
/// new rows begin. `NoMemory` is the only error, also where the table would have 2^46 bytes of rows or the end is that of no
/// table.
pub fn extension(
    alloc: Global,
    kind: TableKind,
    end: &TableEnd,
    rows: &[u8],
) -> Result<Change, Refusal>
    requires shape { FitsShape kind.rows }
    requires rows { AreRows kind.rows (length rows.now / kind.rows.row_len) rows.now }
    requires some { 0 < length rows.now }
    ensures good { IfOk result IsGoodChange }
    ensures writes { IfOk result (IsExtension kind.rows end.now.rows) }
    ensures may { IfOk result (λ change. (object : Object) → IsOfKind kind object
        → MayChange change (Some object)) }
    ensures made { IfOk result (λ change. (object : Object) (old : List ℕ)
        → IsEndOf kind (Some object) old end.now
        → HasTable kind (after_change change (Some object)) (old ++ rows.now)) }
    ensures refused { IfErr result (λ refusal. refusal ≡ Refusal.NoMemory) }
{
    if !has_room(kind.rows, end, rows) {
        return Err(Refusal::NoMemory);
    }
    let count = end.rows + (rows.len() / kind.rows.row_len) as u64;
    let first = counted(alloc, &end.first, count)?;
    let place = kind.rows.first_len + end.rows as usize * kind.rows.row_len;
    let writes = end_writes(alloc, first, &end.last, place, rows)?;
    Ok(Change::Put { writes })
}

/// Whether rows may be added to a table with this end.
fn has_room(shape: RowShape, end: &TableEnd, rows: &[u8]) -> bool
    requires { FitsShape shape }
    ensures { IsTrue result ↔ HasRoomFor shape end.now rows.now }
{
    end.first.len() == BLOCK_LEN
        && end.last.len() == BLOCK_LEN
        && end.rows < ROWS_END as u64
        && end.rows as usize * shape.row_len + rows.len() < ROWS_END
}

/// The first block of a table, with another number of rows.
fn counted(alloc: Global, first: &[u8], count: u64) -> Result<Vec<u8>, AllocError>
    requires { 8 ≤ length first.now }
    ensures { IfOk result (λ bytes.
        bytes.items ≡ word_bytes (count ∷ []) ++ drop 8 first.now) }
{
    let mut bytes = Vec::from_slice(alloc, first)?;
    put(bytes.as_mut_slice(), 0, &count.to_le_bytes());
    Ok(bytes)
}

/// The writes of the first block and of those from the one on in which the old rows end, at that place.
fn end_writes(
    alloc: Global,
    first: Vec<u8>,
    last: &[u8],
    place: usize,
    rows: &[u8],
) -> Result<Vec<BlockWrite>, Refusal>
    requires first { length first.items ≡ 4096 }
    requires last { length last.now ≡ 4096 }
    requires few { place + length rows.now < 2 ^ 46 + 4096 }
    ensures made { IfOk result (λ writes.
        AreEndWrites first last.now place rows.now writes.items) }
    ensures refused { IfErr result (λ refusal. refusal ≡ Refusal.NoMemory) }
{
    let mut writes = tail_writes(alloc, &first, last, place, rows)?;
    if place >= BLOCK_LEN {
        put_first(&mut writes, first)?;
    }
    Ok(writes)
}

/// Puts the write of block 0 before the others.
fn put_first(writes: &mut Vec<BlockWrite>, bytes: Vec<u8>) -> Result<(), AllocError>
    ensures { OnOk result (writes.new.items
        ≡ (record { id = 0; bytes = bytes }) ∷ writes.old.items) }
{
    writes.insert(0, BlockWrite { id: 0, bytes })?;
    Ok(())
}

/// The writes of the blocks from the one on in which the old rows end, which is the first one or the last one.
fn tail_writes(
    alloc: Global,
    first: &[u8],
    last: &[u8],
    place: usize,
    rows: &[u8],
) -> Result<Vec<BlockWrite>, Refusal>
    requires first { length first.now ≡ 4096 }
    requires last { length last.now ≡ 4096 }
    requires few { place + length rows.now < 2 ^ 46 + 4096 }
    ensures made { IfOk result (λ writes.
        AreTailWrites first.now last.now place rows.now writes.items) }
    ensures refused { IfErr result (λ refusal. refusal ≡ Refusal.NoMemory) }
{
    let block = block_at(first, last, place);
    let bytes = tail_of(alloc, &block[..place % BLOCK_LEN], rows)?;
    Ok(blocks_of(alloc, (place / BLOCK_LEN) as u64, &bytes)?)
}

/// The block in which a place within the first block is, or else the last block.
fn block_at<'a>(first: &'a [u8], last: &'a [u8], place: usize) -> &'a [u8]
    ensures first { place < 4096 → result.now ≡ first.now }
    ensures last { 4096 ≤ place → result.now ≡ last.now }
{
    if place < BLOCK_LEN { first } else { last }
}

/// Whole blocks of what stood at the front of the first of them, the rows behind it, and zeros.
fn tail_of(alloc: Global, front: &[u8], rows: &[u8]) -> Result<Vec<u8>, AllocError>
    requires { length front.now + length rows.now < 2 ^ 47 }
    ensures { IfOk result (λ bytes. AreTailBytes front.now rows.now bytes.items) }
{
    let len = front.len() + rows.len();
    let zeros = vec![in alloc; 0; len.div_ceil(BLOCK_LEN) * BLOCK_LEN - len]?;
    let mut bytes = Vec::from_slice(alloc, front)?;
    bytes.extend_from_slice(rows)?;
    bytes.extend_from_slice(&zeros)?;
    Ok(bytes)
}
