//! Rows as the bytes of whole blocks.
ghost use Rattle.std.specs.Prelude.{◌≡◌, ◌↔◌, ◌+◌, ◌-◌, ◌/◌, ◌^◌, ◌<◌, ◌≤◌, ◌∷◌, [], ◌++◌, ℕ, List, length, take, drop, replicate, IsTrue, IfOk, IfErr, IfSome, IsSomeAnd, IsErrOf};
ghost use Rattle.words.specs.Words.{word_bytes};
ghost use Rattle.object_table.specs.Rows.{SpellsRows};
ghost use Rattle.object_table.specs.Shape.{FitsShape, AreRows};

use crate::refusal::Refusal;
use crate::shape::RowShape;
use std::alloc::Global;
use words::read_words;

/// How many bytes a block of a table has: 8 sectors of 512.
pub const BLOCK_LEN: usize = 4096;

/// How many bytes a word has.
pub(crate) const WORD_LEN: usize = 8;

/// The one spelling of rows, which stand one after the other, in whole blocks.
pub fn encode(alloc: Global, shape: RowShape, rows: &[u8]) -> Result<Vec<u8>, Refusal>
    requires shape { FitsShape shape }
    requires rows { AreRows shape (length rows.now / shape.row_len) rows.now }
    requires few { length rows.now < 2 ^ 47 }
    ensures spells { IfOk result (λ bytes. SpellsRows shape bytes.items rows.now) }
    ensures refused { IfErr result (λ refusal. refusal ≡ Refusal.NoMemory) }
{
    let end = shape.first_len + rows.len();
    let mut bytes = vec![in alloc; 0; end.div_ceil(BLOCK_LEN) * BLOCK_LEN]?;
    put_rows(bytes.as_mut_slice(), shape, rows);
    Ok(bytes)
}

/// Puts rows, and their number, into zeros.
fn put_rows(bytes: &mut [u8], shape: RowShape, rows: &[u8])
    requires shape { FitsShape shape }
    requires room { shape.first_len + length rows.now ≤ length bytes.old }
    requires zeros { bytes.old ≡ replicate (length bytes.old) 0 }
    ensures { bytes.new ≡ word_bytes (length rows.now / shape.row_len ∷ []) ++
        (replicate (shape.first_len - 8) 0
        ++ (rows.now ++ replicate (length bytes.old - (shape.first_len + length rows.now)) 0)) }
{
    let count = (rows.len() / shape.row_len) as u64;
    put(bytes, 0, &count.to_le_bytes());
    put(bytes, shape.first_len, rows);
}

/// Writes a field.
pub(crate) fn put(bytes: &mut [u8], at: usize, field: &[u8])
    requires { at + length field.now ≤ length bytes.old }
    ensures { bytes.new ≡ take at bytes.old ++ (field.now ++ drop
        (at + length field.now) bytes.old) }
{
    bytes[at..at + field.len()].copy_from_slice(field);
}

/// The rows that the bytes spell, one after the other. `BadPointer` where they spell none.
pub fn decode(alloc: Global, shape: RowShape, bytes: &[u8]) -> Result<Vec<u8>, Refusal>
    requires { FitsShape shape }
    // What is found is spelled so, each byte of it.
    ensures found { IfOk result (λ rows. SpellsRows shape bytes.now rows.items) }
    // What is spelled so is found, while there is memory.
    ensures only { (rows : List ℕ) → SpellsRows shape bytes.now rows
        → IfOk result (λ found. found.items ≡ rows) }
    ensures bad { IsErrOf result Refusal.BadPointer → (rows : List ℕ)
        → ¬ SpellsRows shape bytes.now rows }
{
    let Some(rows) = rows_in(shape, bytes) else {
        return Err(Refusal::BadPointer);
    };
    Ok(Vec::from_slice(alloc, rows)?)
}

/// Where the rows stand in the bytes that spell them.
fn rows_in(shape: RowShape, bytes: &[u8]) -> Option<&[u8]>
    requires { FitsShape shape }
    ensures found { IfSome result (λ rows. SpellsRows shape bytes.now rows.now) }
    ensures only { (rows : List ℕ) → SpellsRows shape bytes.now rows
        → IsSomeAnd result (λ found. found.now ≡ rows) }
{
    if bytes.len() < shape.first_len || bytes.len() % BLOCK_LEN != 0 {
        return None;
    }
    let (first, rest) = bytes.split_at(shape.first_len);
    let (word, blank) = first.split_at(WORD_LEN);
    let count = number_of(word);
    if count > (rest.len() / shape.row_len) as u64 {
        return None;
    }
    let (rows, zeros) = rest.split_at(count as usize * shape.row_len);
    if zeros.len() >= BLOCK_LEN || !is_zero(blank) || !is_zero(zeros) {
        return None;
    }
    Some(rows)
}

/// The number that a word's bytes spell.
pub(crate) fn number_of(word: &[u8]) -> u64
    requires { length word.now ≡ 8 }
    ensures found { word.now ≡ word_bytes (result ∷ []) }
    ensures only { (number : ℕ) → number < 2 ^ 64 → word.now ≡ word_bytes (number ∷ [])
        → result ≡ number }
{
    let mut words = [0];
    read_words(word, &mut words);
    words[0]
}

pub(crate) fn is_zero(bytes: &[u8]) -> bool
    ensures { IsTrue result ↔ (bytes.now ≡ replicate (length bytes.now) 0) }
{
    bytes.iter().all(|byte| *byte == 0)
}
