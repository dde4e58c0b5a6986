//! Rows of four words.
ghost use Rattle.std.specs.Prelude.{◌≡◌, ◌<◌, ◌++◌, ℕ, List, length, IfOk, IfErr, IsOkAnd, OnOk};
ghost use Rattle.words.specs.Words.{AreWords, word_bytes};

use object_table::{Refusal, RowShape};
use std::alloc::AllocError;
use words::{read_words, write_words};

/// How many bytes a row has.
const ROW_LEN: usize = 32;

pub(crate) const SHAPE: RowShape = RowShape {
    first_len: ROW_LEN,
    row_len: ROW_LEN,
};

/// Adds the bytes of a row's words to bytes.
pub(crate) fn push_words(bytes: &mut Vec<u8>, words: &[u64; 4]) -> Result<(), AllocError>
    ensures { OnOk result (bytes.new.items ≡ bytes.old.items ++ word_bytes words.now) }
{
    let mut row = [0; ROW_LEN];
    write_words(words, &mut row);
    bytes.extend_from_slice(&row)?;
    Ok(())
}

/// The words at the front of bytes, and the bytes after them.
pub(crate) fn first_words(bytes: &[u8]) -> Result<([u64; 4], &[u8]), Refusal>
    ensures fit { IfOk result (λ found. AreWords found.0) }
    ensures found { IfOk result (λ found. bytes.now ≡ word_bytes found.0 ++ found.1.now) }
    ensures shorter { IfOk result (λ found. length found.1.now < length bytes.now) }
    ensures only { (words rest : List ℕ) → AreWords words → length words ≡ 4
        → bytes.now ≡ word_bytes words ++ rest
        → IsOkAnd result (λ found. (found.0 ≡ words) × (found.1.now ≡ rest)) }
    ensures refused { IfErr result (λ refusal. refusal ≡ Refusal.BadPointer) }
{
    let Some((first, rest)) = bytes.split_first_chunk::<32>() else {
        return Err(Refusal::BadPointer);
    };
    let mut words = [0; 4];
    read_words(first, &mut words);
    Ok((words, rest))
}
