//! The fields of a block: bytes, words and zeros.
ghost use Rattle.std.specs.Prelude.{◌≡◌, ◌==◌, ◌↔◌, ℕ, ◌+◌, ◌*◌, ◌≤◌, ◌<◌, ◌^◌, List, [], ◌∷◌, ◌++◌, length, take, drop, replicate, IsTrue};
ghost use Rattle.std.specs.List.{list_all};
ghost use Rattle.words.specs.Words.{AreWords, word_bytes};

use crate::reading::{read_words, write_words};

/// The bytes of a field.
pub fn bytes_at<const N: usize>(block: &[u8], at: usize) -> [u8; N]
    requires { at + N ≤ length block.now }
    ensures { result ≡ take N (drop at block.now) }
{
    let mut bytes = [0; N];
    bytes.copy_from_slice(&block[at..at + N]);
    bytes
}

/// The word of a field, its lowest byte first.
pub fn word_at(block: &[u8], at: usize) -> u64
    requires { at + 8 ≤ length block.now }
    ensures found { take 8 (drop at block.now) ≡ word_bytes (result ∷ []) }
    ensures only { (word : ℕ) → word < 2 ^ 64
        → take 8 (drop at block.now) ≡ word_bytes (word ∷ []) → result ≡ word }
{
    let mut words = [0];
    read_words(&block[at..at + 8], &mut words);
    words[0]
}

/// The words of a field, the lowest byte of each first.
pub fn words_at<const N: usize>(block: &[u8], at: usize) -> [u64; N]
    requires { at + 8 * N ≤ length block.now }
    ensures words { AreWords result }
    ensures found { take (8 * N) (drop at block.now) ≡ word_bytes result }
    ensures only { (words : List ℕ) → AreWords words
        → take (8 * N) (drop at block.now) ≡ word_bytes words → result ≡ words }
{
    let mut words = [0; N];
    read_words(&block[at..at + 8 * N], &mut words);
    words
}

/// Whether each byte is zero.
pub fn is_zero(bytes: &[u8]) -> bool
    ensures all { result ≡ list_all (λ b. b == 0) bytes.now }
    ensures zeros { IsTrue result ↔ (bytes.now ≡ replicate (length bytes.now) 0) }
{
    bytes.iter().all(|byte| *byte == 0)
}

/// Writes a field.
pub fn put(block: &mut [u8], at: usize, field: &[u8])
    requires { at + length field.now ≤ length block.old }
    ensures { block.new ≡ take at block.old ++ (field.now
        ++ drop (at + length field.now) block.old) }
{
    block[at..at + field.len()].copy_from_slice(field);
}

/// Writes a field of words, the lowest byte of each first.
pub fn put_words(block: &mut [u8], at: usize, words: &[u64])
    requires { at + 8 * length words.now ≤ length block.old }
    ensures { block.new ≡ take at block.old ++ (word_bytes words.now
        ++ drop (at + 8 * length words.now) block.old) }
{
    write_words(words, &mut block[at..at + 8 * words.len()]);
}
