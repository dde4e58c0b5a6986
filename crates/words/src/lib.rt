//! What the formats on disk share: fields of bytes, words of 64 bits and zeros, the seal at the end of
//! an area, and where counts end.
#![tactic(auto)]

mod fields;
mod reading;
mod sealing;

pub use fields::{bytes_at, is_zero, put, put_words, word_at, words_at};
pub use reading::{read_words, write_words};
pub use sealing::{SEAL_LEN, SealFault, check_seal, seal};

/// The last group, and the last claim.
pub const LAST_COUNT: u64 = 1 << 62;
