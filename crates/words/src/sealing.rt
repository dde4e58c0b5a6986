ghost use Rattle.std.specs.Prelude.{◌≡◌, ◌≢◌, ◌↔◌, ℕ, ◌-◌, ◌≤◌, ◌++◌, List, length, take, drop, replicate, IsTrue, IfOk, IsOkAnd, IsErrOf};
ghost use Rattle.sha2.specs.Sha256.{sha256};
ghost use Rattle.words.specs.Seal.{seal_word, sealed};

use sha2::{Digest, Sha256};
use thiserror::Error;

/// How many bytes a seal has: a word of eight, and a digest of 32.
pub const SEAL_LEN: usize = 40;

const DIGEST_LEN: usize = 32;

/// The word of a seal, which the ZFS On-Disk Specification (2006) has in each label.
const SEAL_WORD: u64 = 0x0210_da7a_b10c_7a11;

/// What is wrong with a seal.
#[derive(Clone, Copy, Debug, PartialEq, Eq, Error)]
pub enum SealFault {
    #[error("the word of the seal is another")]
    Word,
    #[error("the digest of the area is another")]
    Digest,
}

/// The SHA-256 (FIPS 180-4) of an area with zeros where its digest stands.
fn seal_digest(front: &[u8]) -> [u8; 32]
    ensures { result ≡ sha256 (front.now ++ replicate 32 0) }
{
    let mut hasher = Sha256::new();
    hasher.update(front);
    hasher.update([0; DIGEST_LEN].as_slice());
    hasher.finalize()
}

fn is_seal_word(word: &[u8]) -> bool
    ensures { IsTrue result ↔ (word.now ≡ seal_word) }
{
    word == SEAL_WORD.to_le_bytes().as_slice()
}

fn is_digest_behind(digest: &[u8], front: &[u8]) -> bool
    ensures { IsTrue result ↔ (digest.now ≡ sha256 (front.now ++ replicate 32 0)) }
{
    digest == seal_digest(front).as_slice()
}

/// Writes the seal into the last 40 bytes of an area, over what stands before them. The seal's form
/// is this project's profile.
pub fn seal(area: &mut [u8])
    requires { SEAL_LEN ≤ length area.old }
    ensures { area.new ≡ sealed (take (length area.old - SEAL_LEN) area.old) }
{
    let word_at = area.len() - SEAL_LEN;
    let digest_at = area.len() - DIGEST_LEN;
    area[word_at..digest_at].copy_from_slice(&SEAL_WORD.to_le_bytes());
    let digest = seal_digest(&area[..digest_at]);
    area[digest_at..].copy_from_slice(&digest);
}

/// What stands before the seal of an area. Where both the word and the digest are others, the fault
/// is that of the word.
pub fn check_seal(area: &[u8]) -> Result<&[u8], SealFault>
    requires { SEAL_LEN ≤ length area.now }
    ensures found { IfOk result (λ front. area.now ≡ sealed front.now) }
    ensures only { (front : List ℕ) → area.now ≡ sealed front
        → IsOkAnd result (λ found. found.now ≡ front) }
    ensures word { IsErrOf result SealFault.Word
        ↔ (take 8 (drop (length area.now - SEAL_LEN) area.now) ≢ seal_word) }
{
    let (front, tail) = area.split_at(area.len() - SEAL_LEN);
    let (word, digest) = tail.split_at(SEAL_LEN - DIGEST_LEN);
    if !is_seal_word(word) {
        return Err(SealFault::Word);
    }
    if !is_digest_behind(digest, &area[..area.len() - DIGEST_LEN]) {
        return Err(SealFault::Digest);
    }
    Ok(front)
}
