//! Tries of which columns are wrong.
ghost use Rattle.std.specs.Prelude.{ℕ, ◌≡◌, ◌≤◌, ◌<◌, ◌+◌, ◌↔◌, List, [], ◌∷◌, ◌++◌, length, sum, All, IsTrue, OnOk, IfOk, IfSome, IfNone, Contains};
ghost use Rattle.sha2.specs.Sha256.{sha256};
ghost use Rattle.raidz_parity.specs.Layout.{Block, columns_of, joined};
ghost use Rattle.raidz_parity.specs.Stored.{parity_columns};
ghost use Rattle.raidz_io.specs.Places.{sizes_of};
ghost use Rattle.raidz_io.specs.Stripe.{IsStripe, stripe_sizes, read_columns, MatchesBut};
ghost use Rattle.raidz_io.specs.Choices.{IsWhole, IsFound, IsFoundChoice, HasNone, AreFurther};

use crate::places::sizes;
use crate::rebuild::{rebuilt, total};
use arrayvec::ArrayVec;
use raidz_map::Column;
use raidz_parity::{Columns, Parity};
use sha2::{Digest, Sha256};
use std::alloc::{AllocError, Global};

/// Whether the SHA-256 (FIPS 180-4) of the block is this one.
pub(crate) fn has_digest(block: &[u8], digest: &[u8; 32]) -> bool
    ensures digest { IsTrue result ↔ (sha256 block.now ≡ digest.now) }
    ensures bytes { All (λ byte. byte < 256) block.now }
{
    Sha256::digest(block) == *digest
}

/// A byte is below 256.
pub(crate) fn are_bytes(block: &[u8])
    ensures { All (λ byte. byte < 256) block.now }
{
    let _len = block.len();
}

/// The sizes of all columns, those of data first.
fn all_sizes(data: &[Column], parity: usize) -> ArrayVec<usize, 32>
    requires { IsStripe parity (sizes_of data.now) }
    ensures { result.items ≡ stripe_sizes parity (sizes_of data.now) }
{
    let mut all = sizes(data);
    let size = all.as_slice()[0];
    for _row in 0..parity {
        all.push(size);
    }
    all
}

/// Appends the parity columns, of which there are so many.
fn add_parity(whole: &mut Vec<u8>, parity: &Parity, count: usize) -> Result<(), AllocError>
    requires { count ≡ length (parity_columns parity.now) }
    ensures { OnOk result (whole.new.items
        ≡ whole.old.items ++ joined (parity_columns parity.now)) }
{
    for row in 0..count {
        whole.extend_from_slice(parity.row(row))?;
    }
    Ok(())
}

/// The bytes of a block and of its parity. The block is not copied, where it has room for them.
fn with_parity(
    alloc: Global,
    data: &[Column],
    parity: usize,
    block: Vec<u8>,
) -> Result<Vec<u8>, AllocError>
    requires stripe { IsStripe parity (sizes_of data.now) }
    requires size { length block.items ≡ sum (sizes_of data.now) }
    ensures { IfOk result (λ whole. (columns : Block)
        × IsWhole parity (sizes_of data.now) block.items columns
        × (whole.items ≡ joined (read_columns columns))) }
{
    are_bytes(&block);
    let columns = Columns::generate(alloc, parity, sizes(data), block)?;
    let (rows, mut whole) = columns.into_parts();
    add_parity(&mut whole, &rows, parity)?;
    Ok(whole)
}

/// Whether the column is the same in both, or one of the wrong ones.
fn column_agrees(wrong: &[usize], column: usize, whole: &[u8], bytes: &[u8]) -> bool
    ensures yes { IsTrue result → ¬ Contains wrong.now column → whole.now ≡ bytes.now }
    ensures no { (¬ Contains wrong.now column → whole.now ≡ bytes.now) → IsTrue result }
{
    wrong.contains(&column) || whole == bytes
}

/// Whether the columns of these sizes are the same in both, but for the wrong ones.
fn agree(sizes: &[usize], whole: &[u8], bytes: &[u8], wrong: &[usize]) -> bool
    requires whole { sum sizes.now ≡ length whole.now }
    requires bytes { sum sizes.now ≡ length bytes.now }
    ensures yes { IsTrue result
        → MatchesBut wrong.now (columns_of sizes.now whole.now) (columns_of sizes.now bytes.now) }
    ensures no { MatchesBut wrong.now (columns_of sizes.now whole.now)
        (columns_of sizes.now bytes.now) → IsTrue result }
{
    let mut whole_rest = whole;
    let mut bytes_rest = bytes;
    for (index, size) in sizes.iter().enumerate() {
        let (whole_part, whole_after) = whole_rest.split_at(*size);
        let (bytes_part, bytes_after) = bytes_rest.split_at(*size);
        if !column_agrees(wrong, index, whole_part, bytes_part) {
            return false;
        }
        whole_rest = whole_after;
        bytes_rest = bytes_after;
    }
    true
}

/// The block of columns that were read, where all but the wrong ones agree with one another and it has the
/// digest.
fn try_choice(
    alloc: Global,
    data: &[Column],
    parity: usize,
    bytes: &[u8],
    wrong: &[usize],
    digest: &[u8; 32],
) -> Result<Option<Vec<u8>>, AllocError>
    requires stripe { IsStripe parity (sizes_of data.now) }
    requires whole { length bytes.now ≡ sum (stripe_sizes parity (sizes_of data.now)) }
    requires few { length wrong.now ≤ parity }
    requires below { All (λ k. k < length data.now + parity) wrong.now }
    ensures found { IfOk result
        (λ found. IfSome found
        (λ block. IsFound digest.now parity
        (sizes_of data.now) bytes.now wrong.now block.items)) }
    ensures none { IfOk result
        (λ found. IfNone found
        (HasNone digest.now parity (sizes_of data.now) bytes.now wrong.now)) }
{
    let block = rebuilt(alloc, data, parity, bytes, wrong)?;
    let size = total(sizes(data).as_slice());
    if block.len() != size {
        return Ok(None);
    }
    let mut whole = with_parity(alloc, data, parity, block)?;
    if !agree(
        all_sizes(data, parity).as_slice(),
        whole.as_slice(),
        bytes,
        wrong,
    ) {
        return Ok(None);
    }
    whole.truncate(size);
    if has_digest(whole.as_slice(), digest) {
        Ok(Some(whole))
    } else {
        Ok(None)
    }
}

/// The wrong columns and one more.
fn with_column(wrong: &[usize], column: usize) -> ArrayVec<usize, 32>
    requires { length wrong.now < 32 }
    ensures { result.items ≡ wrong.now ++ column ∷ [] }
{
    let mut more = ArrayVec::new();
    for &column in wrong {
        more.push(column);
    }
    more.push(column);
    more
}

/// Tries each column from `from` on as wrong, beside those that are wrong already.
fn try_one_more(
    alloc: Global,
    data: &[Column],
    parity: usize,
    bytes: &[u8],
    wrong: &[usize],
    from: usize,
    digest: &[u8; 32],
) -> Result<Option<Vec<u8>>, AllocError>
    requires stripe { IsStripe parity (sizes_of data.now) }
    requires whole { length bytes.now ≡ sum (stripe_sizes parity (sizes_of data.now)) }
    requires few { length wrong.now < parity }
    requires below { All (λ k. k < length data.now + parity) wrong.now }
    ensures found { IfOk result
        (λ found. IfSome found
        (λ block. IsFoundChoice digest.now parity
        (sizes_of data.now) bytes.now wrong.now block.items)) }
    ensures none { IfOk result (λ found. IfNone found ((k : ℕ) → from ≤ k
        → k < length data.now + parity
        → HasNone digest.now parity (sizes_of data.now) bytes.now (wrong.now ++ k ∷ []))) }
{
    for column in from..data.len() + parity {
        let choice = with_column(wrong, column);
        let found = try_choice(alloc, data, parity, bytes, choice.as_slice(), digest)?;
        if let Some(block) = found {
            return Ok(Some(block));
        }
    }
    Ok(None)
}

/// Tries each two columns as wrong, beside those that are wrong already.
fn try_two_more(
    alloc: Global,
    data: &[Column],
    parity: usize,
    bytes: &[u8],
    wrong: &[usize],
    digest: &[u8; 32],
) -> Result<Option<Vec<u8>>, AllocError>
    requires stripe { IsStripe parity (sizes_of data.now) }
    requires whole { length bytes.now ≡ sum (stripe_sizes parity (sizes_of data.now)) }
    requires few { length wrong.now + 1 < parity }
    requires below { All (λ k. k < length data.now + parity) wrong.now }
    ensures found { IfOk result
        (λ found. IfSome found
        (λ block. IsFoundChoice digest.now parity
        (sizes_of data.now) bytes.now wrong.now block.items)) }
    ensures none { IfOk result (λ found. IfNone found ((i k : ℕ) → i < k
        → k < length data.now + parity
        → HasNone digest.now parity (sizes_of data.now) bytes.now ((wrong.now ++ i ∷ []) ++ k
        ∷ []))) }
{
    for column in 0..data.len() + parity {
        let choice = with_column(wrong, column);
        let found = try_one_more(
            alloc,
            data,
            parity,
            bytes,
            choice.as_slice(),
            column + 1,
            digest,
        )?;
        if let Some(block) = found {
            return Ok(Some(block));
        }
    }
    Ok(None)
}

/// Finds the block that has the digest and of which all columns but the lost ones, and further ones that are
/// wrong, are what was read: as many further ones as parities are left, fewer first.
pub(crate) fn find_choice(
    alloc: Global,
    data: &[Column],
    parity: usize,
    bytes: &[u8],
    lost: &[usize],
    digest: &[u8; 32],
) -> Result<Option<Vec<u8>>, AllocError>
    requires stripe { IsStripe parity (sizes_of data.now) }
    requires whole { length bytes.now ≡ sum (stripe_sizes parity (sizes_of data.now)) }
    requires few { length lost.now ≤ parity }
    requires below { All (λ k. k < length data.now + parity) lost.now }
    ensures found { IfOk result
        (λ found. IfSome found
        (λ block. IsFoundChoice digest.now parity
        (sizes_of data.now) bytes.now lost.now block.items)) }

    // Where nothing but the lost columns is wrong, the answer is that block.
    ensures first { IfOk result (λ found. IfSome found (λ block. (other : List ℕ) (right : Block)
        → IsWhole parity (sizes_of data.now) other right
        → MatchesBut lost.now (read_columns right)
        (columns_of (stripe_sizes parity (sizes_of data.now)) bytes.now)
        → sha256 other ≡ digest.now
        → block.items ≡ other)) }
    ensures none { IfOk result (λ found. IfNone found ((further : List ℕ)
        → AreFurther 0 (length data.now + parity) further
        → length lost.now + length further ≤ parity
        → HasNone digest.now parity (sizes_of data.now) bytes.now (lost.now ++ further))) }
{
    if let Some(block) = try_choice(alloc, data, parity, bytes, lost, digest)? {
        return Ok(Some(block));
    }
    if lost.len() == parity {
        return Ok(None);
    }
    if let Some(block) = try_one_more(alloc, data, parity, bytes, lost, 0, digest)? {
        return Ok(Some(block));
    }
    if lost.len() + 1 == parity {
        return Ok(None);
    }
    let found = try_two_more(alloc, data, parity, bytes, lost, digest)?;
    Ok(found)
}
