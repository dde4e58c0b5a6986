//! Names as they stand in rows of the directory.
ghost use Rattle.std.specs.Prelude.{◌≡◌, ◌≢◌, ◌↔◌, ◌<◌, ℕ, List, None, length, slice_index, MatchOption, IsTrue, IfSome};
ghost use Rattle.meta_objset.specs.Names.{IsName, IsNamed, IsBefore};

use std::cmp::Ordering;
use words::{is_zero, put};

/// How many bytes a name has in a row, with the zeros behind it.
const NAME_LEN: usize = 56;

/// The index of the first zero.
fn first_zero(bytes: &[u8]) -> Option<usize>
    ensures { MatchOption result ((k : ℕ) → k < length bytes.now → slice_index bytes.now k ≢ 0)
        (λ end. (end < length bytes.now) × (slice_index bytes.now end ≡ 0)
        × ((k : ℕ) → k < end → slice_index bytes.now k ≢ 0)) }
{
    bytes.iter().position(|byte| *byte == 0)
}

/// Whether the bytes are a name as it stands in a row: 1 to 55 bytes that aren't zero, and zeros behind them.
pub fn is_name(padded: &[u8; 56]) -> bool
    ensures { IsTrue result ↔ IsName padded.now }
{
    let Some(end) = first_zero(padded) else {
        return false;
    };
    let (_, zeros) = padded.split_at(end);
    end > 0 && is_zero(zeros)
}

/// A name as it stands in a row. Nothing where it can't stand in one: it has no bytes, more than 55, or a zero.
pub fn padded(name: &[u8]) -> Option<[u8; 56]>
    ensures named { IfSome result (λ padded. IsNamed padded name.now) }
    ensures none { result ≡ None → (padded : List ℕ) → ¬ IsNamed padded name.now }
{
    if name.is_empty() || name.len() >= NAME_LEN || first_zero(name).is_some() {
        return None;
    }
    let mut padded = [0; NAME_LEN];
    put(&mut padded, 0, name);
    Some(padded)
}

/// The name in the 56 bytes of a row, without the zeros behind it.
pub fn unpadded(padded: &[u8; 56]) -> &[u8]
    requires { IsName padded.now }
    ensures { IsNamed padded.now result.now }
{
    let Some(end) = first_zero(padded) else {
        return padded;
    };
    let (name, _) = padded.split_at(end);
    name
}

/// Whether a name stands before another in byte order.
pub(crate) fn is_before(name: &[u8], other: &[u8]) -> bool
    ensures { IsTrue result ↔ IsBefore name.now other.now }
{
    name.cmp(other) == Ordering::Less
}
