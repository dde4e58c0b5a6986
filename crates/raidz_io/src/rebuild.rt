//! The block of columns of which some are wrong.
ghost use Rattle.std.specs.Prelude.{ℕ, ◌≡◌, ◌≤◌, ◌<◌, ◌+◌, ◌^◌, map, length, take, drop, sum, slice_index, All, Contains, IfOk};
ghost use Rattle.raidz_parity.specs.Layout.{AreBytes, Block, columns_of, joined};
ghost use Rattle.raidz_parity.specs.Parity.{IsParity};
ghost use Rattle.raidz_parity.specs.Stored.{parity_columns};
ghost use Rattle.raidz_io.specs.Places.{sizes_of};
ghost use Rattle.raidz_io.specs.Stripe.{IsStripe, stripe_sizes, number_of, AreParities, HasSizes, read_columns, MatchesBut};

use crate::places::sizes;
use crate::read::ReadColumns;
use arrayvec::ArrayVec;
use raidz_map::Column;
use raidz_parity::{Columns, Parity};
use std::alloc::{AllocError, Global};

/// The bytes, with zeros after them up to this size.
fn padded(alloc: Global, bytes: &[u8], size: usize) -> Result<Vec<u8>, AllocError>
    requires { length bytes.now ≤ size }
    ensures length { IfOk result (λ row. length row.items ≡ size) }
    ensures whole { length bytes.now ≡ size → IfOk result (λ row. row.items ≡ bytes.now) }
{
    let mut row = Vec::from_slice(alloc, bytes)?;
    row.resize(size, 0)?;
    Ok(row)
}

/// The parity columns of this size, as far as there are bytes for them.
fn parity_in(alloc: Global, count: usize, size: usize, bytes: &[u8]) -> Result<Parity, AllocError>
    requires { (0 < count) × (count ≤ 2) }
    ensures { IfOk result (λ parity. AreParities count size bytes.now (parity_columns parity)) }
{
    let (first, rest) = bytes.split_at(size.min(bytes.len()));
    let first = padded(alloc, first, size)?;
    if count == 1 {
        return Ok(Parity::One(first));
    }
    let (second, _) = rest.split_at(size.min(rest.len()));
    let second = padded(alloc, second, size)?;
    Ok(Parity::Two(first, second))
}

/// How many bytes columns of these sizes have.
pub(crate) fn total(sizes: &[usize]) -> usize
    requires { sum sizes.now < 2 ^ 64 }
    ensures { result ≡ sum sizes.now }
{
    sizes.iter().sum()
}

/// The bytes, with room for so many in all.
fn with_room(alloc: Global, bytes: &[u8], room: usize) -> Result<Vec<u8>, AllocError>
    ensures { IfOk result (λ copy. copy.items ≡ bytes.now) }
{
    let mut copy = Vec::with_capacity(alloc, room)?;
    copy.extend_from_slice(bytes)?;
    Ok(copy)
}

/// The columns that were read. Their block has room for the parity behind it.
fn columns_in(
    alloc: Global,
    data: &[Column],
    parity: usize,
    bytes: &[u8],
) -> Result<Columns, AllocError>
    requires stripe { IsStripe parity (sizes_of data.now) }
    requires whole { sum (sizes_of data.now) ≤ length bytes.now }
    ensures parity { IfOk result
        (λ columns. AreParities parity (slice_index (sizes_of data.now) 0)
        (drop (sum (sizes_of data.now)) bytes.now) columns.parity) }
    ensures block { IfOk result (λ columns. columns.data_columns
        ≡ columns_of (sizes_of data.now) (take (sum (sizes_of data.now)) bytes.now)) }
{
    let _len = bytes.len();
    let sizes = sizes(data);
    let size = sizes.as_slice()[0];
    let (block, rest) = bytes.split_at(total(sizes.as_slice()));
    let parity = parity_in(alloc, parity, size, rest)?;
    let block = with_room(alloc, block, bytes.len())?;
    Ok(Columns::new(parity, sizes, block))
}

/// The numbers that these columns have where the parity comes first.
fn numbers_of(columns: &[usize], data_count: usize, parity: usize) -> ArrayVec<usize, 32>
    requires few { length columns.now ≤ 32 }
    requires count { data_count + parity ≤ 32 }
    ensures { result.items ≡ map (number_of parity data_count) columns.now }
{
    let mut numbers = ArrayVec::new();
    for &column in columns {
        numbers.push(if column < data_count {
            parity + column
        } else {
            column - data_count
        });
    }
    numbers
}

/// The block of columns that were read, all but the wrong ones of which are right.
pub(crate) fn rebuilt(
    alloc: Global,
    data: &[Column],
    parity: usize,
    bytes: &[u8],
    wrong: &[usize],
) -> Result<Vec<u8>, AllocError>
    requires stripe { IsStripe parity (sizes_of data.now) }
    requires whole { sum (sizes_of data.now) ≤ length bytes.now }
    requires few { length wrong.now ≤ parity }
    requires below { All (λ k. k < length data.now + parity) wrong.now }
    ensures { IfOk result (λ block. (right : Block) → AreBytes right.data_columns
        → IsParity right → HasSizes parity (sizes_of data.now) right
        → MatchesBut wrong.now (read_columns right)
        (columns_of (stripe_sizes parity (sizes_of data.now)) bytes.now)
        → block.items ≡ joined right.data_columns) }
{
    let mut columns = columns_in(alloc, data, parity, bytes)?;
    columns
        .rebuild(numbers_of(wrong, data.len(), parity).as_slice())
        .unwrap();
    let (_, block) = columns.into_parts();
    Ok(block)
}

/// The columns that were not read, of so many.
pub(crate) fn unread(read: &ReadColumns, count: usize) -> ArrayVec<usize, 32>
    requires count { (read.now.count ≤ count) × (count ≤ 32) }
    requires few { length read.now.lost.items ≤ read.now.count }
    ensures len { length result.items + read.now.count ≡ length read.now.lost.items + count }
    ensures lost { (k : ℕ) → Contains read.now.lost.items k → Contains result.items k }
    ensures unread { (k : ℕ) → read.now.count ≤ k → k < count → Contains result.items k }
    ensures below { All (λ k. k < count) read.now.lost.items → All (λ k. k < count) result.items }
{
    let mut unread = ArrayVec::new();
    for &column in read.lost.as_slice() {
        unread.push(column);
    }
    for column in read.count..count {
        unread.push(column);
    }
    unread
}
