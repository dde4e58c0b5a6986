//! The sums of a block's columns, 64 bytes of each column at a time. The sums of all columns are made in lanes, so that
//! each column is read once and each parity is written once.
ghost use Rattle.std.specs.Prelude.{◌≡◌, ℕ, ◌+◌, ◌<◌, ◌≤◌, ◌^◌, length, sum, slice_index, All};
ghost use Rattle.raidz_parity.specs.Layout.{columns_of};
ghost use Rattle.raidz_parity.specs.Parity.{row_of, weighted_sum_at, AreSums, AreSumsFrom};

use gf_lanes::doubled_wide;
use std::simd::prelude::*;

/// The byte of `column` at `place`, as if zeros followed it.
fn byte_at(column: &[u8], place: usize) -> u8
    ensures { result ≡ slice_index column.now place }
{
    if place < column.len() {
        column[place]
    } else {
        0
    }
}

/// The bytes of `column` from `at` on, as if zeros followed it.
#[inline(never)]
fn last_lanes(column: &[u8], at: usize) -> u8x64
    requires { at + 64 < 2 ^ 64 }
    ensures { (k : ℕ) → k < 64 → slice_index result k ≡ slice_index column.now (at + k) }
{
    if at >= column.len() {
        return u8x64::splat(0);
    }
    let mut bytes = [0; 64];
    for k in 0..64usize {
        bytes[k] = byte_at(column, at + k);
    }
    u8x64::from_array(bytes)
}

/// The bytes of `column` from `at` on, as if zeros followed it.
#[inline(always)]
fn lanes_at(column: &[u8], at: usize) -> u8x64
    requires { at + 64 < 2 ^ 64 }
    ensures count { length result ≡ 64 }
    ensures lanes { (k : ℕ) → k < 64 → slice_index result k ≡ slice_index column.now (at + k) }
{
    if at + 64 <= column.len() {
        u8x64::from_slice(&column[at..])
    } else {
        last_lanes(column, at)
    }
}

/// Writes lanes over `target` from `at` on, as far as it reaches.
#[inline(never)]
fn put_last(target: &mut [u8], at: usize, lanes: u8x64)
    requires { at + 64 < 2 ^ 64 }
    ensures before { (j : ℕ) → j < at → slice_index target.new j ≡ slice_index target.old j }
    ensures here { (k : ℕ) → k < 64 → at + k < length target.old
        → slice_index target.new (at + k) ≡ slice_index lanes k }
{
    let bytes = lanes.to_array();
    for k in 0..64usize {
        if at + k < target.len() {
            target[at + k] = bytes[k];
        }
    }
}

/// Writes lanes over `target` from `at` on, as far as it reaches.
#[inline(always)]
fn put_lanes(target: &mut [u8], at: usize, lanes: u8x64)
    requires { at + 64 < 2 ^ 64 }
    ensures before { (j : ℕ) → j < at → slice_index target.new j ≡ slice_index target.old j }
    ensures here { (k : ℕ) → k < 64 → at + k < length target.old
        → slice_index target.new (at + k) ≡ slice_index lanes k }
{
    if at + 64 <= target.len() {
        lanes.copy_to_slice(&mut target[at..]);
    } else {
        put_last(target, at, lanes);
    }
}

/// The parity `row` of the columns of these lengths, which lie one after the other in `bytes`, from `at` on.
fn row_sums(row: u8, lengths: &[usize], bytes: &[u8], at: usize) -> u8x64
    requires row { row ≤ 1 }
    requires at { at + 64 < 2 ^ 64 }
    requires fits { sum lengths.now ≤ length bytes.now }
    ensures { AreSumsFrom row lengths.now bytes.now at result }
{
    let mut sums = u8x64::splat(0);
    let mut rest = bytes;
    for &length in lengths {
        let (column, after) = rest.split_at(length);
        let lanes = lanes_at(column, at);
        if row == 1 {
            sums = doubled_wide(sums);
        }
        sums ^= lanes;
        rest = after;
    }
    sums
}

/// Makes `target` from `from` on the parity `row` of the columns of these lengths, which lie one after the other in
/// `bytes`.
fn fill_ends(row: u8, target: &mut [u8], from: usize, lengths: &[usize], bytes: &[u8])
    requires row { row ≤ 1 }
    requires from { from ≤ length target.old }
    requires fits { sum lengths.now ≤ length bytes.now }
    requires begun { (j : ℕ) → j < from
        → slice_index target.old j ≡ weighted_sum_at row (columns_of lengths.now bytes.now) j }
    ensures { AreSums row lengths.now bytes.now target.new }
{
    let mut at = from;
    while at < target.len() {
        put_lanes(target, at, row_sums(row, lengths, bytes, at));
        at += 64;
    }
}

/// The first parity of the columns of these lengths, which lie one after the other in `bytes`, at 64 places that each
/// column has.
#[inline(always)]
fn first_sums(lengths: &[usize], bytes: &[u8], at: usize) -> u8x64
    requires reach { All (λ n. at + 64 ≤ n) lengths.now }
    requires fits { sum lengths.now ≤ length bytes.now }
    ensures count { length result ≡ 64 }
    ensures sums { AreSumsFrom 0 lengths.now bytes.now at result }
{
    let mut sums = u8x64::splat(0);
    let mut rest = bytes;
    for &length in lengths {
        let (column, after) = rest.split_at(length);
        sums ^= u8x64::from_slice(&column[at..]);
        rest = after;
    }
    sums
}

/// The first and the second parity of the columns of these lengths, which lie one after the other in `bytes`, at 64
/// places that each column has.
#[inline(always)]
fn both_sums(lengths: &[usize], bytes: &[u8], at: usize) -> (u8x64, u8x64)
    requires reach { All (λ n. at + 64 ≤ n) lengths.now }
    requires fits { sum lengths.now ≤ length bytes.now }
    ensures first_count { length result.0 ≡ 64 }
    ensures second_count { length result.1 ≡ 64 }
    ensures first { AreSumsFrom 0 lengths.now bytes.now at result.0 }
    ensures second { AreSumsFrom 1 lengths.now bytes.now at result.1 }
{
    let mut first = u8x64::splat(0);
    let mut second = u8x64::splat(0);
    let mut rest = bytes;
    for &length in lengths {
        let (column, later) = rest.split_at(length);
        let lanes = u8x64::from_slice(&column[at..]);
        first ^= lanes;
        second = doubled_wide(second) ^ lanes;
        rest = later;
    }
    (first, second)
}

/// A length that no column falls short of, up to `rows`.
fn common_length(lengths: &[usize], rows: usize) -> usize
    ensures rows { result ≤ rows }
    ensures columns { All (λ n. result ≤ n) lengths.now }
{
    let mut common = rows;
    for &length in lengths {
        common = common.min(length);
    }
    common
}

/// Makes `first` the first parity of the columns of these lengths, which lie one after the other in `bytes`.
pub(crate) fn fill_first(first: &mut [u8], lengths: &[usize], bytes: &[u8])
    requires fits { sum lengths.now ≤ length bytes.now }
    ensures { AreSums 0 lengths.now bytes.now first.new }
{
    let common = common_length(lengths, first.len());
    let mut at = 0;
    while common - at >= 64 {
        first_sums(lengths, bytes, at).copy_to_slice(&mut first[at..]);
        at += 64;
    }
    fill_ends(0, first, at, lengths, bytes);
}

/// Makes `first` and `second` the parities of the columns of these lengths, which lie one after the other in `bytes`.
pub(crate) fn fill_both(first: &mut [u8], second: &mut [u8], lengths: &[usize], bytes: &[u8])
    requires rows { length second.old ≡ length first.old }
    requires fits { sum lengths.now ≤ length bytes.now }
    ensures first { AreSums 0 lengths.now bytes.now first.new }
    ensures second { AreSums 1 lengths.now bytes.now second.new }
{
    let common = common_length(lengths, first.len());
    let mut at = 0;
    while common - at >= 64 {
        let (first_lanes, second_lanes) = both_sums(lengths, bytes, at);
        first_lanes.copy_to_slice(&mut first[at..]);
        second_lanes.copy_to_slice(&mut second[at..]);
        at += 64;
    }
    fill_ends(0, first, at, lengths, bytes);
    fill_ends(1, second, at, lengths, bytes);
}

/// Makes `target`, as far as it reaches, the parity `row` of the columns of these lengths, which lie one after the other in
/// `block`. It takes no memory.
pub fn fill_row(row: u8, target: &mut [u8], lengths: &[usize], block: &[u8])
    requires row { row ≤ 1 }
    requires fits { sum lengths.now ≤ length block.now }
    ensures { target.new ≡ row_of row (columns_of lengths.now block.now) (length target.old) }
{
    if row == 0 {
        fill_first(target, lengths, block);
        return;
    }
    fill_ends(row, target, 0, lengths, block);
}
