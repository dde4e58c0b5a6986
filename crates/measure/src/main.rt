//! Says on standard error how fast the kernels and the parity of a block are on one core, over 128 KiB in cache: bytes
//! of the column or of the block a nanosecond (GB/s), by the fastest of some rounds. `generate` counts the memory that it
//! takes, and `fill_parity` works in memory that stands. The argument, if any, is the number of rounds.
#![tactic(auto)]

ghost use Rattle.std.specs.Prelude.{◌≡◌, ◌+◌, ◌*◌, ◌^◌, ◌<◌, ◌≤◌, [], ◌∷◌, length, replicate, sum, slice_index, All};

use arrayvec::ArrayVec;
use gf_lanes::{horner2_into, horner4_into, mul_add_into, mul_into, xor_into};
use raidz_parity::Columns;
use std::alloc::{AllocError, Global};
use std::rt::Runtime;
use std::time::Instant;
use std::{env, io};

fn print(rt: &impl Runtime, name: &str, bytes: usize, nanos: u128) -> io::Result<()> {
    let tenths = bytes as u128 * 10 / nanos.max(1);
    let (whole, tenth) = (tenths / 10, tenths % 10);
    eprintln!(rt; "{name:<32} {whole:>3}.{tenth} GB/s")
}

/// A kernel that is measured.
#[derive(Clone, Copy)]
enum Kernel {
    Xor,
    Horner2,
    Horner4,
    Mul,
    MulAdd,
}

/// The kernels, each with its name.
const KERNELS: [(Kernel, &str); 5] = [
    (Kernel::Xor, "xor_into"),
    (Kernel::Horner2, "horner2_into"),
    (Kernel::Horner4, "horner4_into"),
    (Kernel::Mul, "mul_into"),
    (Kernel::MulAdd, "mul_add_into"),
];

fn apply(kernel: Kernel, target: &mut [u8], source: &[u8])
    requires { length target.old ≡ length source.now }
    ensures { length target.new ≡ length source.now }
{
    match kernel {
        Kernel::Xor => xor_into(target, source),
        Kernel::Horner2 => horner2_into(target, source),
        Kernel::Horner4 => horner4_into(target, source),
        Kernel::Mul => mul_into(target, 0x8e),
        Kernel::MulAdd => mul_add_into(target, source, 0x8e),
    }
}

/// The fastest of `rounds` runs of a kernel, in nanoseconds.
fn fastest_kernel(
    rt: &impl Runtime,
    rounds: u32,
    kernel: Kernel,
    target: &mut [u8],
    source: &[u8],
) -> io::Result<u128>
    requires { length target.old ≡ length source.now }
    ensures { length target.new ≡ length source.now }
{
    let mut best = u128::MAX;
    for _ in 0..rounds {
        let start = Instant::now(rt)?;
        apply(kernel, target, source);
        best = best.min(start.elapsed(rt)?.as_nanos());
    }
    Ok(best)
}

/// Each kernel on these bytes.
fn print_kernels(rt: &impl Runtime, rounds: u32, target: &mut [u8], source: &[u8]) -> io::Result<()>
    requires { length target.old ≡ length source.now }
{
    for &(kernel, name) in &KERNELS {
        let best = fastest_kernel(rt, rounds, kernel, target, source)?;
        print(rt, name, source.len(), best)?;
    }
    Ok(())
}

fn kernels(rt: &impl Runtime, alloc: Global, rounds: u32, size: usize) -> io::Result<()> {
    let mut target = vec![in alloc; 1; size]?;
    let source = vec![in alloc; 2; size]?;
    print_kernels(rt, rounds, &mut target, &source)
}

/// The lengths of `count` columns of `size` bytes.
fn even(count: usize, size: usize) -> ArrayVec<usize, 32>
    requires { (0 < count) × (count ≤ 32) }
    ensures count { 0 < length result.items }
    ensures longest { All (λ n. n ≤ slice_index result.items 0) result.items }
    ensures sum { sum result.items ≡ count * size }
{
    let mut lengths = ArrayVec::new();
    for _column in 0..count {
        lengths.push(size);
    }
    lengths
}

/// How long `generate` takes over `count` columns of `size` bytes, in nanoseconds.
fn generated(
    rt: &impl Runtime,
    alloc: Global,
    parity: usize,
    count: usize,
    size: usize,
) -> io::Result<u128>
    requires parity { (0 < parity) × (parity ≤ 2) }
    requires count { (0 < count) × (count ≤ 32) }
    requires size { count * size < 2 ^ 32 }
{
    let block = vec![in alloc; 7; count * size]?;
    let start = Instant::now(rt)?;
    let _columns = Columns::generate(alloc, parity, even(count, size), block)?;
    Ok(start.elapsed(rt)?.as_nanos())
}

/// The fastest of `rounds` runs of `generate`.
fn fastest_generate(
    rt: &impl Runtime,
    alloc: Global,
    rounds: u32,
    parity: usize,
    count: usize,
    size: usize,
) -> io::Result<u128>
    requires parity { (0 < parity) × (parity ≤ 2) }
    requires count { (0 < count) × (count ≤ 32) }
    requires size { count * size < 2 ^ 32 }
{
    let mut best = u128::MAX;
    for _ in 0..rounds {
        best = best.min(generated(rt, alloc, parity, count, size)?);
    }
    Ok(best)
}

/// The fastest of `rounds` runs of `fill_parity`.
fn fastest_fill(rt: &impl Runtime, rounds: u32, columns: &mut Columns) -> io::Result<u128> {
    let mut best = u128::MAX;
    for _ in 0..rounds {
        let start = Instant::now(rt)?;
        columns.fill_parity();
        best = best.min(start.elapsed(rt)?.as_nanos());
    }
    Ok(best)
}

/// The same over `count` columns of `size` bytes.
fn fastest_fill_of(
    rt: &impl Runtime,
    alloc: Global,
    rounds: u32,
    parity: usize,
    count: usize,
    size: usize,
) -> io::Result<u128>
    requires parity { (0 < parity) × (parity ≤ 2) }
    requires count { (0 < count) × (count ≤ 32) }
    requires size { count * size < 2 ^ 32 }
{
    let block = vec![in alloc; 7; count * size]?;
    let mut columns = Columns::generate(alloc, parity, even(count, size), block)?;
    fastest_fill(rt, rounds, &mut columns)
}

/// The line of what was done over `count` columns and their parities.
fn print_columns(
    rt: &impl Runtime,
    alloc: Global,
    what: &str,
    count: usize,
    parity: usize,
    bytes: usize,
    nanos: u128,
) -> io::Result<()> {
    let name = format!(in alloc; "{what}, {count} + {parity} columns")?;
    print(rt, name.as_str(), bytes, nanos)
}

/// Blocks of `count` columns of `size` bytes, with one parity and with two.
fn parities(
    rt: &impl Runtime,
    alloc: Global,
    rounds: u32,
    count: usize,
    size: usize,
) -> io::Result<()>
    requires count { (0 < count) × (count ≤ 32) }
    requires size { count * size < 2 ^ 32 }
{
    let bytes = count * size;
    for parity in 1..3usize {
        let best = fastest_generate(rt, alloc, rounds, parity, count, size)?;
        print_columns(rt, alloc, "generate", count, parity, bytes, best)?;
        let again = fastest_fill_of(rt, alloc, rounds, parity, count, size)?;
        print_columns(rt, alloc, "fill_parity", count, parity, bytes, again)?;
    }
    Ok(())
}

fn main(rt: HostRuntime) -> io::Result<()> {
    let rounds = match env::args(&rt)?.nth(1) {
        Some(word) => match word.parse::<u32>() {
            Ok(rounds) => rounds,
            Err(_) => return Err(io::Error::from(io::ErrorKind::InvalidInput)),
        },
        None => 200,
    };
    kernels(&rt, rt.alloc(), rounds, 131_072)?;
    parities(&rt, rt.alloc(), rounds, 4, 32_768)?;
    parities(&rt, rt.alloc(), rounds, 8, 16_384)?;
    Ok(())
}
