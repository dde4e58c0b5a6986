//! The bytes that a write is given.
ghost use Rattle.std.specs.Prelude.{◌≡◌, ◌<◌, ◌++◌, IfErr, IfOk, OnOk, length, take};
ghost use Rattle.std.specs.Io.KnownBytes.{Consumes, IsAtEnd};
ghost use Rattle.commands.specs.Input.{IsGiven, IsInput, IsNoInput};

use crate::stop::Stop;
use command_steps::written_len;
use std::alloc::{AllocError, Global};
use std::io::{self, Read};

/// The most bytes that one write may have: 1 MiB.
const MOST: u64 = 1 << 20;

/// What a reader gave.
#[derive(Drop)]
struct Given {
    /// All bytes, if they are 1 MiB at most.
    front: Vec<u8>,
    /// How many they are; the count stops at the greatest number of 64 bits.
    len: u64,
}

/// Reads more into a buffer: how many bytes, and none at the end.
pub(crate) fn read_more<R: Read>(input: &mut R, buffer: &mut [u8]) -> io::Result<usize>
    requires { 0 < length buffer.old }
    ensures { IfOk result (λ got. (got ≡ length (take got buffer.new))
        × Consumes (R.remaining input.old) (R.remaining input.new) (take got buffer.new)
        × (got ≡ 0 → IsAtEnd (R.remaining input.new))) }
{
    input.read(buffer)
}

/// Puts these bytes behind the others.
pub(crate) fn put(front: &mut Vec<u8>, bytes: &[u8]) -> Result<(), AllocError>
    ensures { OnOk result (front.new.items ≡ front.old.items ++ bytes.now) }
{
    front.extend_from_slice(bytes)
}

/// Reads to the end.
fn read_all<R: Read, C>(alloc: Global, input: &mut R) -> Result<Given, Stop<C>>
    ensures given { IfOk result (IsGiven (R.remaining input.old)) }
    ensures refused { IfErr result IsNoInput }
{
    let mut front = Vec::new(alloc);
    let mut len = 0u64;
    let mut buffer = [0u8; 8192];
    for _ in 0..u64::MAX {
        let Ok(got) = read_more(input, &mut buffer) else {
            return Err(Stop::Input);
        };
        if got == 0 {
            return Ok(Given { front, len });
        }
        len = len.saturating_add(got as u64);
        if len <= MOST {
            put(&mut front, &buffer[..got])?;
        }
    }
    Err(Stop::Input)
}

/// The bytes to write: all that a reader gives, to its end. Of more than 1 MiB, which no pool takes, it is zeros of another length over
/// 1 MiB that is refused for the same cause.
pub(crate) fn read_input<R: Read, C>(alloc: Global, input: &mut R) -> Result<Vec<u8>, Stop<C>>
    ensures input { IfOk result (λ bytes. IsInput (R.remaining input.old) bytes.items) }
    ensures refused { IfErr result IsNoInput }
{
    let Given { front, len } = read_all(alloc, input)?;
    if len <= MOST {
        return Ok(front);
    }
    let zeros = vec![in alloc; 0u8; written_len(len)]?;
    Ok(zeros)
}
