//! What a client sends.
ghost use Rattle.std.specs.Prelude.{◌≡◌, ℕ, [], List, length, take, IfErr, IfOk, IfSome, MatchOption, OnOk};
ghost use Rattle.std.specs.Io.KnownBytes.{Consumes, IsAtEnd};
ghost use Rattle.nbd_serve.specs.declared.ended.Ended.TheVariants.{Torn};

use crate::ended::Ended;
use nbd_wire::REQUEST_LEN;
use std::alloc::{AllocError, Global};
use std::io::{self, Read};

/// Reads as many bytes as there is room for.
pub(crate) fn read_whole<R: Read>(input: &mut R, buffer: &mut [u8]) -> Result<(), Ended>
    ensures read { OnOk result
        (Consumes (R.remaining input.old) (R.remaining input.new) buffer.new) }
    ensures torn { IfErr result (λ ended. ended ≡ Torn) }
{
    match input.read_exact(buffer) {
        Ok(()) => Ok(()),
        Err(_) => Err(Ended::Torn),
    }
}

/// Reads more into a buffer: how many bytes, and none at the end.
fn read_more<R: Read>(input: &mut R, buffer: &mut [u8; REQUEST_LEN]) -> io::Result<usize>
    ensures { IfOk result (λ got. (got ≡ length (take got buffer.new))
        × Consumes (R.remaining input.old) (R.remaining input.new) (take got buffer.new)
        × (got ≡ 0 → IsAtEnd (R.remaining input.new))) }
{
    input.read(buffer)
}

/// The bytes of the next request's head, or `None` where the input ends before it.
pub(crate) fn read_head<R: Read>(input: &mut R) -> Result<Option<[u8; REQUEST_LEN]>, Ended>
    ensures read { IfOk result (λ found. MatchOption found
        (Consumes (R.remaining input.old) (R.remaining input.new) []
        × IsAtEnd (R.remaining input.new))
        (Consumes (R.remaining input.old) (R.remaining input.new))) }
    ensures torn { IfErr result (λ ended. ended ≡ Torn) }
{
    let mut head = [0; REQUEST_LEN];
    let Ok(got) = read_more(input, &mut head) else {
        return Err(Ended::Torn);
    };
    if got == 0 {
        return Ok(None);
    }
    read_whole(input, &mut head[got..])?;
    Ok(Some(head))
}

/// Reads as many bytes, and forgets them.
fn drop_payload<R: Read>(input: &mut R, len: usize) -> Result<(), Ended>
    ensures dropped { OnOk result ((bytes : List ℕ) × (length bytes ≡ len)
        × Consumes (R.remaining input.old) (R.remaining input.new) bytes) }
    ensures torn { IfErr result (λ ended. ended ≡ Torn) }
{
    let mut buffer = [0; 8192];
    let mut left = len;
    while left > 0 {
        let part = left.min(8192);
        read_whole(input, &mut buffer[..part])?;
        left -= part;
    }
    Ok(())
}

pub(crate) fn zeros(alloc: Global, len: usize) -> Result<Vec<u8>, AllocError>
    ensures { IfOk result (λ bytes. length bytes.items ≡ len) }
{
    vec![in alloc; 0u8; len]
}

/// Reads as many bytes. Where there is no memory for them they are read, and `None` is the answer.
pub(crate) fn read_payload<R: Read>(
    alloc: Global,
    input: &mut R,
    len: usize,
) -> Result<Option<Vec<u8>>, Ended>
    ensures read { IfOk result (λ found. (bytes : List ℕ) × (length bytes ≡ len)
        × Consumes (R.remaining input.old) (R.remaining input.new) bytes
        × IfSome found (λ given. given.items ≡ bytes)) }
    ensures torn { IfErr result (λ ended. ended ≡ Torn) }
{
    let Ok(mut payload) = zeros(alloc, len) else {
        drop_payload(input, len)?;
        return Ok(None);
    };
    read_whole(input, &mut payload)?;
    Ok(Some(payload))
}
