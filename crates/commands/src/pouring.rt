//! A device read to its end, and an input written to one.
ghost use Rattle.std.specs.Prelude.{◌≡◌, IfErr, IfOk, OnOk};
ghost use Rattle.std.specs.Io.KnownBytes.{Appends};
ghost use Rattle.volume_device.specs.Devices.{core_of, name_of};
ghost use Rattle.commands.specs.Input.{IsNoInput};
ghost use Rattle.commands.specs.Pouring.{IsPiece, IsPouredIn, IsPouredInPart, IsPouredOut, IsPouredOutInPart, IsTakenIn};

use crate::input::{put, read_more};
use crate::stop::Stop;
use pool_model::Refusal;
use pool_steps::PoolSteps;
use std::alloc::Global;
use std::io::{self, Read, Write};
use volume_device::{Device, nothing_is_overwritten, parts_are_one};

/// The bytes of a piece: 1 MiB.
const PIECE: usize = 1 << 20;

/// Prints a piece.
fn print<W: Write>(output: &mut W, bytes: &[u8]) -> io::Result<()>
    ensures { OnOk result (Appends (W.contents output.old) (W.contents output.new) bytes.now) }
{
    output.write_all(bytes)
}

/// Reads the first bytes of a device, and prints them. What an output may still hold back is on its way when this is done.
pub(crate) fn pour_out<P: PoolSteps, W: Write, C>(
    alloc: Global,
    device: &mut Device<P>,
    size: u64,
    output: &mut W,
) -> Result<(), Stop<C>>
    ensures follows { P.came_from (core_of device.old) (core_of device.new) }
    ensures name { name_of device.new ≡ name_of device.old }
    ensures done { OnOk result (IsPouredOut P.PoolSteps device.old device.new size
        (W.contents output.old) (W.contents output.new)) }
    ensures stopped { IfErr result (IsPouredOutInPart P.PoolSteps device.old device.new
        (W.contents output.old) (W.contents output.new)) }
{
    let piece = PIECE as u64;
    for number in 0..size.div_ceil(piece) {
        let at = number * piece;
        let bytes = match device.read(alloc, at, piece.min(size - at)) {
            Ok(bytes) => bytes,
            Err(cause) => return Err(Stop::Pool(cause)),
        };
        let Ok(()) = print(output, bytes.as_slice()) else {
            return Err(Stop::Output);
        };
    }
    let Ok(()) = output.flush() else {
        return Err(Stop::Output);
    };
    Ok(())
}

/// Reads a piece of the input: 1 MiB, or all that is left.
fn next_piece<R: Read, C>(alloc: Global, input: &mut R) -> Result<Vec<u8>, Stop<C>>
    ensures piece { IfOk result (λ piece.
        IsPiece (R.remaining input.old) (R.remaining input.new) piece.items) }
    ensures refused { IfErr result IsNoInput }
{
    let mut piece = Vec::new(alloc);
    let mut buffer = [0u8; 8192];
    for _ in 0..u64::MAX {
        let room = (PIECE - piece.len()).min(buffer.len());
        if room == 0 {
            return Ok(piece);
        }
        let Ok(got) = read_more(input, &mut buffer[..room]) else {
            return Err(Stop::Input);
        };
        if got == 0 {
            return Ok(piece);
        }
        put(&mut piece, &buffer[..got])?;
    }
    Err(Stop::Input)
}

/// Writes all pieces of the input to a device, from its first byte on.
fn take_in<P: PoolSteps, R: Read, C>(
    alloc: Global,
    device: &mut Device<P>,
    input: &mut R,
) -> Result<(), Stop<C>>
    ensures follows { P.came_from (core_of device.old) (core_of device.new) }
    ensures name { name_of device.new ≡ name_of device.old }
    ensures taken { OnOk result (IsTakenIn P.PoolSteps device.old device.new
        (R.remaining input.old)) }
    ensures stopped { IfErr result (IsPouredInPart P.PoolSteps device.old device.new
        (R.remaining input.old)) }
{
    parts_are_one();
    nothing_is_overwritten();
    let mut at = 0u64;
    for _ in 0..u64::MAX {
        let piece = match next_piece(alloc, input) {
            Ok(piece) => piece,
            Err(stop) => return Err(stop),
        };
        match device.write(alloc, at, piece.as_slice()) {
            Ok(()) => {}
            Err(cause) => return Err(Stop::Pool(cause)),
        }
        if piece.len() < PIECE {
            return Ok(());
        }
        let Some(next) = at.checked_add(piece.len() as u64) else {
            return Err(Stop::Pool(Refusal::OutOfRange));
        };
        at = next;
    }
    Err(Stop::Input)
}

/// Writes all of the input to a device, from its first byte on, and commits it. What is committed on the way, or before it is refused, is a front
/// of it.
pub(crate) fn pour_in<P: PoolSteps, R: Read, C>(
    alloc: Global,
    device: &mut Device<P>,
    input: &mut R,
) -> Result<(), Stop<C>>
    ensures follows { P.came_from (core_of device.old) (core_of device.new) }
    ensures name { name_of device.new ≡ name_of device.old }
    ensures done { OnOk result (IsPouredIn P.PoolSteps device.old device.new
        (R.remaining input.old)) }
    ensures stopped { IfErr result (IsPouredInPart P.PoolSteps device.old device.new
        (R.remaining input.old)) }
{
    take_in(alloc, device, input)?;
    match device.flush() {
        Ok(()) => Ok(()),
        Err(cause) => Err(Stop::Pool(cause)),
    }
}
