//! Commands that read or write a whole volume, piece by piece.
ghost use Rattle.std.specs.Prelude.{IfErr, OnOk};
ghost use Rattle.commands.specs.Streams.{IsFilled, IsFilledFrom, IsNotFilled, IsPoured, IsReadCut, IsReadWhole};

use crate::pools::Pools;
use crate::pouring::{pour_in, pour_out};
use crate::sizes::size_of;
use crate::stop::Stop;
use pool_command::Files;
use pool_model::{Name, Refusal};
use std::alloc::Global;
use std::io::{Read, Write};
use volume_device::Device;

/// Reads all of a volume or a snapshot of an opened pool, and prints it.
fn printed<S: Pools, W: Write>(
    alloc: Global,
    pool: S::Pool,
    name: Name,
    output: &mut W,
) -> (Result<(), Stop<S::Refusal>>, S::Pool)
    ensures { IsPoured S.Pool.PoolSteps pool result.1 name
        (W.contents output.old) (W.contents output.new) result.0 }
{
    let size = match size_of::<S>(alloc, &pool, &name) {
        Ok(size) => size,
        Err(cause) => return (Err(Stop::Pool(cause)), pool),
    };
    let mut device = Device::new(pool, name, 0);
    let ended = pour_out(alloc, &mut device, size, output);
    (ended, device.into_core())
}

/// Opens the pool on the files, and prints all of a volume or a snapshot, piece by piece.
pub(crate) fn read_all<S: Pools, W: Write>(
    alloc: Global,
    pools: &mut S,
    files: &Files,
    name: Name,
    output: &mut W,
) -> Result<(), Stop<S::Refusal>>
    ensures done { OnOk result (IsReadWhole S.Pools S.Pool.PoolSteps pools.old files.now name
        (W.contents output.old) (W.contents output.new) pools.new) }
    ensures stopped { IfErr result (IsReadCut S.Pools S.Pool.PoolSteps pools.old files.now name
        (W.contents output.old) (W.contents output.new) pools.new) }
{
    let (pool, front) = match pools.open(alloc, files) {
        Ok(opened) => opened,
        Err(cause) => return Err(Stop::Pools(cause)),
    };
    let (ended, pool) = printed::<S, W>(alloc, pool, name, output);
    pools.close(pool, front);
    ended
}

/// Writes all of the input to a volume of an opened pool, from its first byte on, and commits it.
fn filled<S: Pools, R: Read>(
    alloc: Global,
    pool: S::Pool,
    name: Name,
    timestamp: u64,
    input: &mut R,
) -> (Result<(), Stop<S::Refusal>>, S::Pool)
    ensures { IsFilledFrom S.Pool.PoolSteps pool result.1 name
        (R.remaining input.old) result.0 }
{
    let mut device = Device::new(pool, name, timestamp);
    let ended = pour_in(alloc, &mut device, input);
    (ended, device.into_core())
}

/// Opens the pool on the files, and writes all of the input to a volume, piece by piece, from its first byte on. It is committed on the way
/// and at the end. `NoMemory` also where all is committed, but memory ran out when it was asked whether a disk failed.
pub(crate) fn write_all<S: Pools, R: Read>(
    alloc: Global,
    pools: &mut S,
    files: &Files,
    name: Name,
    timestamp: u64,
    input: &mut R,
) -> Result<(), Stop<S::Refusal>>
    ensures done { OnOk result (IsFilled S.Pools S.Pool.PoolSteps
        pools.old files.now name (R.remaining input.old) pools.new) }
    ensures stopped { IfErr result (IsNotFilled S.Pools S.Pool.PoolSteps
        pools.old files.now name (R.remaining input.old) pools.new) }
{
    let (pool, front) = match pools.open(alloc, files) {
        Ok(opened) => opened,
        Err(cause) => return Err(Stop::Pools(cause)),
    };
    let (ended, pool) = filled::<S, R>(alloc, pool, name, timestamp, input);
    let has_lost = S::has_lost_disk(alloc, &pool, &front);
    pools.close(pool, front);
    match ended {
        Ok(()) => match has_lost {
            Ok(false) => Ok(()),
            Ok(true) => Err(Stop::DiskLost),
            Err(_) => Err(Stop::Pool(Refusal::NoMemory)),
        },
        Err(stop) => Err(stop),
    }
}
