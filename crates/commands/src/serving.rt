//! The command that serves a volume or a snapshot as a network block device.
ghost use Rattle.std.specs.Prelude.{◌≡◌, IfErr, IfOk, OnOk};
ghost use Rattle.commands.specs.Serves.{IsExportOf, IsServed, IsServedBy, IsServeStopped, stop_by};

use crate::pools::Pools;
use crate::sizes::size_of;
use crate::stop::Stop;
use nbd_serve::{Ended, Export, serve};
use pool_command::Files;
use pool_model::{Name, Refusal};
use std::alloc::Global;
use std::io::{Read, Write};
use volume_device::Device;

/// What a command tells of how a session ended.
fn stop_of<R>(ended: Result<(), Ended>) -> Result<(), Stop<R>>
    ensures { result ≡ stop_by ended }
{
    match ended {
        Ok(()) => Ok(()),
        Err(Ended::Torn) => Err(Stop::Input),
        Err(Ended::Hostile) => Err(Stop::Protocol),
        Err(Ended::Output) => Err(Stop::Output),
        Err(Ended::Refused(cause)) => Err(Stop::Pool(cause)),
        Err(Ended::NoMemory) => Err(Stop::Pool(Refusal::NoMemory)),
    }
}

/// What a client is told of a volume or a snapshot of an opened pool. `NoSuchName` where there is none.
fn export_of<S: Pools>(alloc: Global, pool: &S::Pool, name: &Name) -> Result<Export, Refusal>
    ensures { IfOk result (IsExportOf S.Pool.PoolSteps pool.now name.now) }
{
    let size = size_of::<S>(alloc, pool, name)?;
    let Ok(copy) = name.copied(alloc) else {
        return Err(Refusal::NoMemory);
    };
    Ok(Export {
        name: copy,
        size,
        read_only: name.is_of_snapshot(),
    })
}

/// Serves a volume or a snapshot of an opened pool.
fn served<S: Pools, R: Read, W: Write>(
    alloc: Global,
    pool: S::Pool,
    name: Name,
    timestamp: u64,
    input: &mut R,
    output: &mut W,
) -> (Result<(), Stop<S::Refusal>>, S::Pool)
    ensures { IsServedBy S.Pool.PoolSteps pool result.1 name
        (R.remaining input.old) (R.remaining input.new)
        (W.contents output.old) (W.contents output.new) result.0 }
{
    let export = match export_of::<S>(alloc, &pool, &name) {
        Ok(export) => export,
        Err(cause) => return (Err(Stop::Pool(cause)), pool),
    };
    let mut device = Device::new(pool, name, timestamp);
    let ended = stop_of(serve(alloc, &mut device, &export, input, output));
    (ended, device.into_core())
}

/// Opens the pool on the files, and serves a volume or a snapshot to whoever is at the other end of the input and the output, until that ends.
/// `NoMemory` also where all is committed, but memory ran out when it was asked whether a disk failed.
pub(crate) fn serve_volume<S: Pools, R: Read, W: Write>(
    alloc: Global,
    pools: &mut S,
    files: &Files,
    name: Name,
    timestamp: u64,
    input: &mut R,
    output: &mut W,
) -> Result<(), Stop<S::Refusal>>
    ensures done { OnOk result (IsServed S.Pools S.Pool.PoolSteps pools.old files.now name
        (R.remaining input.old) (R.remaining input.new)
        (W.contents output.old) (W.contents output.new) pools.new) }
    ensures stopped { IfErr result (IsServeStopped S.Pools S.Pool.PoolSteps pools.old files.now name
        (R.remaining input.old) (R.remaining input.new)
        (W.contents output.old) (W.contents output.new) pools.new) }
{
    let (pool, front) = match pools.open(alloc, files) {
        Ok(opened) => opened,
        Err(cause) => return Err(Stop::Pools(cause)),
    };
    let (ended, pool) = served::<S, R, W>(alloc, pool, name, timestamp, input, output);
    let has_lost = S::has_lost_disk(alloc, &pool, &front);
    pools.close(pool, front);
    match ended {
        Ok(()) => match has_lost {
            Ok(false) => Ok(()),
            Ok(true) => Err(Stop::DiskLost),
            Err(_) => Err(Stop::Pool(Refusal::NoMemory)),
        },
        Err(stop) => Err(stop),
    }
}
