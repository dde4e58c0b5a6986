//! Commands that print what a pool has.
ghost use Rattle.std.specs.Prelude.{◌≡◌, ℕ, IfErr, IfOk, OnOk, string_bytes};
ghost use Rattle.pool_command.specs.Tables.{list_text};
ghost use Rattle.pool_model.specs.View.{View, now_of};
ghost use Rattle.commands.specs.Does.{IsListed, IsNotRead, IsNotTold, IsRead, IsShown, IsStatusOf, IsTableOf};

use crate::pools::Pools;
use crate::stop::Stop;
use pool_command::{Files, list_text, status_text};
use pool_model::{Name, Refusal, Reply, Step};
use pool_steps::PoolSteps;
use std::alloc::Global;

/// The table of the pool's volumes.
fn table<S: Pools>(alloc: Global, pool: &S::Pool) -> Result<String, Refusal>
    ensures { IfOk result (λ text. IsTableOf S.Pool.PoolSteps pool.now (string_bytes text)) }
{
    let rows = S::rows(alloc, pool)?;
    match list_text(alloc, rows.as_slice()) {
        Ok(text) => Ok(text),
        Err(_) => Err(Refusal::NoMemory),
    }
}

/// What is told of the pool.
fn told<S: Pools>(alloc: Global, pool: &S::Pool, front: &S::Front) -> Result<String, Refusal>
    ensures { IfOk result (λ text. IsStatusOf S.shows pool.now front.now (string_bytes text)) }
{
    let Ok(status) = S::status(alloc, pool, front) else {
        return Err(Refusal::NoMemory);
    };
    match status_text(alloc, &status) {
        Ok(text) => Ok(text),
        Err(_) => Err(Refusal::NoMemory),
    }
}

/// Opens the pool on the files, and tells its volumes.
pub(crate) fn list<S: Pools>(
    alloc: Global,
    pools: &mut S,
    files: &Files,
) -> Result<String, Stop<S::Refusal>>
    ensures done { IfOk result (λ text. IsListed S.Pools S.Pool.PoolSteps
        pools.old files.now (string_bytes text) pools.new) }
    ensures stopped { IfErr result (IsNotTold S.Pools pools.old files.now pools.new) }
{
    let (pool, front) = match pools.open(alloc, files) {
        Ok(opened) => opened,
        Err(cause) => return Err(Stop::Pools(cause)),
    };
    let text = table::<S>(alloc, &pool);
    pools.close(pool, front);
    match text {
        Ok(text) => Ok(text),
        Err(cause) => Err(Stop::Pool(cause)),
    }
}

/// Opens the pool on the files, and tells what it is.
pub(crate) fn status<S: Pools>(
    alloc: Global,
    pools: &mut S,
    files: &Files,
) -> Result<String, Stop<S::Refusal>>
    ensures done { IfOk result (λ text. IsShown S.Pools
        pools.old files.now (string_bytes text) pools.new) }
    ensures stopped { IfErr result (IsNotTold S.Pools pools.old files.now pools.new) }
{
    let (pool, front) = match pools.open(alloc, files) {
        Ok(opened) => opened,
        Err(cause) => return Err(Stop::Pools(cause)),
    };
    let text = told::<S>(alloc, &pool, &front);
    pools.close(pool, front);
    match text {
        Ok(text) => Ok(text),
        Err(cause) => Err(Stop::Pool(cause)),
    }
}

/// Opens the pool on the files, and reads a range of a volume or a snapshot.
pub(crate) fn read<S: Pools>(
    alloc: Global,
    pools: &mut S,
    files: &Files,
    name: Name,
    offset: u64,
    len: u64,
) -> Result<Vec<u8>, Stop<S::Refusal>>
    ensures done { IfOk result (λ bytes. IsRead S.Pools S.Pool.PoolSteps
        pools.old files.now name offset len bytes.items pools.new) }
    ensures stopped { IfErr result (IsNotRead S.Pools S.Pool.PoolSteps
        pools.old files.now name offset len pools.new) }
{
    let (mut pool, front) = match pools.open(alloc, files) {
        Ok(opened) => opened,
        Err(cause) => return Err(Stop::Pools(cause)),
    };
    let reply = pool.take_step(Step::Read { name, offset, len });
    pools.close(pool, front);
    match reply {
        Reply::Bytes(bytes) => match bytes.into_vec(alloc) {
            Ok(bytes) => Ok(bytes),
            Err(_) => Err(Stop::Pool(Refusal::NoMemory)),
        },
        Reply::Refused(cause) => Err(Stop::Pool(cause)),
        _ => Err(Stop::Pool(Refusal::NoMemory)),
    }
}
