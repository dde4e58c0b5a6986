//! Commands that change a pool.
ghost use Rattle.std.specs.Prelude.{◌≡◌, ℕ, IfErr, OnOk};
ghost use Rattle.pool_model.specs.declared.item.Change.{Change as ChangeOf};
ghost use Rattle.pool_model.specs.declared.item.Write.{Write as WriteOf};
ghost use Rattle.pool_model.specs.declared.step.Step.TheVariants as steps;
ghost use Rattle.commands.specs.Does.{IsChanged, IsNotChanged, act, written};

use crate::pools::Pools;
use crate::stop::Stop;
use command_steps::change;
use pool_command::Files;
use pool_model::{Action, Bytes, Change, Name, Refusal, Reply, Step, Write};
use std::alloc::Global;

/// The step that makes a change of the pool's volumes.
pub(crate) fn act(change: Change) -> Step
    ensures { result ≡ act change }
{
    Step::Act(Action {
        writer: 1,
        number: 1,
        change,
    })
}

/// The step that writes these bytes.
pub(crate) fn write(volume: Name, offset: u64, bytes: Vec<u8>) -> Step
    ensures { result ≡ written volume offset bytes.items }
{
    Step::Write(Write {
        writer: 1,
        number: 1,
        volume,
        offset,
        bytes: Bytes::new(bytes),
    })
}

/// Opens the pool on the files, takes the item, and commits it. `NoMemory` also where it is committed, but memory ran out when it was asked
/// whether a disk failed.
pub(crate) fn changed<S: Pools>(
    alloc: Global,
    pools: &mut S,
    files: &Files,
    item: Step,
    timestamp: u64,
) -> Result<(), Stop<S::Refusal>>
    ensures done { OnOk result (IsChanged S.Pools S.Pool.PoolSteps
        pools.old files.now timestamp item pools.new) }
    ensures stopped { IfErr result (IsNotChanged S.Pools S.Pool.PoolSteps
        pools.old files.now timestamp item pools.new) }
{
    let (mut pool, front) = match pools.open(alloc, files) {
        Ok(opened) => opened,
        Err(cause) => return Err(Stop::Pools(cause)),
    };
    let reply = change(&mut pool, item, timestamp);
    let has_lost = S::has_lost_disk(alloc, &pool, &front);
    pools.close(pool, front);
    match reply {
        Reply::Committed(_) => match has_lost {
            Ok(false) => Ok(()),
            Ok(true) => Err(Stop::DiskLost),
            Err(_) => Err(Stop::Pool(Refusal::NoMemory)),
        },
        Reply::Refused(cause) => Err(Stop::Pool(cause)),
        _ => Err(Stop::Pool(Refusal::NoMemory)),
    }
}
