//! What a command does, up to what it prints.
ghost use Rattle.std.specs.Prelude.{◌≡◌, [], IfErr, IfOk, OnOk};
ghost use Rattle.pool_command.specs.declared.command.Command.TheVariants.{Zfs};
ghost use Rattle.commands.specs.Does.{IsChanged, IsNotChanged, act};
ghost use Rattle.commands.specs.Performs.{Does, DoesZfs, DoesZpool, IsExported, IsNotExported, IsNotMade, IsPlain, Stops, StopsZfs, StopsZpool};

use crate::changing::{act, changed, write};
use crate::input::read_input;
use crate::pools::Pools;
use crate::scrubbing::scrub;
use crate::stop::Stop;
use crate::streaming::write_all;
use crate::telling::{list, read, status};
use pool_command::{Command, Files, NewPool, ZfsCommand, ZpoolCommand};
use pool_model::Change;
use std::alloc::Global;
use std::io::Read;

/// Opens the pool on the files, and puts it away.
fn export<S: Pools>(alloc: Global, pools: &mut S, files: &Files) -> Result<(), Stop<S::Refusal>>
    ensures done { OnOk result (IsExported S.Pools pools.old files.now pools.new) }
    ensures stopped { IfErr result (IsNotExported S.Pools pools.old files.now pools.new) }
{
    let (pool, front) = match pools.open(alloc, files) {
        Ok(opened) => opened,
        Err(cause) => return Err(Stop::Pools(cause)),
    };
    match pools.export(alloc, pool, front) {
        Ok(()) => Ok(()),
        Err(cause) => Err(Stop::Pools(cause)),
    }
}

/// Makes a pool on new files.
fn create<S: Pools>(alloc: Global, pools: &mut S, pool: NewPool) -> Result<(), Stop<S::Refusal>>
    ensures done { OnOk result (S.makes pools.old pool pools.new) }
    ensures stopped { IfErr result (λ stop. IsNotMade S.Pools pools.old pools.new stop
        (λ cause. S.refuses_new pools.old pool cause pools.new)) }
{
    match pools.create(alloc, pool) {
        Ok(()) => Ok(()),
        Err(cause) => Err(Stop::Pools(cause)),
    }
}

/// Does what a line of `zpool` asks for: what it prints.
fn zpool<S: Pools>(
    alloc: Global,
    pools: &mut S,
    command: ZpoolCommand,
    timestamp: u64,
) -> Result<Vec<u8>, Stop<S::Refusal>>
    ensures done { IfOk result (λ printed. DoesZpool S.Pools S.Pool.PoolSteps
        command timestamp pools.old printed.items pools.new) }
    ensures stopped { IfErr result (λ stop. StopsZpool S.Pools S.Pool.PoolSteps
        command timestamp pools.old stop pools.new) }
{
    match command {
        ZpoolCommand::Create(pool) => create(alloc, pools, pool)?,
        ZpoolCommand::Status { files } => return Ok(status(alloc, pools, &files)?.into_bytes()),
        ZpoolCommand::Scrub { files } => {
            return Ok(scrub(alloc, pools, &files, timestamp)?.into_bytes());
        }
        ZpoolCommand::Export { files } => export(alloc, pools, &files)?,
        ZpoolCommand::Add(_) => return Err(Stop::NotThere),
    }
    Ok(Vec::new(alloc))
}

/// Changes the pool on the files: nothing is printed.
fn make<S: Pools>(
    alloc: Global,
    pools: &mut S,
    files: &Files,
    change: Change,
    timestamp: u64,
) -> Result<Vec<u8>, Stop<S::Refusal>>
    ensures done { IfOk result (λ printed. (printed.items ≡ [])
        × IsChanged S.Pools S.Pool.PoolSteps
        pools.old files.now timestamp (act change) pools.new) }
    ensures stopped { IfErr result (IsNotChanged S.Pools S.Pool.PoolSteps
        pools.old files.now timestamp (act change) pools.new) }
{
    changed(alloc, pools, files, act(change), timestamp)?;
    Ok(Vec::new(alloc))
}

/// Does what a line of `zfs` asks for: what it prints.
fn zfs<S: Pools, R: Read>(
    alloc: Global,
    pools: &mut S,
    command: ZfsCommand,
    timestamp: u64,
    input: &mut R,
) -> Result<Vec<u8>, Stop<S::Refusal>>
    requires { IsPlain (Zfs command) }
    ensures done { IfOk result (λ printed. DoesZfs
        S.Pools S.Pool.PoolSteps command timestamp (R.remaining input.old) pools.old printed.items pools.new) }
    ensures stopped { IfErr result (λ stop. StopsZfs
        S.Pools S.Pool.PoolSteps command timestamp (R.remaining input.old) pools.old stop pools.new) }
{
    let (files, change) = match command {
        ZfsCommand::Create {
            size,
            block_size,
            name,
            files,
        } => (
            files,
            Change::Create {
                name,
                size,
                block_size,
            },
        ),
        ZfsCommand::Snapshot {
            volume,
            part,
            files,
        } => (files, Change::Snapshot { volume, part }),
        ZfsCommand::Clone {
            snapshot,
            name,
            files,
        } => (files, Change::Clone { snapshot, name }),
        ZfsCommand::Destroy { name, files } => (files, Change::Destroy { name }),
        ZfsCommand::List { files } => return Ok(list(alloc, pools, &files)?.into_bytes()),
        ZfsCommand::Read {
            offset,
            len,
            name,
            files,
        } => {
            return read(alloc, pools, &files, name, offset, len);
        }
        ZfsCommand::Write {
            offset,
            name,
            files,
        } => {
            let bytes = read_input(alloc, input)?;
            changed(alloc, pools, &files, write(name, offset, bytes), timestamp)?;
            return Ok(Vec::new(alloc));
        }
        ZfsCommand::WriteAll { name, files } => {
            write_all(alloc, pools, &files, name, timestamp, input)?;
            return Ok(Vec::new(alloc));
        }
        ZfsCommand::ReadAll { .. } | ZfsCommand::Serve { .. } => return Ok(Vec::new(alloc)),
    };
    make(alloc, pools, &files, change, timestamp)
}

/// Does what a line asks for: what it prints.
pub(crate) fn perform<S: Pools, R: Read>(
    alloc: Global,
    pools: &mut S,
    command: Command,
    timestamp: u64,
    input: &mut R,
) -> Result<Vec<u8>, Stop<S::Refusal>>
    requires { IsPlain command }
    ensures done { IfOk result (λ printed. Does
        S.Pools S.Pool.PoolSteps command timestamp (R.remaining input.old) pools.old printed.items pools.new) }
    ensures stopped { IfErr result (λ stop. Stops
        S.Pools S.Pool.PoolSteps command timestamp (R.remaining input.old) pools.old stop pools.new) }
{
    match command {
        Command::Zpool(command) => zpool(alloc, pools, command, timestamp),
        Command::Zfs(command) => zfs(alloc, pools, command, timestamp, input),
    }
}
