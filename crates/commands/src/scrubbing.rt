//! The command that looks at all that a pool holds, and mends it.
ghost use Rattle.std.specs.Prelude.{IfErr, IfOk, string_bytes};
ghost use Rattle.commands.specs.Does.{IsNotScrubbed, IsScrubbed};

use crate::pools::Pools;
use crate::stop::Stop;
use command_steps::commit;
use pool_command::{Files, scrub_text};
use pool_model::{Refusal, Reply};
use std::alloc::Global;

/// Scrubs the pool on the files, and commits a group, so that no disk that is whole again goes on as stale: what is told of it. `NoMemory` also
/// where it is committed, but memory ran out behind that.
pub(crate) fn scrub<S: Pools>(
    alloc: Global,
    pools: &mut S,
    files: &Files,
    timestamp: u64,
) -> Result<String, Stop<S::Refusal>>
    ensures done { IfOk result (λ text. IsScrubbed S.Pools S.Pool.PoolSteps
        pools.old files.now timestamp (string_bytes text) pools.new) }
    ensures stopped { IfErr result (IsNotScrubbed S.Pools S.Pool.PoolSteps
        pools.old files.now timestamp pools.new) }
{
    let (mut pool, front, report) = match pools.scrub(alloc, files) {
        Ok(scrubbed) => scrubbed,
        Err(cause) => return Err(Stop::Pools(cause)),
    };
    let reply = commit(&mut pool, timestamp);
    let has_lost = S::has_lost_disk(alloc, &pool, &front);
    pools.close(pool, front);
    match reply {
        Reply::Committed(_) => match has_lost {
            Ok(false) => Ok(scrub_text(alloc, &report)?),
            Ok(true) => Err(Stop::DiskLost),
            Err(_) => Err(Stop::Pool(Refusal::NoMemory)),
        },
        Reply::Refused(cause) => Err(Stop::Pool(cause)),
        _ => Err(Stop::Pool(Refusal::NoMemory)),
    }
}
