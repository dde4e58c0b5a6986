//! What helps who gave a line of which the pool was not opened or made.
use crate::pools::Pools;
use pool_command::{Command, Files, ZfsCommand, ZpoolCommand, parse};
use std::alloc::Global;
use std::io::Write;

/// The files of the pool that a line of `zfs` opens.
fn zfs_files(command: &ZfsCommand) -> &Files {
    match command {
        ZfsCommand::Create { files, .. }
        | ZfsCommand::Snapshot { files, .. }
        | ZfsCommand::Clone { files, .. }
        | ZfsCommand::Destroy { files, .. }
        | ZfsCommand::List { files }
        | ZfsCommand::Write { files, .. }
        | ZfsCommand::WriteAll { files, .. }
        | ZfsCommand::Read { files, .. }
        | ZfsCommand::ReadAll { files, .. }
        | ZfsCommand::Serve { files, .. } => files,
    }
}

/// Tells in further lines what the pools know of the refusal beside its cause: of a new pool what doesn't fit, and else which files are no disks of a pool.
pub(crate) fn explain<S: Pools, E: Write>(
    alloc: Global,
    pools: &S,
    words: &[&str],
    cause: &S::Refusal,
    errors: &mut E,
) {
    let program = words.first().copied().unwrap_or("zpool");
    let Ok(command) = parse(alloc, words) else {
        return;
    };
    let files = match &command {
        Command::Zpool(ZpoolCommand::Create(pool)) => {
            pools.explain_new(pool, cause, program, errors);
            return;
        }
        Command::Zpool(ZpoolCommand::Add(vdev)) => &vdev.files,
        Command::Zpool(
            ZpoolCommand::Status { files }
            | ZpoolCommand::Scrub { files }
            | ZpoolCommand::Export { files },
        ) => files,
        Command::Zfs(command) => zfs_files(command),
    };
    pools.explain_files(alloc, files, cause, program, errors);
}
