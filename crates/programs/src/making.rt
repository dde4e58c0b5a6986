//! The pool's core on disks that a schedule makes.
ghost use Rattle.std.specs.Prelude.{◌≡◌, ◌∷◌, [], IfErr, IfOk};
ghost use Rattle.block_store.specs.Config.{sectors_of};
ghost use Rattle.pool_create.specs.CoreStateOf.{state_of};
ghost use Rattle.programs.specs.Making.{IsAsked, IsMadeOn, RefusesOnDisks, cause_of, child_guids, plain_vdev};
ghost use Rattle.vdev_label.specs.Plain.{config_view};

use crate::disk_pool::vdev_of;
use crate::machine::StepMachine;
use block_store::sectors_for_blocks;
use model_disk::{MemDisk, Member};
use planners::{Planner, step_of};
use pool_create::{Core, create};
use pool_format::PoolIdentity;
use pool_model::{Refusal, Reply, Step};
use schedule_lines::PoolLine;
use std::alloc::{AllocError, Global};
use vdev_label::{Config, Vdev};

/// The guids of so many disks.
fn child_guids(alloc: Global, count: u32) -> Result<Vec<u64>, AllocError>
    ensures { IfOk result (λ guids. guids.items ≡ child_guids count) }
{
    let mut guids = Vec::new(alloc);
    for child in 0..count {
        guids.push(101 + u64::from(child))?;
    }
    Ok(guids)
}

/// The configuration that the line asks for, over disks that have so many sectors for blocks.
fn config_of(alloc: Global, line: &PoolLine, sectors: u64) -> Result<Config, AllocError>
    requires { sectors ≡ sectors_of line.now.bytes }
    ensures { IfOk result (λ config. config_view config ≡ plain_vdev line.now ∷ []) }
{
    let vdev = Vdev {
        guid: 100,
        parity: u64::from(line.parities),
        child_sectors: sectors,
        slab_shift: u64::from(line.metaslab_shift),
        meta_slabs: u64::from(line.meta_metaslabs),
        children: child_guids(alloc, line.disks)?,
    };
    Ok(Config {
        vdevs: vec![in alloc; vdev]?,
    })
}

/// The pool and the configuration that the line asks for.
fn asked(alloc: Global, line: &PoolLine, sectors: u64) -> Result<(PoolIdentity, Config), AllocError>
    requires { sectors ≡ sectors_of line.now.bytes }
    ensures { IfOk result (λ asked. IsAsked line.now asked.0 asked.1) }
{
    let pool = PoolIdentity {
        name: String::from_str(alloc, "pool")?,
        guid: 1,
    };
    Ok((pool, config_of(alloc, line, sectors)?))
}

/// The cause that is printed of a refusal.
fn cause_of(refusal: pool_create::Refusal) -> Refusal
    ensures { result ≡ cause_of refusal }
{
    match refusal {
        pool_create::Refusal::NoMemory => Refusal::NoMemory,
        pool_create::Refusal::DiskFault => Refusal::DiskFault,
        pool_create::Refusal::NoSpace => Refusal::NoSpace,
        pool_create::Refusal::BadPointer => Refusal::BadPointer,
        pool_create::Refusal::BadDigest => Refusal::BadDigest,
        pool_create::Refusal::BadMap => Refusal::BadMap,
        pool_create::Refusal::BadLabel(_)
        | pool_create::Refusal::NoUberblock
        | pool_create::Refusal::TooManyMissing
        | pool_create::Refusal::PoolMismatch
        | pool_create::Refusal::BadConfig => Refusal::BadConfig,
    }
}

/// The core of the pool that the line asks for, on blank disks that have so many sectors for blocks.
fn made(alloc: Global, line: &PoolLine, sectors: u64) -> Result<Core<Member<MemDisk>>, Refusal>
    requires { sectors ≡ sectors_of line.now.bytes }
    ensures made { IfOk result (λ core. IsMadeOn line.now (state_of core)) }
    ensures refused { IfErr result (RefusesOnDisks line.now) }
{
    let Ok((pool, config)) = asked(alloc, line, sectors) else {
        return Err(Refusal::NoMemory);
    };
    let Ok(disks) = MemDisk::several(alloc, line.disks as usize, line.bytes as usize) else {
        return Err(Refusal::NoMemory);
    };
    match create(alloc, disks, pool, config) {
        Ok(opened) => {
            opened.core.answers_are_true();
            Ok(opened.core)
        }
        Err((refusal, _)) => Err(cause_of(refusal)),
    }
}

impl StepMachine for Core<Member<MemDisk>> {
    ghost use Rattle.pool_create.specs.CoreStateOf.{state_of};
    ghost use Rattle.programs.specs.Making.{IsMadeOn, RefusesOnDisks};
    ghost use Rattle.programs.specs.Runs.{StepsTruly};

    ghost creates = { λ line core. IsMadeOn line (state_of core) };

    ghost refuses = { RefusesOnDisks };

    // Disks in memory answer truly, so that nothing is asked of them.
    ghost steps = { λ old step reply new. StepsTruly (state_of old) step reply (state_of new) };

    /// At least one metaslab is for the pool's own blocks, and one for others: else it is `BadConfig`, as
    /// where a size or the shape isn't allowed.
    fn create(alloc: Global, line: &PoolLine) -> Result<Core<Member<MemDisk>>, Refusal> {
        if vdev_of(line).is_none() {
            return Err(Refusal::BadConfig);
        }
        let Some(sectors) = sectors_for_blocks(line.bytes) else {
            return Err(Refusal::BadConfig);
        };
        made(alloc, line, sectors)
    }

    fn step<X: Planner>(&mut self, planner: &X, step: Step) -> Reply {
        let reply = step_of(planner, self, step);
        self.answers_are_true();
        reply
    }
}
