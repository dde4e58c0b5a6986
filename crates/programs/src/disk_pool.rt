//! The pool's core over memory disks, as a machine for schedules.
ghost use Rattle.std.specs.Prelude.{ℕ, List, [], ◌∷◌, IfSome, IfNone};
ghost use Rattle.std.specs.Option.{SomeIff};
ghost use Rattle.pool_model.specs.View.{View};
ghost use Rattle.pool_create.specs.Represents.{Represents};
ghost use Rattle.pool_create.specs.CoreStateOf.{state_of};
ghost use Rattle.programs.specs.Outcomes.{Replies};
ghost use Rattle.programs.specs.Plays.{Plays};
ghost use Rattle.programs.specs.Runs.{StepsTruly, IsOneRun};
ghost use Rattle.programs.specs.Vdevs.{AreAllowedSizes, IsAllowedPool, IsVdevOf, metaslabs_over};
ghost use Rattle.schedule_lines.specs.declared.command.Command.{Command};

use crate::machine::StepMachine;
use block_store::{MAX_METASLAB_SHIFT, MIN_METASLAB_SHIFT, VdevConfig, sectors_for_blocks};
use model_disk::MemDisk;
use planners::{Planner, step_of};
use pool_create::Core;
use pool_model::{Refusal, Reply, Step};
use raidz_map::{Geometry, SECTOR_SHIFT};
use schedule_lines::PoolLine;
use std::alloc::Global;
use vdev_label::MAX_SLABS;

/// How many metaslabs a vdev has over disks of that size in bytes, where they are neither too small nor
/// too large.
fn metaslabs(vdev: VdevConfig, bytes: u64) -> Option<u64>
    ensures { SomeIff result (AreAllowedSizes bytes vdev.metaslab_shift)
        (metaslabs_over vdev.geometry.children bytes vdev.metaslab_shift) }
{
    if vdev.metaslab_shift < MIN_METASLAB_SHIFT || MAX_METASLAB_SHIFT < vdev.metaslab_shift {
        return None;
    }
    let sectors = u64::from(vdev.geometry.children) * sectors_for_blocks(bytes)?;
    Some(sectors >> vdev.metaslab_shift)
}

/// The vdev that the line asks for, where a pool may have it.
pub(crate) fn vdev_of(line: &PoolLine) -> Option<VdevConfig>
    ensures some { IfSome result (λ vdev. IsVdevOf line.now vdev) }
    ensures none { IfNone result (¬ IsAllowedPool line.now) }
{
    let Ok(geometry) = Geometry::new(line.disks, line.parities, SECTOR_SHIFT) else {
        return None;
    };
    let vdev = VdevConfig {
        geometry,
        metaslab_shift: line.metaslab_shift,
        meta_slabs: u64::from(line.meta_metaslabs),
    };
    let metaslabs = metaslabs(vdev, line.bytes)?;
    if vdev.meta_slabs == 0 || metaslabs <= vdev.meta_slabs || MAX_SLABS < metaslabs {
        return None;
    }
    Some(vdev)
}

impl StepMachine for Core<MemDisk> {
    ghost use Rattle.pool_create.specs.Started.{started_on_disks};
    ghost use Rattle.pool_create.specs.Represents.{Represents};
    ghost use Rattle.pool_create.specs.CoreStateOf.{state_of};
    ghost use Rattle.programs.specs.Runs.{StepsTruly};
    ghost use Rattle.programs.specs.Vdevs.{vdev_of, RefusesPool};

    ghost creates = { λ line core.
        Represents (state_of core) (started_on_disks (vdev_of line ∷ [])) };

    ghost refuses = { RefusesPool };

    // Disks in memory answer truly, so that nothing is asked of them.
    ghost steps = { λ old step reply new. StepsTruly (state_of old) step reply (state_of new) };

    /// At least one metaslab is for the pool's own blocks, and one for others, and there are at most 1,024: else it is
    /// `BadConfig`, as where a size or the shape isn't allowed. This is judged before memory is taken for the disks.
    fn create(alloc: Global, line: &PoolLine) -> Result<Core<MemDisk>, Refusal> {
        let Some(vdev) = vdev_of(line) else {
            return Err(Refusal::BadConfig);
        };
        let Ok(disks) = MemDisk::several(alloc, line.disks as usize, line.bytes as usize) else {
            return Err(Refusal::NoMemory);
        };
        Core::create(alloc, disks, &[vdev])
    }

    fn step<X: Planner>(&mut self, planner: &X, step: Step) -> Reply {
        let reply = step_of(planner, self, step);
        self.answers_are_true();
        reply
    }
}

/// A law: the commands of a schedule that a pool over disks in memory answers are one run of it, from
/// each view that it represents, with the whole headline.
pub fn schedules_are_runs(first: &Core<MemDisk>)
    ensures { (last : _) (v : View) (commands : List Command) (text : List ℕ)
        → Represents (state_of first.now) v
        → Plays (Replies (λ old step reply new.
        StepsTruly (state_of old) step reply (state_of new)))
        first.now commands text last
        → IsOneRun (state_of first.now) v commands text (state_of last) }
{
    let _ = first;
}
