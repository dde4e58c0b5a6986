//! Disks that are taken out of use.
ghost use Rattle.pool_model.specs.declared.step.Step.TheVariants as steps;
ghost use Rattle.pool_commit.specs.Calls.{GrewTo};
ghost use Rattle.pool_core.specs.Moves.{Moves};
ghost use Rattle.pool_core.specs.StateOf.{disks_in, state_of};
ghost use Rattle.pool_core.specs.Steps.{TakesStep};

use crate::pool::Core;
use model_disk::Disk;
use pool_model::{Refusal, Reply};

impl<D: Disk + Drop> Core<D> {
    /// Takes the disk of this number out of use, with no call on it. A suspended pool does so too.
    pub(crate) fn disk_out(&mut self, disk: usize) -> Reply
        ensures grew { GrewTo (disks_in self.old) (disks_in self.new) }
        ensures goes { TakesStep (state_of self.old) (steps.DiskOut disk) result
            (state_of self.new) }
        ensures moves { Moves (steps.DiskOut disk)
            (state_of self.old).commit (state_of self.new).commit }
    {
        if !self.commit.has_disk(disk) {
            return Reply::Refused(Refusal::OutOfRange);
        }
        if self.commit.is_out(disk) {
            return Reply::Refused(Refusal::NotNow);
        }
        self.commit.take_out(disk);
        Reply::Out
    }
}
