//! Cores over disks that answer truly.
ghost use Rattle.std.specs.Prelude.{ℕ};
ghost use Rattle.model_disk.specs.Joint.{AreHonestSince};
ghost use Rattle.pool_core.specs.State.{CoreState};
ghost use Rattle.pool_core.specs.StateOf.{disks_in, state_of};
ghost use Rattle.pool_core.specs.Steps.{AnswersTellThroughout};

use crate::pool::Core;
use model_disk::HonestDisk;

impl<D: HonestDisk + Drop> Core<D> {
    /// A law: of honest disks each answer was true, and so tells what was written. What a step or a run over memory disks says
    /// has no premise.
    pub fn answers_are_true(&self)
        ensures truly { (n : ℕ)
            → AreHonestSince n (disks_in self.now).starts (disks_in self.now).calls }
        ensures tell { (old : CoreState) → AnswersTellThroughout old (state_of self.now) }
    {
        self.commit.answers_are_true();
    }
}
