//! The core as those see it who run a pool.
ghost use Rattle.pool_core.specs.Parts.{came_none, came_on, tell_first, tell_rest};
ghost use Rattle.pool_core.specs.Linked.{IsLinked};
ghost use Rattle.pool_core.specs.Represents.{Represents};
ghost use Rattle.pool_core.specs.StateOf.{state_of};
ghost use Rattle.pool_core.specs.Steps.{AnswersTellThroughout, CameFrom};

use crate::pool::Core;
use model_disk::Disk;
use pool_model::{Reply, Step};
use pool_steps::{PoolSteps, most_bytes, within};

impl<D: Disk + Drop> PoolSteps for Core<D> {
    ghost represents = { λ core v. Represents (state_of core) v };

    ghost came_from = { λ first last. CameFrom (state_of first) (state_of last) };

    ghost answers_tell = { λ first last. AnswersTellThroughout (state_of first) (state_of last) };

    ghost links = { λ old v step given reply new w. IsLinked (state_of old) v step given reply (state_of new) w };

    ghost is_sound = { λ core v represents. represents.follows.sound };

    ghost came_from_itself = { λ core. came_none (state_of core) };

    ghost came_further = { λ first mid last before after.
        came_on (state_of first) (state_of mid) (state_of last) before after };

    ghost parts_tell = { λ first mid last before after tell. (
      tell_first (state_of first) (state_of mid) (state_of last) after tell,
      tell_rest (state_of first) (state_of mid) (state_of last) before tell,
    ) };

    fn take_step(&mut self, step: Step) -> Reply {
        let most = most_bytes(&step);
        within(most, self.step(step))
    }
}
