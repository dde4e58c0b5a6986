//! The core that threads share, whose plans a planner makes.
ghost use Rattle.pool_create.specs.Calls.{GrewTo};
ghost use Rattle.pool_create.specs.CoreStateOf.{disks_in, state_of};
ghost use Rattle.pool_create.specs.CoreSteps.{Link};
ghost use Rattle.pool_create.specs.Moves.{Moves};
ghost use Rattle.pool_create.specs.Represents.{Represents};

use model_disk::{MemDisk, Member};
use pool_model::{Reply, Step};
use pool_steps::{PoolSteps, most_bytes, within};
use programs::{Alone, Core, Planner, StepMachine, Workers};
use std::marker::{Brand, PhantomData};
use std::thread::Threads;

/// A planner that threads may share: what it stands on is a fact.
pub trait SharedPlanner: Planner {
    ghost use Rattle.std.specs.Prelude.{◌≡◌};

    ghost ready_once: { (one other : Self.Planner.ready) → one ≡ other };
}

impl SharedPlanner for Alone {
    ghost use Rattle.thread_schedules.specs.Once.{unit_once};

    ghost ready_once = { unit_once };
}

impl<'a, R: Threads + Sync> SharedPlanner for Workers<'a, R> {
    ghost use Rattle.thread_schedules.specs.Once.{sync_once};

    ghost ready_once = { sync_once R.row };
}

/// What the core represents that threads begin with.
pub(crate) trait Beginning {
    ghost use Rattle.pool_model.specs.View.{View};

    ghost represents: { View → Type 0 };
}

impl Beginning for Brand {
    ghost represents = { λ _. ⊥ };
}

/// A core that threads share.
#[derive(Drop)]
pub(crate) struct Begun<'a, X: SharedPlanner, J: Beginning> {
    pub(crate) core: Core<Member<MemDisk>>,
    pub(crate) planner: &'a X,
    pub(crate) beginning: PhantomData<J>,
    ghost ready: { ∥ X.ready ∥₁ },
}

impl<'a, X: SharedPlanner, J: Beginning> PoolSteps for Begun<'a, X, J> {
    ghost use Rattle.std.specs.Prelude.{◌≡◌};
    ghost use Rattle.pool_model.specs.View.{View};

    ghost represents = { λ it v. Represents (state_of it.core) v };

    ghost came_from = { λ _ _. Unit {0} };

    // Disks in memory answer truly. So all that is asked is that there is a view to begin with.
    ghost answers_tell = { λ _ _. (v : View) × J.represents v };

    ghost links = { λ old v step given reply new w. GrewTo (disks_in old.core) (disks_in new.core)
        × Link (state_of old.core) v step given reply (state_of new.core) w
        × Moves step (state_of old.core).commit (state_of new.core).commit };

    ghost is_sound = { λ it v represents. represents.follows.sound };

    ghost came_from_itself = { λ it. tt };

    ghost came_further = { λ first mid last before after. tt };

    ghost parts_tell = { λ first mid last before after truly. (truly, truly) };

    fn take_step(&mut self, step: Step) -> Reply {
        let most = most_bytes(&step);
        within(most, StepMachine::step(&mut self.core, self.planner, step))
    }
}
