//! The steps of a core.
ghost use Rattle.std.specs.Prelude.{◌≡◌, ◌≤◌, ◌<◌};
ghost use Rattle.pool_model.specs.declared.step.Step.{Step};
ghost use Rattle.pool_model.specs.declared.step.Step.TheVariants as steps;
ghost use Rattle.pool_model.specs.declared.step.Reply.{Reply};
ghost use Rattle.pool_model.specs.Sound.{IsSound};
ghost use Rattle.pool_model.specs.View.{View, Given};
ghost use Rattle.pool_steps.specs.Goes.{Goes};
ghost use Rattle.pool_steps.specs.Room.{bytes_in, most_bytes};

use pool_model::{Reply, Step};
use std::thread::Threads;
use worker_items::Gate;

/// The most bytes that one read gives: 1 MiB.
const MOST_READ: u64 = 1 << 20;

/// What takes the steps of a pool.
pub trait PoolSteps: Drop {
    // The core is in a state that the view describes.
    ghost represents: { Self → View → Type 0 };

    // The second core came from the first by steps.
    ghost came_from: { Self → Self → Type 0 };

    // What the disks answered from the first core up to the second tells what was written.
    ghost answers_tell: { Self → Self → Type 0 };

    // From core and view a step, with what was given to it, and its reply lead to this core and view: what it did to the disks.
    ghost links: { Self → View → Step → Given → Reply → Self → View → Type 0 };

    /// Takes one step. From each view that the core represents it is one of the machine, where what the disks answer tells what was written.
    fn take_step(&mut self, step: Step) -> Reply
        ensures follows { came_from self.old self.new }
        ensures goes { Goes represents answers_tell links self.old step result self.new }
        ensures room { bytes_in result ≤ most_bytes step };

    /// Takes the step Plan. A core may share its work among so many workers, who pass the gate before each item that they make. A core that
    /// doesn't say how plans alone, and nobody passes the gate.
    fn plan_with<R: Threads + Sync, G: Gate + Sync>(
        &mut self,
        rt: &R,
        gate: &G,
        workers: usize,
        timestamp: u64,
    ) -> Reply
        requires { 0 < workers }
        ensures follows { came_from self.old self.new }
        ensures goes { Goes represents answers_tell links
            self.old (steps.Plan timestamp) result self.new }
        ensures room { bytes_in result ≡ 0 }
    {
        let _ = rt;
        let _ = gate;
        let _ = workers;
        self.take_step(Step::Plan { timestamp })
    }

    ghost is_sound: { (core : Self) (v : View) → represents core v → IsSound v };

    ghost came_from_itself: { (core : Self) → came_from core core };

    ghost came_further: { (first mid last : Self) → came_from first mid → came_from mid last → came_from first last };

    // Each part of what tells tells too.
    ghost parts_tell: { (first mid last : Self) → came_from first mid → came_from mid last →
        answers_tell first last → answers_tell first mid × answers_tell mid last };
}

/// The most bytes that the reply to the step can have: of a read its length, where that is at most 1 MiB.
pub fn most_bytes(step: &Step) -> usize
    ensures { result ≡ most_bytes step.now }
{
    match step {
        Step::Read { len, .. } | Step::ReadUnder { len, .. } => {
            if *len <= MOST_READ { *len as usize } else { 0 }
        }
        _ => 0,
    }
}
