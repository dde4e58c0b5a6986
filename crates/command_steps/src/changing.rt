//! Changes: an item under a hold, and the commit of its group.
ghost use Rattle.std.specs.Prelude.{◌≡◌};
ghost use Rattle.command_steps.specs.Changes.{Changes};
ghost use Rattle.command_steps.specs.Due.{is_refused};

use crate::committing::run_on;
use pool_model::{Reply, Step};
use pool_steps::PoolSteps;

/// The one writer of a command.
const WRITER: u32 = 1;

/// Takes an item, a write or an action of writer 1, under a hold of the open group, gives the hold back, closes the group and
/// commits it. The item has the writer's next number: of a pool that was just opened, 1. The timestamp goes into the
/// uberblock.
///
/// `Committed` says that the next group is committed: of a pool at rest, with the item alone. The first refusal ends it and
/// is the answer: no group is committed then. Where what the disks answer tells what was written, another answer comes only after 2^64 steps.
pub fn change<P: PoolSteps>(pool: &mut P, item: Step, timestamp: u64) -> Reply
    ensures follows { P.came_from pool.old pool.new }
    ensures changes { Changes P.PoolSteps timestamp pool.old item result pool.new }
{
    let held = pool.take_step(Step::Hold(WRITER));
    if is_refused(&held) {
        return held;
    }
    let taken = pool.take_step(item);
    if is_refused(&taken) {
        return taken;
    }
    let released = pool.take_step(Step::Release(WRITER));
    if is_refused(&released) {
        return released;
    }
    run_on(pool, Step::Close, timestamp)
}

fn is_refused(reply: &Reply) -> bool
    ensures { result ≡ is_refused reply.now }
{
    matches!(reply, Reply::Refused(_))
}
