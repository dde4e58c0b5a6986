//! Commits that stop.
ghost use Rattle.std.specs.Prelude.{◌≡◌, ◌<◌, ◌≤◌, MatchOption};
ghost use Rattle.programs.specs.Stops.{FallsShort, StopsAt, after_blocks, after_slots, commit_point, in_use_below, is_left_out};
ghost use Rattle.programs.specs.Stops.{is_moved as moved, is_same as same};

use crate::machine::StepMachine;
use line_steps::next_step;
use planners::Planner;
use pool_model::{Phase, Reply, Step};
use schedule_lines::StopPoint;

/// Where a commit stops: behind a reply which says that calls of this phase were made, and so many before it which said so.
#[derive(Clone, Copy, PartialEq, Eq)]
pub(crate) struct Point {
    pub(crate) phase: Phase,
    pub(crate) before: u64,
}

fn is_same(one: Phase, other: Phase) -> bool
    ensures { result ≡ same one other }
{
    matches!(
        (one, other),
        (Phase::Blocks, Phase::Blocks)
            | (Phase::BlocksFlush, Phase::BlocksFlush)
            | (Phase::Slots, Phase::Slots)
            | (Phase::SlotsFlush, Phase::SlotsFlush)
    )
}

/// Whether the reply says that calls of this phase were made.
fn is_moved(phase: Phase, reply: &Reply) -> bool
    ensures { result ≡ moved phase reply.now }
{
    match reply {
        Reply::Moved(other) => is_same(phase, *other),
        _ => false,
    }
}

/// Takes a step, and each step that brings its group on, until the point is reached: none then, and else the last reply.
pub(crate) fn run_to<P: StepMachine, X: Planner>(
    planner: &X,
    pool: &mut P,
    step: Step,
    point: Point,
) -> Option<Reply>
    requires { X.ready }
    ensures { MatchOption result (StopsAt P.steps point pool.old step pool.new)
        (λ last. FallsShort P.steps point pool.old step last pool.new) }
{
    let mut left = point.before;
    let mut reply = pool.step(planner, step);
    for _ in 0..u64::MAX {
        if is_moved(point.phase, &reply) {
            if left == 0 {
                return None;
            }
            left -= 1;
        }
        let Some(step) = next_step(&reply) else {
            return Some(reply);
        };
        reply = pool.step(planner, step);
    }
    Some(reply)
}

/// Whether the disk of this number is left out.
pub(crate) fn is_left_out(absent: &[u32], number: usize) -> bool
    ensures { result ≡ is_left_out absent.now number }
{
    for i in 0..absent.len() {
        if absent[i] as usize == number {
            return true;
        }
    }
    false
}

/// How many disks of a number below this one are in use.
fn count_in_use(absent: &[u32], bound: usize) -> u64
    ensures { result ≡ in_use_below absent.now bound }
{
    let mut count = 0;
    for number in 0..bound {
        if !is_left_out(absent, number) {
            count += 1;
        }
    }
    count
}

fn after_blocks(in_use: u64) -> Point
    ensures { result ≡ after_blocks in_use }
{
    Point {
        phase: Phase::BlocksFlush,
        before: in_use.saturating_sub(1) / 4,
    }
}

fn after_slots(in_use: u64, written: u64) -> Point
    ensures { result ≡ after_slots in_use written }
{
    if written == 0 {
        return after_blocks(in_use);
    }
    Point {
        phase: Phase::Slots,
        before: written - 1,
    }
}

/// Where a commit stops, of a pool on so many disks without the absent ones.
pub(crate) fn commit_point(count: usize, absent: &[u32], stop: Option<StopPoint>) -> Option<Point>
    ensures { result ≡ commit_point count absent.now stop }
{
    match stop {
        Some(StopPoint::Blocks) => Some(after_blocks(count_in_use(absent, count))),
        Some(StopPoint::Slots { disks }) => Some(after_slots(
            count_in_use(absent, count),
            count_in_use(absent, count.min(disks as usize)),
        )),
        Some(StopPoint::Claim { .. }) | None => None,
    }
}
