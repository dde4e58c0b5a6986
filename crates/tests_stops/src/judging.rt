//! Whether a pool is as it is to be after a stop.
use crate::reopening::{Seen, reopened};
use crate::runs::Run;
use crate::stopping::{Away, Stop, stop_at};
use pool_create::Refusal;
use std::alloc::{AllocError, Global};
use std::process::Abort;
use std::test::*;

/// The stops after which a pool isn't as it is to be, one behind another: of each, how many calls were made, which image was left (0: old, 1: new,
/// 2: mixed), and which disk was absent.
pub(crate) type Stops = [Option<(u64, u64, Option<usize>)>; 3];

/// The first of them, or why none was found.
pub(crate) type Outcome = Result<Option<Stops>, Refusal>;

/// The stop, where what was seen after it is wrong.
pub(crate) fn failure_of(run: &Run, stop: Stop, seen: Result<Seen, Refusal>) -> Option<Stops> {
    let failure = Some([Some((stop.cut, stop.image, stop.absent)), None, None]);
    let Ok(seen) = seen else {
        return failure;
    };
    for it in &run.history {
        if it.covers(stop.cut) && it.shown == seen.first && seen.last == seen.wanted {
            return None;
        }
    }
    failure
}

/// Each `of`-th stop of a run, from number `first` on.
#[derive(Clone, Copy)]
pub(crate) struct Part {
    pub(crate) first: u64,
    pub(crate) of: u64,
}

/// The first failure among these stops of a run, after each of which the pool is opened.
pub(crate) fn first_failure(
    alloc: Global,
    run: &Run,
    part: Part,
    away: Away,
) -> Result<Option<Stops>, AllocError> {
    let mut number = part.first;
    for tried in 0..run.stops {
        if number >= run.stops {
            break;
        }
        let stop = stop_at(number, tried, away);
        number = number.saturating_add(part.of);
        let images = run.images(alloc, stop.cut, stop.pattern)?;
        let seen = reopened(alloc, images, stop.absent, stop.goes_on);
        let failure = failure_of(run, stop, seen);
        if failure.is_some() {
            return Ok(failure);
        }
    }
    Ok(None)
}

/// These stops behind another one.
pub(crate) fn behind(stop: Stop, stops: Stops) -> Stops {
    let [first, second, _] = stops;
    [Some((stop.cut, stop.image, stop.absent)), first, second]
}

/// The first failure among the stops of a run that came after a stop of another one, or what that stop left wrong.
pub(crate) fn failure_after(
    alloc: Global,
    before: &Run,
    stop: Stop,
    run: &Run,
    part: Part,
    away: Away,
) -> Outcome {
    Ok(match first_failure(alloc, run, part, away)? {
        Some(stops) => Some(behind(stop, stops)),
        None => failure_of(
            before,
            stop,
            Ok(Seen {
                first: run.opened,
                wanted: run.opened,
                last: run.opened,
            }),
        ),
    })
}

/// There is to be no failure.
pub(crate) fn judge<R: Abort>(rt: &R, outcome: Outcome) {
    assert!(rt; outcome == Ok(None), "{outcome:?}");
}
