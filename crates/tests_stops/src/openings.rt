//! Stops of opens that come after a stop, and of the opens after these.
use crate::images::{Left, Pattern};
use crate::judging::{Outcome, Part, behind, failure_after, failure_of};
use crate::runs::Run;
use crate::stages::{OPENS_ALONE, Schedule, next_run};
use crate::stopping::{Away, Stop, stop_at};
use std::alloc::Global;

/// Stops of the last group by what was made of its slots, from the first of which `cut` counts: disk 0 has all four of its own, or disk 1 two more.
const IN_SLOTS: [Stop; 3] = [
    Stop {
        cut: 3,
        image: 1,
        pattern: Pattern::Every(Left::New),
        absent: None,
        goes_on: false,
    },
    // Disk 0 isn't there as the pool is opened, and is behind it.
    Stop {
        cut: 3,
        image: 1,
        pattern: Pattern::Every(Left::New),
        absent: Some(0),
        goes_on: false,
    },
    Stop {
        cut: 5,
        image: 2,
        pattern: Pattern::InTurn(1),
        absent: Some(2),
        goes_on: false,
    },
];

/// The first failure of an open after a stop, which goes on as the schedule says, and among stops of its own.
pub(crate) fn stopped(
    alloc: Global,
    run: &Run,
    stop: Stop,
    schedule: &Schedule,
    part: Part,
    away: Away,
) -> Outcome {
    match next_run(alloc, run, stop, schedule) {
        Ok(opening) => failure_after(alloc, run, stop, &opening, part, away),
        Err(refusal) => Ok(failure_of(run, stop, Err(refusal))),
    }
}

/// The first failure among the opens after an open that came after a stop, and is stopped itself.
fn stopped_again(alloc: Global, opening: &Run, stop: Stop, part: Part) -> Outcome {
    let mut number = part.first;
    for tried in 0..opening.stops {
        if number >= opening.stops {
            break;
        }
        let again = Part {
            first: number % 13,
            of: 13,
        };
        let next = stop_at(number, tried, Away::Any);
        number = number.saturating_add(part.of);
        let failure = stopped(alloc, opening, next, &OPENS_ALONE, again, Away::Any)?;
        if let Some(stops) = failure {
            return Ok(Some(behind(stop, stops)));
        }
    }
    Ok(None)
}

/// The first failure of an open after one of the stops: the open is stopped too, or it and the one after it.
pub(crate) fn first_stopped(alloc: Global, run: &Run, part: Part, is_twice: bool) -> Outcome {
    for stop in &IN_SLOTS {
        let stop = run.in_slots(*stop);
        let failure = if is_twice {
            let opening = next_run(alloc, run, stop, &OPENS_ALONE)?;
            stopped_again(alloc, &opening, stop, part)?
        } else {
            stopped(alloc, run, stop, &OPENS_ALONE, part, Away::Any)?
        };
        if failure.is_some() {
            return Ok(failure);
        }
    }
    Ok(None)
}
