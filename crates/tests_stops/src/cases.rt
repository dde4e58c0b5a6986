//! What is stopped, and at which of its calls.
use crate::history::Possible;
use crate::images::{Left, Pattern};
use crate::judging::{Outcome, Part, first_failure, judge};
use crate::openings::{first_stopped, stopped};
use crate::pools::made;
use crate::runs::{Run, recorded};
use crate::stages::{FIRST, LATER, NEW, Schedule, next_run};
use crate::stopping::{Away, Stop};
use pool_create::Refusal;
use std::alloc::Global;
use std::test::*;

/// What is stopped.
#[derive(Clone, Copy)]
enum Stopped {
    /// A new pool as it is opened, commits its groups and is exported: all parts together stop it at each call, with each image.
    Commits,
    /// The pool that is opened after a stop without a disk, commits two groups and is exported. The disk is there again after some of the
    /// stops, and lacks what was written without it.
    CommitsWithout,
    /// The open after a stop.
    Opens,
    /// That open and the next one.
    OpensTwice,
}

/// A new pool's run.
fn first_run(alloc: Global, schedule: &Schedule) -> Result<Run, Refusal> {
    let new = Possible {
        shown: NEW,
        from: 0,
        until: u64::MAX,
    };
    let possible = vec![in alloc; new]?;
    recorded(alloc, made(alloc)?, None, possible, schedule)
}

/// The last group is stopped once disk 0 has its slots and the others have none. Disk 1 isn't there then.
const HALFWAY: Stop = Stop {
    cut: 3,
    image: 1,
    pattern: Pattern::Every(Left::New),
    absent: Some(1),
    goes_on: false,
};

/// The first failure among these stops of a new pool's run, or of what comes behind one of its stops.
fn outcome(alloc: Global, what: Stopped, part: Part) -> Outcome {
    let run = first_run(alloc, &FIRST)?;
    match what {
        Stopped::Commits => first_failure(alloc, &run, part, Away::Any).map_err(Refusal::from),
        Stopped::CommitsWithout => {
            let halfway = run.in_slots(HALFWAY);
            stopped(alloc, &run, halfway, &LATER, part, Away::Only(1))
        }
        Stopped::Opens => first_stopped(alloc, &run, part, false),
        Stopped::OpensTwice => first_stopped(alloc, &run, part, true),
    }
}

/// How many stops there are of a new pool's run, and of the run behind its halfway stop: of each with its export, and without.
#[test]
fn runs_have_so_many_stops(rt: HostRuntime) -> Result<(), Fail> {
    let alloc = rt.alloc();
    let mut first = FIRST;
    let mut later = LATER;
    let run = first_run(alloc, &first)?;
    let halfway = run.in_slots(HALFWAY);
    let behind = next_run(alloc, &run, halfway, &later)?;
    first.is_exported = false;
    later.is_exported = false;
    let unexported = first_run(alloc, &first)?.stops;
    let behind_unexported = next_run(alloc, &run, halfway, &later)?.stops;
    let numbers = [run.stops, unexported, behind.stops, behind_unexported];
    assert!(rt; numbers == [2124, 2070, 630, 594], "{numbers:?}");
    Ok(())
}

#[test]
fn first_fifth_of_the_stops_shows_a_whole_group(rt: HostRuntime) {
    let part = Part { first: 0, of: 5 };
    judge(&rt, outcome(rt.alloc(), Stopped::Commits, part));
}

#[test]
fn second_fifth_of_the_stops_shows_a_whole_group(rt: HostRuntime) {
    let part = Part { first: 1, of: 5 };
    judge(&rt, outcome(rt.alloc(), Stopped::Commits, part));
}

#[test]
fn third_fifth_of_the_stops_shows_a_whole_group(rt: HostRuntime) {
    let part = Part { first: 2, of: 5 };
    judge(&rt, outcome(rt.alloc(), Stopped::Commits, part));
}

#[test]
fn fourth_fifth_of_the_stops_shows_a_whole_group(rt: HostRuntime) {
    let part = Part { first: 3, of: 5 };
    judge(&rt, outcome(rt.alloc(), Stopped::Commits, part));
}

#[test]
fn fifth_fifth_of_the_stops_shows_a_whole_group(rt: HostRuntime) {
    let part = Part { first: 4, of: 5 };
    judge(&rt, outcome(rt.alloc(), Stopped::Commits, part));
}

#[test]
fn stops_without_a_disk_leave_a_whole_group(rt: HostRuntime) {
    let part = Part { first: 0, of: 2 };
    judge(&rt, outcome(rt.alloc(), Stopped::CommitsWithout, part));
}

#[test]
fn opens_are_stopped(rt: HostRuntime) {
    let part = Part { first: 0, of: 1 };
    judge(&rt, outcome(rt.alloc(), Stopped::Opens, part));
    let part = Part { first: 2, of: 16 };
    judge(&rt, outcome(rt.alloc(), Stopped::OpensTwice, part));
}
