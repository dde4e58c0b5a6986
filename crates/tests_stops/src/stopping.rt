//! Stops, as cases.
use crate::images::{Left, Pattern};

/// A stop of a run, and how the pool is opened after it.
#[derive(Clone, Copy)]
pub(crate) struct Stop {
    /// How many calls were made. The last of them may not have ended.
    pub(crate) cut: u64,
    /// What is left of the ranges that were written last: 0 where all are old, 1 where all are new, 2 where they are mixed by the pattern.
    pub(crate) image: u64,
    pub(crate) pattern: Pattern,
    /// The disk that isn't there as the pool is opened first.
    pub(crate) absent: Option<usize>,
    /// Whether it commits one more group before it is opened again.
    pub(crate) goes_on: bool,
}

/// Which disks may be absent.
#[derive(Clone, Copy)]
pub(crate) enum Away {
    /// Any one of the three.
    Any,
    /// No other one than this, which lacks what was written in its absence.
    Only(usize),
}

/// How many images are made of what is left after so many calls.
pub(crate) const IMAGES: u64 = 3;

/// What is left in the third image: some of the ranges that were written last are old, or filled, or torn, in one of seven ways.
fn mixed_at(cut: u64) -> Pattern {
    let last = cut.saturating_sub(1);
    match cut % 7 {
        0 => Pattern::Every(Left::Filled),
        1 => Pattern::Every(Left::Torn),
        2 => Pattern::InTurn(0),
        3 => Pattern::InTurn(cut),
        4 => Pattern::Except {
            moment: last,
            left: Left::Filled,
            others: Left::New,
        },
        5 => Pattern::Except {
            moment: last.saturating_sub(cut % 5),
            left: Left::Torn,
            others: Left::New,
        },
        _ => Pattern::Except {
            moment: last,
            left: Left::New,
            others: Left::Old,
        },
    }
}

/// The stop of that number. There are three after so many calls: all ranges that were written last are old, all are new, or they are mixed.
/// By how many were tried before it goes which disk is absent, and whether one more group is committed.
pub(crate) fn stop_at(number: u64, tried: u64, away: Away) -> Stop {
    let cut = number / IMAGES;
    let image = number % IMAGES;
    let way = tried.saturating_add(image);
    let pattern = match image {
        0 => Pattern::Every(Left::Old),
        1 => Pattern::Every(Left::New),
        _ => mixed_at(cut),
    };
    let absent = match (away, way % 4) {
        (_, 0) => None,
        (Away::Any, 1) => Some(0),
        (Away::Any, 2) => Some(1),
        (Away::Any, _) => Some(2),
        (Away::Only(which), 1) => Some(which),
        (Away::Only(_), 2) => None,
        (Away::Only(which), _) => Some(which),
    };
    Stop {
        cut,
        image,
        pattern,
        absent,
        goes_on: way % 5 < 2,
    }
}
