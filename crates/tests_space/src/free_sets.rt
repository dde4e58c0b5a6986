//! Free sets of a metaslab, and what leads from one space map to the next.
use crate::lines::{Bench, Call, wrong_lines};
use space_map::{
    Entry, FreeSet, Kind, Run, append, append_update, condense, replay, wants_condensing,
};
use std::alloc::{AllocError, Global};
use std::mem;
use std::test::Fail;

/// `set` has how many sectors there are, and runs, each by its first sector and its length: a map that allocates these leaves the
/// set. `enter` allocates a run of the set as an entry, and `change` as a run of any length. They tell which runs are free then,
/// and what the set was before is kept beside it. `find` has how many sectors are sought in a row in the set, and `find_before` in
/// that one.
const FOUND: &[(&str, &str)] = &[
    // What is found after the middle 8 sectors are allocated, and what a copy from before finds.
    (
        "set 16; change 3 8; find 3; find_before 3; find 5; find_before 5; find 6; find_before 6",
        "free 0,16; free 0,3 11,5; free 0,3; free 0,3; free 11,5; free 0,5; none; free 0,6",
    ),
    // Runs are entered one after the other.
    (
        "set 40; enter 10 10; enter 24 6; enter 36 4",
        "free 0,40; free 0,10 20,20; free 0,10 20,4 30,10; free 0,10 20,4 30,6",
    ),
];

/// `update` tells the words of the entries that lead from the set before to the set. `count` tells how many runs of allocated
/// sectors the set has, and `long` whether a map of so many entries that leaves it is to be condensed.
const UPDATES: &[(&str, &str)] = &[
    // Runs that overlap, runs side by side, and twice the same.
    (
        "set 64 0 8 16 8; set 64 4 16; update",
        "free 8,8 24,40; free 0,4 20,44; 8003 80007 148003",
    ),
    (
        "set 64 0 4; set 64 4 4; update",
        "free 4,60; free 0,4 8,56; 8003 40003",
    ),
    (
        "set 64 0 8 63 1; set 64 0 8 63 1; update",
        "free 8,55; free 8,55; none",
    ),
    // One more run, and none in place of one.
    (
        "set 64 0 8 16 8; set 64 4 16 60 4; update",
        "free 8,8 24,40; free 0,4 20,40; 8003 80007 148003 3c0003",
    ),
    ("set 64 0 64; set 64; update", "free; free 0,64; 803f"),
    // A long run is several entries: taken, given back, and longer than before on both sides.
    (
        "set 100000; set 100000 10 70000; update",
        "free 0,100000; free 0,10 70010,29990; a7fff 800a7fff 1000a116f",
    ),
    (
        "set 100000 10 32769; set 100000; update",
        "free 0,10 32779,67221; free 0,100000; affff 800a8000",
    ),
    (
        "set 100000 5 40000; set 100000 3 90000; update",
        "free 0,5 40005,59995; free 0,3 90003,9997; 30001 9c457fff 11c45434d",
    ),
    // Allocated runs are counted, each as long as it can be.
    ("set 64; count", "free 0,64; 0"),
    ("set 64 0 64; count", "free; 1"),
    ("set 64 0 8 8 8; count", "free 16,48; 1"),
    ("set 64 8 8; count", "free 0,8 16,48; 1"),
    ("set 64 0 8 16 8 60 4; count", "free 8,8 24,36; 3"),
    // A map is long that has more than two entries for each of two runs, and 64.
    (
        "set 64 0 8 16 8; long 68; long 69",
        "free 8,8 24,40; false; true",
    ),
];

/// Above all numbers of sectors in the tables.
pub(crate) const MOST_SECTORS: u64 = 1 << 32;

#[derive(Drop)]
struct FreeSets {
    set: FreeSet,
    before: FreeSet,
}

/// The free set of so many sectors that a map leaves which allocates runs, each by its first sector and its length.
pub(crate) fn set_of(alloc: Global, sectors: u64, runs: &[u64]) -> Result<FreeSet, Fail> {
    let mut map = Vec::new(alloc);
    for run in runs.chunks(2) {
        let [start, len] = run else {
            return Err(Fail::new("a run has no length"));
        };
        let (start, len) = ((*start).min(MOST_SECTORS), (*len).min(MOST_SECTORS));
        append(&mut map, Kind::Allocated, Run { start, len })?;
    }
    Ok(replay(alloc, &map, sectors.clamp(1, MOST_SECTORS))?)
}

/// The free runs of a set.
pub(crate) fn runs_text(alloc: Global, runs: &[Run]) -> Result<String, AllocError> {
    let mut text = format!(in alloc; "free")?;
    for run in runs {
        write!(text, " {},{}", run.start, run.len)?;
    }
    Ok(text)
}

/// The words of the entries that lead from one set to another, where the shortest map of the one, with them behind it, replays as
/// the other.
pub(crate) fn update_text(alloc: Global, old: &FreeSet, new: &FreeSet) -> Result<String, Fail> {
    if old.sectors() != new.sectors() {
        return Err(Fail::new("sets of other metaslabs"));
    }
    let mut update = Vec::new(alloc);
    append_update(&mut update, old, new)?;
    let mut map = condense(alloc, old)?;
    map.extend_from_slice(&update)?;
    let left = replay(alloc, &map, new.sectors().clamp(1, MOST_SECTORS))?;
    if left.runs() != new.runs() {
        return Ok(format!(in alloc; "leads elsewhere")?);
    }
    let mut text = String::new(alloc);
    for word in update.chunks(8) {
        let Some(word) = word.first_chunk::<8>() else {
            return Err(Fail::new("a part of a word"));
        };
        write!(text, " {:x}", u64::from_le_bytes(*word))?;
    }
    if text.is_empty() {
        text.push_str("none")?;
    }
    Ok(text)
}

impl FreeSets {
    /// Allocates a run of the set, as an entry or as it is.
    fn allocate(&mut self, call: &Call, start: u64, len: u64) -> Result<(), space_map::Refusal> {
        let (start, len) = (start.min(MOST_SECTORS), len.clamp(1, 1 << 15));
        let run = Run { start, len };
        let before = self.set.clone()?;
        self.before = before;
        if call.name == "enter" {
            let kind = Kind::Allocated;
            return self.set.apply(Entry { kind, run });
        }
        if start + len > self.set.sectors() {
            return Err(space_map::Refusal::BadMap);
        }
        self.set.change(Kind::Allocated, run)
    }
}

impl Bench for FreeSets {
    fn answer(&mut self, alloc: Global, call: &Call) -> Result<String, Fail> {
        let text = match (call.name, call.numbers.as_slice()) {
            ("set", [sectors, runs @ ..]) => {
                let set = set_of(alloc, *sectors, runs)?;
                let before = mem::replace(&mut self.set, set);
                self.before = before;
                runs_text(alloc, self.set.runs())
            }
            ("enter" | "change", [start, len]) => {
                self.allocate(call, *start, *len)?;
                runs_text(alloc, self.set.runs())
            }
            ("find" | "find_before", [sectors]) if *sectors > 0 => {
                let found = if call.name == "find" {
                    self.set.find(*sectors)
                } else {
                    self.before.find(*sectors)
                };
                match found {
                    Some(run) => runs_text(alloc, &[run]),
                    None => format!(in alloc; "none"),
                }
            }
            ("update", []) => return update_text(alloc, &self.before, &self.set),
            ("count", []) => format!(in alloc; "{}", self.set.allocated_runs()),
            ("long", [entries]) => {
                let is_long = wants_condensing((*entries).min(1000) as usize, &self.set);
                format!(in alloc; "{is_long}")
            }
            _ => return Err(Fail::new(format_args!("no call {}", call.name))),
        };
        Ok(text?)
    }
}

#[test]
fn sets_and_maps_are_as_they_were_changed(rt: HostRuntime) -> Result<(), Fail> {
    let (set, before) = (FreeSet::new(rt.alloc(), 1)?, FreeSet::new(rt.alloc(), 1)?);
    let mut sets = FreeSets { set, before };
    let mut wrong = wrong_lines(&rt, rt.alloc(), &mut sets, FOUND)?;
    wrong.push_str(wrong_lines(&rt, rt.alloc(), &mut sets, UPDATES)?.as_str())?;
    assert!(rt; wrong.is_empty(), "{wrong}");
    Ok(())
}
