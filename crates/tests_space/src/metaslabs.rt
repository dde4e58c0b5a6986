//! A metaslab: which runs are taken, which are in use, and when what is released comes back.
use crate::free_sets::{runs_text, set_of};
use crate::lines::{Bench, Call, wrong_lines};
use metaslab::Metaslab;
use space_map::{FreeSet, Run};
use std::alloc::Global;
use std::test::Fail;

/// `metaslab` has how many sectors there are, and the runs of it that are in use, each by its first sector and its length. `take`
/// allocates so many sectors and tells the run, `take_in` takes in a run where a block lies, and `release` has a run in use and
/// the group that gives it up. `settle` has the group that is planned, and `pin` and `unpin` one that may still read what was
/// released. `wear` has each group from one up to another take a sector and release it. `copy` allocates all sectors of a copy,
/// which is dropped. `room` tells whether so many sectors in a row are free, `in_use` whether all sectors of a run are in use, and
/// `unused` which are not, those too that are not free yet.
const RELEASED: &[(&str, &str)] = &[
    // What is released waits: two groups later, and three.
    (
        "metaslab 16; take 16; release 0 16 4; pin 9; settle 6; room 16; unpin 9; settle 6; room 16",
        "16 sectors; 0,16; ok; ok; ok; false; ok; ok; false",
    ),
    (
        "metaslab 16; take 16; release 0 16 4; pin 9; settle 7; room 16; unpin 9; settle 7; room 16",
        "16 sectors; 0,16; ok; ok; ok; true; ok; ok; true",
    ),
    // The pinned group doesn't reach it, or may reach it, also for long.
    (
        "metaslab 16; take 16; release 0 16 4; pin 4; settle 7; room 16; unpin 4; settle 7; room 16",
        "16 sectors; 0,16; ok; ok; ok; true; ok; ok; true",
    ),
    (
        "metaslab 16; take 16; release 0 16 4; pin 3; settle 7; room 16; unpin 3; settle 7; room 16",
        "16 sectors; 0,16; ok; ok; ok; false; ok; ok; true",
    ),
    (
        "metaslab 16; take 16; release 0 16 4; pin 3; settle 90; room 16; unpin 3; settle 90; room 16",
        "16 sectors; 0,16; ok; ok; ok; false; ok; ok; true",
    ),
    // The first group.
    (
        "metaslab 16; take 16; release 0 16 4; pin 9; settle 0; room 16; unpin 9; settle 0; room 16",
        "16 sectors; 0,16; ok; ok; ok; false; ok; ok; false",
    ),
    // Nothing is lost over 200 groups.
    (
        "metaslab 4; wear 4 204; room 1; room 2; unused",
        "4 sectors; ok; true; false; free 0,4",
    ),
    // Calls are counted where something is due.
    (
        "metaslab 16; take 2; release 0 2 4; count 6; settle 6; count 8",
        "16 sectors; 0,2; ok; some; ok; none",
    ),
    (
        "metaslab 16; take 2; release 0 2 4; count 6; settle 7; count 8",
        "16 sectors; 0,2; ok; some; ok; some",
    ),
];

/// `count` tells how many calls on the free runs there were since it was asked last, or the metaslab made: none, some, up to this
/// number, or more.
const TAKEN: &[(&str, &str)] = &[
    // Space runs out.
    ("metaslab 16; take 10; take 6", "16 sectors; 0,10; 10,6"),
    ("metaslab 16; take 10; take 7", "16 sectors; 0,10; NoSpace"),
    ("metaslab 16; take 17; take 1", "16 sectors; NoSpace; 0,1"),
    // A copy is dropped.
    ("metaslab 16; copy; take 16", "16 sectors; 0,16; 0,16"),
    // The shortest run that fits is taken, not the first; the shortest that is left; none that is as long; what was left behind
    // the second one. Each takes at most six calls.
    (
        "metaslab 40 10 10 24 6 36 4; count 6; take 4; count 6; take 5; count 6; take 11; count 6;
            take 1; count 6; unused",
        "40 sectors; none; 20,4; some; 30,5; some; NoSpace; none; 35,1; some; free 0,10",
    ),
    // All that is in use, a part of it, its last sector. Then what is released, partly released, partly free, free, past the end,
    // longer than the metaslab, far past the end.
    (
        "metaslab 16; take 2; release 0 2 4; take 6; in_use 2 6; in_use 3 4; in_use 7 1; in_use 0 2;
            in_use 1 7; in_use 2 7; in_use 8 8; in_use 15 2; in_use 2 17; in_use - 1",
        "16 sectors; 0,2; ok; 2,6; true; true; true; false;
            false; false; false; false; false; false",
    ),
    // Free runs are taken in, once: all that is free, and a part of it. Then what is partly free, in use, past the end, far past
    // the end.
    (
        "metaslab 16; take 4; take_in 4 12; in_use 4 12; take_in 4 12",
        "16 sectors; 0,4; true; true; false",
    ),
    (
        "metaslab 16; take 4; take_in 9 1; in_use 9 1; take_in 9 1",
        "16 sectors; 0,4; true; true; false",
    ),
    (
        "metaslab 16; take 4; take_in 3 2; in_use 3 2; take_in 3 2",
        "16 sectors; 0,4; false; false; false",
    ),
    (
        "metaslab 16; take 4; take_in 0 4; in_use 0 4; take_in 0 4",
        "16 sectors; 0,4; false; true; false",
    ),
    (
        "metaslab 16; take 4; take_in 15 2; in_use 15 2; take_in 15 2",
        "16 sectors; 0,4; false; false; false",
    ),
    (
        "metaslab 16; take 4; take_in - 1; in_use - 1; take_in - 1",
        "16 sectors; 0,4; false; false; false",
    ),
];

#[derive(Drop)]
struct Metaslabs {
    metaslab: Metaslab,
    /// How many calls on the free runs there were when they were counted last.
    ticks: u64,
}

/// Changes a metaslab.
fn change(metaslab: &mut Metaslab, alloc: Global, call: &Call) -> Result<String, Fail> {
    match (call.name, call.numbers.as_slice()) {
        ("take", [len]) if *len > 0 => {
            return match metaslab.allocate(*len) {
                Ok(run) => Ok(format!(in alloc; "{},{}", run.start, run.len)?),
                Err(refusal) => Ok(format!(in alloc; "{refusal:?}")?),
            };
        }
        ("take_in", [start, len]) if *len > 0 => {
            let (start, len) = (*start, *len);
            let is_free = metaslab.take_in(Run { start, len })?;
            return Ok(format!(in alloc; "{is_free}")?);
        }
        ("release", [start, len, group]) => {
            let (start, len) = (*start, *len);
            let run = Run { start, len };
            if len == 0 || !metaslab.is_in_use(run) {
                return Ok(format!(in alloc; "not in use")?);
            }
            metaslab.release(run, *group)?;
        }
        ("settle", [group]) => metaslab.settle(*group)?,
        ("pin", [group]) => metaslab.pin(*group)?,
        ("unpin", [group]) => metaslab.unpin(*group),
        ("wear", [first, end]) => {
            for group in *first..*end {
                metaslab.settle(group)?;
                let run = metaslab.allocate(1)?;
                metaslab.release(run, group)?;
            }
        }
        _ => return Err(Fail::new(format_args!("no call {}", call.name))),
    }
    Ok(format!(in alloc; "ok")?)
}

impl Bench for Metaslabs {
    fn answer(&mut self, alloc: Global, call: &Call) -> Result<String, Fail> {
        let text = match (call.name, call.numbers.as_slice()) {
            ("metaslab", [sectors, runs @ ..]) => {
                self.metaslab = Metaslab::new(alloc, set_of(alloc, *sectors, runs)?);
                self.ticks = self.metaslab.ticks();
                format!(in alloc; "{} sectors", self.metaslab.sectors())
            }
            ("copy", []) => {
                let mut copy = self.metaslab.clone()?;
                let run = copy.allocate(self.metaslab.sectors().max(1))?;
                format!(in alloc; "{},{}", run.start, run.len)
            }
            ("room", [len]) if *len > 0 => { format!(in alloc; "{}", self.metaslab.has_room(*len)) }
            ("in_use", [start, len]) if *len > 0 => {
                let (start, len) = (*start, *len);
                format!(in alloc; "{}", self.metaslab.is_in_use(Run { start, len }))
            }
            ("unused", []) => runs_text(alloc, self.metaslab.unused()?.runs()),
            ("count", [most]) => {
                let calls = self.metaslab.ticks().saturating_sub(self.ticks);
                self.ticks = self.metaslab.ticks();
                match calls {
                    0 => format!(in alloc; "none"),
                    _ if calls <= *most => format!(in alloc; "some"),
                    _ => format!(in alloc; "more"),
                }
            }
            _ => return change(&mut self.metaslab, alloc, call),
        };
        Ok(text?)
    }
}

#[test]
fn a_metaslab_hands_out_what_is_free(rt: HostRuntime) -> Result<(), Fail> {
    let metaslab = Metaslab::new(rt.alloc(), FreeSet::new(rt.alloc(), 1)?);
    let mut metaslabs = Metaslabs { metaslab, ticks: 0 };
    let mut wrong = wrong_lines(&rt, rt.alloc(), &mut metaslabs, RELEASED)?;
    wrong.push_str(wrong_lines(&rt, rt.alloc(), &mut metaslabs, TAKEN)?.as_str())?;
    assert!(rt; wrong.is_empty(), "{wrong}");
    Ok(())
}
