//! The metaslabs of a vdev: what plans take and release, and what the space maps leave without a plan and with it.
use crate::free_sets::{MOST_SECTORS, runs_text, set_of, update_text};
use crate::lines::{Bench, Call, wrong_lines};
use metaslab::MetaslabGroup;
use space_map::Run;
use std::alloc::Global;
use std::test::Fail;

/// `group` has how many metaslabs there are, and how many sectors each has. `take` has a metaslab and how many sectors a plan takes
/// there, and tells the first one; `fill` takes runs of so many until there is no room, and tells how many. `release` has a
/// metaslab, a run of it in use and the group that gives it up. `settle` begins the plan of a group, `keep` and `drop` end it, and
/// `pin` and `unpin` have a group that may still read what was released. `room` tells whether so many sectors in a row of a metaslab
/// are free beside the plan, and `in_use` whether all sectors of a run are in use.
const PLANS: &[(&str, &str)] = &[
    // Metaslabs run out.
    (
        "group 4 64; fill 0 16; fill 1 16; fill 2 16; fill 3 16",
        "4 of 64; 4, NoSpace; 4, NoSpace; 4, NoSpace; 4, NoSpace",
    ),
    (
        "group 4 64; fill 0 24; fill 1 24; fill 2 24; fill 3 24",
        "4 of 64; 2, NoSpace; 2, NoSpace; 2, NoSpace; 2, NoSpace",
    ),
    (
        "group 4 64; fill 0 65; fill 1 65; fill 2 65; fill 3 65",
        "4 of 64; 0, NoSpace; 0, NoSpace; 0, NoSpace; 0, NoSpace",
    ),
    // What is released comes back, three groups later; where a pinned group doesn't reach it; and behind one that may.
    (
        "group 4 64; take 3 64; release 3 0 64 4; keep; pin 9; settle 5; room 3 64; keep; settle 6;
            room 3 64; keep; settle 7; room 3 64; keep; unpin 9; settle 8; room 3 64",
        "4 of 64; 0; ok; ok; ok; ok; false; ok; ok;
            false; ok; ok; true; ok; ok; ok; true",
    ),
    (
        "group 4 64; take 3 64; release 3 0 64 4; keep; pin 4; settle 5; room 3 64; keep; settle 6;
            room 3 64; keep; settle 7; room 3 64; keep; unpin 4; settle 8; room 3 64",
        "4 of 64; 0; ok; ok; ok; ok; false; ok; ok;
            false; ok; ok; true; ok; ok; ok; true",
    ),
    (
        "group 4 64; take 3 64; release 3 0 64 4; keep; pin 3; settle 5; room 3 64; keep; settle 6;
            room 3 64; keep; settle 7; room 3 64; keep; unpin 3; settle 8; room 3 64",
        "4 of 64; 0; ok; ok; ok; ok; false; ok; ok;
            false; ok; ok; false; ok; ok; ok; true",
    ),
    // A plan is dropped, one is kept, and another dropped behind it.
    (
        "group 4 64; take 0 1; drop; room 0 64; take 0 1; keep; room 0 64; take 0 1; drop; room 0 64",
        "4 of 64; 0; ok; true; 0; ok; false; 1; ok; false",
    ),
    // All that is in use beside the plan, a part of it. Then of another metaslab, released, partly released, partly free, past the
    // end, far past the end. None of these is once the plan is dropped.
    (
        "group 4 64; take 3 2; release 3 0 2 4; take 3 6;
            in_use 3 2 6; in_use 3 4 1; in_use 2 2 6; in_use 3 0 2; in_use 3 1 7; in_use 3 2 7;
            in_use 3 63 2; in_use 3 - 1; drop;
            in_use 3 2 6; in_use 3 4 1; in_use 2 2 6; in_use 3 0 2; in_use 3 1 7; in_use 3 2 7;
            in_use 3 63 2; in_use 3 - 1",
        "4 of 64; 0; ok; 2;
            true; true; false; false; false; false;
            false; false; ok;
            false; false; false; false; false; false;
            false; false",
    ),
];

/// `update` tells the words of the entries that lead from the map of a metaslab without the plan to that with it. `load` has a
/// metaslab, how many sectors a map has, and the runs that it leaves in use: whether it is loaded. `unused` tells which sectors of
/// a metaslab are not in use.
const MAPS: &[(&str, &str)] = &[
    // A plan enters what it takes, in one map alone and until it is kept, and what it gives back, until it is dropped.
    (
        "group 2 64; take 1 8; release 1 0 4 4; update 1; update 0; keep; update 1;
            release 1 4 4 5; update 1; drop; update 1",
        "2 of 64; 0; ok; 40003; none; ok; none;
            ok; 48003; ok; none",
    ),
    // A map with fewer sectors and one with more, one that fits, and it again; one where a plan is, and where it was dropped.
    (
        "group 3 64; load 0 63 0 1; load 0 65 0 1; load 0 64 0 1; load 0 64 0 1;
            take 1 8; release 1 0 4 4; load 1 64 0 1; drop; load 1 64 0 1; unused 0; unused 2",
        "3 of 64; false; false; true; false;
            0; ok; false; ok; true; free 1,63; free 0,64",
    ),
];

#[derive(Drop)]
struct Groups {
    group: MetaslabGroup,
}

/// What comes of a call on one metaslab.
fn answer_of(
    group: &mut MetaslabGroup,
    alloc: Global,
    name: &str,
    metaslab: usize,
    numbers: &[u64],
) -> Result<String, Fail> {
    if metaslab >= group.count() {
        return Err(Fail::new("no such metaslab"));
    }
    let text = match (name, numbers) {
        ("take", [len]) if *len > 0 => match group.allocate(metaslab, *len) {
            Ok(start) => format!(in alloc; "{start}"),
            Err(refusal) => format!(in alloc; "{refusal:?}"),
        },
        ("release", [start, len, releasing]) => {
            let (start, len) = (*start, *len);
            let run = Run { start, len };
            if len == 0 || !group.is_in_use(metaslab, run) {
                return Ok(format!(in alloc; "not in use")?);
            }
            group.release(metaslab, run, *releasing)?;
            format!(in alloc; "ok")
        }
        ("room", [len]) if *len > 0 => format!(in alloc; "{}", group.has_room(metaslab, *len)),
        ("in_use", [start, len]) if *len > 0 => {
            let (start, len) = (*start, *len);
            format!(in alloc; "{}", group.is_in_use(metaslab, Run { start, len }))
        }
        ("update", []) => {
            let before = group.unused_before(metaslab)?;
            return update_text(alloc, &before, &group.unused(metaslab)?);
        }
        ("load", [sectors, runs @ ..]) => {
            let set = set_of(alloc, *sectors, runs)?;
            format!(in alloc; "{}", group.load(metaslab, set))
        }
        ("unused", []) => runs_text(alloc, group.unused(metaslab)?.runs()),
        _ => return Err(Fail::new(format_args!("no call {name}"))),
    };
    Ok(text?)
}

impl Bench for Groups {
    fn answer(&mut self, alloc: Global, call: &Call) -> Result<String, Fail> {
        let group = &mut self.group;
        match (call.name, call.numbers.as_slice()) {
            ("group", [count, sectors]) => {
                let sectors = (*sectors).clamp(1, MOST_SECTORS);
                *group = MetaslabGroup::new(alloc, *count as usize, sectors)?;
                return Ok(format!(in alloc; "{} of {sectors}", group.count())?);
            }
            ("fill", [metaslab, len]) if *len > 0 => {
                let metaslab = *metaslab as usize;
                for count in 0..66u64 {
                    if metaslab < group.count()
                        && let Err(refusal) = group.allocate(metaslab, *len)
                    {
                        return Ok(format!(in alloc; "{count}, {refusal:?}")?);
                    }
                }
            }
            ("settle", [number]) => group.settle(*number)?,
            ("keep", []) => group.keep_planned(),
            ("drop", []) => group.drop_planned(),
            ("pin", [number]) => group.pin(*number)?,
            ("unpin", [number]) => group.unpin(*number),
            (name, [metaslab, numbers @ ..]) => {
                return answer_of(group, alloc, name, *metaslab as usize, numbers);
            }
            _ => return Err(Fail::new(format_args!("no call {}", call.name))),
        }
        Ok(format!(in alloc; "ok")?)
    }
}

#[test]
fn plans_change_the_metaslabs_of_a_vdev(rt: HostRuntime) -> Result<(), Fail> {
    let group = MetaslabGroup::new(rt.alloc(), 0, 1)?;
    let mut groups = Groups { group };
    let mut wrong = wrong_lines(&rt, rt.alloc(), &mut groups, PLANS)?;
    wrong.push_str(wrong_lines(&rt, rt.alloc(), &mut groups, MAPS)?.as_str())?;
    assert!(rt; wrong.is_empty(), "{wrong}");
    Ok(())
}
