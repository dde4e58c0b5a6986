//! The groups of the pipeline, with what they have pending, and of the machine in memory.
use crate::items::{name, run, steps};
use crate::lines::{Bench, Call, wrong_lines};
use plain_machine::Machine;
use pool_model::VolumeKind;
use std::alloc::Global;
use std::test::Fail;
use txg_pipeline::Pipeline;
use volume_rules::{VolumeShape, is_covered, makes_good_volumes, read_pending};

/// The volumes whose pending writes are read.
const SHAPE: VolumeShape = VolumeShape {
    size: 0x80000,
    block_size: 512,
    group: 3,
    kind: VolumeKind::Volume,
};

/// `new` has a pipeline behind group 3, and `run` makes calls on it. `left` has how many writes and actions the open group has,
/// whether none is synced, writer 2's hold, and writer 1's next number; `good` whether the open group makes good volumes.
const GROUPS: &[(&str, &str)] = &[
    (
        "new; run: hold 1, write 1 1 v 0 512 7, write 1 1 v 0 512 7, close, hold 2, write 2 1 v 0 512 7,
            write 1 2 v 0 512 7, create 1 3 w 512 512, quiesce, release 1, quiesce, take, commit, commit;
            left",
        "new; [Held(4), Receipt(4), Refused(OutOfOrder { expected: 2 }), Closed(4), Held(5), Receipt(5),
            Receipt(4), Refused(NotNow), Refused(NotNow), Released, Quiesced(4), Taken(4), Committed(4),
            Refused(NotNow)]; (1, 0, true, Some(5), 3)",
    ),
    (
        "new; run: hold 1, create 1 1 v 1024 512, create 1 2 w 2048 512, create 1 3 v 4096 512; good",
        "new; [Held(4), Receipt(4), Receipt(4), Receipt(4)]; true",
    ),
    // The second volume is no whole number of blocks; a name begins with a letter.
    (
        "new; run: hold 1, create 1 1 v 1024 512, create 1 2 w 1025 512; good",
        "new; [Held(4), Receipt(4), Receipt(4)]; false",
    ),
    (
        "new; run: hold 1, create 1 1 1 1024 512; good",
        "new; [Held(4), Receipt(4)]; false",
    ),
];

/// `places` has the positions of the writes to a volume, and of those that touch a piece of it, which has 131072 bytes; `read`
/// twelve bytes from an offset on that were 9, and `covered` whether one write has a range.
const PENDING: &[(&str, &str)] = &[
    // Up to a border, from it on, to another volume, none, across two borders, and at the end of all offsets.
    (
        "new; run: hold 1, write 1 1 v 130560 512 1, write 1 2 v 131072 512 1, write 1 3 w 131072 512 1,
            write 1 4 v 131072 0 1, write 1 5 v 130560 132096 1, write 1 6 w 18446744073709551615 2 1;
            places v 0; places v 1; places v 2; places v 3; places w 1; places w 140737488355327;
            places w 140737488355328; places u 1",
        "new; [Held(4), Receipt(4), Receipt(4), Receipt(4), Receipt(4), Receipt(4), Receipt(4)];
            [0, 1, 3, 4] [0, 4]; [0, 1, 3, 4] [1, 4]; [0, 1, 3, 4] [4]; [0, 1, 3, 4] []; [2, 5] [2];
            [2, 5] [5]; [2, 5] [5]; [] []",
    ),
    // Across a border.
    (
        "new; run: hold 1, write 1 1 v 131068 6 1, write 1 2 v 131070 1 2, write 1 3 v 131071 4 3;
            read v 131066; covered v 131068 6; covered v 131068 7; covered v 131068 0",
        "new; [Held(4), Receipt(4), Receipt(4), Receipt(4)]; [9, 9, 1, 1, 2, 3, 3, 3, 3, 9, 9, 9]; true;
            false; true",
    ),
];

/// Steps of the machine in memory.
const STEPS: &[(&str, &str)] = &[(
    "run: hold 1, create 1 1 v 1024 512, release 1, close, quiesce, plan, device, device",
    "[Held(4), Receipt(4), Released, Closed(4), Quiesced(4), Planned(4), Committed(4), Refused(NotNow)]",
)];

/// What a pipeline has left.
fn left(pipeline: &Pipeline, alloc: Global) -> Result<String, Fail> {
    let open = pipeline.open_items();
    let (writes, actions) = (open.writes().len(), open.actions().len());
    let is_idle = pipeline.syncing_items().is_none();
    let (hold, number) = (pipeline.hold_of(2), pipeline.expected(1));
    Ok(format!(in alloc; "({writes}, {actions}, {is_idle}, {hold:?}, {number})")?)
}

/// What a pipeline has pending of a volume.
fn pending(pipeline: &Pipeline, alloc: Global, call: &Call) -> Result<String, Fail> {
    let volume = name(alloc, call.word(1))?;
    let items = pipeline.open_items();
    let place = call.number(2);
    let text = match call.word(0) {
        "places" => {
            let all = items.places_of(&volume);
            let touching = items.places_at(&volume, place);
            format!(in alloc; "{all:?} {touching:?}")
        }
        "covered" => {
            let covered = is_covered(pipeline, SHAPE, &volume, place, call.number(3));
            format!(in alloc; "{covered}")
        }
        _ => {
            let mut buffer = [9u8; 12];
            read_pending(pipeline, SHAPE, &volume, place.min(0x7fff0), &mut buffer);
            let bytes = buffer.as_slice();
            format!(in alloc; "{bytes:?}")
        }
    };
    Ok(text?)
}

impl Bench for Pipeline {
    fn answer(&mut self, alloc: Global, call: &Call) -> Result<String, Fail> {
        let text = match call.word(0) {
            "new" => {
                *self = Pipeline::new(alloc, 3);
                String::from_str(alloc, "new")
            }
            "run" => {
                let answers = run(alloc, self, call)?;
                format!(in alloc; "{answers:?}")
            }
            "good" => {
                let are_good = makes_good_volumes(self.open_items());
                format!(in alloc; "{are_good}")
            }
            "left" => return left(self, alloc),
            _ => return pending(self, alloc, call),
        };
        Ok(text?)
    }
}

impl Bench for Machine {
    fn answer(&mut self, alloc: Global, call: &Call) -> Result<String, Fail> {
        let steps = steps(alloc, call)?;
        let mut replies = Vec::new(alloc);
        plain_machine::run(self, steps, &mut replies)?;
        Ok(format!(in alloc; "{replies:?}")?)
    }
}

#[test]
fn groups_go_through_the_pipeline(rt: HostRuntime) -> Result<(), Fail> {
    let mut pipeline = Pipeline::new(rt.alloc(), 3);
    let mut wrong = wrong_lines(&rt, rt.alloc(), &mut pipeline, GROUPS)?;
    wrong.push_str(wrong_lines(&rt, rt.alloc(), &mut pipeline, PENDING)?.as_str())?;
    assert!(rt; wrong.is_empty(), "{wrong}");
    Ok(())
}

#[test]
fn the_machine_commits_a_group(rt: HostRuntime) -> Result<(), Fail> {
    let mut machine = Machine::create(rt.alloc());
    let wrong = wrong_lines(&rt, rt.alloc(), &mut machine, STEPS)?;
    assert!(rt; wrong.is_empty(), "{wrong}");
    Ok(())
}
