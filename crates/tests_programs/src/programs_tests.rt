//! What `schedule` tells of faults, of its own and of its reader and writers.
ghost use Rattle.std.specs.Prelude.{◌≡◌};
ghost use Rattle.pool_model.specs.declared.refusal.Refusal.TheVariants.{BadConfig};

use crate::telling::{expect_none, told_by, told_otherwise};
use plain_machine::Machine;
use pool_model::{Phase, Refusal, Reply, Step};
use programs::{Alone, ExitStatus, Planner, Refusal as Cause, StepMachine, schedule, written_len};
use schedule_lines::PoolLine;
use std::alloc::Global;
use std::io;
use std::io::{BufReader, ErrorKind, Read, Write};
use std::test::Fail;

/// Schedules, and what is told: the output, the fault, and the number at the end.
const TOLD: [(&str, &str); 16] = [
    ("hold 1\n", "poolrun: line 1\n2"),
    (
        "# none\n\npool 1 3 8388608 12 2\n# one\npool 1 3 8388608 12 2\nhold 1\n",
        "pool 3 claim 1\npoolrun: line 5\n2",
    ),
    (
        "pool 1 3 8388608 12 2\nhold 1\nhold  1\nhold 1\n",
        "pool 3 claim 1\nheld 4\npoolrun: line 3\n2",
    ),
    (
        "pool 1 3 8388608 12 2\nhold 1\r\n",
        "pool 3 claim 1\npoolrun: line 2\n2",
    ),
    (
        "pool 1 3 8388608 12 2\nhold 1\nstop blocks\n",
        "pool 3 claim 1\nheld 4\npoolrun: line 3\n2",
    ),
    (
        "pool 1 3 8388608 12 2\nreopen 0\n",
        "pool 3 claim 1\npoolrun: line 2\n2",
    ),
    ("\r\n", "poolrun: line 1\n2"),
    ("pool 1 3\n", "poolrun: line 1\n2"),
    (
        "pool 1 3 8388608 12 2\nhold 4294967296",
        "pool 3 claim 1\npoolrun: line 2\n2",
    ),
    (
        "pool 1 3 8388608 12 2\n \n",
        "pool 3 claim 1\npoolrun: line 2\n2",
    ),
    (
        "pool 1 3 8388608 12 2\n#\n\nsync now\n",
        "pool 3 claim 1\npoolrun: line 4\n2",
    ),
    ("pool 1 3 8388608 12 2\0", "poolrun: line 1\n2"),
    ("", "0"),
    ("# a comment\n\n#\n", "0"),
    ("pool 1 3 8388608 12 2", "pool 3 claim 1\n0"),
    (
        "\n# a pool\npool 1 3 8388608 12 2\n\n# a hold\nhold 7\n# the last line has no line feed\nrelease 7",
        "pool 3 claim 1\nheld 4\nreleased\n0",
    ),
];

/// Commits group 4 over and over, each time by these replies to Device. It can't be made over no disks.
#[derive(Drop)]
struct Scripted {
    devices: usize,
}

impl StepMachine for Scripted {
    ghost creates = { λ _ _. Unit {0} };

    ghost refuses = { λ _ cause. cause ≡ BadConfig };

    ghost steps = { λ _ _ _ _. Unit {0} };

    fn create(_alloc: Global, line: &PoolLine) -> Result<Scripted, Refusal> {
        if line.disks == 0 {
            return Err(Refusal::BadConfig);
        }
        Ok(Scripted { devices: 0 })
    }

    fn step<X: Planner>(&mut self, _planner: &X, step: Step) -> Reply {
        match step {
            Step::Close => Reply::Closed(4),
            Step::Quiesce => Reply::Quiesced(4),
            Step::Plan { .. } => Reply::Planned(4),
            Step::Device => {
                self.devices = self.devices.wrapping_add(1);
                match self.devices % 5 {
                    1 => Reply::Moved(Phase::Blocks),
                    2 => Reply::Replan(1),
                    3 => Reply::Moved(Phase::Blocks),
                    4 => Reply::Moved(Phase::BlocksFlush),
                    _ => Reply::Committed(4),
                }
            }
            _ => Reply::Refused(Refusal::Suspended),
        }
    }
}

/// Commits go on to their end, and a pool may be refused.
const SCRIPTED: [(&str, &str); 3] = [
    (
        "pool 1 3 0 0 0\nsync\ncommit\nplan\ndevice\ndevice\nhold 1\ncommit\n",
        "pool 3 claim 1\ncommitted 4\ncommitted 4\nplanned 4\nmoved Blocks\nreplan 1\nrefused 4 Suspended\ncommitted 4\n0",
    ),
    ("pool 1 0 0 0 0\n# none\n\n", "refused 24 BadConfig\n0"),
    (
        "pool 1 0 0 0 0\n# none\nhold 1\n",
        "refused 24 BadConfig\npoolrun: line 3\n2",
    ),
];

#[test]
fn faults_are_told_and_commits_go_on_to_their_end(rt: HostRuntime) -> Result<(), Fail> {
    expect_none(&rt, told_otherwise::<Machine>(rt.alloc(), &TOLD))?;
    expect_none(&rt, told_otherwise::<Scripted>(rt.alloc(), &SCRIPTED))
}

/// A reader that fails.
#[derive(Drop)]
struct Broken;

impl Read for Broken {
    fn read(&mut self, _buf: &mut [u8]) -> io::Result<usize> {
        Err(io::Error::from(ErrorKind::BrokenPipe))
    }
}

const BROKEN: &str = "pool 3 claim 1\nrefused 4 Suspended\npoolrun: input\n2";

#[test]
fn a_reader_may_fail(rt: HostRuntime) -> Result<(), Fail> {
    let text = "pool 1 3 8388608 12 2\nhold 1\nhold 1";
    let input = BufReader::new(rt.alloc(), text.as_bytes().chain(Broken))?;
    let told = told_by::<Scripted, _, _>(&Alone, rt.alloc(), input)?;
    assert!(rt; told.as_str() == BROKEN);
    Ok(())
}

/// A writer that takes so many bytes, and then fails; or one that fails at a flush.
#[derive(Clone, Copy, Drop)]
struct Narrow {
    room: usize,
    flushes: bool,
}

impl Write for Narrow {
    fn write(&mut self, buf: &[u8]) -> io::Result<usize> {
        if self.room == 0 {
            return Err(io::Error::from(ErrorKind::BrokenPipe));
        }
        let taken = buf.len().min(self.room);
        self.room -= taken;
        Ok(taken)
    }

    fn flush(&mut self) -> io::Result<()> {
        if self.flushes {
            Ok(())
        } else {
            Err(io::Error::from(ErrorKind::BrokenPipe))
        }
    }
}

/// Room and flushes of the output, room of what is told of faults, and the end: 22 bytes are printed.
const WRITERS: [((usize, bool), usize, ExitStatus); 6] = [
    ((0, true), 100, ExitStatus::Fault(Cause::Output)),
    ((14, true), 100, ExitStatus::Fault(Cause::Output)),
    ((20, true), 100, ExitStatus::Fault(Cause::Output)),
    ((100, false), 100, ExitStatus::Fault(Cause::Output)),
    ((14, true), 0, ExitStatus::Fault(Cause::Output)),
    ((22, true), 0, ExitStatus::Done),
];

/// The end where the output has this room.
fn status_with<W: Write>(
    alloc: Global,
    (room, flushes): (usize, bool),
    errors: &mut W,
) -> ExitStatus {
    let mut output = Narrow { room, flushes };
    let text = "pool 1 3 8388608 12 2\nhold 1\n";
    schedule::<Machine, _, _, _, _>(&Alone, alloc, text.as_bytes(), &mut output, errors)
}

/// An output that fails is told too, where that has room.
#[test]
fn writers_may_fail(rt: HostRuntime) -> Result<(), Fail> {
    for (output, room, status) in &WRITERS {
        let mut narrow = Narrow {
            room: *room,
            flushes: false,
        };
        assert!(rt; status_with(rt.alloc(), *output, &mut narrow) == *status);
        let wanted = if *status == ExitStatus::Done {
            ""
        } else {
            "poolrun: output\n"
        };
        let mut errors = Vec::new(rt.alloc());
        let _ = status_with(rt.alloc(), *output, &mut errors);
        assert!(rt; String::from_utf8(errors)?.as_str() == wanted);
    }
    Ok(())
}

/// Lengths of writes, and which stands for each.
const LENGTHS: [(u64, usize); 6] = [
    (0, 0),
    (512, 512),
    (1_048_576, 1_048_576),
    (1_048_577, 1_049_089),
    (1_049_088, 1_049_088),
    (18_446_744_073_709_551_615, 1_049_599),
];

#[test]
fn lengths_stand_for_lengths(rt: HostRuntime) {
    for (len, wanted) in &LENGTHS {
        assert!(rt; written_len(*len) == *wanted, "at {len}");
    }
}
