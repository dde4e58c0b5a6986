//! Schedules of which threads run a part: what they print, and that it is a schedule which gives the replies that it says.
ghost use Rattle.std.specs.Prelude.{◌<◌, ◌≤◌};

use programs::{Alone, PoolOnDisks, Workers, schedule};
use shared_pool::ROOM;
use std::alloc::Global;
use std::process::Abort;
use std::sync::Wait;
use std::test::*;
use std::thread::Threads;
use tests_threads::rounds::{end_of, replies_in, rounds};
use thread_schedules::schedule_in_threads;

/// What comes before the lines of sixteen writers.
const FRONT: &str = "pool 1 3 8388608 12 2
hold 1
create 1 1 v 8192 512
release 1
sync
threads
";

/// What was printed and told, and the number at the end.
#[derive(Drop)]
struct Told {
    output: String,
    errors: String,
    number: u8,
}

fn told_in_threads<R: Threads + Wait + Sync>(
    rt: &R,
    alloc: Global,
    threads: usize,
    input: &str,
) -> Result<Told, Fail>
    requires { (0 < threads) × (threads ≤ 64) }
{
    let mut output = Vec::new(alloc);
    let mut errors = Vec::new(alloc);
    let status = schedule_in_threads::<PoolOnDisks, _, _, _, _, _>(
        rt,
        &Workers::new(rt, threads),
        alloc,
        threads,
        input.as_bytes(),
        &mut output,
        &mut errors,
    );
    Ok(Told {
        output: String::from_utf8(output)?,
        errors: String::from_utf8(errors)?,
        number: status.number(),
    })
}

/// Whether one thread replies to a schedule what stands in it as comments, and runs it to its end.
fn replays(alloc: Global, recounted: &str) -> Result<bool, Fail> {
    let mut said = String::new(alloc);
    for line in recounted.lines() {
        if let Some(reply) = line.strip_prefix("# ") {
            said.push_str(reply)?;
            said.push_str("\n")?;
        }
    }
    said.push_str("0")?;
    let mut output = Vec::new(alloc);
    let mut errors = Vec::new(alloc);
    let status = schedule::<PoolOnDisks, _, _, _, _>(
        &Alone,
        alloc,
        recounted.as_bytes(),
        &mut output,
        &mut errors,
    );
    let output = String::from_utf8(output)?;
    let errors = String::from_utf8(errors)?;
    let replied = format!(in alloc; "{output}{errors}{}", status.number())?;
    Ok(replied == said)
}

/// What so many threads print of a schedule that is run to its end: its last part is this, and it replays.
fn expect_replay<R: Threads + Wait + Abort + Sync>(
    rt: &R,
    alloc: Global,
    threads: usize,
    input: &str,
    last: &str,
) -> Result<String, Fail>
    requires { (0 < threads) × (threads ≤ 64) }
{
    let told = told_in_threads(rt, alloc, threads, input)?;
    assert_eq!(rt; (told.errors.as_str(), told.number), ("", 0));
    assert!(rt; told.output.as_str().ends_with(last), "{}", told.output);
    let is_same = replays(alloc, told.output.as_str())?;
    assert!(rt; is_same, "{}", told.output);
    Ok(told.output)
}

/// Three writers, each of whom writes its block.
const OTHERS: &str = "release 1
hold 2
write 2 1 v 512 512 02
release 2
hold 3
write 3 1 v 1024 512 03
release 3
hold 4
write 4 1 v 1536 512 04
release 4
read v 0 2048
";

/// A pool with a volume, and writer 1 that writes its block by a thread.
const MADE: &str = "pool 1 3 8388608 12 2
hold 1
create 1 1 v 2048 512
release 1
sync
threads
hold 1
write 1 2 v 0 512 01
";

/// The same, opened again without a disk, where a writer's numbers begin anew; and a stop is set, which no commit of the threads looks at.
const OPENED: &str = "# a pool
pool 1 3 8388608 12 2
hold 1
create 1 1 v 2048 512
release 1

sync
stop blocks
sync
reopen 0 1
stop slots 1
threads
hold 1
write 1 1 v 0 512 01
";

const READ: &str = "\nread v 0 2048\n# 01x512 02x512 03x512 04x512\n";

#[test]
fn four_writers_of_a_schedule(rt: HostRuntime) -> Result<(), Fail> {
    let alloc = rt.alloc();
    for front in [MADE, OPENED] {
        let input = format!(in alloc; "{front}{OTHERS}")?;
        for threads in 1..5 {
            expect_replay(&rt, alloc, threads, input.as_str(), READ)?;
        }
    }
    Ok(())
}

/// Also where a record is full before all lines are sent: the writers alone have more lines than it has room for.
#[test]
fn sixteen_writers_fill_a_record(rt: HostRuntime) -> Result<(), Fail> {
    let alloc = rt.alloc();
    let lines = rounds(alloc, 444)?;
    let input = format!(in alloc; "{FRONT}{lines}")?;
    let end = end_of(alloc, 444)?;
    let output = expect_replay(&rt, alloc, 4, input.as_str(), end.as_str())?;
    assert!(rt; replies_in(output.as_str()) > 5 + ROOM as u64);
    Ok(())
}

/// Schedules, and what is told: the output, the fault, and the number at the end.
const FAULTS: [(&str, &str); 11] = [
    ("", "poolrun: line 1\n2"),
    (
        "pool 1 3 8388608 12 2\n#\n",
        "pool 1 3 8388608 12 2\n# pool 3 claim 1\npoolrun: line 3\n2",
    ),
    (
        "pool 1 3 8388608 12 2\nthreads\n\nthreads\n",
        "pool 1 3 8388608 12 2\n# pool 3 claim 1\npoolrun: line 4\n2",
    ),
    (
        "pool 1 3 8388608 12 2\nthreads\nhold 1\nsync\n",
        "pool 1 3 8388608 12 2\n# pool 3 claim 1\npoolrun: line 4\n2",
    ),
    (
        "pool 1 3 8388608 12 2\nsync\nthreads\nread v 0 0\nwrite 1 1 v 0 0 00\n",
        "pool 1 3 8388608 12 2\n# pool 3 claim 1\nsync\n# committed 4\npoolrun: line 5\n2",
    ),
    (
        "pool 1 3 8388608 12 2\nthreads\nunder 3 v 0 0\n",
        "pool 1 3 8388608 12 2\n# pool 3 claim 1\npoolrun: line 3\n2",
    ),
    (
        "pool 1 3 8388608 12 2\nthreads\nhold  1\n",
        "pool 1 3 8388608 12 2\n# pool 3 claim 1\npoolrun: line 3\n2",
    ),
    ("hold 1\nthreads\n", "poolrun: line 1\n2"),
    ("threads\n", "0"),
    (
        "pool 1 3 0 12 2\nthreads\nhold 1\n",
        "pool 1 3 0 12 2\n# refused 24 BadConfig\npoolrun: line 3\n2",
    ),
    (
        "pool 1 3 8388608 12 2\nstop blocks\nsync\nthreads\nhold 1\n",
        "pool 1 3 8388608 12 2\n# pool 3 claim 1\nstop blocks\n# stop\nsync\n# stopped\npoolrun: line 5\n2",
    ),
];

#[test]
fn faults_of_lines_are_told(rt: HostRuntime) -> Result<(), Fail> {
    for (input, wanted) in FAULTS {
        let Told {
            output,
            errors,
            number,
        } = told_in_threads(&rt, rt.alloc(), 2, input)?;
        let told = format!(in rt.alloc(); "{output}{errors}{number}")?;
        assert_eq!(&rt; told.as_str(), wanted);
    }
    Ok(())
}
