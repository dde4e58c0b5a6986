//! Threads over a pool of which a disk fails in the middle.
ghost use Rattle.std.specs.Prelude.{◌≡◌, ◌+◌, ◌<◌, ◌≤◌, IfOk};

use crate::made::{VOLUME, name};
use crate::rounds::{end_of, first_astray, replies_in, rounds};
use crate::shared_plans::{commit, quiesce};
use block_store::VdevConfig;
use line_steps::first_step;
use model_disk::{Fault, FaultDisk, MemDisk};
use pool_core::Core;
use pool_model::{Action, Change, Refusal as Cause, Reply, Step};
use pool_steps::{PoolSteps, most_bytes, within};
use raidz_map::Geometry;
use schedule_lines::{Line, parse, reply_text};
use shared_pool::{Books, ROOM, Recorded, SharedPool};
use std::alloc::Global;
use std::marker::Brand;
use std::process::Abort;
use std::sync::Wait;
use std::sync::ledger::{Blank, Ledger};
use std::test::*;
use std::thread::Threads;
use thread_runs::{ThreadLines, run_in_threads};

/// A pool over disks that may fail. Nothing is said of what its steps do: what threads recorded of it is played again.
#[derive(Drop)]
struct Failing {
    core: Core<FaultDisk<MemDisk>>,
}

impl PoolSteps for Failing {
    ghost represents = { λ _ _. ⊥ };

    ghost came_from = { λ _ _. Unit {0} };

    ghost answers_tell = { λ _ _. ⊥ };

    ghost links = { λ _ _ _ _ _ _ _. Unit {0} };

    ghost is_sound = { λ it v none. absurd none };

    ghost came_from_itself = { λ it. tt };

    ghost came_further = { λ first mid last before after. tt };

    ghost parts_tell = { λ first mid last before after truly. absurd truly };

    fn take_step(&mut self, step: Step) -> Reply {
        let most = most_bytes(&step);
        within(most, self.core.step(step))
    }
}

/// A pool of three disks with one parity, of which the second has this fault; and a volume of 16 blocks of 512 bytes.
fn pool(alloc: Global, second: Fault) -> Result<Failing, Fail> {
    let volume = name(alloc, VOLUME)?;
    let mut disks = Vec::new(alloc);
    for fault in [Fault::At(u64::MAX), second, Fault::At(u64::MAX)] {
        disks.push(FaultDisk::new(MemDisk::new(alloc, 0x80_0000)?, fault))?;
    }
    let vdev = VdevConfig {
        geometry: Geometry::new(3, 1, 9)?,
        metaslab_shift: 12,
        meta_slabs: 2,
    };
    let mut core = Core::create(alloc, disks, &[vdev])?;
    let created = Action {
        writer: 1,
        number: 1,
        change: Change::Create {
            name: volume,
            size: 8192,
            block_size: 512,
        },
    };
    quiesce(&mut core, 1, Step::Act(created));
    core.step(Step::Plan { timestamp: 8 });
    commit(&mut core);
    Ok(Failing { core })
}

/// The step that a line asks for.
fn step_of(alloc: Global, line: &str) -> Result<Step, Fail> {
    let Line::Command(command) = parse(alloc, line.as_bytes())? else {
        return Err(Fail::new("no command"));
    };
    let Some(step) = first_step(alloc, command)? else {
        return Err(Fail::new("no step"));
    };
    Ok(step)
}

/// The lines of a text, for so many threads.
fn lines_of(alloc: Global, threads: usize, text: &str) -> Result<ThreadLines, Fail>
    ensures threads { IfOk result (λ lines. lines.threads ≡ threads) }
{
    let mut lines = ThreadLines::new(alloc, threads);
    for line in text.lines() {
        let step = step_of(alloc, line)?;
        if !lines.push(step)? {
            return Err(Fail::new("no line of threads"));
        }
    }
    Ok(lines)
}

/// What threads print that send these lines, in ledgers of their own.
fn in_threads<L: Ledger + Send + Sync, M: Ledger + Send + Sync, R: Threads + Wait + Sync>(
    rt: &R,
    alloc: Global,
    pool: Failing,
    lines: ThreadLines,
    steps: Blank,
    calls: Blank,
) -> Result<String, Fail>
    requires steps { (steps.name ≡ L.name) × (steps.parts ≡ L.parts) }
    requires calls { (calls.name ≡ M.name) × (calls.parts ≡ M.parts) }
    requires parts { (steps.parts ≡ lines.threads + 3) × (calls.parts ≡ lines.threads + 3) }
    requires threads { 0 < lines.threads }
{
    let (books, all) = Books::<L, M>::open(steps, calls);
    let Ok(recorded) = Recorded::new(alloc, pool, books) else {
        return Err(Fail::new("no memory for a record"));
    };
    let mut output = Vec::new(alloc);
    let Ok(()) = run_in_threads(rt, alloc, recorded, all, lines, &mut output) else {
        return Err(Fail::new("the threads did not end well"));
    };
    Ok(String::from_utf8(output)?)
}

/// The same by so many threads, over a pool whose second disk has this fault.
fn shared_text<R: Threads + Wait + Sync>(
    rt: &R,
    alloc: Global,
    threads: usize,
    second: Fault,
    lines: &str,
) -> Result<String, Fail>
    requires { (0 < threads) × (threads ≤ 64) }
{
    let lines = lines_of(alloc, threads, lines)?;
    let pool = pool(alloc, second)?;
    let parts = threads as u64 + 3;
    in_threads::<Brand, Brand, R>(rt, alloc, pool, lines, Blank::new(parts), Blank::new(parts))
}

/// The first line of a record that such a pool replies to otherwise, if there is one.
fn first_wrong(alloc: Global, pool: &mut Failing, record: &str) -> Result<Option<String>, Fail> {
    let mut lines = record.lines();
    while let Some(line) = lines.next() {
        let step = step_of(alloc, line)?;
        let reply = reply_text(alloc, &pool.take_step(step))?;
        let said = lines.next().and_then(|said| said.strip_prefix("# "));
        if said != Some(reply.as_str()) {
            return Ok(Some(String::from_str(alloc, line)?));
        }
    }
    Ok(None)
}

/// What such threads print of so many rounds: it has the lines of each writer, ends with a commit and what is read, and such a pool
/// gives the same replies again; and whether that pool then has lost its second disk, and no other.
fn replayed<R: Threads + Wait + Abort + Sync>(
    rt: &R,
    alloc: Global,
    threads: usize,
    second: Fault,
    turns: u64,
) -> Result<(String, bool), Fail>
    requires threads { (0 < threads) × (threads ≤ 64) }
    requires turns { turns < 100000 }
{
    let lines = rounds(alloc, turns)?;
    let text = shared_text(rt, alloc, threads, second, lines.as_str())?;
    let end = end_of(alloc, turns)?;
    let front = text.as_str().strip_suffix(end.as_str()).unwrap_or("");
    let (_, last) = front.rsplit_once('\n').unwrap_or(("", ""));
    assert!(rt; last.starts_with("# committed "), "{text}");
    let astray = first_astray(alloc, lines.as_str(), text.as_str())?;
    assert_eq!(rt; astray, None);
    let mut again = pool(alloc, second)?;
    let wrong = first_wrong(alloc, &mut again, text.as_str())?;
    assert_eq!(rt; wrong, None);
    let marks = again.core.marks(alloc)?;
    Ok((text, marks.as_slice() == [false, true, false].as_slice()))
}

/// What the second disk fails: the flush of the blocks of the first group that the threads write, whatever it has, since the volume's own
/// group made two; or from a call in the middle on all.
const FAULTS: [Fault; 3] = [Fault::Flush(2), Fault::From(200), Fault::From(333)];

const REPLAN: &str = "\ndevice\n# replan 1\n";

#[test]
fn a_disk_fails_under_threads(rt: HostRuntime) -> Result<(), Fail> {
    let alloc = rt.alloc();
    for threads in 1..5usize {
        for second in FAULTS {
            let (text, is_lost) = replayed(&rt, alloc, threads, second, 20)?;
            if matches!(second, Fault::Flush(_)) {
                assert!(rt; is_lost && text.as_str().contains(REPLAN), "{text}");
            }
        }
    }
    Ok(())
}

/// More lines than a record has room for.
#[test]
fn a_disk_fails_while_sixteen_writers_fill_a_record(rt: HostRuntime) -> Result<(), Fail> {
    let (text, is_lost) = replayed(&rt, rt.alloc(), 4, Fault::Flush(2), 444)?;
    assert!(rt; is_lost);
    assert!(rt; replies_in(text.as_str()) > ROOM as u64);
    Ok(())
}

#[test]
fn disks_are_taken_out_by_the_syncer(rt: HostRuntime) -> Result<(), Fail> {
    taken_out::<Brand, Brand, _>(&rt, rt.alloc(), Blank::new(1), Blank::new(1))
}

fn taken_out<L: Ledger, M: Ledger, R: Wait + Abort>(
    rt: &R,
    alloc: Global,
    steps: Blank,
    calls: Blank,
) -> Result<(), Fail>
    requires steps { (steps.name ≡ L.name) × (steps.parts ≡ L.parts) }
    requires calls { (calls.name ≡ M.name) × (calls.parts ≡ M.parts) }
    requires one { (steps.parts ≡ 1) × (calls.parts ≡ 1) }
{
    let (books, all) = Books::<L, M>::open(steps, calls);
    let Ok(recorded) = Recorded::new(alloc, pool(alloc, Fault::At(u64::MAX))?, books) else {
        return Err(Fail::new("no memory for a record"));
    };
    let shared = SharedPool::new(recorded);
    let mut syncer = shared.syncer(all);
    assert!(rt; matches!(syncer.put_out(rt, 1), Ok(Reply::Out)));
    assert!(rt; matches!(syncer.put_out(rt, 1), Ok(Reply::Refused(Cause::NotNow))));
    assert!(rt; matches!(syncer.put_out(rt, 3), Ok(Reply::Refused(Cause::OutOfRange))));
    assert!(rt; matches!(syncer.put_out(rt, 0), Ok(Reply::Out)));
    let mut quiescer = shared.quiescer(syncer.into_shares());
    assert!(rt; matches!(quiescer.close(rt), Ok(Reply::Refused(Cause::Suspended))));
    Ok(())
}
