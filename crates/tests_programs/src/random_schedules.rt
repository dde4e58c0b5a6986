//! Random schedules of several writers: a pool over disks replies as the machine in memory does.
ghost use Rattle.std.specs.Prelude.{◌<◌};

use crate::telling::{expect_none, ran_otherwise, reply_to};
use model_disk::MemDisk;
use plain_machine::Machine;
use pool_model::Reply;
use programs::{Alone, Core};
use schedule_lines::reply_text;
use std::alloc::Global;
use std::test::Fail;

const LINES: usize = 300;

const POOL: &str = "pool 1 3 8388608 12 2 -> pool 3 claim 1\n";

/// Makes the volumes v, w and x and snapshots of two of them in group 4, and commits it.
const FIRST_LINES: [&str; 8] = [
    "hold 1",
    "create 1 1 v 4096 512",
    "create 1 2 w 4096 1024",
    "create 1 3 x 4096 512",
    "snapshot 1 4 v a",
    "snapshot 1 5 w a",
    "release 1",
    "sync",
];

/// Read all that may be there at the end.
const LAST_LINES: [&str; 8] = [
    "read v 0 4096",
    "read w 0 4096",
    "read x 0 4096",
    "read p 0 4096",
    "read q 0 4096",
    "read r 0 4096",
    "read s 0 4096",
    "read t 0 4096",
];

/// Names of volumes, some that only clones have, one that is seldom made and one that no volume may have.
const NAMES: [&str; 16] = [
    "v", "w", "x", "v", "w", "x", "v", "w", "x", "p", "q", "r", "s", "t", "seldom", "A",
];

/// Names of snapshots, behind those of the volumes.
const PARTS: [&str; 4] = ["a", "a", "b", "c"];

/// Names of clones: one of them is that of a volume which is there.
const CLONES: [&str; 6] = ["p", "q", "r", "s", "t", "v"];

/// Sizes of blocks, two of which no volume may have.
const BLOCK_SIZES: [u64; 6] = [512, 1024, 512, 1024, 768, 256];

/// A linear congruential generator.
#[derive(Drop)]
pub(crate) struct Dice {
    pub(crate) state: u64,
}

impl Dice {
    pub(crate) fn below(&mut self, bound: u64) -> u64
        requires { 0 < bound }
        ensures { result < bound }
    {
        self.state = self
            .state
            .wrapping_mul(6_364_136_223_846_793_005)
            .wrapping_add(1_442_695_040_888_963_407);
        (self.state >> 33) % bound
    }

    /// A whole volume, some sectors, or a place that no volume has.
    fn range(&mut self) -> (u64, u64) {
        match self.below(20) {
            0 => (self.below(4097), 512),
            1 => (0, self.below(2000)),
            2 => (u64::MAX - 511, 512),
            3..=9 => (0, 4096),
            _ => (512 * self.below(9), 512 * self.below(4)),
        }
    }
}

/// What the writers know, and how often it went well.
#[derive(Drop)]
struct Writers {
    dice: Dice,
    /// Who sent the last line, counted from 0.
    writer: usize,
    /// The next number of each writer.
    numbers: [u64; 4],
    committed: u64,
    receipts: u64,
    clones: u64,
    destroys: u64,
    reads: u64,
}

impl Writers {
    fn new(seed: u64) -> Writers {
        Writers {
            dice: Dice { state: seed },
            writer: 0,
            numbers: [1; 4],
            committed: 3,
            receipts: 0,
            clones: 0,
            destroys: 0,
            reads: 0,
        }
    }

    /// A line of a writer, with its next number and seldom another one, of a group that is kept or one that is not.
    fn line(&mut self, alloc: Global) -> Result<String, Fail> {
        self.writer = self.dice.below(4) as usize;
        let writer = self.writer as u32 + 1;
        let number = if self.dice.below(20) == 0 {
            self.dice.below(40)
        } else {
            self.numbers.get(self.writer).copied().unwrap_or(0)
        };
        let byte = self.dice.below(256) as u8;
        let block_size = BLOCK_SIZES[self.dice.below(6) as usize];
        let kept = self.committed.saturating_add(1);
        let group = kept.saturating_sub(self.dice.below(6));
        let name = NAMES[self.dice.below(16) as usize];
        let part = PARTS[self.dice.below(4) as usize];
        let clone = CLONES[self.dice.below(6) as usize];
        let (offset, len) = self.dice.range();
        Ok(match self.dice.below(62) {
            0..=6 => format!(in alloc; "hold {writer}")?,
            7..=11 => format!(in alloc; "release {writer}")?,
            12..=20 => format!(in alloc;
                "write {writer} {number} {name} {offset} {len} {byte:02x}"
            )?,
            21 => format!(in alloc; "create {writer} {number} {name} 4096 {block_size}")?,
            22..=24 => format!(in alloc; "close")?,
            25..=28 => format!(in alloc; "quiesced")?,
            29..=32 => format!(in alloc; "commit")?,
            33..=37 => format!(in alloc; "read {name} {offset} {len}")?,
            38..=40 => format!(in alloc; "under {group} {name} {offset} {len}")?,
            41..=44 => format!(in alloc; "snapshot {writer} {number} {name} {part}")?,
            45..=46 => format!(in alloc; "read {name}@{part} {offset} {len}")?,
            47 => format!(in alloc; "under {group} {name}@{part} {offset} {len}")?,
            48..=55 => format!(in alloc; "clone {writer} {number} {name}@{part} {clone}")?,
            56..=59 => format!(in alloc; "destroy {writer} {number} {name}@{part}")?,
            _ => format!(in alloc; "destroy {writer} {number} {name}")?,
        })
    }

    fn learn(&mut self, line: &str, reply: &Reply) {
        match reply {
            Reply::Receipt(_) => {
                self.receipts = self.receipts.saturating_add(1);
                self.clones = self
                    .clones
                    .saturating_add(u64::from(line.starts_with("clone")));
                self.destroys = self
                    .destroys
                    .saturating_add(u64::from(line.starts_with("destroy")));
                if let Some(number) = self.numbers.get_mut(self.writer) {
                    *number = number.saturating_add(1);
                }
            }
            Reply::Committed(group) => self.committed = *group,
            Reply::Bytes(bytes) => self.reads = self
                .reads
                .saturating_add(u64::from(!bytes.is_empty())),
            _ => {}
        }
    }

    fn is_lucky(&self) -> bool {
        self.committed >= 6
            && self.receipts >= 10
            && self.clones >= 2
            && self.destroys >= 2
            && self.reads >= 16
    }
}

// The line with its reply.
fn row(
    alloc: Global,
    machine: &mut Machine,
    writers: &mut Writers,
    line: &str,
) -> Result<String, Fail> {
    let reply = reply_to(alloc, machine, line)?;
    writers.learn(line, &reply);
    Ok(format!(in alloc; "{line} -> {}\n", reply_text(alloc, &reply)?)?)
}

// These lines, with what the machine in memory replies.
fn fixed_rows(
    alloc: Global,
    machine: &mut Machine,
    writers: &mut Writers,
    lines: &[&str],
) -> Result<String, Fail> {
    let mut rows = String::new(alloc);
    for line in lines {
        rows.push_str(row(alloc, machine, writers, line)?.as_str())?;
    }
    Ok(rows)
}

// The lines that are chosen, with what it replies.
fn chosen_rows(
    alloc: Global,
    machine: &mut Machine,
    writers: &mut Writers,
) -> Result<String, Fail> {
    let mut rows = String::new(alloc);
    for _ in 0..LINES {
        let line = writers.line(alloc)?;
        rows.push_str(row(alloc, machine, writers, line.as_str())?.as_str())?;
    }
    Ok(rows)
}

// The first lines, those that are chosen, and the last ones.
fn rows_of(alloc: Global, machine: &mut Machine, writers: &mut Writers) -> Result<String, Fail> {
    let mut rows = fixed_rows(alloc, machine, writers, &FIRST_LINES)?;
    rows.push_str(chosen_rows(alloc, machine, writers)?.as_str())?;
    rows.push_str(fixed_rows(alloc, machine, writers, &LAST_LINES)?.as_str())?;
    Ok(rows)
}

// These rows of writers, over a machine of their own.
fn rows_in_memory(alloc: Global, writers: &mut Writers) -> Result<String, Fail> {
    let mut machine = Machine::create(alloc);
    rows_of(alloc, &mut machine, writers)
}

// The rows, with a disk that is taken out before one of those that are chosen.
fn with_a_disk_out(alloc: Global, writers: &mut Writers, rows: &str) -> Result<String, Fail> {
    let before = writers.dice.below(LINES as u64) as usize;
    let disk = writers.dice.below(3);
    let mut text = String::new(alloc);
    for (number, row) in rows.lines().enumerate() {
        if number == before {
            text.push_str(format!(in alloc; "out {disk} -> out\n")?.as_str())?;
        }
        text.push_str(row)?;
        text.push_str("\n")?;
    }
    Ok(text)
}

// What the core over disks tells of the rows of a seed, where it replies otherwise than the machine in memory, or too few of them
// went well. A disk is taken out in the middle where that is asked.
fn other_replies(alloc: Global, seed: u64, is_out: bool) -> Result<String, Fail> {
    let mut writers = Writers::new(seed);
    let rows = rows_in_memory(alloc, &mut writers)?;
    if !writers.is_lucky() {
        return Ok(rows);
    }
    let rows = if is_out {
        with_a_disk_out(alloc, &mut writers, rows.as_str())?
    } else {
        rows
    };
    let parts = [POOL, rows.as_str()];
    ran_otherwise::<Core<MemDisk>, _>(&Alone, alloc, &[parts.as_slice()])
}

const SEEDS: [u64; 3] = [57, 107, 250];

const SEEDS_WITH_ONE_OUT: [u64; 3] = [152, 211, 333];

#[test]
fn disks_reply_as_memory_does(rt: HostRuntime) -> Result<(), Fail> {
    for seed in &SEEDS {
        expect_none(&rt, other_replies(rt.alloc(), *seed, false))?;
    }
    Ok(())
}

#[test]
fn disks_reply_as_memory_does_with_one_out(rt: HostRuntime) -> Result<(), Fail> {
    for seed in &SEEDS_WITH_ONE_OUT {
        expect_none(&rt, other_replies(rt.alloc(), *seed, true))?;
    }
    Ok(())
}
