//! Random lives of a pool of five disks and two parities of which the same two disks are away now and then: each read gives what was written.
use crate::random_schedules::Dice;
use crate::telling::{expect_none, ran};
use programs::{Alone, PoolOnDisks};
use std::alloc::Global;
use std::test::Fail;

const ROUNDS: usize = 30;

/// A pool with a volume of eight blocks, committed as group 4.
const FIRST_ROWS: &str = "pool 2 5 8388608 12 2 -> pool 3 claim 1
hold 1 -> held 4
create 1 1 v 4096 512 -> receipt 4
release 1 -> released
sync -> committed 4
";

/// A life so far: its rows, and what is known of the pool.
#[derive(Drop)]
struct Life {
    dice: Dice,
    rows: String,
    /// The disks that are away now and then, and whether each is now.
    disks: [u64; 2],
    away: [bool; 2],
    committed: u64,
    claim: u64,
    /// The writer's next number, and how many groups were committed since the pool was opened.
    number: u64,
    commits: u64,
    /// The byte of each block, by the committed group and the one before.
    blocks: [u8; 8],
    before: [u8; 8],
}

impl Life {
    fn new(alloc: Global, seed: u64) -> Result<Life, Fail> {
        let mut dice = Dice { state: seed };
        let first = dice.below(3);
        let second = first.saturating_add(1);
        let mut rows = String::new(alloc);
        rows.push_str(FIRST_ROWS)?;
        Ok(Life {
            dice,
            rows,
            disks: [first, second],
            away: [false; 2],
            committed: 4,
            claim: 1,
            number: 2,
            commits: 0,
            blocks: [0; 8],
            before: [0; 8],
        })
    }

    /// Writes a block, and commits it.
    fn write(&mut self, alloc: Global) -> Result<(), Fail> {
        let group = self.committed.saturating_add(1);
        let number = self.number;
        let block = self.dice.below(8);
        let byte = self.dice.below(256) as u8;
        let offset = block.saturating_mul(512);
        let rows = format!(in alloc;
            "hold 1 -> held {group}
write 1 {number} v {offset} 512 {byte:02x} -> receipt {group}
release 1 -> released
sync -> committed {group}\n"
        )?;
        self.rows.push_str(rows.as_str())?;
        self.before = self.blocks;
        if let Some(it) = self.blocks.get_mut(block as usize) {
            *it = byte;
        }
        self.committed = group;
        self.number = number.saturating_add(1);
        self.commits = self.commits.saturating_add(1);
        Ok(())
    }

    /// Opens the disks anew with some of the two away, and goes back a group where one was committed since the last time.
    fn reopen(&mut self, alloc: Global) -> Result<(), Fail> {
        let back = u64::from(self.commits > 0 && self.dice.below(4) == 0);
        self.away = [self.dice.below(2) == 0, self.dice.below(2) == 0];
        let mut line = format!(in alloc; "reopen {back}")?;
        for (disk, away) in self.disks.iter().zip(self.away.iter()) {
            if *away {
                line.push_str(format!(in alloc; " {disk}")?.as_str())?;
            }
        }
        if back > 0 {
            self.blocks = self.before;
        }
        let group = self.committed.saturating_sub(back);
        let claim = self.claim.saturating_add(1);
        let row = format!(in alloc; "{line} -> opened {group} claim {claim}\n")?;
        self.rows.push_str(row.as_str())?;
        self.committed = group;
        self.claim = claim;
        self.number = 1;
        self.commits = 0;
        Ok(())
    }

    /// Takes one of the two out, unless it is away.
    fn take_out(&mut self, alloc: Global) -> Result<(), Fail> {
        let which = self.dice.below(2) as usize;
        if let (Some(away), Some(disk)) = (self.away.get_mut(which), self.disks.get(which))
            && !*away
        {
            *away = true;
            let row = format!(in alloc; "out {disk} -> out\n")?;
            self.rows.push_str(row.as_str())?;
        }
        Ok(())
    }

    /// Reads the volume.
    fn read(&mut self, alloc: Global) -> Result<(), Fail> {
        let mut runs = String::new(alloc);
        let mut run = (0u8, 0u64);
        for byte in self.blocks.iter().copied() {
            if byte != run.0 {
                push_run(alloc, &mut runs, run)?;
                run = (byte, 0);
            }
            run.1 = run.1.saturating_add(512);
        }
        push_run(alloc, &mut runs, run)?;
        let row = format!(in alloc; "read v 0 4096 ->{runs}\n")?;
        self.rows.push_str(row.as_str())?;
        Ok(())
    }

    /// The rows of a whole life.
    fn live(&mut self, alloc: Global) -> Result<(), Fail> {
        for _ in 0..ROUNDS {
            match self.dice.below(8) {
                0..=2 => self.write(alloc)?,
                3 => self.take_out(alloc)?,
                4..=5 => self.reopen(alloc)?,
                _ => self.read(alloc)?,
            }
        }
        self.reopen(alloc)?;
        self.read(alloc)
    }
}

/// Adds a run of bytes as a reply tells it.
fn push_run(alloc: Global, runs: &mut String, run: (u8, u64)) -> Result<(), Fail> {
    let (byte, len) = run;
    if len > 0 {
        runs.push_str(format!(in alloc; " {byte:02x}x{len}")?.as_str())?;
    }
    Ok(())
}

/// What is told of the life of a seed, where that isn't what its rows say; and behind it, with a third disk out, where a read gives other bytes
/// and isn't refused as lost.
fn lived_otherwise(alloc: Global, seed: u64) -> Result<String, Fail> {
    let mut life = Life::new(alloc, seed)?;
    life.live(alloc)?;
    let exact = life.rows.lines().count();
    let third = life.disks[1].saturating_add(1);
    life.rows
        .push_str(format!(in alloc; "out {third} -> out\n")?.as_str())?;
    life.read(alloc)?;
    let (told, wanted) = ran::<PoolOnDisks, _>(&Alone, alloc, &[life.rows.as_str()])?;
    let mut wrong = told.lines().count() != wanted.lines().count();
    for (row, (came, right)) in told.lines().zip(wanted.lines()).enumerate() {
        if came != right && (row < exact || came != "refused 2 DiskFault") {
            wrong = true;
        }
    }
    Ok(if wrong { told } else { String::new(alloc) })
}

#[test]
fn reads_are_right_while_two_disks_come_and_go(rt: HostRuntime) -> Result<(), Fail> {
    for seed in 1..61 {
        expect_none(&rt, lived_otherwise(rt.alloc(), seed))?;
    }
    Ok(())
}
