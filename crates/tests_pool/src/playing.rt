//! Schedules, played against a pool.
//!
//! A schedule's text has lines `LINE -> REPLY`, where LINE is one of a schedule as `poolrun` runs it; `times NUMBER LINE` takes it
//! so often, with the same reply each time. Of the lines without an arrow, `missing DISK ..` names the disks that are missing for
//! reads under a group from then on; `pool ..` and `fault ..` are for whoever makes the pool.
use model_disk::Disk;
use pool_core::Core;
use pool_model::{Action, Bytes, Change, Reply, Step, Write};
use schedule_lines::{Command, Line, parse, reply_text};
use std::alloc::Global;
use std::test::Fail;

/// A pool, and the disks that are missing for reads under a group.
#[derive(Drop)]
pub(crate) struct Player<D: Disk + Drop> {
    pub(crate) core: Core<D>,
    pub(crate) missing: Vec<usize>,
}

/// The first step of a line, and whether all steps follow that bring its group on.
pub(crate) fn step_in(alloc: Global, line: &str) -> Result<(Step, bool), Fail> {
    let Line::Command(command) = parse(alloc, line.as_bytes())? else {
        return Err(Fail::new("no command"));
    };
    let goes_on = matches!(command, Command::Commit | Command::Sync);
    let step = match command {
        Command::Hold { writer } => Step::Hold(writer),
        Command::Release { writer } => Step::Release(writer),
        Command::Write(line) => Step::Write(Write {
            writer: line.writer,
            number: line.number,
            volume: line.volume,
            offset: line.offset,
            bytes: Bytes::new(vec![in alloc; line.byte; line.len as usize]?),
        }),
        Command::Create(line) => Step::Act(Action {
            writer: line.writer,
            number: line.number,
            change: Change::Create {
                name: line.volume,
                size: line.size,
                block_size: line.block_size,
            },
        }),
        Command::Close | Command::Sync => Step::Close,
        Command::Quiesced => Step::Quiesce,
        Command::Plan | Command::Commit => Step::Plan { timestamp: 0 },
        Command::Device => Step::Device,
        Command::Read(line) => Step::Read {
            name: line.name,
            offset: line.offset,
            len: line.len,
        },
        Command::Under(line) => Step::ReadUnder {
            group: line.group,
            name: line.name,
            offset: line.offset,
            len: line.len,
        },
        Command::Out { disk } => Step::DiskOut(disk as usize),
        _ => return Err(Fail::new("no step of a pool")),
    };
    Ok((step, goes_on))
}

impl<D: Disk + Drop> Player<D> {
    fn step(&mut self, step: Step) -> Reply {
        match step {
            Step::ReadUnder {
                group,
                name,
                offset,
                len,
            } => match self
                .core
                .read_under(group, &name, offset, len, &self.missing)
            {
                Ok(bytes) => Reply::Bytes(bytes),
                Err(refusal) => Reply::Refused(refusal),
            },
            other => self.core.step(other),
        }
    }

    /// Takes a step, and each one that brings its group on: the last reply.
    fn run_on(&mut self, step: Step) -> Reply {
        let mut reply = self.step(step);
        for _ in 0..u64::MAX {
            let next = match &reply {
                Reply::Closed(_) => Step::Quiesce,
                Reply::Quiesced(_) | Reply::Replan(_) => Step::Plan { timestamp: 0 },
                Reply::Planned(_) | Reply::Moved(_) => Step::Device,
                _ => return reply,
            };
            reply = self.step(next);
        }
        reply
    }

    /// What a line is replied, each time that it is taken. What is the same again is not told again.
    pub(crate) fn replied(&mut self, alloc: Global, front: &str) -> Result<String, Fail> {
        let (count, line) = match front.strip_prefix("times ") {
            Some(rest) => rest.split_once(" ").unwrap_or(("0", rest)),
            None => ("1", front),
        };
        let count: u64 = count.parse().unwrap_or(0);
        let mut replied = String::new(alloc);
        for _ in 0..count {
            let (step, goes_on) = step_in(alloc, line)?;
            let reply = if goes_on {
                self.run_on(step)
            } else {
                self.step(step)
            };
            let text = reply_text(alloc, &reply)?;
            if text != replied {
                replied.push_str(text.as_str())?;
            }
        }
        Ok(replied)
    }
}

/// The lines of a schedule that a pool replies to otherwise, with its replies.
pub(crate) fn wrong_replies<D: Disk + Drop>(
    alloc: Global,
    player: &mut Player<D>,
    text: &str,
) -> Result<String, Fail> {
    let mut wrong = String::new(alloc);
    for line in text.lines() {
        if let Some((front, wanted)) = line.split_once(" -> ") {
            let replied = player.replied(alloc, front)?;
            if replied.as_str() != wanted {
                wrong.push_str(format!(in alloc; "{front} -> {replied}\n")?.as_str())?;
            }
        } else if let Some(disks) = line.strip_prefix("missing") {
            player.missing = disks
                .split_whitespace()
                .map(|disk| disk.parse().unwrap_or(usize::MAX))
                .collect(alloc)?;
        }
    }
    Ok(wrong)
}
