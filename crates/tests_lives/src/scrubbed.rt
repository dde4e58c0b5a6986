//! A disk that missed a group has every block again behind a scrub, and is read for each at once.
use crate::lived::config;
use line_steps::{first_step, next_step};
use model_disk::{Disk, MemDisk, Member};
use pool_create::{Core, OpenedPool, create, open};
use pool_format::PoolIdentity;
use pool_model::Reply;
use pool_open::into_disks;
use pool_scrub::{ScrubCounts, Scrubbed, scrub};
use schedule_lines::{Line, parse, reply_text};
use std::alloc::{AllocError, Global};
use std::test::Fail;

/// A group is committed while disk 0 is out.
const AWAY: [(&str, &str); 6] = [
    ("out 0", "out"),
    ("hold 1", "held 4"),
    ("create 1 1 v 1024 512", "receipt 4"),
    ("write 1 2 v 0 512 aa", "refused 9 NotYet"),
    ("release 1", "released"),
    ("sync", "committed 4"),
];

/// Bytes are committed without disk 0 too.
const WRITTEN: [(&str, &str); 4] = [
    ("hold 1", "held 5"),
    ("write 1 2 v 0 512 aa", "receipt 5"),
    ("release 1", "released"),
    ("sync", "committed 5"),
];

/// With all disks there, disk 0 missed these groups: without another one they can't be read.
const STALE: [(&str, &str); 2] = [("out 1", "out"), ("read v 0 1024", "refused 2 DiskFault")];

/// Behind the scrub they can, in the same life and in the next one.
const WHOLE: [(&str, &str); 2] = [("out 1", "out"), ("read v 0 1024", "aax512 00x512")];

/// The first of these lines of which the last reply is another one.
pub(crate) fn wrong<D: Disk + Drop>(
    alloc: Global,
    core: &mut Core<D>,
    lines: &[(&str, &str)],
) -> Result<String, Fail> {
    for (line, wanted) in lines {
        let Line::Command(command) = parse(alloc, line.as_bytes())? else {
            return Err(Fail::new("no command"));
        };
        let mut step = first_step(alloc, command)?;
        let mut reply = Reply::Out;
        for _ in 0..u64::MAX {
            let Some(next) = step else {
                break;
            };
            reply = core.step(next);
            step = next_step(&reply);
        }
        let text = reply_text(alloc, &reply)?;
        if text.as_str() != *wanted {
            return Ok(format!(in alloc; "{line}: {text}")?);
        }
    }
    Ok(String::new(alloc))
}

/// Three disks of a pool in which disk 0 missed two groups.
fn stale_disks(alloc: Global) -> Result<Vec<MemDisk>, Fail> {
    let disks = MemDisk::several(alloc, 3, 0x80_0000)?;
    let name = String::from_str(alloc, "pool")?;
    let identity = PoolIdentity { name, guid: 1 };
    let Ok(made) = create(alloc, disks, identity, config(alloc)?) else {
        return Err(Fail::new("not made"));
    };
    let OpenedPool { mut core, .. } = made;
    let first = wrong(alloc, &mut core, &AWAY)?;
    let second = wrong(alloc, &mut core, &WRITTEN)?;
    if first.is_empty() && second.is_empty() {
        Ok(there(alloc, core.into_disks())?)
    } else {
        Err(Fail::new("not written"))
    }
}

/// The disks of members that are there.
pub(crate) fn there(
    alloc: Global,
    members: Vec<Member<MemDisk>>,
) -> Result<Vec<MemDisk>, AllocError> {
    let mut disks = Vec::new(alloc);
    'members: for member in members {
        if let Member::Present(disk) = member {
            disks.push(disk)?;
        }
    }
    Ok(disks)
}

/// What is wrong with these lines on the disks as they are opened, without a scrub.
fn wrong_opened(
    alloc: Global,
    disks: Vec<MemDisk>,
    lines: &[(&str, &str)],
) -> Result<(String, Vec<MemDisk>), Fail> {
    let Ok((pool, from)) = open(alloc, disks, 0) else {
        return Err(Fail::new("not opened"));
    };
    let OpenedPool {
        mut core,
        uberblock,
    } = pool;
    let text = wrong(alloc, &mut core, lines)?;
    Ok((
        text,
        into_disks(OpenedPool { core, uberblock }, from.handed),
    ))
}

/// What is wrong with these lines behind a scrub of the disks, and what it counted.
pub(crate) fn wrong_scrubbed(
    alloc: Global,
    disks: Vec<MemDisk>,
    lines: &[(&str, &str)],
) -> Result<(String, ScrubCounts), Fail> {
    let Ok(scrubbed) = scrub(alloc, disks) else {
        return Err(Fail::new("not scrubbed"));
    };
    let Scrubbed { pool, counts, .. } = scrubbed;
    let OpenedPool { mut core, .. } = pool;
    Ok((wrong(alloc, &mut core, lines)?, counts))
}

#[test]
fn a_stale_disk_is_read_behind_a_scrub(rt: HostRuntime) -> Result<(), Fail> {
    let alloc: Global = rt.alloc();
    let (before, disks) = wrong_opened(alloc, stale_disks(alloc)?, &STALE)?;
    assert!(rt; before.is_empty(), "{before}");
    let (behind, counts) = wrong_scrubbed(alloc, disks, &WHOLE)?;
    assert!(rt; behind.is_empty(), "{behind}");
    assert!(rt; counts.group == 5 && counts.findings > 0 && counts.left == 0);
    Ok(())
}
