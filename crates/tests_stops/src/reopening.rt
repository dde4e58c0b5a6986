//! Pools that are opened after a stop, without one of their disks and then with all.
use crate::pools::{Act, Shown, Volume, Which, commit, do_all, shown_in};
use model_disk::{MemDisk, Member};
use pool_create::{Core, OpenedPool, Refusal, open};
use std::alloc::{AllocError, Global};
use std::cell::Cell;

/// What is shown when a pool is opened, and what by its last opening.
#[derive(Clone, Copy)]
pub(crate) struct Seen {
    pub(crate) first: Shown,
    /// What the last opening is to show.
    pub(crate) wanted: Shown,
    pub(crate) last: Shown,
}

/// What the pool shows that stands at that group, and what it is to show in the end: with `goes_on` it commits one more group.
fn shown_and_wanted(
    alloc: Global,
    core: &mut Core<Member<MemDisk>>,
    group: u64,
    goes_on: bool,
) -> Result<[Shown; 2], AllocError> {
    let first = shown_in(alloc, core, group);
    if !goes_on {
        return Ok([first, first]);
    }
    let act = match first.v {
        Volume::Absent => Act::Makes,
        _ => Act::Fills(3, 0xee),
    };
    do_all(alloc, core, &[(Which::V, act)], 1)?;
    let _ = commit(core, &Cell::new(0u64));
    Ok([first, first.next(&[(Which::V, act)])])
}

/// The same of the pool on these disks; and its disks.
fn opened_once(
    alloc: Global,
    disks: Vec<MemDisk>,
    goes_on: bool,
) -> Result<([Shown; 2], Vec<Member<MemDisk>>), Refusal> {
    let OpenedPool {
        mut core,
        uberblock,
    } = open(alloc, disks, 0)?.0;
    let shown = shown_and_wanted(alloc, &mut core, uberblock.group, goes_on);
    let disks = core.into_disks();
    Ok((shown?, disks))
}

/// Disks with these bytes, and in a list of its own the absent one.
fn disks_of(
    alloc: Global,
    images: Vec<Vec<u8>>,
    absent: Option<usize>,
) -> Result<(Vec<MemDisk>, Vec<MemDisk>), AllocError> {
    let mut disks = Vec::new(alloc);
    let mut aside = Vec::new(alloc);
    for (which, bytes) in images.into_iter().enumerate() {
        let list = if absent == Some(which) {
            &mut aside
        } else {
            &mut disks
        };
        list.push(MemDisk::holding(bytes))?;
    }
    Ok((disks, aside))
}

/// Opens a pool on disks with these bytes, without the absent one; with `goes_on` commits one more group; and opens it again on all.
pub(crate) fn reopened(
    alloc: Global,
    images: Vec<Vec<u8>>,
    absent: Option<usize>,
    goes_on: bool,
) -> Result<Seen, Refusal> {
    let (disks, mut all) = disks_of(alloc, images, absent)?;
    let ([first, wanted], members) = opened_once(alloc, disks, goes_on)?;
    for member in members {
        if let Some(disk) = member.into_disk() {
            all.push(disk)?;
        }
    }
    let ([last, _], _members) = opened_once(alloc, all, false)?;
    Ok(Seen {
        first,
        wanted,
        last,
    })
}
