//! What leads from one free set of a metaslab to another.
ghost use Rattle.std.specs.Prelude.{◌≡◌, ◌+◌, ◌^◌, ◌<◌, ◌≤◌, ℕ, List, ◌++◌, OnOk};
ghost use Rattle.space_map.specs.declared.entry.Entry.{Entry};
ghost use Rattle.space_map.specs.Entry.{spelling};
ghost use Rattle.space_map.specs.Sectors.{contains, AreBetween};
ghost use Rattle.space_map.specs.Stretches.{AreAhead, AreChanges, EndFrom, IsStretch};
ghost use Rattle.space_map.specs.Updates.{AppendsUpdate};

use crate::appending::append;
use crate::entry::{Kind, Run};
use crate::free_set::FreeSet;
use std::alloc::AllocError;

/// Sectors in a row that are all free, or all not: up to the next one that is otherwise, or the metaslab's end.
#[derive(Clone, Copy)]
struct Stretch {
    free: bool,
    end: u64,
}

/// Appends to a map's bytes what leads from one free set of a metaslab to another, in one sweep over both: the
/// entries ascend, and name the sectors that differ and no others, each entry as long as it can be, up to 32,768
/// sectors. After an error `out` may have some of them.
pub fn append_update(out: &mut Vec<u8>, old: &FreeSet, new: &FreeSet) -> Result<(), AllocError>
    requires { old.now.sectors ≡ new.now.sectors }
    ensures { OnOk result (AppendsUpdate old.now.sectors
        (contains old.now.runs) (contains new.now.runs) out.old.items out.new.items) }
{
    let sectors = old.sectors();
    let mut old_rest = old.runs();
    let mut new_rest = new.runs();
    let mut at = 0;
    while at < sectors {
        let before = stretch_at(old_rest, at, sectors);
        let after = stretch_at(new_rest, at, sectors);
        let end = before.end.min(after.end);
        let len = end - at;
        append_change(out, before.free, after.free, Run { start: at, len })?;
        old_rest = ahead(old_rest, end);
        new_rest = ahead(new_rest, end);
        at = end;
    }
    Ok(())
}

/// How far what a sector is goes on, by the runs that end behind it.
fn stretch_at(rest: &[Run], at: u64, sectors: u64) -> Stretch
    requires few { sectors < 2 ^ 47 }
    requires within { at < sectors }
    requires apart { AreBetween 0 (sectors + 1) rest.now }
    requires end { EndFrom (at + 1) rest.now }
    ensures { IsStretch sectors rest.now at result }
{
    let Some((run, _)) = rest.split_first() else {
        return Stretch {
            free: false,
            end: sectors,
        };
    };
    if at < run.start {
        return Stretch {
            free: false,
            end: run.start,
        };
    }
    Stretch {
        free: true,
        end: run.start + run.len,
    }
}

/// Of runs that don't end before a sector, those that end behind it.
fn ahead(rest: &[Run], at: u64) -> &[Run]
    requires { EndFrom at rest.now }
    ensures { (sectors : ℕ) → AreBetween 0 (sectors + 1) rest.now
        → AreAhead sectors rest.now at result.now }
{
    match rest.split_first() {
        Some((run, others)) if run.start <= at && run.len <= at - run.start => others,
        _ => rest,
    }
}

/// Appends the entries of a run that was free, or wasn't, and is now, or isn't.
fn append_change(out: &mut Vec<u8>, was: bool, is: bool, run: Run) -> Result<(), AllocError>
    requires { run.start + run.len ≤ 2 ^ 47 }
    ensures { OnOk result ((es : List Entry) × AreChanges was is run es
        × (out.new.items ≡ out.old.items ++ spelling es)) }
{
    if was && !is {
        append(out, Kind::Allocated, run)?;
    }
    if !was && is {
        append(out, Kind::Freed, run)?;
    }
    Ok(())
}
