//! What was released, and when it may be handed out again.
ghost use Rattle.std.specs.Prelude.{◌≡◌, ◌+◌, ◌*◌, ◌<◌, ◌≤◌, nat_le, true, OnOk, OnErr};
ghost use Rattle.std.specs.List.{list_all, list_any};
ghost use Rattle.space_map.specs.FreeRuns.{entry_of, CanEnter, IsEntered};
ghost use Rattle.metaslab.specs.State.{is_due};
ghost use Rattle.metaslab.specs.Released.{count_of, kept, IsHeldBack, HasGained};
ghost use Rattle.metaslab.specs.Fits.{IsRaised};

use crate::free_space::FreeSpace;
use space_map::{FreeSet, Kind, Run};
use std::alloc::AllocError;

/// A run that a group released.
#[derive(Clone, Copy)]
pub(crate) struct Release {
    pub(crate) group: u64,
    pub(crate) run: Run,
}

/// Whether no group before this one is pinned.
fn are_from(pins: &[u64], group: u64) -> bool
    ensures { result ≡ list_all (λ pin. nat_le group pin) pins.now }
{
    pins.iter().all(|pin| group <= *pin)
}

/// Whether what a group released may be handed out to another.
fn is_due(pins: &[u64], group: u64, releasing: u64) -> bool
    ensures { result ≡ is_due pins.now group releasing }
{
    group >= 3 && releasing <= group - 3 && are_from(pins, releasing)
}

/// Whether something that was released is due.
pub(crate) fn holds_due(released: &[Release], pins: &[u64], group: u64) -> bool
    ensures { result ≡ list_any (λ release. is_due pins.now group release.group) released.now }
{
    released
        .iter()
        .any(|release| is_due(pins, group, release.group))
}

/// Gives what is due to the free sectors.
pub(crate) fn give_due(
    free: &mut FreeSpace,
    released: &[Release],
    pins: &[u64],
    group: u64,
) -> Result<(), AllocError>
    requires { IsHeldBack free.old.free released.now }
    ensures gained { OnOk result
        (HasGained (is_due pins.now group) released.now free.old.free free.new.free) }
    ensures ticks { OnOk result
        (free.new.ticks ≤ free.old.ticks + 8 * count_of (is_due pins.now group) released.now) }
{
    for release in released {
        if is_due(pins, group, release.group) {
            give(free, release.run)?;
        }
    }
    Ok(())
}

/// Gives a run to the free sectors, none of which is free before.
fn give(free: &mut FreeSpace, run: Run) -> Result<(), AllocError>
    requires changes { CanEnter free.old.free (entry_of Kind.Freed run) }
    requires not_empty { 0 < run.len }
    ensures ok { OnOk result (IsEntered free.old.free free.new.free (entry_of Kind.Freed run)) }
    ensures ticks { OnOk result (IsRaised 8 free.old.ticks free.new.ticks) }
    ensures err { OnErr result (free.new ≡ free.old) }
{
    match free.change(Kind::Freed, run) {
        Ok(()) => Ok(()),
        Err(space_map::Refusal::NoMemory) => Err(AllocError),
        Err(space_map::Refusal::BadMap) => unreachable!(),
    }
}

/// Gives all that was released to the free sectors.
pub(crate) fn give_all(free: &mut FreeSet, released: &[Release]) -> Result<(), AllocError>
    requires { IsHeldBack free.old released.now }
    ensures { OnOk result (HasGained (λ group. true) released.now free.old free.new) }
{
    for release in released {
        change(free, Kind::Freed, release.run)?;
    }
    Ok(())
}

/// Allocates or frees a run, all of whose sectors are free or allocated before.
fn change(free: &mut FreeSet, kind: Kind, run: Run) -> Result<(), AllocError>
    requires changes { CanEnter free.old (entry_of kind run) }
    requires not_empty { 0 < run.len }
    ensures ok { OnOk result (IsEntered free.old free.new (entry_of kind run)) }
    ensures err { OnErr result (free.new ≡ free.old) }
{
    match free.change(kind, run) {
        Ok(()) => Ok(()),
        Err(space_map::Refusal::NoMemory) => Err(AllocError),
        Err(space_map::Refusal::BadMap) => unreachable!(),
    }
}

/// Drops what is due from what was released.
pub(crate) fn drop_due(released: &mut Vec<Release>, pins: &[u64], group: u64)
    ensures { released.new.items ≡ kept (is_due pins.now group) released.old.items }
{
    released.retain(|release| !is_due(pins, group, release.group));
}
