//! Laws of opens of a pool's own disks.
ghost use Rattle.pool_stops.specs.Absent.{OwnPoolsOpenWithout, SomeUncalledDisksAreReturned};
ghost use Rattle.pool_stops.specs.Begun.{StoppedStepsLeadToOwnPools};
ghost use Rattle.pool_stops.specs.OwnReopening.{OwnPoolsOpenAgain, StoppedExportsLeadToOwnPools};
ghost use Rattle.pool_stops.specs.OwnReopening.{StoppedOpensLeadToOwnPools, StoppedRunsLeadToOwnPools};
ghost use Rattle.pool_stops.specs.OwnReopening.{ArraysComeBack, ShownImagesAreLeft};
ghost use Rattle.pool_stops.specs.OwnReopening.{UncalledDisksAreReturned, UnfoundDisksAreReturned};

use crate::configured::{opened_pools_run_as, stopped_opens_are_of_config};
use crate::finding::found_disks_may_be_opened;
use crate::laws::blocks_keep_what_is_filled;
use crate::running::{
    opened_pools_are_on_their_disks, runs_stay_on_their_disks, steps_stay_on_their_disks,
};
use crate::stopping::{
    own_disks_show_at_most_three_configurations, possible_configurations_are_shown,
    stopped_exports_leave_disks, stopped_opens_are_of_sum, stopped_opens_leave_disks,
    stopped_runs_leave_disks,
};
use crate::whole_pools::{
    fault_free_opens_succeed, stopped_exports_lead_whole, stopped_opens_lead_whole,
    stopped_runs_lead_whole,
};
use model_disk::Disk;
use model_disk::laws::held_bytes_are_known;
use pool_slots::stepwise::blocks_phase;

/// **An open of a pool's own disks, handed in in any order**, is refused for want of memory alone, where all answers are true, no call fails, it doesn't go
/// back, and groups and claims are left. One that is done gives a core of the pool of a possible group, or of one so many groups less, that runs on, and
/// tells the pool's name and guid. And wherever one is stopped, it leaves disks that open again; so do the disks that come back of it.
pub fn own_pools_open_again<D: Disk + Drop>()
    ensures { OwnPoolsOpenAgain D.Disk }
{
    fault_free_opens_succeed();
    opened_pools_run_as();
    opened_pools_are_on_their_disks();
    stopped_opens_lead_to_own_pools();
}

/// **An open of some of a pool's own disks**, where no vdev lacks more of them than it has parities, is refused for want of memory alone, where all answers
/// are true, no call fails, it doesn't go back, and groups and claims are left. One that is done gives a core of the pool of a possible group, or of one so
/// many groups less, with the disks that are away out. From there on `run` tells the rest.
pub fn own_pools_open_without<D: Disk + Drop>()
    ensures { OwnPoolsOpenWithout D.Disk }
{
    fault_free_opens_succeed();
    found_disks_may_be_opened::<D>();
}

/// Which disks may be handed in: those that weren't called yet, all or some of them, and those that come back as no pool was found on them.
pub fn disks_may_be_handed_in<D: Disk + Drop>()
    ensures uncalled { UncalledDisksAreReturned D.Disk }
    ensures some { SomeUncalledDisksAreReturned D.Disk }
    ensures unfound { UnfoundDisksAreReturned D.Disk }
{}

/// Disks may be handed on with no stop between: what they show is left by a stop that loses nothing; and those that come back of an array, each byte known
/// and nothing unflushed, may be handed in again.
pub fn disks_may_be_handed_on<D: Disk + Drop>()
    ensures shown { ShownImagesAreLeft }
    ensures back { ArraysComeBack D.Disk }
{
    held_bytes_are_known();
}

/// Wherever a run of a pool on its own disks is stopped, as long as no disk is out: it leaves disks that open again.
pub fn stopped_runs_lead_to_own_pools()
    ensures { StoppedRunsLeadToOwnPools }
{
    runs_stay_on_their_disks();
    stopped_runs_lead_whole();
    stopped_runs_leave_disks();
}

/// And what is left of one step leads to the last committed group alone, until a slot of the next group's uberblock is begun to be written.
pub fn stopped_steps_lead_to_own_pools()
    ensures { StoppedStepsLeadToOwnPools }
{
    blocks_phase();
    blocks_keep_what_is_filled();
    steps_stay_on_their_disks();
    stopped_runs_lead_whole();
    stopped_runs_leave_disks();
}

/// So it is wherever an open of such disks is stopped.
pub fn stopped_opens_lead_to_own_pools()
    ensures { StoppedOpensLeadToOwnPools }
{
    stopped_opens_lead_whole();
    stopped_opens_are_of_config();
    own_disks_show_at_most_three_configurations();
    possible_configurations_are_shown();
    stopped_opens_leave_disks();
    stopped_opens_are_of_sum();
}

/// And wherever an export of such a pool is stopped, and once it is done.
pub fn stopped_exports_lead_to_own_pools()
    ensures { StoppedExportsLeadToOwnPools }
{
    stopped_exports_lead_whole();
    stopped_exports_leave_disks();
}
