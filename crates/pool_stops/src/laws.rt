//! Laws of the bytes that are filled, and of where the disks stand with them: what each ensures follows from the definitions alone.
ghost use Rattle.pool_stops.specs.Created.{CreatedPoolsRun};
ghost use Rattle.pool_stops.specs.Filled.{StoredBlocksAreInUse, FilledBytesAreForBlocks, FreePlacesAreUnfilled};
ghost use Rattle.pool_stops.specs.Phases.{BackedPlansAreGood, PhasesEnd, PhasesGoOn, PlansKeepThePhase, ReadsKeepThePhase};
ghost use Rattle.pool_stops.specs.Reopening.{LedDisksOpen, RunsOutliveStops, StoppedOpensLead};
ghost use Rattle.pool_stops.specs.Reopening.{StoppedExportsLead, StoppedStepsLead};
ghost use Rattle.pool_stops.specs.Running.{RunningPoolsStepOn, RunsStopWell};
ghost use Rattle.pool_stops.specs.Standing.{BlocksKeepWhatIsFilled, CommitsEndFilled, DueWritesAreUnfilled};
ghost use Rattle.pool_stops.specs.Standing.{FilledTreesHoldBlocks, SlotsBeginBehindBlocks, SlotsKeepWhatIsForBlocks};

use pool_slots::stepwise::{blocks_phase, reads_and_flushes_keep, slots_phase};

/// Each byte of a block whose sectors are taken is filled.
pub fn stored_blocks_are_in_use()
    ensures { StoredBlocksAreInUse }
{}

/// No byte of a place whose sectors are free is filled, so that a plan which writes there changes none that is.
pub fn free_places_are_unfilled()
    ensures { FreePlacesAreUnfilled }
{}

/// Each byte that is filled lies in the sectors for blocks, and so beside labels.
pub fn filled_bytes_are_for_blocks()
    ensures { FilledBytesAreForBlocks }
{}

/// Where all that is filled stands on disks that aren't away, each stored block may be read of them.
pub fn filled_trees_hold_blocks()
    ensures { FilledTreesHoldBlocks }
{}

/// A plan whose blocks lie in places that are free without it writes beside all that is filled.
pub fn due_writes_are_unfilled()
    ensures { DueWritesAreUnfilled }
{}

/// While blocks are written, and between commits.
pub fn blocks_keep_what_is_filled()
    ensures { BlocksKeepWhatIsFilled }
{
    blocks_phase();
}

/// Behind the flush of the blocks.
pub fn slots_begin_behind_blocks()
    ensures { SlotsBeginBehindBlocks }
{
    blocks_phase();
    slots_phase();
}

/// While slots are written and flushed.
pub fn slots_keep_what_is_for_blocks()
    ensures { SlotsKeepWhatIsForBlocks }
{
    slots_phase();
}

/// As the group is committed.
pub fn commits_end_filled()
    ensures { CommitsEndFilled }
{
    blocks_phase();
    slots_phase();
}

/// Of a state that backs a view.
pub fn backed_plans_are_good()
    ensures { BackedPlansAreGood }
{}

/// With the device calls of a plan, as long as no disk goes out.
pub fn phases_go_on()
    ensures { PhasesGoOn }
{
    blocks_keep_what_is_filled();
    slots_begin_behind_blocks();
    slots_keep_what_is_for_blocks();
    reads_and_flushes_keep();
}

/// As the pool is read.
pub fn reads_keep_the_phase()
    ensures { ReadsKeepThePhase }
{
    blocks_keep_what_is_filled();
    slots_keep_what_is_for_blocks();
    reads_and_flushes_keep();
}

/// As a group is planned, or refused.
pub fn plans_keep_the_phase()
    ensures { PlansKeepThePhase }
{
    blocks_keep_what_is_filled();
}

/// With the last device calls of a plan.
pub fn phases_end()
    ensures { PhasesEnd }
{
    slots_keep_what_is_for_blocks();
    commits_end_filled();
}

/// A pool that runs, with no disk out, runs on with each step in which none goes out. Stopped at any moment of it the disks lead to the last
/// committed group, or from its slots on to that or the planned one.
pub fn running_pools_step_on()
    ensures { RunningPoolsStepOn }
{
    blocks_phase();
    blocks_keep_what_is_filled();
    slots_begin_behind_blocks();
    phases_go_on();
    reads_keep_the_phase();
    plans_keep_the_phase();
    phases_end();
    reads_and_flushes_keep();
}

/// So it is of each step of a whole run, where no disk is out by the end of that step.
pub fn runs_stop_well()
    ensures { RunsStopWell }
{
    running_pools_step_on();
}

/// Wherever a step is stopped, what is left may be opened, and leads to the pool of the last committed group, or of the one that was begun.
pub fn stopped_steps_lead()
    ensures { StoppedStepsLead }
{}

/// So it is wherever an open is stopped.
pub fn stopped_opens_lead()
    ensures { StoppedOpensLead }
{}

/// An open that is done gives a core of one of these pools, which runs on.
pub fn led_disks_open()
    ensures { LedDisksOpen }
{
    blocks_phase();
}

/// **A pool outlives a stop at any moment of a run**, inside a step and inside a device call too, as long as no disk is out: its disks, opened anew,
/// give a core of the last committed group, or of the one whose slots were begun, and it runs on.
pub fn runs_outlive_stops()
    ensures { RunsOutliveStops }
{
    runs_stop_well();
    led_disks_open();
}

/// A pool that was just made runs behind its first uberblock.
pub fn created_pools_run()
    ensures { CreatedPoolsRun }
{
    blocks_phase();
}

/// Wherever an export is stopped, and once it is done.
pub fn stopped_exports_lead()
    ensures { StoppedExportsLead }
{
    blocks_phase();
}
