//! Laws of pools that run on their own disks: what each ensures follows from the definitions alone.
ghost use Rattle.pool_stops.specs.OwnRunning.{CreatedPoolsAreOnTheirDisks, OpenedPoolsAreOnTheirDisks};
ghost use Rattle.pool_stops.specs.OwnRunning.{RunsStayOnTheirDisks, StepsStayOnTheirDisks};
ghost use Rattle.pool_stops.specs.Running.{NoneWasOut};

use crate::configured::steps_stay_configured;
use crate::laws::running_pools_step_on;

/// A pool that was just made.
pub fn created_pools_are_on_their_disks()
    ensures { CreatedPoolsAreOnTheirDisks }
{}

/// A pool that runs, as long as no disk is out: no step writes a label.
pub fn runs_stay_on_their_disks()
    ensures { RunsStayOnTheirDisks }
{
    running_pools_step_on();
    steps_stay_configured();
}

/// So it is of each step by itself, with the committed group's uberblock before it.
pub fn steps_stay_on_their_disks()
    ensures { StepsStayOnTheirDisks }
{
    running_pools_step_on();
    steps_stay_configured();
}

/// A disk that is out stays out: where none is at the end of a run, none was before.
pub fn none_was_out()
    ensures { NoneWasOut }
{}

/// A pool that was opened.
pub fn opened_pools_are_on_their_disks()
    ensures { OpenedPoolsAreOnTheirDisks }
{}
