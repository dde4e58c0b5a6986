//! Laws of the labels, which show the pool's configuration wherever a step, an open or an export is stopped: what each ensures follows from the
//! definitions alone.
ghost use Rattle.pool_stops.specs.Configured.{CreatedPoolsAreConfigured, ExportsStayConfigured};
ghost use Rattle.pool_stops.specs.Configured.{HeldLabelsAreLeft, HeldLabelsStayHeld};
ghost use Rattle.pool_stops.specs.Configured.{LeftDisksAreConfigured, OpenedPoolsAreConfigured};
ghost use Rattle.pool_stops.specs.Configured.{OpensStayConfigured, StepsStayConfigured};
ghost use Rattle.pool_stops.specs.OneConfig.{CreatedPoolsRunAs, OpenedPoolsRunAs, RunsStopAs};
ghost use Rattle.pool_stops.specs.OneConfig.{StoppedExportsShowConfig, StoppedOpensAreOfConfig};
ghost use Rattle.pool_stops.specs.OneConfig.{StoppedOpensShowConfig, StoppedRunsShowConfig};

use crate::laws::{created_pools_run, led_disks_open, running_pools_step_on};

/// Labels that are flushed show after a stop what they showed before.
pub fn held_labels_are_left()
    ensures { HeldLabelsAreLeft }
{}

/// All of them hold it on the disks that a stop leaves.
pub fn held_labels_stay_held()
    ensures { HeldLabelsStayHeld }
{}

/// What a stop leaves shows the configuration after another stop too.
pub fn left_disks_are_configured()
    ensures { LeftDisksAreConfigured }
{}

/// A step of a core writes no byte that a label is read of.
pub fn steps_stay_configured()
    ensures { StepsStayConfigured }
{}

/// A pool that was just made has its configuration in each label.
pub fn created_pools_are_configured()
    ensures { CreatedPoolsAreConfigured }
{}

/// Wherever an open is stopped.
pub fn opens_stay_configured()
    ensures { OpensStayConfigured }
{}

/// Once it is done, each label has it.
pub fn opened_pools_are_configured()
    ensures { OpenedPoolsAreConfigured }
{}

/// Wherever an export is stopped.
pub fn exports_stay_configured()
    ensures { ExportsStayConfigured }
{}

/// A pool of one configuration runs on as one, and all that its disks lead to has it, wherever a step is stopped.
pub fn runs_stop_as()
    ensures { RunsStopAs }
{
    running_pools_step_on();
    steps_stay_configured();
}

/// So what is left shows the configuration of whatever an open of it may come to.
pub fn stopped_runs_show_config()
    ensures { StoppedRunsShowConfig }
{}

/// A pool that was just made is of one.
pub fn created_pools_run_as()
    ensures { CreatedPoolsRunAs }
{
    created_pools_run();
}

/// So is one that was opened from disks that lead to one.
pub fn opened_pools_run_as()
    ensures { OpenedPoolsRunAs }
{
    led_disks_open();
}

/// And so are the disks wherever that is stopped.
pub fn stopped_opens_are_of_config()
    ensures { StoppedOpensAreOfConfig }
{}

/// What is left of it shows the configuration of whatever another open may come to.
pub fn stopped_opens_show_config()
    ensures { StoppedOpensShowConfig }
{}

/// And what is left of an export does.
pub fn stopped_exports_show_config()
    ensures { StoppedExportsShowConfig }
{}
