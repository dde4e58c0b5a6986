//! Laws of the disks that a stop leaves: they are the pool's own.
ghost use Rattle.pool_stops.specs.Stopping.{PossibleConfigurationsAreShown, OwnDisksShowAtMostThreeConfigurations};
ghost use Rattle.pool_stops.specs.Stopping.{StoppedExportsLeaveDisks, StoppedOpensAreOfSum};
ghost use Rattle.pool_stops.specs.Stopping.{StoppedOpensLeaveDisks, StoppedRunsLeaveDisks};

use crate::configured::{exports_stay_configured, opens_stay_configured};

/// Wherever a run is stopped.
pub fn stopped_runs_leave_disks()
    ensures { StoppedRunsLeaveDisks }
{}

/// A pool's own disks don't show four different configurations.
pub fn own_disks_show_at_most_three_configurations()
    ensures { OwnDisksShowAtMostThreeConfigurations }
{}

/// Disks that lead to whole pools are bound to show the configuration of whatever an open may come to.
pub fn possible_configurations_are_shown()
    ensures { PossibleConfigurationsAreShown }
{}

/// Wherever an open is stopped: it writes no label but those that the disks have, for another claim and group.
pub fn stopped_opens_leave_disks()
    ensures { StoppedOpensLeaveDisks }
{
    opens_stay_configured();
    own_disks_show_at_most_three_configurations();
    possible_configurations_are_shown();
}

/// And what is possible then has the sum of the guids.
pub fn stopped_opens_are_of_sum()
    ensures { StoppedOpensAreOfSum }
{}

/// Wherever an export is stopped, and once it is done.
pub fn stopped_exports_leave_disks()
    ensures { StoppedExportsLeaveDisks }
{
    exports_stay_configured();
}
