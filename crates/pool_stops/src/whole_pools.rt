//! Laws of what a stop leaves, and of opens of it: it leads to whole pools, and an open that nothing hinders isn't refused.
ghost use Rattle.pool_stops.specs.Unhindered.{FaultFreeOpensSucceed};
ghost use Rattle.pool_stops.specs.WholePools.{StoppedExportsLeadWhole, StoppedExportsReopen};
ghost use Rattle.pool_stops.specs.WholePools.{StoppedOpensLeadWhole, StoppedOpensReopen};
ghost use Rattle.pool_stops.specs.WholePools.{StoppedRunsLeadWhole, StoppedRunsReopen};

use crate::configured::{
    runs_stop_as, stopped_exports_show_config, stopped_opens_show_config, stopped_runs_show_config,
};
use block_store::losses_are_not_tolerable;
use pool_slots::stepwise::blocks_phase;

/// An open that doesn't go back, with all disks there, of which no call fails, and with groups and claims left, is refused for want of memory alone.
pub fn fault_free_opens_succeed()
    ensures { FaultFreeOpensSucceed }
{
    losses_are_not_tolerable();
}

/// Wherever a step is stopped, the disks lead to whole pools.
pub fn stopped_runs_lead_whole()
    ensures { StoppedRunsLeadWhole }
{
    stopped_runs_show_config();
}

/// So it is wherever an open of them is stopped.
pub fn stopped_opens_lead_whole()
    ensures { StoppedOpensLeadWhole }
{
    stopped_opens_show_config();
}

/// And wherever an export is stopped, and once it is done.
pub fn stopped_exports_lead_whole()
    ensures { StoppedExportsLeadWhole }
{
    blocks_phase();
    stopped_exports_show_config();
}

/// **A pool is opened again wherever a run of it was stopped**, as long as no disk is out: an open of what is left that nothing hinders is refused for
/// want of memory alone. What it gives, `runs_outlive_stops` says.
pub fn stopped_runs_reopen()
    ensures { StoppedRunsReopen }
{
    runs_stop_as();
    stopped_runs_lead_whole();
    fault_free_opens_succeed();
}

/// So it is wherever an open of such disks was stopped.
pub fn stopped_opens_reopen()
    ensures { StoppedOpensReopen }
{
    stopped_opens_lead_whole();
    fault_free_opens_succeed();
}

/// And wherever an export was, and once it is done.
pub fn stopped_exports_reopen()
    ensures { StoppedExportsReopen }
{
    stopped_exports_lead_whole();
    fault_free_opens_succeed();
}
