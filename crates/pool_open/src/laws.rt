//! Laws of what is on the disks of a pool that is opened: what each ensures follows from the definitions alone.
ghost use Rattle.pool_open.specs.Claims.{ClaimsSpareBlocks};
ghost use Rattle.pool_open.specs.ExportStops.{ExportsMayBeReopened};
ghost use Rattle.pool_open.specs.Held.{AlikeStoresHoldAlike, ClaimsKeepWhatIsHeld};
ghost use Rattle.pool_open.specs.Retried.{UndiminishedOpensClaimOnce, UnfailingOpensClaimOnce};
ghost use Rattle.pool_open.specs.Stops.{StoppedCanBeOpened};

use block_store::writes_elsewhere_keep;

/// A claim changes no byte that is for blocks.
pub fn claims_spare_blocks()
    ensures { ClaimsSpareBlocks }
{}

/// What may be read of the disks doesn't depend on the store that they are opened with, but by its vdevs and the disks that are out.
pub fn alike_stores_hold_alike()
    ensures { AlikeStoresHoldAlike }
{}

/// What was read of the disks before a claim may be read of them behind it.
pub fn claims_keep_what_is_held()
    ensures { ClaimsKeepWhatIsHeld }
{
    writes_elsewhere_keep();
}

/// Where the disks that a stop leaves lead to possible uberblocks, they may be opened.
pub fn stopped_can_be_opened()
    ensures { StoppedCanBeOpened }
{}

/// Wherever an export is stopped, and once it is done: what that leaves may be opened, and comes to what the disks led to before.
pub fn exports_may_be_reopened()
    ensures { ExportsMayBeReopened }
{}

/// Where no call failed, or at the end all disks are in use that were, no claim failed: the open is its first attempt.
pub fn unfailing_opens_claim_once()
    ensures opened { UndiminishedOpensClaimOnce }
    ensures refused { UnfailingOpensClaimOnce }
{}
