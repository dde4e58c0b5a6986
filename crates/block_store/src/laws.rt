//! Laws of what a store holds, as functions with no body: what each ensures follows from the definitions alone.
ghost use Rattle.block_store.specs.Elsewhere.{BlocksLieInSectors, ReadsSpare, WritesElsewhereKeep};
ghost use Rattle.block_store.specs.Forgetting.{FewerAreHeld, FewerArePlanned};
ghost use Rattle.block_store.specs.Losses.{LossesAreNotTolerable};
ghost use Rattle.block_store.specs.Opened.{FoundAreHeld, FoundInUseAreStored};
ghost use Rattle.block_store.specs.Releases.{PlacesSpare};

use raidz_io::{few_are_not_more, reads_keep_contents, stands_while_kept, stands_with_more_absent};

/// What a store holds, it holds of fewer blocks.
pub fn fewer_are_held()
    ensures { FewerAreHeld }
{}

/// A plan may forget blocks of which nothing is due.
pub fn fewer_are_planned()
    ensures { FewerArePlanned }
{}

/// Blocks that are on the disks may be read before they are taken in.
pub fn found_are_held()
    ensures { FoundAreHeld }
{}

/// Blocks that are on the disks, in sectors that are in use, are stored.
pub fn found_in_use_are_stored()
    ensures { FoundInUseAreStored }
{}

/// The bytes of a block lie in those sectors of its vdev's disks that are for blocks.
pub fn blocks_lie_in_sectors()
    ensures { BlocksLieInSectors }
{}

/// As further blocks are placed, sectors that aren't free stay as they were.
pub fn places_spare()
    ensures { PlacesSpare }
{}

/// Reads spare all that stood.
pub fn reads_spare()
    ensures { ReadsSpare }
{
    reads_keep_contents();
    stands_while_kept();
}

/// What changes no byte of those sectors keeps what a store holds and plans.
pub fn writes_elsewhere_keep()
    ensures { WritesElsewhereKeep }
{
    stands_while_kept();
    stands_with_more_absent();
}

/// Where a block is lost, some vdev lacks more disks than it has parities.
pub fn losses_are_not_tolerable()
    ensures { LossesAreNotTolerable }
{
    few_are_not_more();
}
