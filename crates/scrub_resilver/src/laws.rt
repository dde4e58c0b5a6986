//! What holds of blocks that were looked at.
ghost use Rattle.scrub_resilver.specs.Findings.{ApartBlocksHaveOwnPlaces, ColumnsAreFoundOnce, FindingsAreOfTheDisks};
ghost use Rattle.scrub_resilver.specs.Laws.{ApartBlocksShareNoByte, BlocksLookedAtStand, CheckedBlocksStand};
ghost use Rattle.scrub_resilver.specs.Laws.{HonestChoicesAreOwn, MendsSpareBlocks, MendsSpareToldBlocks};

use raidz_io::{
    apart_extents_share_no_byte, few_are_not_more, honest_disks_give_truly,
    other_vdevs_share_no_byte, stands_while_kept,
};
use raidz_map::child_holds_one_column;

/// Blocks that were looked at stand, but on disks of which something was found.
pub fn checked_blocks_stand()
    ensures { CheckedBlocksStand }
{
    honest_disks_give_truly();
}

/// What is found of blocks is just what is wrong on their disks.
pub fn findings_are_of_the_disks()
    ensures { FindingsAreOfTheDisks }
{
    few_are_not_more();
}

/// No column is found twice, where no two copies begin at one place.
pub fn columns_are_found_once()
    ensures { ColumnsAreFoundOnce }
{}

/// No two copies of different blocks that lie apart begin at one place.
pub fn apart_blocks_have_own_places()
    ensures { ApartBlocksHaveOwnPlaces }
{}

/// Blocks that lie apart, in places of their size, share no byte of a disk.
pub fn apart_blocks_share_no_byte()
    ensures { ApartBlocksShareNoByte }
{
    apart_extents_share_no_byte();
    other_vdevs_share_no_byte();
}

/// Mending spoils no column that stood, where no write failed: of blocks that their digests tell, over disks that answer truly.
pub fn mends_spare_blocks()
    ensures { MendsSpareBlocks }
{
    stands_while_kept();
    child_holds_one_column();
}

/// Mending spoils no column that stood, where no write failed, whatever disks answer, if no other bytes that could be chosen of a block have its digest.
pub fn mends_spare_told_blocks()
    ensures { MendsSpareToldBlocks }
{
    child_holds_one_column();
}

/// Of blocks that their digests tell no other bytes could be chosen, over disks that answer truly.
pub fn honest_choices_are_own()
    ensures { HonestChoicesAreOwn }
{}

/// Of blocks of which no other bytes could be chosen, each column stands of which nothing was found, on disks that gave what stood there.
pub fn blocks_looked_at_stand()
    ensures { BlocksLookedAtStand }
{}
