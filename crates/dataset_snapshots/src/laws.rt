//! What follows from the definitions, as functions that do nothing.
ghost use Rattle.dataset_snapshots.specs.Laws.{GoodChangesMayBeMade, LossesByRows, LossesOfDatasets, LossesOfFirstGroups, LossesOfGroups, LossesOfRanges, ReachesLieApart, ReachIsKnown, ReadsNeedNoRoom, ReplacedOfGroupsLeave, RootsSpellOnePool, RootsStandOnTheirReach, RootsStay};

use dataset_groups::losses_of_destroys;

/// A root spells its pool where more blocks are known, and for a later group.
pub fn roots_stay()
    ensures { RootsStay }
{}

/// A root spells its pool, by the same rows, and leads to the same blocks, whatever becomes of blocks that it doesn't lead to.
pub fn roots_stand_on_their_reach()
    ensures { RootsStandOnTheirReach }
{}

/// Each block that a root leads to is known and was born no later than the root, and it leads to the same blocks, and spells its pool by the same rows, where
/// more is known.
pub fn reach_is_known()
    ensures { ReachIsKnown }
{}

/// A root spells one pool, by one list of rows, and leads to one list of blocks.
pub fn roots_spell_one_pool()
    ensures { RootsSpellOnePool }
{}

/// Where a name is not found for a fault of disks, a block is lost.
pub fn losses_of_datasets()
    ensures { LossesOfDatasets }
{}

/// Where the root after a group is refused for a fault of disks, a block is lost.
pub fn losses_of_groups()
    ensures { LossesOfGroups }
{
    losses_of_destroys();
}

/// Where the first root is refused for a fault of disks, a block is lost.
pub fn losses_of_first_groups()
    ensures { LossesOfFirstGroups }
{}

/// Where a range of a volume is refused for a fault of disks, a block is lost.
pub fn losses_of_ranges()
    ensures { LossesOfRanges }
{}

/// Where the directory under a root is not read for a fault of disks, or by the rows of a directory a name is not found or a range of
/// a volume is refused, a block is lost.
pub fn losses_by_rows()
    ensures { LossesByRows }
{}

/// No read under a root is refused for lack of room.
pub fn reads_need_no_room()
    ensures { ReadsNeedNoRoom }
{}

/// Where each action of a group makes something that may be made so, all of them may be made.
pub fn good_changes_may_be_made()
    ensures { GoodChangesMayBeMade }
{}

/// Of the blocks that a stored root leads to no two copies share a sector.
pub fn reaches_lie_apart()
    ensures { ReachesLieApart }
{}

/// Where a stored root leads to no block twice, the blocks that a group replaced are those that the root before leads to and the
/// root after doesn't.
pub fn replaced_of_groups_leave()
    ensures { ReplacedOfGroupsLeave }
{}
