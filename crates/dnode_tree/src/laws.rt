//! Laws of trees, as functions with no body: what each ensures follows from the definitions alone.
ghost use Rattle.dnode_tree.specs.Freeing.{ReplacedAreFreed};
ghost use Rattle.dnode_tree.specs.Laws.{TreesStandOnTheirBlocks, BlocksOfTreesAreKnown, HolesAreTrees, BirthsStandOnTheirBlocks, BirthsAreWithin, TreesReadAsOne};

/// A tree keeps its array and its blocks whatever becomes of other blocks.
pub fn trees_stand_on_their_blocks()
    ensures { TreesStandOnTheirBlocks }
{}

/// The blocks of a tree are known.
pub fn blocks_of_trees_are_known()
    ensures { BlocksOfTreesAreKnown }
{}

/// An object of holes is a tree.
pub fn holes_are_trees()
    ensures { HolesAreTrees }
{}

/// The blocks that `put_many` names as replaced are those that `free_blocks` finds: of an object that has each block once,
/// as one of holes, and so has the object that `put_many` makes of it.
pub fn replaced_blocks_are_freed()
    ensures { ReplacedAreFreed }
{}

/// The blocks of a tree keep their births whatever becomes of other blocks.
pub fn births_stand_on_their_blocks()
    ensures { BirthsStandOnTheirBlocks }
{}

/// A data block is as old as its tree, or older.
pub fn births_are_within()
    ensures { BirthsAreWithin }
{}

/// A tree reads as one array, and has one list of blocks.
pub fn trees_read_as_one()
    ensures { TreesReadAsOne }
{}
