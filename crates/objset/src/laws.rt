//! What follows from the definitions, as functions with no body.
ghost use Rattle.objset.specs.Laws.{ObjectsAreOne, ObjectsStandOnTheirBlocks, ReplacedOfSetsAreFreed};

/// Objects stay what they are whatever becomes of other blocks.
pub fn objects_stand_on_their_blocks()
    ensures { ObjectsStandOnTheirBlocks }
{}

/// The blocks that `change` names as replaced are those that the set before has and the set after hasn't: of a set that has
/// each block once, as an empty one, and so has the set that `change` makes of it.
pub fn replaced_blocks_of_sets_are_freed()
    ensures { ReplacedOfSetsAreFreed }
{}

/// A set has one object at each number, with one list of blocks.
pub fn objects_are_one()
    ensures { ObjectsAreOne }
{}
