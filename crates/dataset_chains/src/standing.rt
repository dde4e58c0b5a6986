//! Datasets before and after a group's changes.
ghost use Rattle.dataset_chains.specs.Standing.{GroupsBeginWithChains, GroupsLeaveChains};

/// The datasets that a meta object set has are those that a group begins with.
pub fn groups_begin_with_chains()
    ensures { GroupsBeginWithChains }
{}

/// Those that a group leaves are those that the set has once its objects are changed as `DatasetChanges::into_changes` says.
pub fn groups_leave_chains()
    ensures { GroupsLeaveChains }
{}
