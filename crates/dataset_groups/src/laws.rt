//! What follows from the definitions, as functions with no body.
ghost use Rattle.dataset_groups.specs.Laws.{GroupsBeforeAreOlder};

/// The snapshot before a dataset was taken by the group that the datasets stand in, or an earlier one: so in the next group each head may be
/// written to.
pub fn groups_before_are_older()
    ensures { GroupsBeforeAreOlder }
{}
