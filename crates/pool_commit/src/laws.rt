//! Laws of every pool.
ghost use Rattle.pool_commit.specs.Accounted.{NoRoomIsLost};
ghost use Rattle.pool_commit.specs.Reopened.{LabelsOfOpenedLie};

/// No room is lost, and none is used twice: what the next plan may not hand out is in a block that the committed group leads to, or
/// was released by one of the last two groups or behind a pinned one; and no kept group leads to what it may hand out.
pub fn no_room_is_lost()
    ensures { NoRoomIsLost }
{}

/// Where a store may be opened, its disks have room for their labels, and no block lies on them.
pub fn labels_of_opened_lie()
    ensures { LabelsOfOpenedLie }
{}
