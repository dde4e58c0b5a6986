//! What follows from the definitions, as functions with no body.
ghost use Rattle.dataset_destroys.specs.Laws.{LossesOfDestroys};

/// Where a dataset is not destroyed for a fault of disks, a block is lost.
pub fn losses_of_destroys()
    ensures { LossesOfDestroys }
{}
