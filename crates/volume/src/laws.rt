//! What follows from the definitions, as functions with no body.
ghost use Rattle.volume.specs.Laws.{LossesOfVolumes, VolumesReadAsOne, VolumesStandOnTheirBlocks, VolumesStay};

/// A volume reads as it does whatever becomes of blocks that aren't its own.
pub fn volumes_stand_on_their_blocks()
    ensures { VolumesStandOnTheirBlocks }
{}

/// A volume reads as it does where more blocks are known, and for a later group.
pub fn volumes_stay()
    ensures { VolumesStay }
{}

/// A volume reads as one array, by the same blocks.
pub fn volumes_read_as_one()
    ensures { VolumesReadAsOne }
{}

/// Where a volume's read or writing is refused for a fault of disks, a block is lost.
pub fn losses_of_volumes()
    ensures { LossesOfVolumes }
{}
