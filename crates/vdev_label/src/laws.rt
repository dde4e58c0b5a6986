//! Laws: which labels have room.
ghost use Rattle.vdev_label.specs.Room.{RelabeledHasRoom, ConfigOfLabelFits, AllowedHasRoom, SmallConfigsFit};

/// A law: where a label has room in its area, so has the same label with another claim, group or
/// state.
#[tactic(auto, using(crate::proofs::Rooms::relabeled_has_room))]
pub fn relabeled_has_room()
    ensures { RelabeledHasRoom }
{}

/// A law: the configuration of a label that has room has an encoding.
#[tactic(auto, using(crate::proofs::Rooms::config_of_label_fits))]
pub fn config_of_label_fits()
    ensures { ConfigOfLabelFits }
{}

/// A law: the label of every configuration within the limits has room in its area.
pub fn allowed_has_room()
    ensures { AllowedHasRoom }
{}

/// A law: eight vdevs or fewer, of numbers of 64 bits and at most 65,536 disks each, have an
/// encoding, of less than 64 TiB.
pub fn small_configs_fit()
    ensures { SmallConfigsFit }
{}
