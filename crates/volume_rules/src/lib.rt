//! The pool after all accepted groups: an index of its names, why a step is refused by it, how the machine's steps move
//! it, and its bytes as pending writes over committed ones. Nothing here knows of disks.
#![tactic(auto)]

mod causes;
mod covered;
mod index;
mod laws;
mod overlay;
mod parting;
mod pieces;
mod shape;

pub use causes::{
    Dependents, against_change, against_read, against_write, is_good_change, is_good_name,
    is_good_shape, makes_good_volumes,
};
pub use covered::is_covered;
pub use index::{NameChange, NameIndex, NewName, is_part_of_volume};
pub use laws::{
    changes_move_now, changes_take_effect, changes_that_are_not_refused_are_good,
    creation_groups_tell_what_is_committed, groups_stay_below, indexes_follow_now, steps_move_now,
};
pub use overlay::{base_name, lay_over, read_pending};
pub use parting::{PartedActions, part, parted_groups_come_to_the_same};
pub use pieces::{covers_any, lay_pending};
pub use shape::{NamedShape, VolumeEntry, VolumeShape};
