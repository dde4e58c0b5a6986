//! The labels of a disk: what it says of itself and of its pool, four times.
#![tactic(auto)]

mod area;
mod config;
mod decoding;
mod disks;
mod encoding;
mod label;
mod laws;
mod limits;
mod pairs;
mod place;
mod reading;
mod refusal;

pub use decoding::decode_area;
pub use disks::{read_label, write_label};
pub use encoding::encode_area;
pub use label::{Config, Label, State, Vdev};
pub use laws::{allowed_has_room, config_of_label_fits, relabeled_has_room, small_configs_fit};
pub use limits::{
    MAX_CHILD_SECTORS, MAX_SLAB_SHIFT, MAX_SLABS, MAX_VDEVS, MIN_CHILD_SECTORS, MIN_SLAB_SHIFT,
};
pub use place::{AREA_LEN, LABEL_LEN, LABELS, label_offset, labels_are_apart};
pub use refusal::{Breach, Refusal};
