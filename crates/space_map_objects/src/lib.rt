//! Space maps as objects of the meta object set: what each leaves free of its metaslab.
#![tactic(auto)]

mod kind;
mod making;
mod reading;
mod refusal;

pub use kind::SPACE_MAP_KIND;
pub use making::{creation, extension, replacement};
pub use reading::{read_free_set, read_map_end};
pub use refusal::Refusal;
