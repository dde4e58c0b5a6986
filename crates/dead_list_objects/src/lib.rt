//! Dead lists as objects of the meta object set.
#![tactic(auto)]

mod kind;
mod making;
mod reading;
mod refusal;

pub use kind::DEAD_LIST_KIND;
pub use making::{creation, extension, replacement};
pub use reading::{read_dead_list, read_dead_list_end};
pub use refusal::Refusal;
