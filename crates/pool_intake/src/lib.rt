//! What a pool accepts: the front half of its core, which knows nothing of disks. It has the groups in flow and the names
//! of NOW, and takes the steps of writers and of groups up to the one that is to be synced.
#![tactic(auto)]

mod intake;
mod laws;

pub use intake::Intake;
pub use laws::{now_is_committed, views_are_followed_by_their_groups};
