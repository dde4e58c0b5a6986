//! What a transaction group makes of a pool's datasets: heads that are written to, volumes and clones that are made, and snapshots that are
//! taken, with the names that they stand under.
#![tactic(auto)]

mod actions;
mod cloning;
mod datasets;
mod destroying;
mod laws;
mod making;
mod new_volume;
mod taking;
mod writing;

pub use block_store::Refusal;
pub use dataset_destroys::losses_of_destroys;
pub use datasets::{FIRST_OBJECT, GroupDatasets, NumberBounds};
pub use laws::groups_before_are_older;
pub use volume::BlockWrite;
pub use writing::WrittenHead;
