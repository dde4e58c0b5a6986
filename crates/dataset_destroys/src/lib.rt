//! Datasets that a transaction group destroys: what becomes of the records and dead lists in their chains, and which blocks are freed.
#![tactic(auto)]

mod destroying;
mod head_places;
mod heads;
mod laws;
mod leaving;
mod links;
mod lists;
mod places;
mod records;
mod snapshots;
mod younger;

pub use block_store::Refusal;
pub use dataset_chains::{
    DatasetChanges, NewNumbers, RewrittenHead, clone, create, overwrite, snapshot,
};
pub use destroying::destroy;
pub use heads::destroy_head;
pub use laws::losses_of_destroys;
pub use snapshots::destroy_snapshot;
