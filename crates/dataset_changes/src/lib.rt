//! The records and dead lists of a pool's datasets, as a transaction group changes them.
#![tactic(auto)]

mod changes;
mod lists;
mod planning;
mod records;
mod results;
mod states;

pub use block_store::Refusal;
pub use changes::DatasetChanges;
pub use states::{ListState, RecordState};
