//! Dead lists: the blocks that a dataset does not reach any more and the snapshot before it does, by the groups
//! that they were born in, and the rows that spell them. And the laws of datasets that keep such lists: what
//! snapshots, clones, overwrites and destroys free is what nothing reaches any more.
#![tactic(auto)]

mod laws;
mod list;
mod refusal;
mod rows;
mod splitting;

pub use laws::{
    freed_blocks_stay_freed, operations_free_what_nothing_reaches, reach_has_each_block_once,
    runs_free_what_nothing_reaches,
};
pub use list::DeadList;
pub use refusal::Refusal;
