//! The steps that a command takes of an opened pool: a change under a hold, whose group is then committed, or that commit alone.
#![tactic(auto)]

mod changing;
mod committing;
mod laws;
mod written;

pub use changing::change;
pub use committing::commit;
pub use laws::opened_pools_are_at_rest;
pub use written::written_len;
