//! The labels of a new pool: disks that show no pool yet are given theirs.
#![tactic(auto)]

mod blank;
mod children;
mod labeling;
mod refusal;

pub use blank::are_blank;
pub use labeling::{PoolIdentity, write_labels};
pub use refusal::Refusal;
