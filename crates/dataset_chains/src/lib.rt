//! Datasets in chains: what a transaction group makes of their records and dead lists where a volume is made or overwritten, and where
//! a snapshot or a clone is taken.
#![tactic(auto)]

mod fitting;
mod heads;
mod laws;
mod records;
mod standing;
mod taking;

pub use block_store::Refusal;
pub use dataset_changes::DatasetChanges;
pub use heads::{RewrittenHead, create, group_before, overwrite};
pub use laws::{chains_stay, datasets_have_one_record};
pub use standing::{groups_begin_with_chains, groups_leave_chains};
pub use taking::{NewNumbers, clone, snapshot};
