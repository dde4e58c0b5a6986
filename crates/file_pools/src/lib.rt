//! Pools whose disks are files, for the commands.
#![tactic(auto)]

mod asking;
mod explaining;
mod guids;
mod holding;
mod pool;
mod pools;
mod refusal;
mod rows;
mod telling;

pub use pool::PoolFront;
pub use pools::{FileCore, FilePools};
pub use refusal::Refusal;
