//! The command lines of `zpool` and `zfs`, run against pools: a line opens (and so claims) the pool on its files, takes its
//! steps, commits, and prints.
#![tactic(auto)]

mod changing;
mod explaining;
mod input;
mod performing;
mod pools;
mod pouring;
mod running;
mod scrubbing;
mod serving;
mod sizes;
mod status;
mod stop;
mod streaming;
mod telling;

pub use pools::Pools;
pub use running::command;
pub use status::ExitStatus;
pub use stop::Stop;
