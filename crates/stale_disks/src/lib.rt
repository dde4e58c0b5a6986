//! Of which transaction groups each disk of a pool lacks blocks: how the pool's table of stale spans goes on.
#![tactic(auto)]

mod away;
mod disks;
mod groups;
mod opened;

pub use away::{spans_after, spans_without};
pub use disks::disk_guids;
pub use groups::stale_groups;
pub use opened::spans_opened;
