//! Pools that are scrubbed: all blocks of the last group are looked at, and those columns written anew that are unreadable or wrong.
#![tactic(auto)]

mod counting;
mod healing;
mod scrubbing;
mod walking;

pub use healing::Healed;
pub use pool_open::Refusal;
pub use scrubbing::{ScrubCounts, Scrubbed, clean_scrubs_go_on_whole, scrub, scrubs_go_on};
