//! What the blocks of a pool have on their disks: which of their columns are unreadable or wrong, and those written anew.
#![tactic(auto)]

mod blocks;
mod checking;
mod copies;
mod fault;
mod laws;
mod looking;
mod mending;
mod refusal;
mod right;
mod spread;

pub use blocks::check;
pub use fault::{Fault, Finding};
pub use laws::{
    apart_blocks_have_own_places, apart_blocks_share_no_byte, blocks_looked_at_stand,
    checked_blocks_stand, columns_are_found_once, findings_are_of_the_disks,
    honest_choices_are_own, mends_spare_blocks, mends_spare_told_blocks,
};
pub use mending::mend;
pub use refusal::Refusal;
