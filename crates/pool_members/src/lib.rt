//! The disks of a pool's children, put in order as the pool is opened, and what stands for those that are absent.
#![tactic(auto)]

mod arranging;
mod handed_in;
mod laws;
mod presence;
mod refusal;

pub use arranging::{Arranged, Child, arrange};
pub use handed_in::{HandedIn, Place};
pub use laws::called_disks_come_back;
pub use presence::{AllPresent, all_present};
pub use refusal::Refusal;
