//! What long work tells on standard error, where that is a terminal: how much has passed.
#![tactic(auto)]

mod disk;
mod meter;
mod reads;

pub use disk::MeteredDisk;
pub use meter::Metered;
pub use reads::{READ_INTERVAL, ReadMeter};
