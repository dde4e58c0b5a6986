//! Which pool the disks are: what their labels and slots show, and which uberblock, which configuration and which
//! disk for each child an open takes from it.
#![tactic(auto)]

mod choice;
mod choosing;
mod consistency;
mod members;
mod refusal;
mod scanned;
mod scanning;
mod sources;

pub use choice::Choice;
pub use choosing::choose;
pub use refusal::Refusal;
pub use scanned::{Reading, Scan, ScannedDisk, ScannedLabel};
pub use scanning::scan;
