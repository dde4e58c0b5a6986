//! The disks of a pool: which of them are out, which writes are due on them, and each device call as a function.
#![tactic(auto)]

mod absence;
mod behind;
mod device;
mod making;
mod reading;
mod rows;
mod set;
mod stale;

pub use behind::{Behind, SlotWrite};
pub use device::FailedDisk;
pub use set::DiskSet;
pub use stale::GroupSpan;
