//! A volume of an opened pool as a block device: its reads see all that was written, and what was flushed is committed.
#![tactic(auto)]

mod commit;
mod device;
mod laws;

pub use device::Device;
pub use laws::{names_still_ascend, nothing_is_overwritten, parts_are_one};
