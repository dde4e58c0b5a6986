//! A volume's data as an object set on disk: what it reads as, the blocks that a group's writes change, and the object set
//! after them.
#![tactic(auto)]

mod covered;
mod creating;
mod laws;
mod many;
mod opening;
mod placing;
mod reading;
mod volume;
mod walking;
mod writing;

pub use block_store::Refusal;
pub use dnode_tree::BlockWrite;
pub use laws::{losses_of_volumes, volumes_stand_on_their_blocks, volumes_stay};
pub use placing::Rewritten;
pub use volume::VolumeSet;
pub use writing::GroupWrites;
