//! The blocks that trees are made of, after the ZFS On-Disk Specification (2006), chapter 3, in this
//! project's profile: dnodes of 512 bytes with one pointer and no bonus, indirect blocks of 128
//! pointers, and object sets of 1,024 bytes.
#![tactic(auto)]

mod dnode;
mod indirect;
mod levels;
mod node;
mod object_set;
mod refusal;

pub use dnode::Dnode;
pub use indirect::{INDIRECT_LEN, Indirect, POINTERS};
pub use levels::levels_of;
pub use node::ObjectNode;
pub use object_set::{ObjectSet, ObjectSetKind};
pub use refusal::Refusal;
