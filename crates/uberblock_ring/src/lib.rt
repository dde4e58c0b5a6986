//! The ring of uberblock slots in a label, after the ZFS On-Disk Specification (2006), chapter 1, in
//! this project's profile: a slot also has a claim and the digest of the configuration, and ends in a
//! seal.
#![tactic(auto)]

mod disks;
mod ranking;
mod refusal;
mod slot;
mod uberblock;

pub use disks::{DISK_SLOTS, read_slots, write_slot};
pub use ranking::{best, highest, rewound};
pub use refusal::Refusal;
pub use slot::{SLOT_LEN, decode_slot, encode_slot, slot_of, slot_offset};
pub use uberblock::Uberblock;
