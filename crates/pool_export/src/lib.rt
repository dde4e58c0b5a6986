//! The export of a pool: the labels of its disks say that it is put away.
#![tactic(auto)]

mod exporting;
mod label_reads;
mod label_writes;
mod reading;
mod refusal;
mod settling;
mod unread;

pub use exporting::export_labels;
pub use refusal::Refusal;
