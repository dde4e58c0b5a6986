//! The command lines of `zpool` and `zfs`: what their words ask for, and the tables that they print. Nothing is run here.
#![tactic(auto)]

mod arguments;
mod command;
mod files;
mod laws;
mod listing;
mod reading;
mod refusal;
mod scrubbing;
mod status;
mod values;
mod zfs_words;
mod zpool_words;

pub use command::{Command, NewPool, NewVdev, ZfsCommand, ZpoolCommand};
pub use files::Files;
pub use laws::{lines_are_read, names_are_read_as_they_stand};
pub use listing::{VolumeRow, list_text};
pub use reading::parse;
pub use refusal::Refusal;
pub use scrubbing::{ScrubReport, scrub_text};
pub use status::{DiskState, DiskStatus, PoolStatus, VdevStatus, status_text};
