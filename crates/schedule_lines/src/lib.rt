//! The lines of a schedule and what they mean, and the texts of the replies. Nothing is run here.
#![tactic(auto)]

mod command;
mod disk_numbers;
mod equal_bytes;
mod keyword;
mod laws;
mod number;
mod reading;
mod refusal;
mod reply;
mod steps;
mod words;
mod writing;

pub use command::{
    CloneLine, Command, CreateLine, DestroyLine, Line, PoolLine, ReadLine, ReopenLine,
    SnapshotLine, StopPoint, UnderLine, WriteLine,
};
pub use disk_numbers::DiskNumbers;
pub use equal_bytes::{Run, runs, runs_text};
pub use laws::{bytes_have_one_list_of_runs, bytes_spell_one_line};
pub use reading::parse;
pub use refusal::Refusal;
pub use reply::{made_text, opened_text, reply_text};
pub use steps::command_of;
pub use writing::line_bytes;
