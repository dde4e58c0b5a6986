//! The uberblock slots of a pool's disks: commits, claims, and what a stop at any moment leaves.
#![tactic(auto)]

mod areas;
mod calls;
mod claiming;
mod found;
mod going_back;
mod label_choice;
mod label_scan;
mod label_writes;
mod labeled;
mod opening;
mod present;
mod refusal;
mod scan;
pub mod stepwise;
mod surveyed;
mod surveying;
mod writes;

pub use opening::claim;
pub use present::survey_present;
pub use refusal::{DiskFailure, Refusal};
pub use surveyed::Survey;
pub use surveying::survey;
