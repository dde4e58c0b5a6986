//! The steps that the lines of a schedule ask for.
#![tactic(auto)]

mod steps;

pub use steps::{first_step, next_step};
