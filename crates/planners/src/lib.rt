//! Those who make the plans of a core: the thread that takes the step, or workers that share the parity.
#![tactic(auto)]

mod planner;

pub use planner::{Alone, Planner, Workers, step_of};
