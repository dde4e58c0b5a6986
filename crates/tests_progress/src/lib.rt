//! What long work tells of what passes.
#![tactic(auto)]

#[cfg(test)]
mod disks;
#[cfg(test)]
mod streams;
