//! Command lines over pools in memory, as a user gives them; and commands that are stopped, or meet a fault, at any device call.
#![tactic(auto)]

#[cfg(test)]
mod disks;
#[cfg(test)]
mod lines;
#[cfg(test)]
mod pools;
#[cfg(test)]
mod refusal;
#[cfg(test)]
mod sessions;
#[cfg(test)]
mod shelf;
#[cfg(test)]
mod stops;
#[cfg(test)]
mod telling;
