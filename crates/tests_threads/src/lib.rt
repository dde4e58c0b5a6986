//! Tests of pools that threads share, over the machine in memory, of workers, and of plans that they share.
#![tactic(auto)]

#[cfg(test)]
mod alone;
#[cfg(test)]
mod failing_disks;
#[cfg(test)]
mod gates;
#[cfg(test)]
mod in_threads;
#[cfg(test)]
mod made;
pub mod rounds;
#[cfg(test)]
mod shared_plans;
