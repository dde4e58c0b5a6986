//! Tests of the programs: schedules with their whole output, over the machine in memory, the core over
//! disks and pools that are opened again, and random ones on which the first two agree. Nothing here is proved but that it is safe.
#![tactic(auto)]

#[cfg(test)]
mod away;
#[cfg(test)]
mod programs_tests;
#[cfg(test)]
mod random_schedules;
#[cfg(test)]
mod rows;
#[cfg(test)]
mod stopped_pools;
#[cfg(test)]
mod telling;
