//! Tests of the pool: schedules with their replies, over disks in memory that fail as they are told and files that are changed
//! behind the pool's back, and what only code can say. Nothing here is proved but that it is safe.
#![tactic(auto)]

#[cfg(test)]
mod changed_disks;
#[cfg(test)]
mod counted_reads;
#[cfg(test)]
mod known;
#[cfg(test)]
mod making;
#[cfg(test)]
mod many_blocks;
#[cfg(test)]
mod overwritten;
#[cfg(test)]
mod plans;
#[cfg(test)]
mod playing;
#[cfg(test)]
mod runs;
#[cfg(test)]
mod schedules;
#[cfg(test)]
mod test_disk;
