//! Tests of blocks: on an array of disks, and by pointer. The cases stand in tables, each a line of calls
//! beside what comes of them.
#![tactic(auto)]

#[cfg(test)]
mod block_cases;
#[cfg(test)]
mod blocks;
#[cfg(test)]
mod extents;
