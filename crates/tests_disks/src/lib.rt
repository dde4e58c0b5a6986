//! Tests of the RAID and of the disks below the blocks: the field and its kernels, the layout and the
//! parity of a block, disks and arrays of them, disks in the order of a pool's children, and sets of disks.
//! The cases stand in tables, each a line of calls beside what comes of them.
#![tactic(auto)]

#[cfg(test)]
mod disk_sets;
#[cfg(test)]
mod disks;
#[cfg(test)]
mod fields;
#[cfg(test)]
mod layouts;
pub mod lines;
#[cfg(test)]
mod parities;
pub mod pattern;
pub mod spans;
