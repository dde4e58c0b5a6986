//! Tests of what stands below the disks: names and bytes, the rules of volumes, the groups of the pipeline, the intake of a
//! pool, and the machine in memory. The cases stand in tables, each a line of calls beside what comes of them.
#![tactic(auto)]

#[cfg(test)]
mod groups;
#[cfg(test)]
mod items;
#[cfg(test)]
mod lines;
#[cfg(test)]
mod volumes;
#[cfg(test)]
mod words;
