//! Tests of free space, of what is to be freed, and of the space maps that groups write: nothing but tests. The cases stand in
//! tables, each a line of calls beside what comes of them.
#![tactic(auto)]

#[cfg(test)]
mod dead_lists;
#[cfg(test)]
mod free_sets;
#[cfg(test)]
mod lines;
#[cfg(test)]
mod metaslab_groups;
#[cfg(test)]
mod metaslabs;
#[cfg(test)]
mod random_groups;
#[cfg(test)]
mod stores;
#[cfg(test)]
mod walked;
