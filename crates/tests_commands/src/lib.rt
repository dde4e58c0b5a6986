//! Tests of the command lines of `zpool` and `zfs`, of their tables, of changes, and of `zpool scrub`: nothing but tests.
#![tactic(auto)]

#[cfg(test)]
mod changes;
#[cfg(test)]
mod command_lines;
#[cfg(test)]
mod help_texts;
#[cfg(test)]
mod scrubs;
#[cfg(test)]
mod tables;
#[cfg(test)]
mod telling;
