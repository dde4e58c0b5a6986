//! Tests of `scrub_resilver`: blocks are written, disks spoilt, and what is found of them and mended stands in tables of lines.
#![tactic(auto)]

#[cfg(test)]
mod cases;
#[cfg(test)]
mod lines;
#[cfg(test)]
mod pools;
#[cfg(test)]
mod rooms;
#[cfg(test)]
mod scrubs;
