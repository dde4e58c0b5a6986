//! Tests of pools that are stopped at any device call of a commit, of an open or of an export, and opened again.
#![tactic(auto)]

#[cfg(test)]
mod cases;
#[cfg(test)]
mod history;
#[cfg(test)]
mod images;
#[cfg(test)]
mod judging;
#[cfg(test)]
mod lives;
#[cfg(test)]
mod openings;
#[cfg(test)]
mod pools;
#[cfg(test)]
mod recording;
#[cfg(test)]
mod reopening;
#[cfg(test)]
mod runs;
#[cfg(test)]
mod stages;
#[cfg(test)]
mod stopping;
