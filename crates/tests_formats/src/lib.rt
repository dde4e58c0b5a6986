//! Tests of the formats on disk: nothing but tests.
#![tactic(auto)]

#[cfg(test)]
mod blocks;
#[cfg(test)]
mod bytes;
#[cfg(test)]
mod disks;
#[cfg(test)]
mod lists;
#[cfg(test)]
mod maps;
#[cfg(test)]
mod slots;
#[cfg(test)]
mod spelling;
