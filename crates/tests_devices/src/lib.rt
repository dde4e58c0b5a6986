//! Tests of volumes as devices, and of sessions of a network block device: nothing but tests.
#![tactic(auto)]

#[cfg(test)]
mod block_devices;
#[cfg(test)]
mod devices;
#[cfg(test)]
mod messages;
