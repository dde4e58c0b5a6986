//! What is known of a pool that was opened on files, beside its core.
use std::fs::File;
use uberblock_ring::Uberblock;

/// What is known of a pool that was opened on files, beside its core. No other command opens the files until it is dropped.
#[derive(Drop)]
pub struct PoolFront {
    /// What the pool goes on from.
    pub(crate) uberblock: Uberblock,
    pub(crate) name: String,
    /// Of each disk, whether it was out as the pool was opened.
    pub(crate) absent: Vec<bool>,
    pub(crate) locks: Vec<File>,
}
