//! What is found on a disk.

use uberblock_ring::Uberblock;

/// The highest uberblock of a disk that shows one.
#[derive(Clone, Copy)]
pub(crate) struct Found {
    pub uberblock: Uberblock,
    /// The half of the labels in which it was not read: 0 for labels 0 and 2, 1 for labels 1 and 3.
    pub other_half: u64,
}
