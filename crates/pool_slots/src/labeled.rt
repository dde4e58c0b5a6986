//! What the labels of a disk show, and what a claim writes to them.

/// What one label shows.
#[derive(Clone, Copy)]
pub(crate) struct Shown {
    pub claim: u64,
    pub config_digest: [u8; 32],
}

/// What the four labels of a disk show.
#[derive(Clone, Copy)]
pub(crate) struct Labeled {
    /// The greatest claim that they show.
    pub claim: u64,
    /// The configuration of the label that is written anew: the wanted one if some label has it, else that of the lowest
    /// label which shows something.
    pub config_digest: [u8; 32],
    /// That label: the latest of those with this configuration.
    pub source: u64,
    /// The disk's claim label: the one that is written before any slot.
    pub first: u64,
}

/// A label with the wanted configuration, which disks take over whose own labels don't have it.
#[derive(Clone, Copy)]
pub(crate) struct Donor {
    pub disk: usize,
    pub label: u64,
}

/// Which labels of a disk are written: one, or all but one.
#[derive(Clone, Copy)]
pub(crate) enum Pick {
    One(u64),
    Others(u64),
}

/// The area that a claim writes to the four labels of a disk.
#[derive(Drop)]
pub(crate) struct Area {
    /// The disk's claim label.
    pub first: u64,
    pub bytes: Vec<u8>,
}
