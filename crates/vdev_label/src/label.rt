//! A label as a value.

/// What a disk says of itself and of its pool.
#[derive(Drop)]
pub struct Label {
    /// How many times the pool was opened: from 1 to 2^62.
    pub claim: u64,
    /// The number of the disk.
    pub guid: u64,
    /// The name of the pool: 1 to 27 bytes of `a-z 0-9 . _ -`, the first a letter.
    pub name: String,
    pub pool_guid: u64,
    pub state: State,
    /// The number of the disk's vdev.
    pub top_guid: u64,
    /// The transaction group that the label was written for: from 1 to 2^62.
    pub group: u64,
    pub config: Config,
}

/// What its last user did with the pool.
#[derive(Clone, Copy, PartialEq, Eq)]
pub enum State {
    Active,
    Exported,
}

/// The vdevs of a pool, in the order of their numbers.
#[derive(Drop)]
pub struct Config {
    pub vdevs: Vec<Vdev>,
}

/// The size of a sector, as a power of two: 512 bytes.
pub(crate) const SECTOR_SHIFT: u64 = 9;

/// A RAID-Z vdev with sectors of 512 bytes. What its values are is not judged here.
#[derive(Drop)]
pub struct Vdev {
    pub guid: u64,
    /// How many columns of each extent are parity.
    pub parity: u64,
    /// How many sectors of each child it uses.
    pub child_sectors: u64,
    /// A metaslab has 2 to the power of this many sectors.
    pub slab_shift: u64,
    /// How many of its last metaslabs are the meta region.
    pub meta_slabs: u64,
    /// The numbers of its disks, in order.
    pub children: Vec<u64>,
}
