//! What an open takes from the disks.
use uberblock_ring::Uberblock;

/// Which pool the disks are, and which of them is which child.
#[derive(Drop)]
pub struct Choice {
    /// The greatest uberblock by claim and group.
    pub highest: Uberblock,
    /// The one that is taken: the greatest itself, or what was gone back to.
    pub taken: Uberblock,
    /// The label whose configuration is that of the uberblock that is taken, by its place among those
    /// that were read.
    pub source: usize,
    /// For each vdev, in order, and each of its children the number of the disk, as it was handed in; none
    /// where the child is absent.
    pub members: Vec<Vec<Option<usize>>>,
}
