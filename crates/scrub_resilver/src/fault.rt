//! What may be wrong with a column.

/// What is wrong with a column of a copy of a block.
#[derive(Clone, Copy, PartialEq, Eq, Debug)]
pub enum Fault {
    /// Its disk is missing, or a read of it failed.
    Unreadable,
    /// The disk gave other bytes than those of the block; or its bytes, where no copy of the block can be read.
    Wrong,
}

/// A column of a copy of a block that is not there as the block has it.
#[derive(Clone, Copy, PartialEq, Eq)]
pub struct Finding {
    /// The number of the vdev.
    pub vdev: u32,
    /// The vdev's sector, of 512 bytes, at which the copy begins.
    pub start: u64,
    /// How many sectors of data the block has.
    pub sectors: u32,
    /// The number of the column, those of parity first.
    pub column: usize,
    /// The number of the disk, over all vdevs.
    pub disk: usize,
    pub fault: Fault,
}
