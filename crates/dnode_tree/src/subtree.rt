//! Parts of a tree.

use block_pointer::BlockPtr;
use dnode::Indirect;

/// A part of a tree by its root.
#[derive(Clone, Copy)]
pub(crate) struct Subtree {
    /// How far the root stands above the data: at 0 it is a data block.
    pub level: u8,
    pub pointer: BlockPtr,
    /// The root was born in this transaction group or before: that of the block that points to it.
    pub birth: u64,
}

/// The parts below a root.
#[derive(Drop)]
pub(crate) struct Parts {
    pub pointers: Indirect,
    /// How far their roots stand above the data.
    pub level: u8,
    /// They were born in this transaction group or before: that of the block with the pointers.
    pub birth: u64,
}
