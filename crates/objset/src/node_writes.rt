//! What is written to an object set, and what comes of it.
use block_pointer::Block;
use dnode::{Dnode, ObjectSet};

/// A dnode that is written.
#[derive(Clone, Copy, PartialEq, Eq)]
pub struct NodeWrite {
    /// The number of the dnode: above 0, and below 32 * 128^5.
    pub number: u64,
    pub node: Dnode,
}

/// An object set after dnodes were written.
#[derive(Drop)]
pub struct SetRewrite {
    pub set: ObjectSet,
    /// The blocks of the dnodes before that gave way to others.
    pub replaced: Vec<Block>,
}
