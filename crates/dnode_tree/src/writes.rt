//! What is written to a tree, and what comes of it.
use block_pointer::Block;
use block_store::CopyCount;
use dnode::ObjectNode;

/// The bytes that a data block is to have.
#[derive(Drop)]
pub struct BlockWrite {
    /// The id of the block, below 128^5.
    pub id: u64,
    pub bytes: Vec<u8>,
}

/// How many copies the blocks of an object have.
#[derive(Clone, Copy)]
pub struct CopyCounts {
    pub data: CopyCount,
    pub indirect: CopyCount,
}

impl CopyCounts {
    ghost use Rattle.std.specs.Prelude.{◌≡◌};
    ghost use Rattle.block_store.specs.Blocks.{count_of};
    ghost use Rattle.dnode_tree.specs.Writes.{copies_at};

    /// How many a block of that level has.
    pub(crate) fn at(self, level: u8) -> CopyCount
        ensures { count_of result ≡ copies_at self level }
    {
        if level == 0 { self.data } else { self.indirect }
    }
}

/// An object after writes.
#[derive(Drop)]
pub struct Rewrite {
    pub node: ObjectNode,
    /// The blocks of the object before that gave way to others.
    pub replaced: Vec<Block>,
}

/// What a rewrite of an object carries through its tree.
#[derive(Clone, Copy)]
pub(crate) struct Rewriting<'a> {
    /// The object before: the new one has its type and the size of its data blocks.
    pub node: &'a ObjectNode,
    /// The transaction group in which the new blocks are born.
    pub birth: u64,
    pub copies: CopyCounts,
    /// The numbers of the disks that are taken as missing.
    pub missing: &'a [usize],
}
