//! What is changed in an object set.
use block_store::CopyCount;
use dnode::ObjectSetKind;
use dnode_tree::{BlockWrite, CopyCounts};

/// What becomes of an object.
#[derive(Drop)]
pub enum Change {
    /// An object is made where there is none.
    Create {
        /// Above 0.
        object_type: u8,
        /// The size of a data block in sectors of 512 bytes: from 1 to 256.
        data_sectors: u32,
        /// Its first data, as those of `Put`. Its highest block id is that of the last of them, 0 where there is none.
        writes: Vec<BlockWrite>,
    },
    /// Data blocks of an object are written, whole, in the order of their ids, which are below 128^5. Its highest block id
    /// becomes that of the last of them, where that is greater.
    Put {
        writes: Vec<BlockWrite>,
    },
    /// An object goes, with all its blocks.
    Free,
    /// An object is written anew: it keeps its type and the size of its data blocks, and has these blocks alone, as those of
    /// `Put`. Its highest block id is that of the last of them, 0 where there is none.
    Replace {
        writes: Vec<BlockWrite>,
    },
}

/// A change of one object.
#[derive(Drop)]
pub struct ObjectChange {
    /// Above 0, below 32 * 128^5.
    pub number: u64,
    pub change: Change,
}

/// How many copies the blocks of a set have: its kind says it.
#[derive(Clone, Copy)]
pub struct SetCopies {
    /// Of the data blocks of objects.
    pub data: CopyCount,
    /// Of the indirect blocks of objects, and of all blocks of the dnodes.
    pub other: CopyCount,
}

impl SetCopies {
    ghost use Rattle.std.specs.Prelude.{◌≡◌};
    ghost use Rattle.objset.specs.Changes.{object_copies, dnode_copies, copies_of};

    /// Those of a set of that kind: one of a volume's data blocks, two of its other blocks, and three of each block of the meta
    /// object set.
    pub fn of_kind(kind: ObjectSetKind) -> SetCopies
        ensures are { result ≡ copies_of kind }
    {
        match kind {
            ObjectSetKind::Meta => SetCopies {
                data: CopyCount::Three,
                other: CopyCount::Three,
            },
            ObjectSetKind::Volume => SetCopies {
                data: CopyCount::One,
                other: CopyCount::Two,
            },
        }
    }

    /// Those of an object's blocks.
    pub(crate) fn of_objects(self) -> CopyCounts
        ensures { result ≡ object_copies self }
    {
        CopyCounts {
            data: self.data,
            indirect: self.other,
        }
    }

    /// Those of the blocks of the dnodes.
    pub(crate) fn of_dnodes(self) -> CopyCounts
        ensures { result ≡ dnode_copies self }
    {
        let SetCopies { other, .. } = self;
        CopyCounts {
            data: other,
            indirect: other,
        }
    }
}

/// What a change of a set carries through its objects.
#[derive(Clone, Copy)]
pub(crate) struct Changing<'a> {
    /// The transaction group in which the new blocks are born.
    pub birth: u64,
    pub copies: SetCopies,
    /// The numbers of the disks that are taken as missing.
    pub missing: &'a [usize],
}
