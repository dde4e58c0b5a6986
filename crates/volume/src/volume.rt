//! A volume by its object set.
ghost use Rattle.std.specs.Prelude.{◌≡◌, ◌%◌, ◌≤◌, ◌^◌, IsTrue};
ghost use Rattle.pool_model.specs.Names.{is_block_size};

use block_pointer::Block;

/// The number of the object that has a volume's data.
pub(crate) const DATA: u64 = 1;

/// The type of that object.
pub(crate) const VOLUME_TYPE: u8 = 23;

/// A volume's size and the block of its object set. The set's only object is number 1: the volume's data, of type 23, in
/// blocks of the volume's block size. A block that was never written is a hole, and reads as zeros.
#[derive(Clone, Copy)]
pub struct VolumeSet {
    size: u64,
    block_size: u64,
    pub(crate) block: Block,
    ghost block_sized: { IsTrue (is_block_size block_size) },
    ghost whole: { size % block_size ≡ 0 },
    ghost least: { block_size ≤ size },
    ghost most: { size ≤ 2 ^ 40 },
}

impl VolumeSet {
    ghost use Rattle.volume.specs.Volume.{size_of, block_size_of, block_of, HasShape};

    /// The volume of that object set: `size` and `block_size` in bytes.
    pub fn new(size: u64, block_size: u64, block: Block) -> VolumeSet
        requires block_sized { IsTrue (is_block_size block_size) }
        requires whole { size % block_size ≡ 0 }
        requires least { block_size ≤ size }
        requires most { size ≤ 2 ^ 40 }
        ensures shape { HasShape result size block_size }
        ensures block { block_of result ≡ block }
    {
        VolumeSet {
            size,
            block_size,
            block,
        }
    }

    /// In bytes.
    pub fn size(&self) -> u64
        ensures value { result ≡ size_of self.now }
        ensures most { result ≤ 2 ^ 40 }
    {
        self.size
    }

    /// In bytes.
    #[tactic(auto, using(crate::proofs::Sizes::least_size, crate::proofs::Sizes::most_size))]
    pub fn block_size(&self) -> u64
        ensures value { result ≡ block_size_of self.now }
        ensures least { 512 ≤ result }
        ensures most { result ≤ 131072 }
    {
        self.block_size
    }

    /// The block of the object set.
    pub fn block(&self) -> Block
        ensures { result ≡ block_of self.now }
    {
        self.block
    }

    /// The volume of the same size with another object set.
    pub(crate) fn with_block(&self, block: Block) -> VolumeSet
        ensures shape { HasShape result (size_of self.now) (block_size_of self.now) }
        ensures block { block_of result ≡ block }
    {
        VolumeSet {
            size: self.size,
            block_size: self.block_size,
            block,
        }
    }
}
