ghost use Rattle.std.specs.Prelude.{◌≡◌, ◌↔◌, ◌<◌, ◌^◌, IsTrue, IfOk, IfErr};
ghost use Rattle.dnode.specs.Levels.{levels_of as the_levels_of};
ghost use Rattle.dnode.specs.Node.{FitsNode, SpellsNode, IsRead, PointsToRoot, node_bytes, node_words, head_bytes, root_sectors};

use crate::levels::levels_of;
use crate::refusal::Refusal;
use block_pointer::BlockPtr;
use words::{bytes_at, is_zero, put, put_words, words_at};

/// An object: the tree of its blocks.
#[derive(Clone, Copy, PartialEq, Eq)]
pub struct ObjectNode {
    /// The object's type, above 0.
    pub object_type: u8,
    /// The size of a data block in sectors of 512 bytes: from 1 to 256.
    pub data_sectors: u32,
    /// The highest block id, below 128^5.
    pub highest: u64,
    /// The block that the tree begins at, or a hole where all its blocks are holes.
    pub pointer: BlockPtr,
}

/// The base-2 logarithm of an indirect block's bytes.
const INDIRECT_SHIFT: u8 = 14;

const INDIRECT_SECTORS: u32 = 32;

const ONE_POINTER: u8 = 1;

const NO_BONUS: u8 = 0;

const SHA_256: u8 = 8;

const UNCOMPRESSED: u8 = 2;

const MAX_SECTORS: u64 = 256;

/// One past the greatest highest block id.
const MAX_BLOCKS: u64 = 1 << 35;

impl ObjectNode {
    /// How many levels the tree has: 1 where the pointer is that of the only data block.
    pub fn levels(&self) -> u8
        requires { self.now.highest < 128 ^ 5 }
        ensures { result ≡ the_levels_of self.now.highest }
    {
        levels_of(self.highest)
    }

    /// The size in sectors of the block that the tree begins at.
    fn root_sectors(&self) -> u32
        requires { self.now.highest < 128 ^ 5 }
        ensures { result ≡ root_sectors self.now }
    {
        if self.levels() == 1 {
            self.data_sectors
        } else {
            INDIRECT_SECTORS
        }
    }

    fn points_to_root(&self) -> bool
        requires { self.now.highest < 128 ^ 5 }
        ensures { IsTrue result ↔ PointsToRoot self.now self.now.pointer }
    {
        match self.pointer {
            BlockPtr::Hole => true,
            BlockPtr::Block(block) => {
                block.property.level == self.levels() - 1
                    && block.property.object_type == self.object_type
                    && block.property.sectors == self.root_sectors()
            }
        }
    }

    /// The bytes in front of the words.
    fn head_bytes(&self) -> [u8; 8]
        requires { self.now.highest < 128 ^ 5 }
        ensures { result ≡ head_bytes self.now }
    {
        [
            self.object_type,
            INDIRECT_SHIFT,
            self.levels(),
            ONE_POINTER,
            NO_BONUS,
            SHA_256,
            UNCOMPRESSED,
            0,
        ]
    }

    /// The words in front of the pointer.
    fn to_words(&self) -> [u64; 7]
        ensures { result ≡ node_words self.now }
    {
        [u64::from(self.data_sectors), self.highest, 0, 0, 0, 0, 0]
    }

    /// The object that the fields of a dnode make.
    fn from_fields(head: [u8; 8], words: [u64; 7], pointer: BlockPtr) -> Result<ObjectNode, Refusal>
        ensures found { IfOk result (IsRead head words pointer) }
        ensures only { (n : ObjectNode) → IsRead head words pointer n → result ≡ Ok n }
        ensures refused { IfErr result (λ refusal. refusal ≡ Refusal.BadPointer) }
    {
        let object_type = head[0];
        let sectors = words[0];
        let highest = words[1];
        if object_type == 0 || sectors == 0 || sectors > MAX_SECTORS || highest >= MAX_BLOCKS {
            return Err(Refusal::BadPointer);
        }
        let node = ObjectNode {
            object_type,
            data_sectors: sectors as u32,
            highest,
            pointer,
        };
        if head != node.head_bytes() || words != node.to_words() || !node.points_to_root() {
            return Err(Refusal::BadPointer);
        }
        Ok(node)
    }

    /// The one spelling of an object's dnode.
    pub(crate) fn to_bytes(&self) -> [u8; 512]
        requires { FitsNode self.now }
        ensures { result ≡ node_bytes self.now }
    {
        let mut bytes = [0; 512];
        put(&mut bytes, 0, &self.head_bytes());
        put_words(&mut bytes, 8, &self.to_words());
        put(&mut bytes, 64, &block_pointer::encode(&self.pointer));
        bytes
    }

    /// The object whose dnode the bytes spell.
    pub(crate) fn from_bytes(bytes: &[u8; 512]) -> Result<ObjectNode, Refusal>
        ensures found { IfOk result (SpellsNode bytes.now) }
        ensures only { (n : ObjectNode) → SpellsNode bytes.now n → result ≡ Ok n }
        ensures refused { IfErr result (λ refusal. refusal ≡ Refusal.BadPointer) }
    {
        let (_, rest) = bytes.split_at(192);
        if !is_zero(rest) {
            return Err(Refusal::BadPointer);
        }
        let Ok(pointer) = block_pointer::decode(&bytes_at(bytes, 64)) else {
            return Err(Refusal::BadPointer);
        };
        ObjectNode::from_fields(bytes_at(bytes, 0), words_at(bytes, 8), pointer)
    }
}
