ghost use Rattle.std.specs.Prelude.{◌≡◌, IfOk, IfErr};
ghost use Rattle.uberblock_ring.specs.Uberblock.{IsRead, head_words};

use crate::refusal::Refusal;
use block_pointer::{Block, BlockPtr, Copies};
use words::LAST_COUNT;

/// The root of what one transaction group committed.
#[derive(Clone, Copy, PartialEq, Eq)]
pub struct Uberblock {
    /// The transaction group, from 1 to 2^62.
    pub group: u64,
    /// The wrapping sum of the guids of the virtual devices and disks of the configuration.
    pub guid_sum: u64,
    /// The time as the caller gave it.
    pub timestamp: u64,
    /// The block of the meta object set: three copies, at level 0, of type 11, born in the group.
    pub root: Block,
    /// The claim that the group was committed under, from 1 to 2^62.
    pub claim: u64,
    /// The SHA-256 of the configuration's encoding.
    pub config_digest: [u8; 32],
}

const MAGIC: u64 = 0x00ba_b10c;

const VERSION: u64 = 1;

/// The type of the block that an object set stands in.
const OBJECT_SET: u8 = 11;

impl Uberblock {
    /// The words in front of the root pointer.
    pub(crate) fn head_words(&self) -> [u64; 5]
        ensures { result ≡ head_words self.now }
    {
        [MAGIC, VERSION, self.group, self.guid_sum, self.timestamp]
    }

    /// The uberblock that these fields of a slot make.
    pub(crate) fn from_fields(
        head: [u64; 5],
        root: BlockPtr,
        claim: u64,
        config_digest: [u8; 32],
    ) -> Result<Uberblock, Refusal>
        ensures found { IfOk result (IsRead head root claim config_digest) }
        ensures only { (u : Uberblock) → IsRead head root claim config_digest u → result ≡ Ok u }
        ensures refused { IfErr result (λ refusal. refusal ≡ Refusal.NoUberblock) }
    {
        let BlockPtr::Block(root) = root else {
            return Err(Refusal::NoUberblock);
        };
        let group = head[2];
        let is_root = matches!(root.copies, Copies::Three(..))
            && root.property.level == 0
            && root.property.object_type == OBJECT_SET
            && root.birth == group;
        let in_range = 0 < group && group <= LAST_COUNT && 0 < claim && claim <= LAST_COUNT;
        if head[0] != MAGIC || head[1] != VERSION || !is_root || !in_range {
            return Err(Refusal::NoUberblock);
        }
        Ok(Uberblock {
            group,
            guid_sum: head[3],
            timestamp: head[4],
            root,
            claim,
            config_digest,
        })
    }
}
