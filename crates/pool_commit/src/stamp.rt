//! What the uberblocks of an open pool have in common.
ghost use Rattle.std.specs.Prelude.{◌≡◌, ◌<◌, ◌≤◌, ◌^◌, IfOk};
ghost use Rattle.block_pointer.specs.Block.{FitsBlock};
ghost use Rattle.uberblock_ring.specs.Uberblock.{Fits, IsNumber, IsRoot};
ghost use Rattle.vdev_label.specs.Config.{FitsConfig};
ghost use Rattle.vdev_label.specs.Plain.{config_view};
ghost use Rattle.pool_commit.specs.Slots.{IsStampOf, uberblock_of};

use block_pointer::Block;
use std::alloc::{AllocError, Global};
use uberblock_ring::Uberblock;
use vdev_label::Config;

/// What all uberblocks have that are written between an open of a pool and the next one.
#[derive(Clone, Copy, PartialEq, Eq)]
pub struct Stamp {
    /// The wrapping sum of the guids of the vdevs and disks of the configuration.
    pub guid_sum: u64,
    /// The claim of the open, from 1 to 2^62.
    pub claim: u64,
    /// The SHA-256 of the configuration's encoding.
    pub config_digest: [u8; 32],
}

impl Stamp {
    /// What the uberblocks of a pool of that configuration have under this claim.
    pub(crate) fn new(alloc: Global, config: &Config, claim: u64) -> Result<Stamp, AllocError>
        requires { FitsConfig (config_view config.now) }
        ensures { IfOk result (IsStampOf (config_view config.now) claim) }
    {
        Ok(Stamp {
            guid_sum: config.guid_sum(),
            claim,
            config_digest: config.digest(alloc)?,
        })
    }

    /// The sum of the pool's GUIDs.
    fn guids(&self) -> u64
        ensures { result ≡ self.now.guid_sum }
    {
        self.guid_sum
    }

    /// The uberblock of a group with this root.
    pub(crate) fn uberblock(&self, group: u64, root: Block, timestamp: u64) -> Uberblock
        requires claim { IsNumber self.now.claim }
        requires born { 0 < group }
        requires last { group ≤ 2 ^ 62 }
        requires root { IsRoot group root }
        requires fits { FitsBlock root }
        ensures is { result ≡ uberblock_of self.now group root timestamp }
        ensures fits { Fits result }
    {
        let guid_sum = self.guids();
        Uberblock {
            group,
            guid_sum,
            timestamp,
            root,
            claim: self.claim,
            config_digest: self.config_digest,
        }
    }
}
