//! Reads of a block whose digest is known.
ghost use Rattle.std.specs.Prelude.{ℕ, ◌≡◌, ◌⊎◌, List, IfOk, IfErr};
ghost use Rattle.sha2.specs.Sha256.{sha256};

use crate::choice::{find_choice, has_digest};
use crate::refusal::Refusal;
use crate::vdev::Extent;
use model_disk::{Disk, DiskArray};
use raidz_map::{MAX_CHILDREN, child_holds_one_column};
use std::alloc::Global;

impl Extent {
    ghost use Rattle.raidz_io.specs.Choices.{IsChoice, HasNoChoice};
    ghost use Rattle.raidz_io.specs.Places.{CanHold, IsOnDisks};
    ghost use Rattle.raidz_io.specs.Reads.{OnlyReads, AreUntouched, IsHonestSince, StandsOnPresent, absent_since, MoreAreLost};

    /// The bytes of the block, which have this SHA-256 (FIPS 180-4). Where those that are read have not, or a
    /// column is lost, the parity is read too, and sets of further columns are tried as wrong, smaller sets
    /// first, of up to as many as parities are left. Where no choice has the digest the answer is `BadDigest`,
    /// and where more columns are lost than there are parities it is `DiskFault`. No call is made on a missing
    /// disk. A choice can have the digest and be another block only where two blocks have one digest.
    pub fn read_checked<D: Disk + Drop>(
        self,
        disks: &mut DiskArray<D>,
        alloc: Global,
        missing: &[usize],
        digest: &[u8; 32],
    ) -> Result<Vec<u8>, Refusal>
        requires fits { CanHold self }
        requires on_disks { IsOnDisks self disks.old.starts }
        ensures reads { OnlyReads disks.old disks.new }
        ensures untouched { AreUntouched missing.now disks.old disks.new }
        ensures digest { IfOk result (λ bytes. sha256 bytes.items ≡ digest.now) }

        // What stands on all disks but those that are absent, is read truly and has the digest, is the answer.
        ensures block { IfOk result (λ bytes. IsHonestSince disks.old disks.new → (block : List ℕ)
            → StandsOnPresent disks.old disks.new missing.now self block
            → sha256 block ≡ digest.now → bytes.items ≡ block) }

        // The answer's columns are what was read, but for as many as there are parities.
        ensures choice { IfOk result (λ bytes. IsChoice disks.old disks.new self bytes.items) }
        ensures refused { IfErr result (λ refusal. (refusal ≡ Refusal.NoMemory)
            ⊎ (((refusal ≡ Refusal.DiskFault)
            × MoreAreLost self (absent_since disks.old disks.new missing.now))
            ⊎ ((refusal ≡ Refusal.BadDigest)
            × HasNoChoice disks.old disks.new missing.now digest.now self))) }
    {
        child_holds_one_column();
        let layout = self.layout();
        let layout = layout.as_slice();
        let mut read = self.read_data(disks, alloc, layout, missing)?;
        if read.lost.is_empty() && has_digest(read.bytes.as_slice(), digest) {
            return Ok(read.bytes);
        }
        self.read_parity(disks, layout, missing, MAX_CHILDREN as usize, &mut read)?;
        if self.parity() < read.lost.len() {
            return Err(Refusal::DiskFault);
        }
        let (_, data) = layout.split_at(self.parity());
        let (bytes, lost) = (read.bytes.as_slice(), read.lost.as_slice());
        match find_choice(alloc, data, self.parity(), bytes, lost, digest)? {
            Some(block) => Ok(block),
            None => Err(Refusal::BadDigest),
        }
    }
}
