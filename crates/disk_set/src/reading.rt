//! Reads.
ghost use Rattle.std.specs.Prelude.{ℕ, ◌≡◌, ◌⊎◌, ◌<◌, ◌≤◌, ◌+◌, ◌∷◌, length, List, IfOk, IfErr};
ghost use Rattle.sha2.specs.Sha256.{sha256};
ghost use Rattle.model_disk.specs.Call.{read_call};
ghost use Rattle.model_disk.specs.Joint.{AreHonestSince, on, bytes_of};
ghost use Rattle.raidz_io.specs.Choices.{IsChoice, HasNoChoice};
ghost use Rattle.raidz_io.specs.Places.{CanHold, IsOnDisks};
ghost use Rattle.raidz_io.specs.Reads.{OnlyReads, AreUntouched, IsHonestSince, StandsOnPresent, absent_since, MoreAreLost};

use crate::set::DiskSet;
use model_disk::{Disk, DiskError, HonestDisk};
use raidz_io::{Extent, Refusal};
use std::alloc::Global;

impl<D: Disk + Drop> DiskSet<D> {
    /// The bytes of an extent, which have this SHA-256 (FIPS 180-4), with these disks taken as missing, on which no call is made:
    /// as `Extent::read_checked` says.
    pub fn read_checked(
        &mut self,
        alloc: Global,
        extent: Extent,
        missing: &[usize],
        digest: &[u8; 32],
    ) -> Result<Vec<u8>, Refusal>
        requires fits { CanHold extent }
        requires on_disks { IsOnDisks extent self.old.disks.starts }
        ensures rest { self.new ≡ record self.old { disks = self.new.disks } }
        ensures reads { OnlyReads self.old.disks self.new.disks }
        ensures untouched { AreUntouched missing.now self.old.disks self.new.disks }
        ensures digest { IfOk result (λ bytes. sha256 bytes.items ≡ digest.now) }
        ensures block { IfOk result (λ bytes. IsHonestSince self.old.disks self.new.disks
            → (block : List ℕ)
            → StandsOnPresent self.old.disks self.new.disks missing.now extent block
            → sha256 block ≡ digest.now → bytes.items ≡ block) }
        ensures choice { IfOk result (λ bytes.
            IsChoice self.old.disks self.new.disks extent bytes.items) }
        ensures refused { IfErr result (λ refusal. (refusal ≡ Refusal.NoMemory)
            ⊎ (((refusal ≡ Refusal.DiskFault)
            × MoreAreLost extent (absent_since self.old.disks self.new.disks missing.now))
            ⊎ ((refusal ≡ Refusal.BadDigest)
            × HasNoChoice self.old.disks self.new.disks missing.now digest.now extent))) }
    {
        extent.read_checked(&mut self.disks, alloc, missing, digest)
    }

    /// Fills the buffer with the bytes of a disk from this byte of it on, also where the disk is out. After an error it may hold
    /// anything.
    pub fn read_at(&mut self, disk: usize, offset: u64, buffer: &mut [u8]) -> Result<(), DiskError>
        requires there { disk < length self.old.disks.starts }
        requires within { offset + length buffer.old
            ≤ length (bytes_of self.old.disks.starts disk) }
        ensures rest { self.new ≡ record self.old { disks = self.new.disks } }
        ensures starts { self.new.disks.starts ≡ self.old.disks.starts }
        ensures call { self.new.disks.calls
            ≡ on disk (read_call result offset buffer.new) ∷ self.old.disks.calls }
    {
        self.disks.read(disk, offset, buffer)
    }
}

impl<D: HonestDisk + Drop> DiskSet<D> {
    /// A law: of honest disks each answer so far was true.
    pub fn are_honest(&self)
        ensures { (n : ℕ) → AreHonestSince n self.now.disks.starts self.now.disks.calls }
    {
        self.disks.are_honest();
    }
}
