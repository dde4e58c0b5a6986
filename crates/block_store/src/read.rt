//! Reads of blocks.
ghost use Rattle.std.specs.Prelude.{◌≡◌, ◌⊎◌, ◌++◌, ◌*◌, ◌↔◌, ◌<◌, ℕ, List, Some, IsTrue, IfOk, IfErr, OnOk, length};
ghost use Rattle.sha2.specs.Sha256.{sha256};
ghost use Rattle.block_pointer.specs.Copies.{dvas};
ghost use Rattle.raidz_io.specs.Reads.{OnlyReads, AreUntouched};
ghost use Rattle.block_store.specs.Blocks.{Contents};
ghost use Rattle.block_store.specs.Causes.{IsCaused};
ghost use Rattle.block_store.specs.Losses.{IsForLoss};
ghost use Rattle.block_store.specs.Plans.{KeepsPlans};
ghost use Rattle.block_store.specs.Reading.{Asks, IsReadable, IsLastFault, IsFirstRead, IsFault};
ghost use Rattle.block_store.specs.Steps.{AnswersTell};
ghost use Rattle.block_store.specs.Store.{Holds, Keeps, KeepsStored, missed, outs};

use crate::block::Asked;
use crate::refusal::Refusal;
use crate::store::BlockStore;
use arrayvec::ArrayVec;
use block_pointer::{Block, Copies, Dva};
use model_disk::Disk;
use model_disk::laws::parts_are_honest;
use raidz_io::{
    honest_disks_give_truly, later_choices_stay, parts_give_truly, reads_keep_contents,
    stands_while_kept, stands_with_more_absent,
};
use std::alloc::{AllocError, Global};

impl<D: Disk + Drop> BlockStore<D> {
    /// The bytes of a block, with the disks that are named taken as missing, and so are those that missed the group in which it was
    /// born. The copies are tried in order, each with
    /// its parity; where none can be read the last one's refusal is the answer: `DiskFault` where more of its columns
    /// are lost than its vdev has parities, on disks that are absent or fail in this read, and else `BadDigest`. A
    /// pointer that is not what its parent asks, or whose copies are in no places of their region, is `BadPointer`, and
    /// nothing is read.
    pub fn read(
        &mut self,
        alloc: Global,
        block: &Block,
        asked: Asked,
        missing: &[usize],
    ) -> Result<Vec<u8>, Refusal>
        ensures rest { self.new ≡ record self.old { disks = self.new.disks } }
        ensures reads { OnlyReads self.old.disks self.new.disks }
        ensures untouched { AreUntouched (outs self.old ++ missing.now)
            self.old.disks self.new.disks }
        ensures stale { AreUntouched (missed self.old block.now.birth)
            self.old.disks self.new.disks }
        ensures keeps { Keeps self.old self.new }
        ensures stores { KeepsStored self.old self.new }
        ensures plans { KeepsPlans self.old self.new }
        ensures readable { IfOk result (λ read. IsReadable self.old.spaces asked block.now) }
        ensures digest { IfOk result (λ read. sha256 read.items ≡ block.now.checksum) }
        ensures size { IfOk result (λ read.
            length read.items ≡ block.now.property.sectors * 512) }

        // The bytes are those of the first copy that can be read: each before it was tried, and failed.
        ensures first { OnOk result
            (IsFirstRead self.old self.new (outs self.old ++ missing.now) block.now) }

        // A block that is stored is read as it was written, though some disks may lie.
        ensures bytes { IfOk result (λ read. (stored : Contents) (bytes : List ℕ)
            → Holds self.old stored → stored block.now ≡ Some bytes
            → AnswersTell self.old self.new missing.now → read.items ≡ bytes) }
        ensures refused { IfErr result (λ refusal. (refusal ≡ Refusal.NoMemory)
            ⊎ (((refusal ≡ Refusal.BadPointer) × ¬ IsReadable self.old.spaces asked block.now)
            ⊎ IsLastFault self.old self.new (outs self.old ++ missing.now) block.now refusal)) }
        ensures caused { IfErr result (IsCaused self.old self.new missing.now) }

        // And it is read, unless too many disks miss of the block.
        ensures known { IfErr result (λ refusal. (stored : Contents) (bytes : List ℕ)
            → Holds self.old stored → stored block.now ≡ Some bytes
            → Asks asked block.now → AnswersTell self.old self.new missing.now
            → IsForLoss refusal) }
    {
        reads_keep_contents();
        stands_while_kept();
        stands_with_more_absent();
        parts_are_honest();
        honest_disks_give_truly();
        parts_give_truly();
        later_choices_stay();
        if !self.is_readable(block, asked) {
            return Err(Refusal::BadPointer);
        }
        let absent = self.unread(alloc, missing, block.birth)?;
        let places = places_of(block.copies);
        self.read_places(alloc, places.as_slice(), block, absent.as_slice())
    }
}

/// The places of the copies.
pub(crate) fn places_of(copies: Copies) -> ArrayVec<Dva, 3>
    ensures { result.items ≡ dvas copies }
{
    let mut places = ArrayVec::new();
    match copies {
        Copies::One(first) => places.push(first),
        Copies::Two(first, second) => {
            places.push(first);
            places.push(second);
        }
        Copies::Three(first, second, third) => {
            places.push(first);
            places.push(second);
            places.push(third);
        }
    }
    places
}

/// Whether another copy may still be read.
fn is_fault(read: &Result<Vec<u8>, Refusal>) -> bool
    ensures { IsTrue result ↔ IsFault read.now }
{
    matches!(read, Err(Refusal::DiskFault | Refusal::BadDigest))
}

impl<D: Disk + Drop> BlockStore<D> {
    ghost use Rattle.block_store.specs.Places.{IsPlaceIn, IsPlaceFor, ArePlacesIn};
    ghost use Rattle.block_store.specs.Reading.{IsCopyRead, IsReadUpTo};

    /// The disks of which nothing is read for a block that was born in that group: those that are out, those that are named, and those that
    /// missed the group.
    fn unread(&self, alloc: Global, missing: &[usize], birth: u64) -> Result<Vec<usize>, AllocError>
        ensures { IfOk result (λ absent. absent.items
            ≡ (outs self.now ++ missing.now) ++ missed self.now birth) }
    {
        let mut absent = self.set.absent(alloc, missing)?;
        self.set.add_stale(birth, &mut absent)?;
        Ok(absent)
    }

    /// Whether the pointer is what its parent asks, and its copies are in places of their region.
    fn is_readable(&self, block: &Block, asked: Asked) -> bool
        ensures { IsTrue result ↔ IsReadable self.now.spaces asked block.now }
    {
        let places = places_of(block.copies);
        block.property == asked.property
            && block.birth <= asked.birth
            && block.property.sectors > 0
            && self.are_places(places.as_slice(), block.property.sectors)
    }

    fn are_places(&self, places: &[Dva], sectors: u32) -> bool
        ensures { IsTrue result ↔ ArePlacesIn self.now.spaces sectors places.now }
    {
        for place in places {
            if !self.is_place_for(sectors, places.len(), *place) {
                return false;
            }
        }
        true
    }

    /// Whether the place is in a vdev that is there, and a copy of a block of so many data sectors may lie there.
    pub(crate) fn is_place(&self, place: Dva, sectors: u32) -> bool
        ensures { IsTrue result ↔ IsPlaceIn self.now.spaces sectors place }
    {
        match self.spaces.get(place.vdev as usize) {
            Some(space) => space.shape().is_place(sectors, place),
            None => false,
        }
    }

    /// Whether it is also in the region for blocks of so many copies.
    pub(crate) fn is_place_for(&self, sectors: u32, copies: usize, place: Dva) -> bool
        ensures { IsTrue result ↔ IsPlaceFor self.now.spaces sectors copies place }
    {
        match self.spaces.get(place.vdev as usize) {
            Some(space) => space.shape().is_place_for(sectors, copies, place),
            None => false,
        }
    }

    /// Reads the copies in order, until one is read.
    fn read_places(
        &mut self,
        alloc: Global,
        places: &[Dva],
        block: &Block,
        absent: &[usize],
    ) -> Result<Vec<u8>, Refusal>
        requires places { places.now ≡ dvas block.now.copies }
        requires some { 0 < block.now.property.sectors }
        requires readable { ArePlacesIn self.old.spaces block.now.property.sectors places.now }
        ensures rest { self.new ≡ record self.old { disks = self.new.disks } }
        ensures read { IsReadUpTo self.old.spaces absent.now block.now (length places.now)
            self.old.disks self.new.disks result }
    {
        let mut read = self.read_copy(alloc, places, 0, block, absent);
        for i in 1..places.len() {
            if is_fault(&read) {
                read = self.read_copy(alloc, places, i, block, absent);
            }
        }
        read
    }

    /// Reads one copy.
    fn read_copy(
        &mut self,
        alloc: Global,
        places: &[Dva],
        i: usize,
        block: &Block,
        absent: &[usize],
    ) -> Result<Vec<u8>, Refusal>
        requires places { places.now ≡ dvas block.now.copies }
        requires below { i < length places.now }
        requires some { 0 < block.now.property.sectors }
        requires readable { ArePlacesIn self.old.spaces block.now.property.sectors places.now }
        ensures rest { self.new ≡ record self.old { disks = self.new.disks } }
        ensures read { IsCopyRead self.old.spaces absent.now block.now i
            self.old.disks self.new.disks result }
    {
        let extent = self.extent_at(places[i], block.property.sectors);
        match self
            .set
            .read_checked(alloc, extent, absent, &block.checksum)
        {
            Ok(bytes) => Ok(bytes),
            Err(raidz_io::Refusal::NoMemory) => Err(Refusal::NoMemory),
            Err(raidz_io::Refusal::DiskFault) => Err(Refusal::DiskFault),
            Err(raidz_io::Refusal::BadDigest) => Err(Refusal::BadDigest),
        }
    }
}
