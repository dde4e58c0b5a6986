//! Blocks that are on the disks already, as a pool is opened.
ghost use Rattle.std.specs.Prelude.{◌≡◌, ◌⊎◌, ◌↔◌, ◌+◌, ◌<◌, ◌≤◌, ℕ, Bool, false, [], length, replicate, OnOk, OnErr, IfOk, IfErr, IsTrue, Contains};
ghost use Rattle.std.specs.Bool.{OnTrue, OnFalse};
ghost use Rattle.block_pointer.specs.declared.block.Block.{Block};
ghost use Rattle.block_pointer.specs.Copies.{dvas};
ghost use Rattle.metaslab.specs.State.{State, InUse};
ghost use Rattle.block_store.specs.Blocks.{Contents, AreDistinct};
ghost use Rattle.block_store.specs.Config.{IsAllowedSize, sectors_of, size_of};
ghost use Rattle.block_store.specs.Opened.{FitsDisks, LieOn};
ghost use Rattle.block_store.specs.Opened.{AreFound, CannotTakeIn, Fills, HasFreePlace};
ghost use Rattle.block_store.specs.Opened.{TakeIn, TakeInPart, TakesIn};
ghost use Rattle.block_store.specs.Places.{shapes_of, filled, planned, AreEmpty, IsPlaceFor};
ghost use Rattle.block_store.specs.Plans.{KeepsPlans};
ghost use Rattle.block_store.specs.Releases.{copy_of_at, copies_of_at, copies_of, copies_of_all};
ghost use Rattle.block_store.specs.Store.{Keeps, KeepsStored, Stores};
ghost use Rattle.block_store.specs.Uses.{CopiesLieOn, Passes, IsInUse};

use crate::create::{MAX_METASLABS, MAX_VDEVS, sectors_for_blocks};
use crate::cursor::Cursors;
use crate::read::places_of;
use crate::refusal::Refusal;
use crate::shape::VdevShape;
use crate::space::VdevMetaslabs;
use crate::store::BlockStore;
use block_pointer::{Block, Dva};
use disk_set::{DiskSet, GroupSpan};
use model_disk::{Disk, DiskArray};
use std::alloc::{AllocError, Global};

/// Whether the disk is of an allowed size, and has so many sectors for blocks.
fn has_sectors<D: Disk + Drop>(disks: &DiskArray<D>, disk: usize, sectors: u64) -> bool
    requires { disk < length disks.now.starts }
    ensures { IsTrue result ↔ (IsAllowedSize (size_of disks.now.starts disk)
        × (sectors ≤ sectors_of (size_of disks.now.starts disk))) }
{
    match sectors_for_blocks(disks.size(disk)) {
        Some(most) => sectors <= most,
        None => false,
    }
}

/// The same of the disks from `first` on and before `end`.
fn have_sectors<D: Disk + Drop>(
    disks: &DiskArray<D>,
    first: usize,
    end: usize,
    sectors: u64,
) -> bool
    requires { end ≤ length disks.now.starts }
    ensures { IsTrue result ↔ ((disk : ℕ) → first ≤ disk → disk < end
        → IsAllowedSize (size_of disks.now.starts disk)
        × (sectors ≤ sectors_of (size_of disks.now.starts disk))) }
{
    for disk in first..end {
        if !has_sectors(disks, disk, sectors) {
            return false;
        }
    }
    true
}

/// Whether the vdev begins with that disk, and fits its disks.
fn fits_disks<D: Disk + Drop>(disks: &DiskArray<D>, first: usize, shape: VdevShape) -> bool
    requires { first ≤ length disks.now.starts }
    ensures { IsTrue result ↔ ((shape.vdev.first ≡ first) × FitsDisks disks.now.starts shape) }
{
    let children = shape.vdev.geometry.children as usize;
    shape.vdev.first == first
        && children <= disks.len() - first
        && have_sectors(disks, first, first + children, shape.child_sectors)
        && shape.has_regions()
        && shape.metaslabs() <= MAX_METASLABS
}

/// Whether the vdevs take all disks in order, and fit them.
fn lie_on<D: Disk + Drop>(disks: &DiskArray<D>, shapes: &[VdevShape]) -> bool
    ensures { IsTrue result ↔ LieOn disks.now.starts 0 shapes.now }
{
    let count = disks.len();
    let mut first = 0;
    for shape in shapes {
        if !fits_disks(disks, first, *shape) {
            return false;
        }
        first += shape.vdev.geometry.children as usize;
    }
    first == count
}

/// The space of each vdev, with no sector in use.
fn empty_spaces(alloc: Global, shapes: &[VdevShape]) -> Result<Vec<VdevMetaslabs>, AllocError>
    ensures shapes { IfOk result (λ spaces. shapes_of spaces.items ≡ shapes.now) }
    ensures empty { IfOk result (λ spaces. AreEmpty spaces.items) }
{
    let mut spaces = Vec::new(alloc);
    for shape in shapes {
        let space = VdevMetaslabs::new(alloc, *shape)?;
        spaces.push(space).map_err(AllocError::from)?;
    }
    Ok(spaces)
}

impl<D: Disk + Drop> BlockStore<D> {
    ghost use Rattle.block_store.specs.Blocks.{nothing_stored};
    ghost use Rattle.block_store.specs.Opened.{MayBeOpened};
    ghost use Rattle.block_store.specs.Plans.{Plans};

    /// A store over disks that were used before, with the vdevs of the pool that is on them. No block is taken in, and no plan
    /// begun. The disks that are marked are out from the start, and may lack every block, and none of the others missed a group; what stands for a disk that is away
    /// says a size all the same, and is never called. `BadConfig` where the vdevs don't take all disks in order, a disk is too
    /// small for its vdev or too large, a vdev has too many metaslabs or none outside its meta region, or there isn't one
    /// mark for each disk. After an error the disks come back as they were.
    pub fn opened(
        alloc: Global,
        disks: DiskArray<D>,
        shapes: &[VdevShape],
        out: &[bool],
    ) -> Result<Self, (Refusal, DiskArray<D>)>
        ensures may { IfOk result (λ store. MayBeOpened disks.starts shapes.now out.now) }
        ensures shapes { IfOk result (λ store. shapes_of store.spaces ≡ shapes.now) }
        ensures disks { IfOk result (λ store. store.disks ≡ disks) }
        ensures out { IfOk result (λ store. store.out ≡ out.now) }
        ensures since { IfOk result (λ store.
            store.spans.since ≡ replicate (length disks.starts) 0) }
        ensures group { IfOk result (λ store. store.spans.group ≡ 0) }
        ensures stale { IfOk result (λ store. store.spans.stale ≡ []) }
        ensures due { IfOk result (λ store. store.due ≡ []) }
        ensures stray { IfOk result (λ store. store.stray ≡ false) }

        // It stores no block, and no plan is begun: no sector is in use.
        ensures empty { IfOk result (λ store. AreEmpty store.spaces) }
        ensures holds { IfOk result (λ store. Stores store nothing_stored) }
        ensures plans { IfOk result (λ store. Plans store nothing_stored nothing_stored) }
        ensures refused { IfErr result (λ failed. (failed.0 ≡ Refusal.NoMemory)
            ⊎ ((failed.0 ≡ Refusal.BadConfig)
            × ¬ MayBeOpened disks.starts shapes.now out.now)) }
        ensures back { IfErr result (λ failed. failed.1 ≡ disks) }
    {
        if shapes.is_empty() || MAX_VDEVS < shapes.len() || out.len() != disks.len() {
            return Err((Refusal::BadConfig, disks));
        }
        if !lie_on(&disks, shapes) {
            return Err((Refusal::BadConfig, disks));
        }
        let Ok(spaces) = empty_spaces(alloc, shapes) else {
            return Err((Refusal::NoMemory, disks));
        };
        let Ok(out) = Vec::from_slice(alloc, out) else {
            return Err((Refusal::NoMemory, disks));
        };
        match DiskSet::new(alloc, disks, out) {
            Ok(set) => Ok(BlockStore {
                set,
                spaces,
                stray: false,
                cursors: Cursors::new(),
            }),
            Err(failed) => Err((Refusal::NoMemory, failed.value)),
        }
    }

    /// Of each disk, from the first on, the transaction groups that it missed, if any: of blocks that were born in them
    /// none of its columns is read from then on. Disks behind the last one missed none. It takes the place of what was
    /// said before.
    pub fn mark_stale(&mut self, stale: Vec<Option<GroupSpan>>)
        ensures marked { self.new ≡ record self.old {
          spans = record self.old.spans { stale = stale.items };
        } }

        // Where nothing is stored nothing is lost.
        ensures plans { Plans self.old nothing_stored nothing_stored
            → Plans self.new nothing_stored nothing_stored }
    {
        self.set.mark_stale(stale);
    }

    /// The disks, in the order of their numbers, with the record of all calls.
    pub fn into_array(self) -> DiskArray<D>
        ensures { result ≡ self.disks }
    {
        self.set.into_array()
    }
}

impl<D: Disk + Drop> BlockStore<D> {
    ghost use Rattle.block_store.specs.Plans.{Plans};

    /// Takes in blocks that are on the disks already, each copy at the place that its pointer says: no plan places a block
    /// there from now on. `BadPointer` where a copy is in no place of its region, or not all its sectors are free as its turn
    /// comes, as where two copies share one. After an error some copies were taken in.
    pub fn take_in(&mut self, blocks: &[Block]) -> Result<(), Refusal>
        ensures disks { self.new.disks ≡ self.old.disks }
        ensures out { self.new.out ≡ self.old.out }
        ensures spans { self.new.spans ≡ self.old.spans }
        ensures stray { self.new.stray ≡ self.old.stray }
        ensures due { self.new.due ≡ self.old.due }
        ensures shapes { shapes_of self.new.spaces ≡ shapes_of self.old.spaces }
        ensures taken { OnOk result
            (TakeIn self.old.spaces (copies_of_all blocks.now) self.new.spaces) }
        ensures some { OnErr result
            (TakeInPart self.old.spaces (copies_of_all blocks.now) self.new.spaces) }
        ensures refused { IfErr result (λ refusal. (refusal ≡ Refusal.NoMemory)
            ⊎ ((refusal ≡ Refusal.BadPointer) × CannotTakeIn self.old.spaces
            (copies_of_all blocks.now) self.new.spaces)) }

        // The same by sectors, without what is planned and with it.
        ensures filled { OnOk result
            (Fills self.old.spaces filled blocks.now self.new.spaces) }
        ensures planned { OnOk result
            (Fills self.old.spaces planned blocks.now self.new.spaces) }
        ensures in_use { OnOk result ((block : Block) → Contains blocks.now block
            → CopiesLieOn IsInUse self.new.spaces filled block
            × CopiesLieOn IsInUse self.new.spaces planned block) }
        ensures distinct { OnOk result (AreDistinct blocks.now) }

        // What holds of a block's sectors, and of those in use, holds still.
        ensures stays { (test : State → Bool) (block : Block) → Passes test InUse
            → CopiesLieOn (Passes test) self.old.spaces filled block
            → CopiesLieOn (Passes test) self.new.spaces filled block }
        ensures keeps { Keeps self.old self.new }
        ensures stores { KeepsStored self.old self.new }
        ensures plans { KeepsPlans self.old self.new }

        // What was stored is so still, and so are these blocks, with the bytes that stand there.
        ensures holds { OnOk result ((before stored : Contents) → Stores self.old before
            → AreFound self.old blocks.now before stored → Stores self.new stored) }

        // And where nothing was planned beside what was stored, nothing is planned then.
        ensures opens { OnOk result ((before stored : Contents) → Plans self.old before before
            → AreFound self.old blocks.now before stored → Plans self.new stored stored) }
    {
        self.take_in_each(blocks)
    }

    /// Takes in all copies of one block after the other.
    fn take_in_each(&mut self, blocks: &[Block]) -> Result<(), Refusal>
        ensures disks { self.new.disks ≡ self.old.disks }
        ensures out { self.new.out ≡ self.old.out }
        ensures spans { self.new.spans ≡ self.old.spans }
        ensures stray { self.new.stray ≡ self.old.stray }
        ensures due { self.new.due ≡ self.old.due }
        ensures taken { OnOk result
            (TakeIn self.old.spaces (copies_of_all blocks.now) self.new.spaces) }
        ensures some { OnErr result
            (TakeInPart self.old.spaces (copies_of_all blocks.now) self.new.spaces) }
        ensures refused { IfErr result (λ refusal. (refusal ≡ Refusal.NoMemory)
            ⊎ ((refusal ≡ Refusal.BadPointer) × CannotTakeIn self.old.spaces
            (copies_of_all blocks.now) self.new.spaces)) }
    {
        for block in blocks {
            self.take_in_block(block)?;
        }
        Ok(())
    }

    /// Takes in all copies of a block.
    fn take_in_block(&mut self, block: &Block) -> Result<(), Refusal>
        ensures disks { self.new.disks ≡ self.old.disks }
        ensures out { self.new.out ≡ self.old.out }
        ensures spans { self.new.spans ≡ self.old.spans }
        ensures stray { self.new.stray ≡ self.old.stray }
        ensures due { self.new.due ≡ self.old.due }
        ensures taken { OnOk result
            (TakeIn self.old.spaces (copies_of block.now) self.new.spaces) }
        ensures some { OnErr result
            (TakeInPart self.old.spaces (copies_of block.now) self.new.spaces) }
        ensures refused { IfErr result (λ refusal. (refusal ≡ Refusal.NoMemory)
            ⊎ ((refusal ≡ Refusal.BadPointer) × CannotTakeIn self.old.spaces
            (copies_of block.now) self.new.spaces)) }
    {
        let places = places_of(block.copies);
        self.take_in_places(block, places.as_slice())
    }

    /// Takes in copies of a block that lie at these places.
    fn take_in_places(&mut self, block: &Block, places: &[Dva]) -> Result<(), Refusal>
        ensures disks { self.new.disks ≡ self.old.disks }
        ensures out { self.new.out ≡ self.old.out }
        ensures spans { self.new.spans ≡ self.old.spans }
        ensures stray { self.new.stray ≡ self.old.stray }
        ensures due { self.new.due ≡ self.old.due }
        ensures taken { OnOk result
            (TakeIn self.old.spaces (copies_of_at block.now places.now) self.new.spaces) }
        ensures some { OnErr result
            (TakeInPart self.old.spaces (copies_of_at block.now places.now) self.new.spaces) }
        ensures refused { IfErr result (λ refusal. (refusal ≡ Refusal.NoMemory)
            ⊎ ((refusal ≡ Refusal.BadPointer) × CannotTakeIn self.old.spaces
            (copies_of_at block.now places.now) self.new.spaces)) }
    {
        for place in places {
            self.take_in_place(block, *place)?;
        }
        Ok(())
    }

    /// Takes in the copy of a block that lies there. An error changes nothing.
    fn take_in_place(&mut self, block: &Block, place: Dva) -> Result<(), Refusal>
        ensures disks { self.new.disks ≡ self.old.disks }
        ensures out { self.new.out ≡ self.old.out }
        ensures spans { self.new.spans ≡ self.old.spans }
        ensures stray { self.new.stray ≡ self.old.stray }
        ensures due { self.new.due ≡ self.old.due }
        ensures taken { OnOk result (TakesIn self.old.spaces
            (copy_of_at block.now place) self.new.spaces) }
        ensures err { OnErr result (self.new.spaces ≡ self.old.spaces) }
        ensures refused { IfErr result (λ refusal. (refusal ≡ Refusal.NoMemory)
            ⊎ ((refusal ≡ Refusal.BadPointer) × ¬ HasFreePlace self.old.spaces
            (copy_of_at block.now place))) }
    {
        let copies = places_of(block.copies).len();
        let sectors = block.property.sectors;
        if sectors == 0 || !self.is_place_for(sectors, copies, place) {
            return Err(Refusal::BadPointer);
        }
        if !self.fill(block, place)? {
            return Err(Refusal::BadPointer);
        }
        Ok(())
    }

    /// Takes in a place of the block's region, if all its sectors are free. Neither `false` nor an error, that memory is
    /// short, changes anything.
    fn fill(&mut self, block: &Block, place: Dva) -> Result<bool, AllocError>
        requires some { 0 < block.now.property.sectors }
        requires place { IsPlaceFor self.old.spaces block.now.property.sectors
            (length (dvas block.now.copies)) place }
        ensures disks { self.new.disks ≡ self.old.disks }
        ensures out { self.new.out ≡ self.old.out }
        ensures spans { self.new.spans ≡ self.old.spans }
        ensures stray { self.new.stray ≡ self.old.stray }
        ensures due { self.new.due ≡ self.old.due }
        ensures taken { IfOk result (λ is_free. OnTrue is_free (TakesIn self.old.spaces
            (copy_of_at block.now place) self.new.spaces)) }
        ensures free { IfOk result (λ is_free. HasFreePlace self.old.spaces
            (copy_of_at block.now place) → IsTrue is_free) }
        ensures left { IfOk result (λ is_free.
            OnFalse is_free (self.new.spaces ≡ self.old.spaces)) }
        ensures err { OnErr result (self.new.spaces ≡ self.old.spaces) }
    {
        self.spaces[place.vdev as usize].take_in(block.property.sectors, place)
    }
}
