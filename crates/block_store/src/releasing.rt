//! Blocks that are given back, and what is due as a plan begins.
ghost use Rattle.std.specs.Prelude.{◌≡◌, false, ◌⊎◌, ◌↔◌, ◌<◌, [], ℕ, Bool, List, Some, length, OnOk, OnErr, IfErr, IsTrue, Contains};
ghost use Rattle.block_pointer.specs.declared.block.Block.{Block};
ghost use Rattle.metaslab.specs.State.{State, Released};
ghost use Rattle.block_store.specs.Blocks.{Contents, AreDistinct, AreStored};
ghost use Rattle.block_store.specs.Places.{shapes_of, filled, planned, HaveMarks, IsPlaceIn};
ghost use Rattle.block_store.specs.Plans.{Plans};
ghost use Rattle.block_store.specs.Releases.{AreSettledIn, AreSettledInSome, AreSpared, AreAllInUse};
ghost use Rattle.block_store.specs.Releases.{copy_of_at, copies_of_at, copies_of, copies_of_all, IsReleased};
ghost use Rattle.block_store.specs.Releases.{AreReleased, AreReleasedInPart, IsNotReleasable};
ghost use Rattle.block_store.specs.Store.{Keeps, KeepsStored, Stores, in_group};
ghost use Rattle.block_store.specs.Uses.{LiesOn, CopiesLieOn, Passes, IsInUse, SettlesTo};

use crate::read::places_of;
use crate::refusal::Refusal;
use crate::space::VdevMetaslabs;
use crate::store::BlockStore;
use block_pointer::{Block, Dva};
use model_disk::Disk;
use std::alloc::AllocError;

/// Drops what is planned, and makes free what is due to a group, in each vdev. Where memory is short in one, the others are
/// settled still.
fn settle_each(spaces: &mut Vec<VdevMetaslabs>, group: u64) -> Result<(), AllocError>
    ensures count { length spaces.new.items ≡ length spaces.old.items }
    ensures shapes { shapes_of spaces.new.items ≡ shapes_of spaces.old.items }
    ensures settled { OnOk result (AreSettledIn group spaces.old.items spaces.new.items) }
    ensures some { AreSettledInSome group spaces.old.items spaces.new.items }
    ensures free { HaveMarks spaces.new.items filled spaces.new.items planned }
{
    let mut failed = false;
    for vdev in 0..spaces.len() {
        if spaces[vdev].settle(group).is_err() {
            failed = true;
        }
    }
    if failed {
        return Err(AllocError);
    }
    Ok(())
}

impl<D: Disk + Drop> BlockStore<D> {
    /// Begins a plan of a transaction group, and drops the one before it: nothing is due. What was released three groups before
    /// or earlier, and is due to this one, may be handed out from now on. After an error, that memory is short, that was done
    /// in some metaslabs and not in others, and the next plan does the rest.
    ///
    /// A disk that fails from then on may lack blocks that were born in that group or later.
    pub fn begin_plan(&mut self, group: u64) -> Result<(), AllocError>
        ensures disks { self.new.disks ≡ self.old.disks }
        ensures out { self.new.out ≡ self.old.out }
        ensures spans { self.new.spans ≡ in_group self.old.spans group }
        ensures shapes { shapes_of self.new.spaces ≡ shapes_of self.old.spaces }
        ensures due { self.new.due ≡ [] }
        ensures stray { self.new.stray ≡ false }
        ensures settled { OnOk result (AreSettledIn group self.old.spaces self.new.spaces) }
        ensures some { AreSettledInSome group self.old.spaces self.new.spaces }

        // The places of the plan that is dropped are free again.
        ensures free { HaveMarks self.new.spaces filled self.new.spaces planned }

        // What holds of a block's sectors, and isn't lost where they settle, holds still.
        ensures stays { (test later : State → Bool) (block : Block)
            → SettlesTo group (Passes test) (Passes later)
            → CopiesLieOn (Passes test) self.old.spaces filled block
            → CopiesLieOn (Passes later) self.new.spaces filled block }

        // What is stored stays so, where none of it is due, and nothing else is planned.
        ensures plans { (stored : Contents) → Stores self.old stored
            → AreSpared group self.old.spaces stored → Plans self.new stored stored }
        ensures keeps { Keeps self.old self.new }
    {
        self.enter(group);
        self.set.drop_due();
        self.stray = false;
        settle_each(&mut self.spaces, group)
    }

    /// Gives all copies of blocks back with the planned group: no block of this group or a later one leads to them. `BadPointer`
    /// where a copy is in no place of the pool, or not all its sectors are in use. After an error some copies were given back.
    pub fn release(&mut self, blocks: &[Block], group: u64) -> Result<(), Refusal>
        ensures disks { self.new.disks ≡ self.old.disks }
        ensures out { self.new.out ≡ self.old.out }
        ensures spans { self.new.spans ≡ self.old.spans }
        ensures stray { self.new.stray ≡ self.old.stray }
        ensures due { self.new.due ≡ self.old.due }
        ensures shapes { shapes_of self.new.spaces ≡ shapes_of self.old.spaces }
        ensures filled { HaveMarks self.old.spaces filled self.new.spaces filled }
        ensures released { OnOk result
            (AreReleased self.old.spaces (copies_of_all blocks.now) group self.new.spaces) }
        ensures some { OnErr result
            (AreReleasedInPart self.old.spaces (copies_of_all blocks.now) group self.new.spaces) }
        ensures refused { IfErr result (λ refusal. (refusal ≡ Refusal.NoMemory)
            ⊎ ((refusal ≡ Refusal.BadPointer) × IsNotReleasable self.old.spaces
            (copies_of_all blocks.now) group self.new.spaces)) }
        ensures keeps { Keeps self.old self.new }
        ensures stores { KeepsStored self.old self.new }

        // What is stored and planned stays so, where these blocks are stored.
        ensures plans { (stored planned : Contents) → Plans self.old stored planned
            → AreStored stored blocks.now → Plans self.new stored planned }

        // What holds of a block's sectors, and of those that the group releases, holds still; and of all sectors of
        // other blocks what held of them.
        ensures stays { (test : State → Bool) (block : Block) → Passes test (Released group)
            → CopiesLieOn (Passes test) self.old.spaces planned block
            → CopiesLieOn (Passes test) self.new.spaces planned block }
        ensures spares { (test : State → Bool) (stored planned_too : Contents) (block : Block)
            (bytes : List ℕ) → Plans self.old stored planned_too → AreStored stored blocks.now
            → planned_too block ≡ Some bytes → ¬ Contains blocks.now block
            → CopiesLieOn (Passes test) self.old.spaces planned block
            → CopiesLieOn (Passes test) self.new.spaces planned block }

        // Blocks that are stored, each of them once, and in use are given back.
        ensures known { IfErr result (λ refusal. (stored planned_too : Contents)
            → Plans self.old stored planned_too → AreStored stored blocks.now
            → AreDistinct blocks.now → AreAllInUse self.old.spaces blocks.now
            → refusal ≡ Refusal.NoMemory) }
    {
        self.release_each(blocks, group)
    }

    /// Gives all copies of one block after the other back.
    fn release_each(&mut self, blocks: &[Block], group: u64) -> Result<(), Refusal>
        ensures disks { self.new.disks ≡ self.old.disks }
        ensures out { self.new.out ≡ self.old.out }
        ensures spans { self.new.spans ≡ self.old.spans }
        ensures stray { self.new.stray ≡ self.old.stray }
        ensures due { self.new.due ≡ self.old.due }
        ensures released { OnOk result
            (AreReleased self.old.spaces (copies_of_all blocks.now) group self.new.spaces) }
        ensures some { OnErr result
            (AreReleasedInPart self.old.spaces (copies_of_all blocks.now) group self.new.spaces) }
        ensures refused { IfErr result (λ refusal. (refusal ≡ Refusal.NoMemory)
            ⊎ ((refusal ≡ Refusal.BadPointer) × IsNotReleasable self.old.spaces
            (copies_of_all blocks.now) group self.new.spaces)) }
    {
        for block in blocks {
            self.release_block(block, group)?;
        }
        Ok(())
    }

    /// Gives all copies of a block back.
    fn release_block(&mut self, block: &Block, group: u64) -> Result<(), Refusal>
        ensures disks { self.new.disks ≡ self.old.disks }
        ensures out { self.new.out ≡ self.old.out }
        ensures spans { self.new.spans ≡ self.old.spans }
        ensures stray { self.new.stray ≡ self.old.stray }
        ensures due { self.new.due ≡ self.old.due }
        ensures released { OnOk result
            (AreReleased self.old.spaces (copies_of block.now) group self.new.spaces) }
        ensures some { OnErr result
            (AreReleasedInPart self.old.spaces (copies_of block.now) group self.new.spaces) }
        ensures refused { IfErr result (λ refusal. (refusal ≡ Refusal.NoMemory)
            ⊎ ((refusal ≡ Refusal.BadPointer) × IsNotReleasable self.old.spaces
            (copies_of block.now) group self.new.spaces)) }
    {
        let places = places_of(block.copies);
        self.release_places(block, places.as_slice(), group)
    }

    /// Gives copies of a block that lie at these places back.
    fn release_places(&mut self, block: &Block, places: &[Dva], group: u64) -> Result<(), Refusal>
        ensures disks { self.new.disks ≡ self.old.disks }
        ensures out { self.new.out ≡ self.old.out }
        ensures spans { self.new.spans ≡ self.old.spans }
        ensures stray { self.new.stray ≡ self.old.stray }
        ensures due { self.new.due ≡ self.old.due }
        ensures released { OnOk result
            (AreReleased self.old.spaces (copies_of_at block.now places.now) group
            self.new.spaces) }
        ensures some { OnErr result (AreReleasedInPart self.old.spaces
            (copies_of_at block.now places.now) group self.new.spaces) }
        ensures refused { IfErr result (λ refusal. (refusal ≡ Refusal.NoMemory)
            ⊎ ((refusal ≡ Refusal.BadPointer) × IsNotReleasable self.old.spaces
            (copies_of_at block.now places.now) group self.new.spaces)) }
    {
        for place in places {
            self.release_place(block, *place, group)?;
        }
        Ok(())
    }

    /// Gives the copy of a block that lies there back. An error changes nothing.
    fn release_place(&mut self, block: &Block, place: Dva, group: u64) -> Result<(), Refusal>
        ensures disks { self.new.disks ≡ self.old.disks }
        ensures out { self.new.out ≡ self.old.out }
        ensures spans { self.new.spans ≡ self.old.spans }
        ensures stray { self.new.stray ≡ self.old.stray }
        ensures due { self.new.due ≡ self.old.due }
        ensures released { OnOk result (IsReleased self.old.spaces
            (copy_of_at block.now place) group self.new.spaces) }
        ensures err { OnErr result (self.new.spaces ≡ self.old.spaces) }
        ensures refused { IfErr result (λ refusal. (refusal ≡ Refusal.NoMemory)
            ⊎ ((refusal ≡ Refusal.BadPointer)
            × ¬ LiesOn IsInUse self.old.spaces planned block.now.property.sectors place)) }
    {
        if !self.is_in_use(place, block.property.sectors) {
            return Err(Refusal::BadPointer);
        }
        self.give_back(block, place, group)?;
        Ok(())
    }

    /// Gives back a place that is in use. An error, that memory is short, changes nothing.
    fn give_back(&mut self, block: &Block, place: Dva, group: u64) -> Result<(), AllocError>
        requires { LiesOn IsInUse self.old.spaces planned block.now.property.sectors place }
        ensures disks { self.new.disks ≡ self.old.disks }
        ensures out { self.new.out ≡ self.old.out }
        ensures spans { self.new.spans ≡ self.old.spans }
        ensures stray { self.new.stray ≡ self.old.stray }
        ensures due { self.new.due ≡ self.old.due }
        ensures released { OnOk result (IsReleased self.old.spaces
            (copy_of_at block.now place) group self.new.spaces) }
        ensures err { OnErr result (self.new.spaces ≡ self.old.spaces) }
    {
        self.spaces[place.vdev as usize].release(block.property.sectors, place, group)
    }

    /// Whether a copy of a block of so many data sectors may lie there, and all sectors of the place are in use.
    fn is_in_use(&self, place: Dva, sectors: u32) -> bool
        ensures { IsTrue result ↔ LiesOn IsInUse self.now.spaces planned sectors place }
    {
        if sectors == 0 {
            return false;
        }
        if !self.is_place(place, sectors) {
            return false;
        }
        self.is_place_in_use(place, sectors)
    }

    /// Whether all sectors of a place are in use.
    fn is_place_in_use(&self, place: Dva, sectors: u32) -> bool
        requires some { 0 < sectors }
        requires place { IsPlaceIn self.now.spaces sectors place }
        ensures { IsTrue result ↔ LiesOn IsInUse self.now.spaces planned sectors place }
    {
        self.spaces[place.vdev as usize].is_in_use(sectors, place)
    }
}
