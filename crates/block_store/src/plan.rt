//! Plans of blocks that are to be written.
ghost use Rattle.std.specs.Prelude.{◌≡◌, false, true, ◌≤◌, ◌<◌, ◌+◌, ◌*◌, ◌⊎◌, filter, not, length, [], ◌++◌, OnOk, OnErr, IfOk, IfErr};
ghost use Rattle.block_pointer.specs.Block.{FitsBlock};
ghost use Rattle.block_pointer.specs.Copies.{dvas};
ghost use Rattle.raidz_io.specs.Places.{CanHold, IsOnDisks};
ghost use Rattle.block_store.specs.Blocks.{Contents, FitsNew, IsBlockOf, count_of};
ghost use Rattle.block_store.specs.Places.{shapes_of, filled, planned, HaveMarks, AreChosen, TookSome, RanOut, IsPlaceIn, ArePlacesIn, IsExtentAt};
ghost use Rattle.block_store.specs.Plans.{Plans, KeepsPlans, PlansToo, MoreIsDue, AreWritesAt};
ghost use Rattle.block_store.specs.Store.{Keeps, KeepsStored, Stores, is_out, in_group, reaching};

use crate::block::{CopyCount, NewBlock};
use crate::refusal::Refusal;
use crate::space::VdevMetaslabs;
use crate::store::BlockStore;
use block_pointer::{Block, Copies, Dva};
use model_disk::Disk;
use raidz_io::{ColumnWrite, Extent, extent_fits};
use sha2::{Digest, Sha256};
use std::alloc::{AllocError, Global};
use std::collections::VecDeque;
use std::sync::Arc;

impl CopyCount {
    /// The number of copies.
    pub fn count(self) -> usize
        ensures some { 1 ≤ result }
        ensures few { result ≤ 3 }
        ensures value { result ≡ count_of self }
    {
        match self {
            CopyCount::One => 1,
            CopyCount::Two => 2,
            CopyCount::Three => 3,
        }
    }
}

/// The places as the copies of a block.
fn copies_at(places: &[Dva]) -> Copies
    requires some { 1 ≤ length places.now }
    requires few { length places.now ≤ 3 }
    ensures { dvas result ≡ places.now }
{
    match places.len() {
        1 => Copies::One(places[0]),
        2 => Copies::Two(places[0], places[1]),
        _ => Copies::Three(places[0], places[1], places[2]),
    }
}

/// Takes the blocks of the plan as blocks that are there, in each vdev.
fn keep_plans(spaces: &mut Vec<VdevMetaslabs>)
    ensures count { length spaces.new.items ≡ length spaces.old.items }
    ensures shapes { shapes_of spaces.new.items ≡ shapes_of spaces.old.items }
    ensures filled { HaveMarks spaces.old.items planned spaces.new.items filled }
    ensures planned { HaveMarks spaces.old.items planned spaces.new.items planned }
{
    for vdev in 0..spaces.len() {
        spaces[vdev].keep_planned();
    }
}

/// Drops the blocks of the plan, in each vdev.
fn drop_plans(spaces: &mut Vec<VdevMetaslabs>)
    ensures count { length spaces.new.items ≡ length spaces.old.items }
    ensures shapes { shapes_of spaces.new.items ≡ shapes_of spaces.old.items }
    ensures filled { HaveMarks spaces.old.items filled spaces.new.items filled }
    ensures planned { HaveMarks spaces.old.items filled spaces.new.items planned }
{
    for vdev in 0..spaces.len() {
        spaces[vdev].drop_planned();
    }
}

impl<D: Disk + Drop> BlockStore<D> {
    /// Begins a plan of a transaction group, and drops the one before it. Nothing is due. It takes no memory. A disk that fails from then on
    /// may lack blocks that were born in that group or later.
    pub fn drop_plan(&mut self, group: u64)
        ensures disks { self.new.disks ≡ self.old.disks }
        ensures out { self.new.out ≡ self.old.out }
        ensures spans { self.new.spans ≡ in_group self.old.spans group }
        ensures shapes { shapes_of self.new.spaces ≡ shapes_of self.old.spaces }
        ensures due { self.new.due ≡ [] }
        ensures stray { self.new.stray ≡ false }

        // The places of the plan that is dropped are free again.
        ensures filled { HaveMarks self.old.spaces filled self.new.spaces filled }
        ensures free { HaveMarks self.old.spaces filled self.new.spaces planned }

        // What is stored stays so, and nothing else is planned.
        ensures plans { (stored : Contents)
            → Stores self.old stored → Plans self.new stored stored }
        ensures keeps { Keeps self.old self.new }
    {
        self.enter(group);
        self.clear_plan();
    }

    /// Drops what is planned and due.
    fn clear_plan(&mut self)
        ensures disks { self.new.disks ≡ self.old.disks }
        ensures out { self.new.out ≡ self.old.out }
        ensures spans { self.new.spans ≡ self.old.spans }
        ensures stray { self.new.stray ≡ false }
        ensures shapes { shapes_of self.new.spaces ≡ shapes_of self.old.spaces }
        ensures due { self.new.due ≡ [] }
        ensures filled { HaveMarks self.old.spaces filled self.new.spaces filled }
        ensures free { HaveMarks self.old.spaces filled self.new.spaces planned }
        ensures plans { (stored : Contents)
            → Stores self.old stored → Plans self.new stored stored }
        ensures keeps { Keeps self.old self.new }
    {
        self.set.drop_due();
        self.stray = false;
        drop_plans(&mut self.spaces);
    }

    /// The plan's group is that one: a disk that goes out from then on may lack blocks that were born in it or later. Behind a plan
    /// that has ended, the next group is entered so, before another plan begins. It takes no memory.
    pub fn enter(&mut self, group: u64)
        ensures disks { self.new.disks ≡ self.old.disks }
        ensures out { self.new.out ≡ self.old.out }
        ensures spaces { self.new.spaces ≡ self.old.spaces }
        ensures due { self.new.due ≡ self.old.due }
        ensures stray { self.new.stray ≡ self.old.stray }
        ensures spans { self.new.spans ≡ in_group self.old.spans group }
        ensures keeps { Keeps self.old self.new }
        ensures stores { KeepsStored self.old self.new }
    {
        self.set.enter(group);
    }

    /// A block of the plan is born then.
    fn reach(&mut self, birth: u64)
        ensures disks { self.new.disks ≡ self.old.disks }
        ensures out { self.new.out ≡ self.old.out }
        ensures spaces { self.new.spaces ≡ self.old.spaces }
        ensures due { self.new.due ≡ self.old.due }
        ensures stray { self.new.stray ≡ self.old.stray }
        ensures spans { self.new.spans ≡ reaching self.old.spans birth }
        ensures born { self.new.spans.group ≤ birth }
        ensures keeps { Keeps self.old self.new }
        ensures plans { KeepsPlans self.old self.new }
    {
        if birth < self.set.group() {
            self.enter(birth);
        }
    }

    /// Ends a plan of which nothing is due: its blocks are stored.
    pub fn finish_plan(&mut self)
        ensures disks { self.new.disks ≡ self.old.disks }
        ensures out { self.new.out ≡ self.old.out }
        ensures spans { self.new.spans ≡ self.old.spans }
        ensures stray { self.new.stray ≡ self.old.stray }
        ensures shapes { shapes_of self.new.spaces ≡ shapes_of self.old.spaces }
        ensures due { self.new.due ≡ self.old.due }
        ensures filled { HaveMarks self.old.spaces planned self.new.spaces filled }
        ensures planned { HaveMarks self.old.spaces planned self.new.spaces planned }
        ensures stored { (stored planned : Contents) → Plans self.old stored planned
            → self.old.due ≡ [] → Stores self.new planned }
        ensures keeps { Keeps self.old self.new }
    {
        self.set.is_sound();
        keep_plans(&mut self.spaces);
    }

    /// Adds a block to the plan: it places so many copies, each in another vdev while one has room, then in other
    /// metaslabs, then anywhere apart, and the writes that store them are due. None is to a disk that is out. A block of
    /// three copies is one of the meta object set, and goes to the meta region; all others go to the metaslabs before it.
    /// A block is born in the plan's group or later; one that is not makes the plan's group an earlier one.
    /// Where no metaslab of the region has room for a copy the answer is `NoSpace`.
    pub fn plan_write(
        &mut self,
        alloc: Global,
        bytes: &[u8],
        new: NewBlock,
        copies: CopyCount,
    ) -> Result<Block, Refusal>
        requires fits { FitsNew new }
        requires size { length bytes.now ≡ new.property.sectors * 512 }
        ensures disks { self.new.disks ≡ self.old.disks }
        ensures out { self.new.out ≡ self.old.out }
        ensures spans { self.new.spans ≡ reaching self.old.spans new.birth }
        ensures shapes { shapes_of self.new.spaces ≡ shapes_of self.old.spaces }
        ensures keeps { Keeps self.old self.new }
        ensures stores { KeepsStored self.old self.new }
        ensures block { IfOk result (λ block. IsBlockOf new bytes.now (count_of copies) block) }
        ensures fits { IfOk result FitsBlock }

        // The block is planned, and all others stay.
        ensures planned { IfOk result (λ block. PlansToo self.old self.new block bytes.now) }
        ensures places { IfOk result (λ block.
            AreChosen self.old.spaces [] new.property.sectors (count_of copies)
            (dvas block.copies) self.new.spaces) }
        ensures due { OnOk result (MoreIsDue self.old self.new) }
        ensures stray { OnOk result (self.new.stray ≡ self.old.stray) }
        ensures refused { IfErr result (λ refusal. (refusal ≡ Refusal.NoMemory)
            ⊎ ((refusal ≡ Refusal.NoSpace)
            × RanOut self.old.spaces new.property.sectors (count_of copies) self.new.spaces)) }
        ensures err_spaces { OnErr result
            (TookSome self.old.spaces new.property.sectors (count_of copies) self.new.spaces) }
        ensures err_due { OnErr result (self.new.due ≡ self.old.due) }
        ensures err_stray { OnErr result (self.new.stray ≡ true) }
        ensures err { OnErr result (KeepsPlans self.old self.new) }
    {
        self.reach(new.birth);
        match self.place_block(alloc, bytes, new, copies) {
            Ok(block) => Ok(block),
            Err(refusal) => Err(self.note_stray(refusal)),
        }
    }

    /// Notes that a block may have taken places and was then not planned, for this cause.
    fn note_stray(&mut self, refusal: Refusal) -> Refusal
        ensures result { result ≡ refusal }
        ensures disks { self.new.disks ≡ self.old.disks }
        ensures out { self.new.out ≡ self.old.out }
        ensures spaces { self.new.spaces ≡ self.old.spaces }
        ensures spans { self.new.spans ≡ self.old.spans }
        ensures due { self.new.due ≡ self.old.due }
        ensures stray { self.new.stray ≡ true }
    {
        self.stray = true;
        refusal
    }

    /// Places a block of the plan's group or a later one, and names the writes that store it. After a refusal some places are
    /// taken.
    fn place_block(
        &mut self,
        alloc: Global,
        bytes: &[u8],
        new: NewBlock,
        copies: CopyCount,
    ) -> Result<Block, Refusal>
        requires fits { FitsNew new }
        requires size { length bytes.now ≡ new.property.sectors * 512 }
        requires born { self.old.spans.group ≤ new.birth }
        ensures disks { self.new.disks ≡ self.old.disks }
        ensures out { self.new.out ≡ self.old.out }
        ensures spans { self.new.spans ≡ self.old.spans }
        ensures stray { self.new.stray ≡ self.old.stray }
        ensures shapes { shapes_of self.new.spaces ≡ shapes_of self.old.spaces }
        ensures keeps { Keeps self.old self.new }
        ensures block { IfOk result (λ block. IsBlockOf new bytes.now (count_of copies) block) }
        ensures fits { IfOk result FitsBlock }
        ensures planned { IfOk result (λ block. PlansToo self.old self.new block bytes.now) }
        ensures places { IfOk result (λ block.
            AreChosen self.old.spaces [] new.property.sectors (count_of copies)
            (dvas block.copies) self.new.spaces) }
        ensures due { OnOk result (MoreIsDue self.old self.new) }
        ensures refused { IfErr result (λ refusal. (refusal ≡ Refusal.NoMemory)
            ⊎ ((refusal ≡ Refusal.NoSpace)
            × RanOut self.old.spaces new.property.sectors (count_of copies) self.new.spaces)) }
        ensures err_spaces { OnErr result
            (TookSome self.old.spaces new.property.sectors (count_of copies) self.new.spaces) }
        ensures err_due { OnErr result (self.new.due ≡ self.old.due) }
    {
        let places = self.choose_places(new.property.sectors, copies.count())?;
        let writes = self.writes_at(alloc, places.as_slice(), new.property.sectors, bytes)?;
        let block = Block {
            copies: copies_at(places.as_slice()),
            property: new.property,
            birth: new.birth,
            fill: new.fill,
            checksum: Sha256::digest(bytes),
        };
        self.set.add_due(writes)?;
        Ok(block)
    }

    /// The writes of the copies of a block to these places, but for those to disks that are out. They share one copy of the bytes,
    /// and no parity is made.
    fn writes_at(
        &self,
        alloc: Global,
        places: &[Dva],
        sectors: u32,
        bytes: &[u8],
    ) -> Result<VecDeque<ColumnWrite>, AllocError>
        requires size { length bytes.now ≡ sectors * 512 }
        requires some { 0 < sectors }
        requires places { ArePlacesIn self.now.spaces sectors places.now }
        ensures { IfOk result (λ writes.
            AreWritesAt self.now sectors bytes.now places.now writes.items) }
    {
        let block = Arc::new(alloc, Vec::from_slice(alloc, bytes)?)?;
        let mut writes = VecDeque::new(alloc);
        for place in places {
            let extent = self.extent_at(*place, sectors);
            let copy = extent.column_writes(alloc, &block)?;
            self.add_in_use(copy, &mut writes)?;
        }
        Ok(writes)
    }

    /// The extent of a copy of a block.
    pub(crate) fn extent_at(&self, place: Dva, sectors: u32) -> Extent
        requires some { 0 < sectors }
        requires place { IsPlaceIn self.now.spaces sectors place }
        ensures extent { IsExtentAt self.now.spaces sectors place result }
        ensures fits { CanHold result }
        ensures on_disks { IsOnDisks result self.now.disks.starts }
    {
        extent_fits();
        Extent {
            vdev: self.spaces[place.vdev as usize].shape().vdev,
            start: place.offset,
            sectors,
        }
    }

    /// Adds the writes that are to disks in use.
    fn add_in_use(
        &self,
        copy: Vec<ColumnWrite>,
        writes: &mut VecDeque<ColumnWrite>,
    ) -> Result<(), AllocError>
        ensures { OnOk result (writes.new.items
            ≡ writes.old.items ++ filter (λ write. not
            (is_out self.now.out write.disk)) copy.items) }
    {
        for write in copy {
            if !self.is_out(write.disk()) {
                writes.push_back(write)?;
            }
        }
        Ok(())
    }
}
