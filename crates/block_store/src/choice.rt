//! The choice of places for the copies of a block.
ghost use Rattle.std.specs.Prelude.{◌≡◌, ◌≤◌, ◌<◌, ◌^◌, ◌↔◌, ℕ, Some, IsTrue, IfSome, IfNone, IfOk, IfErr, length, slice_get};
ghost use Rattle.block_store.specs.Places.{IsInVdev, IsInMetaslab, HasRoomIn, MayTake, NoPlaceIsLeft};
ghost use Rattle.block_store.specs.Shapes.{metaslabs, IsInRegion};

use crate::refusal::Refusal;
use crate::shape::VdevShape;
use crate::space::VdevMetaslabs;
use crate::store::BlockStore;
use arrayvec::ArrayVec;
use block_pointer::Dva;
use model_disk::Disk;
use std::alloc::AllocError;

/// Where a further copy may not go.
#[derive(Clone, Copy, PartialEq, Eq)]
pub(crate) enum Spread {
    /// To a vdev that has one.
    Vdevs,
    /// To a metaslab that has one.
    Metaslabs,
    /// It may go anywhere.
    Anywhere,
}

fn is_in_vdev(taken: &[Dva], vdev: usize) -> bool
    ensures { IsTrue result ↔ IsInVdev taken.now vdev }
{
    taken.iter().any(|place| place.vdev as usize == vdev)
}

fn is_in_metaslab(shape: VdevShape, taken: &[Dva], vdev: usize, metaslab: usize) -> bool
    ensures { IsTrue result ↔ IsInMetaslab shape taken.now vdev metaslab }
{
    taken.iter().any(|place| place.vdev as usize == vdev
        && shape.metaslab_of(*place) == metaslab as u64)
}

fn may_take(shape: VdevShape, taken: &[Dva], vdev: usize, metaslab: usize, spread: Spread) -> bool
    ensures { IsTrue result ↔ MayTake shape taken.now vdev metaslab spread }
{
    match spread {
        Spread::Vdevs => !is_in_vdev(taken, vdev),
        Spread::Metaslabs => !is_in_metaslab(shape, taken, vdev, metaslab),
        Spread::Anywhere => true,
    }
}

/// Whether no metaslab of a vdev may be taken, since another copy lies in the vdev.
fn is_barred(taken: &[Dva], vdev: usize, spread: Spread) -> bool
    ensures { IsTrue result → (shape : VdevShape) (metaslab : ℕ)
        → ¬ MayTake shape taken.now vdev metaslab spread }
{
    match spread {
        Spread::Vdevs => is_in_vdev(taken, vdev),
        Spread::Metaslabs | Spread::Anywhere => false,
    }
}

/// What a copy of a block wants of its place.
#[derive(Clone, Copy)]
pub(crate) struct Wanted {
    pub sectors: u32,
    /// How many copies the block has.
    pub copies: usize,
    pub spread: Spread,
}

impl VdevMetaslabs {
    /// A metaslab of the region for the block that has room and may be taken: the first from the one on where the search begins, or else
    /// the first before it.
    fn find_metaslab(
        &self,
        start: usize,
        vdev: usize,
        wanted: Wanted,
        taken: &[Dva],
    ) -> Option<usize>
        requires { 0 < wanted.sectors }
        ensures is_there { IfSome result (λ metaslab. metaslab < metaslabs self.now.shape) }
        ensures room { IfSome result (λ metaslab. HasRoomIn self.now metaslab wanted.sectors) }
        ensures region { IfSome result (λ metaslab.
            IsInRegion self.now.shape wanted.copies metaslab) }
        ensures may { IfSome result (λ metaslab.
            MayTake self.now.shape taken.now vdev metaslab wanted.spread) }
        ensures none { IfNone result ((metaslab : ℕ) → metaslab < metaslabs self.now.shape
            → HasRoomIn self.now metaslab wanted.sectors
            → IsInRegion self.now.shape wanted.copies metaslab
            → ¬ MayTake self.now.shape taken.now vdev metaslab wanted.spread) }
    {
        if is_barred(taken, vdev, wanted.spread) {
            return None;
        }
        let count = self.count();
        let start = start.min(count);
        if let Some(metaslab) = self.find_between(start, count, vdev, wanted, taken) {
            return Some(metaslab);
        }
        self.find_between(0, start, vdev, wanted, taken)
    }

    /// The first such metaslab from `first` on and before `end`.
    fn find_between(
        &self,
        first: usize,
        end: usize,
        vdev: usize,
        wanted: Wanted,
        taken: &[Dva],
    ) -> Option<usize>
        requires some { 0 < wanted.sectors }
        requires end { end ≤ metaslabs self.now.shape }
        ensures is_there { IfSome result (λ metaslab. metaslab < metaslabs self.now.shape) }
        ensures room { IfSome result (λ metaslab. HasRoomIn self.now metaslab wanted.sectors) }
        ensures region { IfSome result (λ metaslab.
            IsInRegion self.now.shape wanted.copies metaslab) }
        ensures may { IfSome result (λ metaslab.
            MayTake self.now.shape taken.now vdev metaslab wanted.spread) }
        ensures none { IfNone result ((metaslab : ℕ) → first ≤ metaslab → metaslab < end
            → HasRoomIn self.now metaslab wanted.sectors
            → IsInRegion self.now.shape wanted.copies metaslab
            → ¬ MayTake self.now.shape taken.now vdev metaslab wanted.spread) }
    {
        let shape = self.shape();
        for metaslab in first..end {
            // Its free runs are searched last, where nothing else speaks against the metaslab.
            if shape.is_in_region(wanted.copies, metaslab as u64)
                && may_take(shape, taken, vdev, metaslab, wanted.spread)
                && self.has_room(metaslab, wanted.sectors)
            {
                return Some(metaslab);
            }
        }
        None
    }
}

impl<D: Disk + Drop> BlockStore<D> {
    ghost use Rattle.std.specs.Prelude.{[], ◌⊎◌, OnErr};
    ghost use Rattle.block_store.specs.Places.{IsFound, NoneIsFound, HasRoomFor, GoesTo, HasRoomAt, IsTakenIn, AreChosen, TookSome, RanOut};

    /// A vdev, and a metaslab of its region for the block, that has room and may be taken.
    fn find_place(&self, wanted: Wanted, taken: &[Dva]) -> Option<(usize, usize)>
        requires { 0 < wanted.sectors }
        ensures some { IfSome result (λ at. IsFound self.now.spaces taken.now wanted.sectors
            wanted.copies wanted.spread at.0 at.1) }
        ensures none { IfNone result
            (NoneIsFound self.now.spaces taken.now wanted.sectors wanted.copies wanted.spread) }
    {
        let count = self.spaces.len();
        let start = self.cursors.vdev.min(count);
        if let Some(place) = self.find_on(start, count, wanted, taken) {
            return Some(place);
        }
        self.find_on(0, start, wanted, taken)
    }

    /// On the vdevs from `first` on and before `end`.
    fn find_on(
        &self,
        first: usize,
        end: usize,
        wanted: Wanted,
        taken: &[Dva],
    ) -> Option<(usize, usize)>
        requires some { 0 < wanted.sectors }
        requires end { end ≤ length self.now.spaces }
        ensures some { IfSome result (λ at. IsFound self.now.spaces taken.now wanted.sectors
            wanted.copies wanted.spread at.0 at.1) }
        ensures none { IfNone result ((v metaslab : ℕ) → first ≤ v → v < end
            → (there : HasRoomFor self.now.spaces wanted.sectors wanted.copies v metaslab)
            → ¬ MayTake there.room.space.shape taken.now v metaslab wanted.spread) }
    {
        for vdev in first..end {
            let start = self.cursors.metaslab(vdev, wanted.copies);
            if let Some(metaslab) = self.spaces[vdev].find_metaslab(start, vdev, wanted, taken) {
                return Some((vdev, metaslab));
            }
        }
        None
    }

    /// The vdev and the metaslab for a further copy, of so many, of a block, in the region for it: another vdev than those
    /// that were taken where one has room, else another metaslab where one has.
    fn choose(&self, sectors: u32, copies: usize, taken: &[Dva]) -> Option<(usize, usize)>
        requires { 0 < sectors }
        ensures some { IfSome result (λ at.
            GoesTo self.now.spaces taken.now sectors copies at.0 at.1) }
        ensures none { IfNone result (NoPlaceIsLeft self.now.spaces sectors copies) }
    {
        let elsewhere = Wanted {
            sectors,
            copies,
            spread: Spread::Vdevs,
        };
        if let Some(place) = self.find_place(elsewhere, taken) {
            return Some(place);
        }
        let apart = Wanted {
            sectors,
            copies,
            spread: Spread::Metaslabs,
        };
        if let Some(place) = self.find_place(apart, taken) {
            return Some(place);
        }
        let anywhere = Wanted {
            sectors,
            copies,
            spread: Spread::Anywhere,
        };
        self.find_place(anywhere, taken)
    }

    /// The plan takes a place in a metaslab that has room. An error, that memory is short, changes nothing.
    fn take(&mut self, vdev: usize, metaslab: usize, sectors: u32) -> Result<Dva, AllocError>
        requires some { 0 < sectors }
        requires room { HasRoomAt self.old.spaces sectors vdev metaslab }
        ensures disks { self.new.disks ≡ self.old.disks }
        ensures out { self.new.out ≡ self.old.out }
        ensures spans { self.new.spans ≡ self.old.spans }
        ensures stray { self.new.stray ≡ self.old.stray }
        ensures due { self.new.due ≡ self.old.due }
        ensures taken { IfOk result (λ place.
            IsTakenIn self.old.spaces sectors vdev metaslab place self.new.spaces) }
        ensures err { OnErr result (self.new.spaces ≡ self.old.spaces) }
    {
        self.spaces[vdev].take(vdev, metaslab, sectors)
    }

    /// A copy went there, of a block of so many copies: searches after this one begin elsewhere.
    fn move_on(&mut self, vdev: usize, metaslab: usize, copies: usize, is_first: bool)
        ensures { self.new ≡ self.old }
    {
        self.cursors.move_on(vdev, metaslab, copies, is_first);
    }

    /// Places for the copies of a block, which the plan then takes. After a refusal it has taken some of them.
    pub(crate) fn choose_places(
        &mut self,
        sectors: u32,
        copies: usize,
    ) -> Result<ArrayVec<Dva, 3>, Refusal>
        requires some { 0 < sectors }
        requires copies { copies ≤ 3 }
        ensures disks { self.new.disks ≡ self.old.disks }
        ensures out { self.new.out ≡ self.old.out }
        ensures spans { self.new.spans ≡ self.old.spans }
        ensures stray { self.new.stray ≡ self.old.stray }
        ensures due { self.new.due ≡ self.old.due }
        ensures count { IfOk result (λ places. length places.items ≡ copies) }
        ensures chosen { IfOk result (λ places.
            AreChosen self.old.spaces [] sectors copies places.items self.new.spaces) }
        ensures some { OnErr result (TookSome self.old.spaces sectors copies self.new.spaces) }
        ensures refused { IfErr result (λ refusal. (refusal ≡ Refusal.NoMemory)
            ⊎ ((refusal ≡ Refusal.NoSpace)
            × RanOut self.old.spaces sectors copies self.new.spaces)) }
    {
        let mut places = ArrayVec::new();
        for _copy in 0..copies {
            let Some((vdev, metaslab)) = self.choose(sectors, copies, places.as_slice()) else {
                return Err(Refusal::NoSpace);
            };
            let is_first = places.is_empty();
            let place = self.take(vdev, metaslab, sectors)?;
            self.move_on(vdev, metaslab, copies, is_first);
            places.push(place);
        }
        Ok(places)
    }
}
