//! The space of a vdev.
ghost use Rattle.std.specs.Prelude.{◌≡◌, ◌<◌, ◌^◌, ◌↔◌, IsTrue, OnOk, OnErr, IfOk};
ghost use Rattle.block_store.specs.Shapes.{metaslabs};

use crate::shape::VdevShape;
use block_pointer::Dva;
use metaslab::{MetaslabGroup, Refusal};
use space_map::{FreeSet, Run};
use std::alloc::{AllocError, Global};
use std::marker::Model;

/// The space of a vdev: what the sectors of its metaslabs are used for, by the blocks that are stored and with those of
/// the plan.
#[derive(Drop)]
pub struct VdevMetaslabs {
    shape: VdevShape,
    metaslabs: MetaslabGroup,
}

impl Model for VdevMetaslabs {
    ghost use Rattle.block_store.specs.Spaces.{VdevSpace, IsSpace};

    ghost Value = { VdevSpace };

    ghost view = { λ v. record {
      shape = v.shape;
      kept = v.metaslabs.kept;
      planned = v.metaslabs.planned;
      pins = v.metaslabs.pins;
    } };

    ghost invariant = { λ v. IsSpace (record {
      shape = v.shape;
      kept = v.metaslabs.kept;
      planned = v.metaslabs.planned;
      pins = v.metaslabs.pins;
    }) };
}

impl VdevMetaslabs {
    ghost use Rattle.metaslab.specs.State.{Free, InUse, Released};
    ghost use Rattle.metaslab.specs.Spaces.{ChangesIn, AreSettled, AreSettledInPart};
    ghost use Rattle.std.specs.Bool.{OnTrue, OnFalse};
    ghost use Rattle.block_store.specs.Places.{IsEmpty, HasRoomIn, EachSector, IsFree, run_at};
    ghost use Rattle.block_store.specs.Uses.{IsInUse};
    ghost use Rattle.block_store.specs.Shapes.{metaslab_of, metaslab_sectors, IsPlace};
    ghost use Rattle.metaslab.specs.Calls.{AreUnused};
    ghost use Rattle.metaslab.specs.Maps.{AreWhollyFreeOf, HoldsAt, LoadsAt};
    ghost use Rattle.block_store.specs.Maps.{group_of};
    ghost use Rattle.block_store.specs.Spaces.{IsSpace};

    /// The space of a vdev without blocks.
    pub(crate) fn new(alloc: Global, shape: VdevShape) -> Result<Self, AllocError>
        ensures shape { IfOk result (λ space. space.shape ≡ shape) }
        ensures empty { IfOk result IsEmpty }
    {
        let metaslabs = shape.metaslabs() as usize;
        let sectors = shape.metaslab_sectors();
        Ok(VdevMetaslabs {
            shape,
            metaslabs: MetaslabGroup::new(alloc, metaslabs, sectors)?,
        })
    }

    /// Its metaslabs are as many, and of as many sectors, as its shape says.
    pub(crate) fn is_sized(&self)
        ensures { IsSpace self.now }
    {
        let _ = &self.metaslabs;
    }

    /// The shape of the vdev.
    pub(crate) fn shape(&self) -> VdevShape
        ensures { result ≡ self.now.shape }
    {
        let _ = &self.metaslabs;
        self.shape
    }

    /// How many metaslabs there are.
    pub(crate) fn count(&self) -> usize
        ensures { result ≡ metaslabs self.now.shape }
    {
        let _ = &self.shape;
        self.metaslabs.count()
    }

    /// Whether a block of so many data sectors has room in the metaslab, beside what is planned there.
    pub(crate) fn has_room(&self, metaslab: usize, sectors: u32) -> bool
        requires is_there { metaslab < metaslabs self.now.shape }
        requires some { 0 < sectors }
        ensures { IsTrue result ↔ HasRoomIn self.now metaslab sectors }
    {
        let size = self.shape.vdev.geometry.asize(sectors);
        self.metaslabs.has_room(metaslab, size)
    }

    /// The plan takes a place for a block of so many data sectors in a metaslab that has room. An error, that memory
    /// is short, changes nothing.
    pub(crate) fn take(
        &mut self,
        vdev: usize,
        metaslab: usize,
        sectors: u32,
    ) -> Result<Dva, AllocError>
        requires vdev { vdev < 2 ^ 32 }
        requires is_there { metaslab < metaslabs self.old.shape }
        requires some { 0 < sectors }
        requires room { HasRoomIn self.old metaslab sectors }
        ensures vdev { IfOk result (λ place. place.vdev ≡ vdev) }
        ensures place { IfOk result (λ place. IsPlace self.old.shape sectors place) }
        ensures metaslab { IfOk result (λ place. metaslab_of self.old.shape place ≡ metaslab) }
        ensures taken { IfOk result (λ place. ChangesIn self.old.planned self.new.planned
            (metaslab_of self.old.shape place) (run_at self.old.shape place) Free InUse) }
        ensures rest { self.new ≡ record self.old { planned = self.new.planned } }
        ensures err { OnErr result (self.new ≡ self.old) }
    {
        let size = self.shape.metaslab_sectors();
        let allocated = self.shape.vdev.geometry.asize(sectors);
        let start = match self.metaslabs.allocate(metaslab, allocated) {
            Ok(start) => start,
            Err(Refusal::NoMemory) => return Err(AllocError),
            Err(Refusal::NoSpace) => unreachable!(),
        };
        Ok(Dva {
            vdev: vdev as u32,
            offset: metaslab as u64 * size + start,
            allocated: allocated as u32,
        })
    }

    /// Whether all sectors of a place are in use, beside what is planned.
    pub(crate) fn is_in_use(&self, sectors: u32, place: Dva) -> bool
        requires some { 0 < sectors }
        requires is_place { IsPlace self.now.shape sectors place }
        ensures { IsTrue result ↔ EachSector IsInUse self.now.planned self.now.shape place }
    {
        let run = self.run_at(place);
        self.metaslabs
            .is_in_use(self.shape.metaslab_of(place) as usize, run)
    }

    /// Takes in a place where a copy of a block of so many data sectors lies already: its sectors were free, without what is
    /// planned and with it, and are in use from now on. `false` where they were not. Neither `false` nor an error, that memory
    /// is short, changes anything.
    pub(crate) fn take_in(&mut self, sectors: u32, place: Dva) -> Result<bool, AllocError>
        requires some { 0 < sectors }
        requires is_place { IsPlace self.old.shape sectors place }
        ensures free { IfOk result (λ is_free. IsTrue is_free
            ↔ (EachSector IsFree self.old.kept self.old.shape place
            × EachSector IsFree self.old.planned self.old.shape place)) }
        ensures kept { IfOk result (λ is_free. OnTrue is_free
            (ChangesIn self.old.kept self.new.kept
            (metaslab_of self.old.shape place) (run_at self.old.shape place) Free InUse)) }
        ensures planned { IfOk result (λ is_free. OnTrue is_free
            (ChangesIn self.old.planned self.new.planned
            (metaslab_of self.old.shape place) (run_at self.old.shape place) Free InUse)) }
        ensures left { IfOk result (λ is_free. OnFalse is_free (self.new ≡ self.old)) }
        ensures rest { self.new
            ≡ record self.old { kept = self.new.kept; planned = self.new.planned } }
        ensures err { OnErr result (self.new ≡ self.old) }
    {
        let run = self.run_at(place);
        let metaslab = self.shape.metaslab_of(place) as usize;
        self.metaslabs.take_in(metaslab, run)
    }

    /// The sectors of a place in its metaslab.
    fn run_at(&self, place: Dva) -> Run
        ensures { result ≡ run_at self.now.shape place }
    {
        let _ = &self.metaslabs;
        Run {
            start: place.offset % self.shape.metaslab_sectors(),
            len: u64::from(place.allocated),
        }
    }

    /// Gives the sectors of a place back with the planned group. An error, that memory is short, changes nothing.
    pub(crate) fn release(&mut self, sectors: u32, place: Dva, group: u64) -> Result<(), AllocError>
        requires some { 0 < sectors }
        requires is_place { IsPlace self.old.shape sectors place }
        requires in_use { EachSector IsInUse self.old.planned self.old.shape place }
        ensures released { OnOk result (ChangesIn self.old.planned self.new.planned
            (metaslab_of self.old.shape place) (run_at self.old.shape place)
            InUse (Released group)) }
        ensures rest { self.new ≡ record self.old { planned = self.new.planned } }
        ensures err { OnErr result (self.new ≡ self.old) }
    {
        let run = self.run_at(place);
        let metaslab = self.shape.metaslab_of(place) as usize;
        self.metaslabs.release(metaslab, run, group)
    }

    /// Drops the blocks of the plan, and makes free what is due to a group. After an error, that memory is short, that was
    /// done in some metaslabs and not in others.
    pub(crate) fn settle(&mut self, group: u64) -> Result<(), AllocError>
        ensures settled { OnOk result
            (AreSettled self.old.pins group self.old.kept self.new.kept) }
        ensures some { AreSettledInPart self.old.pins group self.old.kept self.new.kept }
        ensures rest { self.new
            ≡ record self.old { kept = self.new.kept; planned = self.new.kept } }
    {
        let _ = &self.shape;
        self.metaslabs.settle(group)
    }

    /// Takes the blocks of the plan as blocks that are there.
    pub(crate) fn keep_planned(&mut self)
        ensures { self.new ≡ record self.old { kept = self.old.planned } }
    {
        let _ = &self.shape;
        self.metaslabs.keep_planned();
    }

    /// Drops the blocks of the plan.
    pub(crate) fn drop_planned(&mut self)
        ensures { self.new ≡ record self.old { planned = self.old.kept } }
    {
        let _ = &self.shape;
        self.metaslabs.drop_planned();
    }

    /// All sectors of a metaslab that are not in use without the plan.
    pub(crate) fn unused_before(&self, metaslab: usize) -> Result<FreeSet, AllocError>
        requires { metaslab < metaslabs self.now.shape }
        ensures unused { IfOk result (λ free.
            HoldsAt (λ both. AreUnused both.kept free) (group_of self.now) metaslab) }
        ensures sectors { IfOk result (λ free. free.sectors ≡ metaslab_sectors self.now.shape) }
    {
        let _ = &self.shape;
        self.metaslabs.unused_before(metaslab)
    }

    /// All sectors of a metaslab that are not in use with the plan.
    pub(crate) fn unused(&self, metaslab: usize) -> Result<FreeSet, AllocError>
        requires { metaslab < metaslabs self.now.shape }
        ensures unused { IfOk result (λ free.
            HoldsAt (λ both. AreUnused both.planned free) (group_of self.now) metaslab) }
        ensures sectors { IfOk result (λ free. free.sectors ≡ metaslab_sectors self.now.shape) }
    {
        let _ = &self.shape;
        self.metaslabs.unused(metaslab)
    }

    /// Takes in the free set that a metaslab's space map leaves, if the metaslab is wholly free and has as many sectors.
    /// `false` changes nothing.
    pub(crate) fn load(&mut self, metaslab: usize, free: FreeSet) -> bool
        requires { metaslab < metaslabs self.old.shape }
        ensures free { IsTrue result
            ↔ HoldsAt (AreWhollyFreeOf free.sectors) (group_of self.old) metaslab }
        ensures size { OnTrue result (free.sectors ≡ metaslab_sectors self.old.shape) }
        ensures loaded { OnTrue result
            (LoadsAt (group_of self.old) metaslab free (group_of self.new)) }
        ensures left { OnFalse result (self.new ≡ self.old) }
        ensures shape { self.new.shape ≡ self.old.shape }
    {
        let _ = &self.shape;
        self.metaslabs.load(metaslab, free)
    }
}
