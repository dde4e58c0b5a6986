//! Space maps: what those of the last committed group leave free, and those of a plan; and maps that are loaded as a pool is opened.
ghost use Rattle.std.specs.Prelude.{◌≡◌, ◌⊎◌, ◌↔◌, ℕ, List, IsTrue, IfOk, IfErr};
ghost use Rattle.std.specs.Bool.{OnTrue, OnFalse};
ghost use Rattle.metaslab.specs.Maps.{AreWhollyFreeOf};
ghost use Rattle.block_store.specs.Gone.{AreNotReleasable};
ghost use Rattle.block_store.specs.Maps.{HasMetaslab, HasSectors, HoldsIn, LeavesUnused, LoadsIn};
ghost use Rattle.block_store.specs.Maps.{StayElsewhere};
ghost use Rattle.block_store.specs.Places.{shapes_of, filled, planned};
ghost use Rattle.block_store.specs.Plans.{KeepsPlans};
ghost use Rattle.block_store.specs.Releases.{AreReleased, copies_of_all};
ghost use Rattle.block_store.specs.Spaces.{VdevSpace};
ghost use Rattle.block_store.specs.Store.{Keeps, KeepsStored};

use crate::gone::{MetaslabAt, give_back};
use crate::refusal::Refusal;
use crate::store::BlockStore;
use block_pointer::Block;
use model_disk::Disk;
use space_map::FreeSet;
use std::alloc::AllocError;

impl<D: Disk + Drop> BlockStore<D> {
    /// Whether a vdev of that number is there, with a metaslab of that number.
    pub fn has_metaslab(&self, vdev: usize, metaslab: usize) -> bool
        ensures { IsTrue result ↔ HasMetaslab self.now.spaces vdev metaslab }
    {
        match self.spaces.get(vdev) {
            Some(space) => metaslab < space.count(),
            None => false,
        }
    }

    /// All sectors of a metaslab that the stored blocks leave unused, those too that were released and are not free yet: what its
    /// space map leaves free as the last group was committed.
    pub fn unused_before(&self, vdev: usize, metaslab: usize) -> Result<FreeSet, AllocError>
        requires { HasMetaslab self.now.spaces vdev metaslab }
        ensures { IfOk result (LeavesUnused self.now.spaces filled vdev metaslab) }
    {
        self.spaces[vdev].unused_before(metaslab)
    }

    /// The same with the plan, and once it gives back these blocks: what the metaslab's space map leaves free after the plan's
    /// group. Nothing is given back by that. `BadPointer` only where the blocks can't all be given back.
    pub fn unused_after(
        &self,
        vdev: usize,
        metaslab: usize,
        gone: &[Block],
    ) -> Result<FreeSet, Refusal>
        requires { HasMetaslab self.now.spaces vdev metaslab }
        ensures unused { IfOk result (λ free. (after : List VdevSpace) (group : ℕ)
            → AreReleased self.now.spaces (copies_of_all gone.now) group after
            → LeavesUnused after planned vdev metaslab free) }
        ensures sectors { IfOk result (λ free.
            HasSectors self.now.spaces vdev free.sectors) }
        ensures refused { IfErr result (λ refusal. (refusal ≡ Refusal.NoMemory)
            ⊎ ((refusal ≡ Refusal.BadPointer)
            × AreNotReleasable self.now.spaces gone.now)) }
    {
        let mut free = self.unused_planned(vdev, metaslab)?;
        let at = MetaslabAt {
            shape: self.shape(vdev),
            vdev,
            metaslab,
        };
        give_back(&mut free, at, gone)?;
        Ok(free)
    }

    /// The sectors that are unused with the plan.
    fn unused_planned(&self, vdev: usize, metaslab: usize) -> Result<FreeSet, AllocError>
        requires { HasMetaslab self.now.spaces vdev metaslab }
        ensures { IfOk result (LeavesUnused self.now.spaces planned vdev metaslab) }
    {
        self.spaces[vdev].unused(metaslab)
    }

    /// Takes in the free set that a metaslab's space map leaves, in place of the blocks that lie there: all its other
    /// sectors are in use from now on. `false`, which changes nothing, where some sector of the metaslab isn't free as the
    /// call begins, or the set is of a metaslab with more sectors or fewer.
    pub fn load_map(&mut self, vdev: usize, metaslab: usize, free: FreeSet) -> bool
        requires { HasMetaslab self.old.spaces vdev metaslab }
        ensures free { IsTrue result
            ↔ HoldsIn (AreWhollyFreeOf free.sectors) self.old.spaces vdev metaslab }
        ensures loaded { OnTrue result
            (LoadsIn self.old.spaces vdev metaslab free self.new.spaces) }
        ensures left { OnFalse result (self.new ≡ self.old) }
        ensures rest { self.new ≡ record self.old { spaces = self.new.spaces } }
        ensures shapes { shapes_of self.new.spaces ≡ shapes_of self.old.spaces }

        // What other metaslabs are used for stays, without what is planned and with it. So does each block that is stored
        // or planned: none lies where all was free.
        ensures filled { StayElsewhere filled self.old.spaces vdev metaslab self.new.spaces }
        ensures planned { StayElsewhere planned self.old.spaces vdev metaslab self.new.spaces }
        ensures keeps { Keeps self.old self.new }
        ensures stores { KeepsStored self.old self.new }
        ensures plans { KeepsPlans self.old self.new }
    {
        self.load_space(vdev, metaslab, free)
    }

    /// The same, by what becomes of the spaces.
    fn load_space(&mut self, vdev: usize, metaslab: usize, free: FreeSet) -> bool
        requires { HasMetaslab self.old.spaces vdev metaslab }
        ensures free { IsTrue result
            ↔ HoldsIn (AreWhollyFreeOf free.sectors) self.old.spaces vdev metaslab }
        ensures loaded { OnTrue result
            (LoadsIn self.old.spaces vdev metaslab free self.new.spaces) }
        ensures left { OnFalse result (self.new ≡ self.old) }
        ensures rest { self.new ≡ record self.old { spaces = self.new.spaces } }
    {
        self.spaces[vdev].load(metaslab, free)
    }
}
