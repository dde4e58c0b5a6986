//! Disks that come back.
ghost use Rattle.std.specs.Prelude.{◌≡◌, ◌<◌, ◌≤◌, ◌+◌, ◌∷◌, length, OnOk, OnErr};
ghost use Rattle.model_disk.specs.Call.{read_call};
ghost use Rattle.model_disk.specs.Joint.{on, bytes_of};
ghost use Rattle.block_store.specs.Blocks.{Contents};
ghost use Rattle.block_store.specs.Plans.{KeepsPlans, Plans};
ghost use Rattle.block_store.specs.Store.{Holds, IsInUseToo, Keeps, KeepsStored, LacksOnly, MissedThese, Stores};

use crate::device::blocks_beside_others;
use crate::store::BlockStore;
use disk_set::GroupSpan;
use model_disk::{Disk, DiskError};
use std::alloc::AllocError;

impl<D: Disk + Drop> BlockStore<D> {
    /// Fills the buffer with the bytes of a disk from this byte of it on, also where the disk is out: so its labels are read before it
    /// comes back. After an error it may hold anything.
    pub fn read_aside(
        &mut self,
        disk: usize,
        offset: u64,
        buffer: &mut [u8],
    ) -> Result<(), DiskError>
        requires there { disk < length self.old.disks.starts }
        requires within { offset + length buffer.old
            ≤ length (bytes_of self.old.disks.starts disk) }
        ensures rest { self.new ≡ record self.old { disks = self.new.disks } }
        ensures starts { self.new.disks.starts ≡ self.old.disks.starts }
        ensures call { self.new.disks.calls
            ≡ on disk (read_call result offset buffer.new) ∷ self.old.disks.calls }
        ensures keeps { Keeps self.old self.new }
        ensures stores { KeepsStored self.old self.new }
        ensures plans { KeepsPlans self.old self.new }
    {
        blocks_beside_others();
        self.set.read_at(disk, offset, buffer)
    }

    /// A disk is in use from then on, with no call on it. It missed these transaction groups: it is lost for blocks that were born
    /// in them, and for no others. Without memory nothing changes.
    pub fn bring_back(&mut self, disk: usize, missed: Option<GroupSpan>) -> Result<(), AllocError>
        requires { disk < length self.old.disks.starts }
        ensures disks { self.new.disks ≡ self.old.disks }
        ensures spaces { self.new.spaces ≡ self.old.spaces }
        ensures due { self.new.due ≡ self.old.due }
        ensures stray { self.new.stray ≡ self.old.stray }
        ensures out { OnOk result (IsInUseToo self.old.out disk self.new.out) }
        ensures spans { OnOk result (MissedThese self.old.spans disk missed self.new.spans) }
        ensures err { OnErr result (self.new ≡ self.old) }

        // What is stored stays so, where the disk lacks nothing else of it, and so does a plan
        // that adds nothing.
        ensures holds { OnOk result ((stored : Contents) → LacksOnly self.old disk missed stored
            → Holds self.old stored → Holds self.new stored) }
        ensures stores { OnOk result ((stored : Contents) → LacksOnly self.old disk missed stored
            → Stores self.old stored → Stores self.new stored) }
        ensures plans { OnOk result ((stored : Contents) → LacksOnly self.old disk missed stored
            → Plans self.old stored stored → Plans self.new stored stored) }
    {
        blocks_beside_others();
        self.set.bring_back(disk, missed)
    }
}
