//! Writes of labels and uberblocks, beside the sectors of blocks.
ghost use Rattle.std.specs.Prelude.{◌≡◌, ◌<◌, ◌≤◌, ◌+◌, ◌∷◌, length, OnOk, IfErr};
ghost use Rattle.model_disk.specs.Call.{write_call};
ghost use Rattle.model_disk.specs.Joint.{on, bytes_of};
ghost use Rattle.block_store.specs.Elsewhere.{IsAside};
ghost use Rattle.block_store.specs.Plans.{KeepsPlans};
ghost use Rattle.block_store.specs.Store.{Keeps, KeepsStored, IsOutToo, GoesOut};

use crate::device::blocks_beside_others;
use crate::store::BlockStore;
use disk_set::FailedDisk;
use model_disk::Disk;

impl<D: Disk + Drop> BlockStore<D> {
    /// Writes bytes of a disk that no block may lie on, as those of a label or an uberblock: offset and length in bytes. Where
    /// it fails the disk is out from then on.
    pub fn write_aside(&mut self, disk: usize, offset: u64, bytes: &[u8]) -> Result<(), FailedDisk>
        requires there { disk < length self.old.disks.starts }
        requires within { offset + length bytes.now ≤ length (bytes_of self.old.disks.starts disk) }
        requires aside { IsAside self.old.spaces disk offset (length bytes.now) }
        ensures starts { self.new.disks.starts ≡ self.old.disks.starts }
        ensures spaces { self.new.spaces ≡ self.old.spaces }
        ensures due { self.new.due ≡ self.old.due }
        ensures stray { self.new.stray ≡ self.old.stray }
        ensures call { self.new.disks.calls
            ≡ on disk (write_call result offset bytes.now) ∷ self.old.disks.calls }
        ensures out { OnOk result (self.new.out ≡ self.old.out) }
        ensures failed { IfErr result (λ failed. failed.disk ≡ disk) }
        ensures out_too { IfErr result (λ failed. IsOutToo self.old.out disk self.new.out) }
        ensures spans { OnOk result (self.new.spans ≡ self.old.spans) }
        ensures gone { IfErr result (λ failed. GoesOut self.old disk self.new) }

        // All that is stored and planned stays so, also on a disk that goes out.
        ensures keeps { Keeps self.old self.new }
        ensures stores { KeepsStored self.old self.new }
        ensures plans { KeepsPlans self.old self.new }
    {
        blocks_beside_others();
        self.set.write_at(disk, offset, bytes)
    }
}
