//! The device calls of a plan.
ghost use Rattle.std.specs.Prelude.{◌≡◌, ◌<◌, ◌∷◌, length, OnOk, IfErr};
ghost use Rattle.model_disk.specs.Call.{write_call, flush_call};
ghost use Rattle.model_disk.specs.Joint.{on};
ghost use Rattle.raidz_io.specs.Writes.{ColumnWrite};
ghost use Rattle.block_store.specs.Laws.{Laws};
ghost use Rattle.block_store.specs.Blocks.{Contents};
ghost use Rattle.block_store.specs.Plans.{KeepsPlans, SparesAllBut};
ghost use Rattle.block_store.specs.Store.{Keeps, KeepsStored, IsOutToo, GoesOut, Spares};

use crate::store::BlockStore;
use disk_set::FailedDisk;
use model_disk::Disk;
use raidz_io::{
    apart_extents_share_no_byte, done_while_others_are_written, other_vdevs_share_no_byte,
    stands_while_kept, stands_while_others_are_written, stands_with_more_absent, writes_are_apart,
};
use std::alloc::{AllocError, Global};
use std::thread::Threads;
use worker_items::Gate;

/// What holds of blocks that are written beside others.
pub(crate) fn blocks_beside_others()
    ensures { Laws }
{
    stands_while_kept();
    apart_extents_share_no_byte();
    other_vdevs_share_no_byte();
    stands_with_more_absent();
    stands_while_others_are_written();
    writes_are_apart();
    done_while_others_are_written();
}

impl<D: Disk + Drop> BlockStore<D> {
    /// Makes the next write that is due. Where it fails, its disk is out from then on.
    pub fn write_next(&mut self) -> Result<(), FailedDisk>
        requires { 0 < length self.old.due }
        ensures starts { self.new.disks.starts ≡ self.old.disks.starts }
        ensures spaces { self.new.spaces ≡ self.old.spaces }
        ensures call { (write : ColumnWrite) × (self.old.due ≡ write ∷ self.new.due)
            × (self.new.disks.calls
            ≡ on write.disk (write_call result write.offset write.bytes)
            ∷ self.old.disks.calls)
            × IfErr result (λ failed. failed.disk ≡ write.disk)
            × IfErr result (λ failed. IsOutToo self.old.out write.disk self.new.out) }
        ensures out { OnOk result (self.new.out ≡ self.old.out) }
        ensures spans { OnOk result (self.new.spans ≡ self.old.spans) }
        ensures stray { self.new.stray ≡ self.old.stray }
        ensures gone { IfErr result (λ failed. GoesOut self.old failed.disk self.new) }

        // Each plan goes on. A disk that goes out keeps each column that stood there, but for
        // the one that the write is of.
        ensures plans { KeepsPlans self.old self.new }
        ensures spares { SparesAllBut self.old self.new }
    {
        blocks_beside_others();
        self.set.write_next()
    }

    /// Makes the parity of what is due, where it is not made, by as many workers: as `DiskSet::make_due` says.
    pub fn make_due<R: Threads + Sync, G: Gate + Sync>(
        &mut self,
        rt: &R,
        alloc: Global,
        gate: &G,
        workers: usize,
    ) -> Result<(), AllocError>
        requires { 0 < workers }
        ensures { self.new ≡ self.old }
    {
        self.set.make_due(rt, alloc, gate, workers)
    }

    /// Makes the parity of what is due, where it is not made, on this thread. It takes no memory.
    pub fn make_due_here(&mut self)
        ensures { self.new ≡ self.old }
    {
        self.set.make_due_here();
    }

    /// Flushes a disk. Where this fails, it is out from then on.
    pub fn flush(&mut self, disk: usize) -> Result<(), FailedDisk>
        requires { disk < length self.old.disks.starts }
        ensures starts { self.new.disks.starts ≡ self.old.disks.starts }
        ensures spaces { self.new.spaces ≡ self.old.spaces }
        ensures due { self.new.due ≡ self.old.due }
        ensures call { self.new.disks.calls
            ≡ on disk (flush_call result) ∷ self.old.disks.calls }
        ensures out { OnOk result (self.new.out ≡ self.old.out) }
        ensures failed { IfErr result (λ failed. failed.disk ≡ disk) }
        ensures out_too { IfErr result (λ failed. IsOutToo self.old.out disk self.new.out) }
        ensures spans { OnOk result (self.new.spans ≡ self.old.spans) }
        ensures stray { self.new.stray ≡ self.old.stray }

        // What it may lack is blocks from the plan's group on: no byte of a disk has changed.
        ensures gone { IfErr result (λ failed. GoesOut self.old disk self.new) }
        ensures spares { (known : Contents) → Spares known self.old self.new }
        ensures keeps { Keeps self.old self.new }
        ensures stores { KeepsStored self.old self.new }
        ensures plans { KeepsPlans self.old self.new }
    {
        blocks_beside_others();
        self.set.flush(disk)
    }

    /// A disk is out from then on, with no call on it. What is due on it stays due, until the plan is dropped.
    pub fn put_out(&mut self, disk: usize)
        requires { disk < length self.old.disks.starts }
        ensures disks { self.new.disks ≡ self.old.disks }
        ensures spaces { self.new.spaces ≡ self.old.spaces }
        ensures due { self.new.due ≡ self.old.due }
        ensures stray { self.new.stray ≡ self.old.stray }
        ensures out { IsOutToo self.old.out disk self.new.out }
        ensures gone { GoesOut self.old disk self.new }

        // All that is stored and planned stays so: what it may lack is blocks from the plan's group on.
        ensures keeps { Keeps self.old self.new }
        ensures stores { KeepsStored self.old self.new }
        ensures plans { KeepsPlans self.old self.new }
    {
        blocks_beside_others();
        self.set.put_out(disk);
    }
}
