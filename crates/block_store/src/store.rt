//! The store.
ghost use Rattle.std.specs.Prelude.{◌≡◌, ◌+◌, ◌<◌, ◌≤◌, length, slice_get, slice_index, Some, None, if◌then◌else◌, option_map, All};
ghost use Rattle.model_disk.specs.Joint.{bytes_of};
ghost use Rattle.block_store.specs.Spaces.{IsSpace};
ghost use Rattle.block_store.specs.Store.{is_out};

use crate::cursor::Cursors;
use crate::shape::VdevShape;
use crate::space::VdevMetaslabs;
use disk_set::DiskSet;
use model_disk::Disk;
use std::marker::Model;

/// Blocks on the vdevs of a pool, and a plan of those that are to be written.
///
/// A plan begins with `drop_plan`, which is told its transaction group. Each `plan_write` places a block and names the
/// writes that store it, which are then due. `write_next` makes the next of them. Once none is due, `finish_plan` takes
/// the blocks of the plan as stored. A plan is dropped by the next `drop_plan`: what it placed is free again.
///
/// A disk that fails a write or a flush is out: no call is made on it when a block is read, and no write is planned for
/// it. It is out since the group of that plan. Of blocks that were born before, it still has every column, whatever
/// failed: the write that failed is of a block of the plan.
#[derive(Drop)]
pub struct BlockStore<D: Disk + Drop> {
    /// The disks, which of them are out, and the writes of the plan that are due.
    pub(crate) set: DiskSet<D>,
    pub(crate) spaces: Vec<VdevMetaslabs>,
    /// Whether a block may have taken places and then not have been planned: these are in use until the plan is dropped.
    pub(crate) stray: bool,
    pub(crate) cursors: Cursors,
}

impl<D: Disk + Drop> Model for BlockStore<D> {
    ghost use Rattle.block_store.specs.Store.{Store, IsStore};

    ghost Value = { Store };

    ghost view = { λ s. record {
      disks = s.set.disks;
      spaces = s.spaces.items;
      out = s.set.out;
      spans = s.set.spans;
      due = s.set.due;
      stray = s.stray;
    } };

    ghost invariant = { λ s. IsStore (record {
      disks = s.set.disks;
      spaces = s.spaces.items;
      out = s.set.out;
      spans = s.set.spans;
      due = s.set.due;
      stray = s.stray;
    }) };
}

impl<D: Disk + Drop> BlockStore<D> {
    /// How many disks there are.
    pub fn disk_count(&self) -> usize
        ensures starts { result ≡ length self.now.disks.starts }
        ensures out { result ≡ length self.now.out }
    {
        self.set.len()
    }

    /// How many bytes a disk has.
    pub fn disk_size(&self, disk: usize) -> u64
        requires { disk < length self.now.disks.starts }
        ensures { result ≡ length (bytes_of self.now.disks.starts disk) }
    {
        self.set.size(disk)
    }

    /// Whether a disk is out: it failed a write or a flush.
    pub fn is_out(&self, disk: usize) -> bool
        ensures { result ≡ is_out self.now.out disk }
    {
        self.set.is_out(disk)
    }

    /// Of a disk that is out, the first transaction group whose blocks it may lack. What was stored before that group is
    /// still on it.
    pub fn out_since(&self, disk: usize) -> Option<u64>
        ensures { result
            ≡ (if is_out self.now.out disk then Some
            (slice_index self.now.spans.since disk) else None) }
    {
        self.set.out_since(disk)
    }

    /// How many vdevs there are.
    pub fn vdev_count(&self) -> usize
        ensures count { result ≡ length self.now.spaces }
        ensures few { result ≤ 8 }
    {
        self.spaces.len()
    }

    /// The metaslabs of each vdev are as many, and of as many sectors, as its shape says.
    pub fn are_sized(&self)
        ensures { All IsSpace self.now.spaces }
    {
        for space in &self.spaces {
            space.is_sized();
        }
    }

    /// The shape of a vdev.
    pub fn shape(&self, vdev: usize) -> VdevShape
        requires { vdev < length self.now.spaces }
        ensures shape { option_map (λ space. space.shape) (slice_get self.now.spaces vdev)
            ≡ Some result }
        ensures disks { result.vdev.first + result.vdev.geometry.children
            ≤ length self.now.disks.starts }
    {
        self.spaces[vdev].shape()
    }

    /// Whether a block may have taken places that no block of the plan has: one was refused, and the plan was not dropped since.
    pub fn has_strays(&self) -> bool
        ensures { result ≡ self.now.stray }
    {
        self.stray
    }

    /// How many writes of the plan are due.
    pub fn due_count(&self) -> usize
        ensures { result ≡ length self.now.due }
    {
        self.set.due_count()
    }
}
