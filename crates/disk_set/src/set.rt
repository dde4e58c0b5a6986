//! The set.
ghost use Rattle.std.specs.Prelude.{◌≡◌, ◌<◌, ◌++◌, [], Contains, length, replicate, slice_index, Some, None, if◌then◌else◌, OnOk, OnErr, IfErr, IfOk, false};
ghost use Rattle.model_disk.specs.Joint.{bytes_of};
ghost use Rattle.raidz_io.specs.Stands.{IsWithin};
ghost use Rattle.raidz_io.specs.Writes.{ColumnWrite as DueWrite};
ghost use Rattle.disk_set.specs.Outs.{is_out};
ghost use Rattle.disk_set.specs.Set.{ArePoolDisks};

use crate::stale::GroupSpan;
use model_disk::{Disk, DiskArray};
use raidz_io::ColumnWrite;
use std::alloc::{AllocError, AllocFailed, Global};
use std::collections::VecDeque;
use std::marker::Model;

/// The disks of a pool, by their numbers from 0 on, with the writes of a plan that are due on them, in the plan's order.
///
/// A disk that fails a write or a flush is out from then on. It is out since the group of the plan: of blocks that were born
/// before it still has every column, but for those of groups that it missed before.
#[derive(Drop)]
pub struct DiskSet<D: Disk + Drop> {
    pub(crate) disks: DiskArray<D>,
    pub(crate) out: Vec<bool>,
    /// Of each disk that is out, the first transaction group whose blocks it may lack.
    pub(crate) since: Vec<u64>,
    /// No block of the plan was born before that group.
    pub(crate) group: u64,
    /// Of each disk, the groups that it missed before; of those behind the last one there are none.
    pub(crate) stale: Vec<Option<GroupSpan>>,
    pub(crate) due: VecDeque<ColumnWrite>,
}

impl<D: Disk + Drop> Model for DiskSet<D> {
    ghost use Rattle.disk_set.specs.Set.{ArePoolDisks, PoolDisks};

    ghost Value = { PoolDisks };

    ghost view = { λ s. record {
      disks = s.disks;
      out = s.out.items;
      spans = record { since = s.since.items; group = s.group; stale = s.stale.items };
      due = s.due.items;
    } };

    ghost invariant = { λ s. ArePoolDisks (record {
      disks = s.disks;
      out = s.out.items;
      spans = record { since = s.since.items; group = s.group; stale = s.stale.items };
      due = s.due.items;
    }) };
}

impl<D: Disk + Drop> DiskSet<D> {
    /// Disks of which those that are marked are out from the start, and may lack every block. Nothing is due. With no memory
    /// for their spans the disks come back in the error.
    pub fn new(
        alloc: Global,
        disks: DiskArray<D>,
        out: Vec<bool>,
    ) -> Result<Self, AllocFailed<DiskArray<D>>>
        requires { length out.items ≡ length disks.starts }
        ensures disks { IfOk result (λ set. set.disks ≡ disks) }
        ensures out { IfOk result (λ set. set.out ≡ out.items) }
        ensures since { IfOk result (λ set.
            set.spans.since ≡ replicate (length disks.starts) 0) }
        ensures group { IfOk result (λ set. set.spans.group ≡ 0) }
        ensures stale { IfOk result (λ set. set.spans.stale ≡ []) }
        ensures due { IfOk result (λ set. set.due ≡ []) }
        ensures back { IfErr result (λ failed. failed.value ≡ disks) }
    {
        let Ok(since) = vec![in alloc; 0; disks.len()] else {
            return Err(AllocFailed { value: disks });
        };
        Ok(DiskSet {
            disks,
            out,
            since,
            group: 0,
            stale: Vec::new(alloc),
            due: VecDeque::new(alloc),
        })
    }

    /// The disks, with the record of all calls.
    pub fn into_array(self) -> DiskArray<D>
        ensures { result ≡ self.disks }
    {
        self.disks
    }

    /// A law: each disk has a mark and a span, and what is due lies on the disks.
    pub fn is_sound(&self)
        ensures { ArePoolDisks self.now }
    {
        let _ = &self.disks;
    }

    /// How many disks there are.
    pub fn len(&self) -> usize
        ensures starts { result ≡ length self.now.disks.starts }
        ensures out { result ≡ length self.now.out }
    {
        self.disks.len()
    }

    /// How many bytes a disk has.
    pub fn size(&self, disk: usize) -> u64
        requires { disk < length self.now.disks.starts }
        ensures { result ≡ length (bytes_of self.now.disks.starts disk) }
    {
        self.disks.size(disk)
    }

    /// The group of the plan.
    pub fn group(&self) -> u64
        ensures { result ≡ self.now.spans.group }
    {
        self.group
    }

    /// Whether a disk is out: it failed a write or a flush, or was out from the start.
    pub fn is_out(&self, disk: usize) -> bool
        ensures { result ≡ is_out self.now.out disk }
    {
        self.out.get(disk).copied().unwrap_or(false)
    }

    /// Of a disk that is out, the first transaction group whose blocks it may lack.
    pub fn out_since(&self, disk: usize) -> Option<u64>
        ensures { result
            ≡ (if is_out self.now.out disk then Some
            (slice_index self.now.spans.since disk) else None) }
    {
        if !self.is_out(disk) {
            return None;
        }
        Some(self.since.get(disk).copied().unwrap_or(0))
    }

    /// How many writes are due.
    pub fn due_count(&self) -> usize
        ensures { result ≡ length self.now.due }
    {
        self.due.len()
    }

    /// More writes are due, behind those that are. Without memory for them none is.
    pub fn add_due(&mut self, mut writes: VecDeque<ColumnWrite>) -> Result<(), AllocError>
        requires { (write : DueWrite) → Contains writes.items write
            → IsWithin self.old.disks.starts write }
        ensures ok { OnOk result
            (self.new ≡ record self.old { due = self.old.due ++ writes.items }) }
        ensures err { OnErr result (self.new ≡ self.old) }
    {
        self.due.append(&mut writes)?;
        Ok(())
    }

    /// Nothing is due.
    pub fn drop_due(&mut self)
        ensures { self.new ≡ record self.old { due = [] } }
    {
        self.due.clear();
    }
}
