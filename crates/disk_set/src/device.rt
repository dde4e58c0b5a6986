//! The device calls that write.
ghost use Rattle.std.specs.Prelude.{◌≡◌, ◌<◌, ◌≤◌, ◌+◌, ◌∷◌, length, is_ok, OnOk, IfErr};
ghost use Rattle.model_disk.specs.Call.{write_call, flush_call};
ghost use Rattle.model_disk.specs.Joint.{on, bytes_of};
ghost use Rattle.raidz_io.specs.Writes.{ColumnWrite};
ghost use Rattle.disk_set.specs.Outs.{IsOutToo, spans_without};

use crate::set::DiskSet;
use model_disk::Disk;

/// A write or a flush of this disk failed, and it is out.
#[derive(Debug, Clone, Copy, PartialEq, Eq, Drop, thiserror::Error)]
#[error("disk {disk} failed a write or a flush")]
pub struct FailedDisk {
    pub disk: usize,
}

impl<D: Disk + Drop> DiskSet<D> {
    /// Makes the next write that is due, and its bytes before, where they are not made. Where it fails, its disk is out from then on.
    pub fn write_next(&mut self) -> Result<(), FailedDisk>
        requires { 0 < length self.old.due }
        ensures starts { self.new.disks.starts ≡ self.old.disks.starts }
        ensures call { (write : ColumnWrite) × (self.old.due ≡ write ∷ self.new.due)
            × (self.new.disks.calls
            ≡ on write.disk (write_call result write.offset write.bytes)
            ∷ self.old.disks.calls)
            × IfErr result (λ failed. failed.disk ≡ write.disk)
            × IfErr result (λ failed. IsOutToo self.old.out write.disk self.new.out) }
        ensures out { OnOk result (self.new.out ≡ self.old.out) }
        ensures spans { OnOk result (self.new.spans ≡ self.old.spans) }
        ensures gone { IfErr result (λ failed.
            self.new.spans ≡ spans_without self.old.out self.old.spans failed.disk) }
    {
        let Some(mut write) = self.due.pop_front() else {
            return Ok(());
        };
        let disk = write.disk();
        let answer = write.write_on(&mut self.disks);
        self.note(disk, answer.is_ok())
    }

    /// Writes these bytes on a disk, from this byte of it on. Where it fails, the disk is out from then on.
    pub fn write_at(&mut self, disk: usize, offset: u64, bytes: &[u8]) -> Result<(), FailedDisk>
        requires there { disk < length self.old.disks.starts }
        requires within { offset + length bytes.now ≤ length (bytes_of self.old.disks.starts disk) }
        ensures starts { self.new.disks.starts ≡ self.old.disks.starts }
        ensures due { self.new.due ≡ self.old.due }
        ensures call { self.new.disks.calls
            ≡ on disk (write_call result offset bytes.now) ∷ self.old.disks.calls }
        ensures out { OnOk result (self.new.out ≡ self.old.out) }
        ensures failed { IfErr result (λ failed. failed.disk ≡ disk) }
        ensures out_too { IfErr result (λ failed. IsOutToo self.old.out disk self.new.out) }
        ensures spans { OnOk result (self.new.spans ≡ self.old.spans) }
        ensures gone { IfErr result (λ failed.
            self.new.spans ≡ spans_without self.old.out self.old.spans disk) }
    {
        let answer = self.disks.write_at(disk, offset, bytes);
        self.note(disk, answer.is_ok())
    }

    /// Flushes a disk. Where this fails, it is out from then on.
    pub fn flush(&mut self, disk: usize) -> Result<(), FailedDisk>
        requires { disk < length self.old.disks.starts }
        ensures starts { self.new.disks.starts ≡ self.old.disks.starts }
        ensures due { self.new.due ≡ self.old.due }
        ensures call { self.new.disks.calls
            ≡ on disk (flush_call result) ∷ self.old.disks.calls }
        ensures out { OnOk result (self.new.out ≡ self.old.out) }
        ensures failed { IfErr result (λ failed. failed.disk ≡ disk) }
        ensures out_too { IfErr result (λ failed. IsOutToo self.old.out disk self.new.out) }
        ensures spans { OnOk result (self.new.spans ≡ self.old.spans) }
        ensures gone { IfErr result (λ failed.
            self.new.spans ≡ spans_without self.old.out self.old.spans disk) }
    {
        let answer = self.disks.flush(disk);
        self.note(disk, answer.is_ok())
    }

    /// Notes that a disk is out, where a call on it failed.
    fn note(&mut self, disk: usize, answered: bool) -> Result<(), FailedDisk>
        requires { disk < length self.old.disks.starts }
        ensures disks { self.new.disks ≡ self.old.disks }
        ensures due { self.new.due ≡ self.old.due }
        ensures ok { is_ok result ≡ answered }
        ensures out { OnOk result (self.new.out ≡ self.old.out) }
        ensures failed { IfErr result (λ failed. failed.disk ≡ disk) }
        ensures out_too { IfErr result (λ failed. IsOutToo self.old.out disk self.new.out) }
        ensures spans { OnOk result (self.new.spans ≡ self.old.spans) }
        ensures gone { IfErr result (λ failed.
            self.new.spans ≡ spans_without self.old.out self.old.spans disk) }
    {
        if answered {
            return Ok(());
        }
        self.put_out(disk);
        Err(FailedDisk { disk })
    }

    /// A disk is out from then on, with no call on it. What is due on it stays due.
    pub fn put_out(&mut self, disk: usize)
        requires { disk < length self.old.disks.starts }
        ensures disks { self.new.disks ≡ self.old.disks }
        ensures due { self.new.due ≡ self.old.due }
        ensures out { IsOutToo self.old.out disk self.new.out }
        ensures spans { self.new.spans ≡ spans_without self.old.out self.old.spans disk }
    {
        if !self.out[disk] {
            self.since[disk] = self.group;
        }
        self.out[disk] = true;
    }
}
