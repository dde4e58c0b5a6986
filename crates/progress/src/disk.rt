//! A disk that counts what is read of it.
ghost use Rattle.std.specs.Prelude.{◌≡◌};

use crate::reads::ReadMeter;
use model_disk::{Disk, DiskError, HonestDisk};
use std::io::Write;
use std::rc::Rc;

/// Passes each call on to another disk, and counts the bytes that reads gave, together with all disks that have the same meter.
#[derive(Drop)]
pub struct MeteredDisk<D: Disk + Drop, E> {
    inner: D,
    meter: Rc<ReadMeter<E>>,
}

impl<D: Disk + Drop, E: Write + Drop> MeteredDisk<D, E> {
    ghost use Rattle.progress.specs.MeteredDisk.{disk_of};

    /// That disk, whose reads are counted there from now on.
    pub fn new(inner: D, meter: Rc<ReadMeter<E>>) -> MeteredDisk<D, E>
        ensures { disk_of result ≡ inner }
    {
        MeteredDisk { inner, meter }
    }

    /// The disk below, whose reads are counted no more.
    pub fn into_inner(self) -> D
        ensures { result ≡ disk_of self }
    {
        self.inner
    }
}

impl<D: Disk + Drop, E: Write + Drop> Disk for MeteredDisk<D, E> {
    ghost use Rattle.progress.specs.MeteredDisk.{calls_of, start_of};

    ghost start = { start_of D.Disk };

    ghost calls = { calls_of D.Disk };

    fn size(&self) -> u64 {
        self.inner.size()
    }

    fn read(&mut self, at: u64, buffer: &mut [u8]) -> Result<(), DiskError> {
        let answer = self.inner.read(at, buffer);
        self.meter.pass(answer, buffer.len())
    }

    fn write_at(&mut self, at: u64, bytes: &[u8]) -> Result<(), DiskError> {
        self.inner.write_at(at, bytes)
    }

    fn flush(&mut self) -> Result<(), DiskError> {
        self.inner.flush()
    }

    ghost is_within = { λ disk. D.is_within disk.inner };
}

impl<D: HonestDisk + Drop, E: Write + Drop> HonestDisk for MeteredDisk<D, E> {
    ghost is_honest = { λ disk. D.is_honest disk.inner };
}
