//! Disks in memory that fail as they are told, and count their reads.
use model_disk::{Disk, DiskError, Fault, FaultDisk, MemDisk};
use std::alloc::{AllocError, Global};
use std::cell::Cell;
use std::rc::Rc;

/// A disk in memory. All tests that need no files have this one type: a pool over another type is proved once more.
#[derive(Drop)]
pub(crate) struct TestDisk {
    inner: FaultDisk<MemDisk>,
    /// How often disks were read that count together.
    reads: Rc<Cell<u64>>,
}

impl Disk for TestDisk {
    ghost use Rattle.model_disk.specs.FaultDisk.{calls_of, start_of};

    ghost start = { λ disk. start_of disk.inner };

    ghost calls = { λ disk. calls_of disk.inner };

    fn size(&self) -> u64 {
        self.inner.size()
    }

    fn read(&mut self, at: u64, buffer: &mut [u8]) -> Result<(), DiskError> {
        self.reads.set(self.reads.get().saturating_add(1));
        self.inner.read(at, buffer)
    }

    fn write_at(&mut self, at: u64, bytes: &[u8]) -> Result<(), DiskError> {
        self.inner.write_at(at, bytes)
    }

    fn flush(&mut self) -> Result<(), DiskError> {
        self.inner.flush()
    }

    ghost is_within = { λ disk. disk.inner.within };
}

/// A disk of zeros. They are put together from pieces: to make the bytes of all disks one by one takes most of the time of a
/// schedule.
pub(crate) fn disk(
    alloc: Global,
    bytes: usize,
    fault: Fault,
    reads: &Rc<Cell<u64>>,
) -> Result<TestDisk, AllocError> {
    let piece = [0; 4096];
    let mut zeros = Vec::with_capacity(alloc, bytes)?;
    for _ in 0..bytes / 4096 {
        zeros.extend_from_slice(&piece)?;
    }
    zeros.resize(bytes, 0)?;
    let inner = FaultDisk::new(MemDisk::holding(zeros), fault);
    let reads = reads.clone()?;
    Ok(TestDisk { inner, reads })
}
