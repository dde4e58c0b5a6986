//! A store in memory: one vdev of three disks, or two vdevs of which disks are lost.
use block_store::{BlockStore, VdevConfig};
use model_disk::{Disk, DiskError, Fault, FaultDisk, MemDisk};
use raidz_map::Geometry;
use std::alloc::Global;
use std::test::Fail;

/// A disk in memory that fails as it is told, and counts its reads. All tests have this one type: a store over another type is proved
/// once more.
#[derive(Drop)]
pub(crate) struct TestDisk {
    inner: FaultDisk<MemDisk>,
    pub(crate) reads: u64,
}

impl Disk for TestDisk {
    ghost use Rattle.model_disk.specs.FaultDisk.{calls_of, start_of};

    ghost start = { λ disk. start_of disk.inner };

    ghost calls = { λ disk. calls_of disk.inner };

    /// In bytes.
    fn size(&self) -> u64 {
        self.inner.size()
    }

    /// Counts the read.
    fn read(&mut self, at: u64, buffer: &mut [u8]) -> Result<(), DiskError> {
        self.reads = self.reads.saturating_add(1);
        self.inner.read(at, buffer)
    }

    /// Writes as the disk within.
    fn write_at(&mut self, at: u64, bytes: &[u8]) -> Result<(), DiskError> {
        self.inner.write_at(at, bytes)
    }

    /// Flushes as the disk within.
    fn flush(&mut self) -> Result<(), DiskError> {
        self.inner.flush()
    }

    ghost is_within = { λ disk. disk.inner.within };
}

pub(crate) type Store = BlockStore<TestDisk>;

/// A store of one vdev over three disks. A lossy one has two vdevs over six of the smallest disks, of which the second and the third
/// fail at their first flush: the first block of data goes to the first vdev and the next one to the second, and all else lies in both.
pub(crate) fn new_store(alloc: Global, is_lossy: bool) -> Result<Store, Fail> {
    let (count, bytes, meta_slabs) = if is_lossy {
        (6u64, 0x80_0000, 1)
    } else {
        (3u64, 0x100_0000, 4)
    };
    let mut disks = Vec::new(alloc);
    for which in 0..count {
        let fault = if is_lossy && matches!(which, 1 | 2) {
            Fault::Flush(0)
        } else {
            Fault::At(u64::MAX)
        };
        let inner = FaultDisk::new(MemDisk::new(alloc, bytes)?, fault);
        disks.push(TestDisk { inner, reads: 0 })?;
    }
    let vdev = VdevConfig {
        geometry: Geometry::new(3, 1, 9)?,
        metaslab_shift: 12,
        meta_slabs,
    };
    if is_lossy {
        return Ok(BlockStore::new(alloc, disks, &[vdev, vdev])?);
    }
    Ok(BlockStore::new(alloc, disks, &[vdev])?)
}

/// Makes the writes that are due, and takes the blocks of the plan as stored.
pub(crate) fn store_plan(store: &mut Store) {
    for _ in 0..store.due_count() {
        if store.due_count() == 0 || store.write_next().is_err() {
            break;
        }
    }
    store.finish_plan();
}
