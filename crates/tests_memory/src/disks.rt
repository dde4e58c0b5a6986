//! Disks in memory that fail as they are told, and note their calls in one order over all disks of a command.
use model_disk::{Disk, DiskError, Fault, FaultDisk, MemDisk};
use std::alloc::Global;
use std::cell::Cell;
use std::rc::Rc;

/// Fails at no call.
pub(crate) const NEVER: Fault = Fault::At(u64::MAX);

/// How many calls were made on all disks of a command.
pub(crate) type Moments = Rc<Cell<u64>>;

/// A call by its moment: how many calls were made before it on all disks of the command.
#[derive(Clone, Copy)]
pub(crate) struct TimedCall {
    pub(crate) moment: u64,
    pub(crate) is_read: bool,
}

/// The calls on a disk, in order.
#[derive(Drop)]
struct Record {
    moments: Moments,
    calls: Vec<TimedCall>,
}

impl Record {
    /// A call that memory runs out for is missing: then the moments have a gap.
    fn note(&mut self, is_read: bool) {
        let moment = self.moments.get();
        self.moments.set(moment.saturating_add(1));
        let _ = self.calls.push(TimedCall { moment, is_read });
    }
}

/// A disk with its place on the shelf.
#[derive(Drop)]
pub(crate) struct TimedDisk {
    inner: FaultDisk<MemDisk>,
    place: usize,
    record: Record,
}

/// What comes back of a disk.
#[derive(Drop)]
pub(crate) struct UsedDisk {
    pub(crate) place: usize,
    pub(crate) bytes: Vec<u8>,
    pub(crate) calls: Vec<TimedCall>,
}

impl TimedDisk {
    /// Holds these bytes, and fails so.
    pub(crate) fn new(
        alloc: Global,
        bytes: Vec<u8>,
        place: usize,
        fault: Fault,
        moments: Moments,
    ) -> TimedDisk {
        TimedDisk {
            inner: FaultDisk::new(MemDisk::holding(bytes), fault),
            place,
            record: Record {
                moments,
                calls: Vec::new(alloc),
            },
        }
    }

    pub(crate) fn into_used(self) -> UsedDisk {
        let TimedDisk {
            inner,
            place,
            record,
        } = self;
        let Record { calls, .. } = record;
        UsedDisk {
            place,
            bytes: inner.into_inner().into_bytes(),
            calls,
        }
    }
}

impl Disk for TimedDisk {
    ghost use Rattle.model_disk.specs.FaultDisk.{calls_of, start_of};

    ghost start = { λ disk. start_of disk.inner };

    ghost calls = { λ disk. calls_of disk.inner };

    fn size(&self) -> u64 {
        self.inner.size()
    }

    fn read(&mut self, at: u64, buffer: &mut [u8]) -> Result<(), DiskError> {
        self.record.note(true);
        self.inner.read(at, buffer)
    }

    fn write_at(&mut self, at: u64, bytes: &[u8]) -> Result<(), DiskError> {
        self.record.note(false);
        self.inner.write_at(at, bytes)
    }

    fn flush(&mut self) -> Result<(), DiskError> {
        self.record.note(false);
        self.inner.flush()
    }

    ghost is_within = { λ disk. disk.inner.within };
}
