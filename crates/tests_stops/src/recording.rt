//! Disks that note what is written on them and when they are flushed, in one order over all of them.
use model_disk::{Disk, DiskError, MemDisk, Member};
use std::alloc::{AllocError, Global};
use std::cell::Cell;
use std::rc::Rc;

/// What a disk was asked, but for reads.
#[derive(Drop)]
pub(crate) enum Asked {
    Write { at: usize, bytes: Vec<u8> },
    Flush,
}

/// A call with its moment: how many calls were made before it on all disks of the run.
#[derive(Drop)]
pub(crate) struct TimedCall {
    pub(crate) moment: u64,
    pub(crate) asked: Asked,
}

/// The calls that were made on a disk.
#[derive(Drop)]
struct Record {
    alloc: Global,
    moments: Rc<Cell<u64>>,
    calls: Vec<TimedCall>,
    /// Whether memory ran out for none of them.
    is_complete: bool,
}

impl Record {
    /// Notes a write of these bytes there, or else a flush.
    fn note(&mut self, write: Option<(u64, &[u8])>) {
        let moment = self.moments.get();
        self.moments.set(moment.saturating_add(1));
        let asked = match write {
            Some((at, bytes)) => {
                let Ok(bytes) = Vec::from_slice(self.alloc, bytes) else {
                    self.is_complete = false;
                    return;
                };
                let at = usize::try_from(at).unwrap_or(usize::MAX);
                Asked::Write { at, bytes }
            }
            None => Asked::Flush,
        };
        if self.calls.push(TimedCall { moment, asked }).is_err() {
            self.is_complete = false;
        }
    }
}

/// A disk with the record of its calls.
#[derive(Drop)]
pub(crate) struct RecordingDisk<D: Disk + Drop> {
    inner: D,
    record: Record,
}

/// A disk that holds these bytes, among others which count their calls together.
pub(crate) fn recording_disk(
    alloc: Global,
    start: &[u8],
    moments: &Rc<Cell<u64>>,
) -> Result<RecordingDisk<MemDisk>, AllocError> {
    let record = Record {
        alloc,
        moments: moments.clone()?,
        calls: Vec::new(alloc),
        is_complete: true,
    };
    let inner = MemDisk::holding(Vec::from_slice(alloc, start)?);
    Ok(RecordingDisk { inner, record })
}

impl<D: Disk + Drop> RecordingDisk<D> {
    /// The calls, where memory did for all of them.
    fn into_calls(self) -> Result<Vec<TimedCall>, AllocError> {
        let RecordingDisk { record, .. } = self;
        let Record {
            calls,
            is_complete,
            ..
        } = record;
        if is_complete {
            Ok(calls)
        } else {
            Err(AllocError)
        }
    }
}

impl<D: Disk + Drop> Disk for RecordingDisk<D> {
    ghost start = { λ disk. D.start disk.inner };

    ghost calls = { λ disk. D.calls disk.inner };

    fn size(&self) -> u64 {
        self.inner.size()
    }

    fn read(&mut self, at: u64, buffer: &mut [u8]) -> Result<(), DiskError> {
        self.inner.read(at, buffer)
    }

    fn write_at(&mut self, at: u64, bytes: &[u8]) -> Result<(), DiskError> {
        self.record.note(Some((at, bytes)));
        self.inner.write_at(at, bytes)
    }

    fn flush(&mut self) -> Result<(), DiskError> {
        self.record.note(None);
        self.inner.flush()
    }

    ghost is_within = { λ disk. D.is_within disk.inner };
}

/// The calls on each child's disk. On one that is absent there were none.
pub(crate) fn calls_of<D: Disk + Drop>(
    alloc: Global,
    members: Vec<Member<RecordingDisk<D>>>,
) -> Result<Vec<Vec<TimedCall>>, AllocError> {
    let mut all = Vec::new(alloc);
    for member in members {
        let calls = match member.into_disk() {
            Some(disk) => disk.into_calls()?,
            None => Vec::new(alloc),
        };
        all.push(calls)?;
    }
    Ok(all)
}
