//! What stands for a disk that is absent.
ghost use Rattle.std.specs.Prelude.{◌≡◌, [], replicate};
ghost use Rattle.model_disk.specs.Absent.{HaveFailed, HaveFailed-prop, IsHonest-failed};
ghost use Rattle.model_disk.specs.Joint.{calls_in};
ghost use Rattle.model_disk.specs.Within.{IsWithin-failed};

use crate::log::{Log, Start};
use crate::{Disk, DiskError, HonestDisk};

/// Has a size, and held zeros at first, but each call on it fails.
#[derive(Drop)]
pub struct AbsentDisk {
    size: u64,
    log: Log,
    ghost failed: { HaveFailed (calls_in log.calls) } by { HaveFailed-prop (calls_in log.calls) },
}

impl AbsentDisk {
    ghost use Rattle.model_disk.specs.AbsentDisk.{start_of, calls_of};

    /// In place of a disk of this many bytes.
    pub fn new(size: u64) -> AbsentDisk
        ensures start { start_of result ≡ replicate size 0 }
        ensures calls { calls_of result ≡ [] }
    {
        AbsentDisk {
            size,
            log: Log::new(&Start::OfSize(0)),
        }
    }

    /// A law: each call failed.
    pub fn has_failed(&self)
        ensures { HaveFailed (calls_of self.now) }
    {
        let _ = &self.size;
    }
}

impl Disk for AbsentDisk {
    ghost start = { λ disk. replicate disk.size 0 };

    ghost calls = { λ disk. calls_in disk.log.calls };

    fn size(&self) -> u64 {
        self.size
    }

    fn read(&mut self, at: u64, buffer: &mut [u8]) -> Result<(), DiskError> {
        let answer = Err(DiskError::Stopped);
        self.log.note_read(0, &answer, at, buffer);
        answer
    }

    fn write_at(&mut self, at: u64, bytes: &[u8]) -> Result<(), DiskError> {
        let answer = Err(DiskError::Stopped);
        self.log.note_write(0, &answer, at, bytes);
        answer
    }

    fn flush(&mut self) -> Result<(), DiskError> {
        let answer = Err(DiskError::Stopped);
        self.log.note_flush(0, &answer);
        answer
    }

    ghost is_within = { λ disk. IsWithin-failed (replicate disk.size 0)
        (calls_in disk.log.calls) disk.failed };
}

impl HonestDisk for AbsentDisk {
    ghost is_honest = { λ disk. IsHonest-failed (replicate disk.size 0)
        (calls_in disk.log.calls) disk.failed };
}
