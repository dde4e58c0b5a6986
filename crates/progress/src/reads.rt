//! How much is read of some disks together.
ghost use Rattle.std.specs.Prelude.{◌≡◌, ◌+◌, ◌-◌, ◌^◌, min};
ghost use Rattle.progress.specs.Reads.{bytes_given, mebibytes_due};

use model_disk::DiskError;
use std::cell::{Cell, RefCell};
use std::io::Write;

/// The bytes of a MiB.
const MEBIBYTE: u64 = 1 << 20;

/// The bytes between two lines of a command: 256 MiB.
pub const READ_INTERVAL: u64 = 1 << 28;

/// How much is read of some disks together, and where that is told: a line behind a read that fills another interval, as
/// `zpool: 256 MiB looked at`. A read that fills two tells one line, and a line that can't be written is not told.
#[derive(Drop)]
pub struct ReadMeter<E> {
    errors: RefCell<E>,
    /// The program's name, which each line begins with.
    program: &'static str,
    /// In bytes, whole MiB. Nothing is told where it is 0.
    interval: u64,
    /// In bytes.
    read: Cell<u64>,
}

/// The bytes counted behind a read for which so many were asked: one that failed adds none. The count ends at the largest number.
fn counted(before: u64, answer: &Result<(), DiskError>, asked: usize) -> u64
    ensures { result ≡ min (before + bytes_given answer.now asked) (2 ^ 64 - 1) }
{
    match answer {
        Ok(()) => before.saturating_add(asked as u64),
        Err(_) => before,
    }
}

/// The MiB of all full intervals, where there are more than before. All but the answer is in bytes.
pub(crate) fn due(interval: u64, before: u64, after: u64) -> Option<u64>
    ensures { result ≡ mebibytes_due interval before after }
{
    if interval == 0 || after / interval <= before / interval {
        None
    } else {
        Some((after - after % interval) / MEBIBYTE)
    }
}

impl<E: Write> ReadMeter<E> {
    /// Nothing is read yet. A line is told behind a read that fills another interval of so many bytes, whole MiB; none where these are 0.
    pub fn new(errors: E, program: &'static str, interval: u64) -> ReadMeter<E>
        ensures program { result.program.now ≡ program.now }
        ensures interval { result.interval ≡ interval }
    {
        ReadMeter {
            errors: RefCell::new(errors),
            program,
            interval,
            read: Cell::new(0),
        }
    }

    /// Hands on the answer of a read for which so many bytes were asked; counts what it gave, and tells it.
    pub(crate) fn pass(&self, answer: Result<(), DiskError>, asked: usize) -> Result<(), DiskError>
        ensures { result ≡ answer }
    {
        let before = self.read.get();
        let after = counted(before, &answer, asked);
        self.read.set(after);
        if let Some(mebibytes) = due(self.interval, before, after) {
            self.tell(mebibytes);
        }
        answer
    }

    fn tell(&self, mebibytes: u64) {
        if let Ok(mut errors) = self.errors.try_borrow_mut() {
            let program = self.program;
            let _ = writeln!(*errors, "{program}: {mebibytes} MiB looked at");
        }
    }
}
