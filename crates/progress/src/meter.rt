//! Readers and writers that tell how much has passed.
ghost use Rattle.std.specs.Prelude.{◌≡◌};
ghost use Rattle.progress.specs.Metered.{inner_of};

use crate::reads::due;
use std::io::{self, Read, Write};

/// The bytes between two lines: 32 MiB.
const EACH: u64 = 1 << 25;

/// A reader or a writer, and where it is told how much has passed through it: a line behind a call that fills another 32 MiB, as `zfs: 64 MiB`. Where
/// that can't be written, nothing is told.
#[derive(Drop)]
pub struct Metered<T, E> {
    inner: T,
    errors: E,
    /// The program's name, which each line begins with.
    program: &'static str,
    /// Nothing is told otherwise.
    is_shown: bool,
    passed: u64,
}

impl<T, E: Write> Metered<T, E> {
    /// The reader or writer, through which nothing has passed yet.
    pub fn new(inner: T, errors: E, program: &'static str, is_shown: bool) -> Metered<T, E>
        ensures { inner_of result ≡ inner }
    {
        Metered {
            inner,
            errors,
            program,
            is_shown,
            passed: 0,
        }
    }

    /// Counts bytes that passed, and tells it.
    fn pass(&mut self, bytes: usize)
        ensures { inner_of self.new ≡ inner_of self.old }
    {
        let before = self.passed;
        self.passed = before.saturating_add(bytes as u64);
        if self.is_shown
            && let Some(mebibytes) = due(EACH, before, self.passed)
        {
            let program = self.program;
            let _ = writeln!(self.errors, "{program}: {mebibytes} MiB");
        }
    }
}

impl<R: Read, E: Write> Read for Metered<R, E> {
    ghost use Rattle.progress.specs.Metered.{inner_of};

    ghost remaining = { λ metered. R.remaining (inner_of metered) };

    fn read(&mut self, buffer: &mut [u8]) -> io::Result<usize> {
        match self.inner.read(buffer) {
            Ok(got) => {
                self.pass(got);
                Ok(got)
            }
            Err(error) => Err(error),
        }
    }
}

impl<W: Write, E: Write> Write for Metered<W, E> {
    ghost use Rattle.progress.specs.Metered.{inner_of};

    ghost contents = { λ metered. W.contents (inner_of metered) };

    fn write(&mut self, bytes: &[u8]) -> io::Result<usize> {
        match self.inner.write(bytes) {
            Ok(taken) => {
                self.pass(taken);
                Ok(taken)
            }
            Err(error) => Err(error),
        }
    }

    fn flush(&mut self) -> io::Result<()> {
        self.inner.flush()
    }
}
