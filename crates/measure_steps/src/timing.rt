//! How long writes take.
use crate::measured::{BLOCKS, WRITE_SIZE, volume};
use crate::takers::Taker;
use pool_model::{Bytes, Step, Write};
use std::alloc::{AllocError, Global};
use std::io;
use std::rt::Runtime;
use std::sync::Wait;
use std::time::Instant;

/// How many writes of one round are timed.
pub(crate) const WRITES: u64 = 4000;

/// The one writer.
pub(crate) const WRITER: u32 = 1;

/// What is counted beside the step that writes.
#[derive(Clone, Copy)]
pub(crate) struct Load {
    /// The hold before each write, and the release behind it; else one hold before all, which isn't timed.
    pub(crate) holds: bool,
    /// The making of the bytes; else they are there.
    pub(crate) making: bool,
}

/// The bytes of a write.
fn bytes_of(alloc: Global, number: u64) -> Result<Bytes, AllocError> {
    let bytes = vec![in alloc; (number % 251) as u8; WRITE_SIZE as usize]?;
    Ok(Bytes::new(bytes))
}

/// The writes of a round, in order: without bytes, where these are to be made.
fn writes_of(alloc: Global, load: Load) -> Result<Vec<Write>, AllocError> {
    let mut writes = Vec::with_capacity(alloc, WRITES as usize)?;
    // The volume was made by number 1.
    for number in 2..WRITES + 2 {
        let bytes = if load.making {
            Bytes::new(Vec::new(alloc))
        } else {
            bytes_of(alloc, number)?
        };
        writes.push(Write {
            writer: WRITER,
            number,
            volume: volume(alloc)?,
            offset: number % BLOCKS * WRITE_SIZE,
            bytes,
        })?;
    }
    Ok(writes)
}

fn answered(was_answered: bool) -> io::Result<()> {
    if was_answered {
        Ok(())
    } else {
        Err(io::Error::from(io::ErrorKind::Other))
    }
}

/// Has one write taken.
fn take_one<T: Taker, R: Wait>(rt: &R, taker: &mut T, holds: bool, write: Write) -> bool {
    if !holds {
        return taker.take(rt, Step::Write(write));
    }
    taker.take(rt, Step::Hold(WRITER))
        && taker.take(rt, Step::Write(write))
        && taker.take(rt, Step::Release(WRITER))
}

fn take_all<T: Taker, R: Wait>(
    rt: &R,
    alloc: Global,
    taker: &mut T,
    load: Load,
    writes: Vec<Write>,
) -> io::Result<()> {
    for mut write in writes {
        if load.making {
            write.bytes = bytes_of(alloc, write.number)?;
        }
        answered(take_one(rt, taker, load.holds, write))?;
    }
    Ok(())
}

/// How long one round takes, in nanoseconds.
pub(crate) fn timed<T: Taker, R: Runtime + Wait>(
    rt: &R,
    alloc: Global,
    taker: &mut T,
    load: Load,
) -> io::Result<u128> {
    let writes = writes_of(alloc, load)?;
    if !load.holds {
        answered(taker.take(rt, Step::Hold(WRITER)))?;
    }
    let start = Instant::now(rt)?;
    take_all(rt, alloc, taker, load, writes)?;
    Ok(start.elapsed(rt)?.as_nanos())
}
