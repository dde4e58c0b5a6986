//! Lengths of writes.
ghost use Rattle.std.specs.Prelude.{◌+◌, ◌<◌, ◌^◌};
ghost use Rattle.command_steps.specs.Lengths.{StandsFor};

/// The most bytes that one write may have: 1 MiB.
const MOST_BYTES: u64 = 1 << 20;

/// How many bytes stand for a write of `len`. Over 1 MiB, which no pool takes, it is another length over 1 MiB, as well
/// aligned as `len` is, so that the write is refused for the same cause and its bytes take little memory.
pub fn written_len(len: u64) -> usize
    ensures judged { StandsFor len result }
    ensures most { result < 2 ^ 20 + 1024 }
{
    if len <= MOST_BYTES {
        len as usize
    } else {
        (MOST_BYTES + 512 + len % 512) as usize
    }
}
