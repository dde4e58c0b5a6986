//! What a stop leaves of a disk.
use crate::recording::{Asked, TimedCall};
use std::alloc::{AllocError, Global};

/// What is left of a range that was written since its disk's last flush.
#[derive(Clone, Copy)]
pub(crate) enum Left {
    Old,
    New,
    /// Byte a5 all over.
    Filled,
    /// The first half is new, the other one old.
    Torn,
}

/// What is left of each such range, by the moment of its write.
#[derive(Clone, Copy)]
pub(crate) enum Pattern {
    Every(Left),
    /// One after another old, new, filled and torn, from one of these on.
    InTurn(u64),
    /// One range, and another way all others.
    Except {
        moment: u64,
        left: Left,
        others: Left,
    },
}

impl Pattern {
    fn left(self, written: u64) -> Left {
        match self {
            Pattern::Every(left) => left,
            Pattern::InTurn(first) => match written.wrapping_add(first) % 4 {
                0 => Left::Old,
                1 => Left::New,
                2 => Left::Filled,
                _ => Left::Torn,
            },
            Pattern::Except {
                moment,
                left,
                others,
            } => { if moment == written { left } else { others } }
        }
    }
}

/// Leaves a write in an image of the disk.
fn leave(image: &mut [u8], at: usize, bytes: &[u8], left: Left) {
    let Some(range) = image.get_mut(at..at.saturating_add(bytes.len())) else {
        return;
    };
    if range.len() != bytes.len() {
        return;
    }
    match left {
        Left::Old => {}
        Left::New => range.copy_from_slice(bytes),
        Left::Filled => range.fill(0xa5),
        Left::Torn => {
            let half = bytes.len() / 2;
            range[..half].copy_from_slice(&bytes[..half]);
        }
    }
}

/// What a stop at that moment leaves of a disk, which held these bytes before the first of the calls. What was flushed stands.
pub(crate) fn image_of(
    alloc: Global,
    start: &[u8],
    calls: &[TimedCall],
    cut: u64,
    pattern: Pattern,
) -> Result<Vec<u8>, AllocError> {
    let mut flushed = 0usize;
    for number in 0..calls.len() {
        let call = &calls[number];
        if call.moment < cut && matches!(call.asked, Asked::Flush) {
            flushed = number;
        }
    }
    let mut image = Vec::from_slice(alloc, start)?;
    for number in 0..calls.len() {
        let call = &calls[number];
        if call.moment < cut {
            if let Asked::Write { at, bytes } = &call.asked {
                let left = if number < flushed {
                    Left::New
                } else {
                    pattern.left(call.moment)
                };
                leave(&mut image, *at, bytes, left);
            }
        }
    }
    Ok(image)
}
