//! The pending writes of a group, looked at piece by piece.
ghost use Rattle.std.specs.Prelude.{◌≡◌, ◌↔◌, ℕ, ◌+◌, ◌%◌, ◌<◌, ◌≤◌, IsTrue, length, false, true};
ghost use Rattle.std.specs.List.{Contains};
ghost use Rattle.pool_model.specs.declared.volume.PlainVolume.{PlainVolume};
ghost use Rattle.pool_model.specs.Names.{same};
ghost use Rattle.pool_model.specs.Pools.{is_snapshot};
ghost use Rattle.txg_pipeline.specs.Positions.{IsAt};
ghost use Rattle.volume_rules.specs.Covering.{AreCovering, CoversRange};
ghost use Rattle.volume_rules.specs.Overlay.{after_writes, HasRange};

use crate::covered::covers;
use crate::overlay::lay_one;
use pool_model::Name;
use txg_pipeline::{PIECE_BYTES, Pending};

/// Lays the writes of a group over a range of the bytes of the volume of this name and size: the buffer holds the range
/// from the offset on, and then has each write to that volume, in order, as far as it lies in the range. It looks only at
/// the writes that touch a piece of the range.
pub fn lay_pending(items: &Pending, name: &Name, size: u64, offset: u64, buffer: &mut [u8])
    requires { offset + length buffer.old ≤ size }
    ensures { (volume : PlainVolume) → same volume.name name.now ≡ true →
        is_snapshot volume.kind ≡ false →
        length volume.bytes ≡ size → HasRange buffer.old volume.bytes offset →
        HasRange buffer.new (after_writes volume items.now.writes).bytes offset }
{
    let mut done = 0;
    while done < buffer.len() {
        let start = offset + done as u64;
        let count = count_in_piece(start, buffer.len() - done);
        lay_piece(items, name, size, start, &mut buffer[done..done + count]);
        done += count;
    }
}

/// Whether one write of the group to the volume of this name and size has every byte of the range. It looks only at the
/// writes that touch the piece where the range begins, and for an empty range at all to that volume.
pub fn covers_any(items: &Pending, name: &Name, size: u64, offset: u64, len: u64) -> bool
    ensures { IsTrue result ↔ AreCovering name.now size offset len items.now.writes }
{
    let writes = items.writes();
    let places = places_over(items, name, offset, len);
    for position in places {
        if covers(&writes[*position], size, offset, len) {
            return true;
        }
    }
    false
}

// Among the writes to the volume of that name, at least those that have every byte of the range.
fn places_over<'a>(items: &'a Pending, name: &Name, offset: u64, len: u64) -> &'a [usize]
    ensures named { (position : ℕ) → Contains result.now position →
        IsAt (λ write. write.volume ≡ name.now) items.now.writes position }
    ensures all { (position size : ℕ) →
        IsAt (λ write. (write.volume ≡ name.now) × CoversRange size offset len write)
        items.now.writes position → Contains result.now position }
{
    if len == 0 {
        items.places_of(name)
    } else {
        items.places_at(name, offset / PIECE_BYTES)
    }
}

// How many of so many bytes, from this one on, lie in its piece.
fn count_in_piece(start: u64, len: usize) -> usize
    ensures within { start % PIECE_BYTES + result ≤ PIECE_BYTES }
    ensures some { 0 < len → 0 < result }
    ensures most { result ≤ len }
{
    let left = PIECE_BYTES - start % PIECE_BYTES;
    left.min(len as u64) as usize
}

// The writes of a group are laid over a range that lies in one piece.
fn lay_piece(items: &Pending, name: &Name, size: u64, offset: u64, buffer: &mut [u8])
    requires fits { offset + length buffer.old ≤ size }
    requires within { offset % PIECE_BYTES + length buffer.old ≤ PIECE_BYTES }
    ensures { (volume : PlainVolume) → same volume.name name.now ≡ true →
        is_snapshot volume.kind ≡ false →
        length volume.bytes ≡ size → HasRange buffer.old volume.bytes offset →
        HasRange buffer.new (after_writes volume items.now.writes).bytes offset }
{
    let writes = items.writes();
    let places = items.places_at(name, offset / PIECE_BYTES);
    for position in places {
        lay_one(&writes[*position], size, offset, buffer);
    }
}
