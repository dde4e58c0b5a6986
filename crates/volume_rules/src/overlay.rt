//! Pending writes laid over the bytes that lie under them.
ghost use Rattle.std.specs.Prelude.{◌≡◌, ℕ, ◌+◌, ◌≤◌, List, length, fold, replicate, false, true, Some};
ghost use Rattle.std.specs.Option.{option_copied};
ghost use Rattle.pool_model.specs.declared.volume.PlainVolume.{PlainVolume};
ghost use Rattle.pool_model.specs.Groups.{taken_upto};
ghost use Rattle.pool_model.specs.Names.{same, stored};
ghost use Rattle.pool_model.specs.Pools.{PlainPool, applied, is_snapshot, volume_at, written};
ghost use Rattle.pool_model.specs.View.{View, now_of};
ghost use Rattle.pool_model.specs.Flow.{flow_of};
ghost use Rattle.txg_pipeline.specs.Carries.{Carries};
ghost use Rattle.volume_rules.specs.Covering.{IsCovered};
ghost use Rattle.volume_rules.specs.NowMoves.{AreGood, GroupsAreBelow, HasGoodNames};
ghost use Rattle.volume_rules.specs.Effects.{PendingTakeEffect, TakeEffect};
ghost use Rattle.volume_rules.specs.Sources.{base_name, pool_upto, source_before, source_between, source_by, source_upto};
ghost use Rattle.volume_rules.specs.Overlay.{after_writes, base_of, closed_in, HasRange, HasRangeAt, StandsThere};
ghost use Rattle.volume_rules.specs.Shapes.{shape_of};

use crate::pieces::lay_pending;
use crate::shape::VolumeShape;
use pool_model::{Change, Name, Write};
use txg_pipeline::{Pending, Pipeline};

/// Lays writes over a range of the bytes of the volume of this name and size, which is no snapshot: the buffer holds the
/// range from the offset on, and then has each write to that volume, in order, as far as it lies in the range.
pub fn lay_over(writes: &[Write], name: &Name, size: u64, offset: u64, buffer: &mut [u8])
    requires { offset + length buffer.old ≤ size }
    ensures { (volume : PlainVolume) → same volume.name name.now ≡ true →
        is_snapshot volume.kind ≡ false →
        length volume.bytes ≡ size → HasRange buffer.old volume.bytes offset →
        HasRange buffer.new (after_writes volume writes.now).bytes offset }
{
    for write in writes {
        if write.volume.is(name) {
            lay_one(write, size, offset, buffer);
        }
    }
}

/// Where in the committed pool the bytes stand that a name of NOW has but for pending writes: at the name itself; of a
/// snapshot or a clone that isn't committed yet at the name that it comes from; nowhere where a pending group makes a
/// volume of zeros.
pub fn base_name<'a>(pipeline: &'a Pipeline, name: &'a Name) -> Option<&'a Name>
    ensures { (v : View) → Carries pipeline.now (flow_of v) →
        option_copied result ≡ base_name v name.now }
{
    let behind_closed = source_before(pipeline.open_items(), Some(name));
    let behind_syncing = before_waiting(pipeline, behind_closed);
    before_syncing(pipeline, behind_syncing)
}

/// Lays all pending writes over a range of what this name of NOW stands for, which has this shape: the buffer holds the
/// range of the bytes that lie under them (those that the committed pool has at the base name, or zeros where there is
/// none), and then has the range of its bytes. It looks only at the writes that touch a piece of the range.
pub fn read_pending(
    pipeline: &Pipeline,
    shape: VolumeShape,
    name: &Name,
    offset: u64,
    buffer: &mut [u8],
)
    requires { offset + length buffer.old ≤ shape.size }
    ensures laid { (v : View) (volume : PlainVolume) → Carries pipeline.now (flow_of v) →
        GroupsAreBelow v → AreGood v.ledger → PendingTakeEffect v →
        volume_at name.now (now_of v) ≡ Some volume → shape_of volume ≡ shape →
        HasRange buffer.old (base_of v name.now volume) offset →
        HasRange buffer.new volume.bytes offset }

    // Where a pending write has the whole range, zeros may lie under it.
    ensures covered { (v : View) (volume : PlainVolume) → Carries pipeline.now (flow_of v) →
        GroupsAreBelow v → AreGood v.ledger → PendingTakeEffect v →
        volume_at name.now (now_of v) ≡ Some volume → shape_of volume ≡ shape →
        IsCovered v name.now shape offset (length buffer.old) →
        buffer.old ≡ replicate (length buffer.old) 0 → HasRange buffer.new volume.bytes offset }
{
    let open = pipeline.open_items();
    let behind_closed = source_before(open, Some(name));
    let behind_syncing = before_waiting(pipeline, behind_closed);
    lay_syncing(pipeline, behind_syncing, shape.size, offset, buffer);
    lay_waiting(pipeline, behind_closed, shape.size, offset, buffer);
    lay_group(open, Some(name), shape.size, offset, buffer);
}

// The name is where the bytes stand behind the group that is synced.
fn lay_syncing(pipeline: &Pipeline, name: Option<&Name>, size: u64, offset: u64, buffer: &mut [u8])
    requires { offset + length buffer.old ≤ size }
    ensures { (v : View) → Carries pipeline.now (flow_of v) →
        GroupsAreBelow v → AreGood v.ledger → PendingTakeEffect v →
        StandsThere (option_copied name.entry) (pool_upto v (taken_upto v)) size →
        HasRangeAt buffer.old (source_upto v (taken_upto v) (option_copied name.entry))
        (v.pools v.committed) size offset →
        HasRangeAt buffer.new (option_copied name.entry) (pool_upto v (taken_upto v)) size offset }
{
    if let Some(items) = pipeline.syncing_items() {
        lay_group(items, name, size, offset, buffer);
    }
}

// And here behind the waiting group.
fn lay_waiting(pipeline: &Pipeline, name: Option<&Name>, size: u64, offset: u64, buffer: &mut [u8])
    requires { offset + length buffer.old ≤ size }
    ensures { (v : View) → Carries pipeline.now (flow_of v) →
        GroupsAreBelow v → AreGood v.ledger → PendingTakeEffect v →
        StandsThere (option_copied name.entry) (pool_upto v (closed_in v)) size →
        HasRangeAt buffer.old
        (source_between v (taken_upto v) (closed_in v) (option_copied name.entry))
        (pool_upto v (taken_upto v)) size offset →
        HasRangeAt buffer.new (option_copied name.entry) (pool_upto v (closed_in v)) size offset }
{
    if let Some(items) = pipeline.waiting_items() {
        lay_group(items, name, size, offset, buffer);
    }
}

// A group's writes are laid over what stands where the bytes of the name stood before it.
fn lay_group(items: &Pending, name: Option<&Name>, size: u64, offset: u64, buffer: &mut [u8])
    requires { offset + length buffer.old ≤ size }
    ensures { (group : ℕ) (pool : PlainPool) → HasGoodNames pool →
        TakeEffect group (fold written pool items.now.writes) items.now.actions →
        StandsThere (option_copied name.entry) (applied group pool items.now) size →
        HasRangeAt buffer.old (source_before items.now.actions (option_copied name.entry))
        pool size offset →
        HasRangeAt buffer.new (option_copied name.entry) (applied group pool items.now) size offset }
{
    let Some(source) = source_before(items, name) else {
        return;
    };
    if !source.is_of_snapshot() {
        lay_pending(items, source, size, offset, buffer);
    }
}

// Where the bytes that stand at a name behind the waiting group stood before it.
fn before_waiting<'a>(pipeline: &'a Pipeline, name: Option<&'a Name>) -> Option<&'a Name>
    ensures { (v : View) → Carries pipeline.now (flow_of v) → option_copied result
        ≡ source_between v (taken_upto v) (closed_in v) (option_copied name.entry) }
{
    match pipeline.waiting_items() {
        Some(items) => source_before(items, name),
        None => name,
    }
}

// And behind the group that is synced.
fn before_syncing<'a>(pipeline: &'a Pipeline, name: Option<&'a Name>) -> Option<&'a Name>
    ensures { (v : View) → Carries pipeline.now (flow_of v) → option_copied result
        ≡ source_upto v (taken_upto v) (option_copied name.entry) }
{
    match pipeline.syncing_items() {
        Some(items) => source_before(items, name),
        None => name,
    }
}

// Where the bytes that stand at a name behind a group's actions stood before them.
fn source_before<'a>(items: &'a Pending, name: Option<&'a Name>) -> Option<&'a Name>
    ensures { option_copied result ≡ source_before items.now.actions (option_copied name.entry) }
{
    let mut source = name;
    let mut actions = items.actions();
    while let [earlier @ .., last] = actions {
        source = source_by(&last.change, source?);
        actions = earlier;
    }
    source
}

// And before one of them.
fn source_by<'a>(change: &'a Change, name: &'a Name) -> Option<&'a Name>
    ensures { option_copied result ≡ source_by change.now name.now }
{
    match change {
        Change::Create { name: made, .. } if made.is(name) => None,
        Change::Snapshot { volume, part } if name.is_snapshot_of(volume, part) => Some(volume),
        Change::Clone {
            snapshot,
            name: made,
        } if made.is(name) => Some(snapshot),
        _ => Some(name),
    }
}

// A write that doesn't lie within the volume changes nothing.
pub(crate) fn lay_one(write: &Write, size: u64, offset: u64, buffer: &mut [u8])
    requires { offset + length buffer.old ≤ size }
    ensures { (bytes : List ℕ) → length bytes ≡ size → HasRange buffer.old bytes offset →
        HasRange buffer.new (stored write.now.offset write.now.bytes bytes) offset }
{
    let len = write.bytes.len() as u64;
    if len > size || write.offset > size - len {
        return;
    }
    let start = write.offset.max(offset);
    let end = (write.offset + len).min(offset + buffer.len() as u64);
    if start < end {
        let skipped = (start - write.offset) as usize;
        let at = (start - offset) as usize;
        let count = (end - start) as usize;
        let part = &write.bytes.as_slice()[skipped..skipped + count];
        buffer[at..at + count].copy_from_slice(part);
    }
}
