//! Whether a pending write has all bytes of a range.
ghost use Rattle.std.specs.Prelude.{◌≡◌, ◌↔◌, ◌≤◌, false, IsTrue};
ghost use Rattle.pool_model.specs.Flow.{flow_of};
ghost use Rattle.pool_model.specs.Groups.{taken_upto};
ghost use Rattle.pool_model.specs.Pools.{is_snapshot};
ghost use Rattle.pool_model.specs.View.{View, open_group};
ghost use Rattle.txg_pipeline.specs.Carries.{Carries};
ghost use Rattle.volume_rules.specs.Covering.{AreCovering, CoversRange, IsCovered, IsCoveredBetween};
ghost use Rattle.volume_rules.specs.Overlay.{closed_in};

use crate::pieces::covers_any;
use crate::shape::VolumeShape;
use pool_model::{Name, Write};
use txg_pipeline::{Pending, Pipeline};

/// Whether one pending write to the volume of this name, which has this shape in NOW, has every byte of the range, so
/// that none of the bytes under it shows. Of a snapshot none has.
pub fn is_covered(
    pipeline: &Pipeline,
    shape: VolumeShape,
    name: &Name,
    offset: u64,
    len: u64,
) -> bool
    ensures { (v : View) → Carries pipeline.now (flow_of v) →
        IsTrue result ↔ IsCovered v name.now shape offset len }
{
    is_covered_by_syncing(pipeline, shape, name, offset, len)
        || is_covered_by_waiting(pipeline, shape, name, offset, len)
        || is_covered_by_open(pipeline, shape, name, offset, len)
}

fn is_covered_by_syncing(
    pipeline: &Pipeline,
    shape: VolumeShape,
    name: &Name,
    offset: u64,
    len: u64,
) -> bool
    ensures { (v : View) → Carries pipeline.now (flow_of v) → IsTrue result
        ↔ IsCoveredBetween v name.now shape offset len v.committed (taken_upto v) }
{
    let committed = pipeline.committed_group();
    let Some(items) = pipeline.syncing_items() else {
        return false;
    };
    is_covered_by(committed, items, shape, name, offset, len)
}

fn is_covered_by_waiting(
    pipeline: &Pipeline,
    shape: VolumeShape,
    name: &Name,
    offset: u64,
    len: u64,
) -> bool
    ensures { (v : View) → Carries pipeline.now (flow_of v) → IsTrue result
        ↔ IsCoveredBetween v name.now shape offset len (taken_upto v) (closed_in v) }
{
    let open = pipeline.open_group();
    let Some(items) = pipeline.waiting_items() else {
        return false;
    };
    is_covered_by(open.saturating_sub(2), items, shape, name, offset, len)
}

fn is_covered_by_open(
    pipeline: &Pipeline,
    shape: VolumeShape,
    name: &Name,
    offset: u64,
    len: u64,
) -> bool
    ensures { (v : View) → Carries pipeline.now (flow_of v) → IsTrue result
        ↔ IsCoveredBetween v name.now shape offset len (closed_in v) (open_group v) }
{
    let open = pipeline.open_group();
    let items = pipeline.open_items();
    is_covered_by(open.saturating_sub(1), items, shape, name, offset, len)
}

// The writes of a group are to a volume, and no snapshot, that the group before it made, or an earlier one.
fn is_covered_by(
    before: u64,
    items: &Pending,
    shape: VolumeShape,
    name: &Name,
    offset: u64,
    len: u64,
) -> bool
    ensures { IsTrue result ↔ (is_snapshot shape.kind ≡ false) × (shape.group ≤ before)
        × AreCovering name.now shape.size offset len items.now.writes }
{
    !shape.kind.is_snapshot()
        && shape.group <= before
        && covers_any(items, name, shape.size, offset, len)
}

pub(crate) fn covers(write: &Write, size: u64, offset: u64, len: u64) -> bool
    ensures { IsTrue result ↔ CoversRange size offset len write.now }
{
    let Some(end) = write.offset.checked_add(write.bytes.len() as u64) else {
        return false;
    };
    let Some(last) = offset.checked_add(len) else {
        return false;
    };
    end <= size && write.offset <= offset && last <= end
}
