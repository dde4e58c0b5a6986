//! The spans of disks that are away as a group is planned, and of those that go.
ghost use Rattle.std.specs.Prelude.{◌≡◌, ◌≤◌, IfOk};
ghost use Rattle.meta_objset.specs.StaleSpans.{AreStaleSpans};
ghost use Rattle.stale_disks.specs.Rules.{AreSpansAfter, AreSpansWithout, LacksFrom, no_end};

use crate::disks::{has_disk, is_marked};
use meta_objset::{StaleSpan, StaleSpans};
use std::alloc::{AllocError, Global};

/// The end of a span of a disk that is away: it has none yet.
pub(crate) const NO_END: u64 = u64::MAX;

/// The spans of the disks that aren't marked. The guids are those of the disks by their numbers, and so are the marks.
pub fn spans_without(
    alloc: Global,
    before: &StaleSpans,
    guids: &[u64],
    marks: &[bool],
) -> Result<StaleSpans, AllocError>
    ensures spans { IfOk result (AreSpansWithout guids.now marks.now before.now) }
    ensures order { AreStaleSpans before.now }
{
    let mut spans = StaleSpans::new(alloc);
    let rows = before.rows();
    for index in 0..rows.len() {
        let row = rows[index];
        if !has_disk(guids, marks, true, row.disk) {
            spans.set(row)?;
        }
    }
    Ok(spans)
}

/// The span of a disk that is out as that group is planned.
fn span_away(before: &StaleSpans, guid: u64, group: u64) -> StaleSpan
    ensures disk { result.disk ≡ guid }
    ensures to { result.to ≡ no_end }
    ensures from { LacksFrom before.now guid group result.from }
    ensures order { result.from ≤ result.to }
{
    let from = match before.get(guid) {
        Some(span) => span.from.min(group),
        None => group,
    };
    StaleSpan {
        disk: guid,
        from,
        to: NO_END,
    }
}

/// The spans as the group is planned, by those before: each disk that is out lacks its blocks, from that group on or from the beginning of the
/// span that it has. The guids are those of the disks by their numbers, and so are the marks of those that are out.
pub fn spans_after(
    alloc: Global,
    before: &StaleSpans,
    guids: &[u64],
    out: &[bool],
    group: u64,
) -> Result<StaleSpans, AllocError>
    ensures { IfOk result (AreSpansAfter guids.now out.now group before.now) }
{
    let mut after = spans_without(alloc, before, guids, out)?;
    for disk in 0..guids.len() {
        if is_marked(out, disk) {
            let span = span_away(before, guids[disk], group);
            after.set(span)?;
        }
    }
    Ok(after)
}
