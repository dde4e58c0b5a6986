//! Disks that are back as a pool is opened.
ghost use Rattle.std.specs.Prelude.{◌≡◌, ◌≤◌, IfOk, IfSome, None};
ghost use Rattle.meta_objset.specs.declared.stale_spans.StaleSpan.{StaleSpan as Span};
ghost use Rattle.stale_disks.specs.Rules.{AreSpansOpened, OpensAs};

use crate::away::NO_END;
use crate::disks::has_disk;
use meta_objset::{StaleSpan, StaleSpans};
use std::alloc::{AllocError, Global};

/// The row's span as the group is opened, if it is one.
fn opened_as(row: StaleSpan, guids: &[u64], out: &[bool], group: u64) -> Option<StaleSpan>
    requires { row.from ≤ row.to }
    ensures some { IfSome result (OpensAs guids.now out.now group row) }
    ensures disk { IfSome result (λ span. span.disk ≡ row.disk) }
    ensures order { IfSome result (λ span. span.from ≤ span.to) }
    ensures none { result ≡ None → (span : Span) → ¬ OpensAs guids.now out.now group row span }
{
    if row.to != NO_END || !has_disk(guids, out, false, row.disk) {
        return Some(row);
    }
    if row.from > group {
        return None;
    }
    Some(StaleSpan { to: group, ..row })
}

/// The spans as the group is opened, by its table: a disk that is there and was away until then lacks blocks up to that group. The guids are
/// those of the disks by their numbers, and so are the marks of those that are out.
pub fn spans_opened(
    alloc: Global,
    table: &StaleSpans,
    guids: &[u64],
    out: &[bool],
    group: u64,
) -> Result<StaleSpans, AllocError>
    ensures { IfOk result (AreSpansOpened guids.now out.now group table.now) }
{
    let mut spans = StaleSpans::new(alloc);
    let rows = table.rows();
    for index in 0..rows.len() {
        let row = rows[index];
        if let Some(span) = opened_as(row, guids, out, group) {
            spans.set(span)?;
        }
    }
    Ok(spans)
}
