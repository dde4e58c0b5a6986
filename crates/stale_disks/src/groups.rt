//! The transaction groups that the disks of a pool missed.
ghost use Rattle.std.specs.Prelude.{◌≡◌, IfOk};
ghost use Rattle.stale_disks.specs.Rules.{groups_of, stale_groups};

use disk_set::GroupSpan;
use meta_objset::StaleSpans;
use std::alloc::{AllocError, Global};

/// The groups of the span that the disk of this guid has, if it has one.
fn groups_of(spans: &StaleSpans, guid: u64) -> Option<GroupSpan>
    ensures { result ≡ groups_of spans.now guid }
{
    spans
        .rows()
        .iter()
        .find(|span| span.disk == guid)
        .map(|span| GroupSpan {
            from: span.from,
            to: span.to,
        })
}

/// Of each disk, in the order of these guids, the transaction groups whose blocks it may lack by these spans, if it has one.
pub fn stale_groups(
    alloc: Global,
    spans: &StaleSpans,
    guids: &[u64],
) -> Result<Vec<Option<GroupSpan>>, AllocError>
    ensures { IfOk result (λ stale. stale.items ≡ stale_groups spans.now guids.now) }
{
    let mut stale = Vec::new(alloc);
    for guid in guids {
        stale.push(groups_of(spans, *guid))?;
    }
    Ok(stale)
}
