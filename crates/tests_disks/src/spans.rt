//! Transaction groups that a disk missed, as calls name them.
use crate::lines::Call;
use disk_set::GroupSpan;
use std::alloc::Global;
use std::test::Fail;

/// The groups that a call names behind a disk.
pub fn span(call: &Call) -> GroupSpan {
    GroupSpan {
        from: call.number(1) as u64,
        to: call.number(2) as u64,
    }
}

/// The groups that this disk missed, and no other one.
pub fn missed(alloc: Global, call: &Call) -> Result<Vec<Option<GroupSpan>>, Fail> {
    let mut stale = vec![in alloc; None; call.number(0).min(9)]?;
    stale.push(Some(span(call)))?;
    Ok(stale)
}
