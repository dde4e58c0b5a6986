//! Whether the records of a pool's datasets fit one another in chains.
ghost use Rattle.std.specs.Prelude.{◌≡◌, ◌↔◌, ◌+◌, List, IsTrue, IfOk, nat_eq};
ghost use Rattle.std.specs.HashMap.{get};
ghost use Rattle.std.specs.Map.{count_at};
ghost use Rattle.meta_objset.specs.declared.record.DatasetKind.TheVariants as kinds;
ghost use Rattle.dataset_snapshots.specs.Chaining.{AreChained, AreCountsOf, IsBehindOne, IsChained, IsFollowed};
ghost use Rattle.dataset_snapshots.specs.Chaining.{IsIndexIfChained, IsIndexIfOnce, IsIndexOf};
ghost use Rattle.dataset_snapshots.specs.declared.chaining.RowRecord.{RowRecord as ARowRecord};

use meta_objset::{DatasetKind, DatasetRecord};
use std::alloc::{AllocError, Global};
use std::collections::HashMap;

/// The record of the object of a row.
#[derive(Clone, Copy)]
pub(crate) struct RowRecord {
    pub object: u64,
    pub record: DatasetRecord,
}

/// The record of each object, where each is there once, and each record fits the others: what is before it is a snapshot, or nothing;
/// what comes next to a snapshot names that as what is before it; and a snapshot counts its clones, which are all others that do.
pub(crate) fn chained_index(
    alloc: Global,
    records: &[RowRecord],
) -> Result<Option<HashMap<u64, DatasetRecord>>, AllocError>
    ensures { IfOk result (IsIndexIfChained records.now) }
{
    let Some(index) = index_of(alloc, records)? else {
        return Ok(None);
    };
    let counts = count_behind(alloc, records)?;
    if !all_chained(records, &index, &counts) {
        return Ok(None);
    }
    Ok(Some(index))
}

/// The record of each object; nothing where one is there twice.
fn index_of(
    alloc: Global,
    records: &[RowRecord],
) -> Result<Option<HashMap<u64, DatasetRecord>>, AllocError>
    ensures { IfOk result (IsIndexIfOnce records.now) }
{
    let mut index = HashMap::new(alloc);
    for one in records {
        if index.insert(one.object, one.record)?.is_some() {
            return Ok(None);
        }
    }
    Ok(Some(index))
}

/// How many have each object before them.
fn count_behind(alloc: Global, records: &[RowRecord]) -> Result<HashMap<u64, u64>, AllocError>
    ensures { IfOk result (AreCountsOf records.now) }
{
    let mut counts = HashMap::new(alloc);
    for one in records {
        let previous = one.record.previous;
        let count = count_of(&counts, previous);
        counts.insert(previous, count + 1)?;
    }
    Ok(counts)
}

/// What is counted of an object.
fn count_of(counts: &HashMap<u64, u64>, object: u64) -> u64
    ensures { result ≡ count_at (get nat_eq counts.now) object }
{
    counts.get(&object).copied().unwrap_or(0)
}

/// Whether each record fits the others, by their index and counts.
fn all_chained(
    records: &[RowRecord],
    index: &HashMap<u64, DatasetRecord>,
    counts: &HashMap<u64, u64>,
) -> bool
    requires indexed { IsIndexOf records.now index.now }
    requires counted { AreCountsOf records.now counts.now }
    ensures { IsTrue result ↔ AreChained records.now }
{
    for one in records {
        if !is_chained(one, index, counts) {
            return false;
        }
    }
    true
}

/// Whether a record fits the others.
fn is_chained(
    one: &RowRecord,
    index: &HashMap<u64, DatasetRecord>,
    counts: &HashMap<u64, u64>,
) -> bool
    ensures { (records : List ARowRecord) → IsIndexOf records index.now
        → AreCountsOf records counts.now → IsTrue result ↔ IsChained records one.now }
{
    is_behind_one(&one.record, index)
        && (!is_snapshot(one.record.kind) || is_followed(one, index) && is_counted(one, counts))
}

fn is_snapshot(kind: DatasetKind) -> bool
    ensures { IsTrue result ↔ (kind ≡ kinds.Snapshot) }
{
    matches!(kind, DatasetKind::Snapshot)
}

/// Whether what is before it is a snapshot, or nothing is.
fn is_behind_one(record: &DatasetRecord, index: &HashMap<u64, DatasetRecord>) -> bool
    ensures { (records : List ARowRecord) → IsIndexOf records index.now
        → IsTrue result ↔ IsBehindOne records record.now }
{
    if record.previous == 0 {
        return true;
    }
    match index.get(&record.previous) {
        Some(before) => is_snapshot(before.kind),
        None => false,
    }
}

/// Whether what comes next to a snapshot names it as what is before it.
fn is_followed(one: &RowRecord, index: &HashMap<u64, DatasetRecord>) -> bool
    ensures { (records : List ARowRecord) → IsIndexOf records index.now
        → IsTrue result ↔ IsFollowed records one.now }
{
    match index.get(&one.record.next) {
        Some(next) => next.previous == one.object,
        None => false,
    }
}

/// Whether a snapshot has as many clones as have it before them, but for what comes next to it.
fn is_counted(one: &RowRecord, counts: &HashMap<u64, u64>) -> bool
    ensures { IsTrue result
        ↔ (count_at (get nat_eq counts.now) (one.now).object ≡ (one.now).record.clones + 1) }
{
    count_of(counts, one.object).checked_sub(1) == Some(one.record.clones)
}
