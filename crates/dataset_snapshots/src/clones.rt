//! The snapshots that the clones of a pool are of, by the records of its datasets.
ghost use Rattle.std.specs.Prelude.{◌≡◌, List, None, All, Contains, IfSome, IfNone, IfOk, OnOk};
ghost use Rattle.std.specs.List.{AllZip};
ghost use Rattle.meta_objset.specs.declared.directory.DirectoryRow.{DirectoryRow};
ghost use Rattle.meta_objset.specs.Names.{IsName};
ghost use Rattle.pool_model.specs.declared.volume.PlainVolume.{PlainVolume};
ghost use Rattle.pool_model.specs.Pools.{PlainPool};
ghost use Rattle.volume_rules.specs.Index.{Knows};
ghost use Rattle.dataset_snapshots.specs.declared.chaining.RowRecord.{RowRecord};
ghost use Rattle.dataset_snapshots.specs.Chaining.{IsIndexOf};
ghost use Rattle.dataset_snapshots.specs.Clones.{HasNames, HasToldOrigin, IsRowIndex, IsSetBy, RowBranchesOff};
ghost use Rattle.dataset_snapshots.specs.Clones.{TellsClone, TellsOrigin};

use crate::finding::name_in;
use meta_objset::{DatasetRecord, DirectoryRow};
use std::alloc::{AllocError, Global};
use std::collections::HashMap;
use volume_rules::NameIndex;

/// Sets the origin of each volume that is a clone by the rows and the records of their objects. Where more than one is told of a volume,
/// the last row's stands.
pub(crate) fn set_origins(
    alloc: Global,
    names: &mut NameIndex,
    rows: &[DirectoryRow],
    records: &HashMap<u64, DatasetRecord>,
) -> Result<(), AllocError>
    requires { All (λ row. IsName row.name) rows.now }
    ensures { OnOk result ((all : List RowRecord) (pool : PlainPool) → IsIndexOf all records.now
        → All (λ volume. volume.origin ≡ None) pool.volumes → Knows names.old pool
        → (volumes : List PlainVolume)
        × AllZip (HasToldOrigin (TellsOrigin rows.now all)) pool.volumes volumes
        × Knows names.new (record { volumes = volumes })) }
{
    let by_object = rows_by_object(alloc, rows)?;
    for row in rows {
        set_by_row(alloc, names, row, records, &by_object)?;
    }
    Ok(())
}

/// The rows by their objects.
fn rows_by_object(
    alloc: Global,
    rows: &[DirectoryRow],
) -> Result<HashMap<u64, DirectoryRow>, AllocError>
    ensures { IfOk result (IsRowIndex rows.now) }
{
    let mut index = HashMap::new(alloc);
    for row in rows {
        let _ = index.insert(row.object, *row)?;
    }
    Ok(index)
}

/// Sets the origin of the volume that the row is of, if the row branches off a snapshot.
fn set_by_row(
    alloc: Global,
    names: &mut NameIndex,
    row: &DirectoryRow,
    records: &HashMap<u64, DatasetRecord>,
    by_object: &HashMap<u64, DirectoryRow>,
) -> Result<(), AllocError>
    requires named { IsName row.now.name }
    requires others { HasNames by_object.now }
    ensures { OnOk result ((rows : List DirectoryRow) (all : List RowRecord) (pool : PlainPool)
        → IsIndexOf all records.now → IsRowIndex rows by_object.now → Knows names.old pool
        → (volumes : List PlainVolume)
        × AllZip (IsSetBy (TellsClone rows all row.now)) pool.volumes volumes
        × Knows names.new (record { volumes = volumes })) }
{
    let Some(before) = branches_off(row, records, by_object) else {
        return Ok(());
    };
    let volume = name_in(alloc, row)?.volume_part(alloc)?;
    names.set_origin(&volume, name_in(alloc, &before)?);
    Ok(())
}

/// The row that a row branches off.
fn branches_off(
    row: &DirectoryRow,
    records: &HashMap<u64, DatasetRecord>,
    by_object: &HashMap<u64, DirectoryRow>,
) -> Option<DirectoryRow>
    requires { HasNames by_object.now }
    ensures some { IfSome result (λ before. (rows : List DirectoryRow) (all : List RowRecord)
        → IsIndexOf all records.now → IsRowIndex rows by_object.now
        → Contains rows before × RowBranchesOff all row.now before) }
    ensures none { IfNone result ((rows : List DirectoryRow) (all : List RowRecord)
        → IsIndexOf all records.now → IsRowIndex rows by_object.now
        → (before : DirectoryRow) → Contains rows before → ¬ RowBranchesOff all row.now before) }
    ensures named { IfSome result (λ before. IsName before.name) }
{
    let record = records.get(&row.object)?;
    if record.previous == 0 {
        return None;
    }
    let before = records.get(&record.previous)?;
    if before.next == row.object {
        return None;
    }
    by_object.get(&record.previous).copied()
}
