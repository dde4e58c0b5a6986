//! The table's rows of a pool's names.
ghost use Rattle.std.specs.Prelude.{◌≡◌, IfOk, map};
ghost use Rattle.commands.specs.Rows.{listed};
ghost use Rattle.file_pools.specs.Telling.{listed_at};

use pool_command::VolumeRow;
use pool_create::NamedShape;
use pool_model::Refusal;
use std::alloc::Global;

/// The row of a name. `BadPointer` where it is no text.
fn volume_row(alloc: Global, row: &NamedShape) -> Result<VolumeRow, Refusal>
    ensures { IfOk result (λ told. listed told ≡ listed_at row.now) }
{
    let Ok(name) = row.name.copied(alloc) else {
        return Err(Refusal::NoMemory);
    };
    let Ok(name) = String::from_utf8(name.into_vec()) else {
        return Err(Refusal::BadPointer);
    };
    Ok(VolumeRow {
        name,
        size: row.shape.size,
        block_size: row.shape.block_size,
        group: row.shape.group,
    })
}

/// The rows of these names, in their order.
pub(crate) fn volume_rows(alloc: Global, rows: &[NamedShape]) -> Result<Vec<VolumeRow>, Refusal>
    ensures { IfOk result (λ told. map listed told.items ≡ map listed_at rows.now) }
{
    let mut told = Vec::new(alloc);
    for row in rows {
        let Ok(()) = told.push(volume_row(alloc, row)?) else {
            return Err(Refusal::NoMemory);
        };
    }
    Ok(told)
}
