//! The table of volumes.
ghost use Rattle.std.specs.Prelude.{◌≡◌, ◌++◌, IfOk, OnOk, string_bytes};
ghost use Rattle.pool_command.specs.Tables.{list_text, rows_text};

use std::alloc::{AllocError, Global};
use std::fmt;

/// A volume, or a snapshot, in the table. It prints as its line, without a line feed: the name left in 56 places, and the numbers
/// right in 14, 8 and 12. A group of 12 digits or more takes the places that it needs, behind one space.
#[derive(Drop)]
pub struct VolumeRow {
    /// In full: a snapshot's has its volume's in front.
    pub name: String,
    /// In bytes.
    pub size: u64,
    /// In bytes.
    pub block_size: u64,
    /// The group that made it.
    pub group: u64,
}

impl fmt::Display for VolumeRow {
    ghost use Rattle.std.specs.Prelude.{Some};
    ghost use Rattle.pool_command.specs.Tables.{row_text};

    ghost output = { λ row. Some (row_text row) };

    fn fmt<W: fmt::Write>(&self, f: &mut fmt::Formatter<W>) -> fmt::Result {
        let name = self.name.as_str();
        let size = self.size;
        let block = self.block_size;
        let group = self.group;
        write!(f, "{name:<56}{size:>14}{block:>8} {group:>11}")
    }
}

const HEADER: &str =
    "NAME                                                              SIZE   BLOCK       GROUP\n";

fn push_rows(text: &mut String, rows: &[VolumeRow]) -> Result<(), AllocError>
    ensures { OnOk result (string_bytes text.new ≡ string_bytes text.old ++ rows_text rows.now) }
{
    for row in rows {
        writeln!(text, "{row}")?;
    }
    Ok(())
}

/// The table: a header, and a line for each row, in the order in which they stand. `NAME` stands left in 56 places, `SIZE` right
/// in 14, `BLOCK` in 8 and `GROUP` in 12.
pub fn list_text(alloc: Global, rows: &[VolumeRow]) -> Result<String, AllocError>
    ensures { IfOk result (λ text. string_bytes text ≡ list_text rows.now) }
{
    let mut text = String::from_str(alloc, HEADER)?;
    push_rows(&mut text, rows)?;
    Ok(text)
}
