//! The columns of a block at the place of a copy.
ghost use Rattle.std.specs.Prelude.{◌≡◌, ◌<◌, ◌≤◌, ◌*◌, Some, length, slice_get, All, IfOk};
ghost use Rattle.raidz_io.specs.Places.{sizes_of};
ghost use Rattle.raidz_io.specs.Stands.{all_columns};
ghost use Rattle.scrub_resilver.specs.Columns.{IsSpread};

use arrayvec::ArrayVec;
use raidz_io::Extent;
use raidz_map::{Column, SECTOR_BYTES};
use raidz_parity::Columns;
use std::alloc::{AllocError, Global};

/// The columns of a block, and where they lie, those of the parity first.
#[derive(Drop)]
pub(crate) struct SpreadBlock {
    pub(crate) layout: ArrayVec<Column, 32>,
    pub(crate) columns: Columns,
    pub(crate) parity: usize,
}

/// How many bytes each column has.
#[tactic(auto, using(raidz_io::proofs::Sizes::sizes_of_more))]
fn sizes(columns: &[Column]) -> ArrayVec<usize, 32>
    requires { length columns.now ≤ 32 }
    ensures { result.items ≡ sizes_of columns.now }
{
    let mut sizes = ArrayVec::new();
    for column in columns {
        sizes.push(column.sectors as usize * SECTOR_BYTES as usize);
    }
    sizes
}

/// The columns of the block at this place, with its parity.
pub(crate) fn spread(
    alloc: Global,
    extent: Extent,
    block: Vec<u8>,
) -> Result<SpreadBlock, AllocError>
    requires { length block.items ≡ extent.sectors * 512 }
    ensures { IfOk result (IsSpread extent block.items) }
{
    let parity = extent.vdev.geometry.parity as usize;
    let layout = extent
        .vdev
        .geometry
        .map(extent.start, extent.sectors)
        .columns;
    let (_, data) = layout.as_slice().split_at(parity);
    let sizes = sizes(data);
    are_bytes(block.as_slice());
    let columns = Columns::generate(alloc, parity, sizes, block)?;
    Ok(SpreadBlock {
        layout,
        columns,
        parity,
    })
}

/// A byte is below 256.
fn are_bytes(block: &[u8])
    ensures { All (λ byte. byte < 256) block.now }
{
    let _len = block.len();
}

impl SpreadBlock {
    /// The bytes of a column.
    pub(crate) fn bytes(&self, column: usize) -> &[u8]
        requires within { column < length (all_columns self.now.columns) }
        requires parity { self.now.parity ≡ length self.now.columns.parity }
        ensures { slice_get (all_columns self.now.columns) column ≡ Some result.now }
    {
        if column < self.parity {
            self.columns.parity(column)
        } else {
            self.columns.column(column - self.parity)
        }
    }
}
