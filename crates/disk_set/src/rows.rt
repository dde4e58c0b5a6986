//! Rows of parity that are due, as items that workers make.
ghost use Rattle.std.specs.Prelude.{IfOk, IfSome};
ghost use Rattle.disk_set.specs.Making.{AreRowsOf, IsRowOf};

use raidz_io::ColumnWrite;
use std::alloc::{AllocError, Global};
use std::collections::VecDeque;
use worker_items::Items;

/// A row of parity that was made, and the place of its write among those that are due.
#[derive(Drop)]
pub(crate) struct MadeRow {
    pub(crate) place: usize,
    pub(crate) bytes: Vec<u8>,
}

/// The places from `first` to before `end`, of rows of parity of one extent that are due one behind the other.
#[derive(Clone, Copy, Drop)]
pub(crate) struct RowRun {
    first: usize,
    end: usize,
    /// The last of the rows.
    row: u8,
}

/// The rows of parity that are due and are not made. Those of one extent are one item.
#[derive(Drop)]
pub(crate) struct DueRows<'a> {
    pub(crate) due: &'a VecDeque<ColumnWrite>,
    pub(crate) runs: Vec<RowRun>,
}

impl RowRun {
    /// One row at this place.
    pub(crate) fn new(place: usize, row: u8) -> Self {
        RowRun {
            first: place,
            end: place.saturating_add(1),
            row,
        }
    }

    /// Whether this row at this place is the next one of the extent.
    pub(crate) fn goes_on(&self, place: usize, row: u8) -> bool {
        self.end == place && self.row < row
    }

    /// The next row of the extent is one of the run.
    pub(crate) fn add(&mut self, row: u8) {
        self.end = self.end.saturating_add(1);
        self.row = row;
    }
}

impl<'a> Items<Vec<MadeRow>> for DueRows<'a> {
    ghost use Rattle.std.specs.Prelude.{vec_len};
    ghost use Rattle.disk_set.specs.Making.{AreRowsOf};

    ghost count = { λ rows. vec_len rows.runs };

    ghost is_item = { λ rows _ made. AreRowsOf rows.due.now.items made.items };

    fn count(&self) -> usize {
        self.runs.len()
    }

    fn make(&self, alloc: Global, number: usize) -> Result<Vec<MadeRow>, AllocError> {
        let run = self.runs[number];
        rows_between(alloc, self.due, run.first, run.end)
    }
}

/// The parities among the due writes at these places, made.
fn rows_between(
    alloc: Global,
    due: &VecDeque<ColumnWrite>,
    first: usize,
    end: usize,
) -> Result<Vec<MadeRow>, AllocError>
    ensures { IfOk result (λ rows. AreRowsOf due.now.items rows.items) }
{
    let mut rows = Vec::new(alloc);
    for place in first..end {
        if let Some(row) = row_at(alloc, due, place)? {
            rows.push(row)?;
        }
    }
    Ok(rows)
}

/// The parity that is due at this place, made.
fn row_at(
    alloc: Global,
    due: &VecDeque<ColumnWrite>,
    place: usize,
) -> Result<Option<MadeRow>, AllocError>
    ensures { IfOk result (λ found. IfSome found (IsRowOf due.now.items)) }
{
    let Some(write) = due.get(place) else {
        return Ok(None);
    };
    match write.parity(alloc)? {
        Some(bytes) => Ok(Some(MadeRow { place, bytes })),
        None => Ok(None),
    }
}
