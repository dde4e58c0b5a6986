//! The parity of what is due, made before it is written.
ghost use Rattle.std.specs.Prelude.{◌≡◌, ◌<◌, IfOk, OnOk, All};
ghost use Rattle.disk_set.specs.Making.{AreRowsOf, IsRowOf};

use crate::rows::{DueRows, MadeRow, RowRun};
use crate::set::DiskSet;
use model_disk::Disk;
use raidz_io::ColumnWrite;
use std::alloc::{AllocError, Global};
use std::collections::VecDeque;
use std::thread::Threads;
use worker_items::{Gate, make_all};

impl<D: Disk + Drop> DiskSet<D> {
    /// Makes the parity of what is due, where it is not made, by as many workers: worker k makes that of the extents i, in the
    /// order in which they are due, with i modulo the number of workers k, and passes the gate before each. What is due stays
    /// due. With no memory for it nothing is made: each parity is then made as it is written.
    pub fn make_due<R: Threads + Sync, G: Gate + Sync>(
        &mut self,
        rt: &R,
        alloc: Global,
        gate: &G,
        workers: usize,
    ) -> Result<(), AllocError>
        requires { 0 < workers }
        ensures { self.new ≡ self.old }
    {
        let made = made_rows(rt, alloc, gate, workers, &self.due)?;
        give_runs(&mut self.due, made);
        Ok(())
    }

    /// Makes the parity of what is due, where it is not made, on this thread. It takes no memory.
    pub fn make_due_here(&mut self)
        ensures { self.new ≡ self.old }
    {
        make_each(&mut self.due);
    }
}

/// Makes the bytes of each.
fn make_each(due: &mut VecDeque<ColumnWrite>)
    ensures { due.new.items ≡ due.old.items }
{
    for place in 0..due.len() {
        due[place].make();
    }
}

/// The rows of parity that are due and are not made, by workers.
fn made_rows<R: Threads + Sync, G: Gate + Sync>(
    rt: &R,
    alloc: Global,
    gate: &G,
    workers: usize,
    due: &VecDeque<ColumnWrite>,
) -> Result<Vec<Vec<MadeRow>>, AllocError>
    requires { 0 < workers }
    ensures { IfOk result (λ made.
        All (λ rows. AreRowsOf due.now.items rows.items) made.items) }
{
    let rows = DueRows {
        due,
        runs: row_runs(alloc, due)?,
    };
    make_all(rt, alloc, gate, workers, &rows)
}

/// Where the rows of parity are that are due and are not made, those of each extent together.
fn row_runs(alloc: Global, due: &VecDeque<ColumnWrite>) -> Result<Vec<RowRun>, AllocError> {
    let mut runs = Vec::new(alloc);
    for place in 0..due.len() {
        if let Some(row) = due[place].unmade_row() {
            add_row(&mut runs, place, row)?;
        }
    }
    Ok(runs)
}

/// Adds the row at that place: it goes on with the last run, where it is the next row of its extent.
fn add_row(runs: &mut Vec<RowRun>, place: usize, row: u8) -> Result<(), AllocError> {
    if let Some(run) = runs.last_mut() {
        if run.goes_on(place, row) {
            run.add(row);
            return Ok(());
        }
    }
    runs.push(RowRun::new(place, row))?;
    Ok(())
}

/// Gives each row of each run to its write.
fn give_runs(due: &mut VecDeque<ColumnWrite>, runs: Vec<Vec<MadeRow>>)
    requires { All (λ rows. AreRowsOf due.old.items rows.items) runs.items }
    ensures { due.new.items ≡ due.old.items }
{
    let mut runs = runs;
    while let Some(rows) = runs.pop() {
        give_rows(due, rows);
    }
}

/// Gives each row to its write.
fn give_rows(due: &mut VecDeque<ColumnWrite>, rows: Vec<MadeRow>)
    requires { AreRowsOf due.old.items rows.items }
    ensures { due.new.items ≡ due.old.items }
{
    let mut rows = rows;
    while let Some(row) = rows.pop() {
        give_row(due, row);
    }
}

/// Gives a row to its write.
fn give_row(due: &mut VecDeque<ColumnWrite>, row: MadeRow)
    requires { IsRowOf due.old.items row }
    ensures { due.new.items ≡ due.old.items }
{
    if let Some(write) = due.get_mut(row.place) {
        write.give(row.bytes);
    }
}
