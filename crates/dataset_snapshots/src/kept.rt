//! The directory under a root as it is kept in memory.
ghost use Rattle.std.specs.Prelude.{◌≡◌, ◌+◌, ◌*◌, ◌<◌, IfOk, IfSome};

use dataset_groups::FIRST_OBJECT;
use meta_objset::{Directory, DirectoryRow};
use objset::{Change, ObjectChange};
use pool_maps::FreeMetaslab;
use std::alloc::{AllocError, Global};
use std::marker::Model;

/// Numbers in a row, from the first to the one before the end.
#[derive(Clone, Copy)]
pub(crate) struct NumberRun {
    pub first: u64,
    pub end: u64,
}

/// The directory under a root, and numbers that no object has there, as far as is known. New datasets take such numbers again before any
/// behind all objects. Each is looked at first, so that a pool is whole whatever is kept here.
#[derive(Drop)]
pub struct KeptDirectory {
    directory: Directory,
    /// In ascending order.
    free: Vec<NumberRun>,
}

impl Model for KeptDirectory {
    ghost use Rattle.std.specs.Prelude.{List};
    ghost use Rattle.meta_objset.specs.declared.directory.DirectoryRow.{DirectoryRow};

    ghost Value = { List DirectoryRow };

    ghost view = { λ kept. kept.directory };
}

impl KeptDirectory {
    /// A directory of which no free numbers are known.
    pub fn new(alloc: Global, directory: Directory) -> KeptDirectory
        ensures { result ≡ directory }
    {
        KeptDirectory {
            directory,
            free: Vec::new(alloc),
        }
    }

    /// The directory of a meta object set whose objects are below `objects`: those numbers behind the tables are free that no space map has,
    /// and no record or dead list, which are the numbers in `taken`.
    pub(crate) fn opened(
        alloc: Global,
        directory: Directory,
        mut taken: Vec<u64>,
        maps: &[FreeMetaslab],
        objects: u64,
    ) -> Result<KeptDirectory, AllocError>
        ensures { IfOk result (λ kept. kept ≡ directory) }
    {
        for map in maps {
            taken.push(map.object)?;
        }
        taken.as_mut_slice().sort_unstable();
        let free = gaps(alloc, &taken, objects)?;
        Ok(KeptDirectory { directory, free })
    }

    /// The directory after these changes of the meta object set: objects that go leave their numbers free, and those that are made take theirs.
    pub(crate) fn after(
        &self,
        alloc: Global,
        directory: Directory,
        changes: &[ObjectChange],
    ) -> Result<KeptDirectory, AllocError>
        ensures { IfOk result (λ kept. kept ≡ directory) }
    {
        let mut runs = not_made(alloc, &self.free, changes)?;
        add_gone(&mut runs, changes)?;
        runs.sort_by_key(|run| run.first)?;
        let free = joined(alloc, &runs)?;
        Ok(KeptDirectory { directory, free })
    }

    /// The directory.
    pub fn directory(&self) -> &Directory
        ensures { result.now ≡ self.now }
    {
        &self.directory
    }

    /// Its rows, in the order of their names.
    pub fn rows(&self) -> &[DirectoryRow]
        ensures value { result.now ≡ self.now }
    {
        self.directory.rows()
    }

    /// Its rows once more.
    pub(crate) fn copied(&self) -> Result<Directory, AllocError>
        ensures { IfOk result (λ copy. copy ≡ self.now) }
    {
        self.directory.copied()
    }

    /// Numbers in a row that are free, as far as is known: two for each of so many datasets.
    pub(crate) fn run_for(&self, datasets: usize) -> Option<NumberRun>
        ensures { IfSome result (λ run. (4 < run.first)
            × (run.end ≡ run.first + 2 * datasets)) }
    {
        let wanted = (datasets as u64).checked_mul(2)?;
        let first = first_of(&self.free, wanted)?;
        let end = first.checked_add(wanted)?;
        if first < FIRST_OBJECT {
            return None;
        }
        Some(NumberRun { first, end })
    }
}

/// The first number of the first run of so many; nothing of none.
fn first_of(runs: &[NumberRun], wanted: u64) -> Option<u64> {
    if wanted == 0 {
        return None;
    }
    for run in runs {
        if run.end.saturating_sub(run.first) >= wanted {
            return Some(run.first);
        }
    }
    None
}

/// The numbers behind the tables and below the end that are not among these, which ascend.
fn gaps(alloc: Global, taken: &[u64], end: u64) -> Result<Vec<NumberRun>, AllocError> {
    let mut runs = Vec::new(alloc);
    let mut first = FIRST_OBJECT;
    for number in taken {
        if first < *number {
            let end = *number;
            runs.push(NumberRun { first, end })?;
        }
        first = first.max(number.saturating_add(1));
    }
    if first < end {
        runs.push(NumberRun { first, end })?;
    }
    Ok(runs)
}

/// What is left of runs behind the objects that are made: these take the first numbers of a run.
fn not_made(
    alloc: Global,
    runs: &[NumberRun],
    changes: &[ObjectChange],
) -> Result<Vec<NumberRun>, AllocError> {
    let mut left = Vec::new(alloc);
    for run in runs {
        let first = behind_made(*run, changes);
        let end = run.end;
        if first < end {
            left.push(NumberRun { first, end })?;
        }
    }
    Ok(left)
}

/// The first number of a run behind the objects that are made in it.
fn behind_made(run: NumberRun, changes: &[ObjectChange]) -> u64 {
    let mut first = run.first;
    for change in changes {
        let is_within = first <= change.number && change.number < run.end;
        if is_within && matches!(&change.change, Change::Create { .. }) {
            first = change.number.saturating_add(1);
        }
    }
    first
}

/// Adds the numbers of objects that go.
fn add_gone(runs: &mut Vec<NumberRun>, changes: &[ObjectChange]) -> Result<(), AllocError> {
    for change in changes {
        if matches!(&change.change, Change::Free) {
            let first = change.number;
            let end = first.saturating_add(1);
            runs.push(NumberRun { first, end })?;
        }
    }
    Ok(())
}

/// Runs in the order of their first numbers, those that follow one another as one.
fn joined(alloc: Global, runs: &[NumberRun]) -> Result<Vec<NumberRun>, AllocError> {
    let mut joined: Vec<NumberRun> = Vec::new(alloc);
    for run in runs {
        match joined.as_mut_slice().last_mut() {
            Some(last) if run.first <= last.end => last.end = last.end.max(run.end),
            _ => joined.push(*run)?,
        }
    }
    Ok(joined)
}
