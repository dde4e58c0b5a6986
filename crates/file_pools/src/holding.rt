//! Disks in files that no other command has.
ghost use Rattle.std.specs.Prelude.{IfErr};
ghost use Rattle.file_pools.specs.Opening.{IsNotHeld, IsNotMade};

use crate::refusal::Refusal;
use model_disk::{Disk, FileDisk};
use pool_command::{Files as Paths, NewPool};
use progress::{MeteredDisk, ReadMeter};
use std::alloc::{AllocError, Global};
use std::fs::{self, File, Files, TryLockError};
use std::io::Write;
use std::rc::Rc;

/// A disk in a file whose reads are counted.
pub(crate) type MeteredFile<W> = MeteredDisk<FileDisk, W>;

/// Disks in files, and what keeps other commands from them until it is dropped.
#[derive(Drop)]
pub(crate) struct HeldDisks<W> {
    pub(crate) disks: Vec<MeteredFile<W>>,
    pub(crate) locks: Vec<File>,
}

/// Locks the file at this path: none where it can't be opened or locked. `Busy` where another command has it.
fn lock<F: Files<File = File>>(files: &F, path: &str) -> Result<Option<File>, Refusal>
    ensures { IfErr result IsNotHeld }
{
    let Ok(file) = File::open(files, path) else {
        return Ok(None);
    };
    match file.try_lock() {
        Ok(()) => Ok(Some(file)),
        Err(TryLockError::WouldBlock) => Err(Refusal::Busy),
        Err(TryLockError::Error(_)) => Ok(None),
    }
}

/// Whether the path is one of these.
pub(crate) fn is_among(path: &str, paths: &[String]) -> bool {
    paths.iter().any(|other| other.as_str() == path)
}

/// Puts a disk behind these, whose reads are counted there.
fn put<W: Write + Drop>(
    disks: &mut Vec<MeteredFile<W>>,
    disk: FileDisk,
    meter: &Rc<ReadMeter<W>>,
) -> Result<(), AllocError> {
    let meter = meter.clone()?;
    disks.push(MeteredDisk::new(disk, meter))?;
    Ok(())
}

/// The disks in those files that can be opened, in their order, whose reads are counted there. `Busy` where another command has one. A path that
/// stands twice is locked once, and gives two disks.
pub(crate) fn hold<F: Files<File = File>, W: Write + Drop>(
    alloc: Global,
    files: &F,
    paths: &Paths,
    meter: &Rc<ReadMeter<W>>,
) -> Result<HeldDisks<W>, Refusal>
    ensures { IfErr result IsNotHeld }
{
    let mut disks = Vec::new(alloc);
    let mut locks = Vec::new(alloc);
    let paths = paths.as_slice();
    for i in 0..paths.len() {
        let path = paths[i].as_str();
        if !is_among(path, &paths[..i]) {
            let Some(file) = lock(files, path)? else {
                continue;
            };
            locks.push(file)?;
        }
        if let Ok(disk) = FileDisk::open(files, path) {
            put(&mut disks, disk, meter)?;
        }
    }
    Ok(HeldDisks { disks, locks })
}

/// Removes the first of these files.
pub(crate) fn remove<F: Files<File = File>>(files: &F, paths: &Paths, count: usize) {
    for path in paths.as_slice().iter().take(count) {
        let _ = fs::remove_file(files, path.as_str());
    }
}

/// Makes a file of so many zeros and locks it, where it can be locked. One that another command has locked by then is removed again.
fn make_one<F: Files<File = File>>(
    files: &F,
    path: &str,
    bytes: u64,
) -> Option<(FileDisk, Option<File>)> {
    let disk = FileDisk::create(files, path, bytes).ok()?;
    match lock(files, path) {
        Ok(lock) => Some((disk, lock)),
        Err(_) => {
            let _ = fs::remove_file(files, path);
            None
        }
    }
}

/// Makes the files of a new pool, of zeros, and keeps other commands from them; where one of them can't be made the others are removed. The reads of
/// its disks are counted there.
pub(crate) fn make<F: Files<File = File>, W: Write + Drop>(
    alloc: Global,
    files: &F,
    pool: &NewPool,
    meter: &Rc<ReadMeter<W>>,
) -> Result<HeldDisks<W>, Refusal>
    ensures { IfErr result (IsNotMade ⟦<MeteredDisk<FileDisk, W> as Disk>⟧ pool.now) }
{
    let paths = &pool.files;
    let mut disks = Vec::new(alloc);
    let mut locks = Vec::new(alloc);
    for path in paths.as_slice() {
        let made = disks.len();
        let Some((disk, lock)) = make_one(files, path.as_str(), pool.bytes) else {
            remove(files, paths, made);
            return Err(Refusal::NotMade);
        };
        let kept = match lock {
            Some(lock) => locks.push(lock).is_ok(),
            None => true,
        };
        if put(&mut disks, disk, meter).is_err() || !kept {
            remove(files, paths, made + 1);
            return Err(Refusal::Pool(pool_create::Refusal::NoMemory));
        }
    }
    Ok(HeldDisks { disks, locks })
}
