//! Pools in files.
ghost use Rattle.std.specs.Prelude.{◌≡◌, IfErr, IfOk, OnOk};
ghost use Rattle.file_pools.specs.Opening.{IsMadePool, IsNotMade, IsNotOpened, IsNotScrubbed, IsOpenedPool, IsScrubbedPool};
ghost use Rattle.pool_create.specs.CoreStateOf.{state_of};

use crate::asking::asked;
use crate::explaining::{misfit_of, why_strange};
use crate::holding::{HeldDisks, MeteredFile, hold, is_among, make, remove};
use crate::pool::PoolFront;
use crate::refusal::Refusal;
use crate::rows::volume_rows;
use crate::telling::{has_lost, status_of};
use block_store::sectors_for_blocks;
use commands::Pools;
use model_disk::{Disk, FileDisk, Member};
use pool_command::{Files as Paths, NewPool, PoolStatus, ScrubReport, VolumeRow};
use pool_create::{Core, NotExported, OpenedPool, create, export, open};
use pool_model::Refusal as StepRefusal;
use pool_scrub::{ScrubCounts, Scrubbed, scrub};
use progress::{MeteredDisk, ReadMeter};
use std::alloc::{AllocError, Global};
use std::fs::{File, Files};
use std::io::Write;
use std::rc::Rc;

/// The core of a pool in files.
pub type FileCore<W> = Core<Member<MeteredDisk<FileDisk, W>>>;

/// Pools whose disks are files.
#[derive(Drop)]
pub struct FilePools<'a, F: Files<File = File>, W: Write + Copy> {
    files: &'a F,
    /// Where a scrub tells how much it has looked at.
    errors: W,
    /// The program's name, which each such line begins with.
    program: &'static str,
    /// The bytes between two such lines, whole MiB. Nothing is told where it is 0.
    interval: u64,
}

impl<'a, F: Files<File = File>, W: Write + Copy> FilePools<'a, F, W> {
    /// The pools in these files. A scrub tells, in the program's name, a line behind a read that fills another interval of so many bytes, whole
    /// MiB, of all its disks; none where these are 0. No other command tells what it reads.
    pub fn new(files: &'a F, errors: W, program: &'static str, interval: u64) -> FilePools<'a, F, W>
        ensures files { result.files.now ≡ files.now }
        ensures errors { result.errors ≡ errors }
        ensures program { result.program.now ≡ program.now }
        ensures interval { result.interval ≡ interval }
    {
        FilePools {
            files,
            errors,
            program,
            interval,
        }
    }

    /// Counts what one command reads of all its disks, and tells a line behind each such interval; none where it is 0.
    fn meter(&self, alloc: Global, interval: u64) -> Result<Rc<ReadMeter<W>>, AllocError> {
        let meter = ReadMeter::new(self.errors, self.program, interval);
        Ok(Rc::new(alloc, meter)?)
    }
}

/// The pool on these disks, opened and claimed.
fn opened<W: Write + Drop>(
    alloc: Global,
    held: HeldDisks<W>,
) -> Result<(FileCore<W>, PoolFront), Refusal>
    ensures opened { IfOk result (λ opened.
        IsOpenedPool ⟦<MeteredDisk<FileDisk, W> as Disk>⟧ (state_of opened.0) opened.1) }
    ensures refused { IfErr result (IsNotOpened ⟦<MeteredDisk<FileDisk, W> as Disk>⟧) }
{
    let HeldDisks { disks, locks } = held;
    let (opened, from) = match open(alloc, disks, 0) {
        Ok(opened) => opened,
        Err(failed) => return Err(Refusal::Pool(failed.refusal())),
    };
    let OpenedPool { core, uberblock } = opened;
    let absent = core.marks(alloc)?;
    let front = PoolFront {
        uberblock,
        name: from.identity.name,
        absent,
        locks,
    };
    Ok((core, front))
}

/// The pool on these disks, opened and scrubbed, and what was counted.
fn scrubbed<W: Write + Drop>(
    alloc: Global,
    held: HeldDisks<W>,
) -> Result<(FileCore<W>, PoolFront, ScrubReport), Refusal>
    ensures scrubbed { IfOk result (λ scrubbed.
        IsScrubbedPool ⟦<MeteredDisk<FileDisk, W> as Disk>⟧
        (state_of scrubbed.0) scrubbed.1 scrubbed.2) }
    ensures refused { IfErr result (IsNotScrubbed ⟦<MeteredDisk<FileDisk, W> as Disk>⟧) }
{
    let HeldDisks { disks, locks } = held;
    let Scrubbed { pool, from, counts } = match scrub(alloc, disks) {
        Ok(scrubbed) => scrubbed,
        Err((cause, _)) => return Err(Refusal::Pool(cause)),
    };
    let OpenedPool { core, uberblock } = pool;
    let absent = core.marks(alloc)?;
    let front = PoolFront {
        uberblock,
        name: from.identity.name,
        absent,
        locks,
    };
    let ScrubCounts {
        group,
        findings,
        left,
    } = counts;
    let report = ScrubReport {
        group,
        findings,
        left,
    };
    Ok((core, front, report))
}

/// Makes the pool that the line asks for on disks in new files.
fn made<W: Write + Drop>(
    alloc: Global,
    disks: Vec<MeteredFile<W>>,
    pool: &NewPool,
) -> Result<(), Refusal>
    ensures made { OnOk result (IsMadePool ⟦<MeteredDisk<FileDisk, W> as Disk>⟧ pool.now) }
    ensures refused { IfErr result (IsNotMade ⟦<MeteredDisk<FileDisk, W> as Disk>⟧ pool.now) }
{
    let (identity, config) = match asked(alloc, pool) {
        Ok(asked) => asked,
        Err(cause) => return Err(Refusal::Pool(cause)),
    };
    match create(alloc, disks, identity, config) {
        Ok(_) => return Ok(()),
        Err((cause, _)) => return Err(Refusal::Pool(cause)),
    }
}

impl<'a, F: Files<File = File>, W: Write + Copy> Pools for FilePools<'a, F, W> {
    ghost use Rattle.std.specs.Prelude.{string_bytes};
    ghost use Rattle.file_pools.specs.Opening.{IsMadePool, IsNotMade, IsNotOpened, IsNotPutAway, IsNotScrubbed, IsOpenedPool, IsPutAway, IsScrubbedPool};
    ghost use Rattle.file_pools.specs.Telling.{Shows, has_lost};
    ghost use Rattle.pool_create.specs.CoreStateOf.{state_of};

    type Pool = FileCore<W>;

    type Front = PoolFront;

    type Refusal = Refusal;

    ghost opens = { λ old files core front new. (new ≡ old)
        × IsOpenedPool ⟦<MeteredDisk<FileDisk, W> as Disk>⟧ (state_of core) front };

    ghost refuses = { λ old files cause new. (new ≡ old)
        × IsNotOpened ⟦<MeteredDisk<FileDisk, W> as Disk>⟧ cause };

    ghost scrubs = { λ old files core front report new. (new ≡ old)
        × IsScrubbedPool ⟦<MeteredDisk<FileDisk, W> as Disk>⟧ (state_of core) front report };

    ghost refuses_scrub = { λ old files cause new. (new ≡ old)
        × IsNotScrubbed ⟦<MeteredDisk<FileDisk, W> as Disk>⟧ cause };

    ghost makes = { λ old pool new. (new ≡ old)
        × IsMadePool ⟦<MeteredDisk<FileDisk, W> as Disk>⟧ pool };

    ghost refuses_new = { λ old pool cause new. (new ≡ old)
        × IsNotMade ⟦<MeteredDisk<FileDisk, W> as Disk>⟧ pool cause };

    ghost closes = { λ old core front new. new ≡ old };

    ghost exports = { λ old core front new. (new ≡ old)
        × IsPutAway ⟦<Member<MeteredDisk<FileDisk, W>> as Disk>⟧ (state_of core) };

    ghost refuses_export = { λ old core front cause new. (new ≡ old)
        × IsNotPutAway ⟦<Member<MeteredDisk<FileDisk, W>> as Disk>⟧ (state_of core) cause };

    ghost has_lost = { λ core front.
        has_lost front.absent.items (state_of core).commit.store.out };

    ghost shows = { λ core front status.
        Shows (state_of core) (string_bytes front.name) front.uberblock status };

    fn open(&mut self, alloc: Global, files: &Paths) -> Result<(FileCore<W>, PoolFront), Refusal> {
        let meter = self.meter(alloc, 0)?;
        let held = hold(alloc, self.files, files, &meter)?;
        opened(alloc, held)
    }

    fn scrub(
        &mut self,
        alloc: Global,
        files: &Paths,
    ) -> Result<(FileCore<W>, PoolFront, ScrubReport), Refusal> {
        let interval = self.interval;
        let meter = self.meter(alloc, interval)?;
        let held = hold(alloc, self.files, files, &meter)?;
        scrubbed(alloc, held)
    }

    fn create(&mut self, alloc: Global, pool: NewPool) -> Result<(), Refusal> {
        // No file is made of a size that no pool takes.
        if sectors_for_blocks(pool.bytes).is_none() {
            return Err(Refusal::Pool(pool_create::Refusal::BadConfig));
        }
        let meter = self.meter(alloc, 0)?;
        let HeldDisks { disks, locks } = make(alloc, self.files, &pool, &meter)?;
        let ended = made(alloc, disks, &pool);
        drop(locks);
        if ended.is_err() {
            remove(self.files, &pool.files, pool.files.as_slice().len());
        }
        ended
    }

    fn close(&mut self, pool: FileCore<W>, front: PoolFront) {
        drop(pool);
        drop(front);
    }

    fn export(
        &mut self,
        alloc: Global,
        pool: FileCore<W>,
        front: PoolFront,
    ) -> Result<(), Refusal> {
        let opened = OpenedPool {
            core: pool,
            uberblock: front.uberblock,
        };
        match export(alloc, opened) {
            Ok(_) => return Ok(()),
            Err(NotExported::Refused { refusal, .. }) => return Err(Refusal::Export(refusal)),
            Err(NotExported::Stopped { refusal, .. }) => return Err(Refusal::Export(refusal)),
        }
    }

    fn has_lost_disk(
        alloc: Global,
        pool: &FileCore<W>,
        front: &PoolFront,
    ) -> Result<bool, AllocError> {
        let marks = pool.marks(alloc)?;
        Ok(has_lost(front.absent.as_slice(), marks.as_slice()))
    }

    fn rows(alloc: Global, pool: &FileCore<W>) -> Result<Vec<VolumeRow>, StepRefusal> {
        let Ok(rows) = pool.rows(alloc) else {
            return Err(StepRefusal::NoMemory);
        };
        let told = volume_rows(alloc, rows.as_slice())?;
        Ok(told)
    }

    fn status(
        alloc: Global,
        pool: &FileCore<W>,
        front: &PoolFront,
    ) -> Result<PoolStatus, AllocError> {
        status_of(alloc, pool, &front.name, &front.uberblock)
    }

    fn explain_files<E: Write>(
        &self,
        alloc: Global,
        files: &Paths,
        cause: &Refusal,
        program: &str,
        errors: &mut E,
    ) {
        if !matches!(cause, Refusal::Pool(_)) {
            return;
        }
        let paths = files.as_slice();
        for i in 0..paths.len() {
            let path = paths[i].as_str();
            if is_among(path, &paths[..i]) {
                continue;
            }
            if let Some(why) = why_strange(alloc, self.files, path) {
                let _ = writeln!(errors, "{program}: {path}: {why}");
            }
        }
    }

    fn explain_new<E: Write>(
        &self,
        pool: &NewPool,
        cause: &Refusal,
        program: &str,
        errors: &mut E,
    ) {
        if matches!(cause, Refusal::Pool(pool_create::Refusal::BadConfig)) {
            let why = misfit_of(pool);
            let _ = writeln!(errors, "{program}: {why}");
        }
    }
}
