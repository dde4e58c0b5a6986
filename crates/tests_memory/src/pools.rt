//! Pools whose disks are in memory and known by name.
use crate::disks::TimedDisk;
use crate::refusal::Refusal;
use crate::shelf::Shelf;
use crate::telling::{has_lost, vdevs_of, volume_rows};
use block_store::sectors_for_blocks;
use commands::Pools;
use model_disk::Member;
use pool_command::{Files, NewPool, PoolStatus, ScrubReport, VolumeRow};
use pool_create::{Core, PoolIdentity, create};
use pool_members::HandedIn;
use pool_model::Refusal as StepRefusal;
use pool_open::{
    NotExported, NotOpened, OpenedFrom, OpenedPool, Refusal as PoolRefusal, export, open,
};
use pool_scrub::{ScrubCounts, Scrubbed, scrub};
use std::alloc::{AllocError, Global};
use uberblock_ring::Uberblock;
use vdev_label::{Config, Vdev};

/// The core of a pool in memory.
pub(crate) type MemCore = Core<Member<TimedDisk>>;

/// What is known of an opened pool beside its core.
#[derive(Drop)]
pub(crate) struct PoolFront {
    uberblock: Uberblock,
    name: String,
    /// Of each disk, whether it was out as the pool was opened.
    absent: Vec<bool>,
    handed: HandedIn<TimedDisk>,
}

/// The pools on the disks of a shelf.
#[derive(Drop)]
pub(crate) struct MemPools {
    pub(crate) shelf: Shelf,
}

/// The guid of that number: 0 is the pool's, 1 the vdev's, and from 2 on they are the disks'.
fn guid(seed: u64, number: u64) -> u64 {
    seed.saturating_mul(100).saturating_add(number)
}

/// The name, the guids and the one vdev of the pool that the line asks for.
fn asked(alloc: Global, pool: &NewPool) -> Result<(PoolIdentity, Config), PoolRefusal> {
    let Some(child_sectors) = sectors_for_blocks(pool.bytes) else {
        return Err(PoolRefusal::BadConfig);
    };
    let Ok(name) = String::from_utf8(pool.name.copied(alloc)?.into_vec()) else {
        return Err(PoolRefusal::BadConfig);
    };
    let mut children = Vec::new(alloc);
    for child in 0..pool.files.as_slice().len() {
        children.push(guid(pool.seed, (child as u64).saturating_add(2)))?;
    }
    let vdev = Vdev {
        guid: guid(pool.seed, 1),
        parity: u64::from(pool.parities),
        child_sectors,
        slab_shift: pool.shift,
        meta_slabs: pool.meta,
        children,
    };
    let identity = PoolIdentity {
        name,
        guid: guid(pool.seed, 0),
    };
    let vdevs = vec![in alloc; vdev]?;
    Ok((identity, Config { vdevs }))
}

/// Makes the pool on these disks: why there is none, and the disks.
fn made(
    alloc: Global,
    disks: Vec<TimedDisk>,
    asked: (PoolIdentity, Config),
) -> (Result<(), PoolRefusal>, Vec<TimedDisk>) {
    let (identity, config) = asked;
    match create(alloc, disks, identity, config) {
        Ok(OpenedPool { core, .. }) => (Ok(()), present(alloc, core.into_disks())),
        Err((cause, disks)) => (Err(cause), disks),
    }
}

/// The disks of a pool on which none is absent.
fn present(alloc: Global, members: Vec<Member<TimedDisk>>) -> Vec<TimedDisk> {
    let mut disks = Vec::new(alloc);
    for member in members {
        if let Some(disk) = member.into_disk() {
            let _ = disks.push(disk);
        }
    }
    disks
}

/// The pool that was opened, and what is known beside it; or why not, and the disks.
fn fronted(
    alloc: Global,
    pool: OpenedPool<Member<TimedDisk>>,
    from: OpenedFrom<TimedDisk>,
) -> Result<(MemCore, PoolFront), (PoolRefusal, Vec<TimedDisk>)> {
    let OpenedPool { core, uberblock } = pool;
    let Ok(absent) = core.marks(alloc) else {
        return Err((
            PoolRefusal::NoMemory,
            from.handed.restore(core.into_disks()),
        ));
    };
    let front = PoolFront {
        uberblock,
        name: from.identity.name,
        absent,
        handed: from.handed,
    };
    Ok((core, front))
}

/// The pool on these disks, opened and claimed; or why not, and the disks.
fn opened(
    alloc: Global,
    disks: Vec<TimedDisk>,
) -> Result<(MemCore, PoolFront), (PoolRefusal, Vec<TimedDisk>)> {
    match open(alloc, disks, 0) {
        Ok((pool, from)) => fronted(alloc, pool, from),
        Err(NotOpened::NotFound { refusal, disks } | NotOpened::Refused { refusal, disks }) => Err((
            refusal, disks,
        )),
    }
}

/// The pool on these disks, opened and scrubbed, and what was counted; or why not, and the disks.
fn scrubbed(
    alloc: Global,
    disks: Vec<TimedDisk>,
) -> Result<(MemCore, PoolFront, ScrubReport), (PoolRefusal, Vec<TimedDisk>)> {
    let Scrubbed { pool, from, counts } = scrub(alloc, disks)?;
    let ScrubCounts {
        group,
        findings,
        left,
    } = counts;
    let (core, front) = fronted(alloc, pool, from)?;
    let report = ScrubReport {
        group,
        findings,
        left,
    };
    Ok((core, front, report))
}

/// Puts the pool away: why it isn't, and its disks.
fn put_away(
    alloc: Global,
    pool: OpenedPool<Member<TimedDisk>>,
) -> (Result<(), StepRefusal>, Vec<Member<TimedDisk>>) {
    match export(alloc, pool) {
        Ok(disks) => (Ok(()), disks),
        Err(NotExported::Refused { refusal, pool }) => (Err(refusal), pool.core.into_disks()),
        Err(NotExported::Stopped { refusal, disks }) => (Err(refusal), disks),
    }
}

impl Pools for MemPools {
    ghost use Rattle.tests_memory.specs.Telling.{has_lost};
    ghost use Rattle.pool_create.specs.CoreStateOf.{state_of};

    type Pool = MemCore;

    type Front = PoolFront;

    type Refusal = Refusal;

    ghost opens = { λ _ _ _ _ _. Unit {0} };

    ghost refuses = { λ _ _ _ _. Unit {0} };

    ghost scrubs = { λ _ _ _ _ _ _. Unit {0} };

    ghost refuses_scrub = { λ _ _ _ _. Unit {0} };

    ghost makes = { λ _ _ _. Unit {0} };

    ghost refuses_new = { λ _ _ _ _. Unit {0} };

    ghost closes = { λ _ _ _ _. Unit {0} };

    ghost exports = { λ _ _ _ _. Unit {0} };

    ghost refuses_export = { λ _ _ _ _ _. Unit {0} };

    ghost has_lost = { λ core front.
        has_lost front.absent.items (state_of core).commit.store.out };

    ghost shows = { λ _ _ _. Unit {0} };

    fn open(&mut self, alloc: Global, files: &Files) -> Result<(MemCore, PoolFront), Refusal> {
        let disks = self.shelf.take(alloc, files)?;
        match opened(alloc, disks) {
            Ok(opened) => Ok(opened),
            Err((cause, disks)) => {
                self.shelf.put_back(disks);
                Err(Refusal::Pool(cause))
            }
        }
    }

    fn scrub(
        &mut self,
        alloc: Global,
        files: &Files,
    ) -> Result<(MemCore, PoolFront, ScrubReport), Refusal> {
        let disks = self.shelf.take(alloc, files)?;
        match scrubbed(alloc, disks) {
            Ok(scrubbed) => Ok(scrubbed),
            Err((cause, disks)) => {
                self.shelf.put_back(disks);
                Err(Refusal::Pool(cause))
            }
        }
    }

    fn create(&mut self, alloc: Global, pool: NewPool) -> Result<(), Refusal> {
        if self.shelf.has_any(&pool.files) {
            return Err(Refusal::NotMade);
        }
        let asked = match asked(alloc, &pool) {
            Ok(asked) => asked,
            Err(cause) => return Err(Refusal::Pool(cause)),
        };
        let bytes = usize::try_from(pool.bytes).unwrap_or(0);
        let before = self.shelf.add(alloc, &pool.files, bytes)?;
        let disks = self.shelf.take(alloc, &pool.files)?;
        let (ended, disks) = made(alloc, disks, asked);
        self.shelf.put_back(disks);
        if ended.is_err() {
            self.shelf.keep(before);
        }
        ended.map_err(Refusal::Pool)
    }

    fn close(&mut self, pool: MemCore, front: PoolFront) {
        let disks = front.handed.restore(pool.into_disks());
        self.shelf.put_back(disks);
    }

    fn export(&mut self, alloc: Global, pool: MemCore, front: PoolFront) -> Result<(), Refusal> {
        let PoolFront {
            uberblock,
            handed,
            ..
        } = front;
        let pool = OpenedPool {
            core: pool,
            uberblock,
        };
        let (ended, members) = put_away(alloc, pool);
        self.shelf.put_back(handed.restore(members));
        ended.map_err(Refusal::Export)
    }

    fn has_lost_disk(alloc: Global, pool: &MemCore, front: &PoolFront) -> Result<bool, AllocError> {
        let marks = pool.marks(alloc)?;
        Ok(has_lost(front.absent.as_slice(), marks.as_slice()))
    }

    fn rows(alloc: Global, pool: &MemCore) -> Result<Vec<VolumeRow>, StepRefusal> {
        let Ok(rows) = pool.rows(alloc) else {
            return Err(StepRefusal::NoMemory);
        };
        let told = volume_rows(alloc, rows.as_slice())?;
        Ok(told)
    }

    fn status(alloc: Global, pool: &MemCore, front: &PoolFront) -> Result<PoolStatus, AllocError> {
        let out = pool.marks(alloc)?;
        Ok(PoolStatus {
            name: front.name.clone()?,
            claim: front.uberblock.claim,
            group: front.uberblock.group,
            vdevs: vdevs_of(alloc, pool.config(), out.as_slice())?,
        })
    }
}
