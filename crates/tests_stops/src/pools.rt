//! Pools of three disks with two volumes, a snapshot and a clone, and what they show.
use model_disk::{Disk, MemDisk};
use pool_create::{Core, NotExported, OpenedPool, Refusal, create, export};
use pool_format::PoolIdentity;
use pool_model::{Action, Bytes, Change, Name, Phase, Reply, Step, Write};
use std::alloc::{AllocError, Global};
use std::cell::Cell;
use vdev_label::{Config, Vdev};

/// Of each disk.
pub(crate) const DISK_BYTES: usize = 0x80_0000;

/// Of each volume.
const BLOCKS: usize = 4;

const BLOCK_BYTES: usize = 512;

#[derive(Clone, Copy)]
pub(crate) enum Which {
    V,
    W,
    /// The snapshot `v@a` of `v`.
    Snapshot,
    /// The clone `c` of that snapshot.
    Cloned,
}

/// What is done to a volume or a snapshot.
#[derive(Clone, Copy)]
pub(crate) enum Act {
    /// It is made, and has zeros or what it is made of.
    Makes,
    /// A block of it is filled with that byte.
    Fills(usize, u8),
    Destroys,
}

/// What a group does.
pub(crate) type Doing = (Which, Act);

/// A volume or a snapshot as it is read.
#[derive(Clone, Copy, PartialEq, Eq)]
pub(crate) enum Volume {
    /// There is none of this name.
    Absent,
    /// The byte that each block is filled with.
    Blocks([u8; BLOCKS]),
    /// It can't be read, or some block isn't filled with one byte.
    Lost,
}

/// What a pool shows: its group, and what it has under each name.
#[derive(Clone, Copy, PartialEq, Eq)]
pub(crate) struct Shown {
    pub(crate) group: u64,
    pub(crate) v: Volume,
    pub(crate) w: Volume,
    pub(crate) snapshot: Volume,
    pub(crate) cloned: Volume,
}

impl Volume {
    /// What comes of it, where `origin` is what it is made of.
    fn done(self, act: Act, origin: Volume) -> Volume {
        match (self, act) {
            (Volume::Absent, Act::Makes) => origin,
            (Volume::Blocks(blocks), Act::Fills(block, byte)) => {
                let mut blocks = blocks;
                if block < BLOCKS {
                    blocks[block] = byte;
                }
                Volume::Blocks(blocks)
            }
            (_, Act::Destroys) => Volume::Absent,
            (volume, _) => volume,
        }
    }
}

impl Shown {
    /// What the next group shows which does that: all of its writes come before all else.
    pub(crate) fn next(self, doings: &[Doing]) -> Shown {
        let zeros = Volume::Blocks([0; BLOCKS]);
        let mut shown = self;
        for is_write in [true, false] {
            for (which, act) in doings {
                if matches!(act, Act::Fills(_, _)) == is_write {
                    match which {
                        Which::V => shown.v = shown.v.done(*act, zeros),
                        Which::W => shown.w = shown.w.done(*act, zeros),
                        Which::Snapshot => shown.snapshot = shown.snapshot.done(*act, shown.v),
                        Which::Cloned => shown.cloned = shown.cloned.done(*act, shown.snapshot),
                    }
                }
            }
        }
        shown.group = shown.group.saturating_add(1);
        shown
    }
}

/// One vdev of these three disks, with one parity and five metaslabs, two of them for the pool's own blocks.
pub(crate) fn config(alloc: Global) -> Result<Config, AllocError> {
    let vdev = Vdev {
        guid: 100,
        parity: 1,
        child_sectors: 7168,
        slab_shift: 12,
        meta_slabs: 2,
        children: vec![in alloc; 101, 102, 103]?,
    };
    Ok(Config {
        vdevs: vec![in alloc; vdev]?,
    })
}

/// The bytes of a new pool's disks, in order.
pub(crate) fn made(alloc: Global) -> Result<Vec<Vec<u8>>, Refusal> {
    let name = String::from_str(alloc, "pool")?;
    let config = config(alloc)?;
    let disks = MemDisk::several(alloc, 3, DISK_BYTES)?;
    let members = match create(alloc, disks, PoolIdentity { name, guid: 1 }, config) {
        Ok(OpenedPool { core, .. }) => core.into_disks(),
        Err((refusal, _)) => return Err(refusal),
    };
    let mut all = Vec::new(alloc);
    for member in members {
        if let Some(disk) = member.into_disk() {
            all.push(disk.into_bytes())?;
        }
    }
    Ok(all)
}

/// The disks of a pool that ends here. It may be exported first. That is refused with `TooManyMissing` where the pool is suspended, with
/// `DiskFault` where a group is open still, and else with its own cause.
pub(crate) fn ended<D: Disk + Drop>(
    alloc: Global,
    pool: OpenedPool<D>,
    is_exported: bool,
) -> Result<Vec<D>, Refusal> {
    if !is_exported {
        return Ok(pool.core.into_disks());
    }
    let refusal = match export(alloc, pool) {
        Ok(disks) => return Ok(disks),
        Err(NotExported::Refused { refusal, .. }) => refusal,
        Err(NotExported::Stopped { refusal, .. }) => refusal,
    };
    Err(match refusal {
        pool_model::Refusal::NoMemory => Refusal::NoMemory,
        pool_model::Refusal::Suspended => Refusal::TooManyMissing,
        pool_model::Refusal::BadConfig => Refusal::BadConfig,
        _ => Refusal::DiskFault,
    })
}

fn name_of(alloc: Global, which: Which) -> Result<Name, AllocError> {
    let text = match which {
        Which::V => "v",
        Which::W => "w",
        Which::Snapshot => "v@a",
        Which::Cloned => "c",
    };
    Ok(Name::new(Vec::from_slice(alloc, text.as_bytes())?))
}

/// The step by which writer 1 does this, as its item of that number.
fn step_of(alloc: Global, number: u64, which: Which, act: Act) -> Result<Step, AllocError> {
    let name = name_of(alloc, which)?;
    let change = match (act, which) {
        (Act::Fills(block, byte), _) => {
            return Ok(Step::Write(Write {
                writer: 1,
                number,
                volume: name,
                offset: (block as u64).saturating_mul(512),
                bytes: Bytes::new(vec![in alloc; byte; BLOCK_BYTES]?),
            }));
        }
        (Act::Destroys, _) => Change::Destroy { name },
        (Act::Makes, Which::Snapshot) => Change::Snapshot {
            volume: name_of(alloc, Which::V)?,
            part: Name::new(Vec::from_slice(alloc, b"a")?),
        },
        (Act::Makes, Which::Cloned) => Change::Clone {
            snapshot: name_of(alloc, Which::Snapshot)?,
            name,
        },
        (Act::Makes, _) => Change::Create {
            name,
            size: 2048,
            block_size: 512,
        },
    };
    Ok(Step::Act(Action {
        writer: 1,
        number,
        change,
    }))
}

/// The open group does these things, as items of writer 1 from that number on.
pub(crate) fn do_all<D: Disk + Drop>(
    alloc: Global,
    core: &mut Core<D>,
    doings: &[Doing],
    first: u64,
) -> Result<(), AllocError> {
    core.step(Step::Hold(1));
    let mut number = first;
    for (which, act) in doings {
        let step = step_of(alloc, number, *which, *act)?;
        core.step(step);
        number = number.saturating_add(1);
    }
    core.step(Step::Release(1));
    Ok(())
}

/// Commits the open group. The moment of its first slot, where it has one, by a count of calls.
pub(crate) fn commit<D: Disk + Drop>(core: &mut Core<D>, moments: &Cell<u64>) -> Option<u64> {
    core.step(Step::Close);
    core.step(Step::Quiesce);
    let mut reply = core.step(Step::Plan { timestamp: 0 });
    let mut first_slot = None;
    for _ in 0..1000 {
        match reply {
            Reply::Planned(_) | Reply::Moved(_) => {}
            _ => return first_slot,
        }
        let moment = moments.get();
        reply = core.step(Step::Device);
        if first_slot.is_none() && matches!(reply, Reply::Moved(Phase::Slots)) {
            first_slot = Some(moment);
        }
    }
    None
}

/// The byte that each block is filled with.
fn blocks_of(bytes: &[u8]) -> Option<[u8; BLOCKS]> {
    let mut blocks = [0; BLOCKS];
    if bytes.len() != BLOCKS * BLOCK_BYTES {
        return None;
    }
    for block in 0..BLOCKS {
        let start = block * BLOCK_BYTES;
        let range = &bytes[start..start + BLOCK_BYTES];
        let first = *range.first()?;
        if !range.iter().all(|byte| *byte == first) {
            return None;
        }
        blocks[block] = first;
    }
    Some(blocks)
}

fn volume_in<D: Disk + Drop>(alloc: Global, core: &mut Core<D>, which: Which) -> Volume {
    let Ok(name) = name_of(alloc, which) else {
        return Volume::Lost;
    };
    let step = Step::Read {
        name,
        offset: 0,
        len: 2048,
    };
    match core.step(step) {
        Reply::Bytes(bytes) => match blocks_of(bytes.as_slice()) {
            Some(blocks) => Volume::Blocks(blocks),
            None => Volume::Lost,
        },
        Reply::Refused(pool_model::Refusal::NoSuchName) => Volume::Absent,
        _ => Volume::Lost,
    }
}

/// What a pool shows that stands at that group.
pub(crate) fn shown_in<D: Disk + Drop>(alloc: Global, core: &mut Core<D>, group: u64) -> Shown {
    Shown {
        group,
        v: volume_in(alloc, core, Which::V),
        w: volume_in(alloc, core, Which::W),
        snapshot: volume_in(alloc, core, Which::Snapshot),
        cloned: volume_in(alloc, core, Which::Cloned),
    }
}
