//! The core that is measured.
use command_steps::change;
use model_disk::MemDisk;
use pool_model::{Action, Change, Name, Reply, Step};
use pool_steps::{PoolSteps, most_bytes, within};
use programs::{Alone, Core, StepMachine};
use schedule_lines::PoolLine;
use std::alloc::{AllocError, Global};
use std::io;

/// The size of a write, and of a block of the volume, in bytes.
pub(crate) const WRITE_SIZE: u64 = 8192;

/// How many blocks the volume has.
pub(crate) const BLOCKS: u64 = 256;

/// Three disks of 8 MiB with one parity.
const POOL: PoolLine = PoolLine {
    parities: 1,
    disks: 3,
    bytes: 1 << 23,
    metaslab_shift: 12,
    meta_metaslabs: 2,
};

/// A core over disks in memory. What it represents isn't said: it is timed, and its record is not read.
#[derive(Drop)]
pub(crate) struct TimedCore(Core<MemDisk>);

impl PoolSteps for TimedCore {
    ghost represents = { λ _ _. ⊥ };

    ghost came_from = { λ _ _. Unit {0} };

    ghost answers_tell = { λ _ _. ⊥ };

    ghost links = { λ _ _ _ _ _ _ _. Unit {0} };

    ghost is_sound = { λ core v none. absurd none };

    ghost came_from_itself = { λ core. tt };

    ghost came_further = { λ first mid last before after. tt };

    ghost parts_tell = { λ first mid last before after none. absurd none };

    fn take_step(&mut self, step: Step) -> Reply {
        let most = most_bytes(&step);
        within(most, StepMachine::step(&mut self.0, &Alone, step))
    }
}

/// The name of the volume.
pub(crate) fn volume(alloc: Global) -> Result<Name, AllocError> {
    Ok(Name::new(Vec::from_slice(alloc, b"v")?))
}

/// A new pool with a volume of 256 blocks, committed.
pub(crate) fn new_pool(alloc: Global) -> io::Result<TimedCore> {
    let creation = Action {
        writer: 1,
        number: 1,
        change: Change::Create {
            name: volume(alloc)?,
            size: BLOCKS * WRITE_SIZE,
            block_size: WRITE_SIZE,
        },
    };
    let Ok(core) = <Core<MemDisk> as StepMachine>::create(alloc, &POOL) else {
        return Err(io::Error::from(io::ErrorKind::OutOfMemory));
    };
    let mut core = TimedCore(core);
    match change(&mut core, Step::Act(creation), 0) {
        Reply::Committed(_) => Ok(core),
        _ => Err(io::Error::from(io::ErrorKind::Other)),
    }
}
