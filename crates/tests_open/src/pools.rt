//! Pools of three disks, and what is done to them.
use model_disk::{Disk, Member};
use pool_create::{Core, create};
use pool_format::PoolIdentity;
use pool_model::{Action, Bytes, Change, Name, Reply, Step, Write};
use pool_open::{OpenedPool, Refusal};
use std::alloc::{AllocError, Global};
use vdev_label::{Config, Vdev};

/// Of each disk.
pub(crate) const DISK_BYTES: usize = 0x80_0000;

/// One vdev of these three disks, with one parity and five metaslabs, two of them for the pool's own blocks.
fn config(alloc: Global, first: u64) -> Result<Config, AllocError> {
    let children = vec![in alloc;
        first.saturating_add(1),
        first.saturating_add(2),
        first.saturating_add(3),
    ]?;
    let vdev = Vdev {
        guid: first,
        parity: 1,
        child_sectors: 7168,
        slab_shift: 12,
        meta_slabs: 2,
        children,
    };
    Ok(Config {
        vdevs: vec![in alloc; vdev]?,
    })
}

/// A pool on disks, or why there is none, and the disks.
pub(crate) type Making<D> = Result<OpenedPool<Member<D>>, (Refusal, Vec<D>)>;

/// Makes a pool of this guid.
pub(crate) fn make<D: Disk + Drop>(
    alloc: Global,
    disks: Vec<D>,
    guid: u64,
) -> Result<Making<D>, AllocError> {
    let config = config(alloc, guid.saturating_mul(100))?;
    let name = String::from_str(alloc, "pool")?;
    Ok(create(alloc, disks, PoolIdentity { name, guid }, config))
}

/// The name of the volume that a pool has.
fn volume(alloc: Global) -> Result<Name, AllocError> {
    Ok(Name::new(Vec::from_slice(alloc, "v".as_bytes())?))
}

/// The first byte of each block of the volume, where it can be read.
pub(crate) fn blocks_of<D: Disk + Drop>(
    alloc: Global,
    core: &mut Core<D>,
) -> Result<Option<(u8, u8)>, AllocError> {
    let step = Step::Read {
        name: volume(alloc)?,
        offset: 0,
        len: 1024,
    };
    let Reply::Bytes(bytes) = core.step(step) else {
        return Ok(None);
    };
    let bytes = bytes.as_slice();
    match (bytes.first(), bytes.get(512)) {
        (Some(first), Some(second)) if bytes.len() == 1024 => Ok(Some((*first, *second))),
        _ => Ok(None),
    }
}

/// What a pool with the volume shows: the group that is committed, and the volume's blocks.
pub(crate) type Shown = (Option<u64>, Option<(u8, u8)>);

/// Closes the open group and commits it.
pub(crate) fn sync<D: Disk + Drop>(alloc: Global, core: &mut Core<D>) -> Result<Shown, AllocError> {
    core.step(Step::Close);
    core.step(Step::Quiesce);
    let mut reply = core.step(Step::Plan { timestamp: 0 });
    'calls: for _ in 0..1000 {
        match reply {
            Reply::Planned(_) | Reply::Moved(_) => reply = core.step(Step::Device),
            _ => break,
        }
    }
    let group = match reply {
        Reply::Committed(group) => Some(group),
        _ => None,
    };
    Ok((group, blocks_of(alloc, core)?))
}

/// The open group accepts what a writer asks for.
fn accept<D: Disk + Drop>(core: &mut Core<D>, asked: Step) {
    core.step(Step::Hold(1));
    core.step(asked);
    core.step(Step::Release(1));
}

/// The open group accepts this byte all over the volume's second block, as the writer's item with that number.
pub(crate) fn write<D: Disk + Drop>(
    alloc: Global,
    core: &mut Core<D>,
    number: u64,
    byte: u8,
) -> Result<(), AllocError> {
    let write = Write {
        writer: 1,
        number,
        volume: volume(alloc)?,
        offset: 512,
        bytes: Bytes::new(vec![in alloc; byte; 512]?),
    };
    accept(core, Step::Write(write));
    Ok(())
}

/// Group 4 of a new pool makes the volume, of two blocks, and group 5 writes its second block.
pub(crate) fn fill<D: Disk + Drop>(alloc: Global, core: &mut Core<D>) -> Result<Shown, AllocError> {
    let change = Change::Create {
        name: volume(alloc)?,
        size: 1024,
        block_size: 512,
    };
    accept(
        core,
        Step::Act(Action {
            writer: 1,
            number: 1,
            change,
        }),
    );
    sync(alloc, core)?;
    write(alloc, core, 2, 0xaa)?;
    sync(alloc, core)
}
