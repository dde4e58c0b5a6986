//! Blocks that a store writes over disks in memory.
ghost use Rattle.std.specs.Prelude.{◌≡◌, IfOk, vec_len};

use crate::lines::Call;
use block_pointer::{Block, Property};
use block_store::{BlockStore, CopyCount, NewBlock, VdevConfig, VdevShape};
use model_disk::{DiskArray, Fault, FaultDisk, MemDisk};
use raidz_map::Geometry;
use std::alloc::{AllocError, Global};
use std::test::Fail;

pub(crate) type TestDisk = FaultDisk<MemDisk>;

type TestStore = BlockStore<TestDisk>;

/// The smallest disk: it has 7168 sectors for blocks.
const DISK_BYTES: usize = 0x800000;

/// What each byte of a disk is before anything is written there, and once the disk is spoilt.
pub(crate) const SPOILT: u8 = 0xa5;

/// No call has that number.
pub(crate) const NO_FAULT: (usize, Fault) = (0, Fault::At(u64::MAX));

/// Disks that hold these bytes, one of which has this fault.
pub(crate) fn array_of(
    alloc: Global,
    disks: Vec<Vec<u8>>,
    fault: (usize, Fault),
) -> Result<DiskArray<TestDisk>, Fail> {
    let mut made = Vec::new(alloc);
    for (which, bytes) in disks.into_iter().enumerate() {
        let fault = if which == fault.0 {
            fault.1
        } else {
            NO_FAULT.1
        };
        made.push(FaultDisk::new(MemDisk::holding(bytes), fault))?;
    }
    Ok(DiskArray::new(made))
}

/// What the disks hold.
pub(crate) fn bytes_of(alloc: Global, disks: DiskArray<TestDisk>) -> Result<Vec<Vec<u8>>, Fail> {
    let mut held = Vec::new(alloc);
    for disk in disks.into_disks() {
        held.push(disk.into_inner().into_bytes())?;
    }
    Ok(held)
}

/// Bytes that are told by their places and a seed.
fn pattern(alloc: Global, len: usize, seed: u8) -> Result<Vec<u8>, AllocError>
    ensures { IfOk result (λ bytes. vec_len bytes ≡ len) }
{
    let mut bytes = Vec::new(alloc);
    for place in 0..len {
        bytes.push((place % 251) as u8 ^ seed)?;
    }
    Ok(bytes)
}

/// A store of one vdev of three disks with one parity, of one of five with two, or of both in this order.
fn new_store(alloc: Global, name: &str) -> Result<TestStore, Fail> {
    let three = VdevConfig {
        geometry: Geometry::new(3, 1, 9)?,
        metaslab_shift: 12,
        meta_slabs: 1,
    };
    let five = VdevConfig {
        geometry: Geometry::new(5, 2, 9)?,
        ..three
    };
    let (vdevs, count) = match name {
        "three" => ([three, three], 3),
        "five" => ([five, five], 5),
        "both" => ([three, five], 8),
        _ => return Err(Fail::new(format_args!("no call {name}"))),
    };
    let used = if name == "both" { 2 } else { 1 };
    let mut disks = Vec::new(alloc);
    for _ in 0..count {
        let bytes = vec![in alloc; SPOILT; DISK_BYTES]?;
        disks.push(FaultDisk::new(MemDisk::holding(bytes), NO_FAULT.1))?;
    }
    Ok(BlockStore::new(alloc, disks, vdevs.get(..used).unwrap_or(&[]))?)
}

/// Plans a block of so many sectors, at most 256, and copies.
fn plan(
    store: &mut TestStore,
    alloc: Global,
    sectors: usize,
    copies: usize,
    seed: u8,
) -> Result<Block, Fail> {
    let sectors = sectors.clamp(1, 256);
    let bytes = pattern(alloc, sectors * 512, seed)?;
    let copies = match copies {
        1 => CopyCount::One,
        2 => CopyCount::Two,
        _ => CopyCount::Three,
    };
    let new = NewBlock {
        property: Property {
            level: 0,
            object_type: 19,
            sectors: sectors as u32,
        },
        birth: 1,
        fill: 1,
    };
    Ok(store.plan_write(alloc, bytes.as_slice(), new, copies)?)
}

/// What a store leaves: the shapes of its vdevs, the blocks that it wrote, and what its disks hold then.
#[derive(Drop)]
pub(crate) struct Stored {
    pub(crate) shapes: Vec<VdevShape>,
    pub(crate) blocks: Vec<Block>,
    pub(crate) disks: Vec<Vec<u8>>,
}

/// Writes the blocks that a call tells to the store that it names.
pub(crate) fn write_pool(alloc: Global, call: &Call) -> Result<Stored, Fail> {
    let mut store = new_store(alloc, call.name)?;
    let mut blocks = Vec::new(alloc);
    store.drop_plan(1);
    for (which, pair) in call.numbers.chunks(2).enumerate() {
        if let [sectors, copies] = pair {
            blocks.push(plan(&mut store, alloc, *sectors, *copies, (which % 200) as u8)?)?;
        }
    }
    for _ in 0..store.due_count() {
        if store.due_count() > 0 {
            store.write_next()?;
        }
    }
    let mut shapes = Vec::new(alloc);
    for vdev in 0..store.vdev_count() {
        shapes.push(store.shape(vdev))?;
    }
    let disks = bytes_of(alloc, store.into_array())?;
    Ok(Stored {
        shapes,
        blocks,
        disks,
    })
}
