//! A store in memory, and blocks in words.
ghost use Rattle.std.specs.Prelude.{◌^◌, ◌<◌, ◌≤◌, IfOk};
ghost use Rattle.objset.specs.Changes.{AreGoodWrites, AreWhole};

use crate::lines::Call;
use block_pointer::Block;
use block_store::{BlockStore, CopyCount, Refusal, VdevConfig};
use dnode_tree::{BlockWrite, CopyCounts};
use model_disk::MemDisk;
use raidz_map::Geometry;
use std::alloc::{AllocError, Global};
use std::test::Fail;

pub(crate) type Store = BlockStore<MemDisk>;

pub(crate) const COPIES: CopyCounts = CopyCounts {
    data: CopyCount::One,
    indirect: CopyCount::Two,
};

/// A store of one vdev of three disks of so many bytes.
pub(crate) fn new_store(alloc: Global, disk_bytes: usize) -> Result<Store, Fail> {
    let vdev = VdevConfig {
        geometry: Geometry::new(3, 1, 9)?,
        metaslab_shift: 12,
        meta_slabs: 1,
    };
    let disks = MemDisk::several(alloc, 3, disk_bytes)?;
    Ok(BlockStore::new(alloc, disks, &[vdev])?)
}

/// Makes the writes that are due, and takes the blocks of the plan as stored.
pub(crate) fn store_plan(store: &mut Store) {
    for _ in 0..store.due_count() {
        if store.due_count() == 0 || store.write_next().is_err() {
            break;
        }
    }
    store.finish_plan();
}

/// One block of one byte's value.
pub(crate) fn block_of(
    alloc: Global,
    id: u64,
    byte: u8,
    sectors: u32,
) -> Result<Vec<BlockWrite>, AllocError>
    requires id { id < 128 ^ 5 }
    requires small { sectors ≤ 256 }
    ensures good { IfOk result (λ writes. AreGoodWrites writes.items) }
    ensures whole { IfOk result (λ writes. AreWhole sectors writes.items) }
{
    let bytes = vec![in alloc; byte; sectors as usize * 512]?;
    let mut writes = Vec::new(alloc);
    writes.push(BlockWrite { id, bytes })?;
    Ok(writes)
}

/// A block of one byte's value by that and by how many bytes it has, as `5*512`.
pub(crate) fn block_text(
    alloc: Global,
    block: &Result<Option<Vec<u8>>, Refusal>,
) -> Result<String, Fail> {
    let bytes = match block {
        Ok(Some(bytes)) => bytes.as_slice(),
        Ok(None) => return Ok(format!(in alloc; "hole")?),
        Err(refusal) => return Ok(format!(in alloc; "{refusal:?}")?),
    };
    Ok(match bytes {
        [first, rest @ ..] if rest.iter().all(|byte| byte == first) => {
            format!(in alloc; "{first}*{}", bytes.len())?
        }
        _ => format!(in alloc; "other")?,
    })
}

/// How many blocks a call found, since which group they were born, whether they are those that were found before, and how many
/// blocks may still be read, where that is told. They are what was found, from now on.
pub(crate) fn blocks_text(
    alloc: Global,
    call: &Call,
    blocks: Result<Vec<Block>, Refusal>,
    left: u64,
    found: &mut Vec<Block>,
) -> Result<String, Fail> {
    let mut text = match blocks {
        Ok(blocks) => {
            let same = if blocks == *found { "the same " } else { "" };
            let count = blocks.len();
            let first = blocks.iter().map(|block| block.birth).min().unwrap_or(0);
            *found = blocks;
            format!(in alloc; "{same}{count} blocks since {first}")?
        }
        Err(refusal) => format!(in alloc; "{refusal:?}")?,
    };
    if matches!(call.name, "within" | "younger") {
        text.push_str(format!(in alloc; ", {left} left")?.as_str())?;
    }
    Ok(text)
}
