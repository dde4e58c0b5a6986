//! Blocks of a pool are looked at, mended, and looked at again.
ghost use Rattle.std.specs.Prelude.{◌≡◌, IfErr, IfOk};
ghost use Rattle.scrub_resilver.specs.Copies.{HaveRoom};
ghost use Rattle.pool_scrub.specs.Healing.{IsHealed, IsUnhealed, of_look};

use block_pointer::Block;
use block_store::VdevShape;
use model_disk::{Disk, DiskArray};
use pool_open::Refusal;
use scrub_resilver::{Finding, check, mend};
use std::alloc::Global;

/// What was found of blocks at first, and what is left once they were mended.
#[derive(Drop)]
pub struct Healed {
    pub found: Vec<Finding>,
    pub left: Vec<Finding>,
    /// The numbers of the disks whose flush failed behind what was mended.
    pub unflushed: Vec<usize>,
}

fn told(refusal: scrub_resilver::Refusal) -> Refusal
    ensures { result ≡ of_look refusal }
{
    match refusal {
        scrub_resilver::Refusal::NoMemory => Refusal::NoMemory,
        scrub_resilver::Refusal::BadPointer => Refusal::BadPointer,
    }
}

/// Looks at all columns of the blocks; where anything is wrong writes it anew, flushes the disks, and looks at all again. Without the disks
/// that are missing.
pub(crate) fn heal<D: Disk + Drop>(
    disks: &mut DiskArray<D>,
    alloc: Global,
    shapes: &[VdevShape],
    blocks: &[Block],
    missing: &[usize],
) -> Result<Healed, Refusal>
    requires { HaveRoom shapes.now disks.old.starts }
    ensures healed { IfOk result (IsHealed
        shapes.now blocks.now missing.now disks.old disks.new) }
    ensures refused { IfErr result (IsUnhealed
        shapes.now blocks.now missing.now disks.old disks.new) }
{
    let found = match check(disks, alloc, shapes, blocks, missing) {
        Ok(found) => found,
        Err(refusal) => return Err(told(refusal)),
    };
    if found.is_empty() {
        return Ok(Healed {
            found,
            left: Vec::new(alloc),
            unflushed: Vec::new(alloc),
        });
    }
    let unflushed = match mend(disks, alloc, shapes, blocks, missing) {
        Ok(unflushed) => unflushed,
        Err(refusal) => return Err(told(refusal)),
    };
    match check(disks, alloc, shapes, blocks, missing) {
        Ok(left) => Ok(Healed {
            found,
            left,
            unflushed,
        }),
        Err(refusal) => Err(told(refusal)),
    }
}
