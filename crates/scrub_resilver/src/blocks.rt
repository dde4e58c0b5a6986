//! Looks at all columns of blocks, copy by copy.
ghost use Rattle.std.specs.Prelude.{◌≡◌, ◌⊎◌, ◌++◌, ◌*◌, Contains, List, IfErr, IfOk, OnOk, length};
ghost use Rattle.sha2.specs.Sha256.{sha256};
ghost use Rattle.block_pointer.specs.Copies.{dvas};
ghost use Rattle.block_pointer.specs.declared.block.Block.{Block as BlockOf};
ghost use Rattle.block_pointer.specs.declared.dva.Dva.{Dva as Place};
ghost use Rattle.raidz_io.specs.Reads.{AreUntouched, OnlyReads};
ghost use Rattle.scrub_resilver.specs.Checking.{AreChecked, ArePlacesChecked, IsBlockChecked, IsReadOf, IsRight};
ghost use Rattle.scrub_resilver.specs.Copies.{AreMisplaced, HaveRoom, IsNoPlace};
ghost use Rattle.scrub_resilver.specs.declared.fault.Finding.{Finding as FindingOf};

use crate::checking::{Right, check_place};
use crate::copies::places_of;
use crate::fault::Finding;
use crate::refusal::Refusal;
use crate::right::read_right;
use block_pointer::{Block, Dva};
use block_store::VdevShape;
use model_disk::{Disk, DiskArray};
use raidz_map::SECTOR_BYTES;
use std::alloc::{AllocError, Global};

/// What is known of a block of so many sectors by what was read of it, if anything was.
fn right_of(alloc: Global, sectors: u32, read: Option<Vec<u8>>) -> Result<Right, AllocError>
    requires { IsReadOf sectors read }
    ensures { IfOk result (IsRight sectors read) }
{
    match read {
        Some(bytes) => Ok(Right {
            bytes,
            is_known: true,
            sectors,
        }),
        None => Ok(Right {
            bytes: vec![in alloc; 0; sectors as usize * SECTOR_BYTES as usize]?,
            is_known: false,
            sectors,
        }),
    }
}

/// Looks at all columns of the copies that lie at these places, and adds what it finds.
fn check_places<D: Disk + Drop>(
    disks: &mut DiskArray<D>,
    alloc: Global,
    shapes: &[VdevShape],
    places: &[Dva],
    right: &Right,
    missing: &[usize],
    found: &mut Vec<Finding>,
) -> Result<(), Refusal>
    requires room { HaveRoom shapes.now disks.old.starts }
    requires size { length right.now.bytes.items ≡ right.now.sectors * 512 }
    ensures reads { OnlyReads disks.old disks.new }
    ensures untouched { AreUntouched missing.now disks.old disks.new }
    ensures checked { OnOk result ((more : List FindingOf)
        × (found.new.items ≡ found.old.items ++ more)
        × ArePlacesChecked shapes.now disks.old disks.new missing.now right.now.sectors
        right.now.is_known right.now.bytes.items places.now more) }
    ensures refused { IfErr result (λ refusal. (refusal ≡ Refusal.NoMemory)
        ⊎ ((refusal ≡ Refusal.BadPointer) × ((place : Place) × Contains places.now place
        × IsNoPlace shapes.now right.now.sectors place))) }
{
    for place in places {
        check_place(disks, alloc, shapes, *place, right, missing, found)?;
    }
    Ok(())
}

/// Looks at all columns of a block, and adds what it finds.
fn check_block<D: Disk + Drop>(
    disks: &mut DiskArray<D>,
    alloc: Global,
    shapes: &[VdevShape],
    block: &Block,
    missing: &[usize],
    found: &mut Vec<Finding>,
) -> Result<(), Refusal>
    requires { HaveRoom shapes.now disks.old.starts }
    ensures reads { OnlyReads disks.old disks.new }
    ensures untouched { AreUntouched missing.now disks.old disks.new }
    ensures checked { OnOk result ((more : List FindingOf)
        × (found.new.items ≡ found.old.items ++ more)
        × IsBlockChecked shapes.now disks.old disks.new missing.now block.now more) }
    ensures refused { IfErr result (λ refusal. (refusal ≡ Refusal.NoMemory)
        ⊎ ((refusal ≡ Refusal.BadPointer)
        × AreMisplaced shapes.now block.now (dvas block.now.copies))) }
{
    let read = read_right(disks, alloc, shapes, block, missing)?;
    let right = right_of(alloc, block.property.sectors, read)?;
    let places = places_of(block.copies);
    check_places(
        disks,
        alloc,
        shapes,
        places.as_slice(),
        &right,
        missing,
        found,
    )
}

/// Looks at every column of every copy of these blocks, and tells what is wrong, in the order of the blocks, their copies and columns. A
/// column is unreadable where its disk is missing or a read of it fails, and wrong where other bytes are read than those of the block: of the
/// first copy that can be read by its digest. Where no copy can be, each column that is read is wrong. `BadPointer` where a copy lies in
/// no vdev, or passes its end.
pub fn check<D: Disk + Drop>(
    disks: &mut DiskArray<D>,
    alloc: Global,
    shapes: &[VdevShape],
    blocks: &[Block],
    missing: &[usize],
) -> Result<Vec<Finding>, Refusal>
    requires { HaveRoom shapes.now disks.old.starts }
    ensures reads { OnlyReads disks.old disks.new }
    ensures untouched { AreUntouched missing.now disks.old disks.new }
    ensures checked { IfOk result (λ found.
        AreChecked shapes.now disks.old disks.new missing.now blocks.now found.items) }
    ensures refused { IfErr result (λ refusal. (refusal ≡ Refusal.NoMemory)
        ⊎ ((refusal ≡ Refusal.BadPointer) × ((block : BlockOf) × Contains blocks.now block
        × AreMisplaced shapes.now block (dvas block.copies)))) }
{
    let mut found = Vec::new(alloc);
    for block in blocks {
        check_block(disks, alloc, shapes, block, missing, &mut found)?;
    }
    Ok(found)
}
