//! Columns of blocks that are unreadable or wrong are written anew.
ghost use Rattle.std.specs.Prelude.{ℕ, ◌≡◌, ◌⊎◌, ◌≤◌, ◌<◌, ◌+◌, ◌*◌, [], ◌∷◌, List, Some, OnOk, IfOk, IfErr, length, Contains};
ghost use Rattle.sha2.specs.Sha256.{sha256};
ghost use Rattle.model_disk.specs.Joint.{bytes_of};
ghost use Rattle.model_disk.specs.Runs.{no_write};
ghost use Rattle.block_pointer.specs.Copies.{dvas};
ghost use Rattle.block_pointer.specs.declared.block.Block.{Block as BlockOf};
ghost use Rattle.raidz_io.specs.Places.{CanHold, IsOnDisks};
ghost use Rattle.raidz_io.specs.Stands.{all_columns};
ghost use Rattle.scrub_resilver.specs.Columns.{IsSpread};
ghost use Rattle.scrub_resilver.specs.Copies.{AreMisplaced, HaveRoom, IsMisplaced};
ghost use Rattle.scrub_resilver.specs.Mending.{AreMendedBelow, ArePlacesMended, AreFlushedBelow, AreMendedFirst, IsBlockMended, IsColumnIn, IsColumnOf, IsColumnOfBlock, IsFlushTried, IsMendedAt, IsPlaceMended, IsPut, IsRewritten, OnlyMends, Repairs};

use crate::checking::look_at_column;
use crate::copies::{extent_at, places_of};
use crate::looking::{Place, place_of};
use crate::refusal::Refusal;
use crate::right::read_right;
use crate::spread::{SpreadBlock, spread};
use block_pointer::{Block, Dva};
use block_store::VdevShape;
use model_disk::{Disk, DiskArray};
use raidz_io::Extent;
use std::alloc::{AllocError, Global};

/// Writes the bytes there, where the disk isn't missing. A write that fails is seen in the log alone.
fn put<D: Disk + Drop>(disks: &mut DiskArray<D>, place: Place, bytes: &[u8], missing: &[usize])
    requires which { place.disk < length disks.old.starts }
    requires within { place.offset + length bytes.now
        ≤ length (bytes_of disks.old.starts place.disk) }
    ensures { IsPut disks.old disks.new missing.now place.disk place.offset bytes.now }
{
    if missing.contains(&place.disk) {
        return;
    }
    let _ = disks.write_at(place.disk, place.offset, bytes);
}

/// Writes a column of a copy anew, where it isn't read as it should be.
fn mend_column<D: Disk + Drop>(
    disks: &mut DiskArray<D>,
    alloc: Global,
    extent: Extent,
    spread: &SpreadBlock,
    column: usize,
    missing: &[usize],
) -> Result<(), AllocError>
    requires fits { CanHold extent }
    requires on_disks { IsOnDisks extent disks.old.starts }
    requires spread { (block : List ℕ) × IsSpread extent block spread.now }
    requires below { column < length spread.now.layout.items }
    ensures mends { Repairs (IsColumnIn extent spread.now.layout.items
        (all_columns spread.now.columns)) missing.now disks.old disks.new }
    ensures mended { OnOk result (IsMendedAt disks.old disks.new missing.now
        extent spread.now.layout.items (all_columns spread.now.columns) column) }
{
    let fault = look_at_column(disks, alloc, extent, spread, column, true, missing)?;
    let Some(_fault) = fault else {
        return Ok(());
    };
    let place = place_of(extent.vdev, spread.layout.as_slice()[column]);
    put(disks, place, spread.bytes(column), missing);
    Ok(())
}

/// Writes the columns of a copy anew that aren't read as they should be.
fn mend_copy<D: Disk + Drop>(
    disks: &mut DiskArray<D>,
    alloc: Global,
    extent: Extent,
    spread: &SpreadBlock,
    missing: &[usize],
) -> Result<(), AllocError>
    requires fits { CanHold extent }
    requires on_disks { IsOnDisks extent disks.old.starts }
    requires spread { (block : List ℕ) × IsSpread extent block spread.now }
    ensures mends { Repairs (IsColumnIn extent spread.now.layout.items
        (all_columns spread.now.columns)) missing.now disks.old disks.new }
    ensures mended { OnOk result (AreMendedBelow disks.old disks.new missing.now
        extent spread.now.layout.items (all_columns spread.now.columns)
        (length spread.now.layout.items)) }
{
    for column in 0..spread.layout.len() {
        mend_column(disks, alloc, extent, spread, column, missing)?;
    }
    Ok(())
}

/// Mends the copy of a block that lies there, of these bytes.
fn mend_place<D: Disk + Drop>(
    disks: &mut DiskArray<D>,
    alloc: Global,
    shapes: &[VdevShape],
    block: &Block,
    place: Dva,
    content: &[u8],
    missing: &[usize],
) -> Result<(), Refusal>
    requires room { HaveRoom shapes.now disks.old.starts }
    requires size { length content.now ≡ block.now.property.sectors * 512 }
    ensures mends { Repairs (IsColumnOf shapes.now block.now place content.now)
        missing.now disks.old disks.new }
    ensures mended { OnOk result (IsPlaceMended shapes.now disks.old disks.new missing.now
        block.now content.now place) }
    ensures refused { IfErr result (λ refusal. (refusal ≡ Refusal.NoMemory)
        ⊎ ((refusal ≡ Refusal.BadPointer) × IsMisplaced shapes.now block.now place)) }
{
    let Some(extent) = extent_at(shapes, place, block.property.sectors) else {
        return Err(Refusal::BadPointer);
    };
    let bytes = Vec::from_slice(alloc, content)?;
    let spread = spread(alloc, extent, bytes)?;
    mend_copy(disks, alloc, extent, &spread, missing)?;
    Ok(())
}

/// Mends each copy of a block of these bytes.
fn mend_places<D: Disk + Drop>(
    disks: &mut DiskArray<D>,
    alloc: Global,
    shapes: &[VdevShape],
    block: &Block,
    places: &[Dva],
    content: &[u8],
    missing: &[usize],
) -> Result<(), Refusal>
    requires room { HaveRoom shapes.now disks.old.starts }
    requires copies { places.now ≡ dvas block.now.copies }
    requires size { length content.now ≡ block.now.property.sectors * 512 }
    requires digest { sha256 content.now ≡ block.now.checksum }
    ensures mends { OnlyMends shapes.now (block.now ∷ []) missing.now disks.old disks.new }
    ensures own { Repairs (IsColumnOfBlock shapes.now block.now content.now)
        missing.now disks.old disks.new }
    ensures mended { OnOk result (ArePlacesMended shapes.now disks.old disks.new missing.now
        block.now content.now places.now) }
    ensures refused { IfErr result (λ refusal. (refusal ≡ Refusal.NoMemory)
        ⊎ ((refusal ≡ Refusal.BadPointer)
        × AreMisplaced shapes.now block.now places.now)) }
{
    for place in places {
        mend_place(disks, alloc, shapes, block, *place, content, missing)?;
    }
    Ok(())
}

/// Mends each copy of a block whose bytes can be read.
fn mend_block<D: Disk + Drop>(
    disks: &mut DiskArray<D>,
    alloc: Global,
    shapes: &[VdevShape],
    block: &Block,
    missing: &[usize],
) -> Result<(), Refusal>
    requires { HaveRoom shapes.now disks.old.starts }
    ensures mends { OnlyMends shapes.now (block.now ∷ []) missing.now disks.old disks.new }
    ensures mended { OnOk result (IsBlockMended shapes.now disks.old disks.new missing.now
        block.now) }
    ensures turn { OnOk result (Repairs no_write missing.now disks.old disks.new
        ⊎ IsRewritten shapes.now missing.now block.now disks.old disks.new) }
    ensures refused { IfErr result (λ refusal. (refusal ≡ Refusal.NoMemory)
        ⊎ ((refusal ≡ Refusal.BadPointer)
        × AreMisplaced shapes.now block.now (dvas block.now.copies))) }
{
    let read = read_right(disks, alloc, shapes, block, missing)?;
    let Some(content) = read else {
        return Ok(());
    };
    let places = places_of(block.copies);
    mend_places(
        disks,
        alloc,
        shapes,
        block,
        places.as_slice(),
        content.as_slice(),
        missing,
    )
}

/// Flushes the disk, where it isn't missing; `false` where the flush failed.
fn flush_one<D: Disk + Drop>(disks: &mut DiskArray<D>, disk: usize, missing: &[usize]) -> bool
    requires { disk < length disks.old.starts }
    ensures { IsFlushTried disks.old disks.new missing.now disk result }
{
    if missing.contains(&disk) {
        return true;
    }
    disks.flush(disk).is_ok()
}

/// Flushes each disk that isn't missing once, in the order of their numbers: the numbers of those whose flush failed.
fn flush_each<D: Disk + Drop>(
    disks: &mut DiskArray<D>,
    alloc: Global,
    missing: &[usize],
) -> Result<Vec<usize>, AllocError>
    ensures mends { Repairs no_write missing.now disks.old disks.new }
    ensures flushed { IfOk result (λ failed. AreFlushedBelow disks.old disks.new missing.now
        failed.items (length disks.new.starts)) }
{
    let mut failed = Vec::new(alloc);
    for disk in 0..disks.len() {
        if !flush_one(disks, disk, missing) {
            failed.push(disk)?;
        }
    }
    Ok(failed)
}

/// Writes anew each column of these blocks' copies that is unreadable or wrong, and flushes all disks that aren't missing: the numbers of
/// those whose flush failed.
///
/// A block of which no copy can be read stays as it is. After an error what was written stays, unflushed.
pub fn mend<D: Disk + Drop>(
    disks: &mut DiskArray<D>,
    alloc: Global,
    shapes: &[VdevShape],
    blocks: &[Block],
    missing: &[usize],
) -> Result<Vec<usize>, Refusal>
    requires { HaveRoom shapes.now disks.old.starts }
    ensures mends { OnlyMends shapes.now blocks.now missing.now disks.old disks.new }
    ensures mended { OnOk result ((block : BlockOf) → Contains blocks.now block
        → IsBlockMended shapes.now disks.old disks.new missing.now block) }
    ensures in_turn { IfOk result (λ failed.
        AreMendedFirst shapes.now missing.now blocks.now disks.old disks.new) }
    ensures flushed { IfOk result (λ failed. AreFlushedBelow disks.old disks.new missing.now
        failed.items (length disks.new.starts)) }
    ensures refused { IfErr result (λ refusal. (refusal ≡ Refusal.NoMemory)
        ⊎ ((refusal ≡ Refusal.BadPointer) × ((block : BlockOf) × Contains blocks.now block
        × AreMisplaced shapes.now block (dvas block.copies)))) }
{
    for block in blocks {
        mend_block(disks, alloc, shapes, block, missing)?;
    }
    Ok(flush_each(disks, alloc, missing)?)
}
