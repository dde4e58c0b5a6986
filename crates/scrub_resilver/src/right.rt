//! The bytes of a block, by any copy that can be read.
ghost use Rattle.std.specs.Prelude.{◌≡◌, ◌⊎◌, ◌*◌, IfErr, IfNone, IfOk, IfSome, length};
ghost use Rattle.sha2.specs.Sha256.{sha256};
ghost use Rattle.block_pointer.specs.Copies.{dvas};
ghost use Rattle.raidz_io.specs.Reads.{AreUntouched, OnlyReads};
ghost use Rattle.scrub_resilver.specs.Copies.{AreMisplaced, AreUnread, HaveRoom, IsChosenAt, IsChosenOf, IsMisplaced, IsUnreadAt};

use crate::copies::{extent_at, places_of};
use crate::refusal::Refusal;
use block_pointer::{Block, Dva};
use block_store::VdevShape;
use model_disk::{Disk, DiskArray};
use raidz_io::Refusal as ReadRefusal;
use std::alloc::Global;

/// The bytes of a copy, where it can be read.
fn read_copy<D: Disk + Drop>(
    disks: &mut DiskArray<D>,
    alloc: Global,
    shapes: &[VdevShape],
    block: &Block,
    place: Dva,
    missing: &[usize],
) -> Result<Option<Vec<u8>>, Refusal>
    requires { HaveRoom shapes.now disks.old.starts }
    ensures reads { OnlyReads disks.old disks.new }
    ensures untouched { AreUntouched missing.now disks.old disks.new }
    ensures digest { IfOk result (λ read. IfSome read (λ bytes.
        sha256 bytes.items ≡ block.now.checksum)) }
    ensures size { IfOk result (λ read. IfSome read (λ bytes.
        length bytes.items ≡ block.now.property.sectors * 512)) }
    ensures chosen { IfOk result (λ read. IfSome read (λ bytes. IsChosenAt
        shapes.now disks.old disks.new block.now bytes.items place)) }
    ensures none { IfOk result (λ read. IfNone read (IsUnreadAt
        shapes.now disks.old disks.new missing.now block.now place)) }
    ensures refused { IfErr result (λ refusal. (refusal ≡ Refusal.NoMemory)
        ⊎ ((refusal ≡ Refusal.BadPointer) × IsMisplaced shapes.now block.now place)) }
{
    let Some(extent) = extent_at(shapes, place, block.property.sectors) else {
        return Err(Refusal::BadPointer);
    };
    match extent.read_checked(disks, alloc, missing, &block.checksum) {
        Ok(bytes) => Ok(Some(bytes)),
        Err(ReadRefusal::NoMemory) => Err(Refusal::NoMemory),
        Err(ReadRefusal::DiskFault) => Ok(None),
        Err(ReadRefusal::BadDigest) => Ok(None),
    }
}

/// The bytes of a block, by the first of these copies that can be read: none where none can be.
fn read_first<D: Disk + Drop>(
    disks: &mut DiskArray<D>,
    alloc: Global,
    shapes: &[VdevShape],
    block: &Block,
    places: &[Dva],
    missing: &[usize],
) -> Result<Option<Vec<u8>>, Refusal>
    requires { HaveRoom shapes.now disks.old.starts }
    ensures reads { OnlyReads disks.old disks.new }
    ensures untouched { AreUntouched missing.now disks.old disks.new }
    ensures digest { IfOk result (λ read. IfSome read (λ bytes.
        sha256 bytes.items ≡ block.now.checksum)) }
    ensures size { IfOk result (λ read. IfSome read (λ bytes.
        length bytes.items ≡ block.now.property.sectors * 512)) }
    ensures chosen { IfOk result (λ read. IfSome read (λ bytes. IsChosenOf
        shapes.now disks.old disks.new block.now bytes.items places.now)) }
    ensures none { IfOk result (λ read. IfNone read (AreUnread
        shapes.now disks.old disks.new missing.now block.now places.now)) }
    ensures refused { IfErr result (λ refusal. (refusal ≡ Refusal.NoMemory)
        ⊎ ((refusal ≡ Refusal.BadPointer)
        × AreMisplaced shapes.now block.now places.now)) }
{
    for place in places {
        let read = read_copy(disks, alloc, shapes, block, *place, missing)?;
        if let Some(bytes) = read {
            return Ok(Some(bytes));
        }
    }
    Ok(None)
}

/// The bytes of a block, by the first copy that can be read: none where no copy can be.
pub(crate) fn read_right<D: Disk + Drop>(
    disks: &mut DiskArray<D>,
    alloc: Global,
    shapes: &[VdevShape],
    block: &Block,
    missing: &[usize],
) -> Result<Option<Vec<u8>>, Refusal>
    requires { HaveRoom shapes.now disks.old.starts }
    ensures reads { OnlyReads disks.old disks.new }
    ensures untouched { AreUntouched missing.now disks.old disks.new }
    ensures digest { IfOk result (λ read. IfSome read (λ bytes.
        sha256 bytes.items ≡ block.now.checksum)) }
    ensures size { IfOk result (λ read. IfSome read (λ bytes.
        length bytes.items ≡ block.now.property.sectors * 512)) }
    ensures chosen { IfOk result (λ read. IfSome read (λ bytes. IsChosenOf
        shapes.now disks.old disks.new block.now bytes.items (dvas block.now.copies))) }
    ensures none { IfOk result (λ read. IfNone read (AreUnread
        shapes.now disks.old disks.new missing.now block.now (dvas block.now.copies))) }
    ensures refused { IfErr result (λ refusal. (refusal ≡ Refusal.NoMemory)
        ⊎ ((refusal ≡ Refusal.BadPointer)
        × AreMisplaced shapes.now block.now (dvas block.now.copies))) }
{
    let places = places_of(block.copies);
    read_first(disks, alloc, shapes, block, places.as_slice(), missing)
}
