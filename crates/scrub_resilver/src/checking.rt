//! Looks at all columns of blocks.
ghost use Rattle.std.specs.Prelude.{ℕ, ◌≡◌, ◌⊎◌, ◌<◌, ◌++◌, ◌*◌, List, Option, Some, IfErr, IfOk, OnOk, length, slice_get};
ghost use Rattle.block_pointer.specs.Copies.{dvas};
ghost use Rattle.raidz_io.specs.Places.{CanHold, IsNamed, IsOnDisks, disk_of, offset_of};
ghost use Rattle.raidz_io.specs.Reads.{AreUntouched, OnlyReads};
ghost use Rattle.raidz_io.specs.Stands.{all_columns};
ghost use Rattle.raidz_map.specs.declared.column.Column.{Column as ColumnOf};
ghost use Rattle.scrub_resilver.specs.Columns.{IsSpread};
ghost use Rattle.scrub_resilver.specs.Checking.{IsPlaceChecked};
ghost use Rattle.scrub_resilver.specs.Copies.{HaveRoom, IsNoPlace};
ghost use Rattle.scrub_resilver.specs.Looking.{IsCheckedSoFar, IsJudged, finding_of};
ghost use Rattle.scrub_resilver.specs.declared.fault.Finding.{Finding as FindingOf};

use crate::copies::extent_at;
use crate::fault::{Fault, Finding};
use crate::looking::{look_at, place_of};
use crate::refusal::Refusal;
use crate::spread::{SpreadBlock, spread};
use block_pointer::Dva;
use block_store::VdevShape;
use model_disk::{Disk, DiskArray};
use raidz_io::Extent;
use raidz_map::Column;
use std::alloc::{AllocError, Global};

/// A copy of a block: the number of its vdev, and where it lies there.
#[derive(Clone, Copy)]
pub(crate) struct CopyAt {
    pub(crate) vdev: u32,
    pub(crate) extent: Extent,
}

/// Looks at a column of a copy, whose bytes there should be these; or nobody knows them.
pub(crate) fn look_at_column<D: Disk + Drop>(
    disks: &mut DiskArray<D>,
    alloc: Global,
    extent: Extent,
    spread: &SpreadBlock,
    column: usize,
    is_known: bool,
    missing: &[usize],
) -> Result<Option<Fault>, AllocError>
    requires fits { CanHold extent }
    requires on_disks { IsOnDisks extent disks.old.starts }
    requires spread { (block : List ℕ) × IsSpread extent block spread.now }
    requires below { column < length spread.now.layout.items }
    ensures reads { OnlyReads disks.old disks.new }
    ensures untouched { AreUntouched missing.now disks.old disks.new }
    ensures judged { IfOk result (λ fault. (place : ColumnOf) (bytes : List ℕ)
        → slice_get spread.now.layout.items column ≡ Some place
        → slice_get (all_columns spread.now.columns) column ≡ Some bytes
        → IsJudged disks.old disks.new missing.now is_known
        (disk_of extent.vdev place) (offset_of place) bytes fault) }
{
    let place = place_of(extent.vdev, spread.layout.as_slice()[column]);
    look_at(disks, alloc, place, spread.bytes(column), is_known, missing)
}

/// Adds the finding of a column of a copy, which lies there, if anything is wrong with it.
fn add(
    found: &mut Vec<Finding>,
    copy: CopyAt,
    column: usize,
    place: Column,
    fault: Option<Fault>,
) -> Result<(), AllocError>
    requires { IsNamed copy.extent.vdev place }
    ensures { OnOk result (found.new.items
        ≡ found.old.items ++ finding_of copy.vdev copy.extent column place fault) }
{
    let Some(fault) = fault else {
        return Ok(());
    };
    found.push(Finding {
        vdev: copy.vdev,
        start: copy.extent.start,
        sectors: copy.extent.sectors,
        column,
        disk: place_of(copy.extent.vdev, place).disk,
        fault,
    })?;
    Ok(())
}

/// Looks at all columns of a copy in their order, and adds what it finds.
fn check_copy<D: Disk + Drop>(
    disks: &mut DiskArray<D>,
    alloc: Global,
    copy: CopyAt,
    spread: &SpreadBlock,
    is_known: bool,
    missing: &[usize],
    found: &mut Vec<Finding>,
) -> Result<(), AllocError>
    requires fits { CanHold copy.extent }
    requires on_disks { IsOnDisks copy.extent disks.old.starts }
    requires spread { (block : List ℕ) × IsSpread copy.extent block spread.now }
    ensures reads { OnlyReads disks.old disks.new }
    ensures untouched { AreUntouched missing.now disks.old disks.new }
    ensures checked { OnOk result (IsCheckedSoFar disks.old disks.new missing.now
        copy.vdev copy.extent is_known spread.now.layout.items (all_columns spread.now.columns)
        (length spread.now.layout.items) found.old.items found.new.items) }
{
    let extent = copy.extent;
    for column in 0..spread.layout.len() {
        let fault = look_at_column(disks, alloc, extent, spread, column, is_known, missing)?;
        let place = spread.layout.as_slice()[column];
        add(found, copy, column, place, fault)?;
    }
    Ok(())
}

/// What a block should have at its copies: bytes with its digest, or any where no such bytes are known.
#[derive(Drop)]
pub(crate) struct Right {
    pub(crate) bytes: Vec<u8>,
    pub(crate) is_known: bool,
    /// How many sectors of 512 bytes they are.
    pub(crate) sectors: u32,
}

/// Looks at all columns of the copy that lies there, and adds what it finds.
pub(crate) fn check_place<D: Disk + Drop>(
    disks: &mut DiskArray<D>,
    alloc: Global,
    shapes: &[VdevShape],
    place: Dva,
    right: &Right,
    missing: &[usize],
    found: &mut Vec<Finding>,
) -> Result<(), Refusal>
    requires room { HaveRoom shapes.now disks.old.starts }
    requires size { length right.now.bytes.items ≡ right.now.sectors * 512 }
    ensures reads { OnlyReads disks.old disks.new }
    ensures untouched { AreUntouched missing.now disks.old disks.new }
    ensures checked { OnOk result ((more : List FindingOf)
        × (found.new.items ≡ found.old.items ++ more)
        × IsPlaceChecked shapes.now disks.old disks.new missing.now right.now.sectors
        right.now.is_known right.now.bytes.items place more) }
    ensures refused { IfErr result (λ refusal. (refusal ≡ Refusal.NoMemory)
        ⊎ ((refusal ≡ Refusal.BadPointer) × IsNoPlace shapes.now right.now.sectors place)) }
{
    let Some(extent) = extent_at(shapes, place, right.sectors) else {
        return Err(Refusal::BadPointer);
    };
    let bytes = Vec::from_slice(alloc, right.bytes.as_slice())?;
    let it = spread(alloc, extent, bytes)?;
    let copy = CopyAt {
        vdev: place.vdev,
        extent,
    };
    check_copy(disks, alloc, copy, &it, right.is_known, missing, found)?;
    Ok(())
}
