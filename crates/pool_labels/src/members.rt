//! Which of the disks is which child of the configuration.
ghost use Rattle.std.specs.Prelude.{◌≡◌, ◌↔◌, length, map, IfOk, IsTrue};
ghost use Rattle.vdev_label.specs.Plain.{vdev_view};
ghost use Rattle.pool_labels.specs.Choices.{AreAllMembers, AreEnough, AreMembers, IsMember, IsPresentAs, IsUsable, absent_count};
ghost use Rattle.pool_labels.specs.Sizes.{HasSectors};

use crate::scanned::{Reading, Scan, ScannedDisk, ScannedLabel};
use std::alloc::{AllocError, Global};
use vdev_label::Vdev;

/// The bytes of a sector, and of a label.
const SECTOR_LEN: u64 = 512;

const LABEL_LEN: u64 = 262_144;

/// The sectors of a disk that are none of a vdev: those of its labels, and 3.5 MiB behind the first two.
const OTHER_SECTORS: u64 = 9216;

/// Whether a disk of this size, in bytes, has so many sectors for a vdev.
fn has_sectors(size: u64, sectors: u64) -> bool
    ensures { IsTrue result ↔ HasSectors size sectors }
{
    let whole = size / LABEL_LEN * (LABEL_LEN / SECTOR_LEN);
    OTHER_SECTORS <= whole && sectors <= whole - OTHER_SECTORS
}

/// Whether no read of the disk failed, and it has so many sectors.
fn is_usable(disks: &[ScannedDisk], sectors: u64, which: usize) -> bool
    ensures { IsTrue result ↔ IsUsable disks.now sectors which }
{
    match disks.get(which) {
        Some(disk) => !disk.failed && has_sectors(disk.size, sectors),
        None => false,
    }
}

/// Whether a valid label says that its disk has this guid, and the disk is usable.
fn is_present_as(disks: &[ScannedDisk], label: &ScannedLabel, sectors: u64, guid: u64) -> bool
    ensures { IsTrue result ↔ IsPresentAs disks.now sectors guid label.now.disk label.now.reading }
{
    match &label.reading {
        Reading::Valid(found) => found.guid == guid && is_usable(disks, sectors, label.disk),
        Reading::Bad(_) | Reading::Unreadable => false,
    }
}

/// The disk of this guid, if it is present.
fn member(scan: &Scan, sectors: u64, guid: u64) -> Option<usize>
    ensures { IsMember scan.now sectors guid result }
{
    for label in &scan.labels {
        if is_present_as(&scan.disks, label, sectors, guid) {
            return Some(label.disk);
        }
    }
    None
}

/// The disks of a vdev's children.
fn members(alloc: Global, scan: &Scan, vdev: &Vdev) -> Result<Vec<Option<usize>>, AllocError>
    ensures { IfOk result (λ found. AreMembers scan.now (vdev_view vdev.now) found.items) }
{
    let mut found = Vec::new(alloc);
    for i in 0..vdev.children.len() {
        found.push(member(scan, vdev.child_sectors, vdev.children[i]))?;
    }
    Ok(found)
}

/// The disks of the children of each vdev.
pub(crate) fn all_members(
    alloc: Global,
    scan: &Scan,
    vdevs: &[Vdev],
) -> Result<Vec<Vec<Option<usize>>>, AllocError>
    ensures { IfOk result (λ all. AreAllMembers scan.now (map vdev_view vdevs.now) all.items) }
{
    let mut all = Vec::new(alloc);
    for i in 0..vdevs.len() {
        all.push(members(alloc, scan, &vdevs[i])?)?;
    }
    Ok(all)
}

/// How many children are absent.
fn absent_count(found: &[Option<usize>]) -> usize
    ensures { result ≡ absent_count found.now }
{
    found.iter().filter(|it| it.is_none()).count()
}

/// Whether no vdev lacks more children than it has parities.
pub(crate) fn are_enough(vdevs: &[Vdev], all: &[Vec<Option<usize>>]) -> bool
    requires { length all.now ≡ length vdevs.now }
    ensures { IsTrue result ↔ AreEnough (map vdev_view vdevs.now) all.now }
{
    for i in 0..vdevs.len() {
        if absent_count(&all[i]) as u64 > vdevs[i].parity {
            return false;
        }
    }
    true
}
