//! Reading the labels and slots of disks that are handed in, in any order.
ghost use Rattle.std.specs.Prelude.{◌≡◌, ◌↔◌, ◌⊎◌, ◌≤◌, ◌<◌, ◌*◌, ◌++◌, ◌∷◌, [], length, IfOk, IsTrue, None};
ghost use Rattle.model_disk.specs.Joint.{bytes_of};
ghost use Rattle.pool_slots.specs.Reads.{OnlyReads};
ghost use Rattle.pool_slots.specs.Slots.{is_disk};
ghost use Rattle.pool_labels.specs.Scans.{AreLost, AreSlotsOf, HasUnreadable, IsDiskScan, IsLabeled, IsScanOf, IsUnread, IsValidOf, MakesAtMost, ScansFour, ScansLabel, ScansSlots, ScansSlotsOf, anywhere, has_allowed_size, is_allowed_disk};
ghost use Rattle.pool_labels.specs.declared.scanned.Reading.TheVariants.{Unreadable};
ghost use Rattle.pool_labels.specs.Sizes.{IsAllowedSize, is_allowed_size};

use crate::consistency::is_valid;
use crate::scanned::{DiskScan, Reading, Scan, ScannedDisk, ScannedLabel};
use model_disk::{Disk, DiskArray};
use std::alloc::{AllocError, Global};
use uberblock_ring::{Uberblock, read_slots};
use vdev_label::{LABEL_LEN, LABELS, read_label};

/// The least and the greatest size of a disk, in bytes.
const MIN_SIZE: u64 = 8 << 20;

const MAX_SIZE: u64 = 1 << 43;

/// Whether a disk of a pool may have this size, in bytes.
fn is_allowed_size(size: u64) -> bool
    ensures value { result ≡ is_allowed_size size }
    ensures room { IsTrue result → 1048576 ≤ size }
{
    let whole = size / LABEL_LEN * LABEL_LEN;
    MIN_SIZE <= whole && whole <= MAX_SIZE
}

fn scanned(disk: usize, number: u64, reading: Reading) -> ScannedLabel
    ensures { result ≡ record { disk = disk; number = number; reading = reading } }
{
    ScannedLabel {
        disk,
        number,
        reading,
    }
}

/// Reads a label of a disk. What an invalid one shows is why it isn't valid.
fn scan_label<D: Disk + Drop>(
    alloc: Global,
    disks: &mut DiskArray<D>,
    which: usize,
    number: u64,
) -> Result<ScannedLabel, AllocError>
    requires which { which < length disks.old.starts }
    requires number { number < LABELS }
    requires room { 1048576 ≤ length (bytes_of disks.old.starts which) }
    ensures only { OnlyReads (is_disk which) (IsUnread result) disks.old disks.new }
    ensures scans { IfOk result (ScansLabel disks.old disks.new which number) }
    ensures few { MakesAtMost 1 disks.old disks.new }
{
    match read_label(alloc, disks, which, number) {
        Ok(label) => Ok(scanned(which, number, Reading::Valid(label))),
        Err(vdev_label::Refusal::BadLabel(breach)) => {
            Ok(scanned(which, number, Reading::Bad(breach)))
        }
        Err(vdev_label::Refusal::DiskFault) => Ok(scanned(which, number, Reading::Unreadable)),
        Err(vdev_label::Refusal::NoMemory) => Err(AllocError),
    }
}

/// Reads the four labels of a disk.
fn scan_labels<D: Disk + Drop>(
    alloc: Global,
    disks: &mut DiskArray<D>,
    which: usize,
) -> Result<Vec<ScannedLabel>, AllocError>
    requires which { which < length disks.old.starts }
    requires room { 1048576 ≤ length (bytes_of disks.old.starts which) }
    ensures only { OnlyReads (is_disk which) anywhere disks.old disks.new }
    ensures unread { IfOk result (λ labels. OnlyReads (is_disk which)
        (λ _. HasUnreadable labels.items) disks.old disks.new) }
    ensures scans { IfOk result (ScansFour disks.old disks.new which) }
    ensures few { MakesAtMost 4 disks.old disks.new }
{
    let mut labels = Vec::new(alloc);
    for number in 0..LABELS {
        let label = scan_label(alloc, disks, which, number)?;
        labels.push(label)?;
    }
    Ok(labels)
}

/// Reads the slots of a disk, if all of them can be read.
fn scan_slots<D: Disk + Drop>(
    alloc: Global,
    disks: &mut DiskArray<D>,
    which: usize,
) -> Result<Option<Vec<Option<Uberblock>>>, AllocError>
    requires which { which < length disks.old.starts }
    requires room { 1048576 ≤ length (bytes_of disks.old.starts which) }
    ensures only { OnlyReads (is_disk which) (AreLost result) disks.old disks.new }
    ensures scans { IfOk result (ScansSlots disks.old disks.new which) }
    ensures few { MakesAtMost 512 disks.old disks.new }
{
    match read_slots(alloc, disks, which) {
        Ok(slots) => Ok(Some(slots)),
        Err(uberblock_ring::Refusal::DiskFault) => Ok(None),
        Err(uberblock_ring::Refusal::NoMemory) => Err(AllocError),
        Err(uberblock_ring::Refusal::NoUberblock) => unreachable!(),
    }
}

fn is_valid_of(label: &ScannedLabel, which: usize) -> bool
    ensures { IsTrue result ↔ IsValidOf which label.now }
{
    label.disk == which && is_valid(&label.reading)
}

/// Whether a label of that disk is valid.
fn is_labeled(labels: &[ScannedLabel], which: usize) -> bool
    ensures { IsTrue result ↔ IsLabeled labels.now which }
{
    for label in labels {
        if is_valid_of(label, which) {
            return true;
        }
    }
    false
}

fn is_unreadable(label: &ScannedLabel) -> bool
    ensures { IsTrue result ↔ (label.now.reading ≡ Unreadable) }
{
    match label.reading {
        Reading::Unreadable => true,
        Reading::Valid(_) | Reading::Bad(_) => false,
    }
}

/// Whether a label couldn't be read.
fn has_unreadable(labels: &[ScannedLabel]) -> bool
    ensures { IsTrue result ↔ HasUnreadable labels.now }
{
    for label in labels {
        if is_unreadable(label) {
            return true;
        }
    }
    false
}

/// Reads the slots of a disk with a valid label, if all of them can be read. Of another none are.
fn scan_slots_of<D: Disk + Drop>(
    alloc: Global,
    disks: &mut DiskArray<D>,
    which: usize,
    labels: &[ScannedLabel],
) -> Result<Option<Vec<Option<Uberblock>>>, AllocError>
    requires which { which < length disks.old.starts }
    requires room { 1048576 ≤ length (bytes_of disks.old.starts which) }
    ensures only { OnlyReads (is_disk which) (AreLost result) disks.old disks.new }
    ensures scans { IfOk result (ScansSlotsOf labels.now disks.old disks.new which) }
    ensures few { MakesAtMost 512 disks.old disks.new }
{
    if !is_labeled(labels, which) {
        return Ok(Some(Vec::new(alloc)));
    }
    scan_slots(alloc, disks, which)
}

/// What was read of a disk, where no slots mean that one couldn't be read.
fn disk_scan(
    alloc: Global,
    size: u64,
    labels: Vec<ScannedLabel>,
    slots: Option<Vec<Option<Uberblock>>>,
) -> DiskScan
    ensures size { result.disk.size ≡ size }
    ensures failed { IsTrue result.disk.failed
        ↔ (HasUnreadable labels.items ⊎ (slots ≡ None)) }
    ensures labels { result.labels.items ≡ labels.items }
    ensures slots { AreSlotsOf slots result.slots.items }
{
    let unreadable = has_unreadable(&labels);
    match slots {
        Some(slots) => DiskScan {
            disk: ScannedDisk {
                size,
                failed: unreadable,
            },
            labels,
            slots,
        },
        None => DiskScan {
            disk: ScannedDisk { size, failed: true },
            labels,
            slots: Vec::new(alloc),
        },
    }
}

/// Reads a disk whose size is allowed: its labels, and its slots where one of them is valid.
fn read_disk<D: Disk + Drop>(
    alloc: Global,
    disks: &mut DiskArray<D>,
    which: usize,
) -> Result<DiskScan, AllocError>
    requires which { which < length disks.old.starts }
    requires size { IsAllowedSize (length (bytes_of disks.old.starts which)) }
    requires room { 1048576 ≤ length (bytes_of disks.old.starts which) }
    ensures only { OnlyReads (is_disk which) anywhere disks.old disks.new }
    ensures scans { IfOk result (IsDiskScan disks.old disks.new which) }
    ensures few { MakesAtMost 516 disks.old disks.new }
{
    let size = disks.size(which);
    let labels = scan_labels(alloc, disks, which)?;
    let slots = scan_slots_of(alloc, disks, which, &labels)?;
    Ok(disk_scan(alloc, size, labels, slots))
}

/// Reads a disk. Of one whose size isn't allowed nothing is read.
fn scan_disk<D: Disk + Drop>(
    alloc: Global,
    disks: &mut DiskArray<D>,
    which: usize,
) -> Result<DiskScan, AllocError>
    requires which { which < length disks.old.starts }
    ensures only { OnlyReads (is_allowed_disk disks.old which) anywhere disks.old disks.new }
    ensures scans { IfOk result (IsDiskScan disks.old disks.new which) }
    ensures few { MakesAtMost 516 disks.old disks.new }
{
    let size = disks.size(which);
    if is_allowed_size(size) {
        return read_disk(alloc, disks, which);
    }
    Ok(DiskScan {
        disk: ScannedDisk {
            size,
            failed: false,
        },
        labels: Vec::new(alloc),
        slots: Vec::new(alloc),
    })
}

/// Reads the disks that are handed in, in any order: each one's four labels, and where one of them is
/// valid its 512 slots. Of a disk whose size isn't allowed nothing is read: in whole labels it is to have
/// from 8 MiB to 2^43 bytes (this project's profile). What can't be read is told in the answer.
pub fn scan<D: Disk + Drop>(alloc: Global, disks: &mut DiskArray<D>) -> Result<Scan, AllocError>
    // Nothing is called but reads of disks of an allowed size.
    ensures only { OnlyReads (has_allowed_size disks.old) anywhere disks.old disks.new }

    // What it tells is what the disks hold, where their answers are true, and which of them failed.
    ensures scans { IfOk result (IsScanOf disks.old disks.new) }

    // At most 516 calls are made for each disk, all disks together: as many as it has labels and slots.
    ensures few { MakesAtMost (516 * length disks.old.starts) disks.old disks.new }
{
    let mut scan = Scan::new(alloc);
    for which in 0..disks.len() {
        let disk = scan_disk(alloc, disks, which)?;
        scan.add(disk)?;
    }
    Ok(scan)
}
