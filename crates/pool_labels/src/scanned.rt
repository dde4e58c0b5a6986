//! What was read of disks.
ghost use Rattle.std.specs.Prelude.{◌≡◌, ◌++◌, ◌∷◌, [], OnOk};

use std::alloc::{AllocError, Global};
use uberblock_ring::Uberblock;
use vdev_label::{Breach, Label};

/// What a label shows.
#[derive(Drop)]
pub enum Reading {
    Valid(Label),
    /// It isn't valid, for this cause.
    Bad(Breach),
    /// It couldn't be read.
    Unreadable,
}

/// A label of a disk, and what it shows.
#[derive(Drop)]
pub struct ScannedLabel {
    /// The number of the disk, as it was handed in.
    pub disk: usize,
    /// The number of the label on the disk, from 0 to 3.
    pub number: u64,
    pub reading: Reading,
}

/// A disk that was handed in.
#[derive(Clone, Copy, PartialEq, Eq)]
pub struct ScannedDisk {
    /// Its size in bytes.
    pub size: u64,
    /// A read of it failed.
    pub failed: bool,
}

/// What was read of the disks that were handed in.
#[derive(Drop)]
pub struct Scan {
    pub disks: Vec<ScannedDisk>,
    /// The labels of the disks of an allowed size, by the number of the disk, then of the label.
    pub labels: Vec<ScannedLabel>,
    /// What the slots of the disks with a valid label show, where all of a disk could be read.
    pub slots: Vec<Option<Uberblock>>,
}

/// What was read of one disk.
#[derive(Drop)]
pub(crate) struct DiskScan {
    pub(crate) disk: ScannedDisk,
    pub(crate) labels: Vec<ScannedLabel>,
    pub(crate) slots: Vec<Option<Uberblock>>,
}

impl Scan {
    /// What is read of no disk.
    pub(crate) fn new(alloc: Global) -> Scan
        ensures disks { result.disks.items ≡ [] }
        ensures labels { result.labels.items ≡ [] }
        ensures slots { result.slots.items ≡ [] }
    {
        Scan {
            disks: Vec::new(alloc),
            labels: Vec::new(alloc),
            slots: Vec::new(alloc),
        }
    }

    /// Adds what was read of the next disk.
    pub(crate) fn add(&mut self, it: DiskScan) -> Result<(), AllocError>
        ensures disks { OnOk result (self.new.disks.items ≡ self.old.disks.items ++ it.disk ∷ []) }
        ensures labels { OnOk result
            (self.new.labels.items ≡ self.old.labels.items ++ it.labels.items) }
        ensures slots { OnOk result (self.new.slots.items ≡ self.old.slots.items ++ it.slots.items) }
    {
        let DiskScan {
            disk,
            mut labels,
            mut slots,
        } = it;
        self.disks.push(disk)?;
        self.labels.append(&mut labels)?;
        self.slots.append(&mut slots)?;
        Ok(())
    }
}
