//! Disks between commands: their names, their bytes, and the calls of the last command.
use crate::disks::{Moments, NEVER, TimedCall, TimedDisk};
use model_disk::Fault;
use pool_command::Files;
use std::alloc::{AllocError, Global};
use std::cell::Cell;
use std::mem;
use std::rc::Rc;

/// A disk that no command has.
#[derive(Drop)]
struct ShelvedDisk {
    name: String,
    bytes: Vec<u8>,
    /// Those of the last command that had it.
    calls: Vec<TimedCall>,
}

/// The disks that there are, and how the first three fail in the next command.
#[derive(Drop)]
pub(crate) struct Shelf {
    disks: Vec<ShelvedDisk>,
    faults: [Fault; 3],
    moments: Moments,
}

impl Shelf {
    /// With no disk.
    pub(crate) fn new(alloc: Global) -> Result<Shelf, AllocError> {
        Ok(Shelf {
            disks: Vec::new(alloc),
            faults: [NEVER; 3],
            moments: Rc::new(alloc, Cell::new(0))?,
        })
    }

    /// With disks that hold the same and fail so.
    pub(crate) fn copied(&self, alloc: Global, faults: [Fault; 3]) -> Result<Shelf, AllocError> {
        let mut shelf = Shelf::new(alloc)?;
        for disk in &self.disks {
            shelf.disks.push(ShelvedDisk {
                name: disk.name.clone()?,
                bytes: disk.bytes.clone()?,
                calls: Vec::new(alloc),
            })?;
        }
        shelf.faults = faults;
        Ok(shelf)
    }

    /// From now on none fails.
    pub(crate) fn mend(&mut self) {
        self.faults = [NEVER; 3];
    }

    fn place_of(&self, name: &str) -> Option<usize> {
        self.disks
            .iter()
            .position(|disk| disk.name.as_str() == name)
    }

    /// Whether one of these is there.
    pub(crate) fn has_any(&self, names: &Files) -> bool {
        names
            .as_slice()
            .iter()
            .any(|name| self.place_of(name.as_str()).is_some())
    }

    /// Adds disks of so many zeros, and tells how many there were before.
    pub(crate) fn add(
        &mut self,
        alloc: Global,
        names: &Files,
        bytes: usize,
    ) -> Result<usize, AllocError> {
        let before = self.disks.len();
        for name in names.as_slice() {
            self.disks.push(ShelvedDisk {
                name: name.clone()?,
                bytes: vec![in alloc; 0; bytes]?,
                calls: Vec::new(alloc),
            })?;
        }
        Ok(before)
    }

    /// Keeps so many disks, the oldest.
    pub(crate) fn keep(&mut self, count: usize) {
        self.disks.truncate(count);
    }

    /// Hands out a disk for a command.
    fn take_one(&mut self, alloc: Global, name: &str) -> Result<Option<TimedDisk>, AllocError> {
        let Some(place) = self.place_of(name) else {
            return Ok(None);
        };
        let fault = self.faults.get(place).copied().unwrap_or(NEVER);
        let moments = Rc::clone(&self.moments)?;
        let Some(disk) = self.disks.get_mut(place) else {
            return Ok(None);
        };
        let bytes = mem::replace(&mut disk.bytes, Vec::new(alloc));
        Ok(Some(TimedDisk::new(alloc, bytes, place, fault, moments)))
    }

    /// Hands out for a command those of these disks that are there, in this order. No name is to stand twice.
    pub(crate) fn take(
        &mut self,
        alloc: Global,
        names: &Files,
    ) -> Result<Vec<TimedDisk>, AllocError> {
        self.moments.set(0);
        let mut taken = Vec::with_capacity(alloc, names.as_slice().len())?;
        for name in names.as_slice() {
            if let Some(disk) = self.take_one(alloc, name.as_str())? {
                taken.push(disk)?;
            }
        }
        Ok(taken)
    }

    /// Takes disks back, as they are now.
    pub(crate) fn put_back(&mut self, disks: Vec<TimedDisk>) {
        for disk in disks {
            let used = disk.into_used();
            if let Some(disk) = self.disks.get_mut(used.place) {
                disk.bytes = used.bytes;
                disk.calls = used.calls;
            }
        }
    }

    /// How many calls the last command made.
    pub(crate) fn call_count(&self) -> u64 {
        self.moments.get()
    }

    /// How many of a disk's calls came before that moment.
    fn calls_before(&self, place: usize, moment: u64) -> u64 {
        match self.disks.get(place) {
            Some(disk) => disk
                .calls
                .iter()
                .filter(|call| call.moment < moment)
                .count() as u64,
            None => 0,
        }
    }

    /// The place of the disk that had the call at that moment, and whether it was a read.
    pub(crate) fn call_at(&self, moment: u64) -> Option<(usize, bool)> {
        for (place, disk) in self.disks.iter().enumerate() {
            if let Some(call) = disk.calls.iter().find(|call| call.moment == moment) {
                return Some((place, call.is_read));
            }
        }
        None
    }

    /// The disks see no call of the last command from that moment on.
    pub(crate) fn stop_at(&self, moment: u64) -> [Fault; 3] {
        [
            Fault::From(self.calls_before(0, moment)),
            Fault::From(self.calls_before(1, moment)),
            Fault::From(self.calls_before(2, moment)),
        ]
    }

    /// That disk fails at its call of the last command at that moment.
    pub(crate) fn fault_at(&self, place: usize, moment: u64) -> [Fault; 3] {
        let mut faults = [NEVER; 3];
        if let Some(fault) = faults.get_mut(place) {
            *fault = Fault::At(self.calls_before(place, moment));
        }
        faults
    }
}
