//! Disks in memory that are at hand, by what each of them holds.
use model_disk::{Fault, FaultDisk, MemDisk};
use std::alloc::{AllocError, Global};
use std::mem;
use std::test::Fail;
use words::seal;

/// All tests in memory have disks of this one type: a pool over another type is proved once more.
pub(crate) type TestDisk = FaultDisk<MemDisk>;

/// Where the four labels of a disk begin.
pub(crate) const LABELS: [usize; 4] = [0, 0x4_0000, 0x78_0000, 0x7c_0000];

/// Where in a label the area of its list begins.
const AREA_AT: usize = 0x4000;

/// Of each label.
const AREA_LEN: usize = 0x1_c000;

/// Where in a label its slots begin.
const SLOTS_AT: usize = 0x2_0000;

/// Of each label.
const SLOTS_LEN: usize = 0x2_0000;

/// Where in an area the configuration has the last byte of a disk's number of sectors.
const SECTORS_AT: usize = 259;

/// Where in a label the last byte of its disk's guid is.
pub(crate) const GUID_AT: usize = AREA_AT + 47;

/// Where in a label the claim of group 3 is.
pub(crate) const CLAIM_AT: usize = SLOTS_AT + 3 * 1024 + 168;

/// The disks at hand.
#[derive(Drop)]
pub(crate) struct Shelf {
    pub(crate) images: Vec<Vec<u8>>,
    /// What those hold that were put aside.
    pub(crate) saved: Vec<Vec<u8>>,
    /// A disk of zeros, which is copied: to copy one takes less time than to fill one.
    pub(crate) blank: Vec<u8>,
}

/// The fault that a word tells: the number of the read, write or flush that fails, as `write=3`. A hyphen tells none.
fn fault_of(word: &str) -> Result<Fault, Fail> {
    match word.split_once("=") {
        Some(("read", number)) => Ok(Fault::Read(number.parse()?)),
        Some(("write", number)) => Ok(Fault::Write(number.parse()?)),
        Some(("flush", number)) => Ok(Fault::Flush(number.parse()?)),
        None if word == "-" => Ok(Fault::At(u64::MAX)),
        _ => Err(Fail::new(format_args!("no fault {word}"))),
    }
}

/// Fills the slots of each label of a disk with zeros, or else makes the configuration that each has that of disks with one sector more.
pub(crate) fn spoil(image: &mut [u8], makes_bare: bool) {
    'labels: for label in LABELS {
        let slots_at = label.saturating_add(SLOTS_AT);
        let area_at = label.saturating_add(AREA_AT);
        if makes_bare {
            if let Some(slots) = image.get_mut(slots_at..slots_at.saturating_add(SLOTS_LEN)) {
                slots.fill(0);
            }
        } else if let Some(area) = image.get_mut(area_at..area_at.saturating_add(AREA_LEN)) {
            if let Some(byte) = area.get_mut(SECTORS_AT) {
                *byte = 1;
            }
            if area.len() >= 40 {
                seal(area);
            }
        }
    }
}

impl Shelf {
    /// Adds so many disks with the first bytes of the one of zeros.
    pub(crate) fn add_blank(
        &mut self,
        alloc: Global,
        count: u64,
        size: usize,
    ) -> Result<(), AllocError> {
        'disks: for _ in 0..count {
            let image = Vec::from_slice(alloc, self.blank.get(..size).unwrap_or(&[]))?;
            self.images.push(image)?;
        }
        Ok(())
    }

    /// Adds what these disks hold.
    pub(crate) fn keep(&mut self, disks: Vec<TestDisk>) -> Result<(), AllocError> {
        'disks: for disk in disks {
            self.images.push(disk.into_inner().into_bytes())?;
        }
        Ok(())
    }

    /// Takes the disks from this number on. They fail as the words tell, one for each; where there are no more words they don't.
    pub(crate) fn hand_in(
        &mut self,
        alloc: Global,
        first: usize,
        faults: &str,
    ) -> Result<Vec<TestDisk>, Fail> {
        let images = mem::replace(&mut self.images, Vec::new(alloc));
        let mut words = faults.split_whitespace();
        let mut disks = Vec::new(alloc);
        'images: for (number, image) in images.into_iter().enumerate() {
            if number < first {
                self.images.push(image)?;
            } else {
                let fault = fault_of(words.next().unwrap_or("-"))?;
                disks.push(FaultDisk::new(MemDisk::holding(image), fault))?;
            }
        }
        Ok(disks)
    }

    /// Adds copies of these of the disks that were put aside.
    pub(crate) fn load(&mut self, alloc: Global, numbers: &[u64]) -> Result<(), Fail> {
        'numbers: for number in numbers {
            let Some(image) = self.saved.get(*number as usize) else {
                return Err(Fail::new(format_args!("no disk {number}")));
            };
            let image = Vec::from_slice(alloc, image)?;
            self.images.push(image)?;
        }
        Ok(())
    }

    /// The byte at this place of each disk, where it is that long.
    pub(crate) fn bytes_at(&self, alloc: Global, place: usize) -> Result<String, AllocError> {
        let mut bytes = Vec::new(alloc);
        'images: for image in &self.images {
            bytes.push(image.get(place).copied())?;
        }
        format!(in alloc; "{bytes:?}")
    }
}
