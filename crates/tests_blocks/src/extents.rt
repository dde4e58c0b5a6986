//! Blocks on arrays of disks, written, spoilt and read back.
ghost use Rattle.std.specs.Prelude.{◌≡◌, ◌≤◌, length, IfOk};
ghost use Rattle.model_disk.specs.Memory.{HaveSize};
ghost use Rattle.raidz_io.specs.Places.{CanHold, IsOnDisks};

use model_disk::{DiskArray, Fault, FaultDisk, MemDisk};
use raidz_io::{ColumnWrite, DATA_START, Extent, Refusal, Vdev, extent_fits};
use raidz_map::Geometry;
use sha2::{Digest, Sha256};
use std::alloc::Global;
use std::sync::Arc;
use std::test::Fail;
use tests_disks::lines::{Bench, Call};
use tests_disks::pattern::Pattern;

/// Blocks of five sectors with one parity on the disks 1 to 4, or with two on the disks 1 to 5: a column
/// on each. `sets` has how many parities there are, how many disks are missing as the block is read, and
/// how many hold other bytes. It goes over all such sets of disks, and gives how many pairs of them there
/// are and what comes of each. `checked` and `read`, with a digest and without, have the parities, the
/// disks that do one call and no more, and those that are missing, as numbers: bit k for disk k.
pub(crate) const EXTENTS: &[(&str, &str)] = &[
    // Any columns, no more than there are parities, may be missing or wrong, and no further ones: of 4
    // disks and of 5.
    ("sets 1 0 0", "1 same"),
    ("sets 1 0 1", "4 same"),
    ("sets 1 0 2", "6 BadDigest"),
    ("sets 1 0 3", "4 BadDigest"),
    ("sets 1 0 4", "1 BadDigest"),
    ("sets 1 1 0", "4 same"),
    ("sets 1 1 1", "12 BadDigest"),
    ("sets 1 1 2", "12 BadDigest"),
    ("sets 1 1 3", "4 BadDigest"),
    ("sets 1 2 0", "6 DiskFault"),
    ("sets 1 2 1", "12 DiskFault"),
    ("sets 1 2 2", "6 DiskFault"),
    ("sets 1 3 0", "4 DiskFault"),
    ("sets 1 3 1", "4 DiskFault"),
    ("sets 1 4 0", "1 DiskFault"),
    ("sets 2 0 0", "1 same"),
    ("sets 2 0 1", "5 same"),
    ("sets 2 0 2", "10 same"),
    ("sets 2 0 3", "10 BadDigest"),
    ("sets 2 0 4", "5 BadDigest"),
    ("sets 2 0 5", "1 BadDigest"),
    ("sets 2 1 0", "5 same"),
    ("sets 2 1 1", "20 same"),
    ("sets 2 1 2", "30 BadDigest"),
    ("sets 2 1 3", "20 BadDigest"),
    ("sets 2 1 4", "5 BadDigest"),
    ("sets 2 2 0", "10 same"),
    ("sets 2 2 1", "30 BadDigest"),
    ("sets 2 2 2", "30 BadDigest"),
    ("sets 2 2 3", "10 BadDigest"),
    ("sets 2 3 0", "10 DiskFault"),
    ("sets 2 3 1", "20 DiskFault"),
    ("sets 2 3 2", "10 DiskFault"),
    ("sets 2 4 0", "5 DiskFault"),
    ("sets 2 4 1", "5 DiskFault"),
    ("sets 2 5 0", "1 DiskFault"),
    // The disks 2 and 4 fail as the block is read, and then disk 1 is missing too.
    ("checked 2 20 0; checked 2 20 2", "same; DiskFault"),
    // Disk 3 fails and disk 5 is missing, where the block has no digest.
    ("read 2 8 32", "same"),
    // Vdev sectors 3 to 9 of four disks: the parity is at 3 and 7, then the data at 4 and 8, 5 and 9, and
    // 6. Behind its disk and its offset there stand the bytes of the block that a write has, as they are on
    // the disk once the block is written.
    (
        "writes",
        "4@0x400000 parity true; 1@0x400200 0+1024; 2@0x400200 1024+1024; 3@0x400200 2048+512",
    ),
    // The same of the writes of a second copy, which share the block with others.
    (
        "shared_writes",
        "4@0x400000 parity true; 1@0x400200 0+1024; 2@0x400200 1024+1024; 3@0x400200 2048+512",
    ),
];

type Disks = DiskArray<FaultDisk<MemDisk>>;

/// How many bytes each disk has: the space before its sectors, and eight sectors.
const SIZE: usize = 0x401000;

/// A block of five sectors with so many parities, on a vdev that begins at disk 1, and disks, of which these do one
/// call and no more.
fn fresh(alloc: Global, parity: u32, failing: u32) -> Result<(Extent, Disks), Fail>
    ensures fits { IfOk result (λ it. CanHold it.0) }
    ensures on_disks { IfOk result (λ it. IsOnDisks it.0 it.1.starts) }
    ensures sectors { IfOk result (λ it. it.0.sectors ≡ 5) }
{
    extent_fits();
    let children = parity.min(2) + 3;
    let geometry = Geometry::new(children, parity, 9)?;
    if geometry.asize(5) >= 20 {
        return Err(Fail::new("more sectors than the disks have"));
    }
    let extent = Extent {
        vdev: Vdev { geometry, first: 1 },
        start: 3,
        sectors: 5,
    };
    let mut disks = DiskArray::new(Vec::new(alloc));
    for which in 0..children as usize + 1 {
        let fault = if which < 32 && failing >> which & 1 == 1 {
            Fault::From(1)
        } else {
            Fault::At(u64::MAX)
        };
        disks.push(FaultDisk::new(MemDisk::new(alloc, SIZE)?, fault))?;
    }
    Ok((extent, disks))
}

/// What is done to a block: these disks get other bytes, and these are missing as it is read, by its
/// digest or without.
#[derive(Clone, Copy)]
struct Trial {
    missing: u32,
    wrong: u32,
    is_checked: bool,
}

/// Writes a block, changes the disks that are to be wrong, and reads it back.
fn written_and_read(
    alloc: Global,
    extent: Extent,
    disks: &mut Disks,
    trial: Trial,
) -> Result<&'static str, Fail>
    requires sectors { extent.sectors ≡ 5 }
    requires fits { CanHold extent }
    requires on_disks { IsOnDisks extent disks.old.starts }
    ensures { disks.new.starts ≡ disks.old.starts }
{
    let block = Pattern::BLOCK.bytes(alloc, 2560)?;
    extent.write(disks, alloc, &block)?;
    let mut missing = Vec::new(alloc);
    for which in 0..disks.len().min(32) {
        if trial.missing >> which & 1 == 1 {
            missing.push(which)?;
        }
        if trial.wrong >> which & 1 == 1 && disks.size(which) == SIZE as u64 {
            disks.write_at(which, DATA_START, &[0xa5; 0x1000])?;
        }
    }
    let answer = if trial.is_checked {
        extent.read_checked(disks, alloc, &missing, &Sha256::digest(&block))
    } else {
        extent.read(disks, alloc, &missing)
    };
    match answer {
        Ok(bytes) => Ok(if bytes == block { "same" } else { "other" }),
        Err(Refusal::NoMemory) => Ok("NoMemory"),
        Err(Refusal::DiskFault) => Ok("DiskFault"),
        Err(Refusal::BadDigest) => Ok("BadDigest"),
    }
}

/// What comes of the block with each set of so many missing disks, and each set of so many wrong ones of
/// the others. `sets` is how many sets there are of the disks on which it lies.
fn tally(
    alloc: Global,
    extent: Extent,
    disks: &mut Disks,
    sets: u32,
    missing: u32,
    wrong: u32,
) -> Result<String, Fail>
    requires sets { sets ≤ 64 }
    requires sectors { extent.sectors ≡ 5 }
    requires fits { CanHold extent }
    requires on_disks { IsOnDisks extent disks.old.starts }
{
    let mut came = String::new(alloc);
    let mut count = 0u32;
    for pair in 0..sets * sets {
        let (one, other) = (pair / sets * 2, pair % sets * 2);
        if one & other == 0 && one.count_ones() == missing && other.count_ones() == wrong {
            let trial = Trial {
                missing: one,
                wrong: other,
                is_checked: true,
            };
            let outcome = written_and_read(alloc, extent, disks, trial)?;
            if count > 0 && outcome != came.as_str() {
                return Ok(format!(in alloc; "{came} and {outcome}")?);
            }
            came = outcome.to_string(alloc)?;
            count = count.saturating_add(1);
        }
    }
    Ok(format!(in alloc; "{count} {came}")?)
}

/// What a write tells of itself, where this is what stands at its place: and how far the block is told then.
fn told(
    alloc: Global,
    write: &ColumnWrite,
    there: &[u8],
    bytes: &[u8],
    at: usize,
) -> Result<(String, usize), Fail> {
    let place = format!(in alloc; "{}@{:#x}", write.disk(), write.offset())?;
    if let Some(row) = write.parity(alloc)? {
        let is_there = row.as_slice() == there;
        return Ok((format!(in alloc; "{place} parity {is_there}")?, at));
    }
    let len = there.len();
    let end = at.saturating_add(len);
    if bytes.get(at..end) == Some(there) {
        return Ok((format!(in alloc; "; {place} {at}+{len}")?, end));
    }
    Ok((format!(in alloc; "; {place} other bytes")?, at))
}

/// What writes of a block tell of themselves, by what stands at their places.
fn written(
    alloc: Global,
    disks: &mut Disks,
    writes: &[ColumnWrite],
    bytes: &[u8],
) -> Result<String, Fail> {
    let mut text = String::new(alloc);
    let mut at = 0usize;
    for write in writes {
        let (disk, offset) = (write.disk(), write.offset());
        let len = if at < 2048 { 1024 } else { 512 };
        let mut there = vec![in alloc; 0; len]?;
        if disk < disks.len() && disks.size(disk) == SIZE as u64 && offset <= 0x400200 {
            disks.read(disk, offset, there.as_mut_slice())?;
        }
        let (row, next) = told(alloc, write, &there, bytes, at)?;
        text.push_str(row.as_str())?;
        at = next;
    }
    Ok(text)
}

/// The writes of the columns of a block with one parity, or those of another copy that shares its bytes, and
/// what stands at their places once the block is written.
fn writes(alloc: Global, is_copy: bool) -> Result<String, Fail> {
    let bytes = Pattern::BLOCK.bytes(alloc, 2560)?;
    let block = Arc::new(alloc, bytes.clone()?)?;
    let (extent, mut disks) = fresh(alloc, 1, 0)?;
    extent.write(&mut disks, alloc, &bytes)?;
    let first = extent.column_writes(alloc, &block)?;
    let writes = if is_copy {
        extent.column_writes(alloc, &block)?
    } else {
        first
    };
    written(alloc, &mut disks, &writes, &bytes)
}

#[derive(Drop)]
pub(crate) struct Extents;

impl Bench for Extents {
    fn answer(&mut self, alloc: Global, call: &Call) -> Result<String, Fail> {
        if matches!(call.name, "writes" | "shared_writes") {
            return writes(alloc, call.name == "shared_writes");
        }
        let parity = call.number(0).min(2) as u32;
        let (first, second) = (
            u32::try_from(call.number(1))?,
            u32::try_from(call.number(2))?,
        );
        if call.name == "sets" {
            let (extent, mut disks) = fresh(alloc, parity, 0)?;
            let sets = if parity == 2 { 32 } else { 16 };
            return tally(alloc, extent, &mut disks, sets, first, second);
        }
        let (extent, mut disks) = fresh(alloc, parity, first)?;
        let trial = Trial {
            missing: second,
            wrong: 0,
            is_checked: call.name == "checked",
        };
        let outcome = written_and_read(alloc, extent, &mut disks, trial)?;
        Ok(outcome.to_string(alloc)?)
    }
}
