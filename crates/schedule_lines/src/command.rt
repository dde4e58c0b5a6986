//! What the lines of a schedule say.
use crate::disk_numbers::DiskNumbers;
use pool_model::Name;

/// A line of a schedule.
#[derive(Debug, Drop)]
pub enum Line {
    /// An empty line, or one that begins with `#`.
    Skipped,
    /// The lines behind it may be run by threads. It is no step, and prints nothing.
    Threads,
    Command(Command),
}

/// What a line asks for.
#[derive(Debug, Drop)]
pub enum Command {
    Pool(PoolLine),
    Hold { writer: u32 },
    Release { writer: u32 },
    Write(WriteLine),
    Create(CreateLine),
    Snapshot(SnapshotLine),
    Clone(CloneLine),
    Destroy(DestroyLine),
    Close,
    Quiesced,
    Plan,
    Device,
    Commit,
    Sync,
    Read(ReadLine),
    Under(UnderLine),
    /// Takes the disk of this number out of use.
    Out { disk: u32 },
    /// Says where the next commit stops, or the next reopening.
    Stop(StopPoint),
    /// Opens the disks again.
    Reopen(ReopenLine),
}

/// A pool over disks in memory.
#[derive(Clone, Copy, Debug, PartialEq, Eq)]
pub struct PoolLine {
    pub parities: u32,
    pub disks: u32,
    /// Of each disk.
    pub bytes: u64,
    /// A metaslab has two to the power of this many sectors.
    pub metaslab_shift: u32,
    /// How many metaslabs are for the pool's own blocks.
    pub meta_metaslabs: u32,
}

/// Bytes that are all alike, written as a writer's item.
#[derive(Debug, Drop)]
pub struct WriteLine {
    pub writer: u32,
    /// The item's number.
    pub number: u64,
    pub volume: Name,
    /// In bytes.
    pub offset: u64,
    /// In bytes.
    pub len: u64,
    /// Each of the bytes.
    pub byte: u8,
}

/// A new volume, made as a writer's item.
#[derive(Debug, Drop)]
pub struct CreateLine {
    pub writer: u32,
    /// The item's number.
    pub number: u64,
    pub volume: Name,
    /// In bytes.
    pub size: u64,
    /// In bytes.
    pub block_size: u64,
}

/// A snapshot of a volume, taken as a writer's item.
#[derive(Debug, Drop)]
pub struct SnapshotLine {
    pub writer: u32,
    /// The item's number.
    pub number: u64,
    pub volume: Name,
    /// What stands behind the '@' in the snapshot's name.
    pub part: Name,
}

/// A clone of a snapshot, made as a writer's item.
#[derive(Debug, Drop)]
pub struct CloneLine {
    pub writer: u32,
    /// The item's number.
    pub number: u64,
    /// The snapshot's whole name.
    pub snapshot: Name,
    /// The clone's.
    pub name: Name,
}

/// A volume or a snapshot that is destroyed, as a writer's item.
#[derive(Debug, Drop)]
pub struct DestroyLine {
    pub writer: u32,
    /// The item's number.
    pub number: u64,
    /// The volume's name, or the snapshot's whole name.
    pub name: Name,
}

/// A range of what all accepted groups make.
#[derive(Debug, Drop)]
pub struct ReadLine {
    pub name: Name,
    /// In bytes.
    pub offset: u64,
    /// In bytes.
    pub len: u64,
}

/// A range of what a committed group contains.
#[derive(Debug, Drop)]
pub struct UnderLine {
    pub group: u64,
    pub name: Name,
    /// In bytes.
    pub offset: u64,
    /// In bytes.
    pub len: u64,
}

/// Where a commit or a reopening stops: what the disks hold then.
#[derive(Clone, Copy, Debug, PartialEq, Eq)]
pub enum StopPoint {
    /// All blocks are written and flushed, and no slot is.
    Blocks,
    /// As many disks from the first on hold the new slot whole, the others their old bytes.
    Slots { disks: u32 },
    /// The claim's label is flushed on each present disk. As many of these from the first on hold the claimed slot in
    /// labels 0 and 2, flushed.
    Claim { disks: u32 },
}

/// Disks that are opened again.
#[derive(Debug, Drop)]
pub struct ReopenLine {
    /// How many groups it goes back: 0, 1 or 2.
    pub rewind: u64,
    /// The disks that are left out, in the order of the line.
    pub absent: DiskNumbers,
}
