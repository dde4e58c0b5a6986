//! What is printed of a pool and its disks.
ghost use Rattle.std.specs.Prelude.{◌≡◌, ◌++◌, IfOk, OnOk, string_bytes};
ghost use Rattle.pool_command.specs.Tables.{disks_text, status_text, vdev_text, vdevs_text};

use std::alloc::{AllocError, Global};
use std::fmt;

/// Whether a disk is in use. It prints as it stands behind the disk's guid.
#[derive(Clone, Copy)]
pub enum DiskState {
    Online,
    /// It was not among the files, or no pool could be read on it.
    Absent,
    /// It lacks what these groups wrote, and those between them.
    Stale { from: u64, to: u64 },
}

impl fmt::Display for DiskState {
    ghost use Rattle.std.specs.Prelude.{Some};
    ghost use Rattle.pool_command.specs.Tables.{state_text};

    ghost output = { λ state. Some (state_text state) };

    fn fmt<W: fmt::Write>(&self, f: &mut fmt::Formatter<W>) -> fmt::Result {
        match self {
            DiskState::Online => f.write_str("online"),
            DiskState::Absent => f.write_str("absent"),
            DiskState::Stale { from, to } => write!(f, "stale {from} {to}"),
        }
    }
}

/// A disk of a pool. It prints as its line, without a line feed.
#[derive(Clone, Copy)]
pub struct DiskStatus {
    /// Counted over all vdevs, from 0: it prints as it stands here, and whoever makes the rows counts.
    pub number: usize,
    pub guid: u64,
    pub state: DiskState,
}

impl fmt::Display for DiskStatus {
    ghost use Rattle.std.specs.Prelude.{Some};
    ghost use Rattle.pool_command.specs.Tables.{disk_text};

    ghost output = { λ disk. Some (disk_text disk) };

    fn fmt<W: fmt::Write>(&self, f: &mut fmt::Formatter<W>) -> fmt::Result {
        let DiskStatus {
            number,
            guid,
            state,
        } = *self;
        write!(f, "  disk {number} {guid:016x} {state}")
    }
}

/// A vdev of a pool, and its disks in the order of its children.
#[derive(Drop)]
pub struct VdevStatus {
    /// From 0: it prints as it stands here.
    pub number: usize,
    pub parities: u32,
    pub disks: Vec<DiskStatus>,
}

/// A pool, and its vdevs in order.
#[derive(Drop)]
pub struct PoolStatus {
    pub name: String,
    pub claim: u64,
    /// The last committed one.
    pub group: u64,
    pub vdevs: Vec<VdevStatus>,
}

fn push_disks(text: &mut String, disks: &[DiskStatus]) -> Result<(), AllocError>
    ensures { OnOk result (string_bytes text.new ≡ string_bytes text.old ++ disks_text disks.now) }
{
    for disk in disks {
        writeln!(text, "{disk}")?;
    }
    Ok(())
}

fn push_vdev(text: &mut String, vdev: &VdevStatus) -> Result<(), AllocError>
    ensures { OnOk result (string_bytes text.new ≡ string_bytes text.old ++ vdev_text vdev.now) }
{
    let number = vdev.number;
    let parities = vdev.parities;
    writeln!(text, "vdev {number} raidz{parities}")?;
    push_disks(text, vdev.disks.as_slice())
}

fn push_vdevs(text: &mut String, vdevs: &[VdevStatus]) -> Result<(), AllocError>
    ensures { OnOk result (string_bytes text.new ≡ string_bytes text.old ++ vdevs_text vdevs.now) }
{
    for vdev in vdevs {
        push_vdev(text, vdev)?;
    }
    Ok(())
}

/// What is printed of a pool: its name, its claim and its last group, each in a line, and then each vdev with its disks.
pub fn status_text(alloc: Global, pool: &PoolStatus) -> Result<String, AllocError>
    ensures { IfOk result (λ text. string_bytes text ≡ status_text pool.now) }
{
    let name = pool.name.as_str();
    let claim = pool.claim;
    let group = pool.group;
    let mut text = format!(in alloc; "pool {name}\nclaim {claim}\ngroup {group}\n")?;
    push_vdevs(&mut text, pool.vdevs.as_slice())?;
    Ok(text)
}
