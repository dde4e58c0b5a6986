//! The disks of a pool, by their guids.
ghost use Rattle.std.specs.Prelude.{◌≡◌, ◌↔◌, IfOk, IsTrue};
ghost use Rattle.disk_set.specs.Outs.{is_out};
ghost use Rattle.stale_disks.specs.Rules.{IsOfDisk, guids_in};
ghost use Rattle.vdev_label.specs.Plain.{config_view};

use std::alloc::{AllocError, Global};
use vdev_label::Config;

/// The guids of a configuration's disks, in the order of their numbers: those of the first vdev's children, then those of the next one's.
pub fn disk_guids(alloc: Global, config: &Config) -> Result<Vec<u64>, AllocError>
    ensures { IfOk result (λ guids. guids.items ≡ guids_in (config_view config.now)) }
{
    let mut guids = Vec::new(alloc);
    for vdev in 0..config.vdevs.len() {
        guids.extend_from_slice(&config.vdevs[vdev].children)?;
    }
    Ok(guids)
}

/// Whether the disk of that number is marked as out.
pub(crate) fn is_marked(out: &[bool], disk: usize) -> bool
    ensures { result ≡ is_out out.now disk }
{
    out.get(disk).copied().unwrap_or(false)
}

/// Whether a disk of this guid is out, or isn't.
pub(crate) fn has_disk(guids: &[u64], out: &[bool], is: bool, guid: u64) -> bool
    ensures { IsTrue result ↔ IsOfDisk guids.now out.now is guid }
{
    for disk in 0..guids.len() {
        if guids[disk] == guid && is_marked(out, disk) == is {
            return true;
        }
    }
    false
}
