//! What the configuration of a pool may be.
ghost use Rattle.std.specs.Prelude.{◌≡◌, ◌≢◌, ◌↔◌, ◌∷◌, ◌<◌, ◌+◌, ℕ, map, length, All, AllPairs, get_or, IsTrue, IfOk};
ghost use Rattle.vdev_label.specs.Config.{guids};
ghost use Rattle.vdev_label.specs.Limits.{IsAllowedVdev, IsAllowed};
ghost use Rattle.vdev_label.specs.Plain.{vdev_view, config_view};

use crate::label::{Config, Vdev};
use raidz_map::{MAX_CHILDREN, MAX_PARITY};
use std::alloc::{AllocError, Global};

/// The most vdevs that a pool may have.
pub const MAX_VDEVS: usize = 8;

/// The sectors of a metaslab, as a power of two: from this one on.
pub const MIN_SLAB_SHIFT: u64 = 12;

/// And up to this one.
pub const MAX_SLAB_SHIFT: u64 = 20;

/// The most metaslabs that a vdev may have.
pub const MAX_SLABS: u64 = 1024;

/// The sectors for blocks of the smallest disk, of 8 MiB.
pub const MIN_CHILD_SECTORS: u64 = 7168;

/// And of the largest, of 2^43 bytes.
pub const MAX_CHILD_SECTORS: u64 = (1 << 34) - 9216;

/// The sectors of a label, of which a disk has a whole number.
const LABEL_SECTORS: u64 = 512;

fn is_allowed_vdev(vdev: &Vdev) -> bool
    ensures { IsTrue result ↔ IsAllowedVdev (vdev_view vdev.now) }
{
    let children = vdev.children.len() as u64;
    let has_parity = 1 <= vdev.parity && vdev.parity <= u64::from(MAX_PARITY);
    let has_data = vdev.parity < children && children <= u64::from(MAX_CHILDREN);
    let sectors = vdev.child_sectors;
    let has_sectors = MIN_CHILD_SECTORS <= sectors && sectors <= MAX_CHILD_SECTORS;
    let shift = vdev.slab_shift;
    let has_shift = MIN_SLAB_SHIFT <= shift && shift <= MAX_SLAB_SHIFT;
    if !has_parity || !has_data || !has_sectors || !has_shift {
        return false;
    }
    let slabs = sectors * children / (1 << shift);
    sectors % LABEL_SECTORS == 0
        && 1 <= vdev.meta_slabs
        && vdev.meta_slabs < slabs
        && slabs <= MAX_SLABS
}

fn are_allowed(vdevs: &[Vdev]) -> bool
    ensures { IsTrue result ↔ All IsAllowedVdev (map vdev_view vdevs.now) }
{
    for i in 0..vdevs.len() {
        if !is_allowed_vdev(&vdevs[i]) {
            return false;
        }
    }
    true
}

/// Whether none of the guids in front is this one.
fn is_new(guids: &[u64], i: usize) -> bool
    requires { i < length guids.now }
    ensures { IsTrue result ↔ ((j : ℕ) → j < i → get_or guids.now j 0 ≢ get_or guids.now i 0) }
{
    for j in 0..i {
        if guids[j] == guids[i] {
            return false;
        }
    }
    true
}

/// Whether no guid is 0, and no two are equal.
fn are_guids(guids: &[u64]) -> bool
    ensures { IsTrue result ↔ (All (λ guid. guid ≢ 0) guids.now
        × AllPairs (λ a b. a ≢ b) guids.now) }
{
    for i in 0..guids.len() {
        if guids[i] == 0 || !is_new(guids, i) {
            return false;
        }
    }
    true
}

/// All guids of a pool: its own, and those of the vdevs, each with its disks' behind it.
fn all_guids(alloc: Global, pool_guid: u64, vdevs: &[Vdev]) -> Result<Vec<u64>, AllocError>
    ensures { IfOk result (λ found. found.items ≡ pool_guid ∷ guids (map vdev_view vdevs.now)) }
{
    let mut found = Vec::new(alloc);
    found.push(pool_guid)?;
    for i in 0..vdevs.len() {
        found.push(vdevs[i].guid)?;
        found.extend_from_slice(&vdevs[i].children)?;
    }
    Ok(found)
}

impl Config {
    /// Whether a pool of this guid may have the configuration: 1 to 8 vdevs of one or two parities and
    /// up to 32 disks, the disks of 8 MiB to 2^43 bytes; metaslabs of 2^12 to 2^20 sectors, at most
    /// 1,024 a vdev, of which at least one is for the meta region and one is not; and all guids, the
    /// pool's too, other than 0 and different.
    pub fn is_allowed(&self, alloc: Global, pool_guid: u64) -> Result<bool, AllocError>
        ensures { IfOk result (λ allowed. IsTrue allowed
            ↔ IsAllowed pool_guid (config_view self.now)) }
    {
        let count = self.vdevs.len();
        if count == 0 || count > MAX_VDEVS || !are_allowed(&self.vdevs) {
            return Ok(false);
        }
        let guids = all_guids(alloc, pool_guid, &self.vdevs)?;
        Ok(are_guids(&guids))
    }
}
