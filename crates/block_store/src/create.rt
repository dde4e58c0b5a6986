//! How a store is made.
ghost use Rattle.std.specs.Prelude.{◌≡◌, ◌≤◌, ◌<◌, ◌+◌, ◌^◌, ◌⊎◌, ℕ, [], false, map, length, IfSome, IfNone, IfOk, IfErr};
ghost use Rattle.std.specs.Option.{SomeIff};
ghost use Rattle.model_disk.specs.Joint.{calls_on, log_of};
ghost use Rattle.block_store.specs.declared.shape.VdevShape.{VdevShape};
ghost use Rattle.block_store.specs.Config.{IsAllowedSize, sectors_of, AreAllowedSizes, IsLeastOf, IsShapeOf, AreShapes, HaveNoShapes, IsFewVdevs, MakeNoStore};
ghost use Rattle.block_store.specs.Places.{shapes_of, AreEmpty};

use crate::cursor::Cursors;
use crate::refusal::Refusal;
use crate::shape::VdevShape;
use crate::space::VdevMetaslabs;
use crate::store::BlockStore;
use disk_set::DiskSet;
use model_disk::{Disk, DiskArray};
use raidz_io::{DATA_START, Vdev};
use raidz_map::{Geometry, SECTOR_BYTES};
use std::alloc::{AllocError, Global};

/// The most vdevs that a store may have.
pub(crate) const MAX_VDEVS: usize = 8;

/// The sectors of a metaslab, as a power of two: from this one on.
pub const MIN_METASLAB_SHIFT: u32 = 12;

/// And up to this one.
pub const MAX_METASLAB_SHIFT: u32 = 20;

/// The most metaslabs that a vdev may have.
pub(crate) const MAX_METASLABS: u64 = 1024;

/// The bytes of a disk are used in multiples of this: 256 KiB, the size of a label.
const DISK_UNIT: u64 = 0x40000;

/// A disk has at least so many bytes that are used: 8 MiB.
const MIN_DISK: u64 = 0x800000;

/// And at most so many: 8 TiB.
const MAX_DISK: u64 = 1 << 43;

/// How many bytes of a disk are for labels: those before the sectors of blocks, and two labels behind them.
const LABEL_BYTES: u64 = DATA_START + 2 * DISK_UNIT;

/// A vdev of a store that is to be made. A metaslab has 2 to the power `metaslab_shift` sectors, and the shift is
/// from 12 to 20. The last `meta_slabs` metaslabs, at least one and not all, are for the blocks of the meta object set.
#[derive(Clone, Copy)]
pub struct VdevConfig {
    pub geometry: Geometry,
    pub metaslab_shift: u32,
    pub meta_slabs: u64,
}

/// How many sectors for blocks a disk of that size in bytes has, if it is neither too small nor too large.
pub fn sectors_for_blocks(size: u64) -> Option<u64>
    ensures value { SomeIff result (IsAllowedSize size) (sectors_of size) }
    ensures bound { IfSome result (λ sectors. sectors < 2 ^ 34) }
{
    let used = size / DISK_UNIT * DISK_UNIT;
    if used < MIN_DISK || MAX_DISK < used {
        return None;
    }
    Some((used - LABEL_BYTES) / SECTOR_BYTES)
}

/// How many sectors for blocks the smallest of the disks from `first` on and before `end` has, where none is too small or
/// too large.
fn least_sectors<D: Disk + Drop>(disks: &DiskArray<D>, first: usize, end: usize) -> Option<u64>
    requires some { first < end }
    requires there { end ≤ length disks.now.starts }
    ensures allowed { IfSome result (λ _. AreAllowedSizes disks.now.starts first end) }
    ensures least { IfSome result (λ sectors. IsLeastOf disks.now.starts first end sectors) }
    ensures none { IfNone result (¬ AreAllowedSizes disks.now.starts first end) }
{
    let mut least = sectors_for_blocks(disks.size(first))?;
    for disk in first + 1..end {
        let sectors = sectors_for_blocks(disks.size(disk))?;
        least = least.min(sectors);
    }
    Some(least)
}

/// The vdev that is asked for, with that disk as its first child.
fn shape_of<D: Disk + Drop>(
    disks: &DiskArray<D>,
    first: usize,
    config: VdevConfig,
) -> Option<VdevShape>
    requires { first ≤ length disks.now.starts }
    ensures some { IfSome result (λ shape. IsShapeOf disks.now.starts first config shape) }
    ensures none { IfNone result ((shape : VdevShape)
        → ¬ IsShapeOf disks.now.starts first config shape) }
{
    let children = config.geometry.children as usize;
    if disks.len() - first < children {
        return None;
    }
    let child_sectors = least_sectors(disks, first, first + children)?;
    if config.metaslab_shift < MIN_METASLAB_SHIFT || MAX_METASLAB_SHIFT < config.metaslab_shift {
        return None;
    }
    let shape = VdevShape {
        vdev: Vdev {
            geometry: config.geometry,
            first,
        },
        child_sectors,
        metaslab_shift: config.metaslab_shift,
        meta_slabs: config.meta_slabs,
    };
    if shape.has_regions() && shape.metaslabs() <= MAX_METASLABS {
        Some(shape)
    } else {
        None
    }
}

/// The space of the vdevs that are asked for, which take all the disks.
fn spaces_of<D: Disk + Drop>(
    alloc: Global,
    disks: &DiskArray<D>,
    vdevs: &[VdevConfig],
) -> Result<Vec<VdevMetaslabs>, Refusal>
    ensures ok { IfOk result (λ spaces.
        AreShapes disks.now.starts 0 vdevs.now (shapes_of spaces.items)) }
    ensures empty { IfOk result (λ spaces. AreEmpty spaces.items) }
    ensures refused { IfErr result (λ refusal. (refusal ≡ Refusal.NoMemory)
        ⊎ ((refusal ≡ Refusal.BadConfig) × HaveNoShapes disks.now.starts vdevs.now)) }
{
    let count = disks.len();
    let mut spaces = Vec::new(alloc);
    let mut first = 0;
    for config in vdevs {
        let Some(shape) = shape_of(disks, first, *config) else {
            return Err(Refusal::BadConfig);
        };
        let space = VdevMetaslabs::new(alloc, shape)?;
        spaces.push(space).map_err(AllocError::from)?;
        first += config.geometry.children as usize;
    }
    if first != count {
        return Err(Refusal::BadConfig);
    }
    Ok(spaces)
}

impl<D: Disk + Drop> BlockStore<D> {
    ghost use Rattle.block_store.specs.Blocks.{nothing_stored};
    ghost use Rattle.block_store.specs.Plans.{Plans};
    ghost use Rattle.block_store.specs.Store.{Stores, is_out};

    /// A store without blocks, over disks that are not out. The vdevs take the disks in order, each as many as it has
    /// children. Where a vdev, a disk or their number is not within the limits the answer is `BadConfig`.
    pub fn new(alloc: Global, disks: Vec<D>, vdevs: &[VdevConfig]) -> Result<Self, Refusal>
        ensures count { IfOk result (λ store. IsFewVdevs vdevs.now) }
        ensures shapes { IfOk result (λ store.
            AreShapes store.disks.starts 0 vdevs.now (shapes_of store.spaces)) }
        ensures starts { IfOk result (λ store. store.disks.starts ≡ map D.start disks.items) }
        ensures calls { IfOk result (λ store. (which : ℕ)
            → calls_on which store.disks.calls ≡ log_of (map D.calls disks.items) which) }
        ensures out { IfOk result (λ store. (disk : ℕ) → is_out store.out disk ≡ false) }
        ensures group { IfOk result (λ store. store.spans.group ≡ 0) }
        ensures stale { IfOk result (λ store. store.spans.stale ≡ []) }
        ensures due { IfOk result (λ store. store.due ≡ []) }
        ensures stray { IfOk result (λ store. store.stray ≡ false) }

        // It holds no block, and no plan is begun: no sector is in use.
        ensures empty { IfOk result (λ store. AreEmpty store.spaces) }
        ensures holds { IfOk result (λ store. Stores store nothing_stored) }
        ensures plans { IfOk result (λ store. Plans store nothing_stored nothing_stored) }
        ensures refused { IfErr result (λ refusal. (refusal ≡ Refusal.NoMemory)
            ⊎ ((refusal ≡ Refusal.BadConfig) × MakeNoStore (map D.start disks.items) vdevs.now)) }
    {
        if vdevs.is_empty() || MAX_VDEVS < vdevs.len() {
            return Err(Refusal::BadConfig);
        }
        let disks = DiskArray::new(disks);
        let spaces = spaces_of(alloc, &disks, vdevs)?;
        let out = vec![in alloc; false; disks.len()]?;
        let set = DiskSet::new(alloc, disks, out)?;
        Ok(BlockStore {
            set,
            spaces,
            stray: false,
            cursors: Cursors::new(),
        })
    }

    /// The disks, in the order of their numbers.
    pub fn into_disks(self) -> Vec<D>
        ensures starts { map D.start result.items ≡ self.disks.starts }
        ensures calls { (which : ℕ)
            → log_of (map D.calls result.items) which ≡ calls_on which self.disks.calls }
    {
        self.set.into_array().into_disks()
    }
}
