//! Vdevs as the store divides them.
ghost use Rattle.std.specs.Prelude.{◌≡◌, ◌<◌, ◌≤◌, ◌^◌, ◌↔◌, IsTrue};

use block_pointer::Dva;
use raidz_io::Vdev;

/// A vdev, which is divided into metaslabs. Those sectors behind the last whole metaslab are not used.
#[derive(Clone, Copy)]
pub struct VdevShape {
    pub vdev: Vdev,
    /// How many sectors of 512 bytes of each child hold blocks.
    pub child_sectors: u64,
    /// A metaslab has 2 to this power sectors of the vdev.
    pub metaslab_shift: u32,
    /// So many metaslabs, the last ones, are for the blocks of the meta object set.
    pub meta_slabs: u64,
    ghost most_sectors: { child_sectors < 2 ^ 34 },
    ghost least_shift: { 12 ≤ metaslab_shift },
    ghost most_shift: { metaslab_shift ≤ 20 },
    ghost most_meta: { meta_slabs < 2 ^ 64 },
}

impl VdevShape {
    ghost use Rattle.block_store.specs.Shapes.{vdev_sectors, metaslab_sectors, metaslabs, metaslab_of, sector_of, IsPlace, first_meta, HasRegions, IsInRegion};

    /// How many sectors the vdev has.
    pub fn sectors(self) -> u64
        ensures value { result ≡ vdev_sectors self }
        ensures bound { result < 2 ^ 39 }
    {
        u64::from(self.vdev.geometry.children) * self.child_sectors
    }

    /// How many sectors a metaslab has.
    #[tactic(auto, using(crate::proofs::Sizes::slab_bound))]
    pub fn metaslab_sectors(self) -> u64
        ensures value { result ≡ metaslab_sectors self }
        ensures some { 0 < result }
        ensures bound { result ≤ 2 ^ 20 }
    {
        1 << self.metaslab_shift
    }

    /// How many metaslabs there are.
    pub fn metaslabs(self) -> u64
        ensures value { result ≡ metaslabs self }
        ensures bound { result < 2 ^ 39 }
    {
        self.sectors() / self.metaslab_sectors()
    }

    /// Whether there is a meta region, and a metaslab before it.
    pub(crate) fn has_regions(self) -> bool
        ensures { IsTrue result ↔ HasRegions self }
    {
        1 <= self.meta_slabs && self.meta_slabs < self.metaslabs()
    }

    /// The number of the first metaslab of the meta region.
    pub fn first_meta(self) -> u64
        ensures { result ≡ first_meta self }
    {
        self.metaslabs().saturating_sub(self.meta_slabs)
    }

    /// Whether blocks of so many copies go to that metaslab: those of three, which are of the meta object set, to the meta
    /// region, and the others to the metaslabs before it.
    pub(crate) fn is_in_region(self, copies: usize, metaslab: u64) -> bool
        ensures { IsTrue result ↔ IsInRegion self copies metaslab }
    {
        if copies == 3 {
            self.first_meta() <= metaslab
        } else {
            metaslab < self.first_meta()
        }
    }

    /// The number of the metaslab that a copy begins in.
    pub(crate) fn metaslab_of(self, place: Dva) -> u64
        ensures { result ≡ metaslab_of self place }
    {
        place.offset / self.metaslab_sectors()
    }

    /// Whether a copy of a block of so many data sectors may lie there: it takes up what such a block does, and lies
    /// in one metaslab.
    pub(crate) fn is_place(self, sectors: u32, place: Dva) -> bool
        ensures { IsTrue result ↔ IsPlace self sectors place }
    {
        let within = place.offset % self.metaslab_sectors();
        u64::from(place.allocated) == self.vdev.geometry.asize(sectors)
            && self.metaslab_of(place) < self.metaslabs()
            && within + u64::from(place.allocated) <= self.metaslab_sectors()
    }
    /// Whether it is also in the region for blocks of so many copies.
    pub(crate) fn is_place_for(self, sectors: u32, copies: usize, place: Dva) -> bool
        ensures { IsTrue result ↔ (IsPlace self sectors place
            × IsInRegion self copies (metaslab_of self place)) }
    {
        self.is_place(sectors, place) && self.is_in_region(copies, self.metaslab_of(place))
    }
}
