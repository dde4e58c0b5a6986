//! The blocks that a write has every byte of.
ghost use Rattle.std.specs.Prelude.{◌↔◌, ◌/◌, ◌<◌, IsTrue};
ghost use Rattle.volume.specs.Volume.{size_of, block_size_of};
ghost use Rattle.volume.specs.Writing.{IsCovered};

use crate::volume::VolumeSet;
use crate::writing::GroupWrites;
use volume_rules::covers_any;

impl VolumeSet {
    /// Whether one of the writes to the volume has every byte of the block.
    pub(crate) fn is_covered(&self, changes: &GroupWrites, id: u64) -> bool
        requires { id < size_of self.now / block_size_of self.now }
        ensures { IsTrue result
            ↔ IsCovered self.now changes.now.name.now changes.now.items.now.writes id }
    {
        let block_size = self.block_size();
        let start = id * block_size;
        covers_any(changes.items, changes.name, self.size(), start, block_size)
    }
}
