//! Where the search for a place begins.
ghost use Rattle.std.specs.Prelude.{◌≡◌, ◌==◌, if◌then◌else◌, slice_index_or, slice_set};

use crate::create::MAX_VDEVS;

/// Where the search for a block's place begins: at a vdev behind the last one that was taken, so that blocks spread over the vdevs; and
/// on each vdev, in each region, at the metaslab that the last block went to, so that full ones before it aren't looked at again.
#[derive(Clone, Copy)]
pub(crate) struct Cursors {
    pub vdev: usize,
    /// For each vdev a metaslab before the meta region.
    pub blocks: [usize; MAX_VDEVS],
    /// And one of the meta region.
    pub meta: [usize; MAX_VDEVS],
}

impl Cursors {
    /// All searches begin at the front.
    pub(crate) fn new() -> Self {
        Cursors {
            vdev: 0,
            blocks: [0; MAX_VDEVS],
            meta: [0; MAX_VDEVS],
        }
    }

    /// The metaslab of a vdev where a search for blocks of so many copies begins.
    pub(crate) fn metaslab(&self, vdev: usize, copies: usize) -> usize
        ensures { result ≡ slice_index_or (if copies == 3 then self.now.meta else self.now.blocks)
            vdev 0 }
    {
        let metaslabs = if copies == 3 {
            &self.meta
        } else {
            &self.blocks
        };
        metaslabs.get(vdev).copied().unwrap_or(0)
    }

    /// A copy went to that metaslab of the vdev, of a block of so many copies. The next search for a vdev begins behind this one. The
    /// next search on it in that region begins at this metaslab, if the copy is the block's first: the others are kept off it.
    pub(crate) fn move_on(&mut self, vdev: usize, metaslab: usize, copies: usize, is_first: bool) {
        self.vdev = vdev.wrapping_add(1);
        if !is_first {
            return;
        }
        let metaslabs = if copies == 3 {
            &mut self.meta
        } else {
            &mut self.blocks
        };
        if let Some(last) = metaslabs.get_mut(vdev) {
            *last = metaslab;
        }
    }
}
