//! Stores over disks that answer truly.
ghost use Rattle.std.specs.Prelude.{ℕ};
ghost use Rattle.model_disk.specs.Joint.{AreHonestSince};

use crate::store::BlockStore;
use model_disk::HonestDisk;

impl<D: HonestDisk + Drop> BlockStore<D> {
    /// A law: of honest disks each answer so far was true.
    pub fn answers_are_true(&self)
        ensures { (n : ℕ) → AreHonestSince n self.now.disks.starts self.now.disks.calls }
    {
        self.set.are_honest();
    }
}
