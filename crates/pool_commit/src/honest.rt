//! The committed half of a pool over disks that answer truly.
ghost use Rattle.std.specs.Prelude.{ℕ};
ghost use Rattle.model_disk.specs.Joint.{AreHonestSince};
ghost use Rattle.pool_commit.specs.StateOf.{disks_in};

use crate::commit::Commit;
use model_disk::HonestDisk;

impl<D: HonestDisk + Drop> Commit<D> {
    /// A law: of honest disks each answer was true, since any state before.
    pub fn answers_are_true(&self)
        ensures { (n : ℕ)
            → AreHonestSince n (disks_in self.now).starts (disks_in self.now).calls }
    {
        self.store.answers_are_true();
    }
}
