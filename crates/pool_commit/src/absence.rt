//! Disks that are taken out of use.
ghost use Rattle.std.specs.Prelude.{◌≡◌, ◌<◌, length, not, None, Some, IsTrue};
ghost use Rattle.pool_model.specs.Machine.{gone_out};
ghost use Rattle.pool_model.specs.Refusals.{is_no_disk};
ghost use Rattle.pool_model.specs.View.{View};
ghost use Rattle.pool_commit.specs.Absence.{LeavesPlan, TakesOut};
ghost use Rattle.pool_commit.specs.Backs.{Backs};
ghost use Rattle.pool_commit.specs.HasDisks.{HasDisks};
ghost use Rattle.pool_commit.specs.StateOf.{state_of, disks_in};

use crate::commit::Commit;
use crate::kept::Planned;
use crate::suspension::{has_disk, lacks_disks};
use model_disk::Disk;

impl<D: Disk + Drop> Commit<D> {
    /// Whether a vdev of the pool has the disk of this number.
    pub fn has_disk(&self, disk: usize) -> bool
        ensures there { IsTrue result → disk < length (disks_in self.now).starts }
        ensures view { (v : View) → Backs (state_of self.now) v
            → result ≡ not (is_no_disk v disk) }
    {
        has_disk(&self.store, disk)
    }

    /// Whether the disk is out.
    pub fn is_out(&self, disk: usize) -> bool
        ensures { (v : View) → Backs (state_of self.now) v → result ≡ v.out disk }
    {
        self.store.is_out(disk)
    }

    /// Takes a disk out of use, with no call on it. Where something before the slots is left of a plan, the plan is dropped;
    /// from the slots on it goes on with what is left on the other disks.
    pub fn take_out(&mut self, disk: usize)
        requires { disk < length (disks_in self.old).starts }
        ensures takes { TakesOut disk (state_of self.old) (state_of self.new) }
        ensures backs { (v : View) → Backs (state_of self.old) v
            → Backs (state_of self.new) (gone_out v disk) }
    {
        self.store.put_out(disk);
        self.suspended = lacks_disks(&self.store);
        if let Some(planned) = self.planned.take() {
            self.leave_out(planned, disk);
        }
    }

    /// Goes on with what is left of this plan on other disks than that one, which is out; or drops it.
    fn leave_out(&mut self, mut planned: Planned, disk: usize)
        requires none { self.old.planned ≡ None }
        requires there { HasDisks (length self.old.store.disks.starts) (Some planned) }
        ensures { LeavesPlan disk (state_of self.old) planned (state_of self.new) }
    {
        if self.store.due_count() > 0 || !planned.behind.flushes.is_empty() {
            self.store
                .drop_plan(self.kept.committed().saturating_add(1));
            return;
        }
        planned.behind.leave_out(disk);
        self.planned = Some(planned);
    }
}
