//! What is told of a pool at rest, and what an export asks of its core.
ghost use Rattle.std.specs.Prelude.{◌≡◌, length, None, IfOk, IfSome};
ghost use Rattle.pool_commit.specs.Last.{IsLastUberblock, LacksUberblock};
ghost use Rattle.pool_commit.specs.Spans.{AreSameSpans};
ghost use Rattle.pool_core.specs.Exporting.{IsAgainstExport, IsExportable};
ghost use Rattle.pool_core.specs.State.{config_of, spans_of};
ghost use Rattle.pool_core.specs.StateOf.{disks_in, state_of};
ghost use Rattle.pool_slots.specs.Slots.{HaveLabels};

use crate::pool::Core;
use meta_objset::StaleSpans;
use model_disk::Disk;
use pool_commit::KnownDisks;
use pool_model::Refusal;
use std::alloc::{AllocError, Global};
use uberblock_ring::Uberblock;
use vdev_label::Config;

impl<D: Disk + Drop> Core<D> {
    /// Why the pool is not exported now, if it isn't: `Suspended`, or `NotNow` while a group is synced or waits, or the open one has
    /// accepted something. A hold of the open group is nothing that it has accepted.
    pub fn export_refusal(&self) -> Option<Refusal>
        ensures some { IfSome result (IsAgainstExport (state_of self.now)) }
        ensures none { result ≡ None → IsExportable (state_of self.now) }
    {
        if self.commit.is_suspended() {
            return Some(Refusal::Suspended);
        }
        if !self.intake.is_at_rest() {
            return Some(Refusal::NotNow);
        }
        None
    }

    /// The uberblock of the committed group, but for its timestamp: that isn't kept, and 0 stands for it. None where the group has no
    /// root, or where its number is 0 or above 2^62.
    pub fn last_uberblock(&self) -> Option<Uberblock>
        ensures last { IfSome result (IsLastUberblock (state_of self.now).commit) }
        ensures none { result ≡ None → LacksUberblock (state_of self.now).commit }
    {
        self.commit.last_uberblock()
    }

    /// The configuration of the pool, which the object set of each of its groups has.
    pub fn config(&self) -> &Config
        ensures { result.now ≡ config_of (state_of self.now) }
    {
        self.commit.config()
    }

    /// Of which groups disks lack blocks, as far as it is known: of a disk that was away, and is in use again, those between; of one that was
    /// out as the last group was planned all from the first one on.
    pub fn stale_spans(&self) -> &StaleSpans
        ensures { result.now ≡ spans_of (state_of self.now) }
    {
        self.commit.stale_spans()
    }

    /// What is known of the pool's disks: the configuration that they are of, and of which groups each lacks blocks. With it, or with fewer
    /// spans, a core may be begun anew over the disks.
    pub fn known_disks(&self, alloc: Global) -> Result<KnownDisks, AllocError>
        ensures config { IfOk result (λ known.
            known.config.value ≡ config_of (state_of self.now)) }
        ensures spans { IfOk result (λ known.
            AreSameSpans (spans_of (state_of self.now)) known.spans) }
    {
        self.commit.known_disks(alloc)
    }

    /// Of each disk, whether it is out.
    pub fn marks(&self, alloc: Global) -> Result<Vec<bool>, AllocError>
        ensures { IfOk result (λ marks.
            marks.items ≡ (state_of self.now).commit.store.out) }
    {
        self.commit.marks(alloc)
    }

    /// A law: there is a mark for each disk, and each disk has room for four labels.
    pub fn disks_have_labels(&self)
        ensures count { length (state_of self.now).commit.store.out
            ≡ length (disks_in self.now).starts }
        ensures labels { HaveLabels (disks_in self.now).starts }
    {
        self.commit.disks_have_labels();
    }
}
