//! What is told of the committed group, and of the disks that it stands on.
ghost use Rattle.std.specs.Prelude.{◌≡◌, length, None, IfOk, IfSome};
ghost use Rattle.pool_commit.specs.Last.{IsLastUberblock, LacksUberblock};
ghost use Rattle.pool_commit.specs.Spans.{AreSameSpans};
ghost use Rattle.pool_slots.specs.Slots.{HaveLabels};

use crate::commit::Commit;
use crate::reopening::KnownDisks;
use block_store::BlockStore;
use meta_objset::StaleSpans;
use model_disk::Disk;
use stale_disks::spans_without;
use std::alloc::{AllocError, Global};
use std::sync::Arc;
use uberblock_ring::Uberblock;
use vdev_label::Config;
use words::LAST_COUNT;

/// Of each disk of a store, whether it is out.
pub(crate) fn marks_of<D: Disk + Drop>(
    store: &BlockStore<D>,
    alloc: Global,
) -> Result<Vec<bool>, AllocError>
    ensures { IfOk result (λ marks. marks.items ≡ store.now.out) }
{
    let mut marks = Vec::with_capacity(alloc, store.disk_count())?;
    for disk in 0..store.disk_count() {
        marks.push(store.is_out(disk))?;
    }
    Ok(marks)
}

impl<D: Disk + Drop> Commit<D> {
    ghost use Rattle.pool_commit.specs.StateOf.{state_of, disks_in};

    /// The uberblock of the committed group, but for its timestamp: that isn't kept, and 0 stands for it. None where the group has no
    /// root, or where its number is 0 or above 2^62.
    pub fn last_uberblock(&self) -> Option<Uberblock>
        ensures last { IfSome result (IsLastUberblock (state_of self.now)) }
        ensures none { result ≡ None → LacksUberblock (state_of self.now) }
    {
        let group = self.kept.committed();
        if group == 0 {
            return None;
        }
        if group > LAST_COUNT {
            return None;
        }
        let Some(root) = self.kept.last().root else {
            return None;
        };
        let stamp = self.stamp;
        let config_digest = stamp.config_digest;
        Some(Uberblock {
            group,
            guid_sum: stamp.guid_sum,
            timestamp: 0,
            root,
            claim: stamp.claim,
            config_digest,
        })
    }

    /// The configuration of the pool, which the object set of each of its groups has.
    pub fn config(&self) -> &Config
        ensures { result.now ≡ (state_of self.now).kept.last.config.value }
    {
        self.kept.last().config()
    }

    /// What is known of the pool's disks: the configuration that they are of, and of which groups each lacks blocks.
    pub fn known_disks(&self, alloc: Global) -> Result<KnownDisks, AllocError>
        ensures config { IfOk result (λ known.
            known.config.value ≡ (state_of self.now).kept.last.config.value) }
        ensures spans { IfOk result (λ known.
            AreSameSpans (state_of self.now).kept.last.spans.value known.spans) }
    {
        let last = self.kept.last();
        let spans = spans_without(alloc, last.spans(), &[], &[])?;
        let config = Arc::try_clone(&last.config)?;
        Ok(KnownDisks { config, spans })
    }

    /// Of each disk, whether it is out.
    pub fn marks(&self, alloc: Global) -> Result<Vec<bool>, AllocError>
        ensures marks { IfOk result (λ marks. marks.items ≡ (state_of self.now).store.out) }
    {
        marks_of(&self.store, alloc)
    }

    /// The stale spans that are known.
    pub fn stale_spans(&self) -> &StaleSpans
        ensures { result.now ≡ (state_of self.now).kept.last.spans.value }
    {
        self.kept.last().spans()
    }

    /// A law: there is a mark for each disk, and each disk has room for four labels.
    pub fn disks_have_labels(&self)
        ensures count { length (state_of self.now).store.out
            ≡ length (disks_in self.now).starts }
        ensures labels { HaveLabels (disks_in self.now).starts }
    {
        let _count = self.store.disk_count();
    }
}
