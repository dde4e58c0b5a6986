//! The groups that are kept, and the plan of the next one.
ghost use Rattle.std.specs.Prelude.{◌≡◌, None};
ghost use Rattle.std.specs.Option.{option_copied};
ghost use Rattle.vdev_label.specs.Plain.{config_view};
ghost use Rattle.pool_commit.specs.Configs.{FitsTable, FitsTable-prop};

use block_pointer::Block;
use dataset_snapshots::KeptDirectory;
use disk_set::Behind;
use meta_objset::{Directory, StaleSpans};
use std::alloc::Global;
use std::mem;
use std::sync::Arc;
use uberblock_ring::Uberblock;
use vdev_label::Config;
use volume_rules::NameIndex;

/// A group: its root, through which all else of it is read, and in memory the names of its pool, the directory and the table of stale spans
/// under the root, the spans that are known, and the configuration. Groups share the names that make no volume, the directory and the spans
/// whose rows are the same, and the configuration. A pool has no root before its first group is planned, and no volumes and no rows then;
/// that group's root gets the configuration.
#[derive(Drop)]
pub struct KeptGroup {
    pub(crate) root: Option<Block>,
    pub(crate) names: Arc<NameIndex, Global>,
    pub(crate) directory: Arc<KeptDirectory, Global>,
    /// The table of stale spans under the root.
    pub(crate) spans_under: Arc<StaleSpans, Global>,
    /// The spans that are known: in the group that was opened those of disks that are back have an end.
    pub(crate) spans: Arc<StaleSpans, Global>,
    pub(crate) config: Arc<Config, Global>,
    ghost table: { root ≡ None → FitsTable (config_view config.value) } by { Prim.hlevel FitsTable-prop },
}

/// The last three committed groups.
#[derive(Drop)]
pub struct Kept {
    committed: u64,
    last: KeptGroup,
    before: Option<KeptGroup>,
    earliest: Option<KeptGroup>,
}

/// A plan: what the group that is synced makes, its uberblock, and what is due once its blocks are written.
#[derive(Drop)]
pub struct Planned {
    pub(crate) after: KeptGroup,
    pub(crate) uberblock: Uberblock,
    pub(crate) behind: Behind,
}

impl KeptGroup {
    /// The names of its pool.
    pub(crate) fn names(&self) -> &NameIndex
        ensures { result.now ≡ self.now.names.value }
    {
        self.names.as_ref()
    }

    /// The directory under its root, as it is kept.
    pub(crate) fn kept_directory(&self) -> &KeptDirectory
        ensures { result.now ≡ self.now.directory.value }
    {
        self.directory.as_ref()
    }

    /// Its configuration.
    pub(crate) fn config(&self) -> &Config
        ensures { result.now ≡ self.now.config.value }
    {
        self.config.as_ref()
    }

    /// The spans that are known.
    pub(crate) fn spans(&self) -> &StaleSpans
        ensures { result.now ≡ self.now.spans.value }
    {
        self.spans.as_ref()
    }

    /// The directory under its root.
    pub(crate) fn directory(&self) -> &Directory
        ensures { result.now ≡ self.now.directory.value }
    {
        self.directory.as_ref().directory()
    }
}

impl Kept {
    ghost use Rattle.pool_commit.specs.Progress.{IsShifted};
    ghost use Rattle.pool_commit.specs.State.{group_at};

    /// A committed group, and none before it.
    pub(crate) fn new(committed: u64, last: KeptGroup) -> Kept
        ensures committed { result.committed ≡ committed }
        ensures last { result.last ≡ last }
        ensures before { result.before ≡ None }
        ensures earliest { result.earliest ≡ None }
    {
        Kept {
            committed,
            last,
            before: None,
            earliest: None,
        }
    }

    pub(crate) fn committed(&self) -> u64
        ensures { result ≡ self.now.committed }
    {
        self.committed
    }

    pub(crate) fn last(&self) -> &KeptGroup
        ensures { result.now ≡ self.now.last }
    {
        &self.last
    }

    /// A group, where it is kept.
    pub(crate) fn group(&self, group: u64) -> Option<&KeptGroup>
        ensures { option_copied result ≡ group_at self.now group }
    {
        if group == self.committed {
            return Some(&self.last);
        }
        match self.committed.saturating_sub(group) {
            1 => self.before.as_ref(),
            2 => self.earliest.as_ref(),
            _ => None,
        }
    }

    /// The next group is committed.
    pub(crate) fn shift(&mut self, after: KeptGroup)
        ensures { IsShifted self.old after self.new }
    {
        self.committed = self.committed.saturating_add(1);
        let last = mem::replace(&mut self.last, after);
        self.earliest = mem::replace(&mut self.before, Some(last));
    }
}
