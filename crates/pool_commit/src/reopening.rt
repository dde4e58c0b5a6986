//! The committed half of a core as a pool is opened, or is made on disks.
ghost use Rattle.std.specs.Prelude.{◌≡◌, ◌⊎◌, Some, [], IfOk, IfErr};
ghost use Rattle.block_store.specs.Blocks.{Contents, nothing_stored};
ghost use Rattle.block_store.specs.Places.{AreEmpty, shapes_of};
ghost use Rattle.block_store.specs.Plans.{Plans};
ghost use Rattle.block_store.specs.Store.{Holds, is_out, is_stale};
ghost use Rattle.dataset_snapshots.specs.Contents.{AreContentsOf};
ghost use Rattle.pool_model.specs.Pools.{PlainPool, no_volumes};
ghost use Rattle.pool_model.specs.View.{opened_as};
ghost use Rattle.uberblock_ring.specs.Uberblock.{IsNumber};
ghost use Rattle.pool_commit.specs.Config.{vdevs_of};
ghost use Rattle.pool_commit.specs.Reopened.{AreMisplaced, IsConfiguredUnder, IsEmptyGroup, IsGroupOf, IsOfGroup};
ghost use Rattle.pool_commit.specs.Configs.{FitsTable};
ghost use Rattle.pool_commit.specs.Slots.{IsStampOf, LabelsLieAside};
ghost use Rattle.pool_commit.specs.Spans.{HaveNoSpans};
ghost use Rattle.vdev_label.specs.Plain.{config_view};

use crate::commit::{Commit, no_directory, no_names, no_spans};
use crate::kept::{Kept, KeptGroup};
use crate::refusal::Refusal;
use crate::stamp::Stamp;
use crate::suspension::lacks_disks;
use block_pointer::Block;
use block_store::{BlockStore, found_in_use_are_stored};
use dataset_snapshots::{KeptDirectory, RootContents, load_maps};
use meta_objset::StaleSpans;
use model_disk::{Disk, DiskArray};
use std::alloc::{AllocError, Global};
use std::sync::Arc;
use vdev_label::Config;
use volume_rules::NameIndex;

/// What an open knows of a pool's disks: the configuration that they are of, and the stale spans as the group is opened.
#[derive(Drop)]
pub struct KnownDisks {
    pub config: Arc<Config, Global>,
    pub spans: StaleSpans,
}

/// What is kept of a group's tables: the directory, and the spans of its table.
#[derive(Drop)]
struct Tables {
    directory: KeptDirectory,
    spans: StaleSpans,
}

/// The group with this root, of whose pool these are the tables and the names, as its disks are known.
fn group_of(
    alloc: Global,
    root: Block,
    tables: Tables,
    names: NameIndex,
    known: KnownDisks,
) -> Result<KeptGroup, AllocError>
    ensures is { IfOk result (IsGroupOf root tables.directory names known.config.value) }
    ensures table { IfOk result (λ kept. kept.spans_under.value ≡ tables.spans) }
    ensures spans { IfOk result (λ kept. kept.spans.value ≡ known.spans) }
{
    Ok(KeptGroup {
        root: Some(root),
        names: Arc::new(alloc, names)?,
        directory: Arc::new(alloc, tables.directory)?,
        spans_under: Arc::new(alloc, tables.spans)?,
        spans: Arc::new(alloc, known.spans)?,
        config: known.config,
    })
}

/// A group with no root, no volumes and no rows, and this configuration.
fn empty_group(alloc: Global, config: Arc<Config, Global>) -> Result<KeptGroup, AllocError>
    requires table { FitsTable (config_view config.value) }
    ensures { IfOk result (IsEmptyGroup config.value) }
{
    Ok(KeptGroup {
        root: None,
        names: no_names(alloc)?,
        directory: no_directory(alloc)?,
        spans_under: no_spans(alloc)?,
        spans: no_spans(alloc)?,
        config,
    })
}

impl<D: Disk + Drop> Commit<D> {
    ghost use Rattle.pool_commit.specs.Backs.{Backs, HasMaps};
    ghost use Rattle.pool_commit.specs.StateOf.{state_of, disks_in};

    /// A group over a store, with nothing planned.
    fn of_group(store: BlockStore<D>, stamp: Stamp, group: u64, last: KeptGroup) -> Self
        requires labels { LabelsLieAside store.disks.starts store.spaces }
        requires claim { IsNumber stamp.claim }
        ensures { IsOfGroup store stamp group last (state_of result) }
    {
        let suspended = lacks_disks(&store);
        Commit {
            store,
            kept: Kept::new(group, last),
            planned: None,
            suspended,
            stamp,
        }
    }

    /// A pool of this configuration with no volumes, over a store that holds nothing, committed as that group. It has no root: the next
    /// group writes the first one, with the configuration. The uberblocks of later groups get this stamp. With no memory for it the
    /// store's disks come back.
    pub fn empty(
        alloc: Global,
        store: BlockStore<D>,
        stamp: Stamp,
        group: u64,
        config: Arc<Config, Global>,
    ) -> Result<Self, DiskArray<D>>
        requires plans { Plans store nothing_stored nothing_stored }
        requires empty { AreEmpty store.spaces }
        requires labels { LabelsLieAside store.disks.starts store.spaces }
        requires claim { IsNumber stamp.claim }
        requires table { FitsTable (config_view config.value) }
        requires stamped { IsStampOf (config_view config.value) stamp.claim stamp }
        ensures disks { IfOk result (λ commit. disks_in commit ≡ store.disks) }
        ensures stamp { IfOk result (λ commit. (state_of commit).stamp ≡ stamp) }
        ensures config { IfOk result (λ commit.
            (state_of commit).kept.last.config.value ≡ config.value) }
        ensures backs { IfOk result (λ commit. Backs (state_of commit)
            (opened_as (vdevs_of store.spaces) (is_out store.out)
            (is_stale store.spans.stale) group no_volumes)) }
        ensures spans { IfOk result (λ commit. HaveNoSpans (state_of commit)) }
        ensures back { IfErr result (λ disks. disks ≡ store.disks) }
    {
        match empty_group(alloc, config) {
            Ok(last) => Ok(Commit::of_group(store, stamp, group, last)),
            Err(_) => Err(store.into_array()),
        }
    }

    /// A pool that was committed before as that group, with these disks, over a store that was opened and stores no block yet. The root
    /// is that of the group, and the contents are what was read of it. No disk is called. The uberblocks of later groups get this stamp. No group
    /// before it is kept. What the space maps leave free is loaded, and the blocks of the meta object set are taken in; of those of
    /// the volumes nothing is asked. `BadPointer` where a map is of no metaslab of the pool, a block lies in no place of it, or two
    /// copies share a sector. After an error the store's disks come back.
    pub fn opened(
        alloc: Global,
        store: BlockStore<D>,
        stamp: Stamp,
        group: u64,
        root: Block,
        contents: RootContents,
        known: KnownDisks,
    ) -> Result<Self, (Refusal, DiskArray<D>)>
        requires plans { Plans store nothing_stored nothing_stored }
        requires empty { AreEmpty store.spaces }
        requires labels { LabelsLieAside store.disks.starts store.spaces }
        requires claim { IsNumber stamp.claim }
        ensures disks { IfOk result (λ commit. disks_in commit ≡ store.disks) }
        ensures stamp { IfOk result (λ commit. (state_of commit).stamp ≡ stamp) }
        ensures root { IfOk result (λ commit. (state_of commit).kept.last.root ≡ Some root) }
        ensures config { IfOk result (λ commit.
            (state_of commit).kept.last.config.value ≡ known.config.value) }
        ensures out { IfOk result (λ commit. (state_of commit).store.out ≡ store.out) }
        ensures shapes { IfOk result (λ commit.
            shapes_of (state_of commit).store.spaces ≡ shapes_of store.spaces) }

        // The table of stale spans is what was read. Of the disks that is known, and blocks are read as the store was told before.
        ensures table { IfOk result (λ commit.
            (state_of commit).kept.last.spans_under.value ≡ contents.spans) }
        ensures spans { IfOk result (λ commit.
            (state_of commit).kept.last.spans.value ≡ known.spans) }
        ensures stale { IfOk result (λ commit.
            (state_of commit).store.spans.stale ≡ store.spans.stale) }
        ensures untouched { IfOk result (λ commit. contents.spans ≡ [] → known.spans ≡ []
            → HaveNoSpans (state_of commit)) }

        // Where the store's disks have the blocks, the root spells a pool, has its space maps and a configuration, and the stamp names that
        // and this one, that pool is committed as the group.
        ensures backs { IfOk result (λ commit. (stored : Contents) (pool : PlainPool)
            → Holds store stored → AreContentsOf stored store.spaces group root pool contents
            → HasMaps store.spaces stored group (Some root) pool
            → IsConfiguredUnder stamp stored group root pool
            → IsStampOf (config_view known.config.value) stamp.claim stamp
            → Backs (state_of commit)
            (opened_as (vdevs_of store.spaces) (is_out store.out)
            (is_stale store.spans.stale) group pool)) }
        ensures refused { IfErr result (λ failed. (failed.0 ≡ Refusal.NoMemory)
            ⊎ ((failed.0 ≡ Refusal.BadPointer) × AreMisplaced store.spaces contents)) }
        ensures back { IfErr result (λ failed. failed.1 ≡ store.disks) }
    {
        found_in_use_are_stored();
        let RootContents {
            directory,
            names,
            blocks,
            maps,
            spans,
        } = contents;
        let mut store = store;
        if !load_maps(&mut store, maps) {
            return Err((Refusal::BadPointer, store.into_array()));
        }
        match store.take_in(&blocks) {
            Ok(()) => {}
            Err(refusal) => return Err((Refusal::from(refusal), store.into_array())),
        }
        let tables = Tables { directory, spans };
        match group_of(alloc, root, tables, names, known) {
            Ok(last) => Ok(Commit::of_group(store, stamp, group, last)),
            Err(_) => Err((Refusal::NoMemory, store.into_array())),
        }
    }
}
