//! Cores of pools that are opened, or made on disks.
ghost use Rattle.std.specs.Prelude.{◌≡◌, ◌⊎◌, ◌<◌, Some, [], IfOk, IfErr};
ghost use Rattle.block_store.specs.Blocks.{Contents, nothing_stored};
ghost use Rattle.block_store.specs.Places.{AreEmpty, shapes_of};
ghost use Rattle.block_store.specs.Plans.{Plans};
ghost use Rattle.block_store.specs.Store.{Holds, is_out, is_stale};
ghost use Rattle.pool_commit.specs.Backs.{HasMaps};
ghost use Rattle.pool_commit.specs.Config.{vdevs_of};
ghost use Rattle.pool_commit.specs.Configs.{FitsTable};
ghost use Rattle.pool_commit.specs.Reopened.{AreContentsOf, AreMisplaced, IsConfiguredUnder};
ghost use Rattle.pool_commit.specs.Slots.{IsStampOf, LabelsLieAside};
ghost use Rattle.pool_commit.specs.Spans.{HaveNoSpans};
ghost use Rattle.pool_model.specs.Pools.{PlainPool, no_volumes};
ghost use Rattle.pool_model.specs.Refusals.{greatest};
ghost use Rattle.pool_model.specs.View.{opened_as};
ghost use Rattle.uberblock_ring.specs.Uberblock.{IsNumber};
ghost use Rattle.vdev_label.specs.Plain.{config_view};
ghost use Rattle.volume_rules.specs.NowMoves.{IsMadeBy};

use crate::pool::Core;
use block_pointer::Block;
use block_store::BlockStore;
use model_disk::{Disk, DiskArray};
use pool_commit::{Commit, KnownDisks, RootContents, Stamp};
use pool_intake::Intake;
use pool_model::Refusal;
use std::alloc::Global;
use std::sync::Arc;
use vdev_label::Config;
use volume_rules::NameIndex;

impl<D: Disk + Drop> Core<D> {
    ghost use Rattle.pool_core.specs.Represents.{Represents};
    ghost use Rattle.pool_core.specs.State.{config_of};
    ghost use Rattle.pool_core.specs.StateOf.{disks_in, state_of};

    /// A pool of this configuration with no volumes, over a store that holds nothing, committed as that group, of which nothing is on the
    /// disks: the next group writes the first root, with the configuration. The uberblocks of later groups get this stamp. With no memory
    /// for it the store's disks come back.
    pub fn empty(
        alloc: Global,
        store: BlockStore<D>,
        stamp: Stamp,
        group: u64,
        config: Arc<Config, Global>,
    ) -> Result<Self, DiskArray<D>>
        requires plans { Plans store nothing_stored nothing_stored }
        requires empty { AreEmpty store.spaces }
        requires labels { LabelsLieAside store.disks.starts store.spaces }
        requires claim { IsNumber stamp.claim }
        requires below { group < greatest }
        requires table { FitsTable (config_view config.value) }
        requires stamped { IsStampOf (config_view config.value) stamp.claim stamp }
        ensures disks { IfOk result (λ core. disks_in core ≡ store.disks) }
        ensures stamp { IfOk result (λ core. (state_of core).commit.stamp ≡ stamp) }
        ensures config { IfOk result (λ core. config_of (state_of core) ≡ config.value) }
        ensures represents { IfOk result (λ core. Represents (state_of core)
            (opened_as (vdevs_of store.spaces) (is_out store.out)
            (is_stale store.spans.stale) group no_volumes)) }
        ensures spans { IfOk result (λ core. HaveNoSpans (state_of core).commit) }
        ensures back { IfErr result (λ disks. disks ≡ store.disks) }
    {
        let commit = Commit::empty(alloc, store, stamp, group, config)?;
        Ok(Core {
            alloc,
            intake: Intake::opened(alloc, group, NameIndex::new(alloc)),
            commit,
        })
    }

    /// A pool that was committed before as that group, with these disks, over a store that was opened and stores no block yet. The
    /// root is that of the group, and the contents are what was read of it. No disk is called. Nobody has a hold, each writer begins with number 1, and
    /// no group before it is kept. The uberblocks of later groups get this stamp. `BadPointer` where a space map is of no metaslab of the
    /// pool, a block of the meta object set lies in no place of it, or two copies share a sector. After an error the store's disks come
    /// back.
    pub fn opened(
        alloc: Global,
        store: BlockStore<D>,
        stamp: Stamp,
        group: u64,
        root: Block,
        contents: RootContents,
        known: KnownDisks,
    ) -> Result<Self, (Refusal, DiskArray<D>)>
        requires plans { Plans store nothing_stored nothing_stored }
        requires empty { AreEmpty store.spaces }
        requires labels { LabelsLieAside store.disks.starts store.spaces }
        requires claim { IsNumber stamp.claim }
        requires below { group < greatest }
        ensures disks { IfOk result (λ core. disks_in core ≡ store.disks) }
        ensures stamp { IfOk result (λ core. (state_of core).commit.stamp ≡ stamp) }
        ensures root { IfOk result (λ core. (state_of core).commit.kept.last.root ≡ Some root) }
        ensures config { IfOk result (λ core. config_of (state_of core) ≡ known.config.value) }
        ensures table { IfOk result (λ core.
            (state_of core).commit.kept.last.spans_under.value ≡ contents.spans) }
        ensures spans { IfOk result (λ core.
            (state_of core).commit.kept.last.spans.value ≡ known.spans) }
        ensures stale { IfOk result (λ core.
            (state_of core).commit.store.spans.stale ≡ store.spans.stale) }
        ensures untouched { IfOk result (λ core. contents.spans ≡ [] → known.spans ≡ []
            → HaveNoSpans (state_of core).commit) }
        ensures out { IfOk result (λ core. (state_of core).commit.store.out ≡ store.out) }
        ensures shapes { IfOk result (λ core.
            shapes_of (state_of core).commit.store.spaces ≡ shapes_of store.spaces) }

        // Where the store's disks have the blocks, the root spells a pool whose volumes were made by then and has its space maps and a
        // configuration, and the stamp names that and this one, the core is sound, and represents that pool, committed as the group.
        ensures represents { IfOk result (λ core. (stored : Contents) (pool : PlainPool)
            → Holds store stored → AreContentsOf stored store.spaces group root pool contents
            → HasMaps store.spaces stored group (Some root) pool → IsMadeBy group pool
            → IsConfiguredUnder stamp stored group root pool
            → IsStampOf (config_view known.config.value) stamp.claim stamp
            → Represents (state_of core)
            (opened_as (vdevs_of store.spaces) (is_out store.out)
            (is_stale store.spans.stale) group pool)) }
        ensures refused { IfErr result (λ failed. (failed.0 ≡ Refusal.NoMemory)
            ⊎ ((failed.0 ≡ Refusal.BadPointer) × AreMisplaced store.spaces contents)) }
        ensures back { IfErr result (λ failed. failed.1 ≡ store.disks) }
    {
        let Ok(names) = contents.names.copied() else {
            return Err((Refusal::NoMemory, store.into_array()));
        };
        match Commit::opened(alloc, store, stamp, group, root, contents, known) {
            Ok(commit) => Ok(Core {
                alloc,
                intake: Intake::opened(alloc, group, names),
                commit,
            }),
            Err((refusal, disks)) => Err((Refusal::from(refusal), disks)),
        }
    }
}
