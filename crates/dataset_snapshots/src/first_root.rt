//! The first root of a pool.
ghost use Rattle.std.specs.Prelude.{◌≡◌, ◌⊎◌, ◌++◌, ◌*◌, ◌^◌, ◌<◌, ◌≤◌, ℕ, [], None, All, IfSome, AllPairs, length, fold, IfOk, IfErr, OnOk};
ghost use Rattle.block_pointer.specs.declared.block.Block.{Block};
ghost use Rattle.block_pointer.specs.Block.{FitsBlock};
ghost use Rattle.block_pointer.specs.Copies.{dvas};
ghost use Rattle.block_store.specs.Blocks.{Contents, Extends};
ghost use Rattle.block_store.specs.Places.{filled};
ghost use Rattle.block_store.specs.Plans.{Plans};
ghost use Rattle.block_store.specs.Steps.{OnlyReadsAndPlans, AnswersTell};
ghost use Rattle.objset.specs.Sets.{asked_of_set};
ghost use Rattle.dnode_tree.specs.Writes.{IsForRoom};
ghost use Rattle.meta_objset.specs.Reading.{HasStaleSpans};
ghost use Rattle.objset.specs.Changes.{IsGoodChange, after_change};
ghost use Rattle.pool_model.specs.Pools.{applied, changed, no_volumes};
ghost use Rattle.pool_maps.specs.Reached.{UseNothing};
ghost use Rattle.vdev_label.specs.Config.{FitsConfig, config_bytes};
ghost use Rattle.vdev_label.specs.Plain.{config_view};
ghost use Rattle.volume_rules.specs.Parting.{with_made};
ghost use Rattle.dataset_snapshots.specs.Creating.{HasFirstTables, stale_after};
ghost use Rattle.dataset_groups.specs.Chains.{Reading};
ghost use Rattle.dataset_groups.specs.Groups.{SpellsGroup};
ghost use Rattle.dataset_groups.specs.Names.{reach_by};
ghost use Rattle.dataset_groups.specs.NewVolumes.{AreGoodChanges, numbers_end};
ghost use Rattle.dead_list.specs.Datasets.{Pool};
ghost use Rattle.dataset_snapshots.specs.Demands.{AreMisnumbered};
ghost use Rattle.dataset_snapshots.specs.FirstGroup.{AreFirstActionsRefused, AreFirstVolumes, AreTableChanges, HasFirstPlaces, IsFirstRefused, IsWithTables};
ghost use Rattle.dataset_snapshots.specs.Groups.{IsNextOf};
ghost use Rattle.dataset_groups.specs.Leaving.{AddsData, IsReachExchanged};
ghost use Rattle.dataset_snapshots.specs.Mapped.{HasMapsBehind};
ghost use Rattle.dataset_snapshots.specs.Pools.{SpellsPool};
ghost use Rattle.dataset_snapshots.specs.Reach.{reach_of};

use crate::groups::{MOST_NAMES, Made, NextGroup, are_below, plan_root};
use crate::kept::KeptDirectory;
use block_pointer::Block;
use block_store::{BlockStore, Refusal};
use dataset_groups::GroupDatasets;
use meta_objset::{Directory, EMPTY, StaleSpans, config_creation};
use model_disk::Disk;
use objset::{Change, ObjectChange};
use pool_maps::first_maps;
use pool_model::Action;
use std::alloc::{AllocError, Global};
use txg_pipeline::Pending;
use vdev_label::Config;
use volume_rules::PartedActions;

/// The first root of a pool.
#[derive(Drop)]
pub struct FirstRoot {
    pub root: Block,
    /// The directory under it.
    pub directory: KeptDirectory,
}

/// Plans the first root of a pool, which had no volumes so far, after the transaction group `next`: the actions that
/// `parted` has made are done, and then the tables of the meta object set are made: the directory, the configuration,
/// the stale spans that `next` brings, or none, and the space maps. The writes of `items`, and what `parted` destroys, come
/// to nothing where there are no volumes. `BadConfig` where a volume can't have its name or its sizes, or a snapshot
/// its name; `NoSpace` also where no numbers are left for objects.
///
/// After an error blocks may be planned that no root has: begin another plan.
pub fn first_group<D: Disk + Drop>(
    store: &mut BlockStore<D>,
    alloc: Global,
    config: &Config,
    next: &NextGroup,
    parted: &PartedActions,
    items: &Pending,
) -> Result<FirstRoot, Refusal>
    requires fits { FitsConfig (config_view config.now) }
    requires few { length (config_bytes (config_view config.now)) < 2 ^ 46 }
    requires born { 0 < next.now.number }
    requires few_spans { IfSome next.now.spans (λ spans. length spans < 2 ^ 40) }
    ensures steps { OnlyReadsAndPlans store.old store.new [] }
    ensures fits { IfOk result (λ first. FitsBlock first.root) }
    ensures born { IfOk result (λ first. first.root.birth ≡ next.now.number) }
    ensures property { IfOk result (λ first.
        first.root.property ≡ (asked_of_set next.now.number).property) }
    ensures copies { IfOk result (λ first. length (dvas first.root.copies) ≡ 3) }

    // Where nothing was in use, it spells the pool after the group, once the plan is stored, and has the tables of a new pool. What is
    // planned is what it leads to, and nothing else, and the space maps are those of the plan. The directory is the one that it
    // spells the pool by.
    ensures value { IfOk result (λ first. (stored planned : Contents)
        → Plans store.old stored planned → UseNothing store.old.spaces filled
        → AnswersTell store.old store.new []
        → (later : Contents) × Plans store.new stored later × Extends planned later
        × (is : SpellsPool later next.now.number first.root
        (applied next.now.number no_volumes (with_made items.now parted.now)))
        × HasFirstTables is.objects (config_view config.now) (stale_after next.now.spans [])
        × (is.stale ≡ stale_after next.now.spans [])
        × IsReachExchanged next.now.number planned later [] (reach_of is) []
        × (first.directory ≡ is.rows)
        × HasMapsBehind store.new.spaces [] is) }

    // Over disks whose answers tell, and where all may be made, only room is wanting.
    ensures known { IfErr result (λ refusal. (stored planned : Contents)
        → Plans store.old stored planned → UseNothing store.old.spaces filled
        → AnswersTell store.old store.new [] → AreGoodChanges parted.now.made
        → IsForRoom refusal ⊎ (refusal ≡ Refusal.DiskFault)) }

    // What places are taken for, and on a refusal its cause.
    ensures places { OnOk result
        (HasFirstPlaces store.old store.new next.now.number (config_view config.now)
        (stale_after next.now.spans []) (with_made items.now parted.now)) }
    ensures refused { IfErr result
        (IsFirstRefused store.old store.new next.now.number (config_view config.now)
        (stale_after next.now.spans []) (with_made items.now parted.now)) }
{
    let datasets = first_volumes(store, alloc, next.number, parted.made())?;
    let made = with_tables(datasets, alloc, config, next)?;
    let changes = first_maps(store, alloc, made.changes, made.next)?;
    let mut replaced = Vec::new(alloc);
    let group = next.number;
    let root = plan_root(&EMPTY, store, alloc, &changes, group, group, &mut replaced)?;
    let directory = KeptDirectory::new(alloc, made.directory);
    Ok(FirstRoot { root, directory })
}

/// Does these actions where there are no volumes, in order: makes volumes, whose sets it plans, and takes snapshots of them.
fn first_volumes<D: Disk + Drop>(
    store: &mut BlockStore<D>,
    alloc: Global,
    group: u64,
    actions: &[Action],
) -> Result<GroupDatasets, Refusal>
    requires born { 0 < group }
    ensures steps { OnlyReadsAndPlans store.old store.new [] }
    ensures behind { IfOk result (λ datasets.
        (4 < datasets.next) × (datasets.next ≤ numbers_end)) }
    ensures bounds { IfOk result (λ datasets. datasets.bounds.behind ≤ datasets.next) }
    ensures value { IfOk result (λ datasets. (stored planned : Contents)
        → Plans store.old stored planned → AnswersTell store.old store.new []
        → (later : Contents) × Plans store.new stored later × Extends planned later
        × (pool : Pool) × (readings : ℕ → Reading)
        × SpellsGroup later group (λ number. None) datasets pool readings
        (fold (λ p a. changed group p a.change) no_volumes actions.now)
        × IsReachExchanged group planned later [] (reach_by pool datasets.directory) []
        × AddsData planned later) }
    ensures known { IfErr result (λ refusal. (stored planned : Contents)
        → Plans store.old stored planned → AnswersTell store.old store.new []
        → AreGoodChanges actions.now
        → IsForRoom refusal ⊎ (refusal ≡ Refusal.DiskFault)) }
    ensures places { IfOk result (AreFirstVolumes store.old store.new group actions.now) }
    ensures refused { IfErr result (λ refusal. (refusal ≡ Refusal.NoMemory)
        ⊎ AreFirstActionsRefused store.old store.new group actions.now refusal) }
{
    let mut datasets = GroupDatasets::new(alloc, EMPTY, group, Directory::new(alloc));
    datasets.act_all(store, alloc, group, actions)?;
    Ok(datasets)
}

/// What was made, with the changes that make the tables but for the space maps' in front of those of the volumes' objects; the directory
/// has a row for each volume and each snapshot. `NoMemory`, also where the directory would have 2^40 names; `BadPointer` where one number has both
/// a record and a dead list, and where one that is made is no number below the next.
fn with_tables(
    datasets: GroupDatasets,
    alloc: Global,
    config: &Config,
    group: &NextGroup,
) -> Result<Made, Refusal>
    requires fits { FitsConfig (config_view config.now) }
    requires few { length (config_bytes (config_view config.now)) < 2 ^ 46 }
    requires few_spans { IfSome group.now.spans (λ spans. length spans < 2 ^ 40) }
    requires behind { (4 < datasets.next) × (datasets.next ≤ numbers_end) }
    ensures numbers { IfOk result (λ made. All (λ change. (0 < change.number)
        × (change.number < 32 * 128 ^ 5)) made.changes.items) }
    ensures order { IfOk result (λ made.
        AllPairs (λ change later. change.number < later.number) made.changes.items) }
    ensures good { IfOk result (λ made. All (λ change. IsGoodChange change.change)
        made.changes.items) }
    ensures next { IfOk result (λ made. IsNextOf made.changes.items made.next) }
    ensures next_is { IfOk result (λ made. made.next ≡ datasets.next) }
    ensures tables { IfOk result (λ made.
        IsWithTables (config_view config.now) (stale_after group.now.spans []) datasets
        made.changes.items) }
    ensures directory { IfOk result (λ made. made.directory ≡ datasets.directory) }
    ensures refused { IfErr result (λ refusal. (refusal ≡ Refusal.NoMemory)
        ⊎ ((refusal ≡ Refusal.BadPointer) × AreMisnumbered datasets.changes datasets.next)) }
{
    let GroupDatasets {
        directory,
        changes,
        next,
        ..
    } = datasets;
    let changes = changes.into_changes(alloc)?;
    if !are_below(&changes, next) {
        return Err(Refusal::BadPointer);
    }
    let Ok(tables) = table_changes(&directory, alloc, config, group) else {
        return Err(Refusal::NoMemory);
    };
    let changes = put_behind(alloc, tables, changes)?;
    Ok(Made {
        directory,
        changes,
        next,
    })
}

/// The first changes and then the others.
fn put_behind(
    alloc: Global,
    first: [ObjectChange; 3],
    mut others: Vec<ObjectChange>,
) -> Result<Vec<ObjectChange>, AllocError>
    ensures { IfOk result (λ all. all.items ≡ first ++ others.items) }
{
    let mut all = Vec::from_array(alloc, first)?;
    all.append(&mut others)?;
    Ok(all)
}

/// The changes that make the tables of a pool with this directory, but for that of the space maps. `NoMemory` is the only error,
/// also where it has 2^40 names.
fn table_changes(
    directory: &Directory,
    alloc: Global,
    config: &Config,
    group: &NextGroup,
) -> Result<[ObjectChange; 3], object_table::Refusal>
    requires fits { FitsConfig (config_view config.now) }
    requires few { length (config_bytes (config_view config.now)) < 2 ^ 46 }
    requires few_spans { IfSome group.now.spans (λ spans. length spans < 2 ^ 40) }
    ensures are { IfOk result (AreTableChanges (config_view config.now)
        (stale_after group.now.spans []) directory.now) }
    ensures good { IfOk result (λ changes. All (λ change. IsGoodChange change.change) changes) }
{
    if directory.rows().len() >= MOST_NAMES {
        return Err(object_table::Refusal::NoMemory);
    }
    let directory = directory.creation(alloc)?;
    let config = config_creation(alloc, config)?;
    let spans = spans_creation(alloc, group)?;
    Ok([
        change_of(1, directory),
        change_of(2, config),
        change_of(3, spans),
    ])
}

/// The change that makes the table of the stale spans that the group brings, or of none. `NoMemory` is the only error.
fn spans_creation(alloc: Global, group: &NextGroup) -> Result<Change, object_table::Refusal>
    requires { IfSome group.now.spans (λ spans. length spans < 2 ^ 40) }
    ensures good { IfOk result IsGoodChange }
    ensures made { IfOk result (λ change.
        HasStaleSpans (after_change change None) (stale_after group.now.spans [])) }
{
    match &group.spans {
        Some(spans) => spans.creation(alloc),
        None => StaleSpans::new(alloc).creation(alloc),
    }
}

fn change_of(number: u64, change: Change) -> ObjectChange
    ensures { result ≡ record { number = number; change = change } }
{
    ObjectChange { number, change }
}
