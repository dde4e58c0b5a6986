//! The root of a pool after a group.
ghost use Rattle.std.specs.Prelude.{IsTrue, ◌↔◌, ◌≡◌, ◌⊎◌, ◌≤◌, ◌<◌, ◌-◌, ◌*◌, ◌^◌, ◌++◌, ℕ, List, [], Option, Some, All, AllPairs, IfOk, IfErr, IfSome, OnOk, ◌∷◌, length};
ghost use Rattle.block_pointer.specs.Block.{FitsBlock};
ghost use Rattle.block_pointer.specs.Copies.{dvas};
ghost use Rattle.block_pointer.specs.declared.block.Block.{Block};
ghost use Rattle.block_store.specs.Blocks.{Contents, Extends};
ghost use Rattle.block_store.specs.Losses.{IsForLoss};
ghost use Rattle.block_store.specs.Places.{filled};
ghost use Rattle.block_store.specs.Plans.{Plans};
ghost use Rattle.block_store.specs.Steps.{OnlyReadsAndPlans, OnlyReadsBlocks, AnswersTell, HasNoRoomFor};
ghost use Rattle.block_store.specs.Store.{Holds};
ghost use Rattle.dnode.specs.ObjectSet.{FitsObjectSet};
ghost use Rattle.dnode.specs.declared.object_set.ObjectSetKind.TheVariants as sets;
ghost use Rattle.objset.specs.Sets.{asked_of_set};
ghost use Rattle.dnode_tree.specs.Writes.{IsForRoom};
ghost use Rattle.meta_objset.specs.Reading.{HasDirectory, HasStaleSpans, directory_kind};
ghost use Rattle.meta_objset.specs.StaleSpans.{spans_kind};
ghost use Rattle.object_table.specs.Tables.{IsOfKind};
ghost use Rattle.objset.specs.Changes.{HasNoRoom, IsGoodChange, MayChange, after_change, changed};
ghost use Rattle.objset.specs.Objects.{Object, AreObjects};
ghost use Rattle.objset.specs.Within.{blocks_of_set};
ghost use Rattle.pool_maps.specs.Maps.{AreMapsOf};
ghost use Rattle.pool_maps.specs.Plans.{AreOrdered, MapAnew};
ghost use Rattle.pool_model.specs.declared.item.Write.{Write};
ghost use Rattle.pool_model.specs.Pools.{MayBeDestroyed, PlainPool, all_destroyed, applied, written};
ghost use Rattle.volume_rules.specs.Parting.{with_made};
ghost use Rattle.dataset_groups.specs.States.{IsNumber};
ghost use Rattle.dataset_snapshots.specs.Creating.{LeavesTables};
ghost use Rattle.dataset_snapshots.specs.Demands.{AreMappedRefused, AreSpanChanges, HasDatasetChanges, AreMisnumbered, AreVolumesRefused, HasGroupPlaces, HasMappedPlaces, HasRootPlaces, HasVolumePlaces, IsGroupRefused, IsRootRefused};
ghost use Rattle.dataset_groups.specs.Destroys.{HasAtMost};
ghost use Rattle.dataset_groups.specs.Names.{reach_by};
ghost use Rattle.dataset_groups.specs.NewVolumes.{AreGoodChanges, numbers_end};
ghost use Rattle.dataset_snapshots.specs.Finding.{IsMetaRefused};
ghost use Rattle.dataset_snapshots.specs.Groups.{AreOfDatasets, IsBegun, IsBegunFrom, IsNextOf, IsOpened, IsOpenedFrom, IsSetOf, SpellsAfter};
ghost use Rattle.dataset_snapshots.specs.Groups.{AreNumbersBehind, HasRoomFor};
ghost use Rattle.dataset_groups.specs.Groups.{next_behind};
ghost use Rattle.dataset_groups.specs.Leaving.{AddsData, AddsMeta, IsReachExchanged};
ghost use Rattle.dataset_snapshots.specs.Mapped.{HasMapsBehind, HasMapsBy, StandsOnce};
ghost use Rattle.dataset_snapshots.specs.Opening.{IsBegunFound, IsGroupFound, IsGroupUnread, IsVolumeUnread, most_blocks};
ghost use Rattle.dataset_snapshots.specs.Pools.{SpellsPool};
ghost use Rattle.dataset_snapshots.specs.Reach.{reach_of, volume_blocks_of};
ghost use Rattle.objset.specs.Changes.{copies_of};

use crate::finding::read_meta;
use crate::kept::KeptDirectory;
use crate::numbering::reuse_numbers;
use crate::writing::{read_written, written_objects};
use block_pointer::Block;
use block_store::{BlockStore, Refusal};
use dataset_groups::{GroupDatasets, WrittenHead};
use dnode::ObjectSet;
use meta_objset::{Directory, StaleSpans};
use model_disk::Disk;
use objset::{ObjectChange, plan_set};
use pool_maps::plan_maps;
use pool_model::{Action, Name};
use std::alloc::{AllocError, Global};
use txg_pipeline::Pending;
use volume_rules::PartedActions;

/// The group that a root is planned for.
#[derive(Drop)]
pub struct NextGroup {
    pub number: u64,
    /// The pool's stale spans under this root, where they are others than those under the root before.
    pub spans: Option<StaleSpans>,
}

/// The root of a pool after a group.
#[derive(Drop)]
pub struct NextRoot {
    pub root: Block,
    /// The blocks that the root before led to and this one doesn't.
    pub replaced: Vec<Block>,
    /// The directory under this root.
    pub directory: KeptDirectory,
}

/// What a group is planned from: the meta object set, its datasets under the names of its directory, without those that the group destroys, and
/// the volumes that the group writes to.
#[derive(Drop)]
pub(crate) struct Opened {
    pub set: ObjectSet,
    pub datasets: GroupDatasets,
    pub written: Vec<WrittenHead>,
    /// The blocks of what the group destroys that nothing reaches any more.
    pub freed: Vec<Block>,
    /// Whether a name went.
    pub renamed: bool,
}

/// What a group finds before anything is destroyed.
#[derive(Drop)]
pub(crate) struct Begun {
    pub set: ObjectSet,
    pub datasets: GroupDatasets,
    pub written: Vec<WrittenHead>,
}

/// What a group made of the meta object set.
#[derive(Drop)]
pub(crate) struct Made {
    /// The directory after the group.
    pub directory: Directory,
    /// The changes of all objects, in the order of their numbers; those of the directory and of the stale spans are among them where
    /// these changed.
    pub changes: Vec<ObjectChange>,
    /// The number of the next object that is made.
    pub next: u64,
}

/// The number of the directory's object.
const DIRECTORY: u64 = 1;

/// The number of the stale spans' object.
const STALE_SPANS: u64 = 3;

/// A directory of so many names has 2^46 bytes.
pub(crate) const MOST_NAMES: usize = 1 << 40;

/// Plans the root of a pool after the transaction group `next`. First the volumes and snapshots go that `parted`
/// destroys, in order; then the writes of `items` are done, and then the actions that `parted` keeps: they make
/// volumes and clones, and take snapshots of what volumes are by then. The actions of `items` are not looked at. The
/// stale spans that `next` brings come in the place of those before, of which none is kept.
///
/// `root` is the root of the group before, and `directory` the one under it, which is kept in memory: none of its
/// blocks is read. Each block that a write reaches is read, and then each of them is planned anew: so where one can't
/// be read that is the answer, whether or not there is room. Of a volume without writes nothing is read but, where a
/// snapshot is taken of it, its record and that of the snapshot before. Of a volume that is destroyed those blocks
/// are read that were born after the snapshot before it, of a snapshot two dead lists. What is made takes numbers of
/// objects that are gone, where as many in a row are free: the dnode of each of these numbers is read. All changes of
/// the meta object set are planned at once; its own block is new in each group.
///
/// `BadConfig` where a volume can't have its name or its sizes, or a snapshot its name; `BadPointer` where a volume
/// that is to be destroyed has snapshots, or a snapshot clones. After an error blocks may be planned that no root
/// has: begin another plan.
pub fn after_group<D: Disk + Drop>(
    root: &Block,
    store: &mut BlockStore<D>,
    alloc: Global,
    next: &NextGroup,
    directory: &KeptDirectory,
    parted: &PartedActions,
    items: &Pending,
) -> Result<NextRoot, Refusal>
    requires born { 0 < next.now.number }
    requires few { IfSome next.now.spans (λ spans. length spans < 2 ^ 40) }
    ensures steps { OnlyReadsAndPlans store.old store.new [] }
    ensures fits { IfOk result (λ after. FitsBlock after.root) }
    ensures born { IfOk result (λ after. after.root.birth ≡ next.now.number) }
    ensures property { IfOk result (λ after.
        after.root.property ≡ (asked_of_set next.now.number).property) }
    ensures copies { IfOk result (λ after. length (dvas after.root.copies) ≡ 3) }

    // Where the directory is the root's, and the space maps are those of what is stored, it spells the pool after the group, once
    // the plan is stored, with the stale spans that the group brings, and has the other tables that there were. The blocks that gave
    // way are those that the root before leads to and this one doesn't; what is planned is what it leads to besides. Once they are
    // given back the space maps are those of the plan. The directory then is the one that it spells the pool by.
    ensures value { IfOk result (λ after. (stored planned : Contents) (pool : PlainPool)
        → Plans store.old stored planned
        → (is : SpellsPool stored (next.now.number - 1) root.now pool)
        → directory.now ≡ is.rows → HasMapsBy store.old.spaces filled is
        → MayBeDestroyed parted.now.destroyed pool → AnswersTell store.old store.new []
        → (later : Contents) × Plans store.new stored later × Extends planned later
        × (then : SpellsPool later next.now.number after.root
        (applied next.now.number (all_destroyed parted.now.destroyed pool)
        (with_made items.now parted.now)))
        × LeavesTables next.now.spans is then
        × IsReachExchanged next.now.number planned later (reach_of is) (reach_of then)
        after.replaced.items
        × (after.directory ≡ then.rows)
        × HasMapsBehind store.new.spaces after.replaced.items then) }

    // Over disks whose answers tell, and where all may be made, only room is wanting, or disks.
    ensures known { IfErr result (λ refusal. (stored planned : Contents) (pool : PlainPool)
        → Plans store.old stored planned
        → (is : SpellsPool stored (next.now.number - 1) root.now pool)
        → directory.now ≡ is.rows → HasMapsBy store.old.spaces filled is
        → StandsOnce store.old.spaces is → AnswersTell store.old store.new []
        → MayBeDestroyed parted.now.destroyed pool → AreGoodChanges parted.now.made
        → IsForRoom refusal ⊎ (refusal ≡ Refusal.DiskFault)) }

    // Whatever the root and the directory are: what places are taken for and what is given back, and
    // on a refusal its cause.
    ensures places { IfOk result (λ after. HasGroupPlaces store.old store.new root.now directory.now
        next.now.number next.now.spans parted.now.destroyed (with_made items.now parted.now)
        after.replaced.items) }
    ensures refused { IfErr result (IsGroupRefused store.old store.new root.now directory.now
        next.now.number next.now.spans parted.now.destroyed (with_made items.now parted.now)) }
{
    // There are few vdevs, and so no volume has too many blocks.
    let _vdevs = store.vdev_count();
    let opened = open_group(root, store, alloc, next.number, directory, parted, items)?;
    let set = opened.set;
    let born = root.birth;
    let mut gone = Vec::new(alloc);
    let made = mapped_changes(opened, store, alloc, born, next, parted.made(), &mut gone)?;
    let mut replaced = only(root, alloc)?;
    replaced.extend_from_slice(&gone)?;
    let changes = &made.changes;
    let root = plan_root(
        &set,
        store,
        alloc,
        changes,
        born,
        next.number,
        &mut replaced,
    )?;
    let directory = directory.after(alloc, made.directory, &made.changes)?;
    Ok(NextRoot {
        root,
        replaced,
        directory,
    })
}

/// A list with one block.
fn only(block: &Block, alloc: Global) -> Result<Vec<Block>, AllocError>
    ensures { IfOk result (λ blocks. blocks.items ≡ block.now ∷ []) }
{
    let mut blocks = Vec::new(alloc);
    blocks.push(*block)?;
    Ok(blocks)
}

/// Reads what the group is planned from, by the directory under the root that is kept, and destroys the datasets that `parted` does. New
/// datasets take numbers again that are free, where as many are in a row as are made.
fn open_group<D: Disk + Drop>(
    root: &Block,
    store: &mut BlockStore<D>,
    alloc: Global,
    group: u64,
    kept: &KeptDirectory,
    parted: &PartedActions,
    items: &Pending,
) -> Result<Opened, Refusal>
    requires born { 0 < group }
    ensures reads { OnlyReadsBlocks store.old store.new [] }
    ensures opened { IfOk result (IsOpened items.now.writes) }
    ensures kind { IfOk result (λ opened. opened.set.kind ≡ sets.Meta) }
    ensures early { IfOk result (λ opened. root.now.birth < group) }
    ensures value { IfOk result (λ opened. (stored : Contents) (pool : PlainPool)
        → Holds store.old stored → (is : SpellsPool stored (group - 1) root.now pool)
        → kept.now ≡ is.rows → MayBeDestroyed parted.now.destroyed pool
        → AnswersTell store.old store.new []
        → IsOpenedFrom stored group (group - 1) root.now pool is parted.now.destroyed
        items.now.writes opened) }
    ensures known { IfErr result (λ refusal. (stored : Contents) (pool : PlainPool)
        → Holds store.old stored → (is : SpellsPool stored (group - 1) root.now pool)
        → kept.now ≡ is.rows → MayBeDestroyed parted.now.destroyed pool
        → HasAtMost is.datasets most_blocks → AnswersTell store.old store.new []
        → IsForLoss refusal) }
    ensures found { IfOk result (IsGroupFound store.old.spaces (group - 1) root.now kept.now
        parted.now.destroyed items.now.writes) }
    ensures room { IfOk result (λ opened.
        HasRoomFor opened.datasets (length parted.now.made)) }
    ensures refused { IfErr result (λ refusal. (refusal ≡ Refusal.NoMemory)
        ⊎ IsGroupUnread store.old store.new root.now kept.now group
        parted.now.destroyed items.now.writes refusal) }
{
    let destroyed = parted.destroyed();
    let begun = begin_group(root, store, alloc, group - 1, kept, destroyed, items)?;
    let Begun {
        set,
        mut datasets,
        written,
    } = begun;
    let made = parted.made().len();
    reuse_numbers(&mut datasets, &set, store, alloc, root.birth, kept, made);
    let mut freed = Vec::new(alloc);
    let renamed = datasets.destroy_all(store, alloc, group, u64::MAX, destroyed, &mut freed)?;
    Ok(Opened {
        set,
        datasets,
        written,
        freed,
        renamed,
    })
}

/// Reads what the group is planned from, before anything is destroyed: also the volumes that are written to, but for those that are to be
/// destroyed. The root was born in the transaction group `birth` or before.
fn begin_group<D: Disk + Drop>(
    root: &Block,
    store: &mut BlockStore<D>,
    alloc: Global,
    birth: u64,
    kept: &KeptDirectory,
    destroyed: &[Name],
    items: &Pending,
) -> Result<Begun, Refusal>
    ensures reads { OnlyReadsBlocks store.old store.new [] }
    ensures begun { IfOk result IsBegun }
    ensures kind { IfOk result (λ begun. begun.set.kind ≡ sets.Meta) }
    ensures early { IfOk result (λ begun. root.now.birth ≤ birth) }
    ensures numbers { IfOk result (λ begun. AreNumbersBehind begun.set begun.datasets) }
    ensures value { IfOk result (λ begun. (stored : Contents) (pool : PlainPool)
        → Holds store.old stored → (is : SpellsPool stored birth root.now pool)
        → kept.now ≡ is.rows → AnswersTell store.old store.new []
        → IsBegunFrom stored birth root.now pool is destroyed.now items.now.writes begun) }
    ensures known { IfErr result (λ refusal. (stored : Contents) (pool : PlainPool)
        → Holds store.old stored → (is : SpellsPool stored birth root.now pool)
        → kept.now ≡ is.rows → AnswersTell store.old store.new [] → IsForLoss refusal) }
    ensures found { IfOk result (IsBegunFound store.old.spaces birth root.now kept.now
        destroyed.now items.now.writes) }
    ensures refused { IfErr result (λ refusal. (refusal ≡ Refusal.NoMemory)
        ⊎ (IsMetaRefused store.old store.new [] birth root.now refusal
        ⊎ IsVolumeUnread store.old store.new birth root.now kept.now destroyed.now
        items.now.writes refusal)) }
{
    let directory = kept.copied()?;
    let set = read_meta(root, store, alloc, birth, &[])?;
    let objects = written_objects(&directory, alloc, items.writes(), destroyed)?;
    let mut datasets = GroupDatasets::new(alloc, set, root.birth, directory);
    let written = read_written(&mut datasets, store, alloc, root.birth, &objects, items)?;
    Ok(Begun {
        set,
        datasets,
        written,
    })
}

/// Plans the volumes after the group and the space maps: the directory then, and the changes of the meta object set, whose root was
/// born in the group `born`. The volumes' blocks that gave way to others are in `gone` then, which was empty.
fn mapped_changes<D: Disk + Drop>(
    opened: Opened,
    store: &mut BlockStore<D>,
    alloc: Global,
    born: u64,
    group: &NextGroup,
    actions: &[Action],
    gone: &mut Vec<Block>,
) -> Result<Made, Refusal>
    requires born { 0 < group.now.number }
    requires few { IfSome group.now.spans (λ spans. length spans < 2 ^ 40) }
    requires opened { (writes : List Write) × IsOpened writes opened }
    requires none { gone.old.items ≡ [] }
    ensures steps { OnlyReadsAndPlans store.old store.new [] }
    ensures ordered { IfOk result (λ made. AreOrdered made.changes.items) }
    ensures value { IfOk result (λ made. (stored planned : Contents) (birth : ℕ)
        (root : Block) (pool : PlainPool) (writes : List Write)
        → Plans store.old stored planned → (is : SpellsPool stored birth root pool)
        → (destroyed : List (List ℕ)) → root.birth ≡ born → born < group.now.number
        → IsOpened writes opened
        → IsOpenedFrom stored group.now.number birth root pool is destroyed writes opened
        → AreMapsOf is.objects store.old.spaces filled → AnswersTell store.old store.new []
        → (later : Contents) × Plans store.new stored later × Extends planned later
        × (then : SpellsAfter later group.now.number is.objects made.changes.items
        group.now.spans (applied group.now.number (all_destroyed destroyed pool)
        (record { writes = writes; actions = actions.now })))
        × IsReachExchanged group.now.number planned later
        (volume_blocks_of is) (reach_by then.datasets then.rows) gone.new.items
        × (then.rows ≡ made.directory) × AddsData planned later
        × MapAnew is.objects store.new.spaces gone.new.items made.changes.items) }
    ensures known { IfErr result (λ refusal. (stored planned : Contents) (birth : ℕ)
        (root : Block) (pool : PlainPool) (writes : List Write)
        → Plans store.old stored planned → (is : SpellsPool stored birth root pool)
        → (destroyed : List (List ℕ)) → root.birth ≡ born → born < group.now.number
        → IsOpened writes opened
        → IsOpenedFrom stored group.now.number birth root pool is destroyed writes opened
        → AreMapsOf is.objects store.old.spaces filled → StandsOnce store.old.spaces is
        → AnswersTell store.old store.new [] → AreGoodChanges actions.now
        → IsForRoom refusal ⊎ (refusal ≡ Refusal.DiskFault)) }
    ensures places { IfOk result (λ made. HasMappedPlaces store.old store.new born
        group.now.number group.now.spans opened actions.now gone.new.items made.changes.items) }
    ensures refused { IfErr result (AreMappedRefused store.old store.new born group.now.number
        group.now.spans opened actions.now) }
{
    let set = opened.set;
    let made = changes_of(opened, store, alloc, group, actions, gone)?;
    let Made {
        directory,
        changes,
        next,
    } = made;
    store.are_sized();
    let changes = plan_maps(&set, store, alloc, born, gone, changes, next)?;
    Ok(Made {
        directory,
        changes,
        next,
    })
}

/// Plans the volumes after the group: the directory then, and the changes of the meta object set. The volumes' blocks that gave way
/// to others come behind those in `replaced`.
fn changes_of<D: Disk + Drop>(
    opened: Opened,
    store: &mut BlockStore<D>,
    alloc: Global,
    group: &NextGroup,
    actions: &[Action],
    replaced: &mut Vec<Block>,
) -> Result<Made, Refusal>
    requires born { 0 < group.now.number }
    requires few { IfSome group.now.spans (λ spans. length spans < 2 ^ 40) }
    requires opened { (writes : List Write) × IsOpened writes opened }
    ensures steps { OnlyReadsAndPlans store.old store.new [] }
    ensures numbers { IfOk result (λ made. All (λ change. (0 < change.number)
        × (change.number < 32 * 128 ^ 5)) made.changes.items) }
    ensures order { IfOk result (λ made.
        AllPairs (λ change later. change.number < later.number) made.changes.items) }
    ensures good { IfOk result (λ made. All (λ change. IsGoodChange change.change)
        made.changes.items) }
    ensures next { IfOk result (λ made. IsNextOf made.changes.items made.next) }
    ensures value { IfOk result (λ made. (stored planned : Contents) (birth : ℕ)
        (root : Block) (pool : PlainPool) (writes : List Write)
        → Plans store.old stored planned → (is : SpellsPool stored birth root pool)
        → (destroyed : List (List ℕ)) → root.birth < group.now.number → IsOpened writes opened
        → IsOpenedFrom stored group.now.number birth root pool is destroyed writes opened
        → AnswersTell store.old store.new []
        → (later : Contents) × Plans store.new stored later × Extends planned later
        × (then : SpellsAfter later group.now.number is.objects made.changes.items
        group.now.spans (applied group.now.number (all_destroyed destroyed pool)
        (record { writes = writes; actions = actions.now })))
        × (gone : List Block) × (replaced.new.items ≡ replaced.old.items ++ gone)
        × IsReachExchanged group.now.number planned later
        (volume_blocks_of is) (reach_by then.datasets then.rows) gone
        × (then.rows ≡ made.directory) × AddsData planned later
        × AreOfDatasets is.objects made.changes.items) }
    ensures known { IfErr result (λ refusal. (stored planned : Contents) (birth : ℕ)
        (root : Block) (pool : PlainPool) (writes : List Write)
        → Plans store.old stored planned → (is : SpellsPool stored birth root pool)
        → (destroyed : List (List ℕ)) → root.birth < group.now.number → IsOpened writes opened
        → IsOpenedFrom stored group.now.number birth root pool is destroyed writes opened
        → AnswersTell store.old store.new [] → AreGoodChanges actions.now
        → IsForRoom refusal ⊎ (refusal ≡ Refusal.DiskFault)) }
    ensures places { IfOk result (λ made.
        HasVolumePlaces store.old store.new group.now.number group.now.spans opened actions.now
        made.changes.items made.next) }
    ensures refused { IfErr result
        (AreVolumesRefused store.old store.new group.now.number opened actions.now) }
{
    let Opened {
        mut datasets,
        written,
        mut freed,
        renamed,
        ..
    } = opened;
    replaced.append(&mut freed)?;
    let first = datasets.next;
    datasets.write_all(store, alloc, group.number, written, replaced)?;
    datasets.act_all(store, alloc, group.number, actions)?;
    let renamed = renamed || datasets.next != first;
    with_directory(datasets, alloc, renamed, group)
}

/// What became of the datasets: the changes of the objects of their records and dead lists, with the change of the stale spans in front where the
/// group brings others, and that of the directory where names came or went. `NoMemory`, also where the directory would have 2^40 names;
/// `BadPointer` where one number has both a record and a dead list, and where one that is changed is behind all objects.
fn with_directory(
    datasets: GroupDatasets,
    alloc: Global,
    renamed: bool,
    group: &NextGroup,
) -> Result<Made, Refusal>
    requires few { IfSome group.now.spans (λ spans. length spans < 2 ^ 40) }
    requires behind { 4 < datasets.next }
    requires within { next_behind datasets ≤ numbers_end }
    ensures numbers { IfOk result (λ made. All (λ change. (0 < change.number)
        × (change.number < 32 * 128 ^ 5)) made.changes.items) }
    ensures order { IfOk result (λ made.
        AllPairs (λ change later. change.number < later.number) made.changes.items) }
    ensures good { IfOk result (λ made. All (λ change. IsGoodChange change.change)
        made.changes.items) }
    ensures next { IfOk result (λ made. IsNextOf made.changes.items made.next) }
    ensures next_is { IfOk result (λ made. made.next ≡ next_behind datasets) }
    ensures directory { IfOk result (λ made. made.directory ≡ datasets.directory) }
    ensures changes { IfOk result (λ made.
        HasDatasetChanges datasets renamed group.now.spans made.changes.items) }
    ensures refused { IfErr result (λ refusal. (refusal ≡ Refusal.NoMemory)
        ⊎ ((refusal ≡ Refusal.BadPointer)
        × AreMisnumbered datasets.changes (next_behind datasets))) }
{
    let next = datasets.next.max(datasets.bounds.behind);
    let GroupDatasets {
        directory,
        changes,
        ..
    } = datasets;
    let mut changes = changes.into_changes(alloc)?;
    if !are_below(&changes, next) {
        return Err(Refusal::BadPointer);
    }
    put_spans(&mut changes, alloc, group)?;
    if renamed {
        let change = directory_change(&directory, alloc)?;
        put_first(&mut changes, change)?;
    }
    Ok(Made {
        directory,
        changes,
        next,
    })
}

/// Whether all changes are of objects below a number.
pub(crate) fn are_below(changes: &[ObjectChange], next: u64) -> bool
    ensures { IsTrue result ↔ All (λ change. change.number < next) changes.now }
{
    changes.iter().all(|change| change.number < next)
}

/// Puts the change that writes the stale spans anew in front of those of datasets, where the group brings others. `NoMemory` is its only error.
fn put_spans(
    changes: &mut Vec<ObjectChange>,
    alloc: Global,
    group: &NextGroup,
) -> Result<(), Refusal>
    requires few { IfSome group.now.spans (λ spans. length spans < 2 ^ 40) }
    requires numbers { All (λ change. IsNumber change.number) changes.old.items }
    requires order { AllPairs (λ change later. change.number < later.number) changes.old.items }
    requires good { All (λ change. IsGoodChange change.change) changes.old.items }
    ensures spans { OnOk result ((of_spans : List ObjectChange)
        × AreSpanChanges group.now.spans of_spans
        × (changes.new.items ≡ of_spans ++ changes.old.items)) }
    ensures numbers { OnOk result (All (λ change. (1 < change.number)
        × (change.number < 32 * 128 ^ 5)) changes.new.items) }
    ensures below { OnOk result ((next : ℕ) → 4 < next
        → All (λ change. change.number < next) changes.old.items
        → All (λ change. change.number < next) changes.new.items) }
    ensures order { OnOk result
        (AllPairs (λ change later. change.number < later.number) changes.new.items) }
    ensures good { OnOk result (All (λ change. IsGoodChange change.change) changes.new.items) }
    ensures refused { IfErr result (λ refusal. refusal ≡ Refusal.NoMemory) }
{
    let Some(spans) = &group.spans else {
        return Ok(());
    };
    let change = spans_change(spans, alloc)?;
    put_first(changes, change)?;
    Ok(())
}

/// Puts a change in front of others.
fn put_first(changes: &mut Vec<ObjectChange>, change: ObjectChange) -> Result<(), AllocError>
    ensures { OnOk result (changes.new.items ≡ change ∷ changes.old.items) }
{
    changes.insert(0, change)?;
    Ok(())
}

/// The change that writes the directory anew.
fn directory_change(directory: &Directory, alloc: Global) -> Result<ObjectChange, Refusal>
    ensures number { IfOk result (λ change. change.number ≡ 1) }
    ensures good { IfOk result (λ change. IsGoodChange change.change) }
    ensures may { IfOk result (λ change. (object : Object) → IsOfKind directory_kind object
        → MayChange change.change (Some object)) }
    ensures made { IfOk result (λ change. (object : Object) → IsOfKind directory_kind object
        → HasDirectory (after_change change.change (Some object)) directory.now) }
    ensures refused { IfErr result (λ refusal. refusal ≡ Refusal.NoMemory) }
{
    if directory.rows().len() >= MOST_NAMES {
        return Err(Refusal::NoMemory);
    }
    match directory.replacement(alloc) {
        Ok(change) => Ok(ObjectChange {
            number: DIRECTORY,
            change,
        }),
        Err(_) => Err(Refusal::NoMemory),
    }
}

/// The change that writes the stale spans anew.
fn spans_change(spans: &StaleSpans, alloc: Global) -> Result<ObjectChange, Refusal>
    requires { length spans.now < 2 ^ 40 }
    ensures number { IfOk result (λ change. change.number ≡ 3) }
    ensures good { IfOk result (λ change. IsGoodChange change.change) }
    ensures may { IfOk result (λ change. (object : Object) → IsOfKind spans_kind object
        → MayChange change.change (Some object)) }
    ensures made { IfOk result (λ change. (object : Object) → IsOfKind spans_kind object
        → HasStaleSpans (after_change change.change (Some object)) spans.now) }
    ensures refused { IfErr result (λ refusal. refusal ≡ Refusal.NoMemory) }
{
    match spans.replacement(alloc) {
        Ok(change) => Ok(ObjectChange {
            number: STALE_SPANS,
            change,
        }),
        Err(_) => Err(Refusal::NoMemory),
    }
}

/// Plans a meta object set with these changes, and its block, in the transaction group `group`. All blocks have three copies. The
/// set's block was born in the group `before`. The set's blocks that gave way to others come behind those in `replaced`.
pub(crate) fn plan_root<D: Disk + Drop>(
    set: &ObjectSet,
    store: &mut BlockStore<D>,
    alloc: Global,
    changes: &[ObjectChange],
    before: u64,
    group: u64,
    replaced: &mut Vec<Block>,
) -> Result<Block, Refusal>
    requires set { FitsObjectSet set.now }
    requires kind { set.now.kind ≡ sets.Meta }
    requires numbers { All (λ change. (0 < change.number) × (change.number < 32 * 128 ^ 5))
        changes.now }
    requires order { AllPairs (λ change later. change.number < later.number) changes.now }
    requires good { All (λ change. IsGoodChange change.change) changes.now }
    requires born { 0 < group }
    ensures steps { OnlyReadsAndPlans store.old store.new [] }
    ensures fits { IfOk result FitsBlock }
    ensures born { IfOk result (λ root. root.birth ≡ group) }
    ensures property { IfOk result (λ root. root.property ≡ (asked_of_set group).property) }
    ensures copies { IfOk result (λ root. length (dvas root.copies) ≡ 3) }
    ensures value { IfOk result (λ root. (stored planned : Contents) (bound : ℕ)
        (objects : ℕ → Option Object) (own : List Block) (blocks : ℕ → List Block)
        → Plans store.old stored planned → AreObjects stored bound set.now objects own blocks
        → bound ≤ group → AnswersTell store.old store.new []
        → (later : Contents) × Plans store.new stored later × Extends planned later
        × (then : IsSetOf later group root set.now.kind (changed changes.now objects))
        × (gone : List Block) × (replaced.new.items ≡ replaced.old.items ++ gone)
        × IsReachExchanged group planned later (blocks_of_set set.now own blocks)
        (root ∷ blocks_of_set then.set then.own then.blocks) gone × AddsMeta planned later) }
    ensures no_room { IfErr result (λ refusal. refusal ≡ Refusal.NoSpace
        → HasNoRoom store.old store.new [] (copies_of sets.Meta)
        ⊎ HasNoRoomFor store.old store.new [] 2 3) }
    ensures known { IfErr result (λ refusal. (stored planned : Contents) (bound : ℕ)
        (objects : ℕ → Option Object) (own : List Block) (blocks : ℕ → List Block)
        → Plans store.old stored planned → AreObjects stored bound set.now objects own blocks
        → bound ≤ before → bound ≤ group → AnswersTell store.old store.new []
        → All (λ change. MayChange change.change (objects change.number)) changes.now
        → IsForRoom refusal ⊎ (refusal ≡ Refusal.DiskFault)) }
    ensures behind { OnOk result ((gone : List Block)
        × (replaced.new.items ≡ replaced.old.items ++ gone)) }
    ensures places { OnOk result
        (HasRootPlaces store.old store.new set.now group changes.now) }
    ensures refused { IfErr result
        (IsRootRefused store.old store.new set.now before group changes.now) }
{
    let rewrite = objset::change(set, store, alloc, changes, before, group, &[])?;
    replaced.extend_from_slice(&rewrite.replaced)?;
    plan_set(&rewrite.set, store, alloc, group)
}
