//! The plan of a group.
ghost use Rattle.std.specs.Prelude.{◌≡◌, ◌⊎◌, ◌↔◌, ◌<◌, ◌-◌, ◌^◌, suc, length, List, [], Some, None, Err, false, IsTrue, OnOk, OnErr, IfOk, IfErr, IfSome};
ghost use Rattle.block_pointer.specs.Block.{FitsBlock};
ghost use Rattle.block_pointer.specs.declared.block.Block.{Block};
ghost use Rattle.block_store.specs.Blocks.{Contents, Extends, AreDistinct, AreStored};
ghost use Rattle.block_store.specs.Places.{filled};
ghost use Rattle.block_store.specs.Plans.{Plans};
ghost use Rattle.block_store.specs.Releases.{copies_of_all, AreReleased, AreAllInUse};
ghost use Rattle.block_store.specs.Steps.{OnlyReadsAndPlans, AnswersTell};
ghost use Rattle.dnode_tree.specs.Writes.{IsForRoom};
ghost use Rattle.raidz_io.specs.Reads.{OnlyReads, AreUntouched};
ghost use Rattle.dataset_snapshots.specs.Reached.{UseNothing};
ghost use Rattle.pool_model.specs.Pools.{PlainPool, applied, no_volumes};
ghost use Rattle.pool_model.specs.View.{View, DueCall, Unplanned, Due, is_planned};
ghost use Rattle.pool_model.specs.Machine.{IsPlan};
ghost use Rattle.uberblock_ring.specs.Uberblock.{IsRoot};
ghost use Rattle.volume_rules.specs.Effects.{GroupTakesEffect};
ghost use Rattle.volume_rules.specs.GoodChanges.{MakesGoodVolumes};
ghost use Rattle.volume_rules.specs.Index.{Knows};
ghost use Rattle.volume_rules.specs.Parting.{with_made};
ghost use Rattle.block_store.specs.declared.refusal.Refusal.TheVariants as lost_blocks;
ghost use Rattle.dataset_snapshots.specs.Groups.{IsReachExchanged};
ghost use Rattle.dataset_snapshots.specs.Laws.{AreGoodChanges};
ghost use Rattle.dataset_snapshots.specs.FirstGroup.{IsFirstRefused};
ghost use Rattle.vdev_label.specs.Plain.{config_view};
ghost use Rattle.pool_commit.specs.Configs.{FitsTable};
ghost use Rattle.pool_commit.specs.Backs.{Backs, BeginsWithMaps, LeadsTo, LeavesMaps, SpellsGroup, SpellsRoot};
ghost use Rattle.pool_commit.specs.Directories.{SpellsBy};
ghost use Rattle.pool_commit.specs.Reading.{PoolAnswersTell, IsReadFault};
ghost use Rattle.pool_commit.specs.Reading.{IsUnreadForPlan, IsLostForPlan};
ghost use Rattle.dataset_snapshots.specs.Creating.{stale_after};
ghost use Rattle.stale_disks.specs.Rules.{AreSpansAfter, guids_in};
ghost use Rattle.pool_commit.specs.Room.{LacksRoom, IsGroupRefusedBehind, IsNextRefused};
ghost use Rattle.pool_commit.specs.Space.{GivesBack};
ghost use Rattle.pool_commit.specs.Spans.{HasSpansAfter};
ghost use Rattle.pool_commit.specs.State.{HasNoPlan};
ghost use Rattle.pool_commit.specs.StateOf.{state_of, disks_in, outs_in};
ghost use Rattle.pool_commit.specs.Writing.{IsTimed, PlansFrom};

use crate::commit::Commit;
use crate::kept::{KeptGroup, Planned};
use crate::last::marks_of;
use crate::refusal::Refusal;
use block_pointer::Block as RootBlock;
use block_store::BlockStore;
use dataset_snapshots::{FirstRoot, KeptDirectory, NextGroup, after_group, first_group};
use meta_objset::StaleSpans;
use model_disk::Disk;
use stale_disks::{disk_guids, spans_after};
use std::alloc::{AllocError, Global};
use std::sync::Arc;
use txg_pipeline::Pending;
use vdev_label::{Config, small_configs_fit};
use volume_rules::{NameIndex, PartedActions, makes_good_volumes, part};
use words::LAST_COUNT;

/// So many spans are too many for a table.
const MOST_SPANS: usize = 1 << 40;

/// Plans the first root of a pool of this configuration, of which nothing is in use so far, and of which nothing can be destroyed.
fn first_root<D: Disk + Drop>(
    store: &mut BlockStore<D>,
    alloc: Global,
    config: &Config,
    next: &NextGroup,
    parted: &PartedActions,
    items: &Pending,
) -> Result<FirstRoot, block_store::Refusal>
    requires fits { FitsTable (config_view config.now) }
    requires born { 0 < next.now.number }
    requires few { IfSome next.now.spans (λ spans. length spans < 2 ^ 40) }
    ensures steps { OnlyReadsAndPlans store.old store.new [] }
    ensures root { IfOk result (λ first.
        IsRoot next.now.number first.root × FitsBlock first.root) }
    ensures value { let group = next.now.number in
        let pool = applied group no_volumes (with_made items.now parted.now) in
        IfOk result (λ first. (stored planned : Contents)
        → Plans store.old stored planned → UseNothing store.old.spaces filled
        → AnswersTell store.old store.new []
        → (later : Contents) × Plans store.new stored later × Extends planned later
        × SpellsRoot later group (Some first.root) pool
        × (reach : List Block) × LeadsTo later group (Some first.root) pool reach
        × IsReachExchanged group planned later [] reach []
        × SpellsBy later group (Some first.root) pool first.directory
        (config_view config.now) (stale_after next.now.spans [])
        × LeavesMaps store.new.spaces [] later group first.root pool) }
    ensures known { IfErr result (λ refusal. (stored planned : Contents)
        → Plans store.old stored planned → UseNothing store.old.spaces filled
        → AnswersTell store.old store.new [] → AreGoodChanges parted.now.made
        → IsForRoom refusal ⊎ (refusal ≡ lost_blocks.DiskFault)) }
    ensures refused { IfErr result (IsFirstRefused store.old store.new next.now.number
        (config_view config.now) (stale_after next.now.spans [])
        (with_made items.now parted.now)) }
{
    small_configs_fit();
    first_group(store, alloc, config, next, parted, items)
}

/// A root that is planned, the directory under it, and the blocks that the one before led to and this one doesn't.
#[derive(Drop)]
struct PlannedRoot {
    root: RootBlock,
    directory: KeptDirectory,
    replaced: Vec<RootBlock>,
}

/// Plans the root of the transaction group `group` after its items, behind the last one, by the directory that is kept of it; or the
/// first root of a pool. What the group destroys of what was there before it goes first.
fn root_after<D: Disk + Drop>(
    last: &KeptGroup,
    store: &mut BlockStore<D>,
    alloc: Global,
    next: &NextGroup,
    items: &Pending,
) -> Result<PlannedRoot, block_store::Refusal>
    requires born { 0 < next.now.number }
    requires few { IfSome next.now.spans (λ spans. length spans < 2 ^ 40) }
    ensures steps { OnlyReadsAndPlans store.old store.new [] }
    ensures root { IfOk result (λ made. IsRoot next.now.number made.root × FitsBlock made.root) }
    ensures value { let group = next.now.number in
        IfOk result (λ made. (stored planned : Contents) (pool : PlainPool)
        (before : List Block)
        → Plans store.old stored planned → SpellsGroup stored (group - 1) last.now pool
        → LeadsTo stored (group - 1) last.now.root pool before
        → BeginsWithMaps store.old.spaces stored (group - 1) last.now.root pool
        → AnswersTell store.old store.new [] → GroupTakesEffect group pool items.now
        → (later : Contents) × Plans store.new stored later × Extends planned later
        × SpellsRoot later group (Some made.root) (applied group pool items.now)
        × (reach : List Block) × LeadsTo later group (Some made.root)
        (applied group pool items.now) reach
        × IsReachExchanged group planned later before reach made.replaced.items
        × SpellsBy later group (Some made.root) (applied group pool items.now)
        made.directory (config_view last.now.config.value)
        (stale_after next.now.spans last.now.spans_under.value)
        × LeavesMaps store.new.spaces made.replaced.items later group made.root
        (applied group pool items.now)) }
    ensures known { let group = next.now.number in
        IfErr result (λ refusal. (stored planned : Contents) (pool : PlainPool)
        → Plans store.old stored planned → SpellsGroup stored (group - 1) last.now pool
        → BeginsWithMaps store.old.spaces stored (group - 1) last.now.root pool
        → AnswersTell store.old store.new [] → MakesGoodVolumes items.now
        → GroupTakesEffect group pool items.now
        → IsForRoom refusal ⊎ (refusal ≡ lost_blocks.DiskFault)) }
    ensures refused { IfErr result (IsNextRefused store.old store.new last.now.root
        last.now.directory.value (config_view last.now.config.value)
        next.now.number next.now.spans items.now) }
{
    let parted = part(alloc, items.actions())?;
    match &last.root {
        Some(root) => {
            let next = after_group(
                root,
                store,
                alloc,
                next,
                last.kept_directory(),
                &parted,
                items,
            )?;
            Ok(PlannedRoot {
                root: next.root,
                directory: next.directory,
                replaced: next.replaced,
            })
        }
        None => {
            let first = first_root(store, alloc, last.config(), next, &parted, items)?;
            Ok(PlannedRoot {
                root: first.root,
                directory: first.directory,
                replaced: Vec::new(alloc),
            })
        }
    }
}

/// The names after the items of a group. Where it makes no volume they are those before, and are not copied.
fn names_after(
    last: &Arc<NameIndex, Global>,
    alloc: Global,
    group: u64,
    items: &Pending,
) -> Result<Arc<NameIndex, Global>, AllocError>
    ensures { IfOk result (λ after. (pool : PlainPool) → Knows last.now.value pool
        → Knows after.value (applied group pool items.now)) }
{
    if items.actions().is_empty() {
        return Arc::try_clone(last);
    }
    let after = last.as_ref().after_group(alloc, group, items)?;
    Ok(Arc::new(alloc, after)?)
}

/// A directory to be kept. Where it has the rows of the one before, that one is shared.
fn directory_after(
    last: &Arc<KeptDirectory, Global>,
    alloc: Global,
    directory: KeptDirectory,
) -> Result<Arc<KeptDirectory, Global>, AllocError>
    ensures { IfOk result (λ after. after.value ≡ directory) }
{
    if last.as_ref().rows() == directory.rows() {
        return Arc::try_clone(last);
    }
    Ok(Arc::new(alloc, directory)?)
}

/// The table of stale spans of the group behind the last one, where it is another one than that of the last.
fn changed_spans<D: Disk + Drop>(
    last: &KeptGroup,
    store: &BlockStore<D>,
    alloc: Global,
    group: u64,
) -> Result<Option<StaleSpans>, AllocError>
    ensures after { IfOk result (λ changed. AreSpansAfter
        (guids_in (config_view last.now.config.value)) store.now.out group last.now.spans.value
        (stale_after changed last.now.spans_under.value)) }
    ensures few { IfOk result (λ changed. IfSome changed (λ spans. length spans < 2 ^ 40)) }
{
    let guids = disk_guids(alloc, last.config())?;
    let marks = marks_of(store, alloc)?;
    let spans = spans_after(alloc, last.spans(), &guids, &marks, group)?;
    if spans.rows() == last.spans_under.as_ref().rows() {
        return Ok(None);
    }
    if spans.rows().len() >= MOST_SPANS {
        return Err(AllocError);
    }
    Ok(Some(spans))
}

/// A table of stale spans to be kept. Where it isn't another one than the one before, that one is shared.
fn spans_after_group(
    last: &Arc<StaleSpans, Global>,
    alloc: Global,
    changed: Option<StaleSpans>,
) -> Result<Arc<StaleSpans, Global>, AllocError>
    ensures { IfOk result (λ after. after.value ≡ stale_after changed last.now.value) }
{
    match changed {
        Some(spans) => Ok(Arc::new(alloc, spans)?),
        None => Arc::try_clone(last),
    }
}

/// The next group, its root, and the blocks that the root no longer leads to.
#[derive(Drop)]
struct GroupAfter {
    after: KeptGroup,
    root: RootBlock,
    replaced: Vec<RootBlock>,
}

/// The group after the last one: its root, which is planned, its names, its directory and the same configuration; and the blocks that it
/// replaced.
fn group_after<D: Disk + Drop>(
    last: &KeptGroup,
    store: &mut BlockStore<D>,
    alloc: Global,
    group: u64,
    items: &Pending,
) -> Result<GroupAfter, block_store::Refusal>
    requires born { 0 < group }
    ensures steps { OnlyReadsAndPlans store.old store.new [] }
    ensures root { IfOk result (λ next. IsRoot group next.root × FitsBlock next.root) }
    ensures is_root { IfOk result (λ next. next.after.root ≡ Some next.root) }
    ensures config { IfOk result (λ next. next.after.config.value ≡ last.now.config.value) }
    ensures spans { IfOk result (λ next.
        HasSpansAfter last.now store.old.out group next.after) }
    ensures value { IfOk result (λ next. (stored planned : Contents) (pool : PlainPool)
        (before : List Block)
        → Plans store.old stored planned → SpellsGroup stored (group - 1) last.now pool
        → LeadsTo stored (group - 1) last.now.root pool before
        → BeginsWithMaps store.old.spaces stored (group - 1) last.now.root pool
        → AnswersTell store.old store.new [] → GroupTakesEffect group pool items.now
        → (later : Contents) × Plans store.new stored later × Extends planned later
        × SpellsGroup later group next.after (applied group pool items.now)
        × (reach : List Block) × LeadsTo later group next.after.root
        (applied group pool items.now) reach
        × IsReachExchanged group planned later before reach next.replaced.items
        × LeavesMaps store.new.spaces next.replaced.items later group next.root
        (applied group pool items.now)) }
    ensures known { IfErr result (λ refusal. (stored planned : Contents) (pool : PlainPool)
        → Plans store.old stored planned → SpellsGroup stored (group - 1) last.now pool
        → BeginsWithMaps store.old.spaces stored (group - 1) last.now.root pool
        → AnswersTell store.old store.new [] → MakesGoodVolumes items.now
        → GroupTakesEffect group pool items.now
        → IsForRoom refusal ⊎ (refusal ≡ lost_blocks.DiskFault)) }
    ensures refused { IfErr result
        (IsGroupRefusedBehind store.old store.new last.now group items.now) }
{
    let config = Arc::try_clone(&last.config)?;
    let names = names_after(&last.names, alloc, group, items)?;
    let spans = changed_spans(last, store, alloc, group)?;
    let next = NextGroup {
        number: group,
        spans,
    };
    let made = root_after(last, store, alloc, &next, items)?;
    let directory = directory_after(&last.directory, alloc, made.directory)?;
    let spans_under = spans_after_group(&last.spans_under, alloc, next.spans)?;
    let after = KeptGroup {
        root: Some(made.root),
        names,
        directory,
        spans: Arc::try_clone(&spans_under)?,
        spans_under,
        config,
    };
    Ok(GroupAfter {
        after,
        root: made.root,
        replaced: made.replaced,
    })
}

/// Gives the blocks that a group replaced back. Where one of them is not in use, it stays as it is, and so do those behind it: disks
/// whose answers tell what was written name no such block. A plan that took places for a block that it hasn't got would lose room: it is refused
/// as where memory is short.
fn give_back<D: Disk + Drop>(
    store: &mut BlockStore<D>,
    blocks: &[RootBlock],
    group: u64,
) -> Result<(), AllocError>
    ensures gives { GivesBack store.old store.new blocks.now group }
    ensures whole { OnOk result (store.old.stray ≡ false) }
    ensures released { OnOk result ((stored planned : Contents)
        → Plans store.old stored planned → AreStored stored blocks.now
        → AreDistinct blocks.now → AreAllInUse store.old.spaces blocks.now
        → AreReleased store.old.spaces (copies_of_all blocks.now) group store.new.spaces) }
{
    if store.has_strays() {
        return Err(AllocError);
    }
    let given = store.release(blocks, group);
    if lacks_memory(&given) {
        return Err(AllocError);
    }
    Ok(())
}

/// Whether memory was short.
fn lacks_memory(given: &Result<(), block_store::Refusal>) -> bool
    ensures { IsTrue result ↔ (given.now ≡ Err lost_blocks.NoMemory) }
{
    matches!(given, Err(block_store::Refusal::NoMemory))
}

impl<D: Disk + Drop> Commit<D> {
    /// Plans the group after the committed one, which accepted these items. What earlier groups released and is due to it may be
    /// handed out again; what it replaces is released with it. It reads what it must of the committed volumes, and then names
    /// the writes of the new blocks, none of them in place of a block that is kept. `BadConfig` where a volume can't be made as
    /// it is asked; a pool accepts no such change. `NoMemory` also behind the last group that there is, 2^62: a pool closes none there.
    pub fn plan(&mut self, alloc: Global, items: &Pending, timestamp: u64) -> Result<(), Refusal>
        requires unplanned { HasNoPlan (state_of self.old) }
        ensures reads { OnlyReads (disks_in self.old) (disks_in self.new) }
        ensures untouched { AreUntouched (outs_in self.old) (disks_in self.old)
            (disks_in self.new) }
        ensures from { PlansFrom (state_of self.old) (state_of self.new) }
        ensures timed { IsTimed timestamp (state_of self.new) }
        ensures unplanned { OnErr result ((v : View) → Backs (state_of self.old) v
            → is_planned v.sync ≡ false → Backs (state_of self.new) v) }
        ensures dropped { OnErr result ((v : View) → Backs (state_of self.old) v
            → Backs (state_of self.new) (record v { sync = Unplanned })) }
        ensures planned { OnOk result ((v : View) → Backs (state_of self.old) v
            → is_planned v.sync ≡ false → v.committed < 2 ^ 62
            → items.now ≡ v.ledger (suc v.committed)
            → GroupTakesEffect (suc v.committed) (v.pools v.committed) items.now
            → PoolAnswersTell (state_of self.old) (state_of self.new) []
            → (calls : List DueCall) × IsPlan v calls
            × Backs (state_of self.new) (record v { sync = Due calls })) }

        // One of the group's own blocks finds no place, behind what is stored and others of them, or no number is left for an
        // object of a new volume.
        ensures full { IfErr result (λ refusal. refusal ≡ Refusal.NoSpace
            → LacksRoom (state_of self.old) items.now) }

        ensures bad { IfErr result (λ refusal. refusal ≡ Refusal.BadConfig
            → ¬ MakesGoodVolumes items.now) }

        // A block that the group changes was read last, and could not be read.
        ensures unread { IfErr result (λ refusal. IsReadFault refusal
            → IsUnreadForPlan (state_of self.old) (state_of self.new) items.now refusal) }
        ensures refused { IfErr result (λ refusal. (v : View) → Backs (state_of self.old) v
            → is_planned v.sync ≡ false → v.committed < 2 ^ 62
            → items.now ≡ v.ledger (suc v.committed) → MakesGoodVolumes items.now
            → GroupTakesEffect (suc v.committed) (v.pools v.committed) items.now
            → (refusal ≡ Refusal.NoMemory)
            ⊎ (IsLostForPlan v (state_of self.old) (state_of self.new) items.now refusal
            ⊎ (refusal ≡ Refusal.NoSpace))) }
    {
        let group = self.kept.committed().saturating_add(1);
        if group > LAST_COUNT {
            return Err(Refusal::NoMemory);
        }
        self.store.begin_plan(group)?;
        let behind = self.due_behind(alloc)?;
        if !makes_good_volumes(items) {
            return Err(Refusal::BadConfig);
        }
        let last = self.kept.last();
        match group_after(last, &mut self.store, alloc, group, items) {
            Ok(next) => {
                if give_back(&mut self.store, &next.replaced, group).is_err() {
                    self.store.drop_plan(group);
                    return Err(Refusal::NoMemory);
                }
                let after = next.after;
                let uberblock = self.stamp.uberblock(group, next.root, timestamp);
                self.planned = Some(Planned {
                    after,
                    uberblock,
                    behind,
                });
                Ok(())
            }
            Err(refusal) => Err(Refusal::from(refusal)),
        }
    }
}
