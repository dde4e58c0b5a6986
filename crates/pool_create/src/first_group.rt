//! The first group of a new pool.
ghost use Rattle.std.specs.Prelude.{◌≡◌, ◌↔◌, ◌⊎◌, length, IsTrue, IfErr, IfOk};
ghost use Rattle.block_store.specs.Opened.{MayBeOpened};
ghost use Rattle.pool_open.specs.Configs.{FitsTable};
ghost use Rattle.pool_open.specs.Slots.{IsStampOf};
ghost use Rattle.pool_open.specs.CommitState.{NoneIsOut};
ghost use Rattle.pool_open.specs.Calls.{GrewTo};
ghost use Rattle.pool_open.specs.CoreStateOf.{disks_in, state_of};
ghost use Rattle.pool_create.specs.FirstGroup.{HasFirstGroup, IsCommitted, IsInFront, IsUnfinished, LacksFirstGroup};
ghost use Rattle.pool_create.specs.Planning.{none_out};
ghost use Rattle.pool_model.specs.Groups.{commits};
ghost use Rattle.uberblock_ring.specs.Uberblock.{IsNumber};
ghost use Rattle.vdev_label.specs.Plain.{config_view};

use crate::judging::{are_same_shapes, cause_of, count_commits};
use crate::planning::NewPool;
use crate::steps::run_first;
use block_pointer::Block;
use block_store::{BlockStore, VdevShape};
use model_disk::{Disk, DiskArray};
use pool_open::{Core, Refusal, Reply, labels_of_opened_lie};
use std::alloc::Global;
use std::sync::Arc;

/// Disks that have the first group.
#[derive(Drop)]
pub(crate) struct FirstGroup<D: Disk + Drop> {
    pub(crate) disks: DiskArray<D>,
    pub(crate) root: Block,
}

/// A core with no volumes, in front of group 3. After an error the disks come back.
fn core_in_front<D: Disk + Drop>(
    alloc: Global,
    disks: DiskArray<D>,
    pool: &NewPool,
) -> Result<Core<D>, (Refusal, DiskArray<D>)>
    requires may { MayBeOpened disks.starts pool.now.shapes.items pool.now.out.items }
    requires claim { IsNumber pool.now.stamp.claim }
    requires table { FitsTable (config_view pool.now.config.value) }
    requires named { IsStampOf (config_view pool.now.config.value) pool.now.stamp.claim
        pool.now.stamp }
    ensures in_front { IfOk result (λ core. IsInFront disks pool.now (state_of core)) }
    ensures refused { IfErr result (λ failed. failed.0 ≡ Refusal.NoMemory) }
    ensures back { IfErr result (λ failed. failed.1 ≡ disks) }
{
    labels_of_opened_lie();
    let Ok(config) = Arc::try_clone(&pool.config) else {
        return Err((Refusal::NoMemory, disks));
    };
    let store = match BlockStore::opened(alloc, disks, &pool.shapes, &pool.out) {
        Ok(store) => store,
        Err((refusal, disks)) => return Err((Refusal::from(refusal), disks)),
    };
    match Core::empty(alloc, store, pool.stamp, 2, config) {
        Ok(core) => Ok(core),
        Err(disks) => Err((Refusal::NoMemory, disks)),
    }
}

/// Whether one group was committed by these replies and all disks and vdevs are as they were.
fn is_done<D: Disk + Drop>(
    core: &Core<D>,
    replies: &[Reply],
    before: &[VdevShape],
    after: &[VdevShape],
) -> bool
    ensures { IsTrue result ↔ ((length (commits replies.now) ≡ 1)
        × NoneIsOut (state_of core.now).commit × (after.now ≡ before.now)) }
{
    count_commits(replies) == 1 && core.is_whole() && are_same_shapes(after, before)
}

/// Commits group 3; its root.
fn commit_first<D: Disk + Drop>(
    alloc: Global,
    core: &mut Core<D>,
    pool: &NewPool,
) -> Result<Block, Refusal>
    ensures committed { IfOk result
        (IsCommitted pool.now (state_of core.old) (state_of core.new)) }
    ensures grew { GrewTo (disks_in core.old) (disks_in core.new) }
    ensures refused { IfErr result (λ refusal. (refusal ≡ Refusal.NoMemory)
        ⊎ IsUnfinished pool.now (state_of core.old) (state_of core.new) refusal) }
{
    let replies = run_first(alloc, core)?;
    let shapes = core.shapes(alloc)?;
    let whole = core.is_whole();
    if !is_done(core, &replies, &pool.shapes, &shapes) {
        return Err(cause_of(&replies, whole));
    }
    match core.last_root() {
        Some(root) => Ok(root),
        None => Err(cause_of(&replies, whole)),
    }
}

/// Commits the first group of the pool on disks that have nothing of it. After an error they come back.
pub(crate) fn first_group<D: Disk + Drop>(
    alloc: Global,
    disks: DiskArray<D>,
    pool: &NewPool,
) -> Result<FirstGroup<D>, (Refusal, DiskArray<D>)>
    requires may { MayBeOpened disks.starts pool.now.shapes.items pool.now.out.items }
    requires claim { IsNumber pool.now.stamp.claim }
    requires table { FitsTable (config_view pool.now.config.value) }
    requires named { IsStampOf (config_view pool.now.config.value) pool.now.stamp.claim
        pool.now.stamp }
    requires out { pool.now.out.items ≡ none_out (length disks.starts) }
    ensures first { IfOk result (λ first. HasFirstGroup disks pool.now first.disks first.root) }
    ensures grew { IfErr result (λ failed. GrewTo disks failed.1) }
    ensures refused { IfErr result (λ failed. (failed.0 ≡ Refusal.NoMemory)
        ⊎ LacksFirstGroup disks pool.now failed.1 failed.0) }
{
    let mut core = core_in_front(alloc, disks, pool)?;
    match commit_first(alloc, &mut core, pool) {
        Ok(root) => Ok(FirstGroup {
            disks: core.into_array(),
            root,
        }),
        Err(refusal) => Err((refusal, core.into_array())),
    }
}
