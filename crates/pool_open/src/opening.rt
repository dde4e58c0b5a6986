//! The parts of an open of disks that are in order: a survey of them, and the core of what they hold.
ghost use Rattle.std.specs.Prelude.{◌≡◌, ◌⊎◌, ◌<◌, length, Some, [], true, IfErr, IfOk};
ghost use Rattle.block_store.specs.Blocks.{Contents};
ghost use Rattle.block_store.specs.Opened.{MayBeOpened};
ghost use Rattle.block_store.specs.Places.{shapes_of};
ghost use Rattle.block_store.specs.Store.{is_out, is_stale};
ghost use Rattle.pool_core.specs.Mapped.{SpellsWithMaps};
ghost use Rattle.pool_core.specs.Represents.{Represents};
ghost use Rattle.pool_core.specs.State.{config_of};
ghost use Rattle.pool_core.specs.Spans.{HaveNoSpans};
ghost use Rattle.pool_core.specs.StateOf.{disks_in, state_of};
ghost use Rattle.pool_model.specs.Pools.{PlainPool};
ghost use Rattle.pool_model.specs.declared.refusal.Refusal.TheVariants as Causes;
ghost use Rattle.pool_model.specs.Refusals.{greatest};
ghost use Rattle.pool_model.specs.View.{is_tolerable, opened_as};
ghost use Rattle.pool_open.specs.Held.{HoldOver, IsLaidOver};
ghost use Rattle.pool_open.specs.Opening.{AreMisplacedOver, IsSurveyRefused};
ghost use Rattle.pool_open.specs.Roots.{AreContentsOver};
ghost use Rattle.pool_open.specs.Trees.{IsConfiguredFor, NamesConfigOf};
ghost use Rattle.pool_open.specs.Words.{stamp_of, vdevs_in};
ghost use Rattle.pool_slots.specs.Present.{GoOut};
ghost use Rattle.pool_slots.specs.Slots.{HaveLabels};
ghost use Rattle.pool_slots.specs.Surveys.{IsSurveyed, IsWholeOf};
ghost use Rattle.uberblock_ring.specs.Uberblock.{IsNumber};
ghost use Rattle.volume_rules.specs.NowMoves.{IsMadeBy};

use crate::known::KnownRoot;
use crate::refusal::Refusal;
use crate::tolerance::are_tolerable;
use block_store::{BlockStore, VdevShape};
use model_disk::{Disk, DiskArray};
use pool_core::{Core, Stamp, labels_of_opened_lie};
use pool_slots::{Survey, survey_present};
use std::alloc::Global;
use uberblock_ring::Uberblock;
use words::LAST_COUNT;

/// A pool that was opened.
#[derive(Drop)]
pub struct OpenedPool<D: Disk + Drop> {
    pub core: Core<D>,
    /// What it goes on from.
    pub uberblock: Uberblock,
}

/// The disks, where a store may be opened over them; else they come back in the error.
pub(crate) fn fitting<D: Disk + Drop>(
    alloc: Global,
    disks: DiskArray<D>,
    shapes: &[VdevShape],
    out: &[bool],
) -> Result<DiskArray<D>, (Refusal, DiskArray<D>)>
    ensures same { IfOk result (λ array. array ≡ disks) }
    ensures may { IfOk result (λ _. MayBeOpened disks.starts shapes.now out.now) }
    ensures labels { IfOk result (λ _. HaveLabels disks.starts) }
    ensures laid { IfOk result (λ _. IsLaidOver disks shapes.now out.now) }
    ensures refused { IfErr result (λ failed. (failed.0 ≡ Refusal.NoMemory)
        ⊎ ((failed.0 ≡ Refusal.BadConfig) × ¬ MayBeOpened disks.starts shapes.now out.now)) }
    ensures back { IfErr result (λ failed. failed.1 ≡ disks) }
{
    labels_of_opened_lie();
    match BlockStore::opened(alloc, disks, shapes, out) {
        Ok(store) => Ok(store.into_array()),
        Err((refusal, disks)) => Err((Refusal::from(refusal), disks)),
    }
}

/// Surveys the disks in use. `NoUberblock` also where no group is left after the one that is taken, and `TooManyMissing` where of a vdev
/// more disks are out then than it has parities.
pub(crate) fn survey_disks<D: Disk + Drop>(
    alloc: Global,
    disks: &mut DiskArray<D>,
    out: &mut Vec<bool>,
    shapes: &[VdevShape],
    rewind: u64,
) -> Result<Survey, Refusal>
    requires may { MayBeOpened disks.old.starts shapes.now out.old.items }
    requires labels { HaveLabels disks.old.starts }
    ensures count { length out.new.items ≡ length disks.old.starts }
    ensures absent { GoOut out.old.items out.new.items disks.old disks.new }
    ensures whole { IfOk result (IsWholeOf out.new.items disks.old.starts) }
    ensures surveyed { IfOk result (IsSurveyed out.new.items rewind disks.old disks.new) }
    ensures below { IfOk result (λ survey. survey.claimed.group < greatest) }
    ensures tolerable { IfOk result (λ _.
        is_tolerable (vdevs_in shapes.now) (is_out out.new.items) ≡ true) }
    ensures refused { IfErr result
        (IsSurveyRefused shapes.now out.new.items rewind disks.old disks.new) }
{
    let survey = survey_present(alloc, disks, out, rewind)?;
    let claimed = survey.claimed();
    if claimed.group >= LAST_COUNT {
        return Err(Refusal::NoUberblock);
    }
    if !are_tolerable(shapes, out) {
        return Err(Refusal::TooManyMissing);
    }
    Ok(survey)
}

/// Why there is no core: memory ran out, or a space map or a block has no place of its own.
fn of_core(cause: pool_model::Refusal) -> Refusal
    ensures memory { cause ≡ Causes.NoMemory → result ≡ Refusal.NoMemory }
    ensures pointer { cause ≡ Causes.BadPointer → result ≡ Refusal.BadPointer }
{
    match cause {
        pool_model::Refusal::NoMemory => Refusal::NoMemory,
        _ => Refusal::BadPointer,
    }
}

/// The core of a pool whose disks show this uberblock, with what is known of its root and of them; it goes on under that claim.
/// No disk is called.
/// `BadPointer` where a block has no place of the pool, or two blocks share a sector. After an error the disks come back.
pub fn core_over<D: Disk + Drop>(
    alloc: Global,
    disks: DiskArray<D>,
    shapes: &[VdevShape],
    out: &[bool],
    claimed: &Uberblock,
    root: KnownRoot,
) -> Result<Core<D>, (Refusal, DiskArray<D>)>
    requires may { MayBeOpened disks.starts shapes.now out.now }
    requires claim { IsNumber claimed.now.claim }
    requires below { claimed.now.group < greatest }
    ensures disks { IfOk result (λ core. disks_in core ≡ disks) }
    ensures stamped { IfOk result (λ core. (state_of core).commit.stamp ≡ stamp_of claimed.now) }
    ensures root { IfOk result (λ core.
        (state_of core).commit.kept.last.root ≡ Some claimed.now.root) }
    ensures out { IfOk result (λ core. (state_of core).commit.store.out ≡ out.now) }
    ensures shapes { IfOk result (λ core.
        shapes_of (state_of core).commit.store.spaces ≡ shapes.now) }
    ensures config { IfOk result (λ core. config_of (state_of core) ≡ root.disks.config.value) }
    ensures table { IfOk result (λ core.
        (state_of core).commit.kept.last.spans_under.value ≡ root.contents.spans) }
    ensures spans { IfOk result (λ core.
        (state_of core).commit.kept.last.spans.value ≡ root.disks.spans) }
    ensures stale { IfOk result (λ core.
        (state_of core).commit.store.spans.stale ≡ root.stale.items) }
    ensures untouched { IfOk result (λ core. root.contents.spans ≡ [] → root.disks.spans ≡ []
        → HaveNoSpans (state_of core).commit) }
    ensures represents { IfOk result (λ core. (stored : Contents) (pool : PlainPool)
        → HoldOver disks shapes.now out.now root.stale.items stored → AreContentsOver
        shapes.now stored claimed.now.group claimed.now.root pool root.contents
        → SpellsWithMaps stored shapes.now claimed.now.group claimed.now.root pool
        → IsMadeBy claimed.now.group pool
        → IsConfiguredFor claimed.now stored pool → NamesConfigOf claimed.now (state_of core)
        → Represents (state_of core)
        (opened_as (vdevs_in shapes.now) (is_out out.now) (is_stale root.stale.items)
        claimed.now.group pool)) }
    ensures refused { IfErr result (λ failed. (failed.0 ≡ Refusal.NoMemory)
        ⊎ ((failed.0 ≡ Refusal.BadPointer)
        × AreMisplacedOver disks shapes.now out.now root.stale.items root.contents)) }
    ensures back { IfErr result (λ failed. failed.1 ≡ disks) }
{
    labels_of_opened_lie();
    let mut store = match BlockStore::opened(alloc, disks, shapes, out) {
        Ok(store) => store,
        Err((refusal, disks)) => return Err((Refusal::from(refusal), disks)),
    };
    let stamp = Stamp {
        guid_sum: claimed.guid_sum,
        claim: claimed.claim,
        config_digest: claimed.config_digest,
    };
    let KnownRoot {
        contents,
        stale,
        disks,
    } = root;
    store.mark_stale(stale);
    match Core::opened(
        alloc,
        store,
        stamp,
        claimed.group,
        claimed.root,
        contents,
        disks,
    ) {
        Ok(core) => Ok(core),
        Err((cause, disks)) => Err((of_core(cause), disks)),
    }
}
