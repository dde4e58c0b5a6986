//! Scrubs of pools on disks that are handed in.
ghost use Rattle.std.specs.Prelude.{◌≡◌, IfErr, IfOk};
ghost use Rattle.pool_open.specs.CoreState.{config_of};
ghost use Rattle.pool_open.specs.CoreStateOf.{disks_in, state_of};
ghost use Rattle.pool_open.specs.Opens.{refusal_of};
ghost use Rattle.stale_disks.specs.Rules.{AreSpansWithout, guids_in};
ghost use Rattle.vdev_label.specs.Plain.{config_view};
ghost use Rattle.pool_scrub.specs.Laws.{CleanScrubsGoOnWhole, ScrubsGoOn};
ghost use Rattle.pool_scrub.specs.Scrubbing.{IsBegunAgain, IsLayoutOf, IsLooked, IsNotBegunAgain, IsNotScrubbedOver, IsOneForEach};
ghost use Rattle.pool_scrub.specs.Scrubbing.{IsScrubbed, IsScrubbedOver, IsUnlooked, ScrubRefuses, back_of};

use crate::counting::{missing_of, whole_of};
use crate::healing::{Healed, heal};
use crate::walking::{PoolLayout, walk};
use dataset_snapshots::reach_is_known;
use model_disk::{Disk, DiskArray, Member};
use pool_open::{Core, KnownDisks, NotOpened, OpenedFrom, OpenedPool, Refusal, core_again, open};
use raidz_io::{honest_disks_give_truly, reads_keep_contents, stands_while_kept};
use scrub_resilver::{
    apart_blocks_share_no_byte, blocks_looked_at_stand, checked_blocks_stand,
    honest_choices_are_own, mends_spare_blocks, mends_spare_told_blocks,
};
use stale_disks::{disk_guids, spans_without, stale_groups};
use std::alloc::{AllocError, Global};
use uberblock_ring::Uberblock;

/// What a scrub found: the group whose blocks were looked at, how many of their columns were unreadable or wrong, and how many still are.
#[derive(Clone, Copy)]
pub struct ScrubCounts {
    pub group: u64,
    pub findings: u64,
    pub left: u64,
}

/// A pool that was scrubbed and goes on, and what the scrub found.
#[derive(Drop)]
pub struct Scrubbed<D: Disk + Drop>
where
    Member<D>: Disk,
{
    pub pool: OpenedPool<Member<D>>,
    pub from: OpenedFrom<D>,
    pub counts: ScrubCounts,
}

/// How the disks of a pool are read.
fn layout_of<D: Disk + Drop>(alloc: Global, core: &Core<D>) -> Result<PoolLayout, AllocError>
    ensures { IfOk result (IsLayoutOf (state_of core.now)) }
{
    let guids = disk_guids(alloc, core.config())?;
    Ok(PoolLayout {
        shapes: core.shapes(alloc)?,
        out: core.marks(alloc)?,
        stale: stale_groups(alloc, core.stale_spans(), guids.as_slice())?,
    })
}

/// What was found of a pool's blocks, and what is left of it; and of each disk, whether it has all of them.
#[derive(Drop)]
pub(crate) struct Looked {
    pub(crate) healed: Healed,
    pub(crate) whole: Vec<bool>,
}

/// Looks at all blocks that the uberblock's root leads to, and mends them.
fn look_over<D: Disk + Drop>(
    alloc: Global,
    disks: DiskArray<D>,
    layout: &PoolLayout,
    uberblock: &Uberblock,
) -> (Result<Looked, Refusal>, DiskArray<D>)
    ensures looked { IfOk result.0 (IsLooked disks layout.now uberblock.now result.1) }
    ensures refused { IfErr result.0 (IsUnlooked disks layout.now uberblock.now result.1) }
{
    let out = layout.out.as_slice();
    let Ok(missing) = missing_of(alloc, out) else {
        return (Err(Refusal::NoMemory), disks);
    };
    let (blocks, mut disks) = match walk(alloc, disks, layout, &uberblock.root, uberblock.group) {
        Ok(walked) => walked,
        Err((refusal, disks)) => return (Err(refusal), disks),
    };
    let shapes = layout.shapes.as_slice();
    let healed = match heal(&mut disks, alloc, shapes, &blocks, &missing) {
        Ok(healed) => healed,
        Err(refusal) => return (Err(refusal), disks),
    };
    match whole_of(
        alloc,
        out,
        healed.left.as_slice(),
        healed.unflushed.as_slice(),
    ) {
        Ok(whole) => (Ok(Looked { healed, whole }), disks),
        Err(_) => (Err(Refusal::NoMemory), disks),
    }
}

/// What is known of the disks once those that are marked have every block again.
fn known_behind(alloc: Global, known: KnownDisks, whole: &[bool]) -> Result<KnownDisks, AllocError>
    ensures config { IfOk result (λ it. it.config.value ≡ known.config.value) }
    ensures spans { IfOk result (λ it. AreSpansWithout
        (guids_in (config_view known.config.value)) whole.now known.spans it.spans) }
    ensures once { IfOk result (λ it. IsOneForEach known.spans) }
{
    let guids = disk_guids(alloc, known.config.as_ref())?;
    let spans = spans_without(alloc, &known.spans, &guids, whole)?;
    Ok(KnownDisks {
        config: known.config,
        spans,
    })
}

/// Begins the core anew: of disks that have every block again no span is known any more.
fn begin_again<D: Disk + Drop>(
    alloc: Global,
    disks: DiskArray<D>,
    layout: &PoolLayout,
    uberblock: &Uberblock,
    known: KnownDisks,
    looked: &Looked,
) -> Result<Core<D>, (Refusal, DiskArray<D>)>
    ensures again { IfOk result (λ core. IsBegunAgain disks layout.now uberblock.now
        known.config.value known.spans looked.now (state_of core)) }
    ensures refused { IfErr result (λ failed. IsNotBegunAgain disks layout.now uberblock.now
        known.config.value known.spans looked.now failed.1 failed.0) }
{
    let Ok(known) = known_behind(alloc, known, looked.whole.as_slice()) else {
        return Err((Refusal::NoMemory, disks));
    };
    match core_again(
        alloc,
        disks,
        layout.shapes.as_slice(),
        layout.out.as_slice(),
        uberblock,
        known,
    ) {
        Ok(core) => Ok(core),
        Err(failed) => Err(failed),
    }
}

/// Takes a pool apart that is at rest, looks at all blocks that it leads to, mends them, and begins its core anew.
fn scrub_over<D: Disk + Drop>(
    alloc: Global,
    core: Core<D>,
    uberblock: &Uberblock,
) -> Result<(Core<D>, ScrubCounts), (Refusal, DiskArray<D>)>
    ensures scrubbed { IfOk result (λ it.
        IsScrubbedOver (state_of core) uberblock.now (state_of it.0) it.1) }
    ensures refused { IfErr result (λ failed.
        IsNotScrubbedOver (state_of core) uberblock.now failed.1 failed.0) }
{
    let Ok(layout) = layout_of(alloc, &core) else {
        return Err((Refusal::NoMemory, core.into_array()));
    };
    let Ok(known) = core.known_disks(alloc) else {
        return Err((Refusal::NoMemory, core.into_array()));
    };
    let (looked, disks) = look_over(alloc, core.into_array(), &layout, uberblock);
    let looked = match looked {
        Ok(looked) => looked,
        Err(refusal) => return Err((refusal, disks)),
    };
    let core = begin_again(alloc, disks, &layout, uberblock, known, &looked)?;
    let counts = ScrubCounts {
        group: uberblock.group,
        findings: looked.healed.found.len() as u64,
        left: looked.healed.left.len() as u64,
    };
    Ok((core, counts))
}

/// Why a pool was not opened, and its disks.
fn parts_of<D: Disk + Drop>(failed: NotOpened<D>) -> (Refusal, Vec<D>)
    ensures refusal { result.0 ≡ refusal_of failed }
    ensures back { result.1.items ≡ back_of failed }
{
    match failed {
        NotOpened::NotFound { refusal, disks } => (refusal, disks),
        NotOpened::Refused { refusal, disks } => (refusal, disks),
    }
}

/// Opens the pool on the disks, as `open` does, looks at every column of every block that its last group leads to, on all disks that are
/// there, and writes those anew that are unreadable or wrong; and looks at all again. A disk of which nothing is left to be mended, and
/// whose flush didn't fail, has every block of that group: it goes on without stale spans, is read as any other disk, and the next
/// group's table has none of it. With an error the disks come back, in the order handed in.
pub fn scrub<D: Disk + Drop>(alloc: Global, disks: Vec<D>) -> Result<Scrubbed<D>, (Refusal, Vec<D>)>
    ensures scrubbed { IfOk result (λ it. IsScrubbed D.Disk disks.items
        it.pool.uberblock (state_of it.pool.core) it.from it.counts) }
    ensures refused { IfErr result (λ failed.
        ScrubRefuses D.Disk disks.items failed.0 failed.1.items) }
{
    let (pool, from) = match open(alloc, disks, 0) {
        Ok(opened) => opened,
        Err(failed) => return Err(parts_of(failed)),
    };
    let OpenedPool { core, uberblock } = pool;
    match scrub_over(alloc, core, &uberblock) {
        Ok((core, counts)) => Ok(Scrubbed {
            pool: OpenedPool { core, uberblock },
            from,
            counts,
        }),
        Err((refusal, disks)) => Err((refusal, from.handed.restore(disks.into_disks()))),
    }
}

/// A law: whatever is left to be mended, the pool goes on as the open found it, and no disk is stale that has every block again. Of disks that held
/// the pool, and whose answers tell its blocks: they are true, and digests tell which columns are wrong; or some disks lie, and of no block
/// other bytes that could be chosen of what was read have its digest.
pub fn scrubs_go_on<D: Disk + Drop>()
    ensures { ScrubsGoOn D.Disk }
{
    mends_spare_blocks();
    mends_spare_told_blocks();
    honest_choices_are_own();
    blocks_looked_at_stand();
    apart_blocks_share_no_byte();
    reads_keep_contents();
    honest_disks_give_truly();
    stands_while_kept();
    reach_is_known();
}

/// A law: where nothing is left to be mended of a disk that is there, the pool goes on as the open found it, and no disk that is there is stale. So it
/// is where the disks held the pool and answered truly, no write or flush failed, and no other bytes that stand have a block's digest.
pub fn clean_scrubs_go_on_whole()
    ensures { CleanScrubsGoOnWhole }
{
    checked_blocks_stand();
}
