//! What is known of the root of a pool before it is claimed: what it has, and which groups its disks missed.
ghost use Rattle.std.specs.Prelude.{◌≡◌, [], IfErr, IfOk};
ghost use Rattle.pool_open.specs.Known.{IsKnownBy};
ghost use Rattle.pool_open.specs.Roots.{AreReadBeside, IsKnownRoot, IsNotReadAgain, IsReadOfRoot};
ghost use Rattle.pool_open.specs.Roots.{IsNotReadAtOnce, IsRootNotKnown, are_wrong, told_as};
ghost use Rattle.pool_open.specs.Words.{most_blocks};
ghost use Rattle.stale_disks.specs.Rules.{AreSpansOpened, guids_in, stale_groups};
ghost use Rattle.vdev_label.specs.Plain.{config_view};

use crate::roots::{ReadRoot, read_root, read_stale};
use crate::tolerance::{count_sectors, is_any_out};
use block_store::{VdevShape, writes_elsewhere_keep};
use disk_set::GroupSpan;
use meta_objset::StaleSpans;
use model_disk::{Disk, DiskArray};
use pool_core::{KnownDisks, RootContents};
use space_map_objects::Refusal;
use stale_disks::{disk_guids, spans_opened, stale_groups};
use std::alloc::{AllocError, Global};
use std::sync::Arc;
use uberblock_ring::Uberblock;
use vdev_label::Config;

/// A root, and what is known of the disks that it was read from.
#[derive(Drop)]
pub struct KnownRoot {
    pub contents: RootContents,
    /// Of each disk, from the first on, the groups that it missed, if any; disks behind the last one missed none.
    pub stale: Vec<Option<GroupSpan>>,
    pub disks: KnownDisks,
}

/// A root that was read, and the disks that it was read from.
#[derive(Drop)]
pub(crate) struct ReadKnown<D: Disk + Drop> {
    pub(crate) disks: DiskArray<D>,
    pub(crate) root: KnownRoot,
}

/// The spans of a table as a group is opened, and the groups that each disk missed.
#[derive(Drop)]
struct Missed {
    spans: StaleSpans,
    stale: Vec<Option<GroupSpan>>,
    again: Vec<Option<GroupSpan>>,
}

/// The spans of this table as the group is opened with these disks out, and the groups that each disk missed, twice.
fn groups_missed(
    alloc: Global,
    table: &StaleSpans,
    config: &Config,
    out: &[bool],
    group: u64,
) -> Result<Missed, AllocError>
    ensures spans { IfOk result (λ missed. AreSpansOpened (guids_in (config_view config.now))
        out.now group table.now missed.spans) }
    ensures stale { IfOk result (λ missed. missed.stale.items
        ≡ stale_groups missed.spans (guids_in (config_view config.now))) }
    ensures again { IfOk result (λ missed. missed.again.items ≡ missed.stale.items) }
{
    let guids = disk_guids(alloc, config)?;
    let spans = spans_opened(alloc, table, &guids, out, group)?;
    let stale = stale_groups(alloc, &spans, &guids)?;
    let again = Vec::from_slice(alloc, &stale)?;
    Ok(Missed {
        spans,
        stale,
        again,
    })
}

/// Whether a root was refused since bytes of it are wrong.
fn are_wrong(cause: Refusal) -> bool
    ensures { result ≡ are_wrong cause }
{
    matches!(cause, Refusal::Unread(block_store::Refusal::BadDigest))
}

/// What is told of a root that was refused for this cause with nothing known of groups that disks missed. Where bytes of it are
/// wrong while a disk is out, it lacks that disk: another one may have missed its group.
fn told_as(cause: Refusal, out: &[bool]) -> Refusal
    ensures { result ≡ told_as out.now cause }
{
    if are_wrong(cause) && is_any_out(out) {
        Refusal::Unread(block_store::Refusal::DiskFault)
    } else {
        cause
    }
}

/// Reads a root with nothing known of groups that disks missed.
fn read_first<D: Disk + Drop>(
    alloc: Global,
    disks: DiskArray<D>,
    shapes: &[VdevShape],
    out: &[bool],
    taken: &Uberblock,
) -> Result<ReadRoot<D>, (Refusal, DiskArray<D>)>
    ensures only { IfOk result (λ read. AreReadBeside out.now disks read.disks) }
    ensures contents { IfOk result (λ read. IsReadOfRoot disks read.disks shapes.now out.now []
        taken.now.group taken.now.root read.contents) }
    ensures refused { IfErr result (λ failed. IsNotReadAtOnce disks failed.1 shapes.now out.now
        taken.now.group taken.now.root (most_blocks shapes.now) failed.0) }
{
    let left = count_sectors(shapes);
    match read_root(alloc, disks, shapes, out, &taken.root, taken.group, left) {
        Ok(read) => Ok(read),
        Err((cause, disks)) => Err((told_as(cause, out), disks)),
    }
}

/// Reads the root of what is taken, with these disks out. Where its table says that disks missed groups, it is read once more, and then of
/// blocks that were born in these nothing is read of such a disk.
///
/// It is refused as `read_root` says, but `DiskFault` where bytes are wrong at the first read while a disk is out; and `BadDigest`
/// also where the table is another one as it is read once more. After an error the disks come back.
pub(crate) fn read_known<D: Disk + Drop>(
    alloc: Global,
    disks: DiskArray<D>,
    shapes: &[VdevShape],
    out: &[bool],
    taken: &Uberblock,
    config: &Arc<Config, Global>,
) -> Result<ReadKnown<D>, (Refusal, DiskArray<D>)>
    ensures only { IfOk result (λ known. AreReadBeside out.now disks known.disks) }
    ensures root { IfOk result (λ known. IsKnownRoot disks known.disks shapes.now out.now
        taken.now.group taken.now.root known.root.contents known.root.stale.items) }
    ensures config { IfOk result (λ known.
        known.root.disks.config.value ≡ config.now.value) }
    ensures known { IfOk result (λ known.
        IsKnownBy out.now taken.now.group known.root) }
    ensures refused { IfErr result (λ failed. IsRootNotKnown (guids_in (config_view
        config.now.value)) disks failed.1 shapes.now out.now
        taken.now.group taken.now.root (most_blocks shapes.now) failed.0) }
{
    writes_elsewhere_keep();
    let Ok(config) = Arc::try_clone(config) else {
        return Err((Refusal::NoMemory, disks));
    };
    let first = read_first(alloc, disks, shapes, out, taken)?;
    if first.contents.spans.rows().is_empty() {
        let spans = StaleSpans::new(alloc);
        return Ok(ReadKnown {
            disks: first.disks,
            root: KnownRoot {
                contents: first.contents,
                stale: Vec::new(alloc),
                disks: KnownDisks { config, spans },
            },
        });
    }
    read_again(alloc, first, shapes, out, taken, config)
}

/// Reads a root once more whose table has spans.
fn read_again<D: Disk + Drop>(
    alloc: Global,
    first: ReadRoot<D>,
    shapes: &[VdevShape],
    out: &[bool],
    taken: &Uberblock,
    config: Arc<Config, Global>,
) -> Result<ReadKnown<D>, (Refusal, DiskArray<D>)>
    ensures only { IfOk result (λ known. AreReadBeside out.now first.disks known.disks) }
    ensures root { IfOk result (λ known. IsReadOfRoot first.disks known.disks shapes.now
        out.now known.root.stale.items taken.now.group taken.now.root known.root.contents) }
    ensures config { IfOk result (λ known. known.root.disks.config.value ≡ config.value) }
    ensures known { IfOk result (λ known.
        IsKnownBy out.now taken.now.group known.root) }
    ensures refused { IfErr result (λ failed. AreReadBeside out.now first.disks failed.1
        × IsNotReadAgain (guids_in (config_view config.value)) first.disks failed.1
        shapes.now out.now taken.now.group taken.now.root (most_blocks shapes.now)
        first.contents failed.0) }
{
    let ReadRoot { disks, contents } = first;
    let Ok(it) = groups_missed(alloc, &contents.spans, config.as_ref(), out, taken.group) else {
        return Err((Refusal::NoMemory, disks));
    };
    let left = count_sectors(shapes);
    let read = read_stale(alloc, disks, shapes, out, it.again, taken, left)?;
    if read.contents.spans.rows() == contents.spans.rows() {
        return Ok(ReadKnown {
            disks: read.disks,
            root: KnownRoot {
                contents: read.contents,
                stale: it.stale,
                disks: KnownDisks {
                    config,
                    spans: it.spans,
                },
            },
        });
    }
    let refusal = Refusal::Unread(block_store::Refusal::BadDigest);
    Err((refusal, read.disks))
}
