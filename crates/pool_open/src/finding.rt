//! Finding a pool on disks that are handed in, in any order.
ghost use Rattle.std.specs.Prelude.{◌≡◌, ◌≤◌, ◌*◌, length, All, IfErr, IfOk};
ghost use Rattle.pool_labels.specs.Choices.{HasLabelAt, IsValidAt};
ghost use Rattle.pool_labels.specs.Scans.{MakesAtMost, anywhere, has_allowed_size};
ghost use Rattle.pool_labels.specs.declared.scanned.ScannedLabel.{ScannedLabel};
ghost use Rattle.pool_open.specs.Finding.{FindRefuses, IsFoundOn, IsLaidOut, IsLayoutOf, LayoutRefuses, identity_of};
ghost use Rattle.pool_slots.specs.Reads.{OnlyReads};
ghost use Rattle.vdev_label.specs.Limits.{IsAllowedVdev};
ghost use Rattle.vdev_label.specs.Plain.{config_view};

use crate::children::children_of;
use crate::shapes::shapes_of;
use block_store::VdevShape;
use model_disk::{Disk, DiskArray, Member};
use pool_format::PoolIdentity;
use pool_labels::{Choice, Reading, Refusal, Scan, ScannedLabel, choose, scan};
use pool_members::{Arranged, Child, HandedIn, arrange};
use std::alloc::{AllocError, Global};
use std::sync::Arc;
use uberblock_ring::Uberblock;
use vdev_label::{Config, Label};

/// A pool that was found on disks. Nothing was written yet.
#[derive(Drop)]
pub struct FoundPool<D: Disk + Drop> {
    /// The disks of its children, in order, and what stands for those that are absent.
    pub disks: Vec<Member<D>>,
    /// Where each disk is that was handed in, so that all of them come back.
    pub handed: HandedIn<D>,
    /// Which of them are absent.
    pub out: Vec<bool>,
    pub shapes: Vec<VdevShape>,
    /// The configuration that the chosen label has.
    pub config: Arc<Config, Global>,
    /// The name and the guid that it has.
    pub identity: PoolIdentity,
    /// The greatest uberblock on the disks, and the one that is to be claimed.
    pub highest: Uberblock,
    pub taken: Uberblock,
}

/// Which children a pool has, in order, how its vdevs take them, and what it is known by.
#[derive(Drop)]
pub(crate) struct Layout {
    pub(crate) children: Vec<Child>,
    pub(crate) shapes: Vec<VdevShape>,
    pub(crate) config: Arc<Config, Global>,
    pub(crate) identity: PoolIdentity,
    pub(crate) highest: Uberblock,
    pub(crate) taken: Uberblock,
}

/// Takes the label at that place, which is valid.
fn label_at(labels: Vec<ScannedLabel>, i: usize) -> Label
    requires valid { HasLabelAt labels.items i }
    ensures { (s : ScannedLabel) × IsValidAt labels.items i s result }
{
    let mut labels = labels;
    match labels.swap_remove(i).reading {
        Reading::Valid(label) => label,
        Reading::Bad(_) | Reading::Unreadable => unreachable!(),
    }
}

/// The layout of a pool with this label's configuration.
fn layout_of(alloc: Global, label: Label, choice: &Choice) -> Result<Layout, AllocError>
    requires count { length choice.now.members.items ≡ length (config_view label.config) }
    requires few { length (config_view label.config) ≤ 8 }
    requires allowed { All IsAllowedVdev (config_view label.config) }
    ensures laid_out { IfOk result (IsLaidOut (config_view label.config) choice.now) }
    ensures identity { IfOk result (λ layout. layout.identity ≡ identity_of label) }
{
    let Label {
        name,
        pool_guid,
        config,
        ..
    } = label;
    Ok(Layout {
        children: children_of(alloc, &config, &choice.members)?,
        shapes: shapes_of(alloc, &config)?,
        config: Arc::new(alloc, config)?,
        identity: PoolIdentity {
            name,
            guid: pool_guid,
        },
        highest: choice.highest,
        taken: choice.taken,
    })
}

/// Reads the disks, and lays out the pool that they show.
fn lay_out<D: Disk + Drop>(
    alloc: Global,
    disks: &mut DiskArray<D>,
    rewind: u64,
) -> Result<Layout, Refusal>
    ensures only { OnlyReads (has_allowed_size disks.old) anywhere disks.old disks.new }
    ensures few { MakesAtMost (516 * length disks.old.starts) disks.old disks.new }
    ensures laid_out { IfOk result (IsLayoutOf disks.old disks.new rewind) }
    ensures refused { IfErr result (LayoutRefuses disks.old disks.new rewind) }
{
    let found = scan(alloc, disks)?;
    let choice = choose(alloc, &found, rewind)?;
    let label = label_at(found.labels, choice.source);
    let layout = layout_of(alloc, label, &choice)?;
    Ok(layout)
}

/// Finds a pool on disks that are handed in, in any order: reads their labels and slots, takes the greatest uberblock that
/// they show, or where it goes back (`rewind`, 1 or 2) the one that is so many groups less, and puts the disks in the order of
/// its configuration. Nothing is written. Disks that are none of its children are kept as they are.
///
/// The refusals are those of `pool_labels::choose`, in their order (this project's profile). Then the disks come back, as they were handed
/// in.
pub fn find<D: Disk + Drop>(
    alloc: Global,
    disks: Vec<D>,
    rewind: u64,
) -> Result<FoundPool<D>, (Refusal, Vec<D>)>
    ensures found { IfOk result (λ pool. IsFoundOn D.Disk disks.items rewind pool.disks.items
        pool.out.items pool.shapes.items pool.config.value pool.highest pool.taken pool.handed
        pool.identity) }
    ensures refused { IfErr result (λ failed.
        FindRefuses D.Disk disks.items rewind failed.1.items failed.0) }
{
    let mut array = DiskArray::new(disks);
    let layout = match lay_out(alloc, &mut array, rewind) {
        Ok(layout) => layout,
        Err(refusal) => return Err((refusal, array.into_disks())),
    };
    let Layout {
        children,
        shapes,
        config,
        identity,
        highest,
        taken,
    } = layout;
    match arrange(alloc, array.into_disks(), &children) {
        Ok(Arranged { disks, out, handed }) => Ok(FoundPool {
            disks,
            handed,
            out,
            shapes,
            config,
            identity,
            highest,
            taken,
        }),
        Err((pool_members::Refusal::NoMemory, disks)) => Err((Refusal::NoMemory, disks)),
        // A disk has one guid, and so is one child.
        Err((pool_members::Refusal::NotEachOnce, _)) => unreachable!(),
    }
}
