//! What a claim is to write: the claimed uberblock, and the areas of the labels.
ghost use Rattle.std.specs.Prelude.{◌≡◌, ◌≤◌, ◌<◌, length, IfNone, IfSome};
ghost use Rattle.model_disk.specs.Joint.{bytes_of};
ghost use Rattle.uberblock_ring.specs.Uberblock.{Fits};
ghost use Rattle.pool_slots.specs.LabelReads.{AreSmall, HasLabeled, IsDonor, IsGiven, IsGreater, IsGreatestIn, MakesArea, MakesAreaIfRead, MakesAreas, MakesLabel, NoDonor, PlansClaim, ReadsAgain, is_either};
ghost use Rattle.pool_slots.specs.Reads.{IsFaultOf, OnlyReads};
ghost use Rattle.pool_slots.specs.Slots.{HaveLabels, InUse, is_disk};

use crate::label_scan::read_labels;
use crate::labeled::{Area, Donor, Labeled};
use crate::refusal::{Refusal, label_unread};
use model_disk::{Disk, DiskArray};
use std::alloc::Global;
use uberblock_ring::Uberblock;
use vdev_label::{Label, State, encode_area, read_label};
use words::LAST_COUNT;

/// What a claim writes.
#[derive(Drop)]
pub(crate) struct Plan {
    pub claimed: Uberblock,
    pub areas: Vec<Option<Area>>,
}

/// A label of a disk that was read before.
fn read_again<D: Disk + Drop>(
    alloc: Global,
    disks: &mut DiskArray<D>,
    which: usize,
    number: u64,
) -> Result<Label, Refusal>
    requires which { which < length disks.old.starts }
    requires number { number < 4 }
    requires room { 1048576 ≤ length (bytes_of disks.old.starts which) }
    ensures only { OnlyReads (is_disk which) (IsFaultOf result) disks.old disks.new }
    ensures reads { ReadsAgain disks.old disks.new which number result }
{
    match read_label(alloc, disks, which, number) {
        Ok(label) => Ok(label),
        Err(cause) => Err(label_unread(which, cause)),
    }
}

/// The label that is written anew on a disk: its own, or where that has another configuration the
/// donor's, with the numbers of the disk and of its vdev from its own.
fn new_label<D: Disk + Drop>(
    alloc: Global,
    disks: &mut DiskArray<D>,
    which: usize,
    labeled: &Labeled,
    donor: Donor,
    digest: &[u8; 32],
) -> Result<Label, Refusal>
    requires which { which < length disks.old.starts }
    requires there { donor.disk < length disks.old.starts }
    requires labels { HaveLabels disks.old.starts }
    requires source { labeled.now.source < 4 }
    requires small { donor.label < 4 }
    ensures only { OnlyReads (is_either which donor.disk) (IsFaultOf result) disks.old disks.new }
    ensures label { MakesLabel labeled.now donor digest.now disks.old disks.new which result }
{
    let own = read_again(alloc, disks, which, labeled.source)?;
    if labeled.config_digest == *digest {
        return Ok(own);
    }
    let given = read_again(alloc, disks, donor.disk, donor.label)?;
    Ok(Label {
        guid: own.guid,
        top_guid: own.top_guid,
        ..given
    })
}

/// The area of a disk's labels for a claimed uberblock: that of the label that is written anew, with its
/// claim and group.
fn area_of<D: Disk + Drop>(
    alloc: Global,
    disks: &mut DiskArray<D>,
    which: usize,
    labeled: &Labeled,
    donor: Donor,
    uberblock: &Uberblock,
) -> Result<Area, Refusal>
    requires which { which < length disks.old.starts }
    requires there { donor.disk < length disks.old.starts }
    requires labels { HaveLabels disks.old.starts }
    requires first { labeled.now.first < 4 }
    requires source { labeled.now.source < 4 }
    requires small { donor.label < 4 }
    requires fits { Fits uberblock.now }
    ensures only { OnlyReads (is_either which donor.disk) (IsFaultOf result) disks.old disks.new }
    ensures area { MakesArea labeled.now donor uberblock.now disks.old disks.new which result }
{
    let label = new_label(
        alloc,
        disks,
        which,
        labeled,
        donor,
        &uberblock.config_digest,
    )?;
    let label = Label {
        claim: uberblock.claim,
        group: uberblock.group,
        state: State::Active,
        ..label
    };
    let bytes = encode_area(alloc, &label)?;
    Ok(Area {
        first: labeled.first,
        bytes,
    })
}

/// The same of a disk of which something was read; nothing of another.
fn area_if_read<D: Disk + Drop>(
    alloc: Global,
    disks: &mut DiskArray<D>,
    labels: &[Option<Labeled>],
    which: usize,
    donor: Donor,
    uberblock: &Uberblock,
) -> Result<Option<Area>, Refusal>
    requires which { which < length disks.old.starts }
    requires count { length labels.now ≡ length disks.old.starts }
    requires small { AreSmall labels.now }
    requires given { IsGiven labels.now donor }
    requires room { HaveLabels disks.old.starts }
    requires fits { Fits uberblock.now }
    ensures only { OnlyReads (HasLabeled labels.now) (IsFaultOf result) disks.old disks.new }
    ensures area { MakesAreaIfRead
        labels.now donor uberblock.now disks.old disks.new which result }
{
    match labels[which] {
        Some(labeled) => {
            let area = area_of(alloc, disks, which, &labeled, donor, uberblock)?;
            Ok(Some(area))
        }
        None => Ok(None),
    }
}

/// The areas of all disks of which something was read.
fn areas_of<D: Disk + Drop>(
    alloc: Global,
    disks: &mut DiskArray<D>,
    labels: &[Option<Labeled>],
    donor: Donor,
    uberblock: &Uberblock,
) -> Result<Vec<Option<Area>>, Refusal>
    requires count { length labels.now ≡ length disks.old.starts }
    requires small { AreSmall labels.now }
    requires given { IsGiven labels.now donor }
    requires room { HaveLabels disks.old.starts }
    requires fits { Fits uberblock.now }
    ensures only { OnlyReads (HasLabeled labels.now) (IsFaultOf result) disks.old disks.new }
    ensures areas { MakesAreas labels.now donor uberblock.now disks.old disks.new result }
{
    let mut all = Vec::new(alloc);
    for which in 0..disks.len() {
        let area = area_if_read(alloc, disks, labels, which, donor, uberblock)?;
        all.push(area)?;
    }
    Ok(all)
}

/// The lowest disk that has the configuration in a label, and that label.
fn donor_of(labels: &[Option<Labeled>], digest: &[u8; 32]) -> Option<Donor>
    ensures some { IfSome result (IsDonor labels.now digest.now) }
    ensures none { IfNone result (NoDonor labels.now digest.now) }
{
    for which in 0..labels.len() {
        if let Some(it) = labels[which] {
            if it.config_digest == *digest {
                return Some(Donor {
                    disk: which,
                    label: it.source,
                });
            }
        }
    }
    None
}

/// The greater of a claim and what labels show, if they were read.
fn greater(claim: u64, labeled: Option<Labeled>) -> u64
    ensures { IsGreater claim labeled result }
{
    match labeled {
        Some(it) if it.claim > claim => it.claim,
        _ => claim,
    }
}

/// The greatest of a claim and those that labels show.
fn greatest_of(labels: &[Option<Labeled>], least: u64) -> u64
    ensures { IsGreatestIn labels.now least (length labels.now) result }
{
    let mut greatest = least;
    for which in 0..labels.len() {
        greatest = greater(greatest, labels[which]);
    }
    greatest
}

/// The taken uberblock under the next claim, and the areas of the labels for it. `NoLabel` where no disk has
/// its configuration in a label, or some disk has no label.
pub(crate) fn plan_claim<D: Disk + Drop>(
    alloc: Global,
    disks: &mut DiskArray<D>,
    out: &[bool],
    taken: &Uberblock,
    highest: &Uberblock,
) -> Result<Plan, Refusal>
    requires out { length out.now ≡ length disks.old.starts }
    requires labels { HaveLabels disks.old.starts }
    requires fits { Fits taken.now }
    ensures only { OnlyReads (InUse out.now) (IsFaultOf result) disks.old disks.new }
    ensures plans { PlansClaim out.now taken.now highest.now disks.old disks.new result }
{
    let labels = read_labels(alloc, disks, out, &taken.config_digest)?;
    let Some(donor) = donor_of(&labels, &taken.config_digest) else {
        return Err(Refusal::NoLabel);
    };
    let greatest = greatest_of(&labels, highest.claim);
    if greatest >= LAST_COUNT {
        return Err(Refusal::UsedUp);
    }
    let claimed = Uberblock {
        claim: greatest + 1,
        ..*taken
    };
    let areas = areas_of(alloc, disks, &labels, donor, &claimed)?;
    Ok(Plan { claimed, areas })
}
