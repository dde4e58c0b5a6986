//! Which pool the scanned disks are.
ghost use Rattle.std.specs.Prelude.{◌↔◌, ◌<◌, ℕ, length, IfErr, IfOk, IfSome, IfNone, IsTrue};
ghost use Rattle.uberblock_ring.specs.Ranking.{Has, IsRewound};
ghost use Rattle.uberblock_ring.specs.declared.uberblock.Uberblock.{Uberblock};
ghost use Rattle.vdev_label.specs.Plain.{config_view};
ghost use Rattle.pool_labels.specs.Choices.{AreSound, ChoiceRefuses, FindingRefuses, HasEnough, HasFitSource, HasLabelAt, HasLastClaim, HasNoUberblock, HaveLastClaim, IsChoice, IsFit, IsFound, IsGreatest, IsTaken, IsUsedUp, IsValidAt, MembersRefuse, SourceRefuses};
ghost use Rattle.pool_labels.specs.declared.scanned.ScannedLabel.{ScannedLabel};

use crate::choice::Choice;
use crate::consistency::{all_agree, first_bad, has_valid};
use crate::members::{all_members, are_enough};
use crate::refusal::Refusal;
use crate::scanned::{Reading, Scan, ScannedLabel};
use crate::sources::source;
use std::alloc::{AllocError, Global};
use uberblock_ring::{Uberblock, highest, rewound};
use vdev_label::Label;
use words::LAST_COUNT;

/// The greatest uberblock that the slots show.
fn greatest(slots: &[Option<Uberblock>]) -> Option<Uberblock>
    ensures some { IfSome result (IsGreatest slots.now) }
    ensures none { IfNone result ((i : ℕ) (u : Uberblock) → ¬ Has slots.now i u) }
{
    let i = highest(slots)?;
    slots[i]
}

/// The one that is taken, where this is the greatest.
fn taken_from(slots: &[Option<Uberblock>], highest: &Uberblock, rewind: u64) -> Option<Uberblock>
    requires top { IsGreatest slots.now highest.now }
    ensures some { IfSome result (IsTaken slots.now rewind highest.now) }
    ensures none { IfNone result ((i : ℕ) (v : Uberblock) → Has slots.now i v
        → ¬ IsRewound highest.now rewind v) }
{
    if rewind == 0 {
        return Some(*highest);
    }
    rewound(slots, highest, rewind)
}

fn has_last_claim(label: &ScannedLabel) -> bool
    ensures { IsTrue result ↔ HasLastClaim label.now.reading }
{
    match &label.reading {
        Reading::Valid(label) => label.claim >= LAST_COUNT,
        Reading::Bad(_) | Reading::Unreadable => false,
    }
}

/// Whether a valid label has the last claim that there is.
fn have_last_claim(labels: &[ScannedLabel]) -> bool
    ensures { IsTrue result ↔ HaveLastClaim labels.now }
{
    for label in labels {
        if has_last_claim(label) {
            return true;
        }
    }
    false
}

/// Whether no group or claim is left after it, where this is the greatest.
fn is_used_up(scan: &Scan, highest: &Uberblock, taken: &Uberblock) -> bool
    requires top { IsGreatest scan.now.slots.items highest.now }
    ensures { IsTrue result ↔ IsUsedUp scan.now taken.now }
{
    taken.group >= LAST_COUNT || highest.claim >= LAST_COUNT || have_last_claim(&scan.labels)
}

/// The greatest uberblock, and the one that is taken, if there is one and it isn't used up.
fn taken_in(scan: &Scan, rewind: u64) -> Option<(Uberblock, Uberblock)>
    ensures some { IfSome result (λ it. IsTaken scan.now.slots.items rewind it.0 it.1) }
    ensures left { IfSome result (λ it. ¬ IsUsedUp scan.now it.1) }
    ensures none { IfNone result (HasNoUberblock scan.now rewind) }
{
    let highest = greatest(&scan.slots)?;
    let taken = taken_from(&scan.slots, &highest, rewind)?;
    if is_used_up(scan, &highest, &taken) {
        return None;
    }
    Some((highest, taken))
}

/// The same, of the disks of one pool.
fn found_in(scan: &Scan, rewind: u64) -> Result<(Uberblock, Uberblock), Refusal>
    ensures found { IfOk result (λ it. IsFound scan.now rewind it.0 it.1) }
    ensures refused { IfErr result (FindingRefuses scan.now rewind) }
{
    if !has_valid(&scan.labels) {
        return Err(Refusal::BadLabel(first_bad(&scan.labels)));
    }
    if !all_agree(&scan.labels) {
        return Err(Refusal::PoolMismatch);
    }
    match taken_in(scan, rewind) {
        Some(it) => Ok(it),
        None => Err(Refusal::NoUberblock),
    }
}

/// Whether a label's configuration is within the limits and has the uberblock's sum of guids.
fn is_fit(alloc: Global, label: &Label, taken: &Uberblock) -> Result<bool, AllocError>
    ensures { IfOk result (λ fit. IsTrue fit ↔ IsFit label.now taken.now) }
{
    let allowed = label.config.is_allowed(alloc, label.pool_guid)?;
    Ok(allowed && label.config.guid_sum() == taken.guid_sum)
}

/// The label at that place, which is valid.
fn label_at(labels: &[ScannedLabel], i: usize) -> &Label
    requires i { i < length labels.now }
    requires valid { HasLabelAt labels.now i }
    ensures { (s : ScannedLabel) × IsValidAt labels.now i s result.now }
{
    match &labels[i].reading {
        Reading::Valid(label) => label,
        Reading::Bad(_) | Reading::Unreadable => unreachable!(),
    }
}

/// The label that has the configuration of the uberblock that is taken.
fn source_of(alloc: Global, scan: &Scan, taken: &Uberblock) -> Result<usize, Refusal>
    requires sound { AreSound scan.now.labels.items }
    ensures found { IfOk result (HasFitSource scan.now.labels.items taken.now) }
    ensures refused { IfErr result (SourceRefuses scan.now.labels.items taken.now) }
{
    let Some(i) = source(alloc, &scan.labels, &taken.config_digest)? else {
        return Err(Refusal::BadConfig);
    };
    if is_fit(alloc, label_at(&scan.labels, i), taken)? {
        Ok(i)
    } else {
        Err(Refusal::BadConfig)
    }
}

/// The disks of the configuration's children, where there are enough of them.
fn members_of(alloc: Global, scan: &Scan, label: &Label) -> Result<Vec<Vec<Option<usize>>>, Refusal>
    ensures found { IfOk result (HasEnough scan.now (config_view label.now.config)) }
    ensures refused { IfErr result (MembersRefuse scan.now (config_view label.now.config)) }
{
    let vdevs = &label.config.vdevs;
    let all = all_members(alloc, scan, vdevs)?;
    if are_enough(vdevs, &all) {
        Ok(all)
    } else {
        Err(Refusal::TooManyMissing)
    }
}

/// Chooses what an open takes from the disks that were scanned: the greatest uberblock by claim and group,
/// or where it goes back (`rewind`, 1 or 2) the one of the same claim that is so many groups less; the latest
/// valid label with the configuration that it names; and for each child the disk of its guid, where it is
/// present: no read of it failed, and it has the child's sectors.
///
/// Refused is, by the first that holds: `BadLabel`, where no label is valid; `PoolMismatch`, where valid
/// labels have two pool guids, or two guids on one disk, or one guid on two disks; `NoUberblock`, where no
/// slot is to be taken, or no group or claim is left after it; `BadConfig`, where no valid label has its
/// configuration, or that breaks a limit or has another sum of guids; `TooManyMissing`, where more
/// children of a vdev are absent than it has parities (this project's profile).
pub fn choose(alloc: Global, scan: &Scan, rewind: u64) -> Result<Choice, Refusal>
    requires sound { AreSound scan.now.labels.items }
    ensures chosen { IfOk result (IsChoice scan.now rewind) }
    ensures refused { IfErr result (ChoiceRefuses scan.now rewind) }
{
    let (highest, taken) = found_in(scan, rewind)?;
    let source = source_of(alloc, scan, &taken)?;
    let members = members_of(alloc, scan, label_at(&scan.labels, source))?;
    Ok(Choice {
        highest,
        taken,
        source,
        members,
    })
}
