//! Which label an open takes the configuration from.
ghost use Rattle.std.specs.Prelude.{◌≡◌, ◌↔◌, ◌⊎◌, ◌<◌, ◌≤◌, ℕ, length, IfOk, IfSome, IfNone, IsTrue};
ghost use Rattle.vdev_label.specs.Config.{FitsConfig};
ghost use Rattle.vdev_label.specs.Pairs.{state_number};
ghost use Rattle.vdev_label.specs.Plain.{config_view};
ghost use Rattle.pool_labels.specs.Choices.{AreSound, HasConfig, SourceIs};
ghost use Rattle.pool_labels.specs.Ranks.{AreRanks, IsLatest, IsLaterOf, IsLaterRank, IsRank, NoneAt, RankIs};

use crate::scanned::{Reading, ScannedLabel};
use std::alloc::{AllocError, Global};
use vdev_label::{Label, State};

/// How late a label is: by the claim, under one claim by the group, in one group by the state.
#[derive(Clone, Copy)]
pub(crate) struct Rank {
    pub claim: u64,
    pub group: u64,
    pub state: u64,
}

fn state_value(state: State) -> u64
    ensures { result ≡ state_number state }
{
    match state {
        State::Active => 0,
        State::Exported => 1,
    }
}

/// How late a label with the configuration of this digest is.
fn rank_of_label(
    alloc: Global,
    label: &Label,
    digest: &[u8; 32],
) -> Result<Option<Rank>, AllocError>
    requires sound { FitsConfig (config_view label.now.config) }
    ensures { IfOk result (IsRank digest.now label.now) }
{
    if label.config.digest(alloc)? != *digest {
        return Ok(None);
    }
    Ok(Some(Rank {
        claim: label.claim,
        group: label.group,
        state: state_value(label.state),
    }))
}

/// The same of what was read.
fn rank_of(
    alloc: Global,
    label: &ScannedLabel,
    digest: &[u8; 32],
) -> Result<Option<Rank>, AllocError>
    requires sound { HasConfig label.now.reading }
    ensures { IfOk result (RankIs digest.now label.now.reading) }
{
    match &label.reading {
        Reading::Valid(label) => rank_of_label(alloc, label, digest),
        Reading::Bad(_) | Reading::Unreadable => Ok(None),
    }
}

/// The same of each label.
fn ranks_of(
    alloc: Global,
    labels: &[ScannedLabel],
    digest: &[u8; 32],
) -> Result<Vec<Option<Rank>>, AllocError>
    requires sound { AreSound labels.now }
    ensures { IfOk result (λ ranks. AreRanks digest.now labels.now ranks.items) }
{
    let mut ranks = Vec::new(alloc);
    for label in labels {
        let rank = rank_of(alloc, label, digest)?;
        ranks.push(rank)?;
    }
    Ok(ranks)
}

fn is_later(first: &Rank, second: &Rank) -> bool
    ensures { IsTrue result ↔ IsLaterRank first.now second.now }
{
    first.claim > second.claim
        || (first.claim == second.claim && first.group > second.group)
        || (first.claim == second.claim
            && first.group == second.group
            && first.state > second.state)
}

/// The second, if the first is none or not as late.
fn later(best: Option<(usize, Rank)>, next: (usize, Rank)) -> (usize, Rank)
    ensures { IsLaterOf best next result }
{
    match best {
        Some(found) if !is_later(&next.1, &found.1) => found,
        _ => next,
    }
}

/// The latest, the first of several.
fn latest(ranks: &[Option<Rank>]) -> Option<usize>
    ensures some { IfSome result (IsLatest ranks.now) }
    ensures none { IfNone result (NoneAt ranks.now) }
{
    let mut best: Option<(usize, Rank)> = None;
    for i in 0..ranks.len() {
        if let Some(rank) = ranks[i] {
            best = Some(later(best, (i, rank)));
        }
    }
    let (i, _) = best?;
    Some(i)
}

/// The latest of the valid labels with the configuration of this digest, the first of several.
pub(crate) fn source(
    alloc: Global,
    labels: &[ScannedLabel],
    digest: &[u8; 32],
) -> Result<Option<usize>, AllocError>
    requires sound { AreSound labels.now }
    ensures { IfOk result (SourceIs labels.now digest.now) }
{
    let ranks = ranks_of(alloc, labels, digest)?;
    Ok(latest(&ranks))
}
