//! Which label of a disk is written anew, and which one a claim writes first.
ghost use Rattle.std.specs.Prelude.{◌≡◌, ◌↔◌, ◌<◌, ℕ, length, get_or, None, IfSome, IfNone, IsTrue};
ghost use Rattle.pool_slots.specs.Shown.{At, HasBeside, IsBetter, IsBlank, IsClaimLabel, IsFirstLeast, IsGreatestOf, IsLowest, IsLabeledOf, IsSource, IsSpare, IsSummary, NoneHas, claim_of, has_claim, has_config};
ghost use Rattle.pool_slots.specs.declared.labeled.Shown.{Shown};

use crate::labeled::{Labeled, Shown};

/// Whether another label shows this claim.
fn has_claim_beside(shown: &[Option<Shown>], number: usize, claim: u64) -> bool
    ensures { IsTrue result ↔ HasBeside shown.now number (has_claim claim) }
{
    for other in 0..shown.len() {
        if let Some(it) = shown[other] {
            if other != number && it.claim == claim {
                return true;
            }
        }
    }
    false
}

/// Whether another label shows this configuration.
fn has_config_beside(shown: &[Option<Shown>], number: usize, digest: &[u8; 32]) -> bool
    ensures { IsTrue result ↔ HasBeside shown.now number (has_config digest.now) }
{
    for other in 0..shown.len() {
        if let Some(it) = shown[other] {
            if other != number && it.config_digest == *digest {
                return true;
            }
        }
    }
    false
}

/// Whether the others do without this label.
fn is_spare(shown: &[Option<Shown>], number: usize, claim: u64) -> bool
    requires number { number < length shown.now }
    ensures { IsTrue result ↔ IsSpare shown.now claim number }
{
    match shown[number] {
        Some(it) => {
            has_claim_beside(shown, number, claim)
                && has_config_beside(shown, number, &it.config_digest)
        }
        None => false,
    }
}

/// The lowest label that shows nothing.
fn first_blank(shown: &[Option<Shown>]) -> Option<usize>
    ensures some { IfSome result (IsLowest (IsBlank shown.now)) }
    ensures none { IfNone result ((k : ℕ) → ¬ IsBlank shown.now k) }
{
    for number in 0..shown.len() {
        if shown[number].is_none() {
            return Some(number);
        }
    }
    None
}

/// The lowest label that the others do without.
fn first_spare(shown: &[Option<Shown>], claim: u64) -> Option<usize>
    ensures some { IfSome result (IsLowest (IsSpare shown.now claim)) }
    ensures none { IfNone result ((k : ℕ) → ¬ IsSpare shown.now claim k) }
{
    for number in 0..shown.len() {
        if is_spare(shown, number, claim) {
            return Some(number);
        }
    }
    None
}

/// The claim that a label shows, or 0.
fn claim_at(shown: &[Option<Shown>], number: usize) -> u64
    requires number { number < length shown.now }
    ensures { result ≡ claim_of (get_or shown.now number None) }
{
    match shown[number] {
        Some(it) => it.claim,
        None => 0,
    }
}

/// The lowest label with the least claim, where none shows nothing.
fn first_least(shown: &[Option<Shown>]) -> usize
    requires some { 0 < length shown.now }
    ensures within { result < length shown.now }
    ensures least { IsFirstLeast shown.now (length shown.now) result }
{
    let mut least = 0;
    for number in 0..shown.len() {
        if claim_at(shown, number) < claim_at(shown, least) {
            least = number;
        }
    }
    least
}

/// The greatest claim that a label shows; 0 where none does.
fn greatest_claim(shown: &[Option<Shown>]) -> u64
    ensures { IsGreatestOf shown.now (length shown.now) result }
{
    let mut greatest = 0;
    for number in 0..shown.len() {
        if claim_at(shown, number) > greatest {
            greatest = claim_at(shown, number);
        }
    }
    greatest
}

/// Whether a label has this configuration, and a greater claim than the best one so far.
fn is_better(best: Option<(usize, u64)>, it: &Shown, digest: &[u8; 32]) -> bool
    ensures { IsTrue result ↔ IsBetter best digest.now it.now }
{
    match best {
        Some((_, claim)) => it.config_digest == *digest && claim < it.claim,
        None => it.config_digest == *digest,
    }
}

/// The label with the greatest claim of those with this configuration; the lowest of several.
fn source_of(shown: &[Option<Shown>], digest: &[u8; 32]) -> Option<usize>
    ensures some { IfSome result (IsSource shown.now digest.now) }
    ensures none { IfNone result ((k : ℕ) (s : Shown) → At shown.now k s
        → ¬ has_config digest.now s) }
{
    let mut best: Option<(usize, u64)> = None;
    for number in 0..shown.len() {
        if let Some(it) = shown[number] {
            if is_better(best, &it, digest) {
                best = Some((number, it.claim));
            }
        }
    }
    let (number, _) = best?;
    Some(number)
}

/// A disk's claim label.
fn claim_label(shown: &[Option<Shown>], claim: u64) -> usize
    requires some { 0 < length shown.now }
    ensures within { result < length shown.now }
    ensures chosen { IsClaimLabel shown.now claim result }
{
    if let Some(number) = first_blank(shown) {
        return number;
    }
    if let Some(number) = first_spare(shown, claim) {
        return number;
    }
    first_least(shown)
}

/// What a claim takes from what four labels show, of those with one configuration. `None` where none of them shows it.
fn summary(shown: &[Option<Shown>], digest: &[u8; 32]) -> Option<Labeled>
    requires four { length shown.now ≡ 4 }
    ensures some { IfSome result (IsSummary shown.now) }
    ensures config { IfSome result (λ it. it.config_digest ≡ digest.now) }
    ensures none { IfNone result (NoneHas shown.now digest.now) }
{
    let source = source_of(shown, digest)?;
    let claim = greatest_claim(shown);
    Some(Labeled {
        claim,
        config_digest: *digest,
        source: source as u64,
        first: claim_label(shown, claim) as u64,
    })
}

/// What the lowest label shows that shows something.
fn first_shown(shown: &[Option<Shown>]) -> Option<Shown>
    ensures some { IfSome result (λ s. (k : ℕ) × At shown.now k s) }
    ensures none { IfNone result ((k : ℕ) (s : Shown) → ¬ At shown.now k s) }
{
    for number in 0..shown.len() {
        if let Some(it) = shown[number] {
            return Some(it);
        }
    }
    None
}

/// What a claim takes from what four labels show: of those with this configuration, or where none has it of those with
/// the configuration of the lowest label that shows something. `None` where none shows anything.
pub(crate) fn labeled_of(shown: &[Option<Shown>], digest: &[u8; 32]) -> Option<Labeled>
    requires four { length shown.now ≡ 4 }
    ensures some { IfSome result (IsLabeledOf shown.now digest.now) }
    ensures none { IfNone result ((k : ℕ) (s : Shown) → ¬ At shown.now k s) }
{
    match summary(shown, digest) {
        Some(labeled) => Some(labeled),
        None => {
            let other = first_shown(shown)?;
            summary(shown, &other.config_digest)
        }
    }
}
