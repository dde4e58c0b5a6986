ghost use Rattle.std.specs.Prelude.{◌≡◌, ◌↔◌, ◌⊎◌, ℕ, All, Contains, IsNone, IfSome, IfNone, IsTrue, Some, []};
ghost use Rattle.uberblock_ring.specs.declared.uberblock.Uberblock.{Uberblock};
ghost use Rattle.uberblock_ring.specs.Ranking.{RanksUpTo, Has, IsHighest, IsRewound};

use crate::uberblock::Uberblock;

fn ranks_up_to(first: &Uberblock, second: &Uberblock) -> bool
    ensures { IsTrue result ↔ RanksUpTo first.now second.now }
{
    first.claim < second.claim || (first.claim == second.claim && first.group <= second.group)
}

/// The uberblock with the greatest claim, and among those the one with the greatest group.
pub fn best(uberblocks: &[Uberblock]) -> Option<Uberblock>
    ensures none { IsNone result ↔ (uberblocks.now ≡ []) }
    ensures one { IfSome result (Contains uberblocks.now) }
    ensures greatest { IfSome result (λ best. All (λ u. RanksUpTo u best) uberblocks.now) }
{
    let mut best = *uberblocks.first()?;
    for u in uberblocks {
        if ranks_up_to(&best, u) {
            best = *u;
        }
    }
    Some(best)
}

/// Which of the slots has the uberblock with the greatest claim, and under it the greatest group.
pub fn highest(slots: &[Option<Uberblock>]) -> Option<usize>
    ensures some { IfSome result (IsHighest slots.now) }
    ensures none { IfNone result ((i : ℕ) (u : Uberblock) → ¬ Has slots.now i u) }
{
    let mut best: Option<(usize, Uberblock)> = None;
    for i in 0..slots.len() {
        if let Some(u) = slots[i] {
            best = Some(higher(best, (i, u)));
        }
    }
    let (i, _) = best?;
    Some(i)
}

/// What a pool that goes back takes: the uberblock of the same claim as another, and so many groups
/// less.
pub fn rewound(slots: &[Option<Uberblock>], from: &Uberblock, groups: u64) -> Option<Uberblock>
    ensures some { IfSome result (IsRewound from.now groups) }
    ensures there { IfSome result (λ u. (i : ℕ) × Has slots.now i u) }
    ensures none { IfNone result ((i : ℕ) (u : Uberblock) → Has slots.now i u
        → ¬ IsRewound from.now groups u) }
{
    for i in 0..slots.len() {
        if let Some(u) = slots[i] {
            if is_rewound(from, groups, &u) {
                return Some(u);
            }
        }
    }
    None
}

fn is_rewound(from: &Uberblock, groups: u64, u: &Uberblock) -> bool
    ensures { IsTrue result ↔ IsRewound from.now groups u.now }
{
    u.claim == from.claim && u.group <= from.group && from.group - u.group == groups
}

/// The second, if the first is none or ranks no higher.
fn higher(best: Option<(usize, Uberblock)>, next: (usize, Uberblock)) -> (usize, Uberblock)
    ensures one { (result ≡ next) ⊎ (best ≡ Some result) }
    ensures next { RanksUpTo next.1 result.1 }
    ensures best { IfSome best (λ found. RanksUpTo found.1 result.1) }
{
    match best {
        Some(found) if !ranks_up_to(&found.1, &next.1) => found,
        _ => next,
    }
}
