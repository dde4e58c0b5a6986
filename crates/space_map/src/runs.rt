//! Changes of a list of runs that ascend, with one sector at least between two of them.
ghost use Rattle.std.specs.Prelude.{◌≡◌, ℕ, ◌+◌, ◌^◌, ◌<◌, ◌≤◌, [], ◌∷◌, ◌++◌, true, false, length, take, drop, vec_len, IsTrue, OnOk, OnErr, IfOk, IfErr, IfSome, IfNone, IsErrOf};
ghost use Rattle.std.specs.List.{AllWithin};
ghost use Rattle.std.specs.List.Sorted.{IsNonDecreasingBy};
ghost use Rattle.space_map.specs.Sectors.{names, contains, changed, AreBetween, HasRun};
ghost use Rattle.space_map.specs.Pieces.{not_empty};
ghost use Rattle.space_map.specs.Sides.{IsLeft, IsRight};

use crate::entry::Run;
use crate::refusal::Refusal;
use std::alloc::AllocError;

/// How many of the runs start at or before a sector.
fn count_up_to(runs: &[Run], sector: u64) -> usize
    requires { IsNonDecreasingBy (λ (r : Run). r.start) runs.now }
    ensures len { result ≤ length runs.now }
    ensures front { AllWithin (λ (r : Run). r.start ≤ sector) runs.now 0 result }
    ensures back { AllWithin (λ (r : Run). sector < r.start) runs.now result (length runs.now) }
{
    runs.partition_point(|run| run.start <= sector)
}

/// The front of the first run that has so many sectors.
pub(crate) fn first_fit(runs: &[Run], sectors: u64) -> Option<Run>
    requires { 0 < sectors }
    ensures len { IfSome result (λ run. run.len ≡ sectors) }
    ensures free { IfSome result
        (λ run. (s : ℕ) → IsTrue (names run s) → contains runs.now s ≡ true) }
    ensures within { IfSome result
        (λ run. (to : ℕ) → AreBetween 0 (to + 1) runs.now → run.start + run.len ≤ to) }
    ensures none { IfNone result
        ((to : ℕ) → AreBetween 0 to runs.now → ¬ HasRun (contains runs.now) sectors) }
{
    for run in runs {
        if run.len >= sectors {
            return Some(Run {
                start: run.start,
                len: sectors,
            });
        }
    }
    None
}

/// Puts those of two runs that have sectors in the place of one.
fn put_pieces(runs: &mut Vec<Run>, index: usize, left: Run, right: Run) -> Result<(), AllocError>
    requires { index < vec_len runs.old }
    ensures ok { OnOk result (runs.new.items
        ≡ take index runs.old.items
        ++ ((not_empty left ++ not_empty right) ++ drop (index + 1) runs.old.items)) }
    ensures err { OnErr result (runs.new.items ≡ runs.old.items) }
{
    if left.len > 0 {
        if right.len > 0 {
            runs.insert(index + 1, right)?;
            runs[index] = left;
            return Ok(());
        }
        runs[index] = left;
        return Ok(());
    }
    if right.len > 0 {
        runs[index] = right;
        return Ok(());
    }
    runs.remove(index);
    Ok(())
}

/// Puts one run in the place of none, one or two.
fn put_merged(runs: &mut Vec<Run>, first: usize, last: usize, merged: Run) -> Result<(), AllocError>
    requires order { first ≤ last }
    requires few { last ≤ first + 2 }
    requires len { last ≤ vec_len runs.old }
    ensures ok { OnOk result (runs.new.items
        ≡ take first runs.old.items ++ ((merged ∷ []) ++ drop last runs.old.items)) }
    ensures err { OnErr result (runs.new.items ≡ runs.old.items) }
{
    if first == last {
        runs.insert(first, merged)?;
        return Ok(());
    }
    if last - first == 1 {
        runs[first] = merged;
        return Ok(());
    }
    runs.remove(first + 1);
    runs[first] = merged;
    Ok(())
}

/// Takes a run out of the free ones.
pub(crate) fn take_run(runs: &mut Vec<Run>, run: Run, sectors: u64) -> Result<(), Refusal>
    requires apart { AreBetween 0 (sectors + 1) runs.old.items }
    requires few { sectors < 2 ^ 47 }
    requires not_empty { 0 < run.len }
    requires within { run.start + run.len ≤ sectors }
    ensures ok { OnOk result ((s : ℕ)
        → contains runs.new.items s ≡ changed false run (contains runs.old.items s) s) }
    ensures was { OnOk result ((s : ℕ) → IsTrue (names run s) → contains runs.old.items s ≡ true) }
    ensures bad { IsErrOf result Refusal.BadMap → (s : ℕ)
        × IsTrue (names run s) × (contains runs.old.items s ≡ false) }
    ensures apart { AreBetween 0 (sectors + 1) runs.new.items }
    ensures err { OnErr result (runs.new.items ≡ runs.old.items) }
{
    let count = count_up_to(runs, run.start);
    if count == 0 {
        return Err(Refusal::BadMap);
    }
    let free = runs[count - 1];
    let free_end = free.start + free.len;
    let end = run.start + run.len;
    if free_end < end {
        return Err(Refusal::BadMap);
    }
    let left = Run {
        start: free.start,
        len: run.start - free.start,
    };
    let right = Run {
        start: end,
        len: free_end - end,
    };
    put_pieces(runs, count - 1, left, right)?;
    Ok(())
}

/// The first of the runs that a run joins on its left, and where the two begin together. The run
/// stands behind the first `count` runs.
fn left_side(runs: &[Run], count: usize, run: Run, sectors: u64) -> Result<(usize, u64), Refusal>
    requires apart { AreBetween 0 (sectors + 1) runs.now }
    requires few { sectors < 2 ^ 47 }
    requires not_empty { 0 < run.len }
    requires within { count ≤ length runs.now }
    requires front { AllWithin (λ (r : Run). r.start ≤ run.start) runs.now 0 count }
    ensures ok { IfOk result (λ side. IsLeft runs.now count run side.0 side.1) }
    ensures bad { OnErr result ((s : ℕ) × (names run s ≡ true) × (contains runs.now s ≡ true)) }
    ensures refused { IfErr result (λ refusal. refusal ≡ Refusal.BadMap) }
{
    if count == 0 {
        return Ok((0, run.start));
    }
    let left = runs[count - 1];
    let left_end = left.start + left.len;
    if left_end > run.start {
        return Err(Refusal::BadMap);
    }
    if left_end == run.start {
        return Ok((count - 1, left.start));
    }
    Ok((count, run.start))
}

/// One past the last of the runs that a run joins on its right, and where the two end together.
fn right_side(runs: &[Run], count: usize, run: Run, sectors: u64) -> Result<(usize, u64), Refusal>
    requires apart { AreBetween 0 (sectors + 1) runs.now }
    requires few { sectors < 2 ^ 47 }
    requires not_empty { 0 < run.len }
    requires inside { run.start + run.len ≤ sectors }
    requires within { count ≤ length runs.now }
    requires back { AllWithin (λ (r : Run). run.start < r.start) runs.now count (length runs.now) }
    ensures ok { IfOk result (λ side. IsRight runs.now count run side.0 side.1 (sectors + 1)) }
    ensures bad { OnErr result ((s : ℕ) × (names run s ≡ true) × (contains runs.now s ≡ true)) }
    ensures refused { IfErr result (λ refusal. refusal ≡ Refusal.BadMap) }
    ensures fits { IfOk result (λ side. side.1 ≤ sectors) }
{
    let end = run.start + run.len;
    if count == runs.len() {
        return Ok((count, end));
    }
    let right = runs[count];
    if right.start < end {
        return Err(Refusal::BadMap);
    }
    if right.start == end {
        return Ok((count + 1, right.start + right.len));
    }
    Ok((count, end))
}

/// Gives a run to the free ones. It joins those that it touches.
pub(crate) fn give_run(runs: &mut Vec<Run>, run: Run, sectors: u64) -> Result<(), Refusal>
    requires apart { AreBetween 0 (sectors + 1) runs.old.items }
    requires few { sectors < 2 ^ 47 }
    requires not_empty { 0 < run.len }
    requires within { run.start + run.len ≤ sectors }
    ensures ok { OnOk result ((s : ℕ)
        → contains runs.new.items s ≡ changed true run (contains runs.old.items s) s) }
    ensures was { OnOk result ((s : ℕ) → IsTrue (names run s) → contains runs.old.items s ≡ false) }
    ensures bad { IsErrOf result Refusal.BadMap → (s : ℕ)
        × IsTrue (names run s) × (contains runs.old.items s ≡ true) }
    ensures apart { AreBetween 0 (sectors + 1) runs.new.items }
    ensures err { OnErr result (runs.new.items ≡ runs.old.items) }
{
    let count = count_up_to(runs, run.start);
    let (first, start) = left_side(runs, count, run, sectors)?;
    let (last, end) = right_side(runs, count, run, sectors)?;
    let merged = Run {
        start,
        len: end - start,
    };
    put_merged(runs, first, last, merged)?;
    Ok(())
}
