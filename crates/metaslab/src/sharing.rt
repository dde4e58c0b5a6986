//! Runs that share sectors.
ghost use Rattle.std.specs.Prelude.{◌≡◌, ◌≢◌, ◌+◌, ◌^◌, ◌<◌, ℕ, true, false, None, All, IsTrue};
ghost use Rattle.space_map.specs.Sectors.{names, contains, AreBetween};
ghost use Rattle.metaslab.specs.Released.{released_by, AreInOrder};

use crate::settling::Release;
use space_map::Run;

/// Whether two runs that have sectors share one.
fn overlaps(one: Run, other: Run) -> bool
    ensures no { result ≡ false → (s : ℕ) → IsTrue (names other s) → names one s ≡ false }
    ensures yes { result ≡ true → 0 < one.len → 0 < other.len
        → (s : ℕ) × IsTrue (names other s) × IsTrue (names one s) }
{
    if one.start <= other.start {
        other.start - one.start < one.len
    } else {
        one.start - other.start < other.len
    }
}

/// Whether a run shares a sector with one of these, which ascend: the last that starts no later than it ends is asked.
pub(crate) fn shares_sector(runs: &[Run], run: Run) -> bool
    requires some { 0 < run.len }
    requires fits { run.start + run.len < 2 ^ 64 }
    ensures no { result ≡ false → (to : ℕ) → AreBetween 0 to runs.now
        → (s : ℕ) → IsTrue (names run s) → contains runs.now s ≡ false }
    ensures yes { result ≡ true → (to : ℕ) → AreBetween 0 to runs.now
        → (s : ℕ) × IsTrue (names run s) × (contains runs.now s ≡ true) }
{
    let last = run.start + (run.len - 1);
    let count = runs.partition_point(|other| other.start <= last);
    if count == 0 {
        return false;
    }
    overlaps(runs[count - 1], run)
}

/// Whether a run shares a sector with one that was released, of those in the order of their places: the last that starts
/// no later than it ends is asked.
pub(crate) fn shares_released(released: &[Release], run: Run) -> bool
    requires some { 0 < run.len }
    requires fits { run.start + run.len < 2 ^ 64 }
    ensures no { result ≡ false → AreInOrder 0 released.now
        → All (λ (r : Release). 0 < r.run.len) released.now
        → (s : ℕ) → IsTrue (names run s) → released_by released.now s ≡ None }
    ensures yes { result ≡ true → All (λ (r : Release). 0 < r.run.len) released.now
        → (s : ℕ) × IsTrue (names run s) × (released_by released.now s ≢ None) }
{
    let last = run.start + (run.len - 1);
    let count = released.partition_point(|release| release.run.start <= last);
    if count == 0 {
        return false;
    }
    overlaps(released[count - 1].run, run)
}
