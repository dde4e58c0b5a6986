//! The runs of allocated sectors, and when a map has more entries than they are worth.
ghost use Rattle.std.specs.Prelude.{◌≡◌, ◌+◌, ◌*◌, ◌^◌, ◌<◌, ◌≤◌, ◌↔◌, length, IsTrue};
ghost use Rattle.space_map.specs.Allocated.{gap, gaps_between, gaps_of};
ghost use Rattle.space_map.specs.Sectors.{AreBetween};

use crate::entry::Run;
use crate::free_set::FreeSet;

impl FreeSet {
    /// How many runs of allocated sectors there are, each as long as it can be.
    pub fn allocated_runs(&self) -> usize
        ensures value { result ≡ length (gaps_of self.now) }
        ensures few { result < 2 ^ 47 }
    {
        count_gaps(self.runs(), self.sectors())
    }
}

/// Whether a map of so many entries, which leaves this set, is to be condensed: it has more than two for each
/// run of allocated sectors, and 64 (this project's profile).
pub fn wants_condensing(entries: usize, set: &FreeSet) -> bool
    ensures { IsTrue result ↔ (2 * length (gaps_of set.now) + 64 < entries) }
{
    2 * set.allocated_runs() + 64 < entries
}

/// How many gaps there are between free runs that don't touch, before the first and behind the last.
fn count_gaps(runs: &[Run], sectors: u64) -> usize
    requires few { sectors < 2 ^ 47 }
    requires apart { AreBetween 0 (sectors + 1) runs.now }
    ensures value { result ≡ length (gaps_between 0 sectors runs.now) }
    ensures few { result ≤ sectors }
{
    if runs.is_empty() {
        return count_gap(0, sectors);
    }
    let first = runs[0];
    let last = runs[runs.len() - 1];
    let front = count_gap(0, first.start);
    let back = count_gap(last.start + last.len, sectors);
    runs.len() - 1 + front + back
}

/// One where there are sectors from one up to another, or else none.
fn count_gap(from: u64, to: u64) -> usize
    ensures value { result ≡ length (gap from to) }
    ensures few { result ≤ 1 }
{
    if from < to { 1 } else { 0 }
}
