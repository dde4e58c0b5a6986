//! The free runs by their length, and those as long by their place.
ghost use Rattle.std.specs.Prelude.{◌≡◌, ◌⊎◌, ℕ, ◌+◌, ◌<◌, ◌≤◌, true, IfOk, OnOk, OnErr, IfSome, IfNone};
ghost use Rattle.space_map.specs.Sectors.{contains, AreBetween};
ghost use Rattle.metaslab.specs.Fits.{AreSizesOf, HasGainedRun, HasLostRun, HasRun};

use space_map::Run;
use std::alloc::{AllocError, Global};
use std::collections::BTreeSet;

/// The runs by size.
pub(crate) fn sorted_by_size(
    alloc: Global,
    runs: &[Run],
) -> Result<BTreeSet<(u64, u64)>, AllocError>
    ensures { IfOk result (λ sizes. (to : ℕ) → AreBetween 0 to runs.now
        → AreSizesOf (contains runs.now) sizes) }
{
    let mut sizes = BTreeSet::new(alloc);
    for run in runs {
        add(&mut sizes, *run)?;
    }
    Ok(sizes)
}

/// The shortest run that has so many sectors, and of those as short the first.
pub(crate) fn least_from(sizes: &BTreeSet<(u64, u64)>, sectors: u64) -> Option<Run>
    ensures found { IfSome result (λ run. HasRun sizes.now run.start run.len) }
    ensures fits { IfSome result (λ run. sectors ≤ run.len) }
    ensures least { IfSome result (λ run. (from long : ℕ) → HasRun sizes.now from long
        → sectors ≤ long → (run.len < long) ⊎ ((run.len ≡ long) × (run.start ≤ from))) }
    ensures none { IfNone result ((from long : ℕ) → HasRun sizes.now from long → long < sectors) }
{
    let (len, start) = sizes.range((sectors, 0)..).next()?;
    Some(Run {
        start: *start,
        len: *len,
    })
}

/// Adds a run.
pub(crate) fn add(sizes: &mut BTreeSet<(u64, u64)>, run: Run) -> Result<(), AllocError>
    ensures ok { OnOk result (HasGainedRun run.start run.len sizes.old sizes.new) }
{
    sizes.insert((run.len, run.start))?;
    Ok(())
}

/// Takes a run out.
pub(crate) fn take_out(sizes: &mut BTreeSet<(u64, u64)>, run: Run)
    ensures { HasLostRun run.start run.len sizes.old sizes.new }
{
    sizes.remove(&(run.len, run.start));
}
