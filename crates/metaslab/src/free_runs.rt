//! The free runs of a metaslab by place and by size, with a count of what was asked of them.
ghost use Rattle.std.specs.Prelude.{◌≡◌, ℕ, ◌+◌, ◌^◌, ◌<◌, ◌≤◌, ◌⊎◌, true, false, None, length, ◌↔◌, IsTrue, IsSome, OnOk, OnErr, IfOk, IfSome, IfNone, IsErrOf, IsSomeAnd};
ghost use Rattle.space_map.specs.FreeRuns.{AreFree, entry_of, CanEnter, IsEntered, HasRoom};
ghost use Rattle.space_map.specs.Sectors.{names, contains, AreBetween};
ghost use Rattle.metaslab.specs.Fits.{AreSizesOf, AreSorted, HasRun, IsStepOf, HasGainedPart, HasLostPart, IsWhole, raised};

use crate::by_size::{add, least_from, sorted_by_size, take_out};
use space_map::{FreeSet, Kind, Refusal, Run};
use std::alloc::{AllocError, Global};
use std::collections::BTreeSet;
use std::marker::Model;

/// How far the count goes.
const MOST_TICKS: u64 = 1 << 62;

/// The free runs: a map of them by place, and a set of them by length and place. Each call that may change them, or that
/// is asked on the way to a change, raises the count by one.
///
/// The set is made of the map once it is asked for, and made anew after memory was short for it.
#[derive(Drop)]
pub(crate) struct FreeRuns {
    by_place: FreeSet,
    by_size: Option<BTreeSet<(u64, u64)>>,
    ticks: u64,
}

impl Model for FreeRuns {
    ghost use Rattle.std.specs.Prelude.{◌^◌, ◌≤◌};
    ghost use Rattle.metaslab.specs.Fits.{Tables};

    ghost Value = { Tables };

    ghost view = { λ f. record { free = f.by_place; sizes = f.by_size; ticks = f.ticks } };

    ghost invariant = { λ f. f.ticks ≤ 2 ^ 62 };
}

impl FreeRuns {
    /// The runs of a free set, of which nothing was asked.
    pub(crate) fn new(free: FreeSet) -> FreeRuns
        ensures { result ≡ record { free = free; sizes = None; ticks = 0 } }
    {
        FreeRuns {
            by_place: free,
            by_size: None,
            ticks: 0,
        }
    }

    /// How many calls were counted.
    pub(crate) fn ticks(&self) -> u64
        ensures value { result ≡ self.now.ticks }
        ensures few { result ≤ 2 ^ 62 }
    {
        self.ticks
    }

    /// The runs by place.
    pub(crate) fn by_place(&self) -> &FreeSet
        ensures free { result.now ≡ self.now.free }
        ensures apart { AreFree self.now.free }
    {
        let _ = self.by_place.runs();
        &self.by_place
    }

    /// Takes in the runs of a free set in place of those that are there.
    pub(crate) fn load(&mut self, free: FreeSet)
        ensures { self.new ≡ record self.old { free = free; sizes = None } }
    {
        self.by_place = free;
        self.by_size = None;
    }

    /// Whether some run has so many sectors. It asks the set by size where that is there.
    pub(crate) fn has_room(&self, sectors: u64) -> bool
        requires { 0 < sectors }
        ensures { AreSorted self.now → IsTrue result ↔ HasRoom self.now.free sectors }
    {
        let _ = self.by_place.runs();
        match &self.by_size {
            Some(sizes) => least_from(sizes, sectors).is_some(),
            None => self.by_place.find(sectors).is_some(),
        }
    }

    /// A copy without the set by size.
    pub(crate) fn copied(&self) -> Result<FreeRuns, AllocError>
        ensures { IfOk result (λ copy. copy ≡ record self.now { sizes = None }) }
    {
        Ok(FreeRuns {
            by_place: self.by_place.clone()?,
            by_size: None,
            ticks: self.ticks,
        })
    }

    /// A copy that takes the set by size with it.
    pub(crate) fn hand_over(&mut self) -> Result<FreeRuns, AllocError>
        ensures ok { IfOk result (λ copy. copy ≡ self.old) }
        ensures left { OnOk result (self.new ≡ record self.old { sizes = None }) }
        ensures err { OnErr result (self.new ≡ self.old) }
    {
        let by_place = self.by_place.clone()?;
        Ok(FreeRuns {
            by_place,
            by_size: self.by_size.take(),
            ticks: self.ticks,
        })
    }

    /// Counts a call.
    fn tick(&mut self)
        ensures { self.new ≡ record self.old { ticks = raised self.old.ticks } }
    {
        if self.ticks < MOST_TICKS {
            self.ticks += 1;
        }
    }

    /// Counts no longer what was asked since the count was this, as it came to nothing.
    pub(crate) fn forget_since(&mut self, ticks: u64)
        requires { ticks ≤ 2 ^ 62 }
        ensures { self.new ≡ record self.old { ticks = ticks } }
    {
        self.ticks = ticks;
    }

    /// Makes the set by size, where it isn't there. An error, that memory is short, leaves it so.
    pub(crate) fn sort(&mut self, alloc: Global) -> Result<(), AllocError>
        ensures sorted { OnOk result (AreSorted self.old
            → IsSomeAnd self.new.sizes (AreSizesOf (contains self.old.free.runs))) }
        ensures err { OnErr result (self.new.sizes ≡ self.old.sizes) }
        ensures free { self.new.free ≡ self.old.free }
        ensures ticks { self.new.ticks ≡ raised self.old.ticks }
    {
        self.tick();
        if self.by_size.is_none() {
            let sizes = sorted_by_size(alloc, self.by_place.runs())?;
            self.by_size = Some(sizes);
        }
        Ok(())
    }

    /// The shortest run by size that has so many sectors, and of those as short the first.
    pub(crate) fn shortest(&mut self, sectors: u64) -> Option<Run>
        ensures found { IfSome result (λ run.
            IsSomeAnd self.old.sizes (λ sizes. HasRun sizes run.start run.len)) }
        ensures fits { IfSome result (λ run. sectors ≤ run.len) }
        ensures least { IfSome result (λ run. IsSomeAnd self.old.sizes (λ sizes. (from long : ℕ)
            → HasRun sizes from long → sectors ≤ long
            → (run.len < long) ⊎ ((run.len ≡ long) × (run.start ≤ from)))) }
        ensures none { IfNone result (IfSome self.old.sizes (λ sizes. (from long : ℕ)
            → HasRun sizes from long → long < sectors)) }
        ensures rest { self.new ≡ record self.old { ticks = raised self.old.ticks } }
    {
        self.tick();
        match &self.by_size {
            Some(sizes) => least_from(sizes, sectors),
            None => None,
        }
    }

    /// The run that has a sector.
    pub(crate) fn whole_at(&mut self, sector: u64) -> Option<Run>
        ensures named { IfSome result (λ run. names run sector ≡ true) }
        ensures whole { IfSome result (λ run.
            IsWhole (contains self.old.free.runs) run.start run.len) }
        ensures end { IfSome result (λ run. run.start + run.len ≤ self.old.free.sectors) }
        ensures few { self.old.free.sectors < 2 ^ 47 }
        ensures none { IfNone result (contains self.old.free.runs sector ≡ false) }
        ensures rest { self.new ≡ record self.old { ticks = raised self.old.ticks } }
    {
        let run = run_at(self.by_place.runs(), sector);
        self.tick();
        run
    }

    /// Allocates or frees a run by place, as a free set does. A refusal leaves the tables as they were.
    pub(crate) fn change(&mut self, kind: Kind, run: Run) -> Result<(), Refusal>
        requires not_empty { 0 < run.len }
        requires within { run.start + run.len ≤ self.old.free.sectors }
        ensures ok { OnOk result (IsEntered self.old.free self.new.free (entry_of kind run)) }
        ensures changes { OnOk result (CanEnter self.old.free (entry_of kind run)) }
        ensures bad { IsErrOf result Refusal.BadMap
            → ¬ CanEnter self.old.free (entry_of kind run) }
        ensures err { OnErr result (self.new.free ≡ self.old.free) }
        ensures sizes { self.new.sizes ≡ self.old.sizes }
        ensures ticks { self.new.ticks ≡ raised self.old.ticks }
    {
        self.tick();
        self.by_place.change(kind, run)
    }

    /// Adds the run from one sector up to another by size, if it has any. Where memory is short the set is dropped.
    pub(crate) fn insert(&mut self, start: u64, end: u64)
        ensures sizes { IsStepOf (HasGainedPart start end) self.old.sizes self.new.sizes }
        ensures free { self.new.free ≡ self.old.free }
        ensures ticks { self.new.ticks ≡ raised self.old.ticks }
    {
        self.tick();
        let sizes = self.by_size.take();
        self.by_size = with_part(sizes, start, end);
    }

    /// Takes the run from one sector up to another out by size, if it has any.
    pub(crate) fn remove(&mut self, start: u64, end: u64)
        ensures sizes { IsStepOf (HasLostPart start end) self.old.sizes self.new.sizes }
        ensures free { self.new.free ≡ self.old.free }
        ensures ticks { self.new.ticks ≡ raised self.old.ticks }
    {
        self.tick();
        if start < end
            && let Some(sizes) = &mut self.by_size
        {
            let len = end - start;
            take_out(sizes, Run { start, len });
        }
    }
}

/// A set by size with the run from one sector up to another, if it has any; none where memory is short.
fn with_part(
    sizes: Option<BTreeSet<(u64, u64)>>,
    start: u64,
    end: u64,
) -> Option<BTreeSet<(u64, u64)>>
    ensures { IsStepOf (HasGainedPart start end) sizes result }
{
    let mut sizes = sizes?;
    if start < end {
        let len = end - start;
        add(&mut sizes, Run { start, len }).ok()?;
    }
    Some(sizes)
}

/// The run that has a sector.
fn run_at(runs: &[Run], sector: u64) -> Option<Run>
    ensures named { IfSome result (λ run. names run sector ≡ true) }
    ensures whole { IfSome result (λ run. (to : ℕ) → AreBetween 0 to runs.now
        → IsWhole (contains runs.now) run.start run.len) }
    ensures none { IfNone result ((to : ℕ) → AreBetween 0 to runs.now
        → contains runs.now sector ≡ false) }
{
    let count = runs.partition_point(|run| run.start <= sector);
    if count == 0 {
        return None;
    }
    let run = runs[count - 1];
    if run.start <= sector && sector - run.start < run.len {
        return Some(run);
    }
    None
}
