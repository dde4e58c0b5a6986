//! The free sectors of a metaslab, which keep their runs by place and by size.
ghost use Rattle.std.specs.Prelude.{◌≡◌, ◌⊎◌, ℕ, ◌+◌, ◌^◌, ◌<◌, ◌≤◌, ◌↔◌, IsTrue, OnOk, OnErr, IfOk, IfSome, IfNone, IsErrOf};
ghost use Rattle.space_map.specs.FreeRuns.{entry_of, CanEnter, IsEntered, HasRoom};
ghost use Rattle.space_map.specs.Sectors.{contains};
ghost use Rattle.space_map.specs.declared.refusal.Refusal.TheVariants as MapRefusal;
ghost use Rattle.metaslab.specs.Fits.{AreSorted, IsBestFit, IsRaised, IsWhole};

use crate::free_runs::FreeRuns;
use crate::refusal::Refusal;
use space_map::{FreeSet, Kind, Run};
use std::alloc::{AllocError, Global};
use std::marker::Model;

/// The free sectors of a metaslab. What is allocated is the front of the shortest free run that has as many.
#[derive(Drop)]
pub(crate) struct FreeSpace {
    runs: FreeRuns,
}

impl Model for FreeSpace {
    ghost use Rattle.metaslab.specs.Fits.{AreSorted, Counted};

    ghost Value = { Counted };

    ghost view = { λ f. record { free = f.runs.free; ticks = f.runs.ticks } };

    ghost invariant = { λ f. AreSorted f.runs };
}

impl FreeSpace {
    /// The sectors of a free set.
    pub(crate) fn new(free: FreeSet) -> FreeSpace
        ensures { result ≡ record { free = free; ticks = 0 } }
    {
        FreeSpace {
            runs: FreeRuns::new(free),
        }
    }

    /// How many calls on the runs led to what is there. What came to nothing isn't counted.
    pub(crate) fn ticks(&self) -> u64
        ensures value { result ≡ self.now.ticks }
        ensures few { result ≤ 2 ^ 62 }
    {
        self.runs.ticks()
    }

    /// The free sectors as a set, by place.
    pub(crate) fn by_place(&self) -> &FreeSet
        ensures { result.now ≡ self.now.free }
    {
        self.runs.by_place()
    }

    /// Takes in the sectors of a free set in place of those that are there.
    pub(crate) fn load(&mut self, free: FreeSet)
        ensures { self.new ≡ record self.old { free = free } }
    {
        self.runs.load(free);
    }

    /// Whether so many sectors in a row are free.
    pub(crate) fn has_room(&self, sectors: u64) -> bool
        requires { 0 < sectors }
        ensures { IsTrue result ↔ HasRoom self.now.free sectors }
    {
        self.runs.has_room(sectors)
    }

    /// A copy that takes the runs by size with it: they are made anew where the one that is left is asked for them.
    pub(crate) fn hand_over(&mut self) -> Result<FreeSpace, AllocError>
        ensures ok { IfOk result (λ copy. copy ≡ self.old) }
        ensures rest { self.new ≡ self.old }
    {
        Ok(FreeSpace {
            runs: self.runs.hand_over()?,
        })
    }

    /// Allocates the front of the shortest free run that has so many sectors, and of those as short of the first.
    pub(crate) fn allocate(&mut self, alloc: Global, sectors: u64) -> Result<Run, Refusal>
        requires { 0 < sectors }
        ensures len { IfOk result (λ run. run.len ≡ sectors) }
        ensures free { IfOk result (λ run. CanEnter self.old.free (entry_of Kind.Allocated run)) }
        ensures taken { IfOk result (λ run.
            IsEntered self.old.free self.new.free (entry_of Kind.Allocated run)) }
        ensures best { IfOk result (λ run.
            IsBestFit (contains self.old.free.runs) sectors run.start) }
        ensures ticks { OnOk result (IsRaised 6 self.old.ticks self.new.ticks) }
        ensures no_space { result ≡ Err Refusal.NoSpace → ¬ HasRoom self.old.free sectors }
        ensures err { OnErr result (self.new ≡ self.old) }
    {
        let ticks = self.runs.ticks();
        let taken = self.try_allocate(alloc, sectors);
        if taken.is_err() {
            self.runs.forget_since(ticks);
        }
        taken
    }

    /// The same, but what is refused is counted.
    fn try_allocate(&mut self, alloc: Global, sectors: u64) -> Result<Run, Refusal>
        requires { 0 < sectors }
        ensures len { IfOk result (λ run. run.len ≡ sectors) }
        ensures free { IfOk result (λ run. CanEnter self.old.free (entry_of Kind.Allocated run)) }
        ensures taken { IfOk result (λ run.
            IsEntered self.old.free self.new.free (entry_of Kind.Allocated run)) }
        ensures best { IfOk result (λ run.
            IsBestFit (contains self.old.free.runs) sectors run.start) }
        ensures ticks { OnOk result (IsRaised 6 self.old.ticks self.new.ticks) }
        ensures no_space { result ≡ Err Refusal.NoSpace → ¬ HasRoom self.old.free sectors }
        ensures err { OnErr result (self.new.free ≡ self.old.free) }
    {
        let Some(whole) = self.shortest(alloc, sectors)? else {
            return Err(Refusal::NoSpace);
        };
        let run = Run {
            start: whole.start,
            len: sectors,
        };
        self.cut(whole, run)?;
        Ok(run)
    }

    /// The shortest free run that has so many sectors, and of those as short the first.
    fn shortest(&mut self, alloc: Global, sectors: u64) -> Result<Option<Run>, AllocError>
        requires { 0 < sectors }
        ensures whole { IfOk result (λ found. IfSome found (λ run.
            IsWhole (contains self.old.free.runs) run.start run.len)) }
        ensures end { IfOk result (λ found. IfSome found (λ run.
            run.start + run.len ≤ self.old.free.sectors)) }
        ensures fits { IfOk result (λ found. IfSome found (λ run. sectors ≤ run.len)) }
        ensures best { IfOk result (λ found. IfSome found (λ run.
            IsBestFit (contains self.old.free.runs) sectors run.start)) }
        ensures none { IfOk result (λ found. IfNone found (¬ HasRoom self.old.free sectors)) }
        ensures few { self.old.free.sectors < 2 ^ 47 }
        ensures free { self.new.free ≡ self.old.free }
        ensures ticks { OnOk result (IsRaised 2 self.old.ticks self.new.ticks) }
    {
        let _ = self.runs.by_place();
        self.runs.sort(alloc)?;
        Ok(self.runs.shortest(sectors))
    }

    /// Allocates a run that lies in a free one, which is as long as it can be.
    fn cut(&mut self, whole: Run, run: Run) -> Result<(), AllocError>
        requires whole { IsWhole (contains self.old.free.runs) whole.start whole.len }
        requires end { whole.start + whole.len ≤ self.old.free.sectors }
        requires few { self.old.free.sectors < 2 ^ 47 }
        requires low { whole.start ≤ run.start }
        requires high { run.start + run.len ≤ whole.start + whole.len }
        requires some { 0 < run.len }
        ensures free { OnOk result (CanEnter self.old.free (entry_of Kind.Allocated run)) }
        ensures taken { OnOk result
            (IsEntered self.old.free self.new.free (entry_of Kind.Allocated run)) }
        ensures ticks { OnOk result (IsRaised 4 self.old.ticks self.new.ticks) }
        ensures err { OnErr result (self.new.free ≡ self.old.free) }
    {
        let end = whole.start + whole.len;
        let Ok(()) = self.runs.change(Kind::Allocated, run) else {
            return Err(AllocError);
        };
        self.runs.remove(whole.start, end);
        self.runs.insert(whole.start, run.start);
        self.runs.insert(run.start + run.len, end);
        Ok(())
    }

    /// Allocates or frees a run of the metaslab, as a free set does. A refusal changes nothing.
    pub(crate) fn change(&mut self, kind: Kind, run: Run) -> Result<(), space_map::Refusal>
        requires not_empty { 0 < run.len }
        requires within { run.start + run.len ≤ self.old.free.sectors }
        ensures ok { OnOk result (IsEntered self.old.free self.new.free (entry_of kind run)) }
        ensures changes { OnOk result (CanEnter self.old.free (entry_of kind run)) }
        ensures ticks { OnOk result (IsRaised 5 self.old.ticks self.new.ticks) }
        ensures bad { IsErrOf result MapRefusal.BadMap
            → ¬ CanEnter self.old.free (entry_of kind run) }
        ensures err { OnErr result (self.new ≡ self.old) }
    {
        let ticks = self.runs.ticks();
        let changed = match kind {
            Kind::Allocated => self.try_take(run),
            Kind::Freed => self.try_give(run),
        };
        if changed.is_err() {
            self.runs.forget_since(ticks);
        }
        changed
    }

    /// Allocates a run, but what is refused is counted.
    fn try_take(&mut self, run: Run) -> Result<(), space_map::Refusal>
        requires not_empty { 0 < run.len }
        requires within { run.start + run.len ≤ self.old.free.sectors }
        ensures ok { OnOk result
            (IsEntered self.old.free self.new.free (entry_of Kind.Allocated run)) }
        ensures changes { OnOk result (CanEnter self.old.free (entry_of Kind.Allocated run)) }
        ensures ticks { OnOk result (IsRaised 5 self.old.ticks self.new.ticks) }
        ensures bad { IsErrOf result MapRefusal.BadMap
            → ¬ CanEnter self.old.free (entry_of Kind.Allocated run) }
        ensures err { OnErr result (self.new.free ≡ self.old.free) }
    {
        let Some(whole) = self.runs.whole_at(run.start) else {
            return Err(space_map::Refusal::BadMap);
        };
        if whole.start + whole.len < run.start + run.len {
            return Err(space_map::Refusal::BadMap);
        }
        self.cut(whole, run)?;
        Ok(())
    }

    /// Frees a run, but what is refused is counted.
    fn try_give(&mut self, run: Run) -> Result<(), space_map::Refusal>
        requires not_empty { 0 < run.len }
        requires within { run.start + run.len ≤ self.old.free.sectors }
        ensures ok { OnOk result (IsEntered self.old.free self.new.free (entry_of Kind.Freed run)) }
        ensures changes { OnOk result (CanEnter self.old.free (entry_of Kind.Freed run)) }
        ensures ticks { OnOk result (IsRaised 5 self.old.ticks self.new.ticks) }
        ensures bad { IsErrOf result MapRefusal.BadMap
            → ¬ CanEnter self.old.free (entry_of Kind.Freed run) }
        ensures err { OnErr result (self.new.free ≡ self.old.free) }
    {
        self.runs.change(Kind::Freed, run)?;
        let Some(whole) = self.runs.whole_at(run.start) else {
            unreachable!();
        };
        let end = whole.start + whole.len;
        self.runs.remove(whole.start, run.start);
        self.runs.remove(run.start + run.len, end);
        self.runs.insert(whole.start, end);
        Ok(())
    }
}

impl Clone for FreeSpace {
    ghost is_clone = { λ space copy. copy ≡ space };

    fn clone(&self) -> Result<FreeSpace, AllocError> {
        Ok(FreeSpace {
            runs: self.runs.copied()?,
        })
    }
}
