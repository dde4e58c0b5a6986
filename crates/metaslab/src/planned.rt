//! A metaslab and a plan's copy of it.
ghost use Rattle.std.specs.Prelude.{◌≡◌, ◌<◌, ◌↔◌, map, IsTrue, OnOk, OnErr, IfOk};
ghost use Rattle.metaslab.specs.Spaces.{AreSettled, AreSettledInPart, IsWhollyFree};

use crate::allocating::Metaslab;
use crate::refusal::Refusal;
use space_map::{FreeSet, Run};
use std::alloc::{AllocError, Global};
use std::marker::Model;

/// A metaslab as the last committed group left it, and the copy that the plan of the next group works on,
/// which is made once the plan touches the metaslab.
///
/// What the plan does is seen in the planned space alone, until it is kept or dropped.
#[derive(Drop)]
pub struct PlannedMetaslab {
    kept: Metaslab,
    copy: Option<Metaslab>,
}

impl Model for PlannedMetaslab {
    ghost use Rattle.std.specs.Prelude.{unwrap_or};
    ghost use Rattle.metaslab.specs.Spaces.{Spaces};

    ghost Value = { Spaces };

    ghost view = { λ m. record { kept = m.kept; planned = unwrap_or m.copy m.kept } };
}

impl PlannedMetaslab {
    ghost use Rattle.std.specs.Prelude.{[]};
    ghost use Rattle.std.specs.Bool.{OnTrue, OnFalse};
    ghost use Rattle.metaslab.specs.State.{Free, InUse, Released};
    ghost use Rattle.space_map.specs.Sectors.{contains};
    ghost use Rattle.metaslab.specs.Fits.{IsBestFit, IsRaised};
    ghost use Rattle.metaslab.specs.Calls.{IsRunOf, Changes, HasFreeRun, SettlesUnder, IsSettledWithin, IsOf};
    ghost use Rattle.metaslab.specs.Calls.{AreUnused};
    ghost use Rattle.metaslab.specs.Maps.{AreLoaded, AreWhollyFreeOf};

    /// A metaslab with this free set, as the replay of its space map gives it, before any plan.
    pub fn new(alloc: Global, free: FreeSet) -> PlannedMetaslab
        ensures kept { IsOf result.kept free }
        ensures pins { result.kept.pins ≡ [] }
        ensures planned { result.planned ≡ result.kept }
    {
        PlannedMetaslab {
            kept: Metaslab::new(alloc, free),
            copy: None,
        }
    }

    /// Whether so many sectors in a row are free beside what is planned.
    pub fn has_room(&self, sectors: u64) -> bool
        requires { 0 < sectors }
        ensures { IsTrue result ↔ HasFreeRun self.now.planned sectors }
    {
        match &self.copy {
            Some(copy) => copy.has_room(sectors),
            None => self.kept.has_room(sectors),
        }
    }

    /// Whether all sectors of a run are in use beside what is planned.
    pub fn is_in_use(&self, run: Run) -> bool
        requires { 0 < run.len }
        ensures { IsTrue result ↔ IsRunOf self.now.planned run InUse }
    {
        match &self.copy {
            Some(copy) => copy.is_in_use(run),
            None => self.kept.is_in_use(run),
        }
    }

    /// Takes so many free sectors in a row for the plan, as `Metaslab::allocate` does. `NoSpace` comes only where no so many are free
    /// in a row, and `NoMemory` may come in its place. An error leaves both spaces as they were.
    pub fn allocate(&mut self, sectors: u64) -> Result<Run, Refusal>
        requires { 0 < sectors }
        ensures len { IfOk result (λ run. run.len ≡ sectors) }
        ensures free { IfOk result (λ run. IsRunOf self.old.planned run Free) }
        ensures taken { IfOk result (λ run. Changes self.old.planned self.new.planned run InUse) }
        ensures no_space { result ≡ Err Refusal.NoSpace → ¬ HasFreeRun self.old.planned sectors }
        ensures err { OnErr result (self.new ≡ self.old) }
        ensures kept { self.new.kept ≡ self.old.kept }
        ensures best { IfOk result (λ run.
            IsBestFit (contains self.old.planned.free.runs) sectors run.start) }
        ensures ticks { OnOk result (IsRaised 6 self.old.planned.ticks self.new.planned.ticks) }
    {
        if let Some(copy) = &mut self.copy {
            return copy.allocate(sectors);
        }
        if !self.kept.has_room(sectors) {
            return Err(Refusal::NoSpace);
        }
        let mut copy = self.kept.hand_over()?;
        let Ok(run) = copy.allocate(sectors) else {
            // There was room, so memory was short.
            return Err(Refusal::NoMemory);
        };
        self.copy = Some(copy);
        Ok(run)
    }

    /// Takes in a run where a block lies already: its sectors were free in both spaces, and are in use in both from now
    /// on. `false` where they were not. Neither `false` nor an error, that memory is short, changes anything.
    pub fn take_in(&mut self, run: Run) -> Result<bool, AllocError>
        requires { 0 < run.len }
        ensures free { IfOk result (λ is_free. IsTrue is_free
            ↔ (IsRunOf self.old.kept run Free × IsRunOf self.old.planned run Free)) }
        ensures kept { IfOk result (λ is_free.
            OnTrue is_free (Changes self.old.kept self.new.kept run InUse)) }
        ensures planned { IfOk result (λ is_free.
            OnTrue is_free (Changes self.old.planned self.new.planned run InUse)) }
        ensures left { IfOk result (λ is_free. OnFalse is_free (self.new ≡ self.old)) }
        ensures err { OnErr result (self.new ≡ self.old) }
    {
        let Some(copy) = &mut self.copy else {
            return self.kept.take_in(run);
        };
        let mut kept = self.kept.clone()?;
        let is_free = kept.take_in(run)? && copy.take_in(run)?;
        if is_free {
            self.kept = kept;
        }
        Ok(is_free)
    }

    /// Releases a run in use, with the group that is planned. An error, that memory is short, leaves both
    /// spaces as they were.
    pub fn release(&mut self, run: Run, group: u64) -> Result<(), AllocError>
        requires some { 0 < run.len }
        requires in_use { IsRunOf self.old.planned run InUse }
        ensures released { OnOk result
            (Changes self.old.planned self.new.planned run (Released group)) }
        ensures err { OnErr result (self.new ≡ self.old) }
        ensures kept { self.new.kept ≡ self.old.kept }
    {
        if let Some(copy) = &mut self.copy {
            return copy.release(run, group);
        }
        let mut copy = self.kept.hand_over()?;
        copy.release(run, group)?;
        self.copy = Some(copy);
        Ok(())
    }

    /// Begins the plan of a group while these groups are pinned: what was planned is dropped, and what is due
    /// becomes free. An error, that memory is short, drops what was planned too, and settles nothing.
    pub fn settle(&mut self, pins: &[u64], group: u64) -> Result<(), AllocError>
        ensures settled { OnOk result (SettlesUnder pins.now self.old.kept self.new.kept group) }
        ensures err { OnErr result (self.new.kept ≡ self.old.kept) }
        ensures planned { self.new.planned ≡ self.new.kept }
        ensures ticks { OnOk result
            (IsSettledWithin 8 pins.now self.old.kept self.new.kept group) }
    {
        self.copy = None;
        self.kept.settle_under(pins, group)
    }

    /// Takes what is planned as what is there, as the plan's group is committed.
    pub fn keep_planned(&mut self)
        ensures kept { self.new.kept ≡ self.old.planned }
        ensures planned { self.new.planned ≡ self.old.planned }
    {
        if let Some(copy) = self.copy.take() {
            self.kept = copy;
        }
    }

    /// Drops what is planned. It takes no memory.
    pub fn drop_planned(&mut self)
        ensures kept { self.new.kept ≡ self.old.kept }
        ensures planned { self.new.planned ≡ self.old.kept }
    {
        self.copy = None;
    }

    /// All sectors that are not in use without the plan, those too that were released and are not free yet.
    pub fn unused_before(&self) -> Result<FreeSet, AllocError>
        ensures { IfOk result (AreUnused self.now.kept) }
    {
        self.kept.unused()
    }

    /// All sectors that are not in use with the plan, those too that were released and are not free yet.
    pub fn unused(&self) -> Result<FreeSet, AllocError>
        ensures { IfOk result (AreUnused self.now.planned) }
    {
        match &self.copy {
            Some(copy) => copy.unused(),
            None => self.kept.unused(),
        }
    }

    /// Takes in the free set that the metaslab's space map leaves: all other sectors are in use, without a plan and with
    /// it. `false`, which changes nothing, where some sector isn't free as the call begins, or the set is of a metaslab
    /// with more sectors or fewer.
    pub fn load(&mut self, free: FreeSet) -> bool
        ensures free { IsTrue result ↔ AreWhollyFreeOf free.sectors self.old }
        ensures loaded { OnTrue result (AreLoaded self.old free self.new) }
        ensures left { OnFalse result (self.new ≡ self.old) }
    {
        if !self.are_wholly_free(free.sectors()) {
            return false;
        }
        self.copy = None;
        self.kept.load(free);
        true
    }

    /// Whether there are so many sectors, and all are free without the plan and with it.
    fn are_wholly_free(&self, sectors: u64) -> bool
        ensures { IsTrue result ↔ AreWhollyFreeOf sectors self.now }
    {
        match &self.copy {
            Some(copy) => is_wholly_free(&self.kept, sectors) && is_wholly_free(copy, sectors),
            None => is_wholly_free(&self.kept, sectors),
        }
    }
}

/// Whether a metaslab has so many sectors, and all are free.
fn is_wholly_free(metaslab: &Metaslab, sectors: u64) -> bool
    ensures { IsTrue result ↔ IsWhollyFree metaslab.now sectors }
{
    metaslab.sectors() == sectors && metaslab.is_all_free()
}

/// Settles one metaslab after the other.
pub(crate) fn settle_each(
    metaslabs: &mut Vec<PlannedMetaslab>,
    pins: &[u64],
    group: u64,
) -> Result<(), AllocError>
    requires none_planned { map (λ m. m.planned) metaslabs.old.items
        ≡ map (λ m. m.kept) metaslabs.old.items }
    ensures settled { OnOk result (AreSettled pins.now group
        (map (λ m. m.kept) metaslabs.old.items) (map (λ m. m.kept) metaslabs.new.items)) }
    ensures err { OnErr result (AreSettledInPart pins.now group
        (map (λ m. m.kept) metaslabs.old.items) (map (λ m. m.kept) metaslabs.new.items)) }
    ensures planned { map (λ m. m.planned) metaslabs.new.items
        ≡ map (λ m. m.kept) metaslabs.new.items }
{
    for metaslab in 0..metaslabs.len() {
        metaslabs[metaslab].settle(pins, group)?;
    }
    Ok(())
}
