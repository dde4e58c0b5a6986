//! A metaslab.
ghost use Rattle.std.specs.Prelude.{◌≡◌, ◌^◌, ◌<◌, ◌≤◌, [], ◌↔◌, IsTrue, OnOk, OnErr, IfOk};
ghost use Rattle.std.specs.Bool.{OnTrue, OnFalse};

use crate::free_space::FreeSpace;
use crate::refusal::Refusal;
use crate::settling::{Release, drop_due, give_all, give_due, holds_due};
use crate::sharing::{shares_released, shares_sector};
use space_map::{FreeSet, Kind, Run};
use std::alloc::{AllocError, Global};
use std::marker::Model;

/// A metaslab: a part of a vdev, in sectors of 512 bytes that are counted from its start. Some of them are
/// free, some hold blocks, and some were released and are not free yet (as OpenZFS's deferred frees; that
/// three groups go by is this project's profile).
///
/// `allocate` hands out free sectors. What was released with a group becomes free at the first `settle` for
/// a group three or more later, while no group before it is pinned. A plan works on a clone: a dropped plan
/// drops the clone, which takes no memory.
#[derive(Drop)]
pub struct Metaslab {
    free: FreeSpace,
    released: Vec<Release>,
    pins: Vec<u64>,
}

impl Model for Metaslab {
    ghost use Rattle.metaslab.specs.Space.{Space};
    ghost use Rattle.metaslab.specs.Released.{IsHeldBack, AreInOrder};

    ghost Value = { Space };

    ghost view = { λ m. record {
      free = m.free.free;
      released = m.released.items;
      pins = m.pins.items;
      ticks = m.free.ticks;
    } };

    ghost invariant = { λ m.
        IsHeldBack m.free.free m.released.items × AreInOrder 0 m.released.items };
}

impl Metaslab {
    ghost use Rattle.metaslab.specs.State.{Free, InUse, Released};
    ghost use Rattle.metaslab.specs.Space.{sectors_of};
    ghost use Rattle.space_map.specs.Sectors.{contains};
    ghost use Rattle.metaslab.specs.Fits.{IsBestFit, IsRaised};
    ghost use Rattle.metaslab.specs.Calls.{IsRunOf, Changes, HasFreeRun, Settles, SettlesUnder, IsSettledWithin, IsOf, AreUnused};
    ghost use Rattle.metaslab.specs.Calls.{pinned, unpinned};
    ghost use Rattle.metaslab.specs.Unused.{IsAllFree};

    /// A metaslab with this free set, as the replay of its space map gives it. All its other sectors are in
    /// use, and no group is pinned.
    pub fn new(alloc: Global, free: FreeSet) -> Metaslab
        ensures states { IsOf result free }
        ensures pins { result.pins ≡ [] }
    {
        Metaslab {
            free: FreeSpace::new(free),
            released: Vec::new(alloc),
            pins: Vec::new(alloc),
        }
    }

    /// How many sectors there are, whatever they are used for.
    pub fn sectors(&self) -> u64
        ensures { result ≡ sectors_of self.now }
    {
        self.free.by_place().sectors()
    }

    /// How many calls on the free runs led to what is there, up to 2^62. What came to nothing isn't counted.
    pub fn ticks(&self) -> u64
        ensures value { result ≡ self.now.ticks }
        ensures few { result ≤ 2 ^ 62 }
    {
        self.free.ticks()
    }

    /// Whether all sectors are free.
    pub fn is_all_free(&self) -> bool
        ensures { IsTrue result ↔ IsAllFree self.now }
    {
        let free = self.free.by_place();
        let sectors = free.sectors();
        sectors == 0 || free.find(sectors).is_some()
    }

    /// Takes in a free set, as the replay of the metaslab's space map gives it, in place of what was known: all other
    /// sectors are in use from now on, and none is released. What is pinned stays.
    pub fn load(&mut self, free: FreeSet)
        ensures states { IsOf self.new free }
        ensures pins { self.new.pins ≡ self.old.pins }
    {
        self.free.load(free);
        self.released.clear();
    }

    /// Whether so many sectors in a row are free.
    pub fn has_room(&self, sectors: u64) -> bool
        requires { 0 < sectors }
        ensures { IsTrue result ↔ HasFreeRun self.now sectors }
    {
        self.free.has_room(sectors)
    }

    /// Whether all sectors of a run are in use: it lies in the metaslab, and none of them is free or released.
    pub fn is_in_use(&self, run: Run) -> bool
        requires { 0 < run.len }
        ensures { IsTrue result ↔ IsRunOf self.now run InUse }
    {
        let sectors = self.sectors();
        if run.len > sectors || run.start > sectors - run.len {
            return false;
        }
        !shares_sector(self.free.by_place().runs(), run) && !shares_released(&self.released, run)
    }

    /// Takes so many free sectors in a row, from the front of the shortest free run that has as many and of those as short
    /// the first, and hands them out. `NoSpace` comes only where no so many
    /// are free in a row, and `NoMemory` may come in its place. An error leaves the metaslab as it was.
    pub fn allocate(&mut self, sectors: u64) -> Result<Run, Refusal>
        requires { 0 < sectors }
        ensures len { IfOk result (λ run. run.len ≡ sectors) }
        ensures free { IfOk result (λ run. IsRunOf self.old run Free) }
        ensures taken { IfOk result (λ run. Changes self.old self.new run InUse) }
        ensures no_space { result ≡ Err Refusal.NoSpace → ¬ HasFreeRun self.old sectors }
        ensures err { OnErr result (self.new ≡ self.old) }
        ensures best { IfOk result (λ run.
            IsBestFit (contains self.old.free.runs) sectors run.start) }
        ensures ticks { OnOk result (IsRaised 6 self.old.ticks self.new.ticks) }
    {
        let alloc = *self.released.allocator();
        let run = self.free.allocate(alloc, sectors)?;
        Ok(run)
    }

    /// Takes in a run where a block lies already, as OpenZFS claims a block: its sectors were free and are in use from
    /// now on. `false` where the run isn't in the metaslab, or not all its sectors are free. Neither `false` nor an
    /// error, that memory is short, changes anything.
    pub fn take_in(&mut self, run: Run) -> Result<bool, AllocError>
        requires { 0 < run.len }
        ensures free { IfOk result (λ is_free. IsTrue is_free ↔ IsRunOf self.old run Free) }
        ensures taken { IfOk result (λ is_free.
            OnTrue is_free (Changes self.old self.new run InUse)) }
        ensures left { IfOk result (λ is_free. OnFalse is_free (self.new ≡ self.old)) }
        ensures err { OnErr result (self.new ≡ self.old) }
    {
        let sectors = self.sectors();
        if run.len > sectors || run.start > sectors - run.len {
            return Ok(false);
        }
        match self.free.change(Kind::Allocated, run) {
            Ok(()) => Ok(true),
            Err(space_map::Refusal::BadMap) => Ok(false),
            Err(space_map::Refusal::NoMemory) => Err(AllocError),
        }
    }

    /// Releases a run that was handed out, with the group that gives it up: from that group on no block is
    /// there, and groups before it may still reach one. An error, that memory is short, leaves the metaslab
    /// as it was.
    pub fn release(&mut self, run: Run, group: u64) -> Result<(), AllocError>
        requires some { 0 < run.len }
        requires in_use { IsRunOf self.old run InUse }
        ensures released { OnOk result (Changes self.old self.new run (Released group)) }
        ensures err { OnErr result (self.new ≡ self.old) }
    {
        let index = self
            .released
            .partition_point(|release| release.run.start <= run.start);
        self.released.insert(index, Release { group, run })?;
        Ok(())
    }

    /// Makes free what may be handed out to a group, as its plan begins. An error, that memory is short,
    /// leaves the metaslab as it was.
    pub fn settle(&mut self, group: u64) -> Result<(), AllocError>
        ensures settled { OnOk result (Settles self.old self.new group) }
        ensures err { OnErr result (self.new ≡ self.old) }
        ensures ticks { OnOk result (IsSettledWithin 8 self.old.pins self.old self.new group) }
    {
        let mut free = self.free.hand_over()?;
        give_due(&mut free, &self.released, &self.pins, group)?;
        drop_due(&mut self.released, &self.pins, group);
        self.free = free;
        Ok(())
    }

    /// Settles under pins that stand elsewhere, as those of a vdev stand once beside its metaslabs: its own are not
    /// asked. It takes no memory where nothing is due. An error, that memory is short, leaves the metaslab as it was.
    pub fn settle_under(&mut self, pins: &[u64], group: u64) -> Result<(), AllocError>
        ensures settled { OnOk result (SettlesUnder pins.now self.old self.new group) }
        ensures err { OnErr result (self.new ≡ self.old) }
        ensures ticks { OnOk result (IsSettledWithin 8 pins.now self.old self.new group) }
    {
        if !holds_due(&self.released, pins, group) {
            return Ok(());
        }
        let mut free = self.free.hand_over()?;
        give_due(&mut free, &self.released, pins, group)?;
        drop_due(&mut self.released, pins, group);
        self.free = free;
        Ok(())
    }

    /// A copy for a plan, which takes with it what speeds up the search for free runs: the metaslab makes that anew where it
    /// is asked while the copy is there, and when the copy was dropped.
    pub(crate) fn hand_over(&mut self) -> Result<Metaslab, AllocError>
        ensures ok { IfOk result (λ copy. copy ≡ self.old) }
        ensures rest { self.new ≡ self.old }
    {
        let released = Vec::from_slice(*self.released.allocator(), &self.released)?;
        let pins = Vec::from_slice(*self.pins.allocator(), &self.pins)?;
        Ok(Metaslab {
            free: self.free.hand_over()?,
            released,
            pins,
        })
    }

    /// All sectors that are not in use, those too that were released and are not free yet: what the
    /// metaslab's space map leaves free.
    pub fn unused(&self) -> Result<FreeSet, AllocError>
        ensures { IfOk result (AreUnused self.now) }
    {
        let mut unused = self.free.by_place().clone()?;
        give_all(&mut unused, &self.released)?;
        Ok(unused)
    }

    /// Pins a group beside those that are: what it may read is not handed out.
    pub fn pin(&mut self, group: u64) -> Result<(), AllocError>
        ensures ok { OnOk result (self.new ≡ pinned self.old group) }
        ensures err { OnErr result (self.new ≡ self.old) }
    {
        self.pins.push(group)?;
        Ok(())
    }

    /// Unpins a group, however often it was pinned.
    pub fn unpin(&mut self, group: u64)
        ensures { self.new ≡ unpinned self.old group }
    {
        self.pins.retain(|pin| *pin != group);
    }
}

impl Clone for Metaslab {
    ghost is_clone = { λ metaslab copy. copy ≡ metaslab };

    fn clone(&self) -> Result<Metaslab, AllocError> {
        Ok(Metaslab {
            free: self.free.clone()?,
            released: Vec::from_slice(*self.released.allocator(), &self.released)?,
            pins: Vec::from_slice(*self.pins.allocator(), &self.pins)?,
        })
    }
}
