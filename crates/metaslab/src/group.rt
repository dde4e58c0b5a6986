//! The metaslabs of a vdev.
ghost use Rattle.std.specs.Prelude.{◌≡◌, ◌<◌, ◌^◌, [], length, OnOk, OnErr, IfOk};

use crate::planned::{PlannedMetaslab, settle_each};
use crate::refusal::Refusal;
use space_map::{FreeSet, Run};
use std::alloc::{AllocError, Global};
use std::marker::Model;

/// The metaslabs of a vdev, by their numbers from 0 on, and the groups that are pinned, which stand once
/// beside them: a pin reaches all metaslabs or none.
///
/// What a plan does is seen in the planned spaces alone, until it is kept or dropped. A metaslab is copied
/// when a plan first touches it.
#[derive(Drop)]
pub struct MetaslabGroup {
    metaslabs: Vec<PlannedMetaslab>,
    pins: Vec<u64>,
}

impl Model for MetaslabGroup {
    ghost use Rattle.std.specs.Prelude.{map};
    ghost use Rattle.metaslab.specs.Spaces.{GroupSpaces};

    ghost Value = { GroupSpaces };

    ghost view = { λ g. record {
      kept = map (λ m. m.kept) g.metaslabs.items;
      planned = map (λ m. m.planned) g.metaslabs.items;
      pins = g.pins.items;
    } };
}

impl MetaslabGroup {
    ghost use Rattle.std.specs.Prelude.{◌∷◌, ◌++◌, ◌↔◌, IsTrue};
    ghost use Rattle.metaslab.specs.State.{Free, InUse, Released};
    ghost use Rattle.std.specs.Bool.{OnTrue, OnFalse};
    ghost use Rattle.metaslab.specs.Spaces.{AreWhollyFree, HasFreeRunIn, IsFreeIn, IsInUseIn};
    ghost use Rattle.metaslab.specs.Spaces.{ChangesIn, AreSettled, AreSettledInPart, without};
    ghost use Rattle.metaslab.specs.Calls.{AreUnused};
    ghost use Rattle.metaslab.specs.Maps.{AreWhollyFreeOf};
    ghost use Rattle.metaslab.specs.Maps.{HoldsAt, LoadsAt};

    /// So many metaslabs of so many sectors each, all of them free, with no plan and no pinned group.
    pub fn new(alloc: Global, count: usize, sectors: u64) -> Result<MetaslabGroup, AllocError>
        requires not_empty { 0 < sectors }
        requires few { sectors < 2 ^ 47 }
        ensures count { IfOk result (λ group. length group.kept ≡ count) }
        ensures free { IfOk result (λ group. AreWhollyFree group.kept sectors) }
        ensures planned { IfOk result (λ group. group.planned ≡ group.kept) }
        ensures pins { IfOk result (λ group. group.pins ≡ []) }
    {
        let mut metaslabs = Vec::new(alloc);
        for _ in 0..count {
            metaslabs.push(PlannedMetaslab::new(alloc, FreeSet::new(alloc, sectors)?))?;
        }
        Ok(MetaslabGroup {
            metaslabs,
            pins: Vec::new(alloc),
        })
    }

    /// How many metaslabs there are.
    pub fn count(&self) -> usize
        ensures kept { result ≡ length self.now.kept }
        ensures planned { result ≡ length self.now.planned }
    {
        self.metaslabs.len()
    }

    /// Whether so many sectors in a row are free in a metaslab beside what is planned.
    pub fn has_room(&self, metaslab: usize, sectors: u64) -> bool
        requires is_there { metaslab < length self.now.planned }
        requires some { 0 < sectors }
        ensures { IsTrue result ↔ HasFreeRunIn self.now.planned metaslab sectors }
    {
        self.metaslabs[metaslab].has_room(sectors)
    }

    /// Whether all sectors of a run of a metaslab are in use beside what is planned.
    pub fn is_in_use(&self, metaslab: usize, run: Run) -> bool
        requires is_there { metaslab < length self.now.planned }
        requires some { 0 < run.len }
        ensures { IsTrue result ↔ IsInUseIn self.now.planned metaslab run }
    {
        self.metaslabs[metaslab].is_in_use(run)
    }

    /// Takes so many free sectors in a row of a metaslab, any, for the plan, and gives the first one's number.
    /// `NoSpace` comes only where no so many are free in a row, and `NoMemory` may come in its place. An error
    /// changes nothing.
    pub fn allocate(&mut self, metaslab: usize, sectors: u64) -> Result<u64, Refusal>
        requires is_there { metaslab < length self.old.planned }
        requires some { 0 < sectors }
        ensures taken { IfOk result (λ start. ChangesIn self.old.planned self.new.planned metaslab
            (record { start = start; len = sectors }) Free InUse) }
        ensures in_use { IfOk result (λ start. IsInUseIn self.new.planned metaslab
            (record { start = start; len = sectors })) }
        ensures no_space { result ≡ Err Refusal.NoSpace
            → ¬ HasFreeRunIn self.old.planned metaslab sectors }
        ensures err { OnErr result (self.new ≡ self.old) }
        ensures rest { self.new ≡ record self.old { planned = self.new.planned } }
    {
        let run = self.metaslabs[metaslab].allocate(sectors)?;
        Ok(run.start)
    }

    /// Takes in a run of a metaslab where a block lies already: its sectors were free, without what is planned and with
    /// it, and are in use in both from now on. `false` where they were not. Neither `false` nor an error, that memory is
    /// short, changes anything.
    pub fn take_in(&mut self, metaslab: usize, run: Run) -> Result<bool, AllocError>
        requires is_there { metaslab < length self.old.planned }
        requires some { 0 < run.len }
        ensures free { IfOk result (λ is_free. IsTrue is_free
            ↔ (IsFreeIn self.old.kept metaslab run × IsFreeIn self.old.planned metaslab run)) }
        ensures kept { IfOk result (λ is_free. OnTrue is_free
            (ChangesIn self.old.kept self.new.kept metaslab run Free InUse)) }
        ensures planned { IfOk result (λ is_free. OnTrue is_free
            (ChangesIn self.old.planned self.new.planned metaslab run Free InUse)) }
        ensures pins { self.new.pins ≡ self.old.pins }
        ensures left { IfOk result (λ is_free. OnFalse is_free (self.new ≡ self.old)) }
        ensures err { OnErr result (self.new ≡ self.old) }
    {
        self.metaslabs[metaslab].take_in(run)
    }

    /// Releases a run in use of a metaslab, with the group that is planned. An error, that memory is short,
    /// changes nothing.
    pub fn release(&mut self, metaslab: usize, run: Run, group: u64) -> Result<(), AllocError>
        requires some { 0 < run.len }
        requires in_use { IsInUseIn self.old.planned metaslab run }
        ensures released { OnOk result
            (ChangesIn self.old.planned self.new.planned metaslab run InUse (Released group)) }
        ensures err { OnErr result (self.new ≡ self.old) }
        ensures rest { self.new ≡ record self.old { planned = self.new.planned } }
    {
        self.metaslabs[metaslab].release(run, group)
    }

    /// All sectors of a metaslab that are not in use without the plan, those too that were released and are not free yet.
    pub fn unused_before(&self, metaslab: usize) -> Result<FreeSet, AllocError>
        requires { metaslab < length self.now.kept }
        ensures { IfOk result (λ free.
            HoldsAt (λ spaces. AreUnused spaces.kept free) self.now metaslab) }
    {
        self.metaslabs[metaslab].unused_before()
    }

    /// All sectors of a metaslab that are not in use with the plan, those too that were released and are not free yet.
    pub fn unused(&self, metaslab: usize) -> Result<FreeSet, AllocError>
        requires { metaslab < length self.now.planned }
        ensures { IfOk result (λ free.
            HoldsAt (λ spaces. AreUnused spaces.planned free) self.now metaslab) }
    {
        self.metaslabs[metaslab].unused()
    }

    /// Takes in the free set that a metaslab's space map leaves: all other sectors of it are in use, without a plan and
    /// with it. `false`, which changes nothing, where some sector of it isn't free as the call begins, or the set is of a
    /// metaslab with more sectors or fewer.
    pub fn load(&mut self, metaslab: usize, free: FreeSet) -> bool
        requires { metaslab < length self.old.planned }
        ensures free { IsTrue result
            ↔ HoldsAt (AreWhollyFreeOf free.sectors) self.old metaslab }
        ensures loaded { OnTrue result (LoadsAt self.old metaslab free self.new) }
        ensures left { OnFalse result (self.new ≡ self.old) }
    {
        self.metaslabs[metaslab].load(free)
    }

    /// Begins the plan of a group: what was planned is dropped, and what is due becomes free in each metaslab.
    /// After an error, that memory is short, that was done in some metaslabs and not in others. Nothing is wrong
    /// then: the next call does the rest.
    pub fn settle(&mut self, group: u64) -> Result<(), AllocError>
        ensures settled { OnOk result (AreSettled self.old.pins group self.old.kept self.new.kept) }
        ensures err { OnErr result
            (AreSettledInPart self.old.pins group self.old.kept self.new.kept) }
        ensures planned { self.new.planned ≡ self.new.kept }
        ensures pins { self.new.pins ≡ self.old.pins }
    {
        self.drop_planned();
        settle_each(&mut self.metaslabs, &self.pins, group)
    }

    /// Takes what is planned as what is there, as the plan's group is committed.
    pub fn keep_planned(&mut self)
        ensures { self.new ≡ record self.old { kept = self.old.planned } }
    {
        for metaslab in 0..self.metaslabs.len() {
            self.metaslabs[metaslab].keep_planned();
        }
    }

    /// Drops what is planned. It takes no memory.
    pub fn drop_planned(&mut self)
        ensures { self.new ≡ record self.old { planned = self.old.kept } }
    {
        for metaslab in 0..self.metaslabs.len() {
            self.metaslabs[metaslab].drop_planned();
        }
    }

    /// Pins a group beside those that are: what it may read is not handed out, in any metaslab and in no plan
    /// that is begun from now on. An error, that memory is short, changes nothing.
    pub fn pin(&mut self, group: u64) -> Result<(), AllocError>
        ensures pinned { OnOk result
            (self.new ≡ record self.old { pins = self.old.pins ++ group ∷ [] }) }
        ensures err { OnErr result (self.new ≡ self.old) }
    {
        self.pins.push(group)?;
        Ok(())
    }

    /// Unpins a group, however often it was pinned.
    pub fn unpin(&mut self, group: u64)
        ensures { self.new ≡ record self.old { pins = without self.old.pins group } }
    {
        self.pins.retain(|pin| *pin != group);
    }
}
