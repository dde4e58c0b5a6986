ghost use Rattle.std.specs.Prelude.{◌≡◌, ◌+◌, ◌^◌, ◌<◌, ◌≤◌, ℕ, List, OnOk, OnErr, IfOk, IfSome, IfNone, IsErrOf};
ghost use Rattle.space_map.specs.Entry.{FitsEntry};
ghost use Rattle.space_map.specs.Map.{all_free};
ghost use Rattle.space_map.specs.FreeRuns.{AreFree, IsSet, entry_of, CanEnter, IsEntered, HasRoom};

use crate::entry::{Entry, Kind, Run};
use crate::refusal::Refusal;
use crate::runs::{first_fit, give_run, take_run};
use std::alloc::{AllocError, Global};
use std::marker::Model;

/// The free sectors of a metaslab, as runs that ascend and do not touch.
#[derive(Drop)]
pub struct FreeSet {
    sectors: u64,
    runs: Vec<Run>,
}

impl Model for FreeSet {
    ghost use Rattle.std.specs.Prelude.{◌+◌, ◌^◌, ◌<◌};
    ghost use Rattle.space_map.specs.Sectors.{AreBetween};
    ghost use Rattle.space_map.specs.FreeRuns.{FreeRuns};

    ghost Value = { FreeRuns };

    ghost view = { λ f. record { sectors = f.sectors; runs = f.runs.items } };

    ghost invariant = { λ f. (f.sectors < 2 ^ 47) × AreBetween 0 (f.sectors + 1) f.runs.items };
}

impl FreeSet {
    /// All sectors of a metaslab.
    pub fn new(alloc: Global, sectors: u64) -> Result<FreeSet, AllocError>
        requires not_empty { 0 < sectors }
        requires few { sectors < 2 ^ 47 }
        ensures { IfOk result (λ set. IsSet set sectors (all_free sectors)) }
    {
        let mut runs = Vec::new(alloc);
        runs.push(Run {
            start: 0,
            len: sectors,
        })?;
        Ok(FreeSet { sectors, runs })
    }

    /// How many sectors the metaslab has.
    pub fn sectors(&self) -> u64
        ensures { result ≡ self.now.sectors }
    {
        self.sectors
    }

    /// The free runs: they ascend, and none touches the next.
    pub fn runs(&self) -> &[Run]
        ensures runs { result.now ≡ self.now.runs }
        ensures apart { AreFree self.now }
    {
        let _ = &self.sectors;
        self.runs.as_slice()
    }

    /// Allocates or frees the run of an entry. A run that lies past the metaslab's end, or whose
    /// sectors are not all free or all allocated before, is refused with `BadMap`. A refusal changes
    /// nothing.
    pub fn apply(&mut self, entry: Entry) -> Result<(), Refusal>
        requires { FitsEntry entry }
        ensures ok { OnOk result (IsEntered self.old self.new entry) }
        ensures changes { OnOk result (CanEnter self.old entry) }
        ensures bad { IsErrOf result Refusal.BadMap → ¬ CanEnter self.old entry }
        ensures err { OnErr result (self.new ≡ self.old) }
    {
        let sectors = self.sectors;
        if entry.run.start + entry.run.len > sectors {
            return Err(Refusal::BadMap);
        }
        self.change(entry.kind, entry.run)
    }

    /// Allocates or frees a run of the metaslab, in sectors of 512 bytes and of any length. `BadMap` comes
    /// where its sectors are not all free before they are allocated, or not all allocated before they are
    /// freed. A refusal changes nothing.
    pub fn change(&mut self, kind: Kind, run: Run) -> Result<(), Refusal>
        requires not_empty { 0 < run.len }
        requires within { run.start + run.len ≤ self.old.sectors }
        ensures ok { OnOk result (IsEntered self.old self.new (entry_of kind run)) }
        ensures changes { OnOk result (CanEnter self.old (entry_of kind run)) }
        ensures bad { IsErrOf result Refusal.BadMap → ¬ CanEnter self.old (entry_of kind run) }
        ensures err { OnErr result (self.new ≡ self.old) }
    {
        let sectors = self.sectors;
        match kind {
            Kind::Allocated => take_run(&mut self.runs, run, sectors)?,
            Kind::Freed => give_run(&mut self.runs, run, sectors)?,
        }
        Ok(())
    }

    /// So many free sectors in a row, if there are: the front of the first free run that has as many.
    pub fn find(&self, sectors: u64) -> Option<Run>
        requires { 0 < sectors }
        ensures len { IfSome result (λ run. run.len ≡ sectors) }
        ensures free { IfSome result (λ run. CanEnter self.now (entry_of Kind.Allocated run)) }
        ensures none { IfNone result (¬ HasRoom self.now sectors) }
    {
        let _ = &self.sectors;
        first_fit(&self.runs, sectors)
    }
}

impl Clone for FreeSet {
    ghost is_clone = { λ set copy. copy ≡ set };

    fn clone(&self) -> Result<FreeSet, AllocError> {
        Ok(FreeSet {
            sectors: self.sectors,
            runs: Vec::from_slice(*self.runs.allocator(), &self.runs)?,
        })
    }
}
