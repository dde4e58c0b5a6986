//! Pools on disks that outlive them: they can be stopped, and their disks opened again.
ghost use Rattle.std.specs.Prelude.{◌≡◌, ◌<◌, ◌⊎◌, ℕ, List, None, Some, IfOk, MatchOption, option_map};
ghost use Rattle.std.specs.List.{AllByRecursion};
ghost use Rattle.pool_create.specs.Represents.{Represents};
ghost use Rattle.pool_create.specs.CoreState.{CoreState};
ghost use Rattle.pool_create.specs.CoreStateOf.{state_of as core_state};
ghost use Rattle.pool_model.specs.View.{View};
ghost use Rattle.schedule_lines.specs.declared.command.Command.{Command};
ghost use Rattle.programs.specs.Answers.{IsNoStep};
ghost use Rattle.programs.specs.OnDisks.{Closes, ComesOf, GoesOn, KeepsClaim, PoolState, Reopens, RunsShort, RunsWhole};
ghost use Rattle.programs.specs.OnDisks.{StopsInClaim, StopsThere, TakesSteps, claim_stop, names_no_disk, point_of, state_of};
ghost use Rattle.programs.specs.Plays.{Plays};
ghost use Rattle.programs.specs.Runs.{IsOneRun, IsStoppedRun};
ghost use Rattle.programs.specs.declared.outcome.Outcome.{Outcome as Printed};

use crate::claim_stops::{all_kept, all_told, failed_claim};
use crate::commands::{answer, runs_on};
use crate::disks_kept::{copies, put_back};
use crate::machine::StepMachine;
use crate::outcome::Outcome;
use crate::schedule_pool::SchedulePool;
use crate::stopping::{Point, commit_point, run_to};
use line_steps::first_step;
use model_disk::{MemDisk, Member};
use planners::Planner;
use pool_create::{Core, OpenedPool, open};
use pool_model::Refusal;
use schedule_lines::{Command, PoolLine, ReopenLine, StopPoint};
use std::alloc::{AllocError, Global};

/// How many disks get to their slots in the claim that is to stop.
fn claim_stop(stop: Option<StopPoint>) -> Option<u32>
    ensures { result ≡ claim_stop stop }
{
    match stop {
        Some(StopPoint::Claim { disks }) => Some(disks),
        _ => None,
    }
}

/// Whether one of these numbers is that of no disk, where there are so many.
fn names_no_disk(numbers: &[u32], count: usize) -> bool
    ensures { result ≡ names_no_disk numbers.now count }
{
    for i in 0..numbers.len() {
        if count <= numbers[i] as usize {
            return true;
        }
    }
    false
}

/// A pool on disks in memory that outlive it.
#[derive(Drop)]
pub struct PoolOnDisks {
    /// The pool, while it runs.
    core: Option<Core<Member<MemDisk>>>,
    /// All disks, by number. In the place of those that a core has stands what isn't looked at until it is dropped: disks without a
    /// byte behind a pool that was just made.
    disks: Vec<MemDisk>,
    /// The numbers of the disks that are left out.
    absent: Vec<u32>,
    /// Where the next commit or reopening stops.
    stop: Option<StopPoint>,
}

impl PoolOnDisks {
    /// Where this command stops.
    fn point_of(&self, command: &Command) -> Option<Point>
        ensures { result ≡ point_of (state_of self.now) command.now }
    {
        if runs_on(command) {
            commit_point(self.disks.len(), &self.absent, self.stop)
        } else {
            None
        }
    }

    /// The core, where the pool runs. The disks that it doesn't have are dropped.
    pub fn into_core(self) -> Option<Core<Member<MemDisk>>>
        ensures { option_map core_state result ≡ (state_of self).core }
    {
        self.core
    }

    /// Drops the core, where one runs, and keeps its disks.
    fn close(&mut self)
        ensures core { (state_of self.new).core ≡ None }
        ensures disks { Closes (state_of self.old).core (state_of self.old).disks
            (state_of self.new).disks }
        ensures absent { (state_of self.new).absent ≡ (state_of self.old).absent }
        ensures stop { (state_of self.new).stop ≡ (state_of self.old).stop }
    {
        if let Some(core) = self.core.take() {
            put_back(&mut self.disks, core.into_disks());
        }
    }

    /// Runs a command for which no stop is set.
    fn run_whole<X: Planner>(
        &mut self,
        planner: &X,
        alloc: Global,
        command: Command,
    ) -> Result<Option<Outcome>, AllocError>
        requires ready { X.ready }
        requires step { IsNoStep command → ⊥ }
        requires unset { point_of (state_of self.old) command ≡ None }
        ensures { IfOk result (λ found. MatchOption found ((state_of self.old).core ≡ None)
            (λ outcome. RunsWhole (state_of self.old) command outcome (state_of self.new))) }
    {
        match &mut self.core {
            None => Ok(None),
            Some(core) => match answer(planner, alloc, core, command)? {
                None => Ok(None),
                Some(reply) => Ok(Some(Outcome::Replied(reply))),
            },
        }
    }

    /// Runs a commit to the point at which it stops.
    fn run_to_point<X: Planner>(
        &mut self,
        planner: &X,
        alloc: Global,
        command: Command,
        point: Point,
    ) -> Result<Option<Outcome>, AllocError>
        requires ready { X.ready }
        requires step { IsNoStep command → ⊥ }
        requires set { point_of (state_of self.old) command ≡ Some point }
        ensures { IfOk result (λ found. MatchOption found ((state_of self.old).core ≡ None)
            (λ outcome. RunsShort (state_of self.old) command outcome (state_of self.new)
            ⊎ StopsThere (state_of self.old) command outcome (state_of self.new))) }
    {
        let Some(step) = first_step(alloc, command)? else {
            return Ok(None);
        };
        let Some(core) = &mut self.core else {
            return Ok(None);
        };
        let Some(reply) = run_to(planner, core, step, point) else {
            self.close();
            self.stop = None;
            return Ok(Some(Outcome::Stopped));
        };
        Ok(Some(Outcome::Replied(reply)))
    }

    /// Runs a command that is a step of the pool: none where no pool runs.
    fn run_steps<X: Planner>(
        &mut self,
        planner: &X,
        alloc: Global,
        command: Command,
    ) -> Result<Option<Outcome>, AllocError>
        requires ready { X.ready }
        requires step { IsNoStep command → ⊥ }
        ensures { IfOk result (λ found. MatchOption found ((state_of self.old).core ≡ None)
            (λ outcome. TakesSteps (state_of self.old) command outcome (state_of self.new))) }
    {
        match self.point_of(&command) {
            None => self.run_whole(planner, alloc, command),
            Some(point) => self.run_to_point(planner, alloc, command, point),
        }
    }

    /// Lets a claim of copies of the disks in use fail once it got to so many of them, and keeps those as it leaves them.
    fn stop_claim(
        &mut self,
        alloc: Global,
        reached: u32,
        rewind: u64,
    ) -> Result<Outcome, AllocError>
        requires { rewind < 3 }
        ensures { IfOk result (λ outcome. KeepsClaim
            (state_of self.old) reached rewind outcome (state_of self.new)) }
    {
        let told = all_told(alloc, &self.disks, &self.absent, reached)?;
        let left = failed_claim(alloc, told, rewind)?;
        let members = all_kept(alloc, left)?;
        put_back(&mut self.disks, members);
        self.stop = None;
        Ok(Outcome::Stopped)
    }

    /// Goes on with the pool that was opened, unless it is to stop in its claim.
    fn go_on(
        &mut self,
        alloc: Global,
        opened: OpenedPool<Member<MemDisk>>,
        rewind: u64,
    ) -> Result<Outcome, AllocError>
        requires { rewind < 3 }
        ensures { IfOk result (λ outcome. GoesOn (state_of self.old) (core_state opened.core)
            opened.uberblock rewind outcome (state_of self.new)) }
    {
        match claim_stop(self.stop) {
            Some(reached) => self.stop_claim(alloc, reached, rewind),
            None => {
                self.core = Some(opened.core);
                Ok(Outcome::Opened {
                    group: opened.uberblock.group,
                    claim: opened.uberblock.claim,
                })
            }
        }
    }

    /// Opens the disks again.
    fn reopen(&mut self, alloc: Global, line: ReopenLine) -> Result<Outcome, AllocError>
        requires { line.rewind < 3 }
        ensures { IfOk result (λ outcome.
            Reopens (state_of self.old) line outcome (state_of self.new)
            ⊎ StopsInClaim (state_of self.old) line outcome (state_of self.new)) }
    {
        self.close();
        self.absent = line.absent.into_vec();
        let handed_in = copies(alloc, &self.disks, &self.absent)?;
        match open(alloc, handed_in, line.rewind) {
            Ok((opened, _)) => self.go_on(alloc, opened, line.rewind),
            Err(failed) => Ok(Outcome::Unopened(failed.refusal())),
        }
    }
}

impl SchedulePool for PoolOnDisks {
    ghost use Rattle.programs.specs.Making.{IsMadePool, RefusesOnDisks};
    ghost use Rattle.programs.specs.OnDisks.{CannotStand, ComesOf, state_of};

    ghost creates = { λ line pool. IsMadePool line (state_of pool) };

    ghost refuses = { RefusesOnDisks };

    ghost outcomes = { λ old command outcome new.
        ComesOf (state_of old) command outcome (state_of new) };

    ghost faults = { λ pool command. CannotStand (state_of pool) command };

    fn create(alloc: Global, line: &PoolLine) -> Result<PoolOnDisks, Refusal> {
        let core = <Core<Member<MemDisk>> as StepMachine>::create(alloc, line)?;
        let Ok(disks) = MemDisk::several(alloc, line.disks as usize, 0) else {
            return Err(Refusal::NoMemory);
        };
        Ok(PoolOnDisks {
            core: Some(core),
            disks,
            absent: Vec::new(alloc),
            stop: None,
        })
    }

    fn run_command<X: Planner>(
        &mut self,
        planner: &X,
        alloc: Global,
        command: Command,
    ) -> Result<Option<Outcome>, AllocError> {
        match command {
            Command::Pool(_) => Ok(None),
            Command::Stop(point) => {
                self.stop = Some(point);
                Ok(Some(Outcome::StopIsSet))
            }
            Command::Reopen(line) => {
                if line.rewind >= 3 || names_no_disk(line.absent.as_slice(), self.disks.len()) {
                    return Ok(None);
                }
                Ok(Some(self.reopen(alloc, line)?))
            }
            other => self.run_steps(planner, alloc, other),
        }
    }
}

/// A law: where no stop is set, the commands that a pool on disks answers up to the next reopening are one run of its core, from each
/// view that it represents, with the whole headline.
pub fn commands_are_runs(first: &PoolOnDisks)
    ensures { (last : _) (core : CoreState) (v : View) (commands : List Command) (text : List ℕ)
        → (state_of first.now).core ≡ Some core → (state_of first.now).stop ≡ None
        → Represents core v → AllByRecursion (λ command. ¬ IsNoStep command) commands
        → Plays (λ old command outcome new. ComesOf (state_of old) command outcome (state_of new))
        first.now commands text last
        → (end : CoreState) × ((state_of last).core ≡ Some end)
        × IsOneRun core v commands text end }
{
    let _ = first;
}

/// A law: the steps of a commit that is stopped are one run of the core too, and its disks are those that are kept.
pub fn stopped_commits_are_runs(first: &PoolOnDisks)
    ensures { (core : CoreState) (v : View) (command : Command) (outcome : Printed)
        (new : PoolState)
        → (state_of first.now).core ≡ Some core → Represents core v
        → (stops : StopsThere (state_of first.now) command outcome new)
        → IsStoppedRun core v stops.first stops.later
        × Closes (Some stops.later) (state_of first.now).disks new.disks }
{
    let _ = first;
}
