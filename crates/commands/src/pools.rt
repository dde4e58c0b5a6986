//! Where the commands find their pools.
use pool_command::{Files, NewPool, PoolStatus, ScrubReport, VolumeRow};
use pool_model::Refusal;
use pool_steps::PoolSteps;
use std::alloc::{AllocError, Global};
use std::fmt::Display;
use std::io::Write;

/// Where pools are found, by the files of their disks.
pub trait Pools: Drop {
    ghost use Rattle.std.specs.Prelude.{◌≡◌, ℕ, Bool, List, IfErr, IfOk, OnOk};
    ghost use Rattle.pool_command.specs.declared.command.NewPool.{NewPool};
    ghost use Rattle.pool_command.specs.declared.scrubbing.ScrubReport.{ScrubReport};
    ghost use Rattle.pool_command.specs.declared.status.PoolStatus.{PoolStatus};
    ghost use Rattle.pool_model.specs.View.{View, now_of};
    ghost use Rattle.commands.specs.Rows.{AreRowsOf};

    /// What takes the steps of an opened pool.
    type Pool: PoolSteps;

    /// What else is known of it, and what keeps other commands from it.
    type Front: Drop;

    /// Why a pool is not made, opened or put away. It prints as it stands behind `refused`.
    type Refusal: Display + Drop;

    // The pool on these files is opened.
    ghost opens: { Self → List (List ℕ) → Self.Pool → Self.Front → Self → Type 0 };

    // It is not, for this cause.
    ghost refuses: { Self → List (List ℕ) → Self.Refusal → Self → Type 0 };

    // The pool on these files is opened, every block that its last group leads to is looked at and mended, and it goes on.
    ghost scrubs: { Self → List (List ℕ) → Self.Pool → Self.Front → ScrubReport → Self → Type 0 };

    // It is not, for this cause.
    ghost refuses_scrub: { Self → List (List ℕ) → Self.Refusal → Self → Type 0 };

    // This pool is made.
    ghost makes: { Self → NewPool → Self → Type 0 };

    // It is not, for this cause.
    ghost refuses_new: { Self → NewPool → Self.Refusal → Self → Type 0 };

    // A command is done with a pool.
    ghost closes: { Self → Self.Pool → Self.Front → Self → Type 0 };

    // A pool is put away.
    ghost exports: { Self → Self.Pool → Self.Front → Self → Type 0 };

    // It is not, for this cause.
    ghost refuses_export: { Self → Self.Pool → Self.Front → Self.Refusal → Self → Type 0 };

    // Of the disks that were in use as the pool was opened one is out.
    ghost has_lost: { Self.Pool → Self.Front → Bool };

    // What a status tells of the pool.
    ghost shows: { Self.Pool → Self.Front → PoolStatus → Type 0 };

    /// Opens the pool on these files, in any order, and claims it. A file that can't be opened is absent.
    fn open(
        &mut self,
        alloc: Global,
        files: &Files,
    ) -> Result<(Self::Pool, Self::Front), Self::Refusal>
        ensures opened { IfOk result (λ opened.
            opens self.old files.now opened.0 opened.1 self.new) }
        ensures refused { IfErr result (λ cause. refuses self.old files.now cause self.new) };

    /// Opens the pool on these files, looks at every column of every block that its last group leads to, writes those anew that are unreadable
    /// or wrong on a disk that is there, looks at all again, and begins its core anew.
    fn scrub(
        &mut self,
        alloc: Global,
        files: &Files,
    ) -> Result<(Self::Pool, Self::Front, ScrubReport), Self::Refusal>
        ensures scrubbed { IfOk result (λ scrubbed.
            scrubs self.old files.now scrubbed.0 scrubbed.1 scrubbed.2 self.new) }
        ensures refused { IfErr result (λ cause.
            refuses_scrub self.old files.now cause self.new) };

    /// Makes the files anew, in order, and a pool on them. After a refusal those are gone again that this call made.
    fn create(&mut self, alloc: Global, pool: NewPool) -> Result<(), Self::Refusal>
        ensures made { OnOk result (makes self.old pool self.new) }
        ensures refused { IfErr result (λ cause. refuses_new self.old pool cause self.new) };

    /// Leaves an opened pool. What was accepted and isn't committed is dropped.
    fn close(&mut self, pool: Self::Pool, front: Self::Front)
        ensures { closes self.old pool front self.new };

    /// Puts an opened pool away.
    fn export(
        &mut self,
        alloc: Global,
        pool: Self::Pool,
        front: Self::Front,
    ) -> Result<(), Self::Refusal>
        ensures exported { OnOk result (exports self.old pool front self.new) }
        ensures refused { IfErr result (λ cause.
            refuses_export self.old pool front cause self.new) };

    /// Whether a disk went out since the pool was opened.
    fn has_lost_disk(
        alloc: Global,
        pool: &Self::Pool,
        front: &Self::Front,
    ) -> Result<bool, AllocError>
        ensures { IfOk result (λ lost. lost ≡ has_lost pool.now front.now) };

    /// Tells in lines that begin with the program's name which of these files are no disks of a pool, where one was not opened for this cause. What
    /// is told here no clause says, and pools that know nothing more tell nothing.
    fn explain_files<E: Write>(
        &self,
        alloc: Global,
        files: &Files,
        cause: &Self::Refusal,
        program: &str,
        errors: &mut E,
    ) {
        let _ = alloc;
        let _ = files;
        let _ = cause;
        let _ = program;
        let _ = errors;
    }

    /// Likewise what doesn't fit of a pool that was not made for this cause.
    fn explain_new<E: Write>(
        &self,
        pool: &NewPool,
        cause: &Self::Refusal,
        program: &str,
        errors: &mut E,
    ) {
        let _ = pool;
        let _ = cause;
        let _ = program;
        let _ = errors;
    }

    /// The volumes and snapshots, in the order of their names. `BadPointer` where a name is no text, which no pool has.
    fn rows(alloc: Global, pool: &Self::Pool) -> Result<Vec<VolumeRow>, Refusal>
        ensures { IfOk result (λ rows. (v : View) → Self.Pool.represents pool.now v
            → AreRowsOf (now_of v) rows.items) };

    /// The pool's name, its claim, its last group and its disks.
    fn status(
        alloc: Global,
        pool: &Self::Pool,
        front: &Self::Front,
    ) -> Result<PoolStatus, AllocError>
        ensures { IfOk result (λ status. shows pool.now front.now status) };
}
