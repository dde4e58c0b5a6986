//! Rounds of writes, each over a pool of its own.
ghost use Rattle.std.specs.Prelude.{◌≡◌};
ghost use Rattle.pool_model.specs.View.{View};

use crate::measured::new_pool;
use crate::takers::{ByItself, InRecord, Kept};
use crate::timing::{Load, WRITER, timed};
use pool_steps::PoolSteps;
use shared_pool::{Books, Recorded, SharedPool};
use std::alloc::Global;
use std::io;
use std::marker::Brand;
use std::rt::Runtime;
use std::sync::Wait;
use std::sync::ledger::{Blank, Ledger};

/// Who takes the steps.
#[derive(Clone, Copy)]
pub(crate) enum Kind {
    /// Nobody: they are kept.
    Kept,
    /// The core by itself.
    ByItself,
    /// A core whose steps are recorded.
    InRecord,
    /// The same under the lock.
    Locked,
}

fn recorded<C: PoolSteps, L: Ledger, M: Ledger>(
    alloc: Global,
    core: C,
    books: Books<L, M>,
) -> io::Result<Recorded<C, L, M>>
    requires none { (books.steps.total ≡ 0) × (books.calls.total ≡ 0) }
    requires sound { C.answers_tell core core → (v : View) × C.represents core v }
{
    match Recorded::new(alloc, core, books) {
        Ok(recorded) => Ok(recorded),
        Err(_) => Err(io::Error::from(io::ErrorKind::OutOfMemory)),
    }
}

fn in_record<L: Ledger, M: Ledger, R: Runtime + Wait>(
    rt: &R,
    alloc: Global,
    load: Load,
    steps: Blank,
    calls: Blank,
) -> io::Result<u128>
    requires steps { (steps.name ≡ L.name) × (steps.parts ≡ L.parts) }
    requires calls { (calls.name ≡ M.name) × (calls.parts ≡ M.parts) }
    requires one { (steps.parts ≡ 1) × (calls.parts ≡ 1) }
{
    let core = new_pool(alloc)?;
    let (books, shares) = Books::<L, M>::open(steps, calls);
    let recorded = recorded(alloc, core, books)?;
    timed(rt, alloc, &mut InRecord { recorded, shares }, load)
}

fn locked<L: Ledger, M: Ledger, R: Runtime + Wait>(
    rt: &R,
    alloc: Global,
    load: Load,
    steps: Blank,
    calls: Blank,
) -> io::Result<u128>
    requires steps { (steps.name ≡ L.name) × (steps.parts ≡ L.parts) }
    requires calls { (calls.name ≡ M.name) × (calls.parts ≡ M.parts) }
    requires one { (steps.parts ≡ 1) × (calls.parts ≡ 1) }
{
    let core = new_pool(alloc)?;
    let (books, shares) = Books::<L, M>::open(steps, calls);
    let pool = SharedPool::new(recorded(alloc, core, books)?);
    timed(rt, alloc, &mut pool.writer(WRITER, shares), load)
}

/// `in_record` in ledgers of its own.
fn newly_recorded<R: Runtime + Wait>(rt: &R, alloc: Global, load: Load) -> io::Result<u128> {
    in_record::<Brand, Brand, R>(rt, alloc, load, Blank::new(1), Blank::new(1))
}

/// `locked` in ledgers of its own.
fn newly_locked<R: Runtime + Wait>(rt: &R, alloc: Global, load: Load) -> io::Result<u128> {
    locked::<Brand, Brand, R>(rt, alloc, load, Blank::new(1), Blank::new(1))
}

/// How long one round takes, in nanoseconds.
fn round<R: Runtime + Wait>(rt: &R, alloc: Global, kind: Kind, load: Load) -> io::Result<u128> {
    match kind {
        Kind::Kept => timed(rt, alloc, &mut Kept(Vec::new(alloc)), load),
        Kind::ByItself => timed(rt, alloc, &mut ByItself(new_pool(alloc)?), load),
        Kind::InRecord => newly_recorded(rt, alloc, load),
        Kind::Locked => newly_locked(rt, alloc, load),
    }
}

/// The fastest of so many rounds, in nanoseconds.
pub(crate) fn fastest<R: Runtime + Wait>(
    rt: &R,
    alloc: Global,
    rounds: u32,
    kind: Kind,
    load: Load,
) -> io::Result<u128> {
    let mut best = u128::MAX;
    for _ in 0..rounds {
        best = best.min(round(rt, alloc, kind, load)?);
    }
    Ok(best)
}
