//! Threads that share a pool, round by round: a round ends where all lines are sent, or the record is full.
ghost use Rattle.std.specs.Prelude.{◌≡◌, ◌+◌, ◌<◌, vec_len, IfOk, OnOk};
ghost use Rattle.thread_runs.specs.Printing.{PrintsRecords};

use crate::dealing::roles_for;
use crate::record::{commit_all, print_record, take_all};
use crate::refusal::Refusal;
use crate::seats::{Role, Seat, play, roles_of, seats_of};
use crate::signals::Signals;
use crate::thread_lines::ThreadLines;
use pool_model::Step;
use pool_steps::PoolSteps;
use shared_pool::{Recorded, SharedPool, Shares};
use std::alloc::{AllocError, Global};
use std::io::Write;
use std::sync::Wait;
use std::sync::ledger::Ledger;
use std::thread;
use std::thread::Threads;

/// Plays each seat in a thread of its own, over a pool that they share.
fn play_all<
    C: PoolSteps + Send,
    L: Ledger + Send + Sync,
    M: Ledger + Send + Sync,
    R: Threads + Wait + Sync,
>(
    rt: &R,
    alloc: Global,
    recorded: Recorded<C, L, M>,
    seats: Vec<Seat<L, M>>,
    signals: &Signals,
) -> Result<(Recorded<C, L, M>, Vec<Seat<L, M>>), AllocError>
    ensures { IfOk result (λ played. vec_len played.1 ≡ vec_len seats) }
{
    let pool = SharedPool::new(recorded);
    let shared = &pool;
    let seats = thread::map_vec(
        rt,
        seats,
        &|seat: Seat<L, M>| play(rt, alloc, shared, signals, seat),
    )?;
    Ok((pool.into_inner(), seats))
}

/// What a round leaves.
struct Round<C: PoolSteps, L: Ledger, M: Ledger> {
    recorded: Recorded<C, L, M>,
    roles: Vec<Role>,
    is_full: bool,
}

fn play_round<
    C: PoolSteps + Send,
    L: Ledger + Send + Sync,
    M: Ledger + Send + Sync,
    R: Threads + Wait + Sync,
>(
    rt: &R,
    alloc: Global,
    recorded: Recorded<C, L, M>,
    all: &mut Shares<L, M>,
    roles: Vec<Role>,
) -> Result<Round<C, L, M>, Refusal>
    requires { vec_len roles < all.old.steps.parts }
    ensures parts { OnOk result (all.new.steps.parts ≡ all.old.steps.parts) }
    ensures len { IfOk result (λ round. vec_len round.roles ≡ vec_len roles) }
{
    let writing = (roles.len() as u64).saturating_sub(2);
    let seats = seats_of(alloc, all, roles)?;
    let signals = Signals::new(writing);
    let (recorded, seats) = play_all(rt, alloc, recorded, seats, &signals)?;
    let roles = roles_of(alloc, all, seats)?;
    if signals.is_lacking() {
        return Err(Refusal::Memory);
    }
    Ok(Round {
        recorded,
        roles,
        is_full: signals.is_full(),
    })
}

/// Plays the roles until all lines are sent. Each record that is full is printed, and they go on.
fn play_on<
    C: PoolSteps + Send,
    L: Ledger + Send + Sync,
    M: Ledger + Send + Sync,
    R: Threads + Wait + Sync,
    W: Write,
>(
    rt: &R,
    alloc: Global,
    mut recorded: Recorded<C, L, M>,
    all: &mut Shares<L, M>,
    mut roles: Vec<Role>,
    output: &mut W,
) -> Result<Recorded<C, L, M>, Refusal>
    requires whole { (all.old.steps.parts ≡ L.parts) × (L.parts ≡ M.parts) }
    requires enough { vec_len roles < all.old.steps.parts }
    ensures printed { OnOk result
        (PrintsRecords C.PoolSteps (W.contents output.old) (W.contents output.new)) }
    ensures parts { OnOk result (all.new.steps.parts ≡ all.old.steps.parts) }
{
    for _ in 0..u64::MAX {
        let played = play_round(rt, alloc, recorded, all, roles)?;
        let Round {
            recorded: back,
            roles: left,
            is_full,
        } = played;
        recorded = back;
        roles = left;
        if !is_full {
            return Ok(recorded);
        }
        print_record(alloc, &mut recorded, all, output)?;
    }
    Err(Refusal::Memory)
}

/// Runs lines of writers by threads over the core of a record, commits what is left, and reads. Each record is printed, the last one
/// at the end.
pub fn run_in_threads<
    C: PoolSteps + Send,
    L: Ledger + Send + Sync,
    M: Ledger + Send + Sync,
    R: Threads + Wait + Sync,
    W: Write,
>(
    rt: &R,
    alloc: Global,
    recorded: Recorded<C, L, M>,
    mut all: Shares<L, M>,
    lines: ThreadLines,
    output: &mut W,
) -> Result<(), Refusal>
    requires whole { (all.steps.parts ≡ L.parts) × (L.parts ≡ M.parts) }
    requires enough { (0 < lines.threads) × (lines.threads + 2 < L.parts) }
    ensures { OnOk result
        (PrintsRecords C.PoolSteps (W.contents output.old) (W.contents output.new)) }
{
    let ThreadLines {
        threads,
        writers,
        reads,
    } = lines;
    let roles = roles_for(alloc, writers, threads)?;
    let recorded = play_on(rt, alloc, recorded, &mut all, roles, output)?;
    end(alloc, recorded, all, reads, output)
}

/// Commits what is left, reads, and prints the last record.
fn end<C: PoolSteps, L: Ledger, M: Ledger, W: Write>(
    alloc: Global,
    mut recorded: Recorded<C, L, M>,
    mut all: Shares<L, M>,
    reads: Vec<Step>,
    output: &mut W,
) -> Result<(), Refusal>
    requires { (all.steps.parts ≡ L.parts) × (L.parts ≡ M.parts) }
    ensures { OnOk result
        (PrintsRecords C.PoolSteps (W.contents output.old) (W.contents output.new)) }
{
    commit_all(alloc, &mut recorded, &mut all, output)?;
    take_all(alloc, &mut recorded, &mut all, output, reads)?;
    print_record(alloc, &mut recorded, &mut all, output)
}
