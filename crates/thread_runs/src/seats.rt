//! What each thread does, and its share of what is counted.
ghost use Rattle.std.specs.Prelude.{◌≡◌, ◌+◌, ◌<◌, vec_len, IfOk, OnOk};

use crate::signals::Signals;
use crate::syncing::{quiesce_groups, sync_groups};
use crate::writer_line::WriterLine;
use crate::writing::write_lines;
use pool_steps::PoolSteps;
use shared_pool::{SharedPool, Shares};
use std::alloc::{AllocError, Global};
use std::sync::Wait;
use std::sync::ledger::Ledger;

/// What a thread does.
#[derive(Drop)]
pub(crate) enum Role {
    /// Sends these lines, the last one first.
    Writers(Vec<WriterLine>),
    /// Closes and quiesces groups.
    Quiescer,
    /// Plans groups and writes them.
    Syncer,
}

/// A thread's role, with one part of what is counted.
#[derive(Drop)]
pub(crate) struct Seat<L: Ledger, M: Ledger> {
    shares: Shares<L, M>,
    role: Role,
    ghost one: { shares.steps.parts ≡ 1 },
}

/// Plays a role to its end, or until the threads are to stop.
pub(crate) fn play<C: PoolSteps, L: Ledger, M: Ledger, R: Wait>(
    rt: &R,
    alloc: Global,
    pool: &SharedPool<C, L, M>,
    signals: &Signals,
    seat: Seat<L, M>,
) -> Seat<L, M> {
    let Seat { shares, role } = seat;
    match role {
        Role::Writers(lines) => {
            let (shares, left) = write_lines(rt, alloc, pool, signals, shares, lines);
            let role = Role::Writers(left);
            Seat { shares, role }
        }
        Role::Quiescer => Seat {
            shares: quiesce_groups(rt, pool, signals, shares),
            role,
        },
        Role::Syncer => Seat {
            shares: sync_groups(rt, pool, signals, shares),
            role,
        },
    }
}

/// A seat for a role, whose part is split off.
fn seat_for<L: Ledger, M: Ledger>(all: &mut Shares<L, M>, role: Role) -> Seat<L, M>
    requires { 1 < all.old.steps.parts }
    ensures { all.new.steps.parts + 1 ≡ all.old.steps.parts }
{
    let shares = all.split_off();
    Seat { shares, role }
}

/// A seat for each role, the last role first.
pub(crate) fn seats_of<L: Ledger, M: Ledger>(
    alloc: Global,
    all: &mut Shares<L, M>,
    mut roles: Vec<Role>,
) -> Result<Vec<Seat<L, M>>, AllocError>
    requires { vec_len roles < all.old.steps.parts }
    ensures parts { OnOk result (all.new.steps.parts + vec_len roles ≡ all.old.steps.parts) }
    ensures len { IfOk result (λ seats. vec_len seats ≡ vec_len roles) }
{
    let mut seats = Vec::new(alloc);
    while let Some(role) = roles.pop() {
        seats.push(seat_for(all, role))?;
    }
    Ok(seats)
}

/// The roles, the last one first, whose parts are taken back.
pub(crate) fn roles_of<L: Ledger, M: Ledger>(
    alloc: Global,
    all: &mut Shares<L, M>,
    mut seats: Vec<Seat<L, M>>,
) -> Result<Vec<Role>, AllocError>
    ensures parts { OnOk result (all.new.steps.parts ≡ all.old.steps.parts + vec_len seats) }
    ensures len { IfOk result (λ roles. vec_len roles ≡ vec_len seats) }
{
    let mut roles = Vec::new(alloc);
    while let Some(seat) = seats.pop() {
        roles.push(role_of(all, seat))?;
    }
    Ok(roles)
}

fn role_of<L: Ledger, M: Ledger>(all: &mut Shares<L, M>, seat: Seat<L, M>) -> Role
    ensures { all.new.steps.parts ≡ all.old.steps.parts + 1 }
{
    let Seat { shares, role } = seat;
    all.merge(shares);
    role
}
