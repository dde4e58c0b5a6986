//! The threads that bring groups on.
ghost use Rattle.std.specs.Prelude.{◌≡◌};

use crate::signals::Signals;
use pool_model::{Reply, Step};
use pool_steps::PoolSteps;
use shared_pool::{Quiescer, Refusal, SharedPool, Shares};
use std::sync::Wait;
use std::sync::ledger::Ledger;

/// A schedule tells no time.
pub(crate) const TIMESTAMP: u64 = 0;

/// The step that brings the group of a reply on, unless it is committed or refused.
pub(crate) fn next_step(reply: &Reply) -> Option<Step> {
    match reply {
        Reply::Closed(_) => Some(Step::Quiesce),
        Reply::Quiesced(_) | Reply::Replan(_) => Some(Step::Plan {
            timestamp: TIMESTAMP,
        }),
        Reply::Planned(_) | Reply::Moved(_) => Some(Step::Device),
        _ => None,
    }
}

/// Closes and quiesces groups, until no writer is left.
pub(crate) fn quiesce_groups<C: PoolSteps, L: Ledger, M: Ledger, R: Wait>(
    rt: &R,
    pool: &SharedPool<C, L, M>,
    signals: &Signals,
    shares: Shares<L, M>,
) -> Shares<L, M>
    ensures { result.steps.parts ≡ shares.steps.parts }
{
    let mut quiescer = pool.quiescer(shares);
    let mut seen = 0;
    let mut closed_at = 0;
    for _ in rt.forever() {
        if !signals.wait(rt, &mut seen) {
            break;
        }
        turn(rt, &mut quiescer, signals, &mut closed_at);
    }
    quiescer.into_shares()
}

/// Quiesces the group that waits; or else closes the open one, where holds were given back since the last time.
fn turn<C: PoolSteps, L: Ledger, M: Ledger, R: Wait>(
    rt: &R,
    quiescer: &mut Quiescer<'_, C, L, M>,
    signals: &Signals,
    closed_at: &mut u64,
)
    ensures { quiescer.new.shares.steps.parts ≡ quiescer.old.shares.steps.parts }
{
    if signals.note(&quiescer.quiesce(rt)) {
        return;
    }
    let releases = signals.releases();
    if releases != *closed_at && signals.note(&quiescer.close(rt)) {
        *closed_at = releases;
    }
}

/// What the syncer does behind an answer.
enum Next {
    Device,
    Plan,
    Wait,
}

fn behind(answer: &Result<Reply, Refusal>) -> Next {
    match answer {
        Ok(Reply::Planned(_) | Reply::Moved(_)) => Next::Device,
        Ok(Reply::Replan(_)) => Next::Plan,
        _ => Next::Wait,
    }
}

/// Plans groups and writes them, until no writer is left. First it goes on with what is planned already.
pub(crate) fn sync_groups<C: PoolSteps, L: Ledger, M: Ledger, R: Wait>(
    rt: &R,
    pool: &SharedPool<C, L, M>,
    signals: &Signals,
    shares: Shares<L, M>,
) -> Shares<L, M>
    ensures { result.steps.parts ≡ shares.steps.parts }
{
    let mut syncer = pool.syncer(shares);
    let mut seen = 0;
    let mut answer = syncer.device(rt);
    for _ in rt.forever() {
        signals.note(&answer);
        answer = match behind(&answer) {
            Next::Device => syncer.device(rt),
            Next::Plan => syncer.plan(rt, TIMESTAMP),
            Next::Wait => {
                if !signals.wait(rt, &mut seen) {
                    break;
                }
                syncer.plan(rt, TIMESTAMP)
            }
        };
    }
    syncer.into_shares()
}
