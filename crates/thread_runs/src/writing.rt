//! The threads of writers.
ghost use Rattle.std.specs.Prelude.{◌≡◌, IfOk};
ghost use Rattle.shared_pool.specs.Moments.{WasTaken};
ghost use Rattle.thread_runs.specs.Asking.{asked, step_of};

use crate::signals::Signals;
use crate::writer_line::{Ask, WriterLine};
use pool_model::{Refusal as Cause, Reply};
use pool_steps::PoolSteps;
use shared_pool::{Refusal, SharedPool, Shares, Writer};
use std::alloc::{AllocError, Global};
use std::sync::Wait;
use std::sync::ledger::Ledger;

/// Asks once, and gives the reply with which the step was recorded.
fn send<C: PoolSteps, L: Ledger, M: Ledger, R: Wait>(
    rt: &R,
    alloc: Global,
    writer: &mut Writer<'_, C, L, M>,
    ask: &mut Ask,
) -> Result<Reply, Refusal>
    ensures taken { IfOk result (WasTaken C.PoolSteps (asked writer.old.number ask.old)) }
    ensures same { ask.new ≡ ask.old }
    ensures parts { writer.new.shares.steps.parts ≡ writer.old.shares.steps.parts }
{
    match ask {
        Ask::Hold => writer.hold(rt),
        Ask::Release => writer.release(rt),
        Ask::Write {
            number,
            volume,
            offset,
            bytes,
        } => {
            let volume = volume.copied(alloc)?;
            let bytes = bytes.share(alloc)?;
            writer.write(rt, *number, volume, *offset, bytes)
        }
        Ask::Act { number, change } => {
            let change = change.copied(alloc)?;
            writer.act(rt, *number, change)
        }
    }
}

/// Sends a line once.
fn sent<C: PoolSteps, L: Ledger, M: Ledger, R: Wait>(
    rt: &R,
    alloc: Global,
    pool: &SharedPool<C, L, M>,
    line: &mut WriterLine,
    shares: Shares<L, M>,
) -> (Shares<L, M>, Result<Reply, Refusal>)
    ensures taken { IfOk result.1 (WasTaken C.PoolSteps (step_of line.old)) }
    ensures same { line.new ≡ line.old }
    ensures parts { result.0.steps.parts ≡ shares.steps.parts }
{
    let mut writer = pool.writer(line.writer, shares);
    let answer = send(rt, alloc, &mut writer, &mut line.ask);
    (writer.into_shares(), answer)
}

/// Whether an action came too late: its hold is of a group that is open no more.
fn is_late(ask: &Ask, reply: &Reply) -> bool {
    matches!(ask, Ask::Act { .. }) && matches!(reply, Reply::Refused(Cause::NotNow))
}

/// Takes away the line that was answered; or, where it came too late, lets the hold be given back and taken anew before it.
fn go_on(lines: &mut Vec<WriterLine>, reply: &Reply) -> Result<(), AllocError> {
    let Some(line) = lines.last() else {
        return Ok(());
    };
    if is_late(&line.ask, reply) {
        let writer = line.writer;
        lines.push(WriterLine {
            writer,
            ask: Ask::Hold,
        })?;
        lines.push(WriterLine {
            writer,
            ask: Ask::Release,
        })?;
    } else {
        let _ = lines.pop();
    }
    Ok(())
}

/// Sends lines, the last one first: those that are left where the record is full or memory ran out.
pub(crate) fn write_lines<C: PoolSteps, L: Ledger, M: Ledger, R: Wait>(
    rt: &R,
    alloc: Global,
    pool: &SharedPool<C, L, M>,
    signals: &Signals,
    mut shares: Shares<L, M>,
    mut lines: Vec<WriterLine>,
) -> (Shares<L, M>, Vec<WriterLine>)
    ensures { result.0.steps.parts ≡ shares.steps.parts }
{
    for _ in rt.forever() {
        if signals.is_stopped() {
            break;
        }
        let Some(line) = lines.last_mut() else {
            break;
        };
        let (back, answer) = sent(rt, alloc, pool, line, shares);
        shares = back;
        settle(signals, &mut lines, &answer);
    }
    signals.end_writers();
    (shares, lines)
}

fn settle(signals: &Signals, lines: &mut Vec<WriterLine>, answer: &Result<Reply, Refusal>) {
    signals.note(answer);
    if let Ok(reply) = answer
        && go_on(lines, reply).is_err()
    {
        signals.stop_for(Refusal::NoMemory);
    }
}
