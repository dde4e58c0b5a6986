//! What takes the steps that are timed.
use pool_model::{Reply, Step};
use pool_steps::PoolSteps;
use shared_pool::{Recorded, Refusal, Shares, Writer};
use std::sync::Wait;
use std::sync::ledger::Ledger;

/// Takes steps of one writer.
pub(crate) trait Taker {
    /// Takes a step, and says whether it was answered.
    fn take<R: Wait>(&mut self, rt: &R, step: Step) -> bool;
}

/// Keeps the steps, and takes none of them.
#[derive(Drop)]
pub(crate) struct Kept(pub(crate) Vec<Step>);

impl Taker for Kept {
    fn take<R: Wait>(&mut self, _rt: &R, step: Step) -> bool {
        self.0.push(step).is_ok()
    }
}

/// A core by itself.
#[derive(Drop)]
pub(crate) struct ByItself<C: PoolSteps>(pub(crate) C);

impl<C: PoolSteps> Taker for ByItself<C> {
    fn take<R: Wait>(&mut self, _rt: &R, step: Step) -> bool {
        !matches!(self.0.take_step(step), Reply::Refused(_))
    }
}

/// A core whose steps are recorded and counted, on one thread.
#[derive(Drop)]
pub(crate) struct InRecord<C: PoolSteps, L: Ledger, M: Ledger> {
    pub(crate) recorded: Recorded<C, L, M>,
    pub(crate) shares: Shares<L, M>,
}

impl<C: PoolSteps, L: Ledger, M: Ledger> Taker for InRecord<C, L, M> {
    fn take<R: Wait>(&mut self, _rt: &R, step: Step) -> bool {
        was_answered(&self.recorded.take_step(step, &mut self.shares))
    }
}

/// The same under a lock.
impl<'a, C: PoolSteps, L: Ledger, M: Ledger> Taker for Writer<'a, C, L, M> {
    fn take<R: Wait>(&mut self, rt: &R, step: Step) -> bool {
        let answer = match step {
            Step::Hold(_) => self.hold(rt),
            Step::Release(_) => self.release(rt),
            Step::Write(it) => self.write(rt, it.number, it.volume, it.offset, it.bytes),
            _ => return false,
        };
        was_answered(&answer)
    }
}

fn was_answered(answer: &Result<Reply, Refusal>) -> bool {
    match answer {
        Ok(Reply::Refused(_)) | Err(_) => false,
        Ok(_) => true,
    }
}
