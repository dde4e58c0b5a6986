//! Whole runs of calls, each call as a value.
ghost use Rattle.std.specs.Prelude.{◌≡◌, ◌++◌, List, OnOk, OnErr};
ghost use Rattle.txg_pipeline.specs.Calls.{Ran, IsCall};
ghost use Rattle.txg_pipeline.specs.declared.calls.Call.{Call};

use crate::pipeline::Pipeline;
use crate::refusal::Refusal;
use pool_model::Item;
use std::alloc::AllocError;
use std::collections::VecDeque;

/// A call of the pipeline.
#[derive(Drop)]
pub enum Call {
    Hold(u32),
    Accept(Item),
    Release(u32),
    Close,
    Quiesce,
    Take,
    Commit,
}

/// What a call was answered.
#[derive(Clone, Copy, Debug, PartialEq, Eq, Drop)]
pub enum Answer {
    Held(u64),
    Receipt(u64),
    Released,
    Closed(u64),
    Quiesced(u64),
    Taken(u64),
    Committed(u64),
    Refused(Refusal),
}

impl Pipeline {
    /// One call, whichever it is.
    pub fn call(&mut self, call: Call) -> Answer
        ensures { IsCall self.old call result self.new }
    {
        match call {
            Call::Hold(writer) => match self.hold(writer) {
                Ok(group) => Answer::Held(group),
                Err(cause) => Answer::Refused(cause),
            },
            Call::Accept(item) => match self.accept(item) {
                Ok(group) => Answer::Receipt(group),
                Err(cause) => Answer::Refused(cause),
            },
            Call::Release(writer) => match self.release(writer) {
                Ok(()) => Answer::Released,
                Err(cause) => Answer::Refused(cause),
            },
            Call::Close => match self.close_open() {
                Ok(group) => Answer::Closed(group),
                Err(cause) => Answer::Refused(cause),
            },
            Call::Quiesce => match self.mark_quiesced() {
                Ok(group) => Answer::Quiesced(group),
                Err(cause) => Answer::Refused(cause),
            },
            Call::Take => match self.take() {
                Ok(group) => Answer::Taken(group),
                Err(cause) => Answer::Refused(cause),
            },
            Call::Commit => match self.committed() {
                Ok(group) => Answer::Committed(group),
                Err(cause) => Answer::Refused(cause),
            },
        }
    }
}

/// Takes the calls in order, and adds the answer of each. At an `Err` memory ran out before a call, and that one and those
/// after it are not taken.
pub fn run(
    pipeline: &mut Pipeline,
    calls: Vec<Call>,
    answers: &mut Vec<Answer>,
) -> Result<(), AllocError>
    ensures all { OnOk result
        (Ran pipeline.old calls.items answers.old.items pipeline.new answers.new.items) }
    ensures front { OnErr result ((taken rest : List Call) × (taken ++ rest ≡ calls.items)
        × Ran pipeline.old taken answers.old.items pipeline.new answers.new.items) }
{
    let mut left = VecDeque::from_vec(calls);
    'taking: while let Some(call) = left.pop_front() {
        answers.try_reserve(1)?;
        let answer = pipeline.call(call);
        answers.push(answer)?;
    }
    Ok(())
}
