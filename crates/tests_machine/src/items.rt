//! What the calls of a list stand for.
//!
//! `write WRITER NUMBER VOLUME OFFSET LEN VALUE` writes bytes that are all alike, and `create WRITER NUMBER VOLUME SIZE BLOCK`
//! makes a volume.
use crate::lines::Call;
use pool_model::{Action, Bytes, Change, Item, Name, Step, Write};
use std::alloc::{AllocError, Global};
use std::test::Fail;
use txg_pipeline::{Answer, Pipeline};

pub(crate) fn name(alloc: Global, letters: &str) -> Result<Name, AllocError> {
    Ok(Name::new(Vec::from_slice(alloc, letters.as_bytes())?))
}

pub(crate) fn write(alloc: Global, call: &Call) -> Result<Write, AllocError> {
    let value = (call.number(6) % 256) as u8;
    let bytes = Bytes::new(vec![in alloc; value; call.number(5) as usize]?);
    Ok(Write {
        writer: call.writer(),
        number: call.number(2),
        volume: name(alloc, call.word(3))?,
        offset: call.number(4),
        bytes,
    })
}

pub(crate) fn writes(alloc: Global, call: &Call) -> Result<Vec<Write>, AllocError> {
    let mut all = Vec::new(alloc);
    for call in &call.calls(alloc)? {
        all.push(write(alloc, call)?)?;
    }
    Ok(all)
}

pub(crate) fn create(alloc: Global, call: &Call) -> Result<Action, AllocError> {
    let change = Change::Create {
        name: name(alloc, call.word(3))?,
        size: call.number(4),
        block_size: call.number(5),
    };
    Ok(Action {
        writer: call.writer(),
        number: call.number(2),
        change,
    })
}

/// A call of the pipeline.
fn asked(alloc: Global, call: &Call) -> Result<txg_pipeline::Call, Fail> {
    let item = match call.word(0) {
        "hold" => return Ok(txg_pipeline::Call::Hold(call.writer())),
        "release" => return Ok(txg_pipeline::Call::Release(call.writer())),
        "close" => return Ok(txg_pipeline::Call::Close),
        "quiesce" => return Ok(txg_pipeline::Call::Quiesce),
        "take" => return Ok(txg_pipeline::Call::Take),
        "commit" => return Ok(txg_pipeline::Call::Commit),
        "create" => Item::Action(create(alloc, call)?),
        "write" => Item::Write(write(alloc, call)?),
        other => return Err(Fail::new(format_args!("no call {other}"))),
    };
    Ok(txg_pipeline::Call::Accept(item))
}

/// Makes all calls of a list on a pipeline.
pub(crate) fn run(
    alloc: Global,
    pipeline: &mut Pipeline,
    call: &Call,
) -> Result<Vec<Answer>, Fail> {
    let mut calls = Vec::new(alloc);
    for call in &call.calls(alloc)? {
        calls.push(asked(alloc, call)?)?;
    }
    let mut answers = Vec::new(alloc);
    txg_pipeline::run(pipeline, calls, &mut answers)?;
    Ok(answers)
}

/// A step of the machine.
fn step(alloc: Global, call: &Call) -> Result<Step, Fail> {
    Ok(match call.word(0) {
        "hold" => Step::Hold(call.writer()),
        "release" => Step::Release(call.writer()),
        "close" => Step::Close,
        "quiesce" => Step::Quiesce,
        "plan" => Step::Plan { timestamp: 0 },
        "device" => Step::Device,
        "create" => Step::Act(create(alloc, call)?),
        other => return Err(Fail::new(format_args!("no step {other}"))),
    })
}

/// The steps of a list.
pub(crate) fn steps(alloc: Global, call: &Call) -> Result<Vec<Step>, Fail> {
    let mut steps = Vec::new(alloc);
    for call in &call.calls(alloc)? {
        steps.push(step(alloc, call)?)?;
    }
    Ok(steps)
}
