//! Requests that are known to the pool, and what it answers.
ghost use Rattle.std.specs.Prelude.{◌≡◌, ℕ, List, [], IfSome, Some};
ghost use Rattle.nbd_wire.specs.declared.requests.Command.TheVariants as commands;
ghost use Rattle.nbd_serve.specs.Answers.{Performs, Responds};
ghost use Rattle.nbd_serve.specs.Exchanges.{exchange};
ghost use Rattle.nbd_wire.specs.declared.requests.RequestHead.{RequestHead};

use crate::export::Export;
use crate::verdicts::{error_of, error_of_write, is_forced, judge};
use nbd_wire::{Command, ErrorCode, RequestHead};
use pool_steps::PoolSteps;
use std::alloc::Global;
use volume_device::Device;

/// What a reply says.
#[derive(Drop)]
pub(crate) struct Answer {
    pub(crate) error: Option<ErrorCode>,
    /// The bytes that were read.
    pub(crate) bytes: Vec<u8>,
}

/// An answer without bytes.
fn plain(alloc: Global, error: Option<ErrorCode>) -> Answer
    ensures error { result.error ≡ error }
    ensures bytes { result.bytes.items ≡ [] }
{
    Answer {
        error,
        bytes: Vec::new(alloc),
    }
}

fn read<P: PoolSteps>(alloc: Global, device: &mut Device<P>, head: &RequestHead) -> Answer
    ensures { (payload : List ℕ) → Performs P.PoolSteps (Some commands.Read) device.old
        (exchange head.now payload result) device.new }
{
    match device.read(alloc, head.offset, head.len as u64) {
        Ok(bytes) => {
            if bytes.len() == head.len as usize {
                return Answer { error: None, bytes };
            }
            plain(alloc, Some(ErrorCode::Io))
        }
        Err(cause) => plain(alloc, Some(error_of(cause))),
    }
}

fn flush<P: PoolSteps>(alloc: Global, device: &mut Device<P>) -> Answer
    ensures { (head : RequestHead) (payload : List ℕ) → Performs P.PoolSteps
        (Some commands.Flush) device.old (exchange head payload result) device.new }
{
    match device.flush() {
        Ok(()) => plain(alloc, None),
        Err(cause) => plain(alloc, Some(error_of(cause))),
    }
}

/// Writes, and flushes where the client asks for it before the reply.
fn write<P: PoolSteps>(
    alloc: Global,
    device: &mut Device<P>,
    head: &RequestHead,
    payload: &[u8],
) -> Answer
    ensures { Performs P.PoolSteps (Some commands.Write) device.old
        (exchange head.now payload.now result) device.new }
{
    if let Err(cause) = device.write(alloc, head.offset, payload) {
        return plain(alloc, Some(error_of_write(cause)));
    }
    if !is_forced(head) {
        return plain(alloc, None);
    }
    match device.flush() {
        Ok(()) => plain(alloc, None),
        Err(cause) => plain(alloc, Some(error_of(cause))),
    }
}

/// Answers a request. Its payload is `None` where there was no memory for it.
pub(crate) fn respond<P: PoolSteps>(
    alloc: Global,
    device: &mut Device<P>,
    export: &Export,
    head: &RequestHead,
    payload: &Option<Vec<u8>>,
) -> Answer
    ensures { (bytes : List ℕ) → IfSome payload.now (λ given. given.items ≡ bytes)
        → Responds P.PoolSteps export.now device.old (exchange head.now bytes result) device.new }
{
    if let Some(error) = judge(export, head) {
        return plain(alloc, Some(error));
    }
    match Command::of(head.kind) {
        Some(Command::Read) => read(alloc, device, head),
        Some(Command::Write) => match payload {
            Some(payload) => write(alloc, device, head, payload.as_slice()),
            None => plain(alloc, Some(ErrorCode::NoMemory)),
        },
        Some(Command::Flush) => flush(alloc, device),
        Some(Command::Disconnect) | None => plain(alloc, Some(ErrorCode::Invalid)),
    }
}
