//! The transmission: requests and their replies.
ghost use Rattle.std.specs.Prelude.{◌≡◌, ◌≢◌, ◌↔◌, [], List, IfErr, IsTrue, OnOk, Some};
ghost use Rattle.std.specs.Io.KnownBytes.{Appends, Consumes};
ghost use Rattle.nbd_wire.specs.Requests.{SpellsRequest, command_of, request_bytes};
ghost use Rattle.nbd_wire.specs.declared.requests.Command.TheVariants as commands;
ghost use Rattle.nbd_serve.specs.Answers.{Answers, Serves};
ghost use Rattle.nbd_serve.specs.Exchanges.{Exchange, exchange, payload_len, replied};
ghost use Rattle.nbd_serve.specs.Sessions.{Transmits};
ghost use Rattle.nbd_serve.specs.Steps.{Steps};
ghost use Rattle.nbd_serve.specs.declared.ended.Ended.TheVariants.{Output};

use crate::answering::{Answer, respond};
use crate::ended::Ended;
use crate::export::Export;
use crate::input::{read_head, read_payload};
use crate::output::send;
use nbd_wire::{Command, MAXIMUM_PAYLOAD, RequestHead, decode_request, encode_simple_reply};
use pool_steps::PoolSteps;
use std::alloc::Global;
use std::io::{Read, Write};
use volume_device::Device;

/// How many bytes stand behind a request's head.
fn payload_len(head: &RequestHead) -> u32
    ensures { result ≡ payload_len (command_of head.now.kind) head.now }
{
    match Command::of(head.kind) {
        Some(Command::Write) => head.len,
        _ => 0,
    }
}

/// Whether it is a DISC.
fn leaves(head: &RequestHead) -> bool
    ensures { IsTrue result ↔ (command_of head.now.kind ≡ Some commands.Disconnect) }
{
    matches!(Command::of(head.kind), Some(Command::Disconnect))
}

fn reply<W: Write>(output: &mut W, head: &RequestHead, answer: &Answer) -> Result<(), Ended>
    ensures sent { OnOk result (Appends (W.contents output.old) (W.contents output.new)
        (replied (exchange head.now [] answer.now))) }
    ensures failed { IfErr result (λ ended. ended ≡ Output) }
{
    let bytes = encode_simple_reply(answer.error, head.cookie);
    send(output, &bytes, answer.bytes.as_slice())
}

/// Answers a request whose head was read.
fn answer_one<P: PoolSteps, R: Read, W: Write>(
    alloc: Global,
    device: &mut Device<P>,
    export: &Export,
    head: &RequestHead,
    input: &mut R,
    output: &mut W,
) -> Result<(), Ended>
    requires spelled { SpellsRequest (request_bytes head.now) head.now }
    requires stays { command_of head.now.kind ≢ Some commands.Disconnect }
    ensures { Steps P.PoolSteps export.now head.now device.old device.new
        (R.remaining input.old) (R.remaining input.new)
        (W.contents output.old) (W.contents output.new) result }
{
    let len = payload_len(head);
    if len > MAXIMUM_PAYLOAD {
        return Err(Ended::Hostile);
    }
    let payload = read_payload(alloc, input, len as usize)?;
    let answer = respond(alloc, device, export, head, &payload);
    reply(output, head, &answer)
}

/// Reads and answers requests, until the client leaves by a DISC or ends the input between two of them.
pub(crate) fn transmit<P: PoolSteps, R: Read, W: Write>(
    alloc: Global,
    device: &mut Device<P>,
    export: &Export,
    input: &mut R,
    output: &mut W,
) -> Result<(), Ended>
    ensures { (exchanges : List Exchange)
        × Serves P.PoolSteps export.now device.old exchanges device.new
        × Transmits (R.remaining input.old) (R.remaining input.new)
        (W.contents output.old) (W.contents output.new) exchanges result }
{
    for _ in 0..u64::MAX {
        let Some(bytes) = read_head(input)? else {
            return Ok(());
        };
        let Some(head) = decode_request(&bytes) else {
            return Err(Ended::Hostile);
        };
        if leaves(&head) {
            return Ok(());
        }
        answer_one(alloc, device, export, &head, input, output)?;
    }
    Err(Ended::Torn)
}
