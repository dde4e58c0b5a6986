//! Which requests the pool is asked for, and which errors its refusals become.
ghost use Rattle.std.specs.Prelude.{◌≡◌};
ghost use Rattle.nbd_serve.specs.Verdicts.{error_of, error_of_write, is_forced, is_in_blocks, is_within, judged, judged_flush, judged_read, judged_write};

use crate::export::Export;
use nbd_wire::{Command, ErrorCode, MAXIMUM_PAYLOAD, MINIMUM_BLOCK, RequestHead};
use pool_model::Refusal;

const BLOCK: u64 = MINIMUM_BLOCK as u64;

/// Whether all is to be committed before the reply.
pub(crate) fn is_forced(head: &RequestHead) -> bool
    ensures { result ≡ is_forced head.now }
{
    head.flags == 1
}

fn is_in_blocks(head: &RequestHead) -> bool
    ensures { result ≡ is_in_blocks head.now }
{
    head.offset % BLOCK == 0 && head.len as u64 % BLOCK == 0 && head.len != 0
}

fn is_within(export: &Export, head: &RequestHead) -> bool
    ensures { result ≡ is_within export.now head.now }
{
    let len = head.len as u64;
    len <= export.size && head.offset <= export.size - len
}

fn judge_read(export: &Export, head: &RequestHead) -> Option<ErrorCode>
    ensures { result ≡ judged_read export.now head.now }
{
    if is_in_blocks(head) && head.len <= MAXIMUM_PAYLOAD && is_within(export, head) {
        return None;
    }
    Some(ErrorCode::Invalid)
}

fn judge_write(export: &Export, head: &RequestHead) -> Option<ErrorCode>
    ensures { result ≡ judged_write export.now head.now }
{
    if export.read_only {
        Some(ErrorCode::NotPermitted)
    } else if !is_in_blocks(head) {
        Some(ErrorCode::Invalid)
    } else if is_within(export, head) {
        None
    } else {
        Some(ErrorCode::NoSpace)
    }
}

fn judge_flush(head: &RequestHead) -> Option<ErrorCode>
    ensures { result ≡ judged_flush head.now }
{
    if head.offset == 0 && head.len == 0 {
        return None;
    }
    Some(ErrorCode::Invalid)
}

/// The error that a request has before the pool is asked.
pub(crate) fn judge(export: &Export, head: &RequestHead) -> Option<ErrorCode>
    ensures { result ≡ judged export.now head.now }
{
    if head.flags > 1 {
        return Some(ErrorCode::Invalid);
    }
    match Command::of(head.kind) {
        Some(Command::Read) => judge_read(export, head),
        Some(Command::Write) => judge_write(export, head),
        Some(Command::Flush) => judge_flush(head),
        Some(Command::Disconnect) | None => Some(ErrorCode::Invalid),
    }
}

/// What the pool's refusal of a read or a flush becomes.
pub(crate) fn error_of(cause: Refusal) -> ErrorCode
    ensures { result ≡ error_of cause }
{
    match cause {
        Refusal::NoMemory => ErrorCode::NoMemory,
        Refusal::NoSpace => ErrorCode::NoSpace,
        Refusal::Misaligned | Refusal::OutOfRange => ErrorCode::Invalid,
        _ => ErrorCode::Io,
    }
}

/// What its refusal of a write becomes.
pub(crate) fn error_of_write(cause: Refusal) -> ErrorCode
    ensures { result ≡ error_of_write cause }
{
    match cause {
        Refusal::OutOfRange => ErrorCode::NoSpace,
        other => error_of(other),
    }
}
