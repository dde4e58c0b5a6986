//! The texts of replies.
ghost use Rattle.std.specs.Prelude.{◌≡◌, IfOk, string_bytes};
ghost use Rattle.schedule_lines.specs.Replies.{IsReplyText, made_text, opened_text, phase_text, refusal_text};

use crate::equal_bytes::runs_text;
use pool_model::{Phase, Refusal, Reply};
use std::alloc::{AllocError, Global};

fn phase_text(phase: Phase) -> &'static str
    ensures { result.now ≡ phase_text phase }
{
    match phase {
        Phase::Blocks => "Blocks",
        Phase::BlocksFlush => "BlocksFlush",
        Phase::Slots => "Slots",
        Phase::SlotsFlush => "SlotsFlush",
    }
}

fn refusal_text(alloc: Global, refusal: &Refusal) -> Result<String, AllocError>
    ensures { IfOk result (λ text. string_bytes text ≡ refusal_text refusal.now) }
{
    let number = refusal.number();
    let name = refusal.name();
    match refusal {
        Refusal::OutOfOrder { expected } => {
            format!(in alloc; "refused {number} {name} {expected}")
        }
        _ => format!(in alloc; "refused {number} {name}"),
    }
}

/// What is printed of a reply, without a line feed.
pub fn reply_text(alloc: Global, reply: &Reply) -> Result<String, AllocError>
    ensures { IfOk result (λ text. IsReplyText reply.now (string_bytes text)) }
{
    match reply {
        Reply::Held(group) => format!(in alloc; "held {group}"),
        Reply::Receipt(group) => format!(in alloc; "receipt {group}"),
        Reply::Released => String::from_str(alloc, "released"),
        Reply::Closed(group) => format!(in alloc; "closed {group}"),
        Reply::Quiesced(group) => format!(in alloc; "quiesced {group}"),
        Reply::Planned(group) => format!(in alloc; "planned {group}"),
        Reply::Moved(phase) => {
            let phase = phase_text(*phase);
            format!(in alloc; "moved {phase}")
        }
        Reply::Replan(disk) => format!(in alloc; "replan {disk}"),
        Reply::Committed(group) => format!(in alloc; "committed {group}"),
        Reply::Out => String::from_str(alloc, "out"),
        Reply::Bytes(bytes) => runs_text(alloc, bytes.as_slice()),
        Reply::Refused(refusal) => refusal_text(alloc, refusal),
    }
}

/// What is printed of a pool that was opened again: the group that it stands at, and its claim.
pub fn opened_text(alloc: Global, group: u64, claim: u64) -> Result<String, AllocError>
    ensures { IfOk result (λ text. string_bytes text ≡ opened_text group claim) }
{
    format!(in alloc; "opened {group} claim {claim}")
}

/// What is printed of a new pool: its first group, and its claim.
pub fn made_text(alloc: Global, group: u64, claim: u64) -> Result<String, AllocError>
    ensures { IfOk result (λ text. string_bytes text ≡ made_text group claim) }
{
    format!(in alloc; "pool {group} claim {claim}")
}
