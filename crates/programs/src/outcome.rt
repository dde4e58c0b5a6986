//! What comes of the commands of a schedule.
ghost use Rattle.std.specs.Prelude.{◌≡◌, IfOk, string_bytes};
ghost use Rattle.programs.specs.Outcomes.{IsOutcomeText, unopened_text};

use pool_model::Reply;
use schedule_lines::{opened_text, reply_text};
use std::alloc::{AllocError, Global};

/// What comes of a command, of which one line is printed.
#[derive(Drop)]
pub enum Outcome {
    /// The reply of the pool to the last of its steps.
    Replied(Reply),
    /// The next commit or reopening that the line names stops.
    StopIsSet,
    /// The commit or reopening stopped.
    Stopped,
    /// The disks were opened again: the group that the pool stands at, and its claim.
    Opened { group: u64, claim: u64 },
    /// They were not.
    Unopened(pool_create::Refusal),
}

fn unopened_text(alloc: Global, refusal: &pool_create::Refusal) -> Result<String, AllocError>
    ensures { IfOk result (λ text. string_bytes text ≡ unopened_text refusal.now) }
{
    let number = refusal.number();
    let name = refusal.name();
    let argument = refusal.argument();
    if argument.is_empty() {
        format!(in alloc; "refused {number} {name}")
    } else {
        format!(in alloc; "refused {number} {name} {argument}")
    }
}

/// What is printed of an outcome, without a line feed.
pub fn outcome_text(alloc: Global, outcome: &Outcome) -> Result<String, AllocError>
    ensures { IfOk result (λ text. IsOutcomeText outcome.now (string_bytes text)) }
{
    match outcome {
        Outcome::Replied(reply) => reply_text(alloc, reply),
        Outcome::StopIsSet => String::from_str(alloc, "stop"),
        Outcome::Stopped => String::from_str(alloc, "stopped"),
        Outcome::Opened { group, claim } => opened_text(alloc, *group, *claim),
        Outcome::Unopened(refusal) => unopened_text(alloc, refusal),
    }
}
