//! What writers ask for.
ghost use Rattle.std.specs.Prelude.{◌≡◌, MatchResult, false};
ghost use Rattle.thread_runs.specs.Asking.{is_asked, step_of};

use pool_model::{Action, Bytes, Change, Name, Step, Write};

/// A line of a writer. It can be sent more than once.
#[derive(Drop)]
pub struct WriterLine {
    pub writer: u32,
    pub ask: Ask,
}

/// What the writer asks for.
#[derive(Drop)]
pub enum Ask {
    Hold,
    Release,
    Write {
        number: u64,
        volume: Name,
        offset: u64,
        bytes: Bytes,
    },
    Act {
        number: u64,
        change: Change,
    },
}

/// The step as a writer's line, where it is one; else the step itself.
pub(crate) fn line_of(step: Step) -> Result<WriterLine, Step>
    ensures { MatchResult result (λ line. step_of line ≡ step)
        (λ other. (other ≡ step) × (is_asked step ≡ false)) }
{
    match step {
        Step::Hold(writer) => Ok(WriterLine {
            writer,
            ask: Ask::Hold,
        }),
        Step::Release(writer) => Ok(WriterLine {
            writer,
            ask: Ask::Release,
        }),
        Step::Write(write) => Ok(write_line(write)),
        Step::Act(action) => Ok(act_line(action)),
        other => Err(other),
    }
}

fn write_line(write: Write) -> WriterLine
    ensures { step_of result ≡ Step.Write write }
{
    let Write {
        writer,
        number,
        volume,
        offset,
        bytes,
    } = write;
    let ask = Ask::Write {
        number,
        volume,
        offset,
        bytes,
    };
    WriterLine { writer, ask }
}

fn act_line(action: Action) -> WriterLine
    ensures { step_of result ≡ Step.Act action }
{
    let Action {
        writer,
        number,
        change,
    } = action;
    let ask = Ask::Act { number, change };
    WriterLine { writer, ask }
}
