//! What running a schedule tells.
use pool_model::{Refusal, Reply};
use programs::{Alone, Planner, SchedulePool, StepMachine, answer, schedule};
use schedule_lines::{Line, parse};
use std::alloc::Global;
use std::io::BufRead;
use std::process::Abort;
use std::test::Fail;

/// The lines of rows `LINE -> REPLY`; and what they say that is told of them: the replies, and that the schedule was run to its end.
fn parted(alloc: Global, parts: &[&str]) -> Result<(String, String), Fail> {
    let mut lines = String::new(alloc);
    let mut replies = String::new(alloc);
    for rows in parts {
        for row in rows.lines() {
            let (line, reply) = row.split_once(" -> ").unwrap_or((row, row));
            lines.push_str(line)?;
            lines.push_str("\n")?;
            replies.push_str(reply)?;
            replies.push_str("\n")?;
        }
    }
    replies.push_str("0")?;
    Ok((lines, replies))
}

/// What is told of a schedule where that planner makes the plans: the output, then what is told of a fault, then the number that the process
/// ends with.
pub fn told_by<P: SchedulePool, X: Planner, R: BufRead + Drop>(
    planner: &X,
    alloc: Global,
    input: R,
) -> Result<String, Fail>
    requires { X.ready }
{
    let mut output = Vec::new(alloc);
    let mut errors = Vec::new(alloc);
    let status = schedule::<P, _, _, _, _>(planner, alloc, input, &mut output, &mut errors);
    let output = String::from_utf8(output)?;
    let errors = String::from_utf8(errors)?;
    Ok(format!(in alloc; "{output}{errors}{}", status.number())?)
}

/// What is told of the schedules among these that something else is told of than stands beside them, one behind another.
pub fn told_otherwise<P: SchedulePool>(
    alloc: Global,
    schedules: &[(&str, &str)],
) -> Result<String, Fail> {
    let mut others = String::new(alloc);
    for (input, wanted) in schedules {
        let told = told_by::<P, _, _>(&Alone, alloc, input.as_bytes())?;
        if told.as_str() != *wanted {
            others.push_str(told.as_str())?;
        }
    }
    Ok(others)
}

/// What running rows tells where that planner makes the plans, and what they say that it does.
pub fn ran<P: SchedulePool, X: Planner>(
    planner: &X,
    alloc: Global,
    parts: &[&str],
) -> Result<(String, String), Fail>
    requires { X.ready }
{
    let (input, wanted) = parted(alloc, parts)?;
    let told = told_by::<P, X, _>(planner, alloc, input.as_bytes())?;
    Ok((told, wanted))
}

/// What rows tell where that planner makes the plans, and they don't say that, one behind another.
pub fn ran_otherwise<P: SchedulePool, X: Planner>(
    planner: &X,
    alloc: Global,
    schedules: &[&[&str]],
) -> Result<String, Fail>
    requires { X.ready }
{
    let mut others = String::new(alloc);
    for parts in schedules {
        let (told, wanted) = ran::<P, X>(planner, alloc, parts)?;
        if told != wanted {
            others.push_str(told.as_str())?;
        }
    }
    Ok(others)
}

/// No text is left of what is told otherwise.
pub fn expect_none<R: Abort>(rt: &R, others: Result<String, Fail>) -> Result<(), Fail> {
    let others = others?;
    assert!(rt; others.as_str() == "", "{others}");
    Ok(())
}

/// What a pool replies to a line.
pub fn reply_to<P: StepMachine>(alloc: Global, pool: &mut P, line: &str) -> Result<Reply, Fail> {
    let Line::Command(command) = parse(alloc, line.as_bytes())? else {
        return Err(Fail::from(Refusal::BadConfig));
    };
    match answer(&Alone, alloc, pool, command)? {
        Some(reply) => Ok(reply),
        None => Err(Fail::from(Refusal::NotNow)),
    }
}
