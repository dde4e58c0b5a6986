//! Changes and commits of the machine in memory, and what they are answered.
use command_steps::{change, commit};
use plain_machine::Machine;
use pool_model::{Action, Bytes, Change, Name, Reply, Step, Write};
use pool_steps::PoolSteps;
use std::alloc::{AllocError, Global};
use std::test::Fail;

/// What is asked of a new machine in turn, and the answers.
const ASKED: [(&str, &str); 10] = [
    (
        "create write read zero",
        " Committed(4) Committed(5) Bytes(Bytes { bytes: [7, 7] }) Refused(OutOfOrder { expected: 3 })",
    ),
    (
        "create write snapshot zero clone destroy",
        " Committed(4) Committed(5) Committed(6) Committed(7) Committed(8) Refused(HasSnapshots)",
    ),
    (
        "create zero destroy write",
        " Committed(4) Committed(5) Committed(6) Refused(NoSuchName)",
    ),
    ("create create", " Committed(4) Refused(Exists)"),
    (
        "create again",
        " Committed(4) Refused(OutOfOrder { expected: 2 })",
    ),
    (
        "create odd write",
        " Committed(4) Refused(Misaligned) Refused(AlreadyHeld)",
    ),
    ("write", " Refused(NoSuchName)"),
    ("other", " Refused(NoHold)"),
    (
        "create write commit read",
        " Committed(4) Committed(5) Committed(6) Bytes(Bytes { bytes: [7, 7] })",
    ),
    ("other commit", " Refused(NoHold) Refused(NotNow)"),
];

fn name(alloc: Global, letters: &str) -> Result<Name, AllocError> {
    Ok(Name::new(Vec::from_slice(alloc, letters.as_bytes())?))
}

fn write(alloc: Global, word: &str, number: u64) -> Result<Step, AllocError> {
    let fill = if word == "zero" { 0 } else { 7 };
    let len = if word == "odd" { 2 } else { 512 };
    Ok(Step::Write(Write {
        writer: 1,
        number,
        volume: name(alloc, "v")?,
        offset: 0,
        bytes: Bytes::new(vec![in alloc; fill; len]?),
    }))
}

fn clone(alloc: Global) -> Result<Change, AllocError> {
    let snapshot = name(alloc, "v")?.with_part(alloc, &name(alloc, "s")?)?;
    Ok(Change::Clone {
        snapshot,
        name: name(alloc, "s")?,
    })
}

fn change_of(alloc: Global, word: &str) -> Result<Change, AllocError> {
    match word {
        "snapshot" => Ok(Change::Snapshot {
            volume: name(alloc, "v")?,
            part: name(alloc, "s")?,
        }),
        "clone" => clone(alloc),
        "destroy" => Ok(Change::Destroy {
            name: name(alloc, "v")?,
        }),
        _ => Ok(Change::Create {
            name: name(alloc, "v")?,
            size: 1024,
            block_size: 512,
        }),
    }
}

fn item(alloc: Global, word: &str, number: u64) -> Result<Step, AllocError> {
    if matches!(word, "write" | "odd" | "zero") {
        return write(alloc, word, number);
    }
    let writer = if word == "other" { 2 } else { 1 };
    let number = if word == "again" { 1 } else { number };
    let change = change_of(alloc, word)?;
    Ok(Step::Act(Action {
        writer,
        number,
        change,
    }))
}

fn read(machine: &mut Machine, name: Name) -> Reply {
    machine.take_step(Step::Read {
        name,
        offset: 0,
        len: 2,
    })
}

/// What is answered to a word, as text.
fn answer(machine: &mut Machine, alloc: Global, word: &str, number: u64) -> Result<String, Fail> {
    let reply = match word {
        "read" => read(machine, name(alloc, "v")?),
        "commit" => commit(machine, 9),
        _ => change(machine, item(alloc, word, number)?, 9),
    };
    Ok(format!(in alloc; " {reply:?}")?)
}

fn answers_of(machine: &mut Machine, alloc: Global, words: &str) -> Result<String, Fail> {
    let mut text = String::new(alloc);
    for (word, number) in words.split(' ').zip(1..100) {
        text.push_str(answer(machine, alloc, word, number)?.as_str())?;
    }
    Ok(text)
}

fn answers(alloc: Global, words: &str) -> Result<String, Fail> {
    answers_of(&mut Machine::create(alloc), alloc, words)
}

#[test]
fn changes_are_answered(rt: HostRuntime) -> Result<(), Fail> {
    for (words, wanted) in &ASKED {
        let text = answers(rt.alloc(), words)?;
        assert!(rt; text.as_str() == *wanted, "{words}:{text}");
    }
    Ok(())
}
