//! What a line asks for, or why it asks for nothing, as text.
use pool_command::{Command, Refusal, parse};
use std::alloc::{AllocError, Global};

/// What a line comes to.
#[derive(Clone, Copy, PartialEq, Drop)]
pub enum Kind {
    Command,
    /// What was asked for, as a help text.
    Answer,
    Fault,
}

/// The words of a line, parted by one space.
pub fn words_of(alloc: Global, line: &str) -> Result<Vec<&str>, AllocError> {
    let mut words = Vec::new(alloc);
    for word in line.split(' ') {
        words.push(word)?;
    }
    Ok(words)
}

fn text_of(alloc: Global, came: &Result<Command, Refusal>) -> Result<String, AllocError> {
    match came {
        Ok(command) => format!(in alloc; "{command:?}"),
        Err(refusal) => format!(in alloc; "{refusal}"),
    }
}

fn kind_of(came: &Result<Command, Refusal>) -> Kind {
    match came {
        Ok(_) => Kind::Command,
        Err(refusal) if refusal.is_answer() => Kind::Answer,
        Err(_) => Kind::Fault,
    }
}

/// What comes of words, as text, and what it is: the command as it is debugged, or the whole text of the fault.
pub fn told_words(alloc: Global, words: &[&str]) -> (Result<String, AllocError>, Kind) {
    let came = parse(alloc, words);
    (text_of(alloc, &came), kind_of(&came))
}

/// What comes of a line.
pub fn told(alloc: Global, line: &str) -> Result<(String, Kind), AllocError> {
    let (text, kind) = told_words(alloc, &words_of(alloc, line)?);
    Ok((text?, kind))
}

/// Adds a line of which something else came, and that.
pub fn note(wrong: &mut String, line: &str, text: &str) -> Result<(), AllocError> {
    for part in [line, ": ", text, "\n"] {
        wrong.push_str(part)?;
    }
    Ok(())
}
