//! Tables of lines: beside each line stands what is to come of it. A line has calls with semicolons between them. The first word
//! of a call is its name, and behind a colon it may have a list of calls, with commas between them. Where the texts are compared,
//! line breaks and further spaces don't count.
use std::alloc::{AllocError, Global};
use std::test::Fail;

/// What takes one call after another.
pub(crate) trait Bench {
    /// What comes of a call, or an error where it is none of the bench's.
    fn answer(&mut self, alloc: Global, call: &Call) -> Result<String, Fail>;
}

#[derive(Drop)]
pub(crate) struct Call<'a> {
    words: Vec<&'a str>,
    list: &'a str,
}

impl<'a> Call<'a> {
    fn parse(alloc: Global, text: &'a str) -> Result<Call<'a>, AllocError> {
        let (front, list) = text.split_once(":").unwrap_or((text, ""));
        let words: Vec<&str> = front.split_whitespace().collect(alloc)?;
        Ok(Call { words, list })
    }

    /// The calls of its list.
    pub(crate) fn calls(&self, alloc: Global) -> Result<Vec<Call<'a>>, AllocError> {
        let mut calls = Vec::new(alloc);
        for text in self.list.split(',') {
            let call = Call::parse(alloc, text)?;
            if !call.words.is_empty() {
                calls.push(call)?;
            }
        }
        Ok(calls)
    }

    /// The word at an index, or one of no letters.
    pub(crate) fn word(&self, index: usize) -> &'a str {
        match self.words.get(index) {
            Some(word) => *word,
            None => "",
        }
    }

    /// The number at an index: the greatest one where there is none.
    pub(crate) fn number(&self, index: usize) -> u64 {
        self.word(index).parse().unwrap_or(u64::MAX)
    }

    /// The writer, who is named first.
    pub(crate) fn writer(&self) -> u32 {
        self.word(1).parse().unwrap_or(u32::MAX)
    }
}

/// The answers to the calls of a line, with semicolons between them.
fn play<B: Bench>(alloc: Global, bench: &mut B, line: &str) -> Result<String, Fail> {
    let mut text = String::new(alloc);
    for part in line.split(';') {
        let call = Call::parse(alloc, part)?;
        let answer = bench.answer(alloc, &call)?;
        if !text.is_empty() {
            text.push_str("; ")?;
        }
        text.push_str(answer.as_str())?;
    }
    Ok(text)
}

/// The lines of which another text comes than stands beside them, with what came.
pub(crate) fn wrong_lines<B: Bench, R: Eprint>(
    rt: &R,
    alloc: Global,
    bench: &mut B,
    cases: &[(&str, &str)],
) -> Result<String, Fail> {
    let mut wrong = String::new(alloc);
    for (line, wanted) in cases {
        let came = match play(alloc, bench, line) {
            Ok(came) => came,
            Err(fail) => {
                let _ = eprintln!(rt; "not taken: {line}");
                return Err(fail);
            }
        };
        if !came.split_whitespace().eq(wanted.split_whitespace()) {
            wrong.push_str(format!(in alloc; "{line} -> {came}\n")?.as_str())?;
        }
    }
    Ok(wrong)
}
