//! Tables of lines: beside each line stands what is to come of it. A line has calls with semicolons between them, and begins with
//! a new store. A call has a name and numbers; behind a colon it may have names: `write 500 600 7: v`. Of a call that only does something
//! nothing comes. Where the texts are compared, line breaks and further spaces don't count.
use crate::pools::Pools;
use std::alloc::Global;
use std::test::Fail;

#[derive(Drop)]
pub(crate) struct Call<'a> {
    pub(crate) name: &'a str,
    pub(crate) numbers: Vec<u64>,
    pub(crate) names: &'a str,
}

impl<'a> Call<'a> {
    /// The call that a text spells.
    pub(crate) fn parse(alloc: Global, text: &'a str) -> Result<Call<'a>, Fail> {
        let (front, names) = text.split_once(":").unwrap_or((text, ""));
        let mut words = front.split_whitespace();
        let name = words.next().unwrap_or("");
        let mut numbers = Vec::new(alloc);
        for word in words {
            numbers.push(word.parse()?)?;
        }
        let names = names.trim();
        Ok(Call {
            name,
            numbers,
            names,
        })
    }

    /// The number at an index, or 0.
    pub(crate) fn number(&self, index: usize) -> u64 {
        self.numbers.get(index).copied().unwrap_or(0)
    }
}

/// What comes of the calls of a line, with semicolons between them.
fn play(alloc: Global, line: &str) -> Result<String, Fail> {
    let mut pools = Pools::new(alloc)?;
    let mut text = String::new(alloc);
    for part in line.split(';') {
        let call = Call::parse(alloc, part)?;
        let answer = pools.answer(alloc, &call)?;
        if !text.is_empty() && !answer.is_empty() {
            text.push_str("; ")?;
        }
        text.push_str(answer.as_str().trim())?;
    }
    Ok(text)
}

/// The lines of which another text comes than stands beside them, with what came.
pub(crate) fn wrong_lines<R: Eprint>(
    rt: &R,
    alloc: Global,
    cases: &[(&str, &str)],
) -> Result<String, Fail> {
    let mut wrong = String::new(alloc);
    for (line, wanted) in cases {
        let came = match play(alloc, line) {
            Ok(came) => came,
            Err(fail) => {
                let _ = eprintln!(rt; "not taken: {line}");
                return Err(fail);
            }
        };
        if !came.split_whitespace().eq(wanted.split_whitespace()) {
            wrong.push_str(format!(in alloc; "{line} -> {came}\n")?.as_str())?;
        }
    }
    Ok(wrong)
}
