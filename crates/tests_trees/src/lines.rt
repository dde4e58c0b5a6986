//! Tables of lines: beside each line stands what is to come of it. A line has calls with semicolons between them, and begins with
//! a new bench. A call has a name and numbers; behind a colon it may have a list of calls, with commas between them:
//! `change 0 1: create 3 200 5 1, free 40`. Where the texts are compared, line breaks and further spaces don't count.
use std::alloc::Global;
use std::test::Fail;

/// What takes one call after another.
pub(crate) trait Bench: Drop {
    fn new(alloc: Global) -> Result<Self, Fail>;

    /// What comes of a call, or an error where it is none of the bench's.
    fn answer(&mut self, alloc: Global, call: &Call) -> Result<String, Fail>;
}

#[derive(Drop)]
pub(crate) struct Call<'a> {
    pub(crate) name: &'a str,
    pub(crate) numbers: Vec<usize>,
    pub(crate) list: &'a str,
}

impl<'a> Call<'a> {
    pub(crate) fn parse(alloc: Global, text: &'a str) -> Result<Call<'a>, Fail> {
        let (front, list) = text.split_once(":").unwrap_or((text, ""));
        let mut words = front.split_whitespace();
        let name = words.next().unwrap_or("");
        let mut numbers = Vec::new(alloc);
        for word in words {
            numbers.push(word.parse()?)?;
        }
        Ok(Call {
            name,
            numbers,
            list,
        })
    }

    /// The number at an index, or 0.
    pub(crate) fn number(&self, index: usize) -> u64 {
        self.numbers.get(index).copied().unwrap_or(0) as u64
    }
}

/// The answers of a new bench to the calls of a line, with semicolons between them.
fn play<B: Bench>(alloc: Global, line: &str) -> Result<String, Fail> {
    let mut bench = B::new(alloc)?;
    let mut text = String::new(alloc);
    for part in line.split(';') {
        let call = Call::parse(alloc, part)?;
        let answer = bench.answer(alloc, &call)?;
        if !text.is_empty() {
            text.push_str("; ")?;
        }
        text.push_str(answer.as_str().trim())?;
    }
    Ok(text)
}

/// The lines of which another text comes than stands beside them, with what came.
pub(crate) fn wrong_lines<B: Bench, R: Eprint>(
    rt: &R,
    alloc: Global,
    cases: &[(&str, &str)],
) -> Result<String, Fail> {
    let mut wrong = String::new(alloc);
    for (line, wanted) in cases {
        let came = match play::<B>(alloc, line) {
            Ok(came) => came,
            Err(fail) => {
                let _ = eprintln!(rt; "not taken: {line}");
                return Err(fail);
            }
        };
        if !came.split_whitespace().eq(wanted.split_whitespace()) {
            wrong.push_str(format!(in alloc; "{line} -> {came}\n")?.as_str())?;
        }
    }
    Ok(wrong)
}
