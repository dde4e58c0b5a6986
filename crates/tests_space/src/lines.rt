//! Tables of lines: beside each line stands what is to come of it. A line has a call, or several with semicolons between them. A
//! call has a name and numbers; behind a colon it may have names: `write 3 2 200: v`. A hyphen in place of a number is the
//! greatest of all. Where the texts are compared, line breaks and further spaces don't count.
use std::alloc::Global;
use std::test::Fail;

/// What takes one call after another.
pub(crate) trait Bench {
    /// What comes of a call, or an error where it is none of the bench's.
    fn answer(&mut self, alloc: Global, call: &Call) -> Result<String, Fail>;
}

#[derive(Drop)]
pub(crate) struct Call<'a> {
    pub(crate) name: &'a str,
    pub(crate) numbers: Vec<u64>,
    pub(crate) names: &'a str,
}

impl<'a> Call<'a> {
    pub(crate) fn parse(alloc: Global, text: &'a str) -> Result<Call<'a>, Fail> {
        let (front, names) = text.split_once(":").unwrap_or((text, ""));
        let mut words = front.split_whitespace();
        let name = words.next().unwrap_or("");
        let mut numbers = Vec::new(alloc);
        for word in words {
            numbers.push(if word == "-" { u64::MAX } else { word.parse()? })?;
        }
        let names = names.trim();
        Ok(Call {
            name,
            numbers,
            names,
        })
    }
}

/// The answers to the calls of a line, with semicolons between them.
fn play<B: Bench>(alloc: Global, bench: &mut B, line: &str) -> Result<String, Fail> {
    let mut text = String::new(alloc);
    for part in line.split(';') {
        let call = Call::parse(alloc, part)?;
        let answer = bench.answer(alloc, &call)?;
        if !text.is_empty() {
            text.push_str("; ")?;
        }
        text.push_str(answer.as_str().trim())?;
    }
    Ok(text)
}

/// The lines of which another text comes than stands beside them, with what came.
pub(crate) fn wrong_lines<B: Bench, R: Eprint>(
    rt: &R,
    alloc: Global,
    bench: &mut B,
    cases: &[(&str, &str)],
) -> Result<String, Fail> {
    let mut wrong = String::new(alloc);
    for (line, wanted) in cases {
        let came = match play(alloc, bench, line) {
            Ok(came) => came,
            Err(fail) => {
                let _ = eprintln!(rt; "not taken: {line}");
                return Err(fail);
            }
        };
        if !came.split_whitespace().eq(wanted.split_whitespace()) {
            wrong.push_str(format!(in alloc; "{line} -> {came}\n")?.as_str())?;
        }
    }
    Ok(wrong)
}
