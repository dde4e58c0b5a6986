//! Tables of lines: beside each line stands what is to come of it. A line has a call, or several with
//! semicolons between them; a call has a name, numbers, and bytes in hexadecimal, each word of them
//! behind an equals sign: `write 1 13 =616263`, and `=ab*512` for a byte that comes 512 times. A hyphen
//! in place of a number is the greatest of all. Where the texts are compared, line breaks and further
//! spaces don't count.
use std::alloc::Global;
use std::test::Fail;

/// What takes one call after another.
pub trait Bench {
    /// What comes of a call, or an error where it is none of the bench's.
    fn answer(&mut self, alloc: Global, call: &Call) -> Result<String, Fail>;
}

#[derive(Drop)]
pub struct Call<'a> {
    pub name: &'a str,
    pub numbers: Vec<usize>,
    pub bytes: Vec<u8>,
}

impl<'a> Call<'a> {
    fn parse(alloc: Global, text: &'a str) -> Result<Call<'a>, Fail> {
        let mut words = text.split_whitespace();
        let name = words.next().unwrap_or("");
        let mut numbers = Vec::new(alloc);
        let mut bytes = Vec::new(alloc);
        for word in words {
            if let Some(digits) = word.strip_prefix("=") {
                let (digits, times) = digits.split_once("*").unwrap_or((digits, "1"));
                let once = hex::decode(alloc, digits)?;
                bytes.extend_from_slice(&once.repeat(alloc, times.parse()?)?)?;
            } else {
                numbers.push(if word == "-" {
                    usize::MAX
                } else {
                    word.parse()?
                })?;
            }
        }
        Ok(Call {
            name,
            numbers,
            bytes,
        })
    }

    /// The number at an index, or 0.
    pub fn number(&self, index: usize) -> usize {
        self.numbers.get(index).copied().unwrap_or(0)
    }
}

/// The answers to the calls of a line, with semicolons between them.
pub fn play<B: Bench>(alloc: Global, bench: &mut B, line: &str) -> Result<String, Fail> {
    let mut text = String::new(alloc);
    for part in line.split(';') {
        let call = Call::parse(alloc, part)?;
        let answer = bench.answer(alloc, &call)?;
        if !text.is_empty() {
            text.push_str("; ")?;
        }
        text.push_str(answer.as_str())?;
    }
    Ok(text)
}

/// The lines of which another text comes than stands beside them, with what came.
pub fn wrong_lines<B: Bench, R: Eprint>(
    rt: &R,
    alloc: Global,
    bench: &mut B,
    cases: &[(&str, &str)],
) -> Result<String, Fail> {
    let mut wrong = String::new(alloc);
    for (line, wanted) in cases {
        let came = match play(alloc, bench, line) {
            Ok(came) => came,
            Err(fail) => {
                let _ = eprintln!(rt; "not taken: {line}");
                return Err(fail);
            }
        };
        if !came.split_whitespace().eq(wanted.split_whitespace()) {
            wrong.push_str(format!(in alloc; "{line} -> {came}\n")?.as_str())?;
        }
    }
    Ok(wrong)
}
