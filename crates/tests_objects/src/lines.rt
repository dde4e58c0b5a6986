//! Lines of calls. A line has a call, or several with semicolons between them; a call has a verb, the kind of thing that it is
//! of, numbers, and bytes in hexadecimal, each word of them behind an equals sign: `make short 5 =0102`, and `=ab*512` for a byte
//! that comes 512 times. A hyphen in place of a number is the greatest of all.
ghost use Rattle.dataset_changes.specs.Numbers.{IsNumber};

use std::alloc::Global;
use std::test::Fail;

/// The numbers of objects are below this one.
const NUMBERS_END: u64 = 32 << 35;

#[derive(Drop)]
pub(crate) struct Call<'a> {
    pub(crate) verb: &'a str,
    pub(crate) kind: &'a str,
    pub(crate) numbers: Vec<u64>,
    pub(crate) bytes: Vec<u8>,
}

impl<'a> Call<'a> {
    pub(crate) fn parse(alloc: Global, text: &'a str) -> Result<Call<'a>, Fail> {
        let mut words = text.split_whitespace();
        let verb = words.next().unwrap_or("");
        let mut kind = "";
        let mut numbers = Vec::new(alloc);
        let mut bytes = Vec::new(alloc);
        for word in words {
            if let Some(digits) = word.strip_prefix("=") {
                let (digits, times) = digits.split_once("*").unwrap_or((digits, "1"));
                let once = hex::decode(alloc, digits)?;
                bytes.extend_from_slice(&once.repeat(alloc, times.parse()?)?)?;
            } else if word == "-" {
                numbers.push(u64::MAX)?;
            } else if let Ok(number) = word.parse() {
                numbers.push(number)?;
            } else {
                kind = word;
            }
        }
        Ok(Call {
            verb,
            kind,
            numbers,
            bytes,
        })
    }

    /// The number at an index, or 0.
    pub(crate) fn number(&self, index: usize) -> u64 {
        self.numbers.get(index).copied().unwrap_or(0)
    }

    /// The number at an index, as one of an object behind those of the tables.
    pub(crate) fn object(&self, index: usize) -> u64
        ensures { IsNumber result }
    {
        self.number(index).clamp(5, NUMBERS_END - 1)
    }
}
