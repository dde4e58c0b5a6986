//! Lines of calls, with semicolons between them. A call has a name and numbers; behind a colon it may have words: `open 0: - write=3`.
//! A hyphen in place of a number is the greatest of all.
use std::alloc::Global;
use std::test::Fail;

#[derive(Drop)]
pub(crate) struct Call<'a> {
    pub(crate) name: &'a str,
    pub(crate) numbers: Vec<u64>,
    pub(crate) words: &'a str,
}

impl<'a> Call<'a> {
    /// The call that a part of a line has.
    pub(crate) fn parse(alloc: Global, text: &'a str) -> Result<Call<'a>, Fail> {
        let (front, words) = text.split_once(":").unwrap_or((text, ""));
        let mut parts = front.split_whitespace();
        let name = parts.next().unwrap_or("");
        let mut numbers = Vec::new(alloc);
        'parts: for part in parts {
            numbers.push(if part == "-" { u64::MAX } else { part.parse()? })?;
        }
        Ok(Call {
            name,
            numbers,
            words,
        })
    }
}
