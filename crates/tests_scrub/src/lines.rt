//! Calls in lines, with semicolons between them: each has a name and numbers.
use std::alloc::Global;
use std::test::Fail;

#[derive(Drop)]
pub(crate) struct Call<'a> {
    pub(crate) name: &'a str,
    pub(crate) numbers: Vec<usize>,
}

impl<'a> Call<'a> {
    pub(crate) fn parse(alloc: Global, text: &'a str) -> Result<Call<'a>, Fail> {
        let mut words = text.split_whitespace();
        let name = words.next().unwrap_or("");
        let mut numbers = Vec::new(alloc);
        for word in words {
            numbers.push(word.parse()?)?;
        }
        Ok(Call { name, numbers })
    }
}
