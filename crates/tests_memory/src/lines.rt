//! Command lines, as they are given and as they end.
use crate::pools::MemPools;
use commands::command;
use std::alloc::{AllocError, Global};

/// Bytes as they are told here: a text as it stands, and of a read the length of each run of one byte.
fn told(alloc: Global, line: &str, bytes: &[u8]) -> Result<String, AllocError> {
    let mut text = String::new(alloc);
    if !line.starts_with("zfs read") {
        return String::from_str(alloc, std::str::from_utf8(bytes).unwrap_or("no text"));
    }
    let mut count = 0usize;
    for i in 0..bytes.len() {
        count = count.saturating_add(1);
        if i + 1 == bytes.len() || bytes[i + 1] != bytes[i] {
            let byte = bytes[i];
            text.push_str(format!(in alloc; "{byte:02x}x{count} ")?.as_str())?;
            count = 0;
        }
    }
    Ok(text)
}

/// Runs a command line with an input of so many bytes of one value: its exit status, and what it prints.
pub(crate) fn run(
    alloc: Global,
    pools: &mut MemPools,
    line: &str,
    given: (u8, usize),
) -> Result<String, AllocError> {
    let mut words = Vec::new(alloc);
    for word in line.split(' ') {
        words.push(word)?;
    }
    let input = vec![in alloc; given.0; given.1]?;
    let mut output = Vec::new(alloc);
    let mut errors = Vec::new(alloc);
    let status = command(
        alloc,
        pools,
        words.as_slice(),
        1,
        &mut input.as_slice(),
        &mut output,
        &mut errors,
    );
    let number = status.number();
    let shown = told(alloc, line, output.as_slice())?;
    let wrong = told(alloc, "", errors.as_slice())?;
    format!(in alloc; "{number} {shown}{wrong}")
}
