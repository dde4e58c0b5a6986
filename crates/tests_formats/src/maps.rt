//! Space maps: runs of sectors that are taken and freed.

use crate::spelling::spelled;
use space_map::*;
use std::alloc::Global;
use std::test::Fail;

const BAD: &str = "the space map is not one";

/// What is done with a map, and what comes of it. A map is spelled in words, among which `+10,4` appends that four sectors
/// are taken from the tenth on, and `-10,4` that they are freed.
pub(crate) const CASES: &[(&str, &str)] = &[
    // Words of entries: what they say, and the word that says so.
    ("word a0003", "taken 10,4 a0003"),
    ("word a8003", "freed 10,4 a8003"),
    ("word 80000000000a0003", BAD),
    // What is appended: its bytes, eight an entry. A long run has several.
    ("bytes +10,4 -10,4", "03000a000000000003800a0000000000"),
    (
        "bytes +1,65537",
        "ff7f010000000000ff7f0180000000000000010001000000",
    ),
    // The runs that a map leaves free of so many sectors.
    ("replay 4096 03000a0000000000", "0,10 14,4082 of 4096"),
    (
        "replay 4096 03000a0000000000 03800a0000000000",
        "0,4096 of 4096",
    ),
    ("replay 1048576 +1,65537", "0,1 65538,983038 of 1048576"),
    // What is freed twice, taken twice, past the end, no whole entry.
    ("replay 4096 03800a0000000000", BAD),
    ("replay 4096 03000a0000000000 03000a0000000000", BAD),
    ("replay 13 03000a0000000000", BAD),
    ("replay 4096 03000a00000000", BAD),
    // The shortest map of what is taken in the end.
    ("condense 4096 +0,10 +10,4 -0,10", "03000a0000000000"),
];

/// The map that words spell and changes make.
fn map_of(alloc: Global, words: &str) -> Result<Vec<u8>, Fail> {
    let mut map = Vec::new(alloc);
    for word in words.split(" ") {
        let Some((start, len)) = word.split_once(",") else {
            map.extend_from_slice(&spelled(alloc, word)?)?;
            continue;
        };
        let kind = if start.starts_with("-") {
            Kind::Freed
        } else {
            Kind::Allocated
        };
        let start = start.trim_start_matches("-").trim_start_matches("+");
        let run = Run {
            start: start.parse::<u32>()?.into(),
            len: len.parse::<u32>()?.into(),
        };
        append(&mut map, kind, run)?;
    }
    Ok(map)
}

/// What the word of an entry says; or the bytes of a map, the shortest one with its runs, or the runs that it leaves free.
pub(crate) fn answer(alloc: Global, line: &str) -> Result<String, Fail> {
    let (verb, words) = line.split_once(" ").unwrap_or((line, ""));
    let (number, changes) = words.split_once(" ").unwrap_or((words, ""));
    if verb == "word" {
        return match Entry::from_word(u64::from_str_radix(number, 16)?) {
            Ok(entry) => {
                let kind = match entry.kind {
                    Kind::Allocated => "taken",
                    Kind::Freed => "freed",
                };
                let run = entry.run;
                Ok(format!(in alloc; "{kind} {},{} {:x}", run.start, run.len, entry.to_word())?)
            }
            Err(refusal) => Ok(format!(in alloc; "{refusal}")?),
        };
    }
    if verb == "bytes" {
        return Ok(hex::encode(alloc, map_of(alloc, words)?.as_slice())?);
    }
    let map = map_of(alloc, changes)?;
    let set = match replay(alloc, &map, number.parse::<u64>()?.clamp(1, 1 << 20)) {
        Ok(set) => set,
        Err(refusal) => return Ok(format!(in alloc; "{refusal}")?),
    };
    if verb == "condense" {
        return Ok(hex::encode(alloc, condense(alloc, &set)?.as_slice())?);
    }
    let mut text = String::new(alloc);
    for run in set.runs() {
        write!(text, "{},{} ", run.start, run.len)?;
    }
    write!(text, "of {}", set.sectors())?;
    Ok(text)
}
