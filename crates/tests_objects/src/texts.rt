//! What comes of a call, as a text.
use crate::samples::born_in;
use block_pointer::Block;
use meta_objset::{DatasetKind, DatasetRecord};
use space_map::Run;
use std::alloc::{AllocError, Global};

/// Bytes in hexadecimal, and of equal ones how many they are: `02 00*31`.
pub(crate) fn told(alloc: Global, bytes: &[u8]) -> Result<String, AllocError> {
    let mut text = String::new(alloc);
    for run in bytes.chunk_by(|byte, next| byte == next) {
        match run {
            [byte] => write!(text, " {byte:02x}")?,
            [byte, ..] => write!(text, " {byte:02x}*{}", run.len())?,
            [] => {}
        }
    }
    if text.is_empty() {
        text.push_str("none")?;
    }
    Ok(text)
}

/// The groups that blocks were born in, in ascending order, and how many of the blocks are another than the one of these tests.
pub(crate) fn births(alloc: Global, blocks: &[Block]) -> Result<String, AllocError> {
    let mut births: Vec<u64> = Vec::new(alloc);
    let mut others = 0usize;
    for block in blocks {
        births.push(block.birth)?;
        if *block != born_in(block.birth.max(1)) {
            others = others.saturating_add(1);
        }
    }
    births.sort()?;
    let mut text = String::new(alloc);
    for birth in births {
        write!(text, " {birth}")?;
    }
    if text.is_empty() {
        text.push_str("none")?;
    }
    if others > 0 {
        write!(text, ", {others} others")?;
    }
    Ok(text)
}

/// The runs that a map leaves free.
pub(crate) fn runs_text(alloc: Global, runs: &[Run]) -> Result<String, AllocError> {
    let mut text = format!(in alloc; "free")?;
    for run in runs {
        write!(text, " {},{}", run.start, run.len)?;
    }
    Ok(text)
}

/// A record, field by field.
pub(crate) fn record_text(alloc: Global, record: &DatasetRecord) -> Result<String, AllocError> {
    let kind = match record.kind {
        DatasetKind::Volume => "volume",
        DatasetKind::Snapshot => "snapshot",
    };
    let set = births(alloc, &[record.object_set])?;
    let (size, block_size, list) = (record.size, record.block_size, record.dead_list);
    let mut text = format!(in alloc; "{kind} {size}/{block_size} created {}", record.created)?;
    write!(text, " previous {} next {}", record.previous, record.next)?;
    write!(text, " clones {} list {list} set{set}", record.clones)?;
    Ok(text)
}
