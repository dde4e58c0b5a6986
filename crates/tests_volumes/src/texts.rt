//! What comes of a call, as a text.
use dataset_snapshots::RootContents;
use meta_objset::{DirectoryRow, is_name, unpadded};
use pool_model::Name;
use std::alloc::{AllocError, Global};

/// Bytes in hexadecimal, and of equal ones how many they are: `02 00*31`.
pub(crate) fn bytes_text(alloc: Global, bytes: &[u8]) -> Result<String, AllocError> {
    let mut text = String::new(alloc);
    for run in bytes.chunk_by(|byte, next| byte == next) {
        match run {
            [byte] => write!(text, " {byte:02x}")?,
            [byte, ..] => write!(text, " {byte:02x}*{}", run.len())?,
            [] => {}
        }
    }
    if text.is_empty() {
        text.push_str("none")?;
    }
    Ok(text)
}

/// The names of a directory's rows, in their order, each with its object.
pub(crate) fn rows_text(alloc: Global, rows: &[DirectoryRow]) -> Result<String, AllocError> {
    let mut text = String::new(alloc);
    for row in rows {
        if is_name(&row.name) {
            let name = str::from_utf8(unpadded(&row.name)).unwrap_or("?");
            write!(text, " {name} {}", row.object)?;
        } else {
            write!(text, " ? {}", row.object)?;
        }
    }
    Ok(text)
}

/// What is kept of a root: the rows of its directory, what stands by these names, how many blocks there are, and of how many metaslabs
/// space maps.
pub(crate) fn contents_text(
    alloc: Global,
    contents: &RootContents,
    names: &str,
) -> Result<String, AllocError> {
    let mut text = rows_text(alloc, contents.directory.rows())?;
    for word in names.split_whitespace() {
        let name = Name::new(Vec::from_slice(alloc, word.as_bytes())?);
        let Some(shape) = contents.names.find(&name) else {
            write!(text, ", no {word}")?;
            continue;
        };
        let kind = if shape.kind.is_snapshot() {
            "snapshot"
        } else {
            "volume"
        };
        write!(
            text,
            ", {kind} {word} of {}/{}",
            shape.size, shape.block_size
        )?;
        write!(text, " made in {}", shape.group)?;
    }
    let (blocks, maps) = (contents.blocks.len(), contents.maps.len());
    write!(text, ", {blocks} blocks, {maps} maps")?;
    Ok(text)
}
