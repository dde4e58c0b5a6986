//! Volumes by their object sets.
use crate::lines::Call;
use crate::stores::{Store, store_plan};
use crate::texts::bytes_text;
use std::alloc::Global;
use std::test::Fail;
use volume::{GroupWrites, Refusal, Rewritten, VolumeSet};

/// A volume after what a group writes, once it is stored: by one call where it is `written`, else by its changed blocks as they are
/// `placed`. Behind its number a call has the group that the volume was stored in, or a later one, and the one that writes.
pub(crate) fn rewritten(
    volume: &VolumeSet,
    store: &mut Store,
    alloc: Global,
    call: &Call,
    changes: &GroupWrites,
) -> Result<Rewritten, Refusal> {
    let (before, birth) = (call.number(1), call.number(2).max(1));
    store.drop_plan(birth);
    let done = if call.name == "written" {
        volume.written(store, alloc, changes, before, birth)?
    } else {
        let blocks = volume.changed_blocks(store, alloc, before, changes)?;
        volume.placed(store, alloc, blocks, birth)?
    };
    store_plan(store);
    Ok(done)
}

/// The bytes of a volume, or why they were not read: behind its number a call has the group that it is read in, where the bytes begin,
/// and how many they are.
pub(crate) fn bytes_of(
    volume: &VolumeSet,
    store: &mut Store,
    alloc: Global,
    call: &Call,
) -> Result<String, Fail> {
    let (birth, offset, len) = (call.number(1), call.number(2), call.number(3));
    if offset > 1 << 40 || len > 1 << 20 || offset + len > volume.size() {
        return Err(Fail::new("behind the volume's end"));
    }
    match volume.read(store, alloc, birth, offset, len, &[]) {
        Ok(bytes) => Ok(bytes_text(alloc, &bytes)?),
        Err(refusal) => Ok(format!(in alloc; "{refusal:?}")?),
    }
}
