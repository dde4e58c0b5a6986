//! Ranges of volumes under a root.
ghost use Rattle.std.specs.Prelude.{◌≡◌, ◌⊎◌, ◌↔◌, ◌+◌, ◌^◌, ◌<◌, ◌≤◌, ℕ, List, Some, IsTrue, IfOk, IfErr, length, slice_range};
ghost use Rattle.block_store.specs.Blocks.{Contents};
ghost use Rattle.block_store.specs.Losses.{IsForLoss};
ghost use Rattle.block_store.specs.Steps.{OnlyReadsBlocks, AnswersTell};
ghost use Rattle.block_store.specs.Store.{Holds};
ghost use Rattle.pool_model.specs.declared.volume.PlainVolume.{PlainVolume};
ghost use Rattle.pool_model.specs.Pools.{PlainPool, volume_at};
ghost use Rattle.volume.specs.Reading.{IsReadRefused, LiesIn};
ghost use Rattle.volume.specs.Volume.{Spells};
ghost use Rattle.dataset_snapshots.specs.Finding.{IsVolumeOf};
ghost use Rattle.dataset_snapshots.specs.Pools.{SpellsPool};
ghost use Rattle.dataset_snapshots.specs.Ranges.{IsRangeRefused, IsRangeRefusedIn};

use crate::finding::{Dataset, find, find_in};
use block_pointer::Block;
use block_store::{BlockStore, Refusal};
use meta_objset::Directory;
use model_disk::Disk;
use pool_model::Name;
use std::alloc::Global;

/// A range of bytes of the volume that a root has by a name.
#[derive(Clone, Copy)]
pub struct VolumeRange<'a> {
    pub name: &'a Name,
    /// In bytes, as is `len`.
    pub offset: u64,
    pub len: u64,
}

impl VolumeRange<'_> {
    /// Whether a volume of so many bytes has all of it.
    fn is_within(&self, size: u64) -> bool
        ensures { IsTrue result ↔ (self.now.offset + self.now.len ≤ size) }
    {
        self.len <= size && self.offset <= size - self.len
    }

    /// The bytes of the range in a dataset's volume. `BadPointer` also where the volume doesn't reach so far.
    fn read_of<D: Disk + Drop>(
        &self,
        dataset: &Dataset,
        store: &mut BlockStore<D>,
        alloc: Global,
        birth: u64,
        missing: &[usize],
    ) -> Result<Vec<u8>, Refusal>
        requires few { self.now.len ≤ 2 ^ 20 }
        requires volume { IsVolumeOf dataset.now }
        ensures reads { OnlyReadsBlocks store.old store.new missing.now }
        ensures len { IfOk result (λ bytes. length bytes.items ≡ self.now.len) }
        ensures value { IfOk result (λ bytes. (stored : Contents) (array : List ℕ)
            → Holds store.old stored → Spells stored birth dataset.now.volume array
            → AnswersTell store.old store.new missing.now
            → bytes.items ≡ slice_range array self.now.offset (self.now.offset + self.now.len)) }
        ensures refused { IfErr result (λ refusal. (refusal ≡ Refusal.NoMemory)
            ⊎ (((refusal ≡ Refusal.BadPointer)
            × (dataset.now.record.size < self.now.offset + self.now.len))
            ⊎ IsReadRefused store.old store.new missing.now dataset.now.volume birth
            (LiesIn dataset.now.volume self.now.offset (self.now.offset + self.now.len)) refusal)) }
        ensures known { IfErr result (λ refusal. (stored : Contents) (array : List ℕ)
            → Holds store.old stored → Spells stored birth dataset.now.volume array
            → AnswersTell store.old store.new missing.now
            → self.now.offset + self.now.len ≤ dataset.now.record.size → IsForLoss refusal) }
    {
        if !self.is_within(dataset.record.size) {
            return Err(Refusal::BadPointer);
        }
        dataset
            .volume
            .read(store, alloc, birth, self.offset, self.len, missing)
    }
}

/// The bytes of a range of a volume under a root, which was born in the transaction group `birth` or before. It reads the root, its
/// directory, the volume's record, and then what of the volume's data lies in the range. The disks that are named are taken as
/// missing. `BadPointer` also where the root has no such name, or the range isn't in its volume: a caller knows the names and sizes
/// of a pool, and asks for no other.
pub fn read_range<D: Disk + Drop>(
    root: &Block,
    store: &mut BlockStore<D>,
    alloc: Global,
    birth: u64,
    range: &VolumeRange<'_>,
    missing: &[usize],
) -> Result<Vec<u8>, Refusal>
    requires few { range.now.len ≤ 2 ^ 20 }
    ensures reads { OnlyReadsBlocks store.old store.new missing.now }
    ensures len { IfOk result (λ bytes. length bytes.items ≡ range.now.len) }

    // They are those of the volume that the pool has there.
    ensures value { IfOk result (λ bytes. (stored : Contents) (pool : PlainPool)
        (volume : PlainVolume) → Holds store.old stored
        → SpellsPool stored birth root.now pool → AnswersTell store.old store.new missing.now
        → volume_at range.now.name.now pool ≡ Some volume
        → bytes.items ≡ slice_range volume.bytes range.now.offset
        (range.now.offset + range.now.len)) }

    // Whatever the root is: on a refusal its cause.
    ensures refused { IfErr result (λ refusal. (refusal ≡ Refusal.NoMemory)
        ⊎ IsRangeRefused store.old store.new missing.now birth root.now range.now.name.now
        range.now.offset range.now.len refusal) }

    // Over disks whose answers tell a range of a volume that is there is read, unless too many disks miss of a block.
    ensures known { IfErr result (λ refusal. (stored : Contents) (pool : PlainPool)
        (volume : PlainVolume) → Holds store.old stored
        → SpellsPool stored birth root.now pool → AnswersTell store.old store.new missing.now
        → volume_at range.now.name.now pool ≡ Some volume
        → range.now.offset + range.now.len ≤ length volume.bytes → IsForLoss refusal) }
{
    let found = find(root, store, alloc, birth, range.name, missing)?;
    let Some(dataset) = found else {
        return Err(Refusal::BadPointer);
    };
    range.read_of(&dataset, store, alloc, root.birth, missing)
}

/// The same under a root whose directory is kept in memory. It reads the root, the volume's record, and then what of the volume's
/// data lies in the range; nothing of the directory's blocks, and nothing at all where the directory hasn't got the name.
pub fn read_range_in<D: Disk + Drop>(
    root: &Block,
    store: &mut BlockStore<D>,
    alloc: Global,
    birth: u64,
    directory: &Directory,
    range: &VolumeRange<'_>,
    missing: &[usize],
) -> Result<Vec<u8>, Refusal>
    requires few { range.now.len ≤ 2 ^ 20 }
    ensures reads { OnlyReadsBlocks store.old store.new missing.now }
    ensures len { IfOk result (λ bytes. length bytes.items ≡ range.now.len) }

    // Where the directory is the root's, they are those of the volume that the pool has there.
    ensures value { IfOk result (λ bytes. (stored : Contents) (pool : PlainPool)
        (volume : PlainVolume) → Holds store.old stored
        → (is : SpellsPool stored birth root.now pool) → directory.now ≡ is.rows
        → AnswersTell store.old store.new missing.now
        → volume_at range.now.name.now pool ≡ Some volume
        → bytes.items ≡ slice_range volume.bytes range.now.offset
        (range.now.offset + range.now.len)) }

    // Whatever the root and the directory are: on a refusal its cause.
    ensures refused { IfErr result (λ refusal. (refusal ≡ Refusal.NoMemory)
        ⊎ IsRangeRefusedIn store.old store.new missing.now birth root.now directory.now
        range.now.name.now range.now.offset range.now.len refusal) }

    // Over disks whose answers tell a range of a volume that is there is read, unless too many disks miss of a block.
    ensures known { IfErr result (λ refusal. (stored : Contents) (pool : PlainPool)
        (volume : PlainVolume) → Holds store.old stored
        → (is : SpellsPool stored birth root.now pool) → directory.now ≡ is.rows
        → AnswersTell store.old store.new missing.now
        → volume_at range.now.name.now pool ≡ Some volume
        → range.now.offset + range.now.len ≤ length volume.bytes → IsForLoss refusal) }
{
    let found = find_in(root, store, alloc, birth, directory, range.name, missing)?;
    let Some(dataset) = found else {
        return Err(Refusal::BadPointer);
    };
    range.read_of(&dataset, store, alloc, root.birth, missing)
}
