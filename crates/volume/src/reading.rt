//! Reads of a volume.
ghost use Rattle.std.specs.Prelude.{◌≡◌, ◌⊎◌, ◌+◌, ◌-◌, ◌*◌, ◌/◌, ◌≤◌, ◌<◌, ◌^◌, [], ℕ, List, All, length, IfOk, IfErr, slice_range};
ghost use Rattle.std.specs.List.{AllZip, range_with_len};
ghost use Rattle.block_store.specs.Blocks.{Contents};
ghost use Rattle.block_store.specs.Causes.{IsCaused};
ghost use Rattle.block_store.specs.Losses.{IsForLoss};
ghost use Rattle.block_store.specs.Steps.{OnlyReadsBlocks, AnswersTell};
ghost use Rattle.block_store.specs.Store.{Holds};
ghost use Rattle.dnode.specs.declared.object_set.ObjectSet.{ObjectSet};
ghost use Rattle.dnode.specs.ObjectSet.{FitsObjectSet};
ghost use Rattle.volume.specs.Reading.{IsReadRefused, IsUnread, IsVolumeFound, LiesIn};
ghost use Rattle.volume.specs.Volume.{size_of, block_size_of, block_of, part, HasData, Spells};

use crate::volume::VolumeSet;
use block_store::{BlockStore, Refusal};
use dnode::ObjectSet;
use model_disk::Disk;
use std::alloc::{AllocError, Global};

impl VolumeSet {
    /// A range of the volume's bytes. It reads the block of the object set once and the way to the dnode of object 1, and then
    /// the way to the blocks in which the range lies, each indirect block once. The set's block was born in the transaction
    /// group `birth` or before. The disks that are named are taken as missing. `BadPointer` where the set spells no volume
    /// there: no object set, or one of another kind; no object 1, or one of another type, with blocks of another size or
    /// behind the volume's end.
    pub fn read<D: Disk + Drop>(
        &self,
        store: &mut BlockStore<D>,
        alloc: Global,
        birth: u64,
        offset: u64,
        len: u64,
        missing: &[usize],
    ) -> Result<Vec<u8>, Refusal>
        requires within { offset + len ≤ size_of self.now }
        requires few { len ≤ 2 ^ 20 }
        ensures reads { OnlyReadsBlocks store.old store.new missing.now }
        ensures len { IfOk result (λ read. length read.items ≡ len) }
        ensures value { IfOk result (λ read. (stored : Contents) (array : List ℕ)
            → Holds store.old stored → Spells stored birth self.now array
            → AnswersTell store.old store.new missing.now
            → read.items ≡ slice_range array offset (offset + len)) }

        // Whatever the volume is: that its set was found to be one, and on a refusal its cause.
        ensures found { IfOk result (λ read. (set : ObjectSet)
            × IsVolumeFound store.old.spaces self.now birth set) }
        ensures caused { IfErr result (IsCaused store.old store.new missing.now) }
        ensures refused { IfErr result (λ refusal. (refusal ≡ Refusal.NoMemory)
            ⊎ IsReadRefused store.old store.new missing.now self.now birth
            (LiesIn self.now offset (offset + len)) refusal) }

        // And it is read, over disks whose answers tell, unless too many disks miss of a block.
        ensures known { IfErr result (λ refusal. (stored : Contents) (array : List ℕ)
            → Holds store.old stored → Spells stored birth self.now array
            → AnswersTell store.old store.new missing.now → IsForLoss refusal) }
    {
        let set = self.open(store, alloc, birth, missing)?;
        self.read_data(&set, store, alloc, offset, len, missing)
    }

    /// A range of the bytes that an object set has as the volume's.
    fn read_data<D: Disk + Drop>(
        &self,
        set: &ObjectSet,
        store: &mut BlockStore<D>,
        alloc: Global,
        offset: u64,
        len: u64,
        missing: &[usize],
    ) -> Result<Vec<u8>, Refusal>
        requires set { FitsObjectSet set.now }
        requires within { offset + len ≤ size_of self.now }
        requires few { len ≤ 2 ^ 20 }
        ensures reads { OnlyReadsBlocks store.old store.new missing.now }
        ensures len { IfOk result (λ read. length read.items ≡ len) }
        ensures value { IfOk result (λ read. (stored : Contents) (array : List ℕ)
            → Holds store.old stored → HasData stored (block_of self.now).birth set.now
            (size_of self.now) (block_size_of self.now) array
            → AnswersTell store.old store.new missing.now
            → read.items ≡ slice_range array offset (offset + len)) }
        ensures caused { IfErr result (IsCaused store.old store.new missing.now) }
        ensures refused { IfErr result (λ refusal. (refusal ≡ Refusal.NoMemory)
            ⊎ IsUnread store.old store.new missing.now self.now set.now
            (LiesIn self.now offset (offset + len)) refusal) }
        ensures known { IfErr result (λ refusal. (stored : Contents) (array : List ℕ)
            → Holds store.old stored → HasData stored (block_of self.now).birth set.now
            (size_of self.now) (block_size_of self.now) array
            → AnswersTell store.old store.new missing.now
            → IsForLoss refusal) }
    {
        let ids = self.ids_in(alloc, offset, len)?;
        let blocks = self.whole_blocks(set, store, alloc, &ids, missing)?;
        Ok(self.joined(alloc, &blocks, offset, len)?)
    }

    /// The ids of the blocks in which a range lies, in order. An empty range lies in none.
    fn ids_in(&self, alloc: Global, offset: u64, len: u64) -> Result<Vec<u64>, AllocError>
        requires within { offset + len ≤ size_of self.now }
        ensures ids { IfOk result (λ ids. ids.items
            ≡ range_with_len (offset / block_size_of self.now) (length ids.items)) }
        ensures lie { IfOk result (λ ids. All (LiesIn self.now offset (offset + len)) ids.items) }
        ensures all { IfOk result (λ ids. 0 < len → offset + len
            ≤ (offset / block_size_of self.now + length ids.items) * block_size_of self.now) }
        ensures idle { IfOk result (λ ids. len ≡ 0 → ids.items ≡ []) }
    {
        if len == 0 {
            return Ok(Vec::new(alloc));
        }
        let block_size = self.block_size();
        ids_between(
            alloc,
            offset / block_size,
            (offset + len - 1) / block_size + 1,
        )
    }

    /// A range of the bytes that whole blocks have, from the block in which it begins on.
    fn joined(
        &self,
        alloc: Global,
        blocks: &[Vec<u8>],
        offset: u64,
        len: u64,
    ) -> Result<Vec<u8>, AllocError>
        requires within { offset + len ≤ size_of self.now }
        requires few { len ≤ 2 ^ 20 }
        requires whole { All (λ bytes. length bytes.items ≡ block_size_of self.now) blocks.now }
        requires all { 0 < len → offset + len
            ≤ (offset / block_size_of self.now + length blocks.now) * block_size_of self.now }
        ensures len { IfOk result (λ read. length read.items ≡ len) }
        ensures value { IfOk result (λ read. (array : List ℕ) → length array ≡ size_of self.now
            → AllZip (λ id bytes. bytes.items ≡ part array (block_size_of self.now) id)
            (range_with_len (offset / block_size_of self.now) (length blocks.now)) blocks.now
            → read.items ≡ slice_range array offset (offset + len)) }
    {
        let block_size = self.block_size();
        let first = offset / block_size;
        let mut read = Vec::new(alloc);
        'parts: while (read.len() as u64) < len {
            let done = read.len() as u64;
            let at = offset + done;
            let block = &blocks[(at / block_size - first) as usize];
            let start = at % block_size;
            let count = (block_size - start).min(len - done);
            read.extend_from_slice(&block[start as usize..(start + count) as usize])?;
        }
        Ok(read)
    }
}

/// The ids from the first on and before the end.
fn ids_between(alloc: Global, first: u64, end: u64) -> Result<Vec<u64>, AllocError>
    ensures { IfOk result (λ ids. ids.items ≡ range_with_len first (end - first)) }
{
    (first..end).collect(alloc)
}
