//! Several whole blocks of a volume's data.
ghost use Rattle.std.specs.Prelude.{◌≡◌, ◌≢◌, ◌⊎◌, ◌/◌, ◌<◌, ◌++◌, ◌∷◌, [], ℕ, List, Some, Option, All, Any, Contains, length, IfOk, IfErr, OnOk};
ghost use Rattle.std.specs.List.{AllZip};
ghost use Rattle.std.specs.List.Sorted.{IsStrictlyIncreasing};
ghost use Rattle.block_store.specs.Blocks.{Contents};
ghost use Rattle.block_store.specs.Causes.{IsCaused};
ghost use Rattle.block_store.specs.Losses.{IsForLoss};
ghost use Rattle.block_store.specs.Steps.{OnlyReadsBlocks, AnswersTell};
ghost use Rattle.block_store.specs.Store.{Holds};
ghost use Rattle.dnode.specs.ObjectSet.{FitsObjectSet};
ghost use Rattle.dnode_tree.specs.Ways.{bytes_of};
ghost use Rattle.volume.specs.Reading.{IsFound, IsUnread};
ghost use Rattle.volume.specs.Volume.{size_of, block_size_of, block_of, part, HasBytes, HasData};

use crate::volume::{DATA, VolumeSet};
use block_store::{BlockStore, Refusal};
use dnode::ObjectSet;
use model_disk::Disk;
use std::alloc::{AllocError, Global};

impl VolumeSet {
    /// The bytes of blocks of data, in the order of their ids, in an object set of the volume. The way to object 1 is read
    /// once, and each indirect block behind it once; nothing where no block is asked for.
    pub(crate) fn whole_blocks<D: Disk + Drop>(
        &self,
        set: &ObjectSet,
        store: &mut BlockStore<D>,
        alloc: Global,
        ids: &[u64],
        missing: &[usize],
    ) -> Result<Vec<Vec<u8>>, Refusal>
        requires set { FitsObjectSet set.now }
        requires once { IsStrictlyIncreasing ids.now }
        ensures reads { OnlyReadsBlocks store.old store.new missing.now }
        ensures idle { ids.now ≡ [] → store.new ≡ store.old }
        ensures count { IfOk result (λ blocks. length blocks.items ≡ length ids.now) }
        ensures len { IfOk result (λ blocks.
            All (λ bytes. length bytes.items ≡ block_size_of self.now) blocks.items) }
        ensures value { IfOk result (λ blocks. (stored : Contents) (array : List ℕ)
            → Holds store.old stored → HasData stored (block_of self.now).birth set.now
            (size_of self.now) (block_size_of self.now) array
            → AnswersTell store.old store.new missing.now
            → All (λ id. id < size_of self.now / block_size_of self.now) ids.now
            → AllZip (λ id bytes. bytes.items ≡ part array (block_size_of self.now) id)
            ids.now blocks.items) }
        ensures found { OnOk result (All (λ id. (found : Option (List ℕ))
            × IsFound store.old.spaces self.now set.now id found) ids.now) }
        ensures caused { IfErr result (IsCaused store.old store.new missing.now) }
        ensures refused { IfErr result (λ refusal. (refusal ≡ Refusal.NoMemory)
            ⊎ IsUnread store.old store.new missing.now self.now set.now
            (λ id. Contains ids.now id) refusal) }
        ensures cause { IfErr result (λ refusal. refusal ≢ Refusal.NoSpace) }
        ensures known { IfErr result (λ refusal. (stored : Contents) (array : List ℕ)
            → Holds store.old stored → HasData stored (block_of self.now).birth set.now
            (size_of self.now) (block_size_of self.now) array
            → AnswersTell store.old store.new missing.now
            → All (λ id. id < size_of self.now / block_size_of self.now) ids.now
            → IsForLoss refusal) }
    {
        let found = objset::get_many(set, store, alloc, DATA, ids, self.block.birth, missing)?;
        self.all_whole(alloc, found)
    }

    /// The bytes of whole blocks, zeros where nothing was found. `BadPointer` where one has another size.
    fn all_whole(&self, alloc: Global, found: Vec<Option<Vec<u8>>>) -> Result<Vec<Vec<u8>>, Refusal>
        ensures len { IfOk result (λ blocks.
            All (λ bytes. length bytes.items ≡ block_size_of self.now) blocks.items) }
        ensures value { IfOk result (λ blocks. AllZip (λ block bytes.
            HasBytes (block_size_of self.now) (bytes_of block) bytes.items)
            found.items blocks.items) }
        ensures refused { IfErr result (λ refusal. (refusal ≡ Refusal.NoMemory)
            ⊎ ((refusal ≡ Refusal.BadPointer) × Any (λ block. (bytes : List ℕ)
            × (bytes_of block ≡ Some bytes) × (length bytes ≢ block_size_of self.now))
            found.items)) }
        ensures cause { IfErr result (λ refusal. refusal ≢ Refusal.NoSpace) }
    {
        let mut blocks = Vec::new(alloc);
        for block in found {
            let bytes = self.whole(alloc, block)?;
            push(&mut blocks, bytes)?;
        }
        Ok(blocks)
    }

    /// The bytes of a whole block, zeros where nothing was found. `BadPointer` where they have another size.
    fn whole(&self, alloc: Global, found: Option<Vec<u8>>) -> Result<Vec<u8>, Refusal>
        ensures len { IfOk result (λ bytes. length bytes.items ≡ block_size_of self.now) }
        ensures value { IfOk result (λ bytes.
            HasBytes (block_size_of self.now) (bytes_of found) bytes.items) }
        ensures refused { IfErr result (λ refusal. (refusal ≡ Refusal.NoMemory)
            ⊎ ((refusal ≡ Refusal.BadPointer) × ((bytes : List ℕ)
            × (bytes_of found ≡ Some bytes) × (length bytes ≢ block_size_of self.now)))) }
        ensures cause { IfErr result (λ refusal. refusal ≢ Refusal.NoSpace) }
    {
        let Some(bytes) = found else {
            return Ok(vec![in alloc; 0; self.block_size() as usize]?);
        };
        if bytes.len() as u64 != self.block_size() {
            return Err(Refusal::BadPointer);
        }
        Ok(bytes)
    }
}

/// Adds the bytes of a block.
fn push(blocks: &mut Vec<Vec<u8>>, bytes: Vec<u8>) -> Result<(), AllocError>
    ensures { OnOk result (blocks.new.items ≡ blocks.old.items ++ bytes ∷ []) }
{
    blocks.push(bytes)?;
    Ok(())
}
