//! The blocks that a group's writes change.
ghost use Rattle.std.specs.Prelude.{◌≡◌, ◌≢◌, ◌⊎◌, ◌↔◌, false, ◌/◌, ◌<◌, ◌++◌, ◌∷◌, [], ℕ, List, Vec, IfOk, IfErr, IfSome, OnOk, length, map, Option, Some, None, Contains, All};
ghost use Rattle.std.specs.declared.alloc.Global.{Global};
ghost use Rattle.std.specs.List.Sorted.{IsStrictlyIncreasing};
ghost use Rattle.pool_model.specs.declared.volume.PlainVolume.{PlainVolume};
ghost use Rattle.pool_model.specs.Pools.{is_snapshot};
ghost use Rattle.volume_rules.specs.Overlay.{after_writes};
ghost use Rattle.block_store.specs.Blocks.{Contents};
ghost use Rattle.block_store.specs.Causes.{IsCaused};
ghost use Rattle.block_store.specs.Losses.{IsForLoss};
ghost use Rattle.block_store.specs.Steps.{OnlyReadsBlocks, AnswersTell};
ghost use Rattle.block_store.specs.Store.{Holds};
ghost use Rattle.dnode.specs.declared.object_set.ObjectSet.{ObjectSet};
ghost use Rattle.dnode.specs.ObjectSet.{FitsObjectSet};
ghost use Rattle.dnode_tree.specs.declared.writes.BlockWrite.{BlockWrite};
ghost use Rattle.volume.specs.Reading.{IsFound, IsReadRefused, IsUnread, IsVolumeFound, IsWayRead};
ghost use Rattle.volume.specs.InTurn.{HaveInTurn};
ghost use Rattle.volume.specs.Volume.{size_of, block_size_of, block_of, part, HasData, Spells};
ghost use Rattle.volume.specs.Writing.{Reaches, IsChanged, IsCovered, NeedsOldBytes, HasId, AreBlocksOf, IsArrayWith};

use crate::volume::VolumeSet;
use block_store::{BlockStore, Refusal};
use dnode::ObjectSet;
use dnode_tree::BlockWrite;
use model_disk::Disk;
use pool_model::{Name, Write};
use std::alloc::{AllocError, Global};
use std::collections::VecDeque;
use txg_pipeline::Pending;
use volume_rules::lay_pending;

/// What a group writes, and the name of a volume. Writes to other volumes don't count.
#[derive(Clone, Copy)]
pub struct GroupWrites<'a> {
    pub name: &'a Name,
    pub items: &'a Pending,
}

impl VolumeSet {
    /// The blocks that writes change, whole, in the order of their ids. It only reads: the object set, as `read` does, and the
    /// way to those of these blocks of which no write has every byte; nothing where no block is changed. The set's block was born
    /// in the transaction group `birth` or before. `BadPointer` where the set spells no volume there, as in `read`.
    pub fn changed_blocks<D: Disk + Drop>(
        &self,
        store: &mut BlockStore<D>,
        alloc: Global,
        birth: u64,
        changes: &GroupWrites,
    ) -> Result<Vec<BlockWrite>, Refusal>
        ensures reads { OnlyReadsBlocks store.old store.new [] }
        ensures idle { ((id : ℕ)
            → ¬ IsChanged self.now changes.now.name.now changes.now.items.now.writes id)
            → store.new ≡ store.old }
        ensures blocks { IfOk result (λ blocks. AreBlocksOf self.now blocks.items) }
        ensures changed { IfOk result (λ blocks. (id : ℕ) → HasId blocks.items id
            ↔ IsChanged self.now changes.now.name.now changes.now.items.now.writes id) }

        // They turn the volume's bytes into those after the writes.
        ensures value { IfOk result (λ blocks. (stored : Contents) (volume : PlainVolume)
            → Holds store.old stored → volume.name ≡ changes.now.name.now
            → is_snapshot volume.kind ≡ false
            → Spells stored birth self.now volume.bytes → AnswersTell store.old store.new []
            → IsArrayWith volume.bytes (block_size_of self.now) blocks.items
            (after_writes volume changes.now.items.now.writes).bytes) }

        // Whatever the volume is: what was read, and on a refusal its cause. The set is judged
        // where any block is changed, and a block that one of the writes covers refuses nothing.
        ensures judged { IfOk result (λ blocks. blocks.items ≢ []
            → (set : ObjectSet) × IsVolumeFound store.old.spaces self.now birth set) }
        ensures found { IfOk result (λ blocks. All (λ block.
            ¬ IsCovered self.now changes.now.name.now changes.now.items.now.writes block.id
            → IsWayRead store.old.spaces self.now birth block.id) blocks.items) }
        ensures caused { IfErr result (IsCaused store.old store.new []) }
        ensures refused { IfErr result (λ refusal. (refusal ≡ Refusal.NoMemory)
            ⊎ IsReadRefused store.old store.new [] self.now birth
            (NeedsOldBytes self.now changes.now.name.now changes.now.items.now.writes) refusal) }
        ensures cause { IfErr result (λ refusal. refusal ≢ Refusal.NoSpace) }

        // And they are read, over disks whose answers tell, unless too many disks miss of a block.
        ensures known { IfErr result (λ refusal. (stored : Contents) (array : List ℕ)
            → Holds store.old stored → Spells stored birth self.now array
            → AnswersTell store.old store.new [] → IsForLoss refusal) }
    {
        let ids = self.changed_ids(alloc, changes.name, changes.items)?;
        if ids.is_empty() {
            return Ok(Vec::new(alloc));
        }
        let set = self.open(store, alloc, birth, &[])?;
        self.blocks_of(&set, store, alloc, changes, &ids)
    }

    /// The blocks of these ids after the writes.
    fn blocks_of<D: Disk + Drop>(
        &self,
        set: &ObjectSet,
        store: &mut BlockStore<D>,
        alloc: Global,
        changes: &GroupWrites,
        ids: &[u64],
    ) -> Result<Vec<BlockWrite>, Refusal>
        requires set { FitsObjectSet set.now }
        requires once { IsStrictlyIncreasing ids.now }
        requires ids { All (λ id. id < size_of self.now / block_size_of self.now) ids.now }
        ensures reads { OnlyReadsBlocks store.old store.new [] }
        ensures ids { IfOk result (λ blocks. map (λ block. block.id) blocks.items ≡ ids.now) }
        ensures whole { IfOk result (λ blocks. All (λ block.
            length block.bytes.items ≡ block_size_of self.now) blocks.items) }
        ensures value { IfOk result (λ blocks. (stored : Contents) (volume : PlainVolume)
            → Holds store.old stored → volume.name ≡ changes.now.name.now
            → is_snapshot volume.kind ≡ false
            → HasData stored (block_of self.now).birth set.now (size_of self.now)
            (block_size_of self.now) volume.bytes → AnswersTell store.old store.new []
            → All (λ block. block.bytes.items ≡ part
            (after_writes volume changes.now.items.now.writes).bytes
            (block_size_of self.now) block.id) blocks.items) }
        ensures found { IfOk result (λ blocks. All (λ block.
            ¬ IsCovered self.now changes.now.name.now changes.now.items.now.writes block.id
            → (found : Option (List ℕ))
            × IsFound store.old.spaces self.now set.now block.id found) blocks.items) }
        ensures unread { All (IsCovered self.now changes.now.name.now
            changes.now.items.now.writes) ids.now
            → store.new ≡ store.old }
        ensures caused { IfErr result (IsCaused store.old store.new []) }
        ensures refused { IfErr result (λ refusal. (refusal ≡ Refusal.NoMemory)
            ⊎ IsUnread store.old store.new [] self.now set.now (λ id. Contains ids.now id
            × ¬ IsCovered self.now changes.now.name.now changes.now.items.now.writes id) refusal) }
        ensures cause { IfErr result (λ refusal. refusal ≢ Refusal.NoSpace) }
        ensures known { IfErr result (λ refusal. (stored : Contents) (array : List ℕ)
            → Holds store.old stored → HasData stored (block_of self.now).birth set.now
            (size_of self.now) (block_size_of self.now) array → AnswersTell store.old store.new []
            → IsForLoss refusal) }
    {
        let needed = self.uncovered(alloc, changes, ids)?;
        let old = self.whole_blocks(set, store, alloc, &needed, &[])?;
        Ok(self.laid_all(alloc, changes, ids, old)?)
    }

    /// Those of the ids whose blocks no write covers, in order.
    fn uncovered(
        &self,
        alloc: Global,
        changes: &GroupWrites,
        ids: &[u64],
    ) -> Result<Vec<u64>, AllocError>
        requires ids { All (λ id. id < size_of self.now / block_size_of self.now) ids.now }
        ensures { IfOk result (λ needed. HaveInTurn
            (IsCovered self.now changes.now.name.now changes.now.items.now.writes)
            (λ id same. same ≡ id) ids.now needed.items) }
    {
        let mut needed = Vec::new(alloc);
        for id in ids {
            if !self.is_covered(changes, *id) {
                needed.push(*id)?;
            }
        }
        Ok(needed)
    }

    /// The blocks of these ids after the writes. Of those that no write covers there are the old bytes, in order.
    fn laid_all(
        &self,
        alloc: Global,
        changes: &GroupWrites,
        ids: &[u64],
        old: Vec<Vec<u8>>,
    ) -> Result<Vec<BlockWrite>, AllocError>
        requires ids { All (λ id. id < size_of self.now / block_size_of self.now) ids.now }
        requires old { HaveInTurn
            (IsCovered self.now changes.now.name.now changes.now.items.now.writes)
            (λ id bytes. length bytes.items ≡ block_size_of self.now) ids.now old.items }
        ensures ids { IfOk result (λ blocks. map (λ block. block.id) blocks.items ≡ ids.now) }
        ensures whole { IfOk result (λ blocks. All (λ block.
            length block.bytes.items ≡ block_size_of self.now) blocks.items) }
        ensures value { IfOk result (λ blocks. (volume : PlainVolume)
            → volume.name ≡ changes.now.name.now → is_snapshot volume.kind ≡ false
            → length volume.bytes ≡ size_of self.now
            → HaveInTurn
            (IsCovered self.now changes.now.name.now changes.now.items.now.writes)
            (λ id bytes. bytes.items ≡ part volume.bytes (block_size_of self.now) id)
            ids.now old.items
            → All (λ block. block.bytes.items ≡ part
            (after_writes volume changes.now.items.now.writes).bytes
            (block_size_of self.now) block.id) blocks.items) }
    {
        let mut blocks = Vec::new(alloc);
        let mut left = VecDeque::from_vec(old);
        for id in ids {
            let under = self.next_old(changes, *id, &mut left);
            let block = self.laid_over(alloc, changes, *id, under)?;
            push(&mut blocks, block)?;
        }
        Ok(blocks)
    }

    /// Takes the next of the old bytes, unless a write covers the block.
    fn next_old(
        &self,
        changes: &GroupWrites,
        id: u64,
        left: &mut VecDeque<Vec<u8>>,
    ) -> Option<Vec<u8>>
        requires id { id < size_of self.now / block_size_of self.now }
        ensures covered { IsCovered self.now changes.now.name.now changes.now.items.now.writes id
            → (result ≡ None) × (left.new.items ≡ left.old.items) }
        ensures next { ¬ IsCovered self.now changes.now.name.now changes.now.items.now.writes id
            → (bytes : Vec ℕ Global) (rest : List (Vec ℕ Global))
            → left.old.items ≡ bytes ∷ rest
            → (result ≡ Some bytes) × (left.new.items ≡ rest) }
    {
        if self.is_covered(changes, id) {
            return None;
        }
        left.pop_front()
    }

    /// A block after the writes. Where it has no old bytes, a write covers it.
    fn laid_over(
        &self,
        alloc: Global,
        changes: &GroupWrites,
        id: u64,
        old: Option<Vec<u8>>,
    ) -> Result<BlockWrite, AllocError>
        requires id { id < size_of self.now / block_size_of self.now }
        requires old { old ≡ None
            → IsCovered self.now changes.now.name.now changes.now.items.now.writes id }
        requires len { IfSome old (λ bytes. length bytes.items ≡ block_size_of self.now) }
        ensures id { IfOk result (λ block. block.id ≡ id) }
        ensures len { IfOk result (λ block. length block.bytes.items ≡ block_size_of self.now) }
        ensures value { IfOk result (λ block. (volume : PlainVolume)
            → volume.name ≡ changes.now.name.now → is_snapshot volume.kind ≡ false
            → length volume.bytes ≡ size_of self.now
            → IfSome old (λ bytes.
            bytes.items ≡ part volume.bytes (block_size_of self.now) id)
            → block.bytes.items ≡ part (after_writes volume changes.now.items.now.writes).bytes
            (block_size_of self.now) block.id) }
    {
        let Some(bytes) = old else {
            let zeros = vec![in alloc; 0; self.block_size() as usize]?;
            return Ok(self.laid(changes, id, zeros));
        };
        Ok(self.laid(changes, id, bytes))
    }

    /// A block of these bytes with the writes laid over it.
    fn laid(&self, changes: &GroupWrites, id: u64, under: Vec<u8>) -> BlockWrite
        requires id { id < size_of self.now / block_size_of self.now }
        requires len { length under.items ≡ block_size_of self.now }
        ensures id { result.id ≡ id }
        ensures len { length result.bytes.items ≡ block_size_of self.now }
        ensures value { (volume : PlainVolume) → volume.name ≡ changes.now.name.now
            → is_snapshot volume.kind ≡ false → length volume.bytes ≡ size_of self.now
            → under.items ≡ part volume.bytes (block_size_of self.now) id
            → result.bytes.items ≡ part (after_writes volume changes.now.items.now.writes).bytes
            (block_size_of self.now) id }
    {
        let mut bytes = under;
        let offset = id * self.block_size();
        lay_pending(
            changes.items,
            changes.name,
            self.size(),
            offset,
            bytes.as_mut_slice(),
        );
        BlockWrite { id, bytes }
    }

    /// The ids of the blocks that writes to the volume reach, in order.
    fn changed_ids(
        &self,
        alloc: Global,
        name: &Name,
        items: &Pending,
    ) -> Result<Vec<u64>, AllocError>
        ensures ids { IfOk result (λ ids. (id : ℕ) → Contains ids.items id
            ↔ IsChanged self.now name.now items.now.writes id) }
        ensures once { IfOk result (λ ids. IsStrictlyIncreasing ids.items) }
    {
        let writes = items.writes();
        let places = items.places_of(name);
        let mut ids = Vec::new(alloc);
        for position in places {
            self.add_reached(&writes[*position], &mut ids)?;
        }
        ids.as_mut_slice().sort_unstable();
        ids.dedup();
        Ok(ids)
    }

    /// Adds the ids of the blocks that the write reaches.
    fn add_reached(&self, write: &Write, ids: &mut Vec<u64>) -> Result<(), AllocError>
        ensures { OnOk result ((id : ℕ) → Contains ids.new.items id ↔ (Contains ids.old.items id
            ⊎ Reaches (size_of self.now) (block_size_of self.now) write.now id)) }
    {
        let len = write.bytes.len() as u64;
        if len == 0 || len > self.size() || write.offset > self.size() - len {
            return Ok(());
        }
        let block_size = self.block_size();
        let end = (write.offset + len - 1) / block_size + 1;
        for id in write.offset / block_size..end {
            ids.push(id)?;
        }
        Ok(())
    }
}

/// Adds a block to a list.
fn push(blocks: &mut Vec<BlockWrite>, block: BlockWrite) -> Result<(), AllocError>
    ensures { OnOk result (blocks.new.items ≡ blocks.old.items ++ block ∷ []) }
{
    blocks.push(block)?;
    Ok(())
}
