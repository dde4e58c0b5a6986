//! All blocks of a volume that need not be one.
ghost use Rattle.std.specs.Prelude.{◌≡◌, ◌≢◌, ◌+◌, ◌<◌, ◌≤◌, ◌∷◌, ℕ, List, length, IfOk, IfErr};
ghost use Rattle.block_store.specs.Blocks.{Contents};
ghost use Rattle.block_store.specs.Causes.{IsCaused};
ghost use Rattle.block_store.specs.Losses.{IsForLoss};
ghost use Rattle.block_store.specs.Steps.{OnlyReadsBlocks, AnswersTell};
ghost use Rattle.block_store.specs.Store.{Holds};
ghost use Rattle.dnode.specs.ObjectSet.{FitsObjectSet};
ghost use Rattle.dnode_tree.specs.Rewriting.{AreDistinct};
ghost use Rattle.dnode_tree.specs.Younger.{younger};
ghost use Rattle.objset.specs.Laws.{HasEachOnce};
ghost use Rattle.volume.specs.Volume.{Spells, block_of};
ghost use Rattle.volume.specs.Walking.{blocks_of_volume, reads_of_volume, IsSetMissed, IsSetThere};
ghost use Rattle.volume.specs.Walking.{IsVolumeWalked, IsVolumeWalkRefused};
ghost use Rattle.volume.specs.Younger.{IsYoungerVolumeRefused, IsYoungerVolumeWalked};

use crate::opening::is_of_volume;
use crate::volume::VolumeSet;
use block_pointer::Block;
use block_store::{BlockStore, Refusal};
use dnode::ObjectSet;
use model_disk::Disk;
use objset::read_set;
use std::alloc::{AllocError, Global};

impl VolumeSet {
    /// All blocks of a volume that may be forged: that of its object set, and then those of the set, as
    /// `objset::walk_within` finds them. At most as many blocks are read as are left to be read, and each that is read is
    /// counted off: the block of the object set, and of the set's blocks those of its dnodes and those above the data.
    /// `BadPointer` also where none is left, where the object set is not of a volume, and where one of the set's blocks is
    /// there twice. Whether one of these is the block of the object set again isn't looked at, nor is the shape of the
    /// data. The object set's block was born in the transaction group `birth` or before. The disks that are named are taken
    /// as missing.
    pub fn walk_within<D: Disk + Drop>(
        &self,
        store: &mut BlockStore<D>,
        alloc: Global,
        birth: u64,
        left: &mut u64,
        missing: &[usize],
    ) -> Result<Vec<Block>, Refusal>
        ensures reads { OnlyReadsBlocks store.old store.new missing.now }
        ensures fewer { left.new ≤ left.old }
        ensures blocks { IfOk result (λ found. (stored : Contents) (bound : ℕ) (array : List ℕ)
            → Holds store.old stored → (is : Spells stored bound self.now array) → bound ≤ birth
            → AnswersTell store.old store.new missing.now → found.items
            ≡ blocks_of_volume (block_of self.now) is.set is.has.own is.has.blocks) }

        // Whatever the volume is: what was found, by so many reads, and on a refusal its cause.
        ensures count { IfOk result (λ found.
            IsVolumeWalked store.old.spaces self.now birth left.old left.new found.items) }
        ensures caused { IfErr result (IsCaused store.old store.new missing.now) }
        ensures refused { IfErr result (IsVolumeWalkRefused store.old store.new missing.now
            self.now birth left.old left.new) }
        ensures cause { IfErr result (λ refusal. refusal ≢ Refusal.NoSpace) }

        // And a volume whose set has each block once is walked, over disks whose answers tell, where
        // as many are left, unless too many disks miss of a block.
        ensures known { IfErr result (λ refusal. (stored : Contents) (bound : ℕ) (array : List ℕ)
            → Holds store.old stored → (is : Spells stored bound self.now array) → bound ≤ birth
            → HasEachOnce is.has.own is.has.blocks
            → reads_of_volume is.set is.has.own is.has.blocks ≤ left.old
            → AnswersTell store.old store.new missing.now → IsForLoss refusal) }
    {
        let set = self.count_set(store, alloc, birth, left, missing)?;
        let below = objset::walk_within(&set, store, alloc, self.block.birth, left, missing)?;
        Ok(with_first(below, self.block)?)
    }

    /// All blocks of a volume that were born after the transaction group `since`, in the order of `walk_within`, of a volume that may
    /// be forged. Where the block of the object set is older nothing is younger, and nothing is read. What else is asked, read and
    /// counted off is as in `walk_within`, of the younger blocks.
    pub fn walk_younger<D: Disk + Drop>(
        &self,
        store: &mut BlockStore<D>,
        alloc: Global,
        birth: u64,
        since: u64,
        left: &mut u64,
        missing: &[usize],
    ) -> Result<Vec<Block>, Refusal>
        ensures reads { OnlyReadsBlocks store.old store.new missing.now }
        ensures fewer { left.new ≤ left.old }
        ensures blocks { IfOk result (λ found. (stored : Contents) (bound : ℕ) (array : List ℕ)
            → Holds store.old stored → (is : Spells stored bound self.now array) → bound ≤ birth
            → AnswersTell store.old store.new missing.now → found.items ≡ younger since
            (blocks_of_volume (block_of self.now) is.set is.has.own is.has.blocks)) }

        // Whatever the volume is: what was found, by so many reads, and on a refusal its cause.
        ensures count { IfOk result (λ found. IsYoungerVolumeWalked since store.old.spaces self.now
            birth left.old left.new found.items) }
        ensures caused { IfErr result (IsCaused store.old store.new missing.now) }
        ensures refused { IfErr result (IsYoungerVolumeRefused since store.old store.new missing.now
            self.now birth left.old left.new) }
        ensures cause { IfErr result (λ refusal. refusal ≢ Refusal.NoSpace) }

        // And a volume that has each block once is walked, over disks whose answers tell, where as
        // many are left as it has younger ones, unless too many disks miss of a block.
        ensures known { IfErr result (λ refusal. (stored : Contents) (bound : ℕ) (array : List ℕ)
            → Holds store.old stored → (is : Spells stored bound self.now array) → bound ≤ birth
            → AreDistinct (blocks_of_volume (block_of self.now) is.set is.has.own is.has.blocks)
            → length (younger since
            (blocks_of_volume (block_of self.now) is.set is.has.own is.has.blocks)) ≤ left.old
            → AnswersTell store.old store.new missing.now → IsForLoss refusal) }
    {
        if self.block.birth <= since {
            return Ok(Vec::new(alloc));
        }
        let set = self.count_set(store, alloc, birth, left, missing)?;
        let birth = self.block.birth;
        let below = objset::walk_younger(&set, store, alloc, birth, since, left, missing)?;
        Ok(with_first(below, self.block)?)
    }

    /// The volume's object set, whose block is counted off.
    fn count_set<D: Disk + Drop>(
        &self,
        store: &mut BlockStore<D>,
        alloc: Global,
        birth: u64,
        left: &mut u64,
        missing: &[usize],
    ) -> Result<ObjectSet, Refusal>
        ensures reads { OnlyReadsBlocks store.old store.new missing.now }
        ensures fits { IfOk result FitsObjectSet }
        ensures fewer { left.new ≤ left.old }
        ensures count { IfOk result (λ set. left.old ≡ left.new + 1) }
        ensures value { IfOk result (λ set. (stored : Contents) (bound : ℕ) (array : List ℕ)
            → Holds store.old stored → (is : Spells stored bound self.now array) → bound ≤ birth
            → AnswersTell store.old store.new missing.now → set ≡ is.set) }
        ensures found { IfOk result (IsSetThere store.old.spaces self.now birth) }
        ensures caused { IfErr result (IsCaused store.old store.new missing.now) }
        ensures refused { IfErr result
            (IsSetMissed store.old store.new missing.now self.now birth left.old) }
        ensures cause { IfErr result (λ refusal. refusal ≢ Refusal.NoSpace) }
        ensures known { IfErr result (λ refusal. (stored : Contents) (bound : ℕ) (array : List ℕ)
            → Holds store.old stored → Spells stored bound self.now array → bound ≤ birth
            → 0 < left.old → AnswersTell store.old store.new missing.now → IsForLoss refusal) }
    {
        if *left == 0 {
            return Err(Refusal::BadPointer);
        }
        *left -= 1;
        let set = read_set(store, alloc, &self.block, birth, missing)?;
        if !is_of_volume(&set) {
            return Err(Refusal::BadPointer);
        }
        Ok(set)
    }
}

/// The blocks with another in front of them.
fn with_first(blocks: Vec<Block>, first: Block) -> Result<Vec<Block>, AllocError>
    ensures { IfOk result (λ all. all.items ≡ first ∷ blocks.items) }
{
    let mut all = blocks;
    all.insert(0, first)?;
    Ok(all)
}
