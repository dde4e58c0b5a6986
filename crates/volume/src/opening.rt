//! The object set of a volume is read and judged.
ghost use Rattle.std.specs.Prelude.{◌≡◌, ◌≢◌, ◌≤◌, ◌↔◌, ℕ, List, IsTrue, IfOk, IfErr, IsSomeAnd};
ghost use Rattle.block_store.specs.Blocks.{Contents};
ghost use Rattle.block_store.specs.Causes.{IsCaused};
ghost use Rattle.block_store.specs.Losses.{IsForLoss};
ghost use Rattle.block_store.specs.Steps.{OnlyReadsBlocks, AnswersTell};
ghost use Rattle.block_store.specs.Store.{Holds};
ghost use Rattle.dnode.specs.ObjectSet.{FitsObjectSet};
ghost use Rattle.dnode.specs.declared.object_set.ObjectSetKind.TheVariants as kinds;
ghost use Rattle.volume.specs.Reading.{IsDataShape, IsVolumeFound, IsVolumeRefused};
ghost use Rattle.volume.specs.Volume.{Spells};

use crate::volume::{DATA, VOLUME_TYPE, VolumeSet};
use block_store::{BlockStore, Refusal};
use dnode::{ObjectSet, ObjectSetKind};
use model_disk::Disk;
use objset::{ObjectShape, read_set};
use std::alloc::Global;

impl VolumeSet {
    /// The volume's object set, once its block and the way to the dnode of object 1 were read. The set's block was born in
    /// the transaction group `birth` or before. `BadPointer` where it is no set of a volume of this size and block size.
    pub(crate) fn open<D: Disk + Drop>(
        &self,
        store: &mut BlockStore<D>,
        alloc: Global,
        birth: u64,
        missing: &[usize],
    ) -> Result<ObjectSet, Refusal>
        ensures reads { OnlyReadsBlocks store.old store.new missing.now }
        ensures fits { IfOk result FitsObjectSet }
        ensures value { IfOk result (λ set. (stored : Contents) (bound : ℕ) (array : List ℕ)
            → Holds store.old stored → (is : Spells stored bound self.now array) → bound ≤ birth
            → AnswersTell store.old store.new missing.now → set ≡ is.set) }

        // Whatever the volume is: what was found, and on a refusal its cause.
        ensures found { IfOk result (IsVolumeFound store.old.spaces self.now birth) }
        ensures caused { IfErr result (IsCaused store.old store.new missing.now) }
        ensures refused { IfErr result
            (IsVolumeRefused store.old store.new missing.now self.now birth) }
        ensures cause { IfErr result (λ refusal. refusal ≢ Refusal.NoSpace) }

        // And it is read, over disks whose answers tell, unless too many disks miss of a block.
        ensures known { IfErr result (λ refusal. (stored : Contents) (bound : ℕ) (array : List ℕ)
            → Holds store.old stored → Spells stored bound self.now array → bound ≤ birth
            → AnswersTell store.old store.new missing.now → IsForLoss refusal) }
    {
        let set = read_set(store, alloc, &self.block, birth, missing)?;
        if !is_of_volume(&set) {
            return Err(Refusal::BadPointer);
        }
        let found = objset::find(&set, store, alloc, DATA, self.block.birth, missing)?;
        if !self.has_shape(found) {
            return Err(Refusal::BadPointer);
        }
        Ok(set)
    }

    /// Whether an object is there and has the shape of the volume's data.
    fn has_shape(&self, found: Option<ObjectShape>) -> bool
        ensures { IsTrue result ↔ IsSomeAnd found (IsDataShape self.now) }
    {
        let Some(shape) = found else {
            return false;
        };
        shape.object_type == VOLUME_TYPE
            && shape.data_sectors as u64 == self.block_size() / 512
            && shape.highest < self.size() / self.block_size()
    }
}

/// Whether the set is one of a volume.
pub(crate) fn is_of_volume(set: &ObjectSet) -> bool
    ensures { IsTrue result ↔ (set.now.kind ≡ kinds.Volume) }
{
    match set.kind {
        ObjectSetKind::Meta => false,
        ObjectSetKind::Volume => true,
    }
}
