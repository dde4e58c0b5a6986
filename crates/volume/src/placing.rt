//! A volume with other blocks of data.
ghost use Rattle.std.specs.Prelude.{◌≡◌, ◌≢◌, ◌⊎◌, ◌≤◌, ◌<◌, ◌++◌, ◌∷◌, [], ℕ, List, Vec, Option, OnOk, IfOk, IfErr, IsOkAnd, false};
ghost use Rattle.std.specs.declared.alloc.Global.{Global};
ghost use Rattle.block_pointer.specs.declared.block.Block.{Block};
ghost use Rattle.block_pointer.specs.Block.{FitsBlock};
ghost use Rattle.block_store.specs.Blocks.{Contents, Extends};
ghost use Rattle.block_store.specs.Causes.{IsCaused};
ghost use Rattle.block_store.specs.Plans.{Plans};
ghost use Rattle.block_store.specs.Steps.{OnlyReadsAndPlans, AnswersTell};
ghost use Rattle.dnode.specs.declared.object_set.ObjectSet.{ObjectSet};
ghost use Rattle.dnode.specs.ObjectSet.{FitsObjectSet};
ghost use Rattle.dnode_tree.specs.declared.writes.BlockWrite.{BlockWrite};
ghost use Rattle.dnode_tree.specs.Writes.{IsForRoom};
ghost use Rattle.objset.specs.Changes.{IsGoodChange, MayChange};
ghost use Rattle.objset.specs.Objects.{Object, AreObjects};
ghost use Rattle.volume.specs.Demands.{ArePutBy, HasPlaces, HasPlacesFor, IsPlacingRefused, IsPlanRefused, IsWritingRefused};
ghost use Rattle.volume.specs.Placing.{IsPlaced, IsSetPlanned, LacksRoom};
ghost use Rattle.volume.specs.Volume.{size_of, block_size_of, block_of, HasData, HasShape, Spells};
ghost use Rattle.volume.specs.Writing.{AreBlocksOf, IsArrayWith, IsChanged};
ghost use Rattle.pool_model.specs.declared.volume.PlainVolume.{PlainVolume};
ghost use Rattle.dnode.specs.declared.object_set.ObjectSetKind.TheVariants as kinds;
ghost use Rattle.pool_model.specs.Pools.{is_snapshot};
ghost use Rattle.volume_rules.specs.Overlay.{after_writes};

use crate::volume::{DATA, VolumeSet};
use crate::writing::GroupWrites;
use block_pointer::Block;
use block_store::{BlockStore, Refusal};
use dnode::ObjectSet;
use dnode_tree::BlockWrite;
use model_disk::Disk;
use objset::{Change, ObjectChange, plan_set};
use std::alloc::{AllocError, Global};

/// A volume after some of its blocks were written anew.
#[derive(Drop)]
pub struct Rewritten {
    pub volume: VolumeSet,
    /// The blocks of the volume before that gave way to others.
    pub replaced: Vec<Block>,
}

/// An object set that is planned.
#[derive(Drop)]
pub(crate) struct PlannedSet {
    pub block: Block,
    /// The blocks of the objects before that gave way to others.
    pub replaced: Vec<Block>,
}

impl VolumeSet {
    /// Plans the volume with these blocks in the transaction group `birth`: each of them once, what is above them, and the
    /// block of the object set. With no blocks nothing is planned, and the volume stays the same. The volume before stays as
    /// it was: its blocks were born in the group `birth` or before. `BadPointer` where its set spells no volume there, as in
    /// `read`, or where the way to one of the blocks can't be read.
    ///
    /// After an error blocks may be planned that no volume has: begin another plan.
    pub fn placed<D: Disk + Drop>(
        &self,
        store: &mut BlockStore<D>,
        alloc: Global,
        blocks: Vec<BlockWrite>,
        birth: u64,
    ) -> Result<Rewritten, Refusal>
        requires blocks { AreBlocksOf self.now blocks.items }
        requires born { 0 < birth }
        ensures steps { OnlyReadsAndPlans store.old store.new [] }
        ensures idle { blocks.items ≡ [] → (store.new ≡ store.old) × IsOkAnd result (λ done.
            (done.volume ≡ self.now) × (done.replaced.items ≡ [])) }
        ensures fits { IfOk result (λ done. blocks.items ≢ []
            → FitsBlock (block_of done.volume)) }
        ensures shape { IfOk result (λ done.
            HasShape done.volume (size_of self.now) (block_size_of self.now)) }
        ensures value { IfOk result (λ done. (stored planned : Contents) (bound : ℕ)
            (array : List ℕ)
            → Plans store.old stored planned → (is : Spells stored bound self.now array)
            → bound ≤ birth → AnswersTell store.old store.new []
            → (later : Contents) × Plans store.new stored later × Extends planned later
            × ((after : List ℕ) → IsArrayWith array (block_size_of self.now) blocks.items after
            → Spells later birth done.volume after)
            × (blocks.items ≢ [] → IsPlaced stored planned later bound birth self.now array is
            blocks done)) }
        ensures no_room { IfErr result (λ refusal. refusal ≡ Refusal.NoSpace
            → LacksRoom store.old store.new) }

        // Whatever the volume is: what places are taken for, and on a refusal its cause.
        ensures places { OnOk result (blocks.items ≢ []
            → HasPlaces store.old store.new self.now birth blocks) }
        ensures caused { IfErr result (IsCaused store.old store.new []) }
        ensures refused { IfErr result
            (IsPlacingRefused store.old store.new self.now birth blocks) }

        // Only room is wanting, over disks whose answers tell, unless too many disks miss of a
        // block.
        ensures known { IfErr result (λ refusal. (stored planned : Contents) (bound : ℕ)
            (array : List ℕ) → Plans store.old stored planned
            → Spells stored bound self.now array → bound ≤ birth
            → AnswersTell store.old store.new []
            → IsForRoom refusal ⊎ (refusal ≡ Refusal.DiskFault)) }
    {
        if blocks.is_empty() {
            return Ok(Rewritten {
                volume: *self,
                replaced: Vec::new(alloc),
            });
        }
        self.put(store, alloc, blocks, birth)
    }

    /// Plans the volume after the writes of the group `birth`, once all blocks that they change were read: as `placed` of
    /// `changed_blocks`. The volume before was born in the group `birth_before` or before.
    pub fn written<D: Disk + Drop>(
        &self,
        store: &mut BlockStore<D>,
        alloc: Global,
        changes: &GroupWrites,
        birth_before: u64,
        birth: u64,
    ) -> Result<Rewritten, Refusal>
        requires born { 0 < birth }
        ensures steps { OnlyReadsAndPlans store.old store.new [] }
        ensures idle { ((id : ℕ)
            → ¬ IsChanged self.now changes.now.name.now changes.now.items.now.writes id)
            → store.new ≡ store.old }
        ensures shape { IfOk result (λ done.
            HasShape done.volume (size_of self.now) (block_size_of self.now)) }
        ensures value { IfOk result (λ done. (stored planned : Contents) (volume : PlainVolume)
            → Plans store.old stored planned → volume.name ≡ changes.now.name.now
            → is_snapshot volume.kind ≡ false
            → Spells stored birth_before self.now volume.bytes → birth_before ≤ birth
            → AnswersTell store.old store.new []
            → (later : Contents) × Plans store.new stored later × Extends planned later
            × Spells later birth done.volume
            (after_writes volume changes.now.items.now.writes).bytes) }
        ensures no_room { IfErr result (λ refusal. refusal ≡ Refusal.NoSpace
            → LacksRoom store.old store.new) }
        ensures places { OnOk result ((blocks : Vec BlockWrite Global)
            × ArePutBy self.now changes.now blocks.items × (blocks.items ≢ []
            → HasPlaces store.old store.new self.now birth blocks)) }
        ensures caused { IfErr result (IsCaused store.old store.new []) }
        ensures refused { IfErr result
            (IsWritingRefused store.old store.new self.now birth_before birth changes.now) }
        ensures known { IfErr result (λ refusal. (stored planned : Contents) (array : List ℕ)
            → Plans store.old stored planned → Spells stored birth_before self.now array
            → birth_before ≤ birth → AnswersTell store.old store.new []
            → IsForRoom refusal ⊎ (refusal ≡ Refusal.DiskFault)) }
    {
        let blocks = self.changed_blocks(store, alloc, birth_before, changes)?;
        self.placed(store, alloc, blocks, birth)
    }

    /// Plans the volume with these blocks, also where there are none.
    fn put<D: Disk + Drop>(
        &self,
        store: &mut BlockStore<D>,
        alloc: Global,
        blocks: Vec<BlockWrite>,
        birth: u64,
    ) -> Result<Rewritten, Refusal>
        requires blocks { AreBlocksOf self.now blocks.items }
        requires born { 0 < birth }
        ensures steps { OnlyReadsAndPlans store.old store.new [] }
        ensures fits { IfOk result (λ done. FitsBlock (block_of done.volume)) }
        ensures shape { IfOk result (λ done.
            HasShape done.volume (size_of self.now) (block_size_of self.now)) }
        ensures value { IfOk result (λ done. (stored planned : Contents) (bound : ℕ)
            (array : List ℕ)
            → Plans store.old stored planned → (is : Spells stored bound self.now array)
            → bound ≤ birth → AnswersTell store.old store.new []
            → (later : Contents) × Plans store.new stored later × Extends planned later
            × ((after : List ℕ) → IsArrayWith array (block_size_of self.now) blocks.items after
            → Spells later birth done.volume after)
            × IsPlaced stored planned later bound birth self.now array is blocks done) }
        ensures no_room { IfErr result (λ refusal. refusal ≡ Refusal.NoSpace
            → LacksRoom store.old store.new) }

        ensures places { OnOk result (HasPlaces store.old store.new self.now birth blocks) }
        ensures caused { IfErr result (IsCaused store.old store.new []) }
        ensures refused { IfErr result
            (IsPlacingRefused store.old store.new self.now birth blocks) }
        ensures known { IfErr result (λ refusal. (stored planned : Contents) (bound : ℕ)
            (array : List ℕ) → Plans store.old stored planned
            → Spells stored bound self.now array → bound ≤ birth
            → AnswersTell store.old store.new []
            → IsForRoom refusal ⊎ (refusal ≡ Refusal.DiskFault)) }
    {
        let set = self.open(store, alloc, birth, &[])?;
        let change = Change::Put { writes: blocks };
        let planned = plan_change(&set, store, alloc, change, self.block.birth, birth)?;
        Ok(self.rewritten(planned)?)
    }

    /// The volume with an object set that is planned.
    fn rewritten(&self, planned: PlannedSet) -> Result<Rewritten, AllocError>
        ensures shape { IfOk result (λ done.
            HasShape done.volume (size_of self.now) (block_size_of self.now)) }
        ensures block { IfOk result (λ done. block_of done.volume ≡ planned.block) }
        ensures replaced { IfOk result (λ done.
            done.replaced.items ≡ planned.replaced.items ++ block_of self.now ∷ []) }
    {
        let mut replaced = planned.replaced;
        replaced.extend_from_slice(&[self.block])?;
        Ok(Rewritten {
            volume: self.with_block(planned.block),
            replaced,
        })
    }
}

/// Plans a volume's set with one change of its object 1, and the set's block. The set's block was born in the transaction group
/// `before`.
pub(crate) fn plan_change<D: Disk + Drop>(
    set: &ObjectSet,
    store: &mut BlockStore<D>,
    alloc: Global,
    change: Change,
    before: u64,
    birth: u64,
) -> Result<PlannedSet, Refusal>
    requires set { FitsObjectSet set.now }
    requires kind { set.now.kind ≡ kinds.Volume }
    requires good { IsGoodChange change }
    requires born { 0 < birth }
    ensures steps { OnlyReadsAndPlans store.old store.new [] }
    ensures born { IfOk result (λ done. done.block.birth ≡ birth) }
    ensures fits { IfOk result (λ done. FitsBlock done.block) }
    ensures value { IfOk result (λ done. (stored planned : Contents) (bound : ℕ)
        (objects : ℕ → Option Object) (own : List Block) (blocks : ℕ → List Block)
        → Plans store.old stored planned → AreObjects stored bound set.now objects own blocks
        → bound ≤ birth → AnswersTell store.old store.new []
        → (later : Contents) × Plans store.new stored later
        × IsSetPlanned planned later birth set.now change objects own blocks done.block
        done.replaced.items) }
    ensures no_room { IfErr result (λ refusal. refusal ≡ Refusal.NoSpace
        → LacksRoom store.old store.new) }
    ensures places { OnOk result (HasPlacesFor store.old store.new set.now birth change) }
    ensures caused { IfErr result (IsCaused store.old store.new []) }
    ensures refused { IfErr result (IsPlanRefused store.old store.new set.now before birth change) }
    ensures known { IfErr result (λ refusal. (stored planned : Contents) (bound : ℕ)
        (objects : ℕ → Option Object) (own : List Block) (blocks : ℕ → List Block)
        → Plans store.old stored planned → AreObjects stored bound set.now objects own blocks
        → bound ≤ before → bound ≤ birth → MayChange change (objects 1)
        → AnswersTell store.old store.new []
        → IsForRoom refusal ⊎ (refusal ≡ Refusal.DiskFault)) }
{
    let changes = [ObjectChange {
        number: DATA,
        change,
    }];
    let rewrite = objset::change(set, store, alloc, &changes, before, birth, &[])?;
    let block = plan_set(&rewrite.set, store, alloc, birth)?;
    Ok(PlannedSet {
        block,
        replaced: rewrite.replaced,
    })
}
