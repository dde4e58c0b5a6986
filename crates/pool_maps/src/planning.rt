//! The changes of a group's space maps.
ghost use Rattle.std.specs.Prelude.{◌≡◌, ◌≢◌, ◌⊎◌, ◌<◌, ◌≤◌, [], ℕ, List, Option, Some, None, length, slice_get, OnOk, IfOk, IfErr};
ghost use Rattle.block_pointer.specs.declared.block.Block.{Block};
ghost use Rattle.block_store.specs.Blocks.{Contents};
ghost use Rattle.block_store.specs.Causes.{IsCaused};
ghost use Rattle.block_store.specs.Losses.{IsForLoss};
ghost use Rattle.block_store.specs.Places.{filled, planned};
ghost use Rattle.block_store.specs.Releases.{AreReleased, copies_of_all};
ghost use Rattle.block_store.specs.Spaces.{VdevSpace};
ghost use Rattle.block_store.specs.Steps.{OnlyReadsBlocks, AnswersTell};
ghost use Rattle.block_store.specs.Store.{Holds};
ghost use Rattle.dnode.specs.ObjectSet.{FitsObjectSet};
ghost use Rattle.meta_objset.specs.Found.{AreMapsFound};
ghost use Rattle.meta_objset.specs.declared.space_maps.MetaslabMap.{MetaslabMap};
ghost use Rattle.meta_objset.specs.declared.space_maps.MetaslabPlace.{MetaslabPlace};
ghost use Rattle.objset.specs.Changes.{changed};
ghost use Rattle.objset.specs.Objects.{Object, AreObjects};
ghost use Rattle.pool_maps.specs.Maps.{AreMapsOf};
ghost use Rattle.pool_maps.specs.Numbers.{LacksNumbers};
ghost use Rattle.pool_maps.specs.Plans.{AreOfOthers, AreOrdered, AreSparing, LeaveMaps, MapAnew, MayBeMade};
ghost use Rattle.pool_maps.specs.Plans.{OthersStay};
ghost use Rattle.pool_maps.specs.Reached.{AreThere, UseNothing};
ghost use Rattle.pool_maps.specs.Refused.{AreFirstRefused, IsPlanRefused};

use crate::steps::MapPlan;
use block_pointer::Block;
use block_store::{BlockStore, Refusal};
use dnode::ObjectSet;
use meta_objset::{EMPTY, SpaceMaps, read_space_maps};
use model_disk::Disk;
use objset::ObjectChange;
use std::alloc::Global;

/// Plans the changes of the space maps of a group, which come among the other changes of its meta object set, in the order of the
/// objects' numbers: for each metaslab before the meta regions they leave free what is unused once the plan is committed and the
/// blocks `gone` are given back. A metaslab of which that is what it was has no change, and one that has no map gets one, of the
/// number `next` or a later one. The set is the last committed group's, and its blocks were born in the transaction group `birth` or
/// before.
///
/// `BadPointer` also where not all of the blocks can be given back, or a map's object is one that another change is of; `NoSpace`
/// where no number is left for an object.
pub fn plan_maps<D: Disk + Drop>(
    set: &ObjectSet,
    store: &mut BlockStore<D>,
    alloc: Global,
    birth: u64,
    gone: &[Block],
    changes: Vec<ObjectChange>,
    next: u64,
) -> Result<Vec<ObjectChange>, Refusal>
    requires set { FitsObjectSet set.now }
    requires ordered { AreOrdered changes.items }
    ensures reads { OnlyReadsBlocks store.old store.new [] }
    ensures ordered { IfOk result (λ all. AreOrdered all.items) }

    // Whatever the set is: which other objects stay, that no map is changed of which nothing is to change, and on a refusal its cause.
    ensures others { IfOk result (λ all. (maps : List MetaslabMap)
        × AreMapsFound store.old.spaces set.now birth maps
        × OthersStay maps next changes.items all.items
        × AreSparing store.old.spaces gone.now maps next changes.items all.items) }
    ensures refused { IfErr result (λ refusal. (refusal ≡ Refusal.NoMemory)
        ⊎ IsPlanRefused store.old store.new set.now birth gone.now changes.items next refusal) }
    ensures caused { IfErr result (λ refusal. IsCaused store.old store.new [] refusal
        ⊎ ((refusal ≡ Refusal.NoSpace) × LacksNumbers store.old.spaces next)) }

    // Of a set whose maps are those of the stored blocks the changes make one whose maps are those of the plan, and change no other
    // objects but as the changes so far do; what they make or change are maps, and their table.
    ensures value { IfOk result (λ all. (stored : Contents) (objects : ℕ → Option Object)
        (own : List Block) (blocks : ℕ → List Block) → Holds store.old stored
        → AreObjects stored birth set.now objects own blocks → AnswersTell store.old store.new []
        → (are : AreMapsOf objects store.old.spaces filled)
        → AreOfOthers objects changes.items are.maps next
        → MayBeMade objects all.items × MapAnew objects store.old.spaces gone.now all.items
        × OthersStay are.maps next changes.items all.items
        × LeaveMaps objects changes.items all.items) }
    ensures known { IfErr result (λ refusal. (stored : Contents) (objects : ℕ → Option Object)
        (own : List Block) (blocks : ℕ → List Block) → Holds store.old stored
        → AreObjects stored birth set.now objects own blocks → AnswersTell store.old store.new []
        → (are : AreMapsOf objects store.old.spaces filled)
        → AreOfOthers objects changes.items are.maps next
        → (after : List VdevSpace) (group : ℕ)
        → AreReleased store.old.spaces (copies_of_all gone.now) group after
        → IsForLoss refusal ⊎ (refusal ≡ Refusal.NoSpace)) }
{
    let maps = read_space_maps(set, store, alloc, birth, &[])?;
    let mut plan = MapPlan {
        maps,
        grown: false,
        changes,
        next,
    };
    plan.plan_all(set, store, alloc, birth, gone)?;
    plan.with_table(alloc)
}

/// Plans the space maps of a pool that had none, which come among the changes that make its meta object set, in the order of the
/// objects' numbers: for each metaslab before the meta regions they leave free what is unused with the plan. Their table is made
/// too, as object 4. Nothing is read.
///
/// `BadPointer` where another change is of object 4, or of a number that a map gets; `NoSpace` where no number is left for an object.
pub fn first_maps<D: Disk + Drop>(
    store: &mut BlockStore<D>,
    alloc: Global,
    changes: Vec<ObjectChange>,
    next: u64,
) -> Result<Vec<ObjectChange>, Refusal>
    requires ordered { AreOrdered changes.items }
    ensures reads { OnlyReadsBlocks store.old store.new [] }
    ensures ordered { IfOk result (λ all. AreOrdered all.items) }

    // Whatever the changes are: which other objects stay, that no map is made but of metaslabs of which other
    // sectors are unused with the plan than without it, and on a refusal its cause.
    ensures others { IfOk result (λ all. OthersStay [] next changes.items all.items
        × AreSparing store.old.spaces [] [] next changes.items all.items) }
    ensures refused { IfErr result (λ refusal. (refusal ≡ Refusal.NoMemory)
        ⊎ AreFirstRefused store.old store.new changes.items next refusal) }
    ensures caused { IfErr result (λ refusal. IsCaused store.old store.new [] refusal
        ⊎ ((refusal ≡ Refusal.NoSpace) × LacksNumbers store.old.spaces next)) }

    // Where there are no objects and nothing is in use, over disks whose answers tell, the changes make maps that are those of the plan.
    ensures value { IfOk result (λ all. AreOfOthers (λ number. None) changes.items [] next
        → UseNothing store.old.spaces filled → AnswersTell store.old store.new []
        → MayBeMade (λ number. None) all.items
        × AreMapsOf (changed all.items (λ number. None)) store.old.spaces planned
        × AreThere store.old.spaces planned
        × LeaveMaps (λ number. None) changes.items all.items) }
    ensures known { IfErr result (λ refusal. AreOfOthers (λ number. None) changes.items [] next
        → UseNothing store.old.spaces filled → AnswersTell store.old store.new []
        → (refusal ≡ Refusal.NoMemory) ⊎ (refusal ≡ Refusal.NoSpace)) }
{
    let mut plan = MapPlan {
        maps: SpaceMaps::new(alloc),
        grown: false,
        changes,
        next,
    };
    plan.plan_all(&EMPTY, store, alloc, 0, &[])?;
    plan.with_first_table(alloc)
}
