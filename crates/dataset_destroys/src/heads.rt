//! Volumes and clones that are destroyed.
ghost use Rattle.std.specs.Prelude.{◌≡◌, ◌≤◌, ◌++◌, [], ℕ, List, Option, OnOk, IfErr, length};
ghost use Rattle.block_pointer.specs.declared.block.Block.{Block};
ghost use Rattle.block_store.specs.Blocks.{Contents};
ghost use Rattle.block_store.specs.Causes.{IsCaused};
ghost use Rattle.block_store.specs.Losses.{IsForLoss};
ghost use Rattle.block_store.specs.Steps.{OnlyReadsBlocks, AnswersTell};
ghost use Rattle.block_store.specs.Store.{Holds};
ghost use Rattle.dataset_chains.specs.Chains.{Reading, SpellsChains};
ghost use Rattle.dataset_chains.specs.States.{AreOfOneSet, IsNumber, birth_of, set_of};
ghost use Rattle.dead_list.specs.Datasets.{Pool};
ghost use Rattle.dead_list.specs.Operations.{DestroyHead, Makes, MayDo};
ghost use Rattle.objset.specs.Objects.{Object, AreObjects};
ghost use Rattle.dataset_destroys.specs.Refused.{IsHeadKept};
ghost use Rattle.dataset_destroys.specs.Touched.{IsDestroyTouched, TouchesOwnLists};

use crate::head_places::HeadPlace;
use crate::leaving::leave;
use crate::younger::younger_blocks;
use block_pointer::Block;
use block_store::{BlockStore, Refusal};
use dataset_chains::DatasetChanges;
use dead_list::operations_free_what_nothing_reaches;
use model_disk::Disk;
use std::alloc::Global;

/// Destroys a volume or a clone whose own snapshots are gone. The blocks that were born after the snapshot before it, of a clone its origin, are freed:
/// they come behind those in `freed`. Of the volume's blocks those alone are read that were born after it, at most as many as are left to be read, and
/// each that is read is counted off. Its dead list goes without being read. The trees were born in the transaction group `group` or before.
/// `BadPointer` where the object is none of a head's record, where a snapshot of its own stands before it, where its origin counts no clones, where
/// its record names no dead list, and where its tree is none or none is left to be read.
///
/// After an error the changes, and `freed`, are perhaps changed in part: both are to be dropped.
pub fn destroy_head<D: Disk + Drop>(
    changes: &mut DatasetChanges,
    store: &mut BlockStore<D>,
    alloc: Global,
    head: u64,
    group: u64,
    left: &mut u64,
    freed: &mut Vec<Block>,
) -> Result<(), Refusal>
    requires { IsNumber head }
    ensures reads { OnlyReadsBlocks store.old store.new [] }
    ensures one_set { AreOfOneSet changes.old changes.new }
    ensures fewer { left.new ≤ left.old }
    ensures value { OnOk result ((stored : Contents)
        (objects : ℕ → Option Object) (own : List Block) (blocks : ℕ → List Block) (pool : Pool)
        (readings : ℕ → Reading) → Holds store.old stored
        → AreObjects stored (birth_of changes.old) (set_of changes.old) objects own blocks
        → AnswersTell store.old store.new []
        → SpellsChains stored group objects changes.old pool readings
        → MayDo pool (DestroyHead head)
        → (gone : List Block) × (freed.new.items ≡ freed.old.items ++ gone)
        × (new : Pool) × Makes pool (DestroyHead head) gone new
        × SpellsChains stored group objects changes.new new readings) }
    ensures behind { OnOk result ((gone : List Block)
        × (freed.new.items ≡ freed.old.items ++ gone)) }
    ensures touched { OnOk result (IsDestroyTouched changes.old changes.new head) }
    ensures own_lists { OnOk result ((stored : Contents) (objects : ℕ → Option Object)
        (own : List Block) (blocks : ℕ → List Block) (pool : Pool) (readings : ℕ → Reading)
        → Holds store.old stored
        → AreObjects stored (birth_of changes.old) (set_of changes.old) objects own blocks
        → AnswersTell store.old store.new []
        → SpellsChains stored group objects changes.old pool readings
        → MayDo pool (DestroyHead head) → TouchesOwnLists objects changes.old changes.new) }
    ensures caused { IfErr result (IsCaused store.old store.new []) }
    ensures refused { IfErr result (IsHeadKept store.old store.new changes.old changes.new head
        group left.old left.new) }
    ensures known { IfErr result (λ refusal. (stored : Contents)
        (objects : ℕ → Option Object) (own : List Block) (blocks : ℕ → List Block) (pool : Pool)
        (readings : ℕ → Reading) → Holds store.old stored
        → AreObjects stored (birth_of changes.old) (set_of changes.old) objects own blocks
        → AnswersTell store.old store.new []
        → SpellsChains stored group objects changes.old pool readings
        → MayDo pool (DestroyHead head)
        → length (pool.datasets head).blocks ≤ left.old → IsForLoss refusal) }
{
    let place = HeadPlace::find(changes, store, alloc, head)?;
    let block = place.gone.object_set;
    let mut young = younger_blocks(store, alloc, &block, group, place.since(), left)?;
    changes.free_list(place.gone.dead_list)?;
    leave(changes, &place)?;
    freed.append(&mut young)?;
    operations_free_what_nothing_reaches();
    Ok(())
}
