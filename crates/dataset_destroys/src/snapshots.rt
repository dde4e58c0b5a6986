//! Snapshots that are destroyed.
ghost use Rattle.std.specs.Prelude.{◌≡◌, ◌++◌, [], ℕ, List, Option, OnOk, IfErr};
ghost use Rattle.block_pointer.specs.declared.block.Block.{Block};
ghost use Rattle.block_store.specs.Blocks.{Contents};
ghost use Rattle.block_store.specs.Causes.{IsCaused};
ghost use Rattle.block_store.specs.Losses.{IsForLoss};
ghost use Rattle.block_store.specs.Steps.{OnlyReadsBlocks, AnswersTell};
ghost use Rattle.block_store.specs.Store.{Holds};
ghost use Rattle.dataset_chains.specs.Chains.{Reading, SpellsChains};
ghost use Rattle.dataset_chains.specs.States.{AreOfOneSet, IsNumber, birth_of, set_of};
ghost use Rattle.dead_list.specs.Datasets.{Pool};
ghost use Rattle.dead_list.specs.Operations.{DestroySnapshot, Makes, MayDo};
ghost use Rattle.objset.specs.Objects.{Object, AreObjects};
ghost use Rattle.dataset_destroys.specs.Refused.{IsSnapshotKept};
ghost use Rattle.dataset_destroys.specs.Touched.{IsDestroyTouched, TouchesOwnLists};

use crate::links::link_past;
use crate::lists::give_over;
use crate::places::Place;
use block_pointer::Block;
use block_store::{BlockStore, Refusal};
use dataset_chains::DatasetChanges;
use dead_list::operations_free_what_nothing_reaches;
use model_disk::Disk;
use std::alloc::Global;

/// Destroys a snapshot that has no clones. Of the dead blocks of what comes after it those are freed that were born after the snapshot before it:
/// they come behind those in `freed`. The others and the snapshot's own dead blocks become those of what comes after it. The two dead lists are read
/// whole, and no block of a volume. `BadPointer` where the object is none of a snapshot's record, where it has clones, or where the chain is broken:
/// what comes after it names another as the one before, or one of these has no record or no dead list.
///
/// After an error the changes, and `freed`, are perhaps changed in part: both are to be dropped.
pub fn destroy_snapshot<D: Disk + Drop>(
    changes: &mut DatasetChanges,
    store: &mut BlockStore<D>,
    alloc: Global,
    snapshot: u64,
    freed: &mut Vec<Block>,
) -> Result<(), Refusal>
    requires { IsNumber snapshot }
    ensures reads { OnlyReadsBlocks store.old store.new [] }
    ensures one_set { AreOfOneSet changes.old changes.new }
    ensures value { OnOk result ((stored known : Contents) (group : ℕ)
        (objects : ℕ → Option Object) (own : List Block) (blocks : ℕ → List Block) (pool : Pool)
        (readings : ℕ → Reading) → Holds store.old stored
        → AreObjects stored (birth_of changes.old) (set_of changes.old) objects own blocks
        → AnswersTell store.old store.new []
        → SpellsChains known group objects changes.old pool readings
        → MayDo pool (DestroySnapshot snapshot)
        → (gone : List Block) × (freed.new.items ≡ freed.old.items ++ gone)
        × (new : Pool) × Makes pool (DestroySnapshot snapshot) gone new
        × SpellsChains known group objects changes.new new readings) }
    ensures behind { OnOk result ((gone : List Block)
        × (freed.new.items ≡ freed.old.items ++ gone)) }
    ensures touched { OnOk result (IsDestroyTouched changes.old changes.new snapshot) }
    ensures own_lists { OnOk result ((stored known : Contents) (group : ℕ)
        (objects : ℕ → Option Object) (own : List Block) (blocks : ℕ → List Block) (pool : Pool)
        (readings : ℕ → Reading) → Holds store.old stored
        → AreObjects stored (birth_of changes.old) (set_of changes.old) objects own blocks
        → AnswersTell store.old store.new []
        → SpellsChains known group objects changes.old pool readings
        → MayDo pool (DestroySnapshot snapshot)
        → TouchesOwnLists objects changes.old changes.new) }
    ensures caused { IfErr result (IsCaused store.old store.new []) }
    ensures refused { IfErr result (IsSnapshotKept store.old store.new changes.old changes.new
        snapshot) }
    ensures known { IfErr result (λ refusal. (stored known : Contents) (group : ℕ)
        (objects : ℕ → Option Object) (own : List Block) (blocks : ℕ → List Block) (pool : Pool)
        (readings : ℕ → Reading) → Holds store.old stored
        → AreObjects stored (birth_of changes.old) (set_of changes.old) objects own blocks
        → AnswersTell store.old store.new []
        → SpellsChains known group objects changes.old pool readings
        → MayDo pool (DestroySnapshot snapshot) → IsForLoss refusal) }
{
    let place = Place::find(changes, store, alloc, snapshot)?;
    give_over(changes, store, alloc, &place, freed)?;
    link_past(changes, &place)?;
    changes.free_list(place.gone.dead_list)?;
    operations_free_what_nothing_reaches();
    Ok(())
}
