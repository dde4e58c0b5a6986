//! Datasets that are destroyed, whatever they are.
ghost use Rattle.std.specs.Prelude.{◌≡◌, ◌≤◌, ◌++◌, [], ℕ, List, Option, OnOk, IfErr};
ghost use Rattle.block_pointer.specs.declared.block.Block.{Block};
ghost use Rattle.block_store.specs.Blocks.{Contents};
ghost use Rattle.block_store.specs.Causes.{IsCaused};
ghost use Rattle.block_store.specs.Losses.{IsForLoss};
ghost use Rattle.block_store.specs.Steps.{OnlyReadsBlocks, AnswersTell};
ghost use Rattle.block_store.specs.Store.{Holds};
ghost use Rattle.dataset_chains.specs.Chains.{Reading, SpellsChains};
ghost use Rattle.dataset_chains.specs.States.{AreOfOneSet, birth_of, set_of};
ghost use Rattle.dead_list.specs.Datasets.{Pool};
ghost use Rattle.objset.specs.Objects.{Object, AreObjects};
ghost use Rattle.dataset_destroys.specs.Destroying.{AreEnoughLeft, IsDatasetKept, IsDestroyed, MayDestroy};
ghost use Rattle.dataset_destroys.specs.Touched.{IsDestroyTouched, TouchesOwnLists};

use crate::heads::destroy_head;
use crate::snapshots::destroy_snapshot;
use block_pointer::Block;
use block_store::{BlockStore, Refusal};
use dataset_chains::DatasetChanges;
use meta_objset::DatasetKind;
use model_disk::Disk;
use std::alloc::Global;

/// Destroys a dataset: a snapshot as `destroy_snapshot` does, a volume or a clone as `destroy_head`. Its record, which is read first, says which
/// it is. The blocks that are freed come behind those in `freed`. Nothing is counted off what is left to be read where it is a snapshot, and `group`
/// is looked at for a head alone. `BadPointer` where there is no record at the number, and where the one or the other call answers it.
///
/// After an error the changes, and `freed`, are perhaps changed in part: both are to be dropped.
pub fn destroy<D: Disk + Drop>(
    changes: &mut DatasetChanges,
    store: &mut BlockStore<D>,
    alloc: Global,
    number: u64,
    group: u64,
    left: &mut u64,
    freed: &mut Vec<Block>,
) -> Result<(), Refusal>
    ensures reads { OnlyReadsBlocks store.old store.new [] }
    ensures one_set { AreOfOneSet changes.old changes.new }
    ensures fewer { left.new ≤ left.old }
    ensures value { OnOk result ((stored : Contents)
        (objects : ℕ → Option Object) (own : List Block) (blocks : ℕ → List Block) (pool : Pool)
        (readings : ℕ → Reading) → Holds store.old stored
        → AreObjects stored (birth_of changes.old) (set_of changes.old) objects own blocks
        → AnswersTell store.old store.new []
        → SpellsChains stored group objects changes.old pool readings
        → MayDestroy pool number
        → (gone : List Block) × (freed.new.items ≡ freed.old.items ++ gone)
        × (new : Pool) × IsDestroyed pool number gone new
        × SpellsChains stored group objects changes.new new readings) }
    ensures behind { OnOk result ((gone : List Block)
        × (freed.new.items ≡ freed.old.items ++ gone)) }
    ensures touched { OnOk result (IsDestroyTouched changes.old changes.new number) }
    ensures own_lists { OnOk result ((stored : Contents) (objects : ℕ → Option Object)
        (own : List Block) (blocks : ℕ → List Block) (pool : Pool) (readings : ℕ → Reading)
        → Holds store.old stored
        → AreObjects stored (birth_of changes.old) (set_of changes.old) objects own blocks
        → AnswersTell store.old store.new []
        → SpellsChains stored group objects changes.old pool readings
        → MayDestroy pool number → TouchesOwnLists objects changes.old changes.new) }
    ensures caused { IfErr result (IsCaused store.old store.new []) }
    ensures refused { IfErr result (IsDatasetKept store.old store.new changes.old changes.new
        number group left.old left.new) }
    ensures known { IfErr result (λ refusal. (stored : Contents)
        (objects : ℕ → Option Object) (own : List Block) (blocks : ℕ → List Block) (pool : Pool)
        (readings : ℕ → Reading) → Holds store.old stored
        → AreObjects stored (birth_of changes.old) (set_of changes.old) objects own blocks
        → AnswersTell store.old store.new []
        → SpellsChains stored group objects changes.old pool readings
        → MayDestroy pool number → AreEnoughLeft pool number left.old → IsForLoss refusal) }
{
    let dataset = changes.record(store, alloc, number)?;
    match dataset.kind {
        DatasetKind::Snapshot => destroy_snapshot(changes, store, alloc, number, freed),
        DatasetKind::Volume => destroy_head(changes, store, alloc, number, group, left, freed),
    }
}
