//! Snapshots and clones that are taken.
ghost use Rattle.std.specs.Prelude.{◌≡◌, ◌⊎◌, [], ℕ, List, Option, OnOk, IfErr};
ghost use Rattle.block_pointer.specs.declared.block.Block.{Block};
ghost use Rattle.block_store.specs.Blocks.{Contents};
ghost use Rattle.block_store.specs.Causes.{IsCaused};
ghost use Rattle.block_store.specs.Losses.{IsForLoss};
ghost use Rattle.block_store.specs.Steps.{OnlyReadsBlocks, AnswersTell};
ghost use Rattle.block_store.specs.Store.{Holds};
ghost use Rattle.dataset_changes.specs.States.{AreOfOneSet, IsNumber, birth_of, set_of};
ghost use Rattle.dead_list.specs.Datasets.{Pool, updated};
ghost use Rattle.dead_list.specs.Operations.{IsHead, IsSnapshot, IsUnused, clone_of, with_dataset, with_snapshot};
ghost use Rattle.meta_objset.specs.declared.record.DatasetKind.TheVariants as kinds;
ghost use Rattle.objset.specs.Objects.{Object, AreObjects};
ghost use Rattle.dataset_chains.specs.Chains.{AreNewNumbers, Reading, SpellsChains};
ghost use Rattle.dataset_chains.specs.Refused.{HasMostClones, IsChainRefused};
ghost use Rattle.dataset_chains.specs.Touched.{IsCloneTouched, IsSnapshotTouched};

use crate::records::{pass_next, record_of_kind};
use block_store::{BlockStore, Refusal};
use dataset_changes::DatasetChanges;
use meta_objset::{DatasetKind, DatasetRecord};
use model_disk::Disk;
use std::alloc::Global;

/// The numbers of two objects that are made.
#[derive(Clone, Copy)]
pub struct NewNumbers {
    /// Of a record.
    pub dataset: u64,
    /// Of a dead list.
    pub dead_list: u64,
}

/// Takes a snapshot of a head, in the transaction group `group`: the snapshot gets the head's blocks and its dead list, the head an empty one,
/// and the snapshot stands before it. No block of the volume is read. `BadPointer` where the object is none of a head's record.
pub fn snapshot<D: Disk + Drop>(
    changes: &mut DatasetChanges,
    store: &mut BlockStore<D>,
    alloc: Global,
    head: u64,
    numbers: NewNumbers,
    group: u64,
) -> Result<(), Refusal>
    requires numbers { IsNumber numbers.dataset × IsNumber numbers.dead_list }
    ensures reads { OnlyReadsBlocks store.old store.new [] }
    ensures one_set { AreOfOneSet changes.old changes.new }
    ensures value { OnOk result ((stored known : Contents) (objects : ℕ → Option Object)
        (own : List Block) (blocks : ℕ → List Block) (pool : Pool) (readings : ℕ → Reading)
        → Holds store.old stored
        → AreObjects stored (birth_of changes.old) (set_of changes.old) objects own blocks
        → AnswersTell store.old store.new []
        → SpellsChains known group objects changes.old pool readings
        → IsHead pool.datasets head → IsUnused pool.datasets numbers.dataset
        → AreNewNumbers objects changes.old numbers.dataset numbers.dead_list
        → SpellsChains known group objects changes.new (with_snapshot pool head numbers.dataset)
        (updated readings numbers.dataset (readings head))) }
    ensures touched { OnOk result (IsSnapshotTouched changes.old changes.new head numbers.dataset
        numbers.dead_list) }
    ensures caused { IfErr result (IsCaused store.old store.new []) }
    ensures refused { IfErr result (IsChainRefused store.old store.new changes.old changes.new
        head kinds.Volume) }
    ensures known { IfErr result (λ refusal. (stored known : Contents)
        (objects : ℕ → Option Object) (own : List Block) (blocks : ℕ → List Block) (pool : Pool)
        (readings : ℕ → Reading) → Holds store.old stored
        → AreObjects stored (birth_of changes.old) (set_of changes.old) objects own blocks
        → AnswersTell store.old store.new []
        → SpellsChains known group objects changes.old pool readings
        → IsHead pool.datasets head → IsForLoss refusal) }
{
    let dataset = record_of_kind(changes, store, alloc, head, DatasetKind::Volume)?;
    pass_next(
        changes,
        store,
        alloc,
        dataset.previous,
        head,
        numbers.dataset,
    )?;
    let taken = DatasetRecord {
        kind: DatasetKind::Snapshot,
        created: group,
        next: head,
        clones: 0,
        ..dataset
    };
    changes.make_record(numbers.dataset, &taken)?;
    let behind = DatasetRecord {
        previous: numbers.dataset,
        dead_list: numbers.dead_list,
        ..dataset
    };
    changes.change_record(head, &behind)?;
    changes.make_list(alloc, numbers.dead_list)?;
    Ok(())
}

/// Makes a clone of a snapshot, in the transaction group `group`: a head with the snapshot's blocks, which stands behind it and has an empty
/// dead list. No block of the volume is read. `BadPointer` where the object is none of a snapshot's record; `NoSpace` where its clones can't be
/// counted any more.
pub fn clone<D: Disk + Drop>(
    changes: &mut DatasetChanges,
    store: &mut BlockStore<D>,
    alloc: Global,
    snapshot: u64,
    numbers: NewNumbers,
    group: u64,
) -> Result<(), Refusal>
    requires numbers { IsNumber numbers.dataset × IsNumber numbers.dead_list }
    ensures reads { OnlyReadsBlocks store.old store.new [] }
    ensures one_set { AreOfOneSet changes.old changes.new }
    ensures value { OnOk result ((stored known : Contents) (objects : ℕ → Option Object)
        (own : List Block) (blocks : ℕ → List Block) (pool : Pool) (readings : ℕ → Reading)
        → Holds store.old stored
        → AreObjects stored (birth_of changes.old) (set_of changes.old) objects own blocks
        → AnswersTell store.old store.new []
        → SpellsChains known group objects changes.old pool readings
        → IsSnapshot pool.datasets snapshot → IsUnused pool.datasets numbers.dataset
        → AreNewNumbers objects changes.old numbers.dataset numbers.dead_list
        → SpellsChains known group objects changes.new
        (with_dataset pool numbers.dataset (clone_of pool snapshot))
        (updated readings numbers.dataset (readings snapshot))) }
    ensures touched { OnOk result (IsCloneTouched changes.old changes.new snapshot numbers.dataset
        numbers.dead_list) }
    ensures caused { IfErr result (λ refusal. IsCaused store.old store.new [] refusal
        ⊎ HasMostClones changes.new snapshot refusal) }
    ensures refused { IfErr result (λ refusal. HasMostClones changes.new snapshot refusal
        ⊎ IsChainRefused store.old store.new changes.old changes.new snapshot kinds.Snapshot
        refusal) }
    ensures known { IfErr result (λ refusal. (stored known : Contents)
        (objects : ℕ → Option Object) (own : List Block) (blocks : ℕ → List Block) (pool : Pool)
        (readings : ℕ → Reading) → Holds store.old stored
        → AreObjects stored (birth_of changes.old) (set_of changes.old) objects own blocks
        → AnswersTell store.old store.new []
        → SpellsChains known group objects changes.old pool readings
        → IsSnapshot pool.datasets snapshot
        → IsForLoss refusal ⊎ HasMostClones changes.new snapshot refusal) }
{
    let origin = record_of_kind(changes, store, alloc, snapshot, DatasetKind::Snapshot)?;
    let Some(clones) = origin.clones.checked_add(1) else {
        return Err(Refusal::NoSpace);
    };
    let counted = DatasetRecord { clones, ..origin };
    changes.change_record(snapshot, &counted)?;
    let dataset = DatasetRecord {
        kind: DatasetKind::Volume,
        created: group,
        previous: snapshot,
        next: 0,
        clones: 0,
        dead_list: numbers.dead_list,
        ..origin
    };
    changes.make_record(numbers.dataset, &dataset)?;
    changes.make_list(alloc, numbers.dead_list)?;
    Ok(())
}
