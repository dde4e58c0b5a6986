//! Records of chains that are read and linked.
ghost use Rattle.std.specs.Prelude.{◌≡◌, ◌≢◌, ◌⊎◌, [], ℕ, List, Option, OnOk, IfOk, IfErr};
ghost use Rattle.block_pointer.specs.declared.block.Block.{Block};
ghost use Rattle.block_store.specs.Blocks.{Contents};
ghost use Rattle.block_store.specs.Causes.{IsCaused};
ghost use Rattle.block_store.specs.Losses.{IsForLoss};
ghost use Rattle.block_store.specs.Steps.{OnlyReadsBlocks, AnswersTell};
ghost use Rattle.block_store.specs.Store.{Holds};
ghost use Rattle.dataset_changes.specs.Over.{AreOver};
ghost use Rattle.dataset_changes.specs.States.{AreOfOneSet, HaveSameLists, IsNumber, birth_of, record_at, set_of};
ghost use Rattle.dead_list.specs.Datasets.{Pool};
ghost use Rattle.meta_objset.specs.Record.{FitsRecord};
ghost use Rattle.objset.specs.Objects.{Object, AreObjects};
ghost use Rattle.dataset_chains.specs.Chains.{Reading, SpellsChains, kind_of};
ghost use Rattle.dataset_chains.specs.Passing.{IsNextPassed, IsRecordAlone};
ghost use Rattle.dataset_chains.specs.Refused.{HasKnown, IsChainRefused, IsRecordLost};
ghost use Rattle.dataset_chains.specs.Touched.{AreAtMostRead, IsAtMostRead};

use block_store::{BlockStore, Refusal};
use dataset_changes::DatasetChanges;
use meta_objset::{DatasetKind, DatasetRecord};
use model_disk::Disk;
use std::alloc::Global;

/// The record of a dataset of this kind; `BadPointer` where it is of another.
pub(crate) fn record_of_kind<D: Disk + Drop>(
    changes: &mut DatasetChanges,
    store: &mut BlockStore<D>,
    alloc: Global,
    number: u64,
    kind: DatasetKind,
) -> Result<DatasetRecord, Refusal>
    ensures reads { OnlyReadsBlocks store.old store.new [] }
    ensures one_set { AreOfOneSet changes.old changes.new }
    ensures lists { HaveSameLists changes.old changes.new }
    ensures fits { IfOk result (λ found. FitsRecord found × IsNumber number) }
    ensures kind { IfOk result (λ found. found.kind ≡ kind) }
    ensures known_as { IfOk result (HasKnown changes.new number) }
    ensures touched { OnOk result (AreAtMostRead changes.old changes.new) }
    ensures value { IfOk result (λ found. (stored known : Contents) (group : ℕ)
        (objects : ℕ → Option Object) (own : List Block) (blocks : ℕ → List Block) (pool : Pool)
        (readings : ℕ → Reading) → Holds store.old stored
        → AreObjects stored (birth_of changes.old) (set_of changes.old) objects own blocks
        → AnswersTell store.old store.new []
        → SpellsChains known group objects changes.old pool readings
        → SpellsChains known group objects changes.new pool readings
        × IsRecordAlone objects changes.new number found) }
    ensures caused { IfErr result (IsCaused store.old store.new []) }
    ensures refused { IfErr result (IsChainRefused store.old store.new changes.old changes.new
        number kind) }
    ensures known { IfErr result (λ refusal. (stored known : Contents) (group : ℕ)
        (objects : ℕ → Option Object) (own : List Block) (blocks : ℕ → List Block) (pool : Pool)
        (readings : ℕ → Reading) → Holds store.old stored
        → AreObjects stored (birth_of changes.old) (set_of changes.old) objects own blocks
        → AnswersTell store.old store.new []
        → SpellsChains known group objects changes.old pool readings
        → (pool.datasets number).kind ≡ kind_of kind → IsForLoss refusal) }
{
    let dataset = changes.record(store, alloc, number)?;
    if dataset.kind != kind {
        return Err(Refusal::BadPointer);
    }
    Ok(dataset)
}

/// What comes after the snapshot `before` in its chain gives way to `to`, if it is `from`. If it is something else, `from` was the first in the
/// chain of a clone. Nothing is done where `before` is 0.
pub(crate) fn pass_next<D: Disk + Drop>(
    changes: &mut DatasetChanges,
    store: &mut BlockStore<D>,
    alloc: Global,
    before: u64,
    from: u64,
    to: u64,
) -> Result<(), Refusal>
    requires { IsNumber from }
    ensures reads { OnlyReadsBlocks store.old store.new [] }
    ensures one_set { AreOfOneSet changes.old changes.new }
    ensures lists { HaveSameLists changes.old changes.new }
    ensures touched { OnOk result ((number : ℕ)
        → IsAtMostRead (record_at changes.old number) (record_at changes.new number)
        ⊎ ((number ≡ before) × (number ≢ 0))) }
    ensures value { OnOk result ((stored : Contents) (objects : ℕ → Option Object)
        (own : List Block) (blocks : ℕ → List Block) → Holds store.old stored
        → AreObjects stored (birth_of changes.old) (set_of changes.old) objects own blocks
        → AnswersTell store.old store.new [] → AreOver objects changes.old
        → AreOver objects changes.new
        × IsNextPassed objects changes.old changes.new before from to) }
    ensures caused { IfErr result (IsCaused store.old store.new []) }
    ensures refused { IfErr result (λ refusal. (refusal ≡ Refusal.NoMemory)
        ⊎ IsRecordLost store.old store.new changes.old refusal) }
    ensures known { IfErr result (λ refusal. (stored known : Contents) (group : ℕ)
        (objects : ℕ → Option Object) (own : List Block) (blocks : ℕ → List Block) (pool : Pool)
        (readings : ℕ → Reading) → Holds store.old stored
        → AreObjects stored (birth_of changes.old) (set_of changes.old) objects own blocks
        → AnswersTell store.old store.new []
        → SpellsChains known group objects changes.old pool readings
        → (number : ℕ) → (pool.datasets number).before ≡ before → IsForLoss refusal) }
{
    if before == 0 {
        return Ok(());
    }
    let dataset = changes.record(store, alloc, before)?;
    if dataset.next == from {
        let passed = DatasetRecord {
            next: to,
            ..dataset
        };
        changes.change_record(before, &passed)?;
    }
    Ok(())
}
