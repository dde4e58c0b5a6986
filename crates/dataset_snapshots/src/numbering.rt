//! Numbers of objects that are gone, taken again.
ghost use Rattle.std.specs.Prelude.{◌≡◌, ◌≤◌, ℕ, [], List, Option, None, IsTrue};
ghost use Rattle.block_pointer.specs.declared.block.Block.{Block};
ghost use Rattle.block_store.specs.Blocks.{Contents};
ghost use Rattle.block_store.specs.Steps.{OnlyReadsBlocks, AnswersTell};
ghost use Rattle.block_store.specs.Store.{Holds};
ghost use Rattle.dnode.specs.ObjectSet.{FitsObjectSet};
ghost use Rattle.objset.specs.Objects.{Object, AreObjects};
ghost use Rattle.dataset_snapshots.specs.Groups.{AreNumbersBehind, HasNumbers, HasRoomFor};
ghost use Rattle.dataset_snapshots.specs.Numbering.{AreUnused};

use crate::kept::{KeptDirectory, NumberRun};
use block_store::BlockStore;
use dataset_groups::GroupDatasets;
use dnode::ObjectSet;
use model_disk::Disk;
use std::alloc::Global;

/// Has so many new datasets take numbers of which the set has no objects and of which later ones have some, where as many are free in a row.
/// A dnode is read for each of these numbers. The set's blocks were born in the transaction group `birth` or before.
pub(crate) fn reuse_numbers<D: Disk + Drop>(
    datasets: &mut GroupDatasets,
    set: &ObjectSet,
    store: &mut BlockStore<D>,
    alloc: Global,
    birth: u64,
    kept: &KeptDirectory,
    made: usize,
)
    requires fits { FitsObjectSet set.now }
    requires numbers { AreNumbersBehind set.now datasets.old }
    ensures reads { OnlyReadsBlocks store.old store.new [] }
    ensures directory { datasets.new.directory ≡ datasets.old.directory }
    ensures changes { datasets.new.changes ≡ datasets.old.changes }
    ensures numbers { HasNumbers set.now datasets.new }
    ensures room { HasRoomFor datasets.new made }
    ensures unused { AreUnused store.old store.new set.now birth datasets.new.next
        datasets.new.bounds.end }
{
    let Some(run) = kept.run_for(made) else {
        return;
    };
    if are_unused(set, store, alloc, birth, run) {
        datasets.number_from(run.first, run.end);
    }
}

/// Whether the set has no objects of these numbers, and a number behind them. An object that can't be found for any cause may be there.
fn are_unused<D: Disk + Drop>(
    set: &ObjectSet,
    store: &mut BlockStore<D>,
    alloc: Global,
    birth: u64,
    run: NumberRun,
) -> bool
    requires { FitsObjectSet set.now }
    ensures reads { OnlyReadsBlocks store.old store.new [] }
    ensures within { IsTrue result → run.end ≤ set.now.objects }
    ensures unused { IsTrue result
        → AreUnused store.old store.new set.now birth run.first run.end }
{
    if run.end > set.objects {
        return false;
    }
    for number in run.first..run.end {
        if !is_unused(set, store, alloc, birth, number) {
            return false;
        }
    }
    true
}

/// Whether the set has no object of this number.
fn is_unused<D: Disk + Drop>(
    set: &ObjectSet,
    store: &mut BlockStore<D>,
    alloc: Global,
    birth: u64,
    number: u64,
) -> bool
    requires { FitsObjectSet set.now }
    ensures reads { OnlyReadsBlocks store.old store.new [] }
    ensures unused { IsTrue result → (stored : Contents) (objects : ℕ → Option Object)
        (own : List Block) (blocks : ℕ → List Block) → Holds store.old stored
        → AreObjects stored birth set.now objects own blocks → AnswersTell store.old store.new []
        → objects number ≡ None }
{
    match objset::find(set, store, alloc, number, birth, &[]) {
        Ok(found) => found.is_none(),
        Err(_) => false,
    }
}
