//! Volumes that are made and overwritten.
ghost use Rattle.std.specs.Prelude.{◌≡◌, ◌<◌, ◌++◌, ◌⊎◌, [], ℕ, List, Option, Some, All, Contains, OnOk, IfOk, IfErr, filter, length, nat_le, nat_lt};
ghost use Rattle.block_pointer.specs.declared.block.Block.{Block};
ghost use Rattle.block_pointer.specs.Block.{FitsBlock};
ghost use Rattle.block_store.specs.Blocks.{Contents, Extends};
ghost use Rattle.block_store.specs.Causes.{IsCaused};
ghost use Rattle.block_store.specs.Losses.{IsForLoss};
ghost use Rattle.block_store.specs.Steps.{OnlyReadsBlocks, AnswersTell};
ghost use Rattle.block_store.specs.Store.{Holds};
ghost use Rattle.dataset_changes.specs.States.{AreOfOneSet, HaveSameLists, IsNumber, birth_of, list_at, record_at, set_of};
ghost use Rattle.dataset_changes.specs.declared.states.ListState.TheVariants as lists;
ghost use Rattle.dataset_changes.specs.declared.states.RecordState.TheVariants as records;
ghost use Rattle.dead_list.specs.Blocks.{AreDistinct, IsSplit};
ghost use Rattle.dead_list.specs.Datasets.{Free, Pool, updated};
ghost use Rattle.dead_list.specs.Datasets.{group_before as group_before_in};
ghost use Rattle.dead_list.specs.Operations.{AreNew, IsHead, IsUnused, IsWritable, Makes, Overwrite, with_dataset};
ghost use Rattle.meta_objset.specs.Record.{FitsRecord};
ghost use Rattle.meta_objset.specs.declared.record.DatasetKind.TheVariants as kinds;
ghost use Rattle.objset.specs.Objects.{Object, AreObjects};
ghost use Rattle.volume.specs.Volume.{IsVolume};
ghost use Rattle.dataset_chains.specs.Chains.{AreNewNumbers, LeadsTo, Reading, SpellsChains};
ghost use Rattle.dataset_chains.specs.Making.{AreRewritten, IsNewRecord, volume_with};
ghost use Rattle.dataset_chains.specs.Passing.{KeepsRecords};
ghost use Rattle.dataset_chains.specs.Refused.{HasKnown, IsBlockMisfit, IsChainRefused, IsRecordLost};
ghost use Rattle.dataset_chains.specs.Touched.{AreAtMostRead, HasSameList, KeepsDeadLists, TouchesOnly};
ghost use Rattle.meta_objset.specs.declared.record.DatasetRecord.{DatasetRecord};

use crate::fitting::expect_rows;
use crate::records::record_of_kind;
use block_pointer::Block;
use block_store::{BlockStore, Refusal};
use dataset_changes::DatasetChanges;
use meta_objset::{DatasetKind, DatasetRecord};
use model_disk::Disk;
use std::alloc::{AllocError, Global};

/// A head that a group writes to, once its blocks are planned.
#[derive(Drop)]
pub struct RewrittenHead {
    /// Of the object of its record.
    pub number: u64,
    /// The block of its object set after the writes.
    pub object_set: Block,
    /// The blocks that it reached before and doesn't any more.
    pub left: Vec<Block>,
}

/// A volume is made: its object has this record, and the dead list that the record names is empty. Its blocks are planned already. `NoMemory`
/// is the only error.
pub fn create(
    changes: &mut DatasetChanges,
    alloc: Global,
    number: u64,
    dataset: &DatasetRecord,
) -> Result<(), AllocError>
    requires fits { FitsRecord dataset.now }
    requires numbers { IsNumber number × IsNumber (dataset.now).dead_list }
    ensures one_set { AreOfOneSet changes.old changes.new }
    ensures value { OnOk result ((known : Contents) (group : ℕ) (objects : ℕ → Option Object)
        (pool : Pool) (readings : ℕ → Reading) (blocks : List Block) (reading : Reading)
        → 0 < group → SpellsChains known group objects changes.old pool readings
        → IsUnused pool.datasets number → IsNewRecord group dataset.now
        → AreNewNumbers objects changes.old number (dataset.now).dead_list
        → LeadsTo known group dataset.now blocks reading → AreNew pool blocks
        → AreDistinct blocks
        → SpellsChains known group objects changes.new
        (with_dataset pool number (volume_with pool blocks)) (updated readings number reading)) }
    ensures touched { OnOk result (TouchesOnly changes.old changes.new (λ one. one ≡ number)
        (λ one. one ≡ (dataset.now).dead_list)) }
    ensures put { OnOk result
        ((record_at changes.new number ≡ Some (records.Made dataset.now))
        × (list_at changes.new (dataset.now).dead_list ≡ Some (lists.Made []))) }
{
    changes.make_record(number, dataset)?;
    changes.make_list(alloc, dataset.dead_list)?;
    Ok(())
}

/// The group of the snapshot before a dataset, 0 where there is none. `BadPointer` where the object that the record names has no record.
pub fn group_before<D: Disk + Drop>(
    changes: &mut DatasetChanges,
    store: &mut BlockStore<D>,
    alloc: Global,
    dataset: &DatasetRecord,
) -> Result<u64, Refusal>
    ensures reads { OnlyReadsBlocks store.old store.new [] }
    ensures one_set { AreOfOneSet changes.old changes.new }
    ensures lists { HaveSameLists changes.old changes.new }
    ensures stays { OnOk result (KeepsRecords changes.old changes.new) }
    ensures touched { OnOk result (AreAtMostRead changes.old changes.new) }
    ensures value { IfOk result (λ found. (stored known : Contents) (group : ℕ)
        (objects : ℕ → Option Object) (own : List Block) (blocks : ℕ → List Block) (pool : Pool)
        (readings : ℕ → Reading) → Holds store.old stored
        → AreObjects stored (birth_of changes.old) (set_of changes.old) objects own blocks
        → AnswersTell store.old store.new []
        → SpellsChains known group objects changes.old pool readings
        → SpellsChains known group objects changes.new pool readings
        × ((pool.datasets (dataset.now).previous).group ≡ found)) }
    ensures caused { IfErr result (IsCaused store.old store.new []) }
    ensures refused { IfErr result (λ refusal. (refusal ≡ Refusal.NoMemory)
        ⊎ IsRecordLost store.old store.new changes.old refusal) }
    ensures known { IfErr result (λ refusal. (stored known : Contents) (group : ℕ)
        (objects : ℕ → Option Object) (own : List Block) (blocks : ℕ → List Block) (pool : Pool)
        (readings : ℕ → Reading) → Holds store.old stored
        → AreObjects stored (birth_of changes.old) (set_of changes.old) objects own blocks
        → AnswersTell store.old store.new []
        → SpellsChains known group objects changes.old pool readings
        → (number : ℕ) → (pool.datasets number).before ≡ (dataset.now).previous
        → IsForLoss refusal) }
{
    if dataset.previous == 0 {
        return Ok(0);
    }
    let before = changes.record(store, alloc, dataset.previous)?;
    Ok(before.created)
}

/// A head has its object set after a group's writes. Of the blocks that left it those are freed that were born after the snapshot before it:
/// they come behind those in `freed`. The others join its dead list, of which, where it wasn't read whole, the first and the last block alone are
/// read. `BadPointer` where the object is none of a head's record, or its dead list none, and where one that joins it can't have a row there.
pub fn overwrite<D: Disk + Drop>(
    changes: &mut DatasetChanges,
    store: &mut BlockStore<D>,
    alloc: Global,
    head: &RewrittenHead,
    freed: &mut Vec<Block>,
) -> Result<(), Refusal>
    requires fits { FitsBlock (head.now).object_set }
    ensures reads { OnlyReadsBlocks store.old store.new [] }
    ensures one_set { AreOfOneSet changes.old changes.new }

    // Where the blocks that left are those that the head had and hasn't now, and what entered is new, that is an overwrite.
    ensures value { OnOk result ((stored known later : Contents) (group : ℕ)
        (objects : ℕ → Option Object) (own : List Block) (blocks : ℕ → List Block) (pool : Pool)
        (readings : ℕ → Reading) (r : DatasetRecord) (after entered : List Block)
        (reading : Reading) → Holds store.old stored
        → AreObjects stored (birth_of changes.old) (set_of changes.old) objects own blocks
        → AnswersTell store.old store.new [] → Extends known later
        → SpellsChains known group objects changes.old pool readings
        → IsHead pool.datasets (head.now).number → IsWritable pool (head.now).number
        → AreNew pool entered
        → r.object_set ≡ (head.now).object_set → LeadsTo later group r after reading
        → reading.block_size ≡ (readings (head.now).number).block_size
        → r.size ≡ length (readings (head.now).number).array
        → AreRewritten (pool.datasets (head.now).number).blocks after (head.now).left.items entered
        → (gone : List Block) × (freed.new.items ≡ freed.old.items ++ gone)
        × (new : Pool)
        × Makes pool (Overwrite (head.now).number (head.now).left.items entered) gone new
        × SpellsChains later group objects changes.new new
        (updated readings (head.now).number reading)
        × HasSameList objects changes.old changes.new (head.now).number) }
    ensures behind { OnOk result ((gone : List Block)
        × (freed.new.items ≡ freed.old.items ++ gone)) }
    ensures touched { OnOk result (TouchesOnly changes.old changes.new
        (λ one. one ≡ (head.now).number) (λ one. (r : DatasetRecord)
        × HasKnown changes.new (head.now).number r × (r.dead_list ≡ one))) }
    ensures kept { OnOk result (KeepsDeadLists changes.old changes.new) }
    ensures caused { IfErr result (IsCaused store.old store.new []) }
    ensures refused { IfErr result (λ refusal. IsBlockMisfit (head.now).left.items refusal
        ⊎ IsChainRefused store.old store.new changes.old changes.new (head.now).number kinds.Volume
        refusal) }

    // Over disks whose answers tell, and where what left was the head's, only memory is wanting, or
    // disks.
    ensures known { IfErr result (λ refusal. (stored known : Contents) (group : ℕ)
        (objects : ℕ → Option Object) (own : List Block) (blocks : ℕ → List Block) (pool : Pool)
        (readings : ℕ → Reading) → Holds store.old stored
        → AreObjects stored (birth_of changes.old) (set_of changes.old) objects own blocks
        → AnswersTell store.old store.new []
        → SpellsChains known group objects changes.old pool readings
        → IsHead pool.datasets (head.now).number
        → ((block : Block) → Contains (head.now).left.items block
        → Contains (pool.datasets (head.now).number).blocks block) → IsForLoss refusal) }
{
    let dataset = record_of_kind(changes, store, alloc, head.number, DatasetKind::Volume)?;
    let since = group_before(changes, store, alloc, &dataset)?;
    let older = part_left(alloc, &head.left, since, freed)?;
    expect_rows(&older)?;
    let written = DatasetRecord {
        object_set: head.object_set,
        ..dataset
    };
    changes.change_record(head.number, &written)?;
    changes.add_to_list(store, alloc, dataset.dead_list, &older)?;
    Ok(())
}

/// Parts blocks that left a head: those that were born after a group come behind the freed ones, and the others are handed out.
fn part_left(
    alloc: Global,
    left: &[Block],
    since: u64,
    freed: &mut Vec<Block>,
) -> Result<Vec<Block>, AllocError>
    ensures behind { OnOk result ((gone : List Block)
        × (freed.new.items ≡ freed.old.items ++ gone)) }
    ensures parts { IfOk result (λ older. (gone : List Block)
        × (freed.new.items ≡ freed.old.items ++ gone)
        × IsSplit since left.now gone older.items) }
    ensures within { IfOk result (λ older. All (Contains left.now) older.items) }
{
    let younger = born_after(alloc, left, since)?;
    let older = born_until(alloc, left, since)?;
    freed.extend_from_slice(&younger)?;
    Ok(older)
}

fn born_after(alloc: Global, blocks: &[Block], group: u64) -> Result<Vec<Block>, AllocError>
    ensures { IfOk result (λ after. after.items ≡ filter
        (λ block. nat_lt group block.birth) blocks.now) }
{
    blocks
        .iter()
        .copied()
        .filter(|block| group < block.birth)
        .collect(alloc)
}

fn born_until(alloc: Global, blocks: &[Block], group: u64) -> Result<Vec<Block>, AllocError>
    ensures { IfOk result (λ until. until.items ≡ filter
        (λ block. nat_le block.birth group) blocks.now) }
{
    blocks
        .iter()
        .copied()
        .filter(|block| block.birth <= group)
        .collect(alloc)
}
