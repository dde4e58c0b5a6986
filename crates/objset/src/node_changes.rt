//! The blocks of dnodes that writes change.
ghost use Rattle.std.specs.Prelude.{◌≡◌, ◌≢◌, ◌⊎◌, ◌*◌, ◌/◌, ◌^◌, ◌<◌, ◌≤◌, ◌++◌, ◌∷◌, [], ℕ, List, Option, All, Any, IfOk, IfErr, OnOk, length, take, slice_index_or};
ghost use Rattle.block_pointer.specs.declared.block.Block.{Block};
ghost use Rattle.dnode.specs.declared.dnode.Dnode.{Dnode};
ghost use Rattle.dnode.specs.ObjectSet.{FitsObjectSet};
ghost use Rattle.block_store.specs.Causes.{IsCaused};
ghost use Rattle.block_store.specs.Blocks.{Contents};
ghost use Rattle.block_store.specs.Losses.{IsForLoss};
ghost use Rattle.block_store.specs.Store.{Holds};
ghost use Rattle.block_store.specs.Steps.{OnlyReadsBlocks, AnswersTell};
ghost use Rattle.dnode_tree.specs.Tree.{IsTree};
ghost use Rattle.dnode_tree.specs.Ways.{IsRefused};
ghost use Rattle.dnode_tree.specs.Writes.{AreInOrder, AreWholeBlocks, written};
ghost use Rattle.objset.specs.Nodes.{AreNodesOf};
ghost use Rattle.objset.specs.NodesRefused.{IsBlockUnread};
ghost use Rattle.objset.specs.NodeSlots.{HasSlots};
ghost use Rattle.objset.specs.NodeWrites.{AreNodeWrites, written_nodes};

use crate::node_blocks::block_or_zeros;
use crate::node_slots::{NODES_A_BLOCK, put_nodes};
use crate::node_writes::NodeWrite;
use block_store::{BlockStore, Refusal};
use dnode::ObjectSet;
use dnode_tree::BlockWrite;
use model_disk::Disk;
use std::alloc::{AllocError, Global};

/// The bytes of a block of the dnodes with these dnodes in it. The others are kept as they are.
fn changed_block<D: Disk + Drop>(
    set: &ObjectSet,
    store: &mut BlockStore<D>,
    alloc: Global,
    id: u64,
    writes: &[NodeWrite],
    birth: u64,
    missing: &[usize],
) -> Result<Vec<u8>, Refusal>
    requires set { FitsObjectSet set.now }
    requires writes { AreNodeWrites writes.now }
    requires here { All (λ write. write.number / 32 ≡ id) writes.now }
    ensures reads { OnlyReadsBlocks store.old store.new missing.now }
    ensures size { IfOk result (λ bytes. length bytes.items ≡ 16384) }
    ensures value { IfOk result (λ bytes. (stored : Contents) (array : ℕ → Option (List ℕ))
        (nodes : ℕ → Dnode) (blocks : List Block) → Holds store.old stored
        → IsTree stored birth set.now.dnodes array blocks → AreNodesOf array nodes
        → AnswersTell store.old store.new missing.now
        → HasSlots bytes.items id (written_nodes writes.now nodes)) }
    ensures refused { IfErr result
        (IsRefused store.old store.new missing.now set.now.dnodes birth id) }
    ensures caused { IfErr result (IsCaused store.old store.new missing.now) }
    ensures cause { IfErr result (λ refusal. refusal ≢ Refusal.NoSpace) }
    ensures known { IfErr result (λ refusal. (stored : Contents) (array : ℕ → Option (List ℕ))
        (blocks : List Block) → Holds store.old stored
        → IsTree stored birth set.now.dnodes array blocks
        → AnswersTell store.old store.new missing.now
        → IsForLoss refusal) }
{
    let mut bytes = block_or_zeros(set, store, alloc, id, birth, missing)?;
    put_nodes(bytes.as_mut_slice(), writes);
    Ok(bytes)
}

/// The writes of those blocks of the dnodes that have one of these dnodes, each read once.
pub(crate) fn block_writes<D: Disk + Drop>(
    set: &ObjectSet,
    store: &mut BlockStore<D>,
    alloc: Global,
    writes: &[NodeWrite],
    birth: u64,
    missing: &[usize],
) -> Result<Vec<BlockWrite>, Refusal>
    requires set { FitsObjectSet set.now }
    requires writes { AreNodeWrites writes.now }
    ensures reads { OnlyReadsBlocks store.old store.new missing.now }
    ensures ids { IfOk result (λ changed. All (λ write. write.id < 128 ^ 5) changed.items) }
    ensures order { IfOk result (λ changed. AreInOrder changed.items) }
    ensures whole { IfOk result (λ changed. AreWholeBlocks set.now.dnodes changed.items) }
    ensures reached { IfOk result (λ changed. All
        (λ write. Any (λ block. block.id ≡ write.number / 32) changed.items) writes.now) }
    ensures only { IfOk result (λ changed. All (λ block. Any
        (λ write. write.number / 32 ≡ block.id) writes.now) changed.items) }
    ensures value { IfOk result (λ changed. (stored : Contents) (array : ℕ → Option (List ℕ))
        (nodes : ℕ → Dnode) (blocks : List Block) → Holds store.old stored
        → IsTree stored birth set.now.dnodes array blocks → AreNodesOf array nodes
        → AnswersTell store.old store.new missing.now
        → AreNodesOf (written changed.items array) (written_nodes writes.now nodes)) }
    ensures refused { IfErr result (λ refusal. (refusal ≡ Refusal.NoMemory)
        ⊎ IsBlockUnread store.old store.new missing.now set.now birth writes.now refusal) }
    ensures caused { IfErr result (IsCaused store.old store.new missing.now) }
    ensures cause { IfErr result (λ refusal. refusal ≢ Refusal.NoSpace) }
    ensures known { IfErr result (λ refusal. (stored : Contents) (array : ℕ → Option (List ℕ))
        (blocks : List Block) → Holds store.old stored
        → IsTree stored birth set.now.dnodes array blocks
        → AnswersTell store.old store.new missing.now
        → IsForLoss refusal) }
{
    let mut changed = Vec::new(alloc);
    let mut rest = writes;
    while let Some(first) = rest.first() {
        let id = first.number / NODES_A_BLOCK;
        let (run, others) = rest.split_at(count_before(rest, NODES_A_BLOCK * (id + 1)));
        let bytes = changed_block(set, store, alloc, id, run, birth, missing)?;
        push(&mut changed, BlockWrite { id, bytes })?;
        rest = others;
    }
    Ok(changed)
}

/// How many writes at the front are of numbers before that one.
fn count_before(writes: &[NodeWrite], end: u64) -> usize
    ensures within { result ≤ length writes.now }
    ensures before { All (λ write. write.number < end) (take result writes.now) }
    ensures behind { (other : NodeWrite) → result < length writes.now
        → end ≤ (slice_index_or writes.now result other).number }
{
    for (i, write) in writes.iter().enumerate() {
        if write.number >= end {
            return i;
        }
    }
    writes.len()
}

/// Adds a block that is written.
fn push(changed: &mut Vec<BlockWrite>, write: BlockWrite) -> Result<(), AllocError>
    ensures { OnOk result (changed.new.items ≡ changed.old.items ++ write ∷ []) }
{
    changed.push(write)?;
    Ok(())
}
