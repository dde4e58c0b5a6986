//! One block of dnodes.
ghost use Rattle.std.specs.Prelude.{◌≡◌, ◌≢◌, ℕ, List, Option, IfOk, IfErr, IfSome, length};
ghost use Rattle.std.specs.Option.{option_map};
ghost use Rattle.block_pointer.specs.declared.block.Block.{Block};
ghost use Rattle.dnode.specs.declared.dnode.Dnode.{Dnode};
ghost use Rattle.dnode.specs.ObjectSet.{FitsObjectSet};
ghost use Rattle.block_store.specs.Causes.{IsCaused};
ghost use Rattle.block_store.specs.Blocks.{Contents};
ghost use Rattle.block_store.specs.Losses.{IsForLoss};
ghost use Rattle.block_store.specs.Store.{Holds};
ghost use Rattle.block_store.specs.Steps.{OnlyReadsBlocks, AnswersTell};
ghost use Rattle.dnode_tree.specs.Tree.{IsTree};
ghost use Rattle.dnode_tree.specs.Ways.{bytes_of, IsFound, IsRefused};
ghost use Rattle.objset.specs.Nodes.{AreNodesOf};
ghost use Rattle.objset.specs.NodeSlots.{HasSlots};

use crate::node_slots::BLOCK_LEN;
use block_store::{BlockStore, Refusal};
use dnode::ObjectSet;
use model_disk::Disk;
use std::alloc::Global;

/// The bytes of a block of the dnodes, or nothing where it is a hole.
pub(crate) fn block_at<D: Disk + Drop>(
    set: &ObjectSet,
    store: &mut BlockStore<D>,
    alloc: Global,
    id: u64,
    birth: u64,
    missing: &[usize],
) -> Result<Option<Vec<u8>>, Refusal>
    requires { FitsObjectSet set.now }
    ensures reads { OnlyReadsBlocks store.old store.new missing.now }
    ensures size { IfOk result (λ found. IfSome found (λ bytes. length bytes.items ≡ 16384)) }
    ensures value { IfOk result (λ found. (stored : Contents) (array : ℕ → Option (List ℕ))
        (blocks : List Block) → Holds store.old stored
        → IsTree stored birth set.now.dnodes array blocks
        → AnswersTell store.old store.new missing.now
        → option_map (λ bytes. bytes.items) found ≡ array id) }
    ensures found { IfOk result (λ found. IsFound store.old.spaces set.now.dnodes birth id
        (bytes_of found)) }
    ensures refused { IfErr result
        (IsRefused store.old store.new missing.now set.now.dnodes birth id) }
    ensures caused { IfErr result (IsCaused store.old store.new missing.now) }
    ensures cause { IfErr result (λ refusal. refusal ≢ Refusal.NoSpace) }
    ensures known { IfErr result (λ refusal. (stored : Contents) (array : ℕ → Option (List ℕ))
        (blocks : List Block) → Holds store.old stored
        → IsTree stored birth set.now.dnodes array blocks
        → AnswersTell store.old store.new missing.now
        → IsForLoss refusal) }
{
    dnode_tree::get(&set.dnodes, store, alloc, id, birth, missing)
}

/// The bytes of a block of the dnodes: zeros where it is a hole, as free dnodes are.
pub(crate) fn block_or_zeros<D: Disk + Drop>(
    set: &ObjectSet,
    store: &mut BlockStore<D>,
    alloc: Global,
    id: u64,
    birth: u64,
    missing: &[usize],
) -> Result<Vec<u8>, Refusal>
    requires { FitsObjectSet set.now }
    ensures reads { OnlyReadsBlocks store.old store.new missing.now }
    ensures size { IfOk result (λ bytes. length bytes.items ≡ 16384) }
    ensures value { IfOk result (λ bytes. (stored : Contents) (array : ℕ → Option (List ℕ))
        (nodes : ℕ → Dnode) (blocks : List Block) → Holds store.old stored
        → IsTree stored birth set.now.dnodes array blocks → AreNodesOf array nodes
        → AnswersTell store.old store.new missing.now → HasSlots bytes.items id nodes) }
    ensures refused { IfErr result
        (IsRefused store.old store.new missing.now set.now.dnodes birth id) }
    ensures caused { IfErr result (IsCaused store.old store.new missing.now) }
    ensures cause { IfErr result (λ refusal. refusal ≢ Refusal.NoSpace) }
    ensures known { IfErr result (λ refusal. (stored : Contents) (array : ℕ → Option (List ℕ))
        (blocks : List Block) → Holds store.old stored
        → IsTree stored birth set.now.dnodes array blocks
        → AnswersTell store.old store.new missing.now
        → IsForLoss refusal) }
{
    match block_at(set, store, alloc, id, birth, missing)? {
        Some(bytes) => Ok(bytes),
        None => Ok(vec![in alloc; 0; BLOCK_LEN]?),
    }
}
