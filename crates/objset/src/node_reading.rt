//! One dnode of an object set.
ghost use Rattle.std.specs.Prelude.{◌≡◌, ◌≢◌, ◌≤◌, ℕ, List, Option, IfOk, IfErr, IfSome, length};
ghost use Rattle.block_pointer.specs.declared.block.Block.{Block};
ghost use Rattle.dnode.specs.declared.dnode.Dnode.{Dnode};
ghost use Rattle.dnode.specs.Dnode.{FitsDnode};
ghost use Rattle.dnode.specs.ObjectSet.{FitsObjectSet};
ghost use Rattle.block_store.specs.Causes.{IsCaused};
ghost use Rattle.block_store.specs.Blocks.{Contents};
ghost use Rattle.block_store.specs.Losses.{IsForLoss};
ghost use Rattle.block_store.specs.Store.{Holds};
ghost use Rattle.block_store.specs.Steps.{OnlyReadsBlocks, AnswersTell};
ghost use Rattle.dnode_tree.specs.Births.{HasBirths};
ghost use Rattle.dnode_tree.specs.Tree.{IsTree};
ghost use Rattle.dnode_tree.specs.Ways.{bytes_in, IsBlockFound, IsRefused};
ghost use Rattle.objset.specs.NodesFound.{found_dnode, IsNodeFound, IsNodeRefused};
ghost use Rattle.objset.specs.Nodes.{HasNodes, birth_of};

use crate::node_slots::{NODES_A_BLOCK, has_zeros, node_at};
use block_store::{BlockStore, Refusal};
use dnode::{Dnode, ObjectSet};
use dnode_tree::DataBlock;
use model_disk::Disk;
use std::alloc::Global;

/// A dnode as it was read.
#[derive(Clone, Copy)]
pub struct FoundDnode {
    pub dnode: Dnode,
    /// The transaction group in which its block was born. Where it has none it is the one that the blocks of the dnodes were
    /// born in or before.
    pub birth: u64,
}

/// The dnode with that number; a free one where there is none. One block is read a level of the object of the dnodes,
/// and none for a number behind the last dnode. The blocks of the dnodes were born in the transaction group `birth` or
/// before. The disks that are named are taken as missing. Where the bytes at its place spell no dnode, or its block has
/// something else than zeros at number 0 or behind the last dnode, the answer is `BadPointer`.
pub fn get<D: Disk + Drop>(
    set: &ObjectSet,
    store: &mut BlockStore<D>,
    alloc: Global,
    number: u64,
    birth: u64,
    missing: &[usize],
) -> Result<FoundDnode, Refusal>
    requires { FitsObjectSet set.now }
    ensures reads { OnlyReadsBlocks store.old store.new missing.now }
    ensures behind { set.now.objects ≤ number
        → (result ≡ Ok (found_dnode Dnode.Free birth)) × (store.new ≡ store.old) }
    ensures fits { IfOk result (λ found. FitsDnode found.dnode) }
    ensures value { IfOk result (λ found. (stored : Contents) (nodes : ℕ → Dnode)
        (blocks : List Block) → Holds store.old stored
        → HasNodes stored birth set.now nodes blocks → AnswersTell store.old store.new missing.now
        → found.dnode ≡ nodes number) }
    ensures born { IfOk result (λ found. (stored : Contents) (nodes : ℕ → Dnode)
        (blocks : List Block) → Holds store.old stored
        → (has : HasNodes stored birth set.now nodes blocks)
        → AnswersTell store.old store.new missing.now
        → found.dnode ≢ Dnode.Free → found.birth ≡ birth_of has.births number) }

    // Whatever the set is: what was read, and on a refusal its cause.
    ensures found { IfOk result (IsNodeFound store.old.spaces set.now birth number) }
    ensures refused { IfErr result
        (IsNodeRefused store.old store.new missing.now set.now birth number) }
    ensures caused { IfErr result (IsCaused store.old store.new missing.now) }
    ensures cause { IfErr result (λ refusal. refusal ≢ Refusal.NoSpace) }

    // And a dnode of a whole set is read, over disks whose answers tell, unless too many disks miss
    // of a block.
    ensures known { IfErr result (λ refusal. (stored : Contents) (nodes : ℕ → Dnode)
        (blocks : List Block) → Holds store.old stored
        → HasNodes stored birth set.now nodes blocks → AnswersTell store.old store.new missing.now
        → IsForLoss refusal) }
{
    if number >= set.objects {
        let dnode = Dnode::Free;
        return Ok(FoundDnode { dnode, birth });
    }
    let id = number / NODES_A_BLOCK;
    let Some(block) = data_block_at(set, store, alloc, id, birth, missing)? else {
        let dnode = Dnode::Free;
        return Ok(FoundDnode { dnode, birth });
    };
    if !has_zeros(&block.bytes, id, set.objects) {
        return Err(Refusal::BadPointer);
    }
    let dnode = node_at(&block.bytes, (number % NODES_A_BLOCK) as usize)?;
    let birth = block.birth;
    Ok(FoundDnode { dnode, birth })
}

/// A block of the dnodes, or nothing where it is a hole.
fn data_block_at<D: Disk + Drop>(
    set: &ObjectSet,
    store: &mut BlockStore<D>,
    alloc: Global,
    id: u64,
    birth: u64,
    missing: &[usize],
) -> Result<Option<DataBlock>, Refusal>
    requires { FitsObjectSet set.now }
    ensures reads { OnlyReadsBlocks store.old store.new missing.now }
    ensures size { IfOk result (λ found. IfSome found
        (λ block. length block.bytes.items ≡ 16384)) }
    ensures value { IfOk result (λ found. (stored : Contents) (array : ℕ → Option (List ℕ))
        (blocks : List Block) → Holds store.old stored
        → IsTree stored birth set.now.dnodes array blocks
        → AnswersTell store.old store.new missing.now
        → bytes_in found ≡ array id) }
    ensures born { IfOk result (λ found. (stored : Contents) (births : ℕ → ℕ → ℕ)
        → Holds store.old stored → HasBirths stored set.now.dnodes births
        → AnswersTell store.old store.new missing.now
        → IfSome found (λ block. block.birth ≡ births 0 id)) }
    ensures found { IfOk result (IsBlockFound store.old.spaces set.now.dnodes birth id) }
    ensures refused { IfErr result
        (IsRefused store.old store.new missing.now set.now.dnodes birth id) }
    ensures caused { IfErr result (IsCaused store.old store.new missing.now) }
    ensures cause { IfErr result (λ refusal. refusal ≢ Refusal.NoSpace) }
    ensures known { IfErr result (λ refusal. (stored : Contents) (array : ℕ → Option (List ℕ))
        (blocks : List Block) → Holds store.old stored
        → IsTree stored birth set.now.dnodes array blocks
        → AnswersTell store.old store.new missing.now
        → IsForLoss refusal) }
{
    dnode_tree::get_block(&set.dnodes, store, alloc, id, birth, missing)
}
