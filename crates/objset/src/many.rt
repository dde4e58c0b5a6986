//! Several data blocks of an object.
ghost use Rattle.std.specs.Prelude.{◌≡◌, ◌≢◌, ◌⊎◌, [], ℕ, List, Option, None, IfOk, IfErr};
ghost use Rattle.std.specs.List.Sorted.{IsStrictlyIncreasing};
ghost use Rattle.block_pointer.specs.declared.block.Block.{Block};
ghost use Rattle.block_store.specs.Causes.{IsCaused};
ghost use Rattle.block_store.specs.Blocks.{Contents};
ghost use Rattle.block_store.specs.Losses.{IsForLoss};
ghost use Rattle.block_store.specs.Steps.{OnlyReadsBlocks, AnswersTell};
ghost use Rattle.block_store.specs.Store.{Holds};
ghost use Rattle.dnode.specs.ObjectSet.{FitsObjectSet};
ghost use Rattle.objset.specs.Many.{AreDataOf, AreDataFound, IsOneDataRefused};
ghost use Rattle.objset.specs.Objects.{Object, AreObjects};

use block_store::{BlockStore, Refusal};
use dnode::{Dnode, ObjectSet};
use model_disk::Disk;
use std::alloc::Global;

/// The bytes of data blocks of an object, in the order of their ids, and nothing at holes. `BadPointer` where there is no such
/// object. The way to the object's dnode is read once, and then each indirect block of the object on the ways to its data
/// once; nothing is read where no block is asked for. The set's blocks were born in the transaction group `birth` or before.
/// The disks that are named are taken as missing.
pub fn get_many<D: Disk + Drop>(
    set: &ObjectSet,
    store: &mut BlockStore<D>,
    alloc: Global,
    number: u64,
    ids: &[u64],
    birth: u64,
    missing: &[usize],
) -> Result<Vec<Option<Vec<u8>>>, Refusal>
    requires set { FitsObjectSet set.now }
    requires once { IsStrictlyIncreasing ids.now }
    ensures reads { OnlyReadsBlocks store.old store.new missing.now }
    ensures idle { ids.now ≡ [] → store.new ≡ store.old }
    ensures value { IfOk result (λ found. (stored : Contents) (objects : ℕ → Option Object)
        (own : List Block) (blocks : ℕ → List Block) → Holds store.old stored
        → AreObjects stored birth set.now objects own blocks
        → AnswersTell store.old store.new missing.now
        → AreDataOf (objects number) ids.now found.items) }

    // Whatever the set is: what was read, and on a refusal its cause.
    ensures found { IfOk result (λ found.
        AreDataFound store.old.spaces set.now birth number ids.now found.items) }
    ensures refused { IfErr result (λ refusal. (refusal ≡ Refusal.NoMemory)
        ⊎ IsOneDataRefused store.old store.new missing.now set.now birth number ids.now refusal) }
    ensures caused { IfErr result (IsCaused store.old store.new missing.now) }
    ensures cause { IfErr result (λ refusal. refusal ≢ Refusal.NoSpace) }

    // And they are read, over disks whose answers tell, unless too many disks miss of a block.
    ensures known { IfErr result (λ refusal. (stored : Contents) (objects : ℕ → Option Object)
        (own : List Block) (blocks : ℕ → List Block) → Holds store.old stored
        → AreObjects stored birth set.now objects own blocks
        → AnswersTell store.old store.new missing.now
        → IsForLoss refusal ⊎ ((refusal ≡ Refusal.BadPointer)
        × (objects number ≡ None))) }
{
    if ids.is_empty() {
        return Ok(Vec::new(alloc));
    }
    let found = crate::node_reading::get(set, store, alloc, number, birth, missing)?;
    let Dnode::Object(node) = found.dnode else {
        return Err(Refusal::BadPointer);
    };
    dnode_tree::get_many(&node, store, alloc, ids, found.birth, missing)
}
