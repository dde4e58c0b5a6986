//! What is read of an object.
ghost use Rattle.std.specs.Prelude.{◌≡◌, ◌≢◌, ◌⊎◌, ℕ, List, Option, None, IsSomeAnd, IfOk, IfErr};
ghost use Rattle.std.specs.Option.{option_map};
ghost use Rattle.block_pointer.specs.declared.block.Block.{Block};
ghost use Rattle.block_store.specs.Causes.{IsCaused};
ghost use Rattle.block_store.specs.Blocks.{Contents};
ghost use Rattle.block_store.specs.Losses.{IsForLoss};
ghost use Rattle.block_store.specs.Store.{Holds};
ghost use Rattle.dnode.specs.ObjectSet.{FitsObjectSet};
ghost use Rattle.block_store.specs.Steps.{OnlyReadsBlocks, AnswersTell};
ghost use Rattle.dnode_tree.specs.Ways.{bytes_of};
ghost use Rattle.objset.specs.Found.{IsDataFound, IsDataRefused, IsObjectWalkRefused};
ghost use Rattle.objset.specs.Objects.{Object, AreObjects};

use block_pointer::Block;
use block_store::{BlockStore, Refusal};
use dnode::{Dnode, ObjectSet};
use model_disk::Disk;
use std::alloc::Global;

/// The bytes of a data block of an object, or nothing at a hole. `BadPointer` where there is no such object. One block is
/// read a level of the object of the dnodes, and one a level of the object. The set's blocks were born in the transaction
/// group `birth` or before. The disks that are named are taken as missing.
pub fn get<D: Disk + Drop>(
    set: &ObjectSet,
    store: &mut BlockStore<D>,
    alloc: Global,
    number: u64,
    id: u64,
    birth: u64,
    missing: &[usize],
) -> Result<Option<Vec<u8>>, Refusal>
    requires { FitsObjectSet set.now }
    ensures reads { OnlyReadsBlocks store.old store.new missing.now }
    ensures value { IfOk result (λ found. (stored : Contents) (objects : ℕ → Option Object)
        (own : List Block) (blocks : ℕ → List Block) → Holds store.old stored
        → AreObjects stored birth set.now objects own blocks
        → AnswersTell store.old store.new missing.now
        → IsSomeAnd (objects number) (λ object. option_map
        (λ bytes. bytes.items) found ≡ object.array id)) }

    // Whatever the set is: what was read, and on a refusal its cause.
    ensures found { IfOk result (λ found. IsDataFound store.old.spaces set.now birth number id
        (bytes_of found)) }
    ensures refused { IfErr result
        (IsDataRefused store.old store.new missing.now set.now birth number id) }
    ensures caused { IfErr result (IsCaused store.old store.new missing.now) }
    ensures cause { IfErr result (λ refusal. refusal ≢ Refusal.NoSpace) }

    // And it is read, over disks whose answers tell, unless too many disks miss of a block.
    ensures known { IfErr result (λ refusal. (stored : Contents) (objects : ℕ → Option Object)
        (own : List Block) (blocks : ℕ → List Block) → Holds store.old stored
        → AreObjects stored birth set.now objects own blocks
        → AnswersTell store.old store.new missing.now
        → IsForLoss refusal ⊎ ((refusal ≡ Refusal.BadPointer)
        × (objects number ≡ None))) }
{
    let found = crate::node_reading::get(set, store, alloc, number, birth, missing)?;
    let Dnode::Object(node) = found.dnode else {
        return Err(Refusal::BadPointer);
    };
    dnode_tree::get(&node, store, alloc, id, found.birth, missing)
}

/// All blocks of an object, each before those below it, and otherwise in the order of their data. `BadPointer` where there
/// is no such object. Of the object's blocks only indirect ones are read. The set's blocks were born in the transaction group
/// `birth` or before. The disks that are named are taken as missing.
pub fn walk<D: Disk + Drop>(
    set: &ObjectSet,
    store: &mut BlockStore<D>,
    alloc: Global,
    number: u64,
    birth: u64,
    missing: &[usize],
) -> Result<Vec<Block>, Refusal>
    requires { FitsObjectSet set.now }
    ensures reads { OnlyReadsBlocks store.old store.new missing.now }
    ensures blocks { IfOk result (λ found. (stored : Contents) (objects : ℕ → Option Object)
        (own : List Block) (blocks : ℕ → List Block) → Holds store.old stored
        → AreObjects stored birth set.now objects own blocks
        → AnswersTell store.old store.new missing.now
        → (objects number ≢ None) × (found.items ≡ blocks number)) }

    // Whatever the set is: on a refusal its cause.
    ensures refused { IfErr result
        (IsObjectWalkRefused store.old store.new missing.now set.now birth number) }
    ensures caused { IfErr result (IsCaused store.old store.new missing.now) }
    ensures cause { IfErr result (λ refusal. refusal ≢ Refusal.NoSpace) }

    // And it is walked, over disks whose answers tell, unless too many disks miss of a block.
    ensures known { IfErr result (λ refusal. (stored : Contents) (objects : ℕ → Option Object)
        (own : List Block) (blocks : ℕ → List Block) → Holds store.old stored
        → AreObjects stored birth set.now objects own blocks
        → AnswersTell store.old store.new missing.now
        → IsForLoss refusal ⊎ ((refusal ≡ Refusal.BadPointer)
        × (objects number ≡ None))) }
{
    let found = crate::node_reading::get(set, store, alloc, number, birth, missing)?;
    let Dnode::Object(node) = found.dnode else {
        return Err(Refusal::BadPointer);
    };
    dnode_tree::walk(&node, store, alloc, found.birth, missing)
}
