//! What is known of an object without its data.
ghost use Rattle.std.specs.Prelude.{◌≡◌, ◌≢◌, ◌^◌, ◌<◌, ℕ, List, Option, IfOk, IfErr, IfSome};
ghost use Rattle.block_pointer.specs.declared.block.Block.{Block};
ghost use Rattle.block_store.specs.Causes.{IsCaused};
ghost use Rattle.block_store.specs.Blocks.{Contents};
ghost use Rattle.block_store.specs.Losses.{IsForLoss};
ghost use Rattle.block_store.specs.Steps.{OnlyReadsBlocks, AnswersTell};
ghost use Rattle.block_store.specs.Store.{Holds};
ghost use Rattle.dnode.specs.ObjectSet.{FitsObjectSet};
ghost use Rattle.objset.specs.NodesFound.{IsNodeRefused};
ghost use Rattle.objset.specs.Objects.{Object, AreObjects};
ghost use Rattle.objset.specs.Shapes.{HasShape, IsShapeFound};

use crate::shape::ObjectShape;
use block_store::{BlockStore, Refusal};
use dnode::{Dnode, ObjectSet};
use model_disk::Disk;
use std::alloc::Global;

/// The shape of an object; nothing where there is no such object. One block is read a level of the object of the dnodes, and
/// none for a number behind the last dnode. The set's blocks were born in the transaction group `birth` or before. The disks
/// that are named are taken as missing. `BadPointer` where no dnode can be read at its place.
pub fn find<D: Disk + Drop>(
    set: &ObjectSet,
    store: &mut BlockStore<D>,
    alloc: Global,
    number: u64,
    birth: u64,
    missing: &[usize],
) -> Result<Option<ObjectShape>, Refusal>
    requires { FitsObjectSet set.now }
    ensures reads { OnlyReadsBlocks store.old store.new missing.now }
    ensures fits { IfOk result (λ found. IfSome found (λ shape. shape.highest < 128 ^ 5)) }
    ensures value { IfOk result (λ found. (stored : Contents) (objects : ℕ → Option Object)
        (own : List Block) (blocks : ℕ → List Block) → Holds store.old stored
        → AreObjects stored birth set.now objects own blocks
        → AnswersTell store.old store.new missing.now
        → HasShape (objects number) found) }

    // Whatever the set is: what was read, and on a refusal its cause.
    ensures found { IfOk result (IsShapeFound store.old.spaces set.now birth number) }
    ensures refused { IfErr result
        (IsNodeRefused store.old store.new missing.now set.now birth number) }
    ensures caused { IfErr result (IsCaused store.old store.new missing.now) }
    ensures cause { IfErr result (λ refusal. refusal ≢ Refusal.NoSpace) }

    // And it is found, over disks whose answers tell, unless too many disks miss of a block.
    ensures known { IfErr result (λ refusal. (stored : Contents) (objects : ℕ → Option Object)
        (own : List Block) (blocks : ℕ → List Block) → Holds store.old stored
        → AreObjects stored birth set.now objects own blocks
        → AnswersTell store.old store.new missing.now
        → IsForLoss refusal) }
{
    let found = crate::node_reading::get(set, store, alloc, number, birth, missing)?;
    Ok(ObjectShape::of_dnode(&found.dnode))
}
