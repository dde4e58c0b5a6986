//! Several dnodes of an object set are written at once.
ghost use Rattle.std.specs.Prelude.{◌≡◌, ◌⊎◌, ◌*◌, ◌^◌, ◌<◌, ◌≤◌, ℕ, List, All, OnOk, IfOk, IfErr};
ghost use Rattle.block_pointer.specs.declared.block.Block.{Block};
ghost use Rattle.dnode.specs.declared.dnode.Dnode.{Dnode};
ghost use Rattle.dnode.specs.ObjectSet.{FitsObjectSet};
ghost use Rattle.block_store.specs.Causes.{IsCaused};
ghost use Rattle.block_store.specs.Blocks.{Contents};
ghost use Rattle.block_store.specs.Plans.{Plans};
ghost use Rattle.block_store.specs.Steps.{OnlyReadsAndPlans, AnswersTell};
ghost use Rattle.dnode_tree.specs.Writes.{HasNoRoom, IsForRoom};
ghost use Rattle.objset.specs.Nodes.{HasNodes};
ghost use Rattle.objset.specs.NodesRefused.{IsNodeWriteRefused};
ghost use Rattle.objset.specs.NodeWrites.{AreNodeWrites, AreNodesRewritten, IsGrownSet, written_nodes, births_written};
ghost use Rattle.objset.specs.NodeWrites.{HaveNodePlaces, LackNodePlaces, numbers_of};

use crate::node_changes::block_writes;
use crate::node_writes::{NodeWrite, SetRewrite};
use block_store::{BlockStore, Refusal};
use dnode::ObjectSet;
use dnode_tree::CopyCounts;
use model_disk::Disk;
use std::alloc::Global;

/// Plans the object of the dnodes with these dnodes in it, in the transaction group `birth`: each block of dnodes that has
/// one of them is read and planned once, and the bytes at its other places are kept as they are. The writes are in the
/// order of their numbers, and the set grows to the highest of them. The set before stays as it was: its blocks were born
/// in the group `birth` or before.
///
/// `BadPointer`, `DiskFault` and `BadDigest` as `dnode_tree::put_many` has them, on the way to a block that has one of these
/// dnodes; the other dnodes in it are not judged. After an error blocks may be planned that no set has: begin another plan.
pub fn put_many<D: Disk + Drop>(
    set: &ObjectSet,
    store: &mut BlockStore<D>,
    alloc: Global,
    writes: &[NodeWrite],
    birth: u64,
    copies: CopyCounts,
    missing: &[usize],
) -> Result<SetRewrite, Refusal>
    requires set { FitsObjectSet set.now }
    requires writes { AreNodeWrites writes.now }
    requires born { 0 < birth }
    ensures steps { OnlyReadsAndPlans store.old store.new missing.now }
    ensures set { IfOk result (λ done. FitsObjectSet done.set) }
    ensures grown { IfOk result (λ done. IsGrownSet set.now done.set writes.now) }
    ensures rewritten { IfOk result (λ done. (stored planned : Contents) (bound : ℕ)
        (nodes : ℕ → Dnode) (blocks : List Block) → Plans store.old stored planned
        → (has : HasNodes stored bound set.now nodes blocks) → bound ≤ birth
        → AnswersTell store.old store.new missing.now
        → (later : Contents) × Plans store.new stored later
        × AreNodesRewritten copies planned later birth done (written_nodes writes.now nodes)
        (births_written writes.now birth (has.births 0)) blocks) }
    ensures no_room { IfErr result (λ refusal. refusal ≡ Refusal.NoSpace
        → HasNoRoom store.old store.new missing.now set.now.dnodes copies) }

    // And a whole set is rewritten, over disks whose answers tell, unless there is no room or too
    // many disks miss of a block.
    ensures known { IfErr result (λ refusal. (stored planned : Contents) (bound : ℕ)
        (nodes : ℕ → Dnode) (blocks : List Block) → Plans store.old stored planned
        → HasNodes stored bound set.now nodes blocks → bound ≤ birth
        → AnswersTell store.old store.new missing.now
        → IsForRoom refusal ⊎ (refusal ≡ Refusal.DiskFault)) }

    // For each block with one of these dnodes, and those above, places are taken, once, and for nothing else.
    ensures places { OnOk result (HaveNodePlaces set.now copies (numbers_of writes.now)
        store.old.spaces store.new.spaces) }

    // Whatever the set is: why it was refused.
    ensures refused { IfErr result (λ refusal. (refusal ≡ Refusal.NoMemory)
        ⊎ (((refusal ≡ Refusal.NoSpace) × LackNodePlaces set.now copies (numbers_of writes.now)
        store.old.spaces store.new.spaces)
        ⊎ IsNodeWriteRefused store.old store.new missing.now set.now birth
        (numbers_of writes.now) refusal)) }
    ensures caused { IfErr result (IsCaused store.old store.new missing.now) }
{
    let changed = block_writes(set, store, alloc, writes, birth, missing)?;
    let done = dnode_tree::put_many(&set.dnodes, store, alloc, &changed, birth, copies, missing)?;
    let set = ObjectSet {
        dnodes: done.node,
        kind: set.kind,
        objects: objects_after(set.objects, writes),
    };
    Ok(SetRewrite {
        set,
        replaced: done.replaced,
    })
}

/// How many dnodes a set has after writes.
fn objects_after(before: u64, writes: &[NodeWrite]) -> u64
    requires { All (λ write. write.number < 32 * 128 ^ 5) writes.now }
    ensures from { before ≤ result }
    ensures room { All (λ write. write.number < result) writes.now }
    ensures least { (objects : ℕ) → before ≤ objects
        → All (λ write. write.number < objects) writes.now → result ≤ objects }
{
    let mut objects = before;
    for write in writes {
        objects = objects.max(write.number + 1);
    }
    objects
}
