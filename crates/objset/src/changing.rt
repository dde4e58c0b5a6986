//! Objects of a set are changed together.
ghost use Rattle.std.specs.Prelude.{◌≡◌, ◌≢◌, ◌⊎◌, ◌↔◌, ◌*◌, ◌^◌, ◌<◌, ◌≤◌, ◌++◌, ◌∷◌, [], ℕ, List, Option, map, All, AllPairs, Any, IsTrue, OnOk, IfOk, IfErr};
ghost use Rattle.block_pointer.specs.declared.block.Block.{Block};
ghost use Rattle.block_store.specs.Causes.{IsCaused};
ghost use Rattle.block_store.specs.Blocks.{Contents};
ghost use Rattle.block_store.specs.Demands.{Demand, HavePlaces};
ghost use Rattle.block_store.specs.Losses.{IsForLoss};
ghost use Rattle.block_store.specs.Plans.{Plans};
ghost use Rattle.block_store.specs.Steps.{OnlyReadsBlocks, OnlyReadsAndPlans, AnswersTell};
ghost use Rattle.dnode.specs.Dnode.{FitsDnode};
ghost use Rattle.dnode.specs.Node.{FitsNode};
ghost use Rattle.dnode.specs.ObjectSet.{FitsObjectSet};
ghost use Rattle.objset.specs.NodeWrites.{AreNodeWrites, numbers_of};
ghost use Rattle.dnode_tree.specs.Spots.{demands_of};
ghost use Rattle.dnode_tree.specs.Tree.{IsTree, property_of};
ghost use Rattle.dnode_tree.specs.Ways.{root_of, IsWalkRefused};
ghost use Rattle.dnode_tree.specs.Writes.{IsForRoom};
ghost use Rattle.objset.specs.Changes.{AreWhole, AreGoodWrites, IsGoodChange, MayChange, changed, AreChanged, IsGrownFor, HasNoRoom, copies_of, object_copies};
ghost use Rattle.objset.specs.Changing.{ChangesEach, IsEachRefused, ChangesOne, IsOneRefused, ChangesNode, IsNodeRefused, WritesObject, ReplacesObject, LacksRoomForObject, HavePlacesFor, LackPlacesFor, LacksRoomForFirst, IsDnodeRefused, IsWritingRefused, IsReplaceRefused};
ghost use Rattle.objset.specs.Demands.{FitsChange, empty_node, demands_of_change, HasDemands, LacksRoom};
ghost use Rattle.objset.specs.Objects.{Object, AreObjects};
ghost use Rattle.objset.specs.Found.{IsBornBy, IsDnodeBornBy};
ghost use Rattle.objset.specs.Refused.{IsChangeRefused, AreObjectsRefused};

use crate::changes::{Change, Changing, ObjectChange, SetCopies};
use crate::node_reading::FoundDnode;
use crate::node_writes::{NodeWrite, SetRewrite};
use block_pointer::{Block, BlockPtr};
use block_store::{BlockStore, Refusal};
use dnode::{Dnode, ObjectNode, ObjectSet};
use dnode_tree::BlockWrite;
use model_disk::Disk;
use std::alloc::{AllocError, Global};

/// Plans the set with these changes made of its objects, in the transaction group `birth`. The changes are in the order of
/// their objects' numbers. Each block on the way is planned once, and no other object is read. The set before stays as it
/// was: its blocks were born in the group `before` or before it, that of the block which leads to the set, and what a dnode leads
/// to in that of the dnode's block or before it. Each block has as many copies as the set's kind asks.
///
/// `BadPointer` where a change can't be made: an object is there already, or is not there, or its blocks have another size; and
/// where a pointer on the way, or its fill count, is bad.
///
/// After an error blocks may be planned that no object has: begin another plan.
pub fn change<D: Disk + Drop>(
    set: &ObjectSet,
    store: &mut BlockStore<D>,
    alloc: Global,
    changes: &[ObjectChange],
    before: u64,
    birth: u64,
    missing: &[usize],
) -> Result<SetRewrite, Refusal>
    requires set { FitsObjectSet set.now }
    requires numbers { All (λ change. (0 < change.number) × (change.number < 32 * 128 ^ 5))
        changes.now }
    requires order { AllPairs (λ change later. change.number < later.number) changes.now }
    requires good { All (λ change. IsGoodChange change.change) changes.now }
    requires born { 0 < birth }
    ensures steps { OnlyReadsAndPlans store.old store.new missing.now }
    ensures set { IfOk result (λ done. FitsObjectSet done.set) }
    ensures kind { IfOk result (λ done. done.set.kind ≡ set.now.kind) }
    ensures grown { IfOk result (λ done. IsGrownFor set.now done.set changes.now) }
    ensures changed { IfOk result (λ done. (stored planned : Contents) (bound : ℕ)
        (objects : ℕ → Option Object) (own : List Block) (blocks : ℕ → List Block)
        → Plans store.old stored planned → AreObjects stored bound set.now objects own blocks
        → bound ≤ birth → AnswersTell store.old store.new missing.now
        → All (λ change. MayChange change.change (objects change.number)) changes.now
        × (later : Contents) × Plans store.new stored later
        × AreChanged (copies_of set.now.kind) planned later birth done changes.now
        (changed changes.now objects) own blocks) }
    ensures early { OnOk result (IsBornBy before set.now.dnodes.pointer) }
    ensures no_room { IfErr result (λ refusal. refusal ≡ Refusal.NoSpace
        → HasNoRoom store.old store.new missing.now (copies_of set.now.kind)) }

    // And they are made, over disks whose answers tell, unless there is no room or too many disks
    // miss of a block.
    ensures known { IfErr result (λ refusal. (stored planned : Contents) (bound : ℕ)
        (objects : ℕ → Option Object) (own : List Block) (blocks : ℕ → List Block)
        → Plans store.old stored planned → AreObjects stored bound set.now objects own blocks
        → bound ≤ before → bound ≤ birth → AnswersTell store.old store.new missing.now
        → (IsForRoom refusal ⊎ (refusal ≡ Refusal.DiskFault)) ⊎ ((refusal ≡ Refusal.BadPointer)
        × Any (λ change. ¬ MayChange change.change (objects change.number)) changes.now)) }

    // Whatever the set is: what places are taken for, and on a refusal its cause.
    ensures places { OnOk result ((demands : List Demand)
        × HasDemands store.old.spaces set.now birth (copies_of set.now.kind) changes.now demands
        × HavePlaces store.old.spaces demands store.new.spaces) }
    ensures refused { IfErr result (λ refusal. (refusal ≡ Refusal.NoMemory)
        ⊎ (((refusal ≡ Refusal.NoSpace)
        × LacksRoom store.old store.new set.now birth (copies_of set.now.kind) changes.now)
        ⊎ IsChangeRefused store.old store.new missing.now set.now before birth changes.now
        refusal)) }
    ensures caused { IfErr result (IsCaused store.old store.new missing.now) }
{
    check_root(&set.dnodes.pointer, before)?;
    let copies = SetCopies::of_kind(set.kind);
    let changing = Changing {
        birth,
        copies,
        missing,
    };
    let mut replaced = Vec::new(alloc);
    let writes = changing.change_each(set, store, alloc, changes, &mut replaced)?;
    let rewrite = crate::node_putting::put_many(
        set,
        store,
        alloc,
        &writes,
        birth,
        copies.of_dnodes(),
        missing,
    )?;
    replaced.extend_from_slice(&rewrite.replaced)?;
    Ok(SetRewrite {
        set: rewrite.set,
        replaced,
    })
}

impl<'a> Changing<'a> {
    /// Plans the trees of the changed objects. The blocks that give way are added to the replaced ones, and what is to be
    /// written to the dnodes is returned.
    fn change_each<D: Disk + Drop>(
        self,
        set: &ObjectSet,
        store: &mut BlockStore<D>,
        alloc: Global,
        changes: &[ObjectChange],
        replaced: &mut Vec<Block>,
    ) -> Result<Vec<NodeWrite>, Refusal>
        requires set { FitsObjectSet set.now }
        requires numbers { All (λ change. (0 < change.number) × (change.number < 32 * 128 ^ 5))
            changes.now }
        requires order { AllPairs (λ change later. change.number < later.number) changes.now }
        requires good { All (λ change. IsGoodChange change.change) changes.now }
        requires born { 0 < self.birth }
        ensures steps { OnlyReadsAndPlans store.old store.new self.entry.missing.now }
        ensures writes { IfOk result (λ writes. AreNodeWrites writes.items) }
        ensures numbers { IfOk result (λ writes. (number : ℕ)
            → All (λ change. change.number < number) changes.now
            ↔ All (λ write. write.number < number) writes.items) }
        ensures changed { IfOk result (λ writes. ChangesEach self.entry store.old store.new set.now
            changes.now replaced.old.items replaced.new.items writes.items) }
        ensures no_room { IfErr result (λ refusal. refusal ≡ Refusal.NoSpace
            → HasNoRoom store.old store.new self.entry.missing.now self.entry.copies) }
        ensures known { IfErr result
            (IsEachRefused self.entry store.old store.new set.now changes.now) }
        ensures same { IfOk result (λ writes. numbers_of writes.items
            ≡ map (λ change. change.number) changes.now) }
        ensures places { OnOk result (HavePlacesFor self.entry store.old store.new set.now
            changes.now) }
        ensures refused { IfErr result (λ refusal. (refusal ≡ Refusal.NoMemory)
            ⊎ (((refusal ≡ Refusal.NoSpace)
            × LacksRoomForFirst self.entry store.old store.new set.now changes.now)
            ⊎ AreObjectsRefused store.old store.new self.entry.missing.now set.now self.entry.birth
            changes.now refusal)) }
        ensures caused { IfErr result (IsCaused store.old store.new self.entry.missing.now) }
    {
        let mut writes = Vec::new(alloc);
        for change in changes {
            let write = self.change_one(set, store, alloc, change, replaced)?;
            push(&mut writes, write)?;
        }
        Ok(writes)
    }

    /// Plans the tree of one object that is changed.
    fn change_one<D: Disk + Drop>(
        self,
        set: &ObjectSet,
        store: &mut BlockStore<D>,
        alloc: Global,
        change: &ObjectChange,
        replaced: &mut Vec<Block>,
    ) -> Result<NodeWrite, Refusal>
        requires set { FitsObjectSet set.now }
        requires good { IsGoodChange change.now.change }
        requires born { 0 < self.birth }
        ensures steps { OnlyReadsAndPlans store.old store.new self.entry.missing.now }
        ensures number { IfOk result (λ write. write.number ≡ change.now.number) }
        ensures fits { IfOk result (λ write. FitsDnode write.node) }
        ensures changed { IfOk result (λ write. ChangesOne self.entry store.old store.new set.now
            change.now replaced.old.items replaced.new.items write.node) }
        ensures no_room { IfErr result (λ refusal. refusal ≡ Refusal.NoSpace
            → HasNoRoom store.old store.new self.entry.missing.now self.entry.copies) }
        ensures known { IfErr result
            (IsOneRefused self.entry store.old store.new set.now change.now) }
        ensures places { OnOk result (HavePlacesFor self.entry store.old store.new set.now
            (change.now ∷ [])) }
        ensures refused { IfErr result (λ refusal. (refusal ≡ Refusal.NoMemory)
            ⊎ (((refusal ≡ Refusal.NoSpace)
            × LackPlacesFor self.entry store.old store.new set.now (change.now ∷ []))
            ⊎ AreObjectsRefused store.old store.new self.entry.missing.now set.now self.entry.birth
            (change.now ∷ []) refusal)) }
        ensures caused { IfErr result (IsCaused store.old store.new self.entry.missing.now) }
    {
        let number = change.number;
        let found = crate::node_reading::get(set, store, alloc, number, self.birth, self.missing)?;
        check_dnode(&found)?;
        let node = self.change_dnode(found.dnode, store, alloc, &change.change, replaced)?;
        Ok(NodeWrite { number, node })
    }

    /// The dnode of an object after a change.
    fn change_dnode<D: Disk + Drop>(
        self,
        dnode: Dnode,
        store: &mut BlockStore<D>,
        alloc: Global,
        change: &Change,
        replaced: &mut Vec<Block>,
    ) -> Result<Dnode, Refusal>
        requires dnode { FitsDnode dnode }
        requires good { IsGoodChange change.now }
        requires born { 0 < self.birth }
        ensures steps { OnlyReadsAndPlans store.old store.new self.entry.missing.now }
        ensures fits { IfOk result FitsDnode }
        ensures changed { IfOk result (ChangesNode self.entry store.old store.new dnode change.now
            replaced.old.items replaced.new.items) }
        ensures no_room { IfErr result (λ refusal. refusal ≡ Refusal.NoSpace
            → HasNoRoom store.old store.new self.entry.missing.now self.entry.copies) }
        ensures known { IfErr result
            (IsNodeRefused self.entry store.old store.new dnode change.now) }
        ensures made { OnOk result (FitsChange change.now dnode) }
        ensures places { OnOk result (HavePlaces store.old.spaces
            (demands_of_change self.entry.copies change.now dnode) store.new.spaces) }
        ensures refused { IfErr result
            (IsDnodeRefused self.entry store.old store.new dnode change.now) }
        ensures caused { IfErr result (IsCaused store.old store.new self.entry.missing.now) }
    {
        match change {
            Change::Create {
                object_type,
                data_sectors,
                writes,
            } => {
                let Dnode::Free = dnode else {
                    return Err(Refusal::BadPointer);
                };
                let node = ObjectNode {
                    object_type: *object_type,
                    data_sectors: *data_sectors,
                    highest: 0,
                    pointer: BlockPtr::Hole,
                };
                self.write_object(&node, store, alloc, writes, replaced)
            }
            Change::Put { writes } => {
                let Dnode::Object(node) = dnode else {
                    return Err(Refusal::BadPointer);
                };
                if !are_whole(&node, writes) {
                    return Err(Refusal::BadPointer);
                }
                self.write_object(&node, store, alloc, writes, replaced)
            }
            Change::Free => {
                let Dnode::Object(node) = dnode else {
                    return Err(Refusal::BadPointer);
                };
                free_object(&node, store, alloc, self.birth, self.missing, replaced)
            }
            Change::Replace { writes } => {
                let Dnode::Object(node) = dnode else {
                    return Err(Refusal::BadPointer);
                };
                if !are_whole(&node, writes) {
                    return Err(Refusal::BadPointer);
                }
                self.replace_object(&node, store, alloc, writes, replaced)
            }
        }
    }

    /// Plans an object of the type and size of another that has these data blocks alone. All blocks of the other are named
    /// as replaced.
    fn replace_object<D: Disk + Drop>(
        self,
        node: &ObjectNode,
        store: &mut BlockStore<D>,
        alloc: Global,
        writes: &[BlockWrite],
        replaced: &mut Vec<Block>,
    ) -> Result<Dnode, Refusal>
        requires node { FitsNode node.now }
        requires good { AreGoodWrites writes.now }
        requires whole { AreWhole node.now.data_sectors writes.now }
        requires born { 0 < self.birth }
        ensures steps { OnlyReadsAndPlans store.old store.new self.entry.missing.now }
        ensures fits { IfOk result FitsDnode }
        ensures changed { IfOk result (ReplacesObject self.entry store.old store.new node.now
            writes.now replaced.old.items replaced.new.items) }
        ensures no_room { IfErr result (λ refusal. refusal ≡ Refusal.NoSpace
            → HasNoRoom store.old store.new self.entry.missing.now self.entry.copies) }
        ensures known { IfErr result (LacksRoomForObject self.entry store.old store.new node.now) }
        ensures places { OnOk result (HavePlaces store.old.spaces
            (demands_of (empty_node node.now.object_type node.now.data_sectors)
            (object_copies self.entry.copies) writes.now) store.new.spaces) }
        ensures refused { IfErr result
            (IsReplaceRefused self.entry store.old store.new node.now writes.now) }
        ensures caused { IfErr result (IsCaused store.old store.new self.entry.missing.now) }
    {
        free_object(node, store, alloc, self.birth, self.missing, replaced)?;
        let empty = ObjectNode {
            object_type: node.object_type,
            data_sectors: node.data_sectors,
            highest: 0,
            pointer: BlockPtr::Hole,
        };
        self.write_object(&empty, store, alloc, writes, replaced)
    }

    /// Plans the tree of an object in which data blocks are written.
    fn write_object<D: Disk + Drop>(
        self,
        node: &ObjectNode,
        store: &mut BlockStore<D>,
        alloc: Global,
        writes: &[BlockWrite],
        replaced: &mut Vec<Block>,
    ) -> Result<Dnode, Refusal>
        requires node { FitsNode node.now }
        requires good { AreGoodWrites writes.now }
        requires whole { AreWhole node.now.data_sectors writes.now }
        requires born { 0 < self.birth }
        ensures steps { OnlyReadsAndPlans store.old store.new self.entry.missing.now }
        ensures fits { IfOk result FitsDnode }
        ensures changed { IfOk result (WritesObject self.entry store.old store.new node.now
            writes.now replaced.old.items replaced.new.items) }
        ensures no_room { IfErr result (λ refusal. refusal ≡ Refusal.NoSpace
            → HasNoRoom store.old store.new self.entry.missing.now self.entry.copies) }
        ensures known { IfErr result (LacksRoomForObject self.entry store.old store.new node.now) }
        ensures places { OnOk result (HavePlaces store.old.spaces
            (demands_of node.now (object_copies self.entry.copies) writes.now) store.new.spaces) }
        ensures refused { IfErr result
            (IsWritingRefused self.entry store.old store.new node.now writes.now) }
        ensures caused { IfErr result (IsCaused store.old store.new self.entry.missing.now) }
    {
        let done = dnode_tree::put_many(
            node,
            store,
            alloc,
            writes,
            self.birth,
            self.copies.of_objects(),
            self.missing,
        )?;
        replaced.extend_from_slice(&done.replaced)?;
        Ok(Dnode::Object(done.node))
    }
}

/// `BadPointer` where a pointer leads to a block that was born after that group.
fn check_root(pointer: &BlockPtr, birth: u64) -> Result<(), Refusal>
    ensures early { OnOk result (IsBornBy birth pointer.now) }
    ensures late { IfErr result (λ refusal. (refusal ≡ Refusal.BadPointer)
        × ¬ IsBornBy birth pointer.now) }
{
    if let BlockPtr::Block(block) = pointer {
        if block.birth > birth {
            return Err(Refusal::BadPointer);
        }
    }
    Ok(())
}

/// `BadPointer` where what a dnode leads to was born after the block that the dnode stands in.
fn check_dnode(found: &FoundDnode) -> Result<(), Refusal>
    ensures early { OnOk result (IsDnodeBornBy found.now.birth found.now.dnode) }
    ensures late { IfErr result (λ refusal. (refusal ≡ Refusal.BadPointer)
        × ¬ IsDnodeBornBy found.now.birth found.now.dnode) }
{
    match &found.dnode {
        Dnode::Object(node) => check_root(&node.pointer, found.birth),
        Dnode::Free => Ok(()),
    }
}

/// Adds a write to a list.
fn push(writes: &mut Vec<NodeWrite>, write: NodeWrite) -> Result<(), AllocError>
    ensures { OnOk result (writes.new.items ≡ writes.old.items ++ write ∷ []) }
{
    writes.push(write)?;
    Ok(())
}

/// Whether each write has the bytes of a data block of the object.
fn are_whole(node: &ObjectNode, writes: &[BlockWrite]) -> bool
    requires { node.now.data_sectors ≤ 256 }
    ensures { IsTrue result ↔ AreWhole node.now.data_sectors writes.now }
{
    let len = node.data_sectors as usize * 512;
    writes.iter().all(|write| write.bytes.len() == len)
}

/// Names all blocks of an object as replaced.
fn free_object<D: Disk + Drop>(
    node: &ObjectNode,
    store: &mut BlockStore<D>,
    alloc: Global,
    birth: u64,
    missing: &[usize],
    replaced: &mut Vec<Block>,
) -> Result<Dnode, Refusal>
    requires { node.now.highest < 128 ^ 5 }
    ensures reads { OnlyReadsBlocks store.old store.new missing.now }
    ensures steps { OnlyReadsAndPlans store.old store.new missing.now }
    ensures free { IfOk result (λ after. after ≡ Dnode.Free) }
    ensures noted { IfOk result (λ _. (stored planned : Contents) (bound : ℕ)
        (array : ℕ → Option (List ℕ)) (blocks : List Block) → Plans store.old stored planned
        → IsTree stored bound node.now array blocks → bound ≤ birth
        → AnswersTell store.old store.new missing.now → Plans store.new stored planned
        × (replaced.new.items ≡ replaced.old.items ++ blocks)) }
    ensures cause { IfErr result (λ refusal. refusal ≢ Refusal.NoSpace) }
    ensures known { IfErr result (λ refusal. (stored planned : Contents) (bound : ℕ)
        (array : ℕ → Option (List ℕ)) (blocks : List Block) → Plans store.old stored planned
        → IsTree stored bound node.now array blocks → bound ≤ birth
        → AnswersTell store.old store.new missing.now → IsForLoss refusal) }
    ensures refused { IfErr result (λ refusal. (refusal ≡ Refusal.NoMemory)
        ⊎ IsWalkRefused store.old store.new missing.now
        (property_of node.now) (root_of node.now birth) refusal) }
    ensures caused { IfErr result (IsCaused store.old store.new missing.now) }
{
    let blocks = dnode_tree::walk(node, store, alloc, birth, missing)?;
    replaced.extend_from_slice(&blocks)?;
    Ok(Dnode::Free)
}
