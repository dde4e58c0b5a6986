//! Walks over a tree that need not be one: so many blocks are read at most.
ghost use Rattle.std.specs.Prelude.{◌≡◌, ◌≢◌, ◌⊎◌, ◌↔◌, ◌+◌, ◌++◌, ◌^◌, ◌<◌, ◌≤◌, ℕ, List, Option, All, OnOk, IfOk, IfErr, IsTrue, filter};
ghost use Rattle.block_pointer.specs.declared.block.Block.{Block};
ghost use Rattle.block_store.specs.Causes.{IsCaused};
ghost use Rattle.block_store.specs.Blocks.{Contents};
ghost use Rattle.block_store.specs.Losses.{IsForLoss};
ghost use Rattle.block_store.specs.Steps.{OnlyReadsBlocks, AnswersTell};
ghost use Rattle.block_store.specs.Store.{Holds};
ghost use Rattle.dnode_tree.specs.Rewriting.{AreDistinct};
ghost use Rattle.dnode_tree.specs.Tree.{property_of, IsPart, IsTree};
ghost use Rattle.dnode_tree.specs.Ways.{reached, AreWalked};
ghost use Rattle.dnode_tree.specs.Within.{indirect_count, IsWithinRefused};
ghost use Rattle.dnode_tree.specs.Younger.{is_younger, younger, seen, is_picked, IsWalkedWhere, AreWalkedWhere, IsRefusedWhere, IsWithinRefusedWhere};

use crate::descent::{asked_at, read_indirect};
use crate::freeing::add;
use crate::subtree::Subtree;
use crate::walking::{asks, push};
use block_pointer::{Block, BlockPtr};
use block_store::{BlockStore, Refusal};
use dnode::ObjectNode;
use model_disk::Disk;
use std::alloc::{AllocError, Global};
use std::collections::HashSet;

/// All blocks of an object, as `walk` finds them, of an object that may be forged: at most as many blocks are read as are
/// left to be read, and each that is read is counted off. `BadPointer` also where none is left, and where a block is
/// there twice.
pub fn walk_within<D: Disk + Drop>(
    node: &ObjectNode,
    store: &mut BlockStore<D>,
    alloc: Global,
    birth: u64,
    left: &mut u64,
    missing: &[usize],
) -> Result<Vec<Block>, Refusal>
    requires { node.now.highest < 128 ^ 5 }
    ensures reads { OnlyReadsBlocks store.old store.new missing.now }
    ensures fewer { left.new ≤ left.old }
    ensures blocks { IfOk result (λ found. (stored : Contents) (array : ℕ → Option (List ℕ))
        (blocks : List Block) → Holds store.old stored
        → IsTree stored birth node.now array blocks → AnswersTell store.old store.new missing.now
        → found.items ≡ blocks) }
    ensures found { IfOk result (λ found. AreWalked store.old.spaces node.now birth found.items) }
    ensures once { IfOk result (λ found. AreDistinct found.items) }

    // The blocks that were read are those above the data.
    ensures count { IfOk result (λ found. left.old ≡ left.new + indirect_count found.items) }
    ensures refused { IfErr result
        (IsWithinRefused store.old store.new missing.now node.now birth left.new) }
    ensures caused { IfErr result (IsCaused store.old store.new missing.now) }
    ensures cause { IfErr result (λ refusal. refusal ≢ Refusal.NoSpace) }

    // And a whole tree that has each block once is walked, where answers tell, where as
    // many are left, unless too many disks miss of a block.
    ensures known { IfErr result (λ refusal. (stored : Contents) (array : ℕ → Option (List ℕ))
        (blocks : List Block) → Holds store.old stored
        → IsTree stored birth node.now array blocks → AreDistinct blocks
        → indirect_count blocks ≤ left.old → AnswersTell store.old store.new missing.now
        → IsForLoss refusal) }
{
    TreeWalk {
        node,
        since: None,
        missing,
    }
    .walk(store, alloc, birth, left)
}

/// All blocks of an object that were born after the transaction group `since`, in the order of `walk`, of an object that may
/// be forged. A block that was born in that group or before is not read, and not judged: nothing below it is younger. At most
/// as many blocks are read as are left to be read, and each that is read is counted off: of the blocks that are found those
/// above the data. `BadPointer` also where none is left, and where a block is there twice. The object's blocks were born in
/// the transaction group `birth` or before. The disks that are named are taken as missing.
pub fn walk_younger<D: Disk + Drop>(
    node: &ObjectNode,
    store: &mut BlockStore<D>,
    alloc: Global,
    birth: u64,
    since: u64,
    left: &mut u64,
    missing: &[usize],
) -> Result<Vec<Block>, Refusal>
    requires { node.now.highest < 128 ^ 5 }
    ensures reads { OnlyReadsBlocks store.old store.new missing.now }
    ensures fewer { left.new ≤ left.old }
    ensures blocks { IfOk result (λ found. (stored : Contents) (array : ℕ → Option (List ℕ))
        (blocks : List Block) → Holds store.old stored
        → IsTree stored birth node.now array blocks → AnswersTell store.old store.new missing.now
        → found.items ≡ younger since blocks) }

    // Whatever the tree is: what was walked, each block once, and on a refusal its cause.
    ensures found { IfOk result (λ found.
        AreWalkedWhere (is_younger since) store.old.spaces node.now birth found.items) }
    ensures younger { IfOk result (λ found. All (λ block. since < block.birth) found.items) }
    ensures once { IfOk result (λ found. AreDistinct found.items) }

    // The blocks that were read are those above the data that were found.
    ensures count { IfOk result (λ found. left.old ≡ left.new + indirect_count found.items) }
    ensures refused { IfErr result (IsWithinRefusedWhere (is_younger since)
        store.old store.new missing.now node.now birth left.new) }
    ensures caused { IfErr result (IsCaused store.old store.new missing.now) }
    ensures cause { IfErr result (λ refusal. refusal ≢ Refusal.NoSpace) }

    // And a whole tree that has each younger block once is walked, where answers tell,
    // where as many are left, unless too many disks miss of a block.
    ensures known { IfErr result (λ refusal. (stored : Contents) (array : ℕ → Option (List ℕ))
        (blocks : List Block) → Holds store.old stored
        → IsTree stored birth node.now array blocks → AreDistinct (younger since blocks)
        → indirect_count (younger since blocks) ≤ left.old
        → AnswersTell store.old store.new missing.now
        → IsForLoss refusal) }
{
    TreeWalk {
        node,
        since: Some(since),
        missing,
    }
    .walk(store, alloc, birth, left)
}

/// What a walk carries through a tree.
#[derive(Clone, Copy)]
pub(crate) struct TreeWalk<'a> {
    pub node: &'a ObjectNode,
    /// Blocks that were born in this transaction group or before are left out; none are where none is named.
    pub since: Option<u64>,
    /// The numbers of the disks that are taken as missing.
    pub missing: &'a [usize],
}

impl<'a> TreeWalk<'a> {
    /// All blocks of the object that are looked for, each once, where so many may be read.
    pub(crate) fn walk<D: Disk + Drop>(
        self,
        store: &mut BlockStore<D>,
        alloc: Global,
        birth: u64,
        left: &mut u64,
    ) -> Result<Vec<Block>, Refusal>
        requires { self.node.now.highest < 128 ^ 5 }
        ensures reads { OnlyReadsBlocks store.old store.new self.entry.missing.now }
        ensures fewer { left.new ≤ left.old }
        ensures blocks { IfOk result (λ found. (stored : Contents)
            (array : ℕ → Option (List ℕ)) (blocks : List Block) → Holds store.old stored
            → IsTree stored birth self.entry.node.now array blocks
            → AnswersTell store.old store.new self.entry.missing.now
            → found.items ≡ filter (is_picked self.entry.since) blocks) }
        ensures found { IfOk result (λ found. AreWalkedWhere (is_picked self.entry.since)
            store.old.spaces self.entry.node.now birth found.items) }
        ensures once { IfOk result (λ found. AreDistinct found.items) }
        ensures count { IfOk result (λ found. left.old ≡ left.new + indirect_count found.items) }
        ensures refused { IfErr result (IsWithinRefusedWhere (is_picked self.entry.since)
            store.old store.new self.entry.missing.now self.entry.node.now birth left.new) }
        ensures caused { IfErr result (IsCaused store.old store.new self.entry.missing.now) }
        ensures cause { IfErr result (λ refusal. refusal ≢ Refusal.NoSpace) }
        ensures known { IfErr result (λ refusal. (stored : Contents)
            (array : ℕ → Option (List ℕ)) (blocks : List Block) → Holds store.old stored
            → IsTree stored birth self.entry.node.now array blocks
            → AreDistinct (filter (is_picked self.entry.since) blocks)
            → indirect_count (filter (is_picked self.entry.since) blocks) ≤ left.old
            → AnswersTell store.old store.new self.entry.missing.now → IsForLoss refusal) }
    {
        let root = Subtree {
            level: self.node.levels() - 1,
            pointer: self.node.pointer,
            birth,
        };
        let mut found = Vec::new(alloc);
        self.collect_below(store, alloc, root, &mut found, left)?;
        let is_once = are_distinct(alloc, &found)?;
        if !is_once {
            return Err(Refusal::BadPointer);
        }
        Ok(found)
    }

    /// Adds all blocks of a part of the tree that are looked for.
    fn collect_below<D: Disk + Drop>(
        self,
        store: &mut BlockStore<D>,
        alloc: Global,
        part: Subtree,
        found: &mut Vec<Block>,
        left: &mut u64,
    ) -> Result<(), Refusal>
        ensures reads { OnlyReadsBlocks store.old store.new self.entry.missing.now }
        ensures fewer { left.new ≤ left.old }
        ensures blocks { OnOk result ((stored : Contents) (first : ℕ)
            (array : ℕ → Option (List ℕ)) (blocks : List Block) → Holds store.old stored
            → IsPart stored self.entry.node.now first part array blocks
            → AnswersTell store.old store.new self.entry.missing.now
            → found.new.items ≡ found.old.items ++ filter (is_picked self.entry.since) blocks) }
        ensures found { OnOk result ((blocks : List Block)
            × (found.new.items ≡ found.old.items ++ blocks)
            × IsWalkedWhere (is_picked self.entry.since) store.old.spaces
            (property_of self.entry.node.now) part.level part.birth
            (seen (is_picked self.entry.since) part.pointer) blocks) }
        ensures count { OnOk result (left.old + indirect_count found.old.items
            ≡ left.new + indirect_count found.new.items) }
        ensures refused { IfErr result (λ refusal. IsRefusedWhere (is_picked self.entry.since)
            store.old store.new self.entry.missing.now (property_of self.entry.node.now)
            (reached part.level part.pointer part.birth) refusal
            ⊎ ((refusal ≡ Refusal.BadPointer) × (left.new ≡ 0))) }
        ensures caused { IfErr result (IsCaused store.old store.new self.entry.missing.now) }
        ensures cause { IfErr result (λ refusal. refusal ≢ Refusal.NoSpace) }
        ensures known { IfErr result (λ refusal. (stored : Contents) (first : ℕ)
            (array : ℕ → Option (List ℕ)) (blocks : List Block) → Holds store.old stored
            → IsPart stored self.entry.node.now first part array blocks
            → indirect_count (filter (is_picked self.entry.since) blocks) ≤ left.old
            → AnswersTell store.old store.new self.entry.missing.now → IsForLoss refusal) }
    {
        let BlockPtr::Block(block) = part.pointer else {
            return Ok(());
        };
        if !self.looks_for(&block) {
            return Ok(());
        }
        push(found, block)?;
        let asked = asked_at(self.node, part.level, part.birth);
        if part.level == 0 {
            if !asks(&block, asked) {
                return Err(Refusal::BadPointer);
            }
            return Ok(());
        }
        if *left == 0 {
            return Err(Refusal::BadPointer);
        }
        *left -= 1;
        let children = read_indirect(store, alloc, &block, asked, self.missing)?;
        for pointer in children.pointers() {
            let child = Subtree {
                level: part.level - 1,
                pointer: *pointer,
                birth: block.birth,
            };
            self.collect_below(store, alloc, child, found, left)?;
        }
        Ok(())
    }

    /// Whether the block is looked for.
    fn looks_for(self, block: &Block) -> bool
        ensures { result ≡ is_picked self.entry.since block.now }
    {
        match self.since {
            Some(group) => group < block.birth,
            None => true,
        }
    }
}

/// Whether no block is there twice.
pub fn are_distinct(alloc: Global, blocks: &[Block]) -> Result<bool, AllocError>
    ensures { IfOk result (λ test. IsTrue test ↔ AreDistinct blocks.now) }
{
    let mut seen = HashSet::new(alloc);
    for block in blocks {
        let is_new = add(&mut seen, *block)?;
        if !is_new {
            return Ok(false);
        }
    }
    Ok(true)
}
