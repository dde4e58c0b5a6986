//! A dead list in memory.
ghost use Rattle.std.specs.Prelude.{◌≡◌, ◌<◌, ◌≤◌, ◌↔◌, ◌++◌, ◌∷◌, [], All, IsPermutation, IsTrue, IfOk, OnOk, OnErr, length};

use crate::splitting::take_after;
use block_pointer::Block;
use std::alloc::{AllocError, Global};
use std::marker::Model;

/// Dead blocks, in an order that says nothing: what a contract tells of two lists it tells up to their order.
/// A block may be there more than once. It stands for a dead list of a dataset or a snapshot (ZFS On-Disk
/// Specification 2006, `ds_deadlist_obj`); births are numbers of transaction groups.
///
/// The one error is that memory is short. It leaves each list with the blocks that it had.
#[derive(Drop)]
pub struct DeadList {
    pub(crate) blocks: Vec<Block>,
}

impl Model for DeadList {
    ghost use Rattle.std.specs.Prelude.{List};
    ghost use Rattle.block_pointer.specs.declared.block.Block.{Block};

    ghost Value = { List Block };

    ghost view = { λ list. list.blocks.items };
}

impl DeadList {
    /// No dead blocks.
    pub fn new(alloc: Global) -> DeadList
        ensures { result ≡ [] }
    {
        DeadList {
            blocks: Vec::new(alloc),
        }
    }

    /// How many blocks there are, each as often as it is there.
    pub fn len(&self) -> usize
        ensures { result ≡ length self.now }
    {
        self.blocks.len()
    }

    pub fn is_empty(&self) -> bool
        ensures { IsTrue result ↔ (self.now ≡ []) }
    {
        self.blocks.is_empty()
    }

    /// One more dead block, whenever it was born.
    pub fn push(&mut self, block: Block) -> Result<(), AllocError>
        ensures ok { OnOk result (IsPermutation (block ∷ self.old) self.new) }
        ensures err { OnErr result (IsPermutation self.old self.new) }
    {
        self.blocks.push(block)?;
        Ok(())
    }

    /// The blocks of another list join this one, and the other is left empty.
    pub fn merge(&mut self, other: &mut DeadList) -> Result<(), AllocError>
        ensures ok { OnOk result (IsPermutation (self.old ++ other.old) self.new) }
        ensures left { OnOk result (other.new ≡ []) }
        ensures err { OnErr result (IsPermutation self.old self.new) }
        ensures err_other { OnErr result (IsPermutation other.old other.new) }
    {
        self.blocks.append(&mut other.blocks)
    }

    /// Parts the list: the blocks that were born after a group are handed out, and those that were born in it
    /// or before stay.
    pub fn split_at(&mut self, alloc: Global, group: u64) -> Result<DeadList, AllocError>
        ensures parts { IfOk result (λ after. IsPermutation self.old (after ++ self.new)) }
        ensures after { IfOk result (All (λ block. group < block.birth)) }
        ensures until { OnOk result (All (λ block. block.birth ≤ group) self.new) }
        ensures err { OnErr result (IsPermutation self.old self.new) }
    {
        let blocks = take_after(alloc, &mut self.blocks, group)?;
        Ok(DeadList { blocks })
    }

    /// The blocks, in some order.
    pub fn into_blocks(self) -> Result<Vec<Block>, AllocError>
        ensures { IfOk result (λ blocks. IsPermutation self blocks.items) }
    {
        let DeadList { blocks } = self;
        Ok(blocks)
    }
}
