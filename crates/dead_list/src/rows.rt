//! The rows of a dead list on disk, in this project's profile: a block pointer each, of 128 bytes, in any order.
ghost use Rattle.std.specs.Prelude.{◌≡◌, ◌⊎◌, ◌++◌, ◌∷◌, [], ℕ, List, All, IsPermutation, IsOkAnd, IfOk, IfErr, MatchResult};
ghost use Rattle.std.specs.List.{AllByRecursion};
ghost use Rattle.block_pointer.specs.declared.block.Block.{Block};
ghost use Rattle.block_pointer.specs.Block.{FitsBlock};
ghost use Rattle.dead_list.specs.Rows.{FitsRow, row, rows, SpellsRows, SpellsList, SpellsNoList};

use crate::list::DeadList;
use crate::refusal::Refusal;
use block_pointer::{Block, BlockPtr};
use std::alloc::{AllocError, Global};

impl DeadList {
    /// The rows of the list, with its blocks in some order.
    pub fn encode(&self, alloc: Global) -> Result<Vec<u8>, AllocError>
        requires { All FitsBlock self.now }
        ensures { IfOk result (λ bytes. SpellsList bytes.items self.now) }
    {
        rows_of(alloc, self.blocks.as_slice())
    }

    /// The list of rows. `BadPointer` where the bytes are none.
    pub fn decode(alloc: Global, bytes: &[u8]) -> Result<DeadList, Refusal>
        // What is found is spelled so, each byte of it.
        ensures found { IfOk result (SpellsList bytes.now) }
        // What is spelled so is found, while there is memory.
        ensures only { (blocks : List Block) → SpellsRows bytes.now blocks
            → MatchResult result (IsPermutation blocks) (λ refusal. refusal ≡ Refusal.NoMemory) }
        ensures refused { IfErr result (λ refusal. (refusal ≡ Refusal.NoMemory)
            ⊎ ((refusal ≡ Refusal.BadPointer) × SpellsNoList bytes.now)) }
    {
        let blocks = blocks_in(alloc, bytes)?;
        Ok(DeadList { blocks })
    }
}

fn rows_of(alloc: Global, blocks: &[Block]) -> Result<Vec<u8>, AllocError>
    requires { All FitsBlock blocks.now }
    ensures { IfOk result (λ bytes. SpellsRows bytes.items blocks.now) }
{
    let mut bytes = Vec::new(alloc);
    for block in blocks {
        bytes.extend_from_slice(&row_of(*block))?;
    }
    Ok(bytes)
}

fn row_of(block: Block) -> [u8; 128]
    requires { FitsBlock block }
    ensures row { result ≡ row block }
    ensures fits { FitsRow block }
{
    block_pointer::encode(&BlockPtr::Block(block))
}

/// The blocks of rows, in their order.
fn blocks_in(alloc: Global, bytes: &[u8]) -> Result<Vec<Block>, Refusal>
    ensures found { IfOk result (λ blocks. SpellsRows bytes.now blocks.items) }
    ensures only { (whole : List Block) → SpellsRows bytes.now whole
        → IfOk result (λ blocks. blocks.items ≡ whole) }
    ensures refused { IfErr result (λ refusal. (refusal ≡ Refusal.NoMemory)
        ⊎ ((refusal ≡ Refusal.BadPointer) × SpellsNoList bytes.now)) }
{
    let mut blocks = Vec::new(alloc);
    let mut rest = bytes;
    while !rest.is_empty() {
        let (block, after) = first_block(rest)?;
        push(&mut blocks, block)?;
        rest = after;
    }
    Ok(blocks)
}

fn push(blocks: &mut Vec<Block>, block: Block) -> Result<(), Refusal>
    ensures ok { IfOk result (λ _. blocks.new.items ≡ blocks.old.items ++ block ∷ []) }
    ensures refused { IfErr result (λ refusal. refusal ≡ Refusal.NoMemory) }
{
    blocks.push(block)?;
    Ok(())
}

/// The block of the first row, and the bytes after it.
fn first_block(bytes: &[u8]) -> Result<(Block, &[u8]), Refusal>
    ensures fits { IfOk result (λ found. FitsRow found.0) }
    ensures found { IfOk result (λ found. bytes.now ≡ row found.0 ++ found.1.now) }
    ensures only { (block : Block) (rest : List ℕ) → FitsRow block → bytes.now ≡ row block ++ rest
        → IsOkAnd result (λ found. (found.0 ≡ block) × (found.1.now ≡ rest)) }
    ensures refused { IfErr result (λ refusal. refusal ≡ Refusal.BadPointer) }
{
    let Some((first, rest)) = bytes.split_first_chunk::<128>() else {
        return Err(Refusal::BadPointer);
    };
    let Ok(BlockPtr::Block(block)) = block_pointer::decode(first) else {
        return Err(Refusal::BadPointer);
    };
    Ok((block, rest))
}
