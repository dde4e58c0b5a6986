ghost use Rattle.std.specs.Prelude.{◌≡◌, ◌↔◌, ℕ, ◌<◌, ◌≤◌, ◌^◌, List, ◌++◌, length, replicate, slice_set, slice_index_or, IfOk, IfErr, IsOkAnd, IsErrOf, IfSome, IsNone};
ghost use Rattle.block_pointer.specs.declared.pointer.BlockPtr.{BlockPtr};
ghost use Rattle.block_pointer.specs.declared.pointer.BlockPtr.TheVariants as pointers;
ghost use Rattle.block_pointer.specs.Pointer.{Fits, spelling};
ghost use Rattle.dnode.specs.Indirect.{FitsPointer, FitsIndirect, SpellsIndirect, indirect_bytes, fill_of, total_fill};

use crate::refusal::Refusal;
use block_pointer::BlockPtr;
use std::alloc::{AllocError, Global};
use std::marker::Model;

/// How many bytes an indirect block has.
pub const INDIRECT_LEN: usize = 16_384;

/// How many pointers an indirect block has.
pub const POINTERS: usize = 128;

/// The 128 pointers of an indirect block.
#[derive(Drop)]
pub struct Indirect {
    pointers: Vec<BlockPtr>,
}

impl Model for Indirect {
    ghost use Rattle.std.specs.Prelude.{List};
    ghost use Rattle.block_pointer.specs.declared.pointer.BlockPtr.{BlockPtr};
    ghost use Rattle.dnode.specs.Indirect.{FitsIndirect};

    ghost Value = { List BlockPtr };

    ghost view = { λ i. i.pointers.items };

    ghost invariant = { λ i. FitsIndirect i.pointers.items };
}

impl Indirect {
    /// The block of a tree's part that has holes alone.
    pub fn holes(alloc: Global) -> Result<Indirect, AllocError>
        ensures { IfOk result (λ block. block ≡ replicate 128 pointers.Hole) }
    {
        let pointers = vec![in alloc; BlockPtr::Hole; POINTERS]?;
        Ok(Indirect { pointers })
    }

    /// The pointers in the order of the blocks below.
    pub fn pointers(&self) -> &[BlockPtr]
        ensures value { result.now ≡ self.now }
        ensures fits { FitsIndirect self.now }
    {
        let _ = &self.pointers;
        self.pointers.as_slice()
    }

    /// The pointer at an index, the first at 0.
    pub fn get(&self, index: usize) -> BlockPtr
        requires { index < 128 }
        ensures value { result ≡ slice_index_or self.now index result }
        ensures fits { Fits result }
    {
        self.pointers[index]
    }

    /// Puts a pointer at an index.
    pub fn set(&mut self, index: usize, pointer: BlockPtr)
        requires index { index < 128 }
        requires fits { Fits pointer }
        ensures { self.new ≡ slice_set self.old index pointer }
    {
        self.pointers[index] = pointer;
    }

    /// How many data blocks below are no holes, by the fill counts of the pointers. `None` where that
    /// is 2^64 or more.
    pub fn fill(&self) -> Option<u64>
        ensures some { IfSome result (λ fill. fill ≡ total_fill self.now) }
        ensures none { IsNone result ↔ (2 ^ 64 ≤ total_fill self.now) }
    {
        let mut fill: u64 = 0;
        for pointer in self.pointers.as_slice() {
            fill = fill.checked_add(fill_of(pointer))?;
        }
        Some(fill)
    }

    /// The one spelling of the block, in 16,384 bytes.
    pub fn encode(&self, alloc: Global) -> Result<Vec<u8>, AllocError>
        ensures { IfOk result (λ bytes. SpellsIndirect bytes.items self.now) }
    {
        let mut bytes = Vec::with_capacity(alloc, INDIRECT_LEN)?;
        for pointer in self.pointers.as_slice() {
            bytes.extend_from_slice(&block_pointer::encode(pointer))?;
        }
        Ok(bytes)
    }

    /// The indirect block that the bytes spell. `BadPointer` where they spell none, also where they
    /// are not 16,384.
    pub fn decode(alloc: Global, bytes: &[u8]) -> Result<Indirect, Refusal>
        // What is found is spelled so, each byte of it.
        ensures found { IfOk result (SpellsIndirect bytes.now) }
        // What is spelled so is found, while there is memory.
        ensures only { (pointers : List BlockPtr) → SpellsIndirect bytes.now pointers
            → IfOk result (λ block. block ≡ pointers) }
        ensures bad { IsErrOf result Refusal.BadPointer → (pointers : List BlockPtr)
            → ¬ SpellsIndirect bytes.now pointers }
    {
        let mut pointers = Vec::with_capacity(alloc, POINTERS)?;
        let mut rest = bytes;
        for _ in 0..POINTERS {
            let (pointer, after) = first_pointer(rest)?;
            pointers.push(pointer)?;
            rest = after;
        }
        if !rest.is_empty() {
            return Err(Refusal::BadPointer);
        }
        Ok(Indirect { pointers })
    }
}

fn fill_of(pointer: &BlockPtr) -> u64
    ensures { result ≡ fill_of pointer.now }
{
    match pointer {
        BlockPtr::Hole => 0,
        BlockPtr::Block(block) => block.fill,
    }
}

/// The pointer at the front of bytes, and the bytes after it.
fn first_pointer(bytes: &[u8]) -> Result<(BlockPtr, &[u8]), Refusal>
    ensures fits { IfOk result (λ found. FitsPointer found.0) }
    ensures found { IfOk result (λ found. bytes.now ≡ spelling found.0 ++ found.1.now) }
    ensures only { (pointer : BlockPtr) (rest : List ℕ) → FitsPointer pointer
        → bytes.now ≡ spelling pointer ++ rest
        → IsOkAnd result (λ found. (found.0 ≡ pointer) × (found.1.now ≡ rest)) }
    ensures refused { IfErr result (λ refusal. refusal ≡ Refusal.BadPointer) }
{
    let Some((first, rest)) = bytes.split_first_chunk::<128>() else {
        return Err(Refusal::BadPointer);
    };
    let Ok(pointer) = block_pointer::decode(first) else {
        return Err(Refusal::BadPointer);
    };
    Ok((pointer, rest))
}
