//! Objects as plain arrays.
ghost use Rattle.std.specs.Prelude.{◌≡◌, ◌<◌, ◌^◌, All, length, IfOk};
ghost use Rattle.dnode.specs.Node.{FitsNode};
ghost use Rattle.dnode_tree.specs.Writes.{AreInOrder};

use crate::lines::{Bench, Call, wrong_lines};
use crate::stores::{COPIES, Store, block_text, blocks_text, new_store, store_plan};
use block_pointer::{Block, BlockPtr};
use dnode::{Dnode, ObjectNode};
use dnode_tree::{
    BlockWrite, Refusal, Rewrite, free_blocks, get, put_many, walk, walk_within, walk_younger,
};
use std::alloc::{AllocError, Global};
use std::test::Fail;

/// Object 0 has one place for a block of 512 bytes, which is a hole. `put` has an object and a group, the first id that the group
/// writes, how far each is behind the one before, and how many there are: it makes the next object, by number, of that one. Its
/// highest id and levels are told, and how many blocks gave way. `reads` has an object: whether it reads as a plain array that is
/// written alike, each block, and each fifth with any one disk missing. `without` has the disks that are missing for `get`, which
/// has an object and ids. `walk` has an object, `within` an object and how many blocks may be read, `younger` besides a group
/// since which blocks are sought, and `freed` the object before and the one after: which blocks only the first has.
const TREES: &[(&str, &str)] = &[
    // Thousands of blocks read as a plain array. The last write's are 500 blocks, the 28 indirect blocks above them and the root,
    // each once.
    (
        "put 0 1 0 1 1; reads 1; put 1 2 0 3 40; reads 2; put 2 3 1 1 4000; reads 3;
            put 3 4 5 7 500; reads 4; freed 4 3",
        "to 0, levels 1, 0 gave way; as the array: true; to 117, levels 2, 1 gave way; as the array: true;
            to 4000, levels 3, 40 gave way; as the array: true;
            to 4000, levels 3, 529 gave way; as the array: true; 529 blocks since 4",
    ),
    // An object grows and reads as it was written: a root, and below it for each of the two blocks two indirect blocks and the
    // block itself. A walk reads as many of the five blocks above the data as it may.
    (
        "put 0 1 0 20000 2; get 1 0 20000 1 20001; walk 1; within 1 9; within 1 5; within 1 4",
        "to 20000, levels 4, 0 gave way; 1*512 239*512 hole hole; 7 blocks since 1;
            the same 7 blocks since 1, 4 left; the same 7 blocks since 1, 0 left; BadPointer, 0 left",
    ),
    // The object before stays: the block 129, the two indirect blocks above the blocks written, and the root gave way.
    (
        "put 0 1 1 128 2; put 1 2 2 127 2; freed 1 2; get 1 129; without 1; get 1 129; without; get 2 129 1",
        "to 129, levels 3, 0 gave way; to 129, levels 3, 4 gave way; the same 4 blocks since 1;
            130*512; so; 130*512; so; 131*512 2*512",
    ),
    // What is younger than a group is found by reading nothing else. Of all, a root, and below it for each of the two blocks an
    // indirect block and the block itself. Of group 6, the root, the indirect block above 200, and 200.
    (
        "put 0 5 0 200 2; put 1 6 200 1 1; walk 2; younger 2 20 4; freed 2 1; younger 2 20 5; younger 2 20 6",
        "to 200, levels 3, 0 gave way; to 200, levels 3, 3 gave way; 5 blocks since 5;
            the same 5 blocks since 5, 17 left; 3 blocks since 6;
            the same 3 blocks since 6, 18 left; 0 blocks since 0, 20 left",
    ),
];

/// One past the greatest id of a block.
const MAX_BLOCKS: u64 = 1 << 35;

/// How many blocks are compared with the plain array.
const ARRAY_BLOCKS: usize = 4_001;

/// An object with one place for a block of 512 bytes, which is a hole.
const ONE_PLACE: ObjectNode = ObjectNode {
    object_type: 23,
    data_sectors: 1,
    highest: 0,
    pointer: BlockPtr::Hole,
};

/// An object by the group that made it and the bytes of its dnode.
#[derive(Clone, Copy)]
struct KeptNode {
    group: u64,
    bytes: [u8; 512],
}

#[derive(Drop)]
struct Trees {
    store: Store,
    kept: Vec<KeptNode>,
    /// What all bytes of each of the first blocks are, once they are written.
    array: Vec<Option<u8>>,
    found: Vec<Block>,
    missing: Vec<usize>,
}

/// Blocks by the first id, how far each is behind the one before, and their number.
type Places = (u64, u64, u64);

/// The blocks that a group writes at these places: each has bytes of one value, by its id and the group.
fn blocks_at(alloc: Global, places: Places, birth: u64) -> Result<Vec<BlockWrite>, AllocError>
    ensures ids { IfOk result (λ writes. All (λ write. write.id < 128 ^ 5) writes.items) }
    ensures order { IfOk result (λ writes. AreInOrder writes.items) }
    ensures whole { IfOk result
        (λ writes. All (λ write. length write.bytes.items ≡ 512) writes.items) }
{
    let (first, step, count) = places;
    let step = step.clamp(1, MAX_BLOCKS);
    let mut writes = Vec::new(alloc);
    let mut id = first;
    for _ in 0..count {
        if id >= MAX_BLOCKS {
            break;
        }
        let value = (id % 241) as u8 + (birth % 15) as u8;
        let bytes = vec![in alloc; value; 512]?;
        writes.push(BlockWrite { id, bytes })?;
        id += step;
    }
    Ok(writes)
}

/// An object and the group that made it.
fn node_at(kept: &[KeptNode], number: u64) -> Result<(ObjectNode, u64), Fail>
    ensures fits { IfOk result (λ found. FitsNode found.0) }
    ensures sectors { IfOk result (λ found. found.0.data_sectors ≡ 1) }
{
    if let Some(it) = kept.get(number as usize)
        && let Ok(Dnode::Object(node)) = Dnode::decode(&it.bytes)
        && node.data_sectors == 1
    {
        return Ok((node, it.group));
    }
    Err(Fail::new("no such object"))
}

/// The object with these blocks, once they are stored.
fn written(
    node: &ObjectNode,
    store: &mut Store,
    alloc: Global,
    writes: &[BlockWrite],
    birth: u64,
) -> Result<Rewrite, Refusal>
    requires node { FitsNode node.now }
    requires sectors { node.now.data_sectors ≡ 1 }
    requires ids { All (λ write. write.id < 128 ^ 5) writes.now }
    requires order { AreInOrder writes.now }
    requires whole { All (λ write. length write.bytes.items ≡ 512) writes.now }
    requires born { 0 < birth }
    ensures node { IfOk result (λ done. FitsNode done.node) }
{
    store.drop_plan(birth);
    let done = put_many(node, store, alloc, writes, birth, COPIES, &[])?;
    store_plan(store);
    Ok(done)
}

/// Whether the object reads as the array, with no disk missing and with any one of them, where one of five blocks is read.
fn reads_as(
    node: &ObjectNode,
    store: &mut Store,
    alloc: Global,
    array: &[Option<u8>],
    birth: u64,
) -> Result<bool, Refusal>
    requires { FitsNode node.now }
{
    for missing in [[].as_slice(), &[0], &[1], &[2]] {
        for (id, value) in array.iter().enumerate() {
            if missing.is_empty() || id % 5 == 0 {
                let block = get(node, store, alloc, id as u64, birth, missing)?;
                let same = match (block.as_deref(), value) {
                    (None, None) => true,
                    (Some(bytes), Some(value)) => {
                        bytes.len() == 512 && bytes.iter().all(|byte| byte == value)
                    }
                    _ => false,
                };
                if !same {
                    return Ok(false);
                }
            }
        }
    }
    Ok(true)
}

/// What blocks of an object are.
fn blocks_of(
    node: &ObjectNode,
    store: &mut Store,
    alloc: Global,
    ids: &[usize],
    birth: u64,
    missing: &[usize],
) -> Result<String, Fail>
    requires { FitsNode node.now }
{
    let mut text = String::new(alloc);
    for id in ids {
        let block = get(node, store, alloc, *id as u64, birth, missing);
        text.push_str(block_text(alloc, &block)?.as_str())?;
        text.push_str(" ")?;
    }
    Ok(text)
}

impl Trees {
    /// Puts blocks, in the array too.
    fn put(&mut self, alloc: Global, call: &Call, node: &ObjectNode) -> Result<String, Fail>
        requires node { FitsNode node.now }
        requires sectors { node.now.data_sectors ≡ 1 }
    {
        let group = call.number(1).max(1);
        let places = (call.number(2), call.number(3), call.number(4));
        let writes = blocks_at(alloc, places, group)?;
        for write in &writes {
            if let Some(value) = self.array.get_mut(write.id as usize) {
                *value = write.bytes.first().copied();
            }
        }
        let Rewrite { node, replaced } = written(node, &mut self.store, alloc, &writes, group)?;
        let bytes = Dnode::Object(node).encode();
        self.kept.push(KeptNode { group, bytes })?;
        self.found = replaced;
        let (highest, levels, gone) = (node.highest, node.levels(), self.found.len());
        Ok(format!(in alloc; "to {highest}, levels {levels}, {gone} gave way")?)
    }

    /// The blocks that are found of an object, which a group made.
    fn found(
        &mut self,
        alloc: Global,
        call: &Call,
        node: &ObjectNode,
        group: u64,
    ) -> Result<String, Fail>
        requires { FitsNode node.now }
    {
        let mut left = call.number(1);
        let store = &mut self.store;
        let blocks = match call.name {
            "freed" => {
                let (other, later) = node_at(&self.kept, left)?;
                free_blocks(node, &other, store, alloc, group.max(later), &[])
            }
            "within" => walk_within(node, store, alloc, group, &mut left, &[]),
            "younger" => walk_younger(node, store, alloc, group, call.number(2), &mut left, &[]),
            _ => walk(node, store, alloc, group, &[]),
        };
        blocks_text(alloc, call, blocks, left, &mut self.found)
    }
}

impl Bench for Trees {
    fn new(alloc: Global) -> Result<Trees, Fail> {
        let mut kept = Vec::new(alloc);
        let bytes = Dnode::Object(ONE_PLACE).encode();
        kept.push(KeptNode { group: 0, bytes })?;
        let array = vec![in alloc; None; ARRAY_BLOCKS]?;
        let (found, missing) = (Vec::new(alloc), Vec::new(alloc));
        let store = new_store(alloc, 0x100_0000)?;
        Ok(Trees {
            store,
            kept,
            array,
            found,
            missing,
        })
    }

    fn answer(&mut self, alloc: Global, call: &Call) -> Result<String, Fail> {
        if call.name == "without" {
            self.missing = call.numbers.clone()?;
            return Ok(format!(in alloc; "so")?);
        }
        let (node, group) = node_at(&self.kept, call.number(0))?;
        match call.name {
            "put" => self.put(alloc, call, &node),
            "reads" => {
                let same = reads_as(&node, &mut self.store, alloc, &self.array, group)?;
                Ok(format!(in alloc; "as the array: {same}")?)
            }
            "get" => {
                let ids = call.numbers.get(1..).unwrap_or(&[]);
                blocks_of(&node, &mut self.store, alloc, ids, group, &self.missing)
            }
            "freed" | "walk" | "within" | "younger" => self.found(alloc, call, &node, group),
            _ => Err(Fail::new(format_args!("no call {}", call.name))),
        }
    }
}

#[test]
fn objects_are_plain_arrays(rt: HostRuntime) -> Result<(), Fail> {
    let wrong = wrong_lines::<Trees, HostRuntime>(&rt, rt.alloc(), TREES)?;
    assert!(rt; wrong.is_empty(), "{wrong}");
    Ok(())
}
