//! The dnodes of one block.
ghost use Rattle.std.specs.Prelude.{◌≡◌, ◌≢◌, ◌↔◌, ◌/◌, ◌^◌, ◌<◌, ℕ, Some, All, AllPairs, IsTrue, IfOk, IfErr, length, replicate};
ghost use Rattle.dnode.specs.declared.dnode.Dnode.{Dnode};
ghost use Rattle.dnode.specs.Dnode.{FitsDnode, dnode_bytes};
ghost use Rattle.objset.specs.Nodes.{IsNodeIn, IsUnused, HasZeros, slot_of};
ghost use Rattle.objset.specs.NodeSlots.{HasSlots};
ghost use Rattle.objset.specs.NodeWrites.{written_nodes};

use crate::node_writes::NodeWrite;
use block_store::Refusal;
use dnode::Dnode;

/// How many bytes a dnode has.
const NODE_LEN: usize = 512;

/// How many dnodes stand in a block.
pub(crate) const NODES_A_BLOCK: u64 = 32;

/// How many bytes a block of dnodes has.
pub(crate) const BLOCK_LEN: usize = 16_384;

/// The dnode at a place of a block. `BadPointer` where its bytes spell none.
pub(crate) fn node_at(block: &[u8], place: usize) -> Result<Dnode, Refusal>
    requires size { length block.now ≡ 16384 }
    requires place { place < 32 }
    ensures found { IfOk result (IsNodeIn (Some block.now) place) }
    ensures only { (node : Dnode) → IsNodeIn (Some block.now) place node → result ≡ Ok node }
    ensures none { IfErr result (λ refusal. (node : Dnode)
        → ¬ IsNodeIn (Some block.now) place node) }
    ensures refused { IfErr result (λ refusal. refusal ≡ Refusal.BadPointer) }
{
    let at = NODE_LEN * place;
    let mut bytes = [0; NODE_LEN];
    bytes.copy_from_slice(&block[at..at + NODE_LEN]);
    match Dnode::decode(&bytes) {
        Ok(node) => Ok(node),
        Err(_) => Err(Refusal::BadPointer),
    }
}

/// Whether the block of that id has zeros where there is no object, of so many with object 0.
pub(crate) fn has_zeros(block: &[u8], id: u64, objects: u64) -> bool
    requires size { length block.now ≡ 16384 }
    requires id { id < 2 ^ 59 }
    ensures { IsTrue result ↔ HasZeros objects id block.now }
{
    for place in 0..NODES_A_BLOCK {
        if is_unused(NODES_A_BLOCK * id + place, objects) && !is_free(block, place as usize) {
            return false;
        }
    }
    true
}

/// Whether a number is one that has no object.
fn is_unused(number: u64, objects: u64) -> bool
    ensures { IsTrue result ↔ IsUnused objects number }
{
    number == 0 || number >= objects
}

/// Whether zeros stand at a place of a block.
fn is_free(block: &[u8], place: usize) -> bool
    requires size { length block.now ≡ 16384 }
    requires place { place < 32 }
    ensures { IsTrue result ↔ (slot_of block.now place ≡ replicate 512 0) }
{
    let at = NODE_LEN * place;
    is_zero(&block[at..at + NODE_LEN])
}

fn is_zero(bytes: &[u8]) -> bool
    ensures { IsTrue result ↔ (bytes.now ≡ replicate (length bytes.now) 0) }
{
    bytes.iter().all(|byte| *byte == 0)
}

/// Puts a dnode at a place of a block.
fn put_node(block: &mut [u8], place: usize, node: &Dnode)
    requires size { length block.old ≡ 16384 }
    requires place { place < 32 }
    requires fits { FitsDnode node.now }
    ensures here { slot_of block.new place ≡ dnode_bytes node.now }
    ensures others { (other : ℕ) → other ≢ place
        → slot_of block.new other ≡ slot_of block.old other }
{
    let at = NODE_LEN * place;
    block[at..at + NODE_LEN].copy_from_slice(&node.encode());
}

/// Puts dnodes of one block at their places.
pub(crate) fn put_nodes(block: &mut [u8], writes: &[NodeWrite])
    requires size { length block.old ≡ 16384 }
    requires order { AllPairs (λ write later. write.number < later.number) writes.now }
    requires fits { All (λ write. FitsDnode write.node) writes.now }
    ensures { (id : ℕ) (nodes : ℕ → Dnode) → All (λ write. write.number / 32 ≡ id) writes.now
        → HasSlots block.old id nodes
        → HasSlots block.new id (written_nodes writes.now nodes) }
{
    for write in writes {
        let place = (write.number % NODES_A_BLOCK) as usize;
        put_node(block, place, &write.node);
    }
}
