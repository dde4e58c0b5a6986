ghost use Rattle.std.specs.Prelude.{◌≡◌, ◌<◌, ◌+◌, ◌*◌, length, IfOk, IfErr};
ghost use Rattle.uberblock_ring.specs.Uberblock.{Fits};
ghost use Rattle.uberblock_ring.specs.Slot.{front_bytes, slot_bytes, slot_number, SpellsSlot};

use crate::refusal::Refusal;
use crate::uberblock::Uberblock;
use block_pointer::BlockPtr;
use words::{bytes_at, check_seal, is_zero, put, put_words, seal, word_at, words_at};

/// How many bytes a slot has.
pub const SLOT_LEN: usize = 1024;

/// How many slots a label has.
pub const SLOTS: usize = 128;

/// Where the first slot of a label begins, in bytes from the label's start.
const RING_OFFSET: u64 = 131_072;

/// The slot of a group.
pub fn slot_of(group: u64) -> usize
    ensures { result ≡ slot_number group }
{
    (group % SLOTS as u64) as usize
}

/// Where the slot of a group begins, in bytes from the label's start.
pub fn slot_offset(group: u64) -> u64
    ensures { result ≡ 131072 + 1024 * slot_number group }
{
    nth_offset(slot_of(group))
}

/// Where a slot begins, in bytes from the label's start.
pub(crate) fn nth_offset(slot: usize) -> u64
    requires { slot < 128 }
    ensures { result ≡ 131072 + 1024 * slot }
{
    RING_OFFSET + (SLOT_LEN * slot) as u64
}

/// The one spelling of an uberblock.
pub fn encode_slot(uberblock: &Uberblock) -> [u8; 1024]
    requires { Fits uberblock.now }
    ensures { result ≡ slot_bytes uberblock.now }
{
    let mut bytes = [0; SLOT_LEN];
    put_words(&mut bytes, 0, &uberblock.head_words());
    put(
        &mut bytes,
        40,
        &block_pointer::encode(&BlockPtr::Block(uberblock.root)),
    );
    put(&mut bytes, 168, &uberblock.claim.to_le_bytes());
    put(&mut bytes, 176, &uberblock.config_digest);
    seal(&mut bytes);
    bytes
}

/// The uberblock that the bytes of a slot spell. They are judged alone: whether the claim and the
/// configuration are the pool's is for whoever opens it.
pub fn decode_slot(slot: usize, bytes: &[u8; 1024]) -> Result<Uberblock, Refusal>
    // What is found is spelled so, each byte of it.
    ensures found { IfOk result (SpellsSlot slot bytes.now) }
    // What is spelled so is found.
    ensures only { (u : Uberblock) → SpellsSlot slot bytes.now u → result ≡ Ok u }
    ensures refused { IfErr result (λ refusal. refusal ≡ Refusal.NoUberblock) }
{
    let Ok(front) = check_seal(bytes) else {
        return Err(Refusal::NoUberblock);
    };
    let uberblock = read_front(front)?;
    if slot_of(uberblock.group) != slot {
        return Err(Refusal::NoUberblock);
    }
    Ok(uberblock)
}

/// The uberblock that the bytes before a slot's seal spell.
fn read_front(front: &[u8]) -> Result<Uberblock, Refusal>
    requires { length front.now ≡ 984 }
    ensures found { IfOk result (λ u. Fits u × (front.now ≡ front_bytes u)) }
    ensures only { (u : Uberblock) → Fits u → front.now ≡ front_bytes u → result ≡ Ok u }
    ensures refused { IfErr result (λ refusal. refusal ≡ Refusal.NoUberblock) }
{
    let (_, rest) = front.split_at(208);
    if !is_zero(rest) {
        return Err(Refusal::NoUberblock);
    }
    let Ok(root) = block_pointer::decode(&bytes_at(front, 40)) else {
        return Err(Refusal::NoUberblock);
    };
    let head = words_at(front, 0);
    let claim = word_at(front, 168);
    Uberblock::from_fields(head, root, claim, bytes_at(front, 176))
}
