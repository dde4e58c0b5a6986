ghost use Rattle.std.specs.Prelude.{◌≡◌, ◌↔◌, ◌<◌, ◌^◌, IsTrue, IfOk, IfErr};
ghost use Rattle.dnode.specs.ObjectSet.{FitsObjectSet, SpellsObjectSet, IsObjectSet, IsSetRead, kind_word, object_set_bytes};

use crate::node::ObjectNode;
use crate::refusal::Refusal;
use words::{bytes_at, is_zero, put, put_words, words_at};

/// What the objects of a set are.
#[derive(Clone, Copy, PartialEq, Eq)]
pub enum ObjectSetKind {
    /// Those of the pool itself.
    Meta,
    /// Those of a block volume.
    Volume,
}

/// A set of objects, by the object whose data are their dnodes.
#[derive(Clone, Copy, PartialEq, Eq)]
pub struct ObjectSet {
    /// Of type 10, with data blocks of 32 sectors.
    pub dnodes: ObjectNode,
    pub kind: ObjectSetKind,
    /// How many dnodes there are: at least 1, since object 0 is counted and always free, and no more
    /// than the blocks up to the highest have places for, 32 in each.
    pub objects: u64,
}

const META: u64 = 1;

const VOLUME: u64 = 3;

/// The type of the object whose data are the dnodes.
const DNODES: u8 = 10;

const DNODES_SECTORS: u32 = 32;

/// How many dnodes a block of the dnodes has.
const DNODES_A_BLOCK: u64 = 32;

impl ObjectSetKind {
    fn to_word(self) -> u64
        ensures { result ≡ kind_word self }
    {
        match self {
            ObjectSetKind::Meta => META,
            ObjectSetKind::Volume => VOLUME,
        }
    }

    fn from_word(word: u64) -> Result<ObjectSetKind, Refusal>
        ensures found { IfOk result (λ kind. word ≡ kind_word kind) }
        ensures only { (kind : ObjectSetKind) → word ≡ kind_word kind → result ≡ Ok kind }
        ensures refused { IfErr result (λ refusal. refusal ≡ Refusal.BadPointer) }
    {
        match word {
            META => Ok(ObjectSetKind::Meta),
            VOLUME => Ok(ObjectSetKind::Volume),
            _ => Err(Refusal::BadPointer),
        }
    }
}

impl ObjectSet {
    fn is_object_set(&self) -> bool
        requires { self.now.dnodes.highest < 128 ^ 5 }
        ensures { IsTrue result ↔ IsObjectSet self.now }
    {
        self.dnodes.object_type == DNODES
            && self.dnodes.data_sectors == DNODES_SECTORS
            && self.objects > 0
            && self.objects <= DNODES_A_BLOCK * (self.dnodes.highest + 1)
    }

    /// The object set that these fields make.
    fn from_fields(dnodes: ObjectNode, words: [u64; 2]) -> Result<ObjectSet, Refusal>
        requires { dnodes.highest < 128 ^ 5 }
        ensures found { IfOk result (IsSetRead dnodes words) }
        ensures only { (s : ObjectSet) → IsSetRead dnodes words s → result ≡ Ok s }
        ensures refused { IfErr result (λ refusal. refusal ≡ Refusal.BadPointer) }
    {
        let set = ObjectSet {
            dnodes,
            kind: ObjectSetKind::from_word(words[0])?,
            objects: words[1],
        };
        if !set.is_object_set() {
            return Err(Refusal::BadPointer);
        }
        Ok(set)
    }

    /// The one spelling of an object set.
    pub fn encode(&self) -> [u8; 1024]
        requires { FitsObjectSet self.now }
        ensures { result ≡ object_set_bytes self.now }
    {
        let mut bytes = [0; 1024];
        put(&mut bytes, 0, &self.dnodes.to_bytes());
        put_words(&mut bytes, 512, &[self.kind.to_word(), self.objects]);
        bytes
    }

    /// The object set that the bytes spell. `BadPointer` where they spell none.
    pub fn decode(bytes: &[u8; 1024]) -> Result<ObjectSet, Refusal>
        // What is found is spelled so, each byte of it.
        ensures found { IfOk result (SpellsObjectSet bytes.now) }
        // What is spelled so is found.
        ensures only { (s : ObjectSet) → SpellsObjectSet bytes.now s → result ≡ Ok s }
        ensures refused { IfErr result (λ refusal. refusal ≡ Refusal.BadPointer) }
    {
        let (_, rest) = bytes.split_at(528);
        if !is_zero(rest) {
            return Err(Refusal::BadPointer);
        }
        let dnodes = ObjectNode::from_bytes(&bytes_at(bytes, 0))?;
        ObjectSet::from_fields(dnodes, words_at(bytes, 512))
    }
}
