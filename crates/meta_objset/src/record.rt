//! Records of datasets, in this project's profile: an object of type 201 with one block of one sector.
ghost use Rattle.std.specs.Prelude.{◌≡◌, ◌↔◌, ◌<◌, IsTrue, IfOk, IfErr};
ghost use Rattle.block_pointer.specs.declared.block.Block.{Block};
ghost use Rattle.block_pointer.specs.declared.pointer.BlockPtr.TheVariants as pointers;
ghost use Rattle.block_pointer.specs.Pointer.{Spells};
ghost use Rattle.meta_objset.specs.Record.{kind_word, is_block_size, IsNext, IsRecord, IsRecordRead, FitsRecord, SpellsRecord, record_words, record_bytes};

use block_pointer::{Block, BlockPtr};
use object_table::Refusal;
use words::{bytes_at, is_zero, put, put_words, words_at};

/// What a dataset is.
#[derive(Clone, Copy, PartialEq, Eq)]
pub enum DatasetKind {
    Volume,
    Snapshot,
}

/// A dataset, beside its data.
#[derive(Clone, Copy, PartialEq, Eq)]
pub struct DatasetRecord {
    pub kind: DatasetKind,
    /// In bytes: whole blocks, one at least, and at most 2^40 bytes.
    pub size: u64,
    /// In bytes: a power of two from 512 to 131,072.
    pub block_size: u64,
    /// The transaction group that the dataset was made in.
    pub created: u64,
    /// The number of the previous snapshot's object; 0 where there is none.
    pub previous: u64,
    /// The number of the object that comes next after a snapshot; a volume has 0.
    pub next: u64,
    /// How many clones a snapshot has.
    pub clones: u64,
    /// The number of the dead list's object.
    pub dead_list: u64,
    /// The block of the object set.
    pub object_set: Block,
}

const VOLUME: u64 = 1;

const SNAPSHOT: u64 = 2;

/// The most bytes that a dataset may have.
const MAX_SIZE: u64 = 1 << 40;

impl DatasetKind {
    fn to_word(self) -> u64
        ensures { result ≡ kind_word self }
    {
        match self {
            DatasetKind::Volume => VOLUME,
            DatasetKind::Snapshot => SNAPSHOT,
        }
    }

    fn from_word(word: u64) -> Result<DatasetKind, Refusal>
        ensures found { IfOk result (λ kind. word ≡ kind_word kind) }
        ensures only { (kind : DatasetKind) → word ≡ kind_word kind → result ≡ Ok kind }
        ensures refused { IfErr result (λ refusal. refusal ≡ Refusal.BadPointer) }
    {
        match word {
            VOLUME => Ok(DatasetKind::Volume),
            SNAPSHOT => Ok(DatasetKind::Snapshot),
            _ => Err(Refusal::BadPointer),
        }
    }

    /// Whether the number of an object may be that of the next one.
    fn may_have_next(self, next: u64) -> bool
        ensures { IsTrue result ↔ IsNext self next }
    {
        match self {
            DatasetKind::Volume => next == 0,
            DatasetKind::Snapshot => true,
        }
    }
}

fn is_size_of_block(size: u64) -> bool
    ensures is { result ≡ is_block_size size }
    ensures some { IsTrue result → 0 < size }
{
    matches!(
        size,
        512 | 1024 | 2048 | 4096 | 8192 | 16384 | 32768 | 65536 | 131072
    )
}

/// The block of the pointer that the bytes spell; `BadPointer` for a hole.
fn block_in(bytes: &[u8; 128]) -> Result<Block, Refusal>
    ensures found { IfOk result (λ block. Spells bytes.now (pointers.Block block)) }
    ensures only { (block : Block) → Spells bytes.now (pointers.Block block) → result ≡ Ok block }
    ensures refused { IfErr result (λ refusal. refusal ≡ Refusal.BadPointer) }
{
    let Ok(pointer) = block_pointer::decode(bytes) else {
        return Err(Refusal::BadPointer);
    };
    match pointer {
        BlockPtr::Block(block) => Ok(block),
        BlockPtr::Hole => Err(Refusal::BadPointer),
    }
}

impl DatasetRecord {
    fn is_record(&self) -> bool
        ensures { IsTrue result ↔ IsRecord self.now }
    {
        is_size_of_block(self.block_size)
            && self.size > 0
            && self.size <= MAX_SIZE
            && self.size % self.block_size == 0
            && self.kind.may_have_next(self.next)
    }

    /// The words in front of the pointer.
    fn to_words(&self) -> [u64; 16]
        ensures { result ≡ record_words self.now }
    {
        [
            self.kind.to_word(),
            self.size,
            self.block_size,
            self.created,
            self.previous,
            self.next,
            self.clones,
            self.dead_list,
            0,
            0,
            0,
            0,
            0,
            0,
            0,
            0,
        ]
    }

    /// The record that these fields make.
    fn from_fields(words: [u64; 16], object_set: Block) -> Result<DatasetRecord, Refusal>
        ensures found { IfOk result (IsRecordRead words object_set) }
        ensures only { (r : DatasetRecord) → IsRecordRead words object_set r → result ≡ Ok r }
        ensures refused { IfErr result (λ refusal. refusal ≡ Refusal.BadPointer) }
    {
        let record = DatasetRecord {
            kind: DatasetKind::from_word(words[0])?,
            size: words[1],
            block_size: words[2],
            created: words[3],
            previous: words[4],
            next: words[5],
            clones: words[6],
            dead_list: words[7],
            object_set,
        };
        if words != record.to_words() || !record.is_record() {
            return Err(Refusal::BadPointer);
        }
        Ok(record)
    }

    /// The one spelling of a record.
    pub fn encode(&self) -> [u8; 512]
        requires { FitsRecord self.now }
        ensures { result ≡ record_bytes self.now }
    {
        let mut bytes = [0; 512];
        let pointer = BlockPtr::Block(self.object_set);
        put_words(&mut bytes, 0, &self.to_words());
        put(&mut bytes, 128, &block_pointer::encode(&pointer));
        bytes
    }

    /// The record that the bytes spell. `BadPointer` where they spell none: the kind, the sizes, the next object or the
    /// pointer can't be a dataset's, or another byte isn't zero.
    pub fn decode(bytes: &[u8; 512]) -> Result<DatasetRecord, Refusal>
        // What is found is spelled so, each byte of it.
        ensures found { IfOk result (SpellsRecord bytes.now) }
        // What is spelled so is found.
        ensures only { (r : DatasetRecord) → SpellsRecord bytes.now r → result ≡ Ok r }
        ensures refused { IfErr result (λ refusal. refusal ≡ Refusal.BadPointer) }
    {
        let (_, rest) = bytes.split_at(256);
        if !is_zero(rest) {
            return Err(Refusal::BadPointer);
        }
        let object_set = block_in(&bytes_at(bytes, 128))?;
        DatasetRecord::from_fields(words_at(bytes, 0), object_set)
    }
}
