//! Which writes of a group lie where: an index by volume, and by piece of a volume.
ghost use Rattle.std.specs.Prelude.{◌≡◌, ◌↔◌, ℕ, ◌++◌, ◌-◌, ◌<◌, ◌≤◌, List, [], ◌∷◌, ◌==◌, ◌&&◌, length, take, nat_le, nat_lt, IfOk, OnOk, OnErr, if◌then◌else◌};
ghost use Rattle.pool_model.specs.declared.item.Write.{Write as AnyWrite};
ghost use Rattle.txg_pipeline.specs.Positions.{HasByteIn, Indexes, listed_at, listed_in, listed_of};

use pool_model::{Name, Write};
use std::alloc::{AllocError, Global};
use std::collections::HashMap;

/// A volume is indexed by pieces of so many bytes: a byte's piece is its offset divided by this.
pub const PIECE_BYTES: u64 = 131_072;

/// The writes to one volume, by their positions among the writes of the group.
#[derive(Drop)]
pub(crate) struct PieceIndex {
    all: Vec<usize>,
    pieces: HashMap<u64, Vec<usize>>,
}

/// For each name the writes to its volume.
#[derive(Drop)]
pub(crate) struct PlaceIndex {
    volumes: HashMap<Vec<u8>, PieceIndex>,
}

impl PlaceIndex {
    pub(crate) fn new(alloc: Global) -> PlaceIndex
        ensures { Indexes result [] }
    {
        PlaceIndex {
            volumes: HashMap::new(alloc),
        }
    }

    pub(crate) fn of(&self, name: &Name) -> &[usize]
        ensures { result.now ≡ listed_of self.now name.now }
    {
        match self.volumes.get(name.as_slice()) {
            Some(index) => index.all.as_slice(),
            None => &[],
        }
    }

    pub(crate) fn at(&self, name: &Name, piece: u64) -> &[usize]
        ensures { result.now ≡ listed_at self.now name.now piece }
    {
        match self.volumes.get(name.as_slice()) {
            Some(index) => list_of(&index.pieces, piece),
            None => &[],
        }
    }

    /// The write joins those that the index tells of, as the last one. At an `Err` the index tells what it told.
    pub(crate) fn add(
        &mut self,
        alloc: Global,
        write: &Write,
        position: usize,
    ) -> Result<(), AllocError>
        ensures ok { OnOk result ((writes : List AnyWrite) → position ≡ length writes →
            Indexes self.old writes → Indexes self.new (writes ++ write.now ∷ [])) }
        ensures err { OnErr result ((writes : List AnyWrite) →
            Indexes self.old writes → Indexes self.new writes) }
    {
        let (first, end) = pieces_of(write);
        if let Some(index) = self.volumes.get_mut(write.volume.as_slice()) {
            return index.add(alloc, position, first, end);
        }
        let index = first_of(alloc, position, first, end)?;
        let name = write.volume.copied(alloc)?;
        self.volumes.insert(name.into_vec(), index)?;
        Ok(())
    }
}

impl PieceIndex {
    /// The position joins all, and those of each piece from `first` on and before `end`.
    fn add(
        &mut self,
        alloc: Global,
        position: usize,
        first: u64,
        end: u64,
    ) -> Result<(), AllocError>
        ensures ok { OnOk result (self.new.all.items ≡ self.old.all.items ++ position ∷ []) }
        ensures pieces { OnOk result ((piece : ℕ) → listed_in self.new.pieces piece
            ≡ listed_in self.old.pieces piece
            ++ (if nat_le first piece && nat_lt piece end then position ∷ [] else [])) }
        ensures err { OnErr result (self.new.all.items ≡ self.old.all.items) }
        ensures err_pieces { OnErr result ((piece : ℕ) →
            listed_in self.new.pieces piece ≡ listed_in self.old.pieces piece) }
    {
        let reached = note(alloc, &mut self.pieces, position, first, end);
        if reached == end && self.all.push(position).is_ok() {
            return Ok(());
        }
        take_back(&mut self.pieces, first, reached);
        Err(AllocError)
    }
}

// The index of a volume that has this write alone.
fn first_of(alloc: Global, position: usize, first: u64, end: u64) -> Result<PieceIndex, AllocError>
    ensures all { IfOk result (λ index. index.all.items ≡ position ∷ []) }
    ensures pieces { IfOk result (λ index. (piece : ℕ) → listed_in index.pieces piece
        ≡ (if nat_le first piece && nat_lt piece end then position ∷ [] else [])) }
{
    let mut index = PieceIndex {
        all: Vec::new(alloc),
        pieces: HashMap::new(alloc),
    };
    index.add(alloc, position, first, end)?;
    Ok(index)
}

// The pieces that have a byte of the write: from the first number on, and before the second.
fn pieces_of(write: &Write) -> (u64, u64)
    ensures { (piece : ℕ) → HasByteIn piece write.now
        ↔ (result.0 ≤ piece) × (piece < result.1) }
{
    let first = write.offset / PIECE_BYTES;
    let len = write.bytes.len() as u64;
    if len == 0 {
        return (first, first);
    }
    // The end of the write may lie past the last number, and the number of its last piece can't.
    let behind = len - 1;
    let carried = (write.offset % PIECE_BYTES + behind % PIECE_BYTES) / PIECE_BYTES;
    (first, first + behind / PIECE_BYTES + carried + 1)
}

fn list_of(pieces: &HashMap<u64, Vec<usize>>, piece: u64) -> &[usize]
    ensures { result.now ≡ listed_in pieces.now piece }
{
    match pieces.get(&piece) {
        Some(list) => list.as_slice(),
        None => &[],
    }
}

// The position joins those of each piece from `first` on and before the result, which is `end` where memory suffices.
fn note(
    alloc: Global,
    pieces: &mut HashMap<u64, Vec<usize>>,
    position: usize,
    first: u64,
    end: u64,
) -> u64
    ensures { (piece : ℕ) → listed_in pieces.new piece ≡ listed_in pieces.old piece
        ++ (if nat_le first piece && nat_lt piece result then position ∷ [] else []) }
{
    for piece in first..end {
        if !push_to(alloc, pieces, piece, position) {
            return piece;
        }
    }
    end
}

// Each piece from `first` on and before `end` loses its last position.
fn take_back(pieces: &mut HashMap<u64, Vec<usize>>, first: u64, end: u64)
    ensures { (piece : ℕ) → listed_in pieces.new piece
        ≡ (if nat_le first piece && nat_lt piece end
        then take (length (listed_in pieces.old piece) - 1) (listed_in pieces.old piece)
        else listed_in pieces.old piece) }
{
    for piece in first..end {
        pop_from(pieces, piece);
    }
}

// Whether memory sufficed for the position to join those of the piece.
fn push_to(
    alloc: Global,
    pieces: &mut HashMap<u64, Vec<usize>>,
    piece: u64,
    position: usize,
) -> bool
    ensures { (other : ℕ) → listed_in pieces.new other ≡ listed_in pieces.old other
        ++ (if result && piece == other then position ∷ [] else []) }
{
    if let Some(list) = pieces.get_mut(&piece) {
        return list.push(position).is_ok();
    }
    let mut list = Vec::new(alloc);
    list.push(position).is_ok() && pieces.insert(piece, list).is_ok()
}

fn pop_from(pieces: &mut HashMap<u64, Vec<usize>>, piece: u64)
    ensures { (other : ℕ) → listed_in pieces.new other ≡ (if piece == other
        then take (length (listed_in pieces.old other) - 1) (listed_in pieces.old other)
        else listed_in pieces.old other) }
{
    if let Some(list) = pieces.get_mut(&piece) {
        list.pop();
    }
}
