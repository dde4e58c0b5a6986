//! The pool's directory: which object a name names.
ghost use Rattle.std.specs.Prelude.{◌≡◌, ◌≢◌, ◌↔◌, ◌⊎◌, ◌^◌, ◌<◌, ◌≤◌, ◌++◌, ◌∷◌, [], ℕ, List, Some, None, length, take, slice_index_or, All, Contains, MatchOption, IsTrue, IfOk, IfErr, IfSome, IsOkAnd, IsErrOf, OnOk, OnErr};
ghost use Rattle.objset.specs.Changes.{IsGoodChange, MayChange, after_change};
ghost use Rattle.objset.specs.Objects.{Object};
ghost use Rattle.object_table.specs.Rows.{SpellsRows};
ghost use Rattle.object_table.specs.Tables.{IsOfKind};
ghost use Rattle.meta_objset.specs.declared.directory.DirectoryRow.{DirectoryRow};
ghost use Rattle.meta_objset.specs.Directory.{FitsRow, IsDirectory, IsPlacedAmong, LacksName, IsWith, IsWithout, SpellsRow, row_bytes, rows_bytes, SpellsDirectory};
ghost use Rattle.meta_objset.specs.Names.{IsName, IsBefore};
ghost use Rattle.meta_objset.specs.Reading.{directory_kind, HasDirectory};

use crate::names::{is_before, is_name};
use object_table::{Refusal, RowShape, TableKind};
use objset::Change;
use std::alloc::{AllocError, Global};
use std::marker::Model;
use words::{bytes_at, word_at};

/// A row of the directory.
#[derive(Clone, Copy, PartialEq, Eq)]
pub struct DirectoryRow {
    /// A name of 1 to 55 bytes that aren't zero, and zeros behind them.
    pub name: [u8; 56],
    /// The number of the object that has the name.
    pub object: u64,
}

/// How many bytes a row has.
const ROW_LEN: usize = 64;

pub(crate) const SHAPE: RowShape = RowShape {
    first_len: ROW_LEN,
    row_len: ROW_LEN,
};

pub(crate) const KIND: TableKind = TableKind {
    object_type: 200,
    rows: SHAPE,
};

impl DirectoryRow {
    /// Adds the one spelling of a row to bytes.
    fn push_to(&self, bytes: &mut Vec<u8>) -> Result<(), AllocError>
        ensures { OnOk result (bytes.new.items ≡ bytes.old.items ++ row_bytes self.now) }
    {
        bytes.extend_from_slice(&self.name)?;
        bytes.extend_from_slice(&self.object.to_le_bytes())?;
        Ok(())
    }

    /// The row that the bytes spell.
    fn from_bytes(bytes: &[u8; 64]) -> Result<DirectoryRow, Refusal>
        ensures found { IfOk result (SpellsRow bytes.now) }
        ensures only { (row : DirectoryRow) → SpellsRow bytes.now row → result ≡ Ok row }
        ensures refused { IfErr result (λ refusal. refusal ≡ Refusal.BadPointer) }
    {
        let name = bytes_at(bytes, 0);
        if !is_name(&name) {
            return Err(Refusal::BadPointer);
        }
        let object = word_at(bytes, 56);
        Ok(DirectoryRow { name, object })
    }
}

/// The row at the front of bytes, and the bytes after it.
fn first_row(bytes: &[u8]) -> Result<(DirectoryRow, &[u8]), Refusal>
    ensures fits { IfOk result (λ found. FitsRow found.0) }
    ensures found { IfOk result (λ found. bytes.now ≡ row_bytes found.0 ++ found.1.now) }
    ensures shorter { IfOk result (λ found. length found.1.now < length bytes.now) }
    ensures only { (row : DirectoryRow) (rest : List ℕ) → FitsRow row
        → bytes.now ≡ row_bytes row ++ rest
        → IsOkAnd result (λ found. (found.0 ≡ row) × (found.1.now ≡ rest)) }
    ensures refused { IfErr result (λ refusal. refusal ≡ Refusal.BadPointer) }
{
    let Some((first, rest)) = bytes.split_first_chunk::<64>() else {
        return Err(Refusal::BadPointer);
    };
    let row = DirectoryRow::from_bytes(first)?;
    Ok((row, rest))
}

/// Names and the objects that they name: the names ascend in byte order, so each is there once.
#[derive(Drop)]
pub struct Directory {
    rows: Vec<DirectoryRow>,
}

impl Model for Directory {
    ghost use Rattle.std.specs.Prelude.{List};
    ghost use Rattle.meta_objset.specs.declared.directory.DirectoryRow.{DirectoryRow};
    ghost use Rattle.meta_objset.specs.Directory.{IsDirectory};

    ghost Value = { List DirectoryRow };

    ghost view = { λ directory. directory.rows.items };

    ghost invariant = { λ directory. IsDirectory directory.rows.items };
}

impl Directory {
    /// A directory with no names.
    pub fn new(alloc: Global) -> Directory
        ensures { result ≡ [] }
    {
        Directory {
            rows: Vec::new(alloc),
        }
    }

    /// The same rows once more.
    pub fn copied(&self) -> Result<Directory, AllocError>
        ensures { IfOk result (λ copy. copy ≡ self.now) }
    {
        Ok(Directory {
            rows: self.rows.clone()?,
        })
    }

    /// The rows in the order of their names.
    pub fn rows(&self) -> &[DirectoryRow]
        ensures value { result.now ≡ self.now }
        ensures is { IsDirectory self.now }
    {
        let _ = &self.rows;
        self.rows.as_slice()
    }

    /// The number of the object that has a name, if one has. The name is padded as in a row.
    pub fn get(&self, name: &[u8; 56]) -> Option<u64>
        ensures found { IfSome result (λ object.
            Contains self.now (record { name = name.now; object = object })) }
        ensures none { result ≡ None → LacksName self.now name.now }
    {
        let at = place_of(&self.rows, name)?;
        Some(self.rows[at].object)
    }

    /// Adds a name, padded as in a row, and the number of its object. `false` where the name is there already; then nothing
    /// changes. Nothing changes on an error either.
    pub fn insert(&mut self, name: &[u8; 56], object: u64) -> Result<bool, AllocError>
        requires { IsName name.now }
        ensures added { IfOk result (λ added. IsTrue added → LacksName self.old name.now
            × IsWith self.old (record { name = name.now; object = object }) self.new) }
        ensures placed { IfOk result (λ added. IsTrue added
            → IsPlacedAmong self.old (record { name = name.now; object = object }) self.new) }
        ensures there { IfOk result (λ added. ¬ IsTrue added → (¬ LacksName self.old name.now)
            × (self.new ≡ self.old)) }
        ensures kept { IfErr result (λ _. self.new ≡ self.old) }
    {
        if self.get(name).is_some() {
            return Ok(false);
        }
        let at = count_before(&self.rows, name);
        let row = DirectoryRow {
            name: *name,
            object,
        };
        self.rows.insert(at, row)?;
        Ok(true)
    }

    /// Takes a name out, padded as in a row. The number of the object that had it, if one had.
    pub fn remove(&mut self, name: &[u8; 56]) -> Option<u64>
        ensures removed { IfSome result (λ object.
            Contains self.old (record { name = name.now; object = object })
            × IsWithout self.old name.now self.new) }
        ensures none { result ≡ None → LacksName self.old name.now × (self.new ≡ self.old) }
    {
        let at = place_of(&self.rows, name)?;
        let row = self.rows.remove(at);
        Some(row.object)
    }

    /// The directory whose rows the bytes of a table's rows spell.
    pub(crate) fn from_rows(alloc: Global, bytes: &[u8]) -> Result<Directory, Refusal>
        ensures found { IfOk result (λ rows. IsDirectory rows × (bytes.now ≡ rows_bytes rows)) }
        ensures only { (rows : List DirectoryRow) → IsDirectory rows → bytes.now ≡ rows_bytes rows
            → IfOk result (λ found. found ≡ rows) }
        ensures bad { IsErrOf result Refusal.BadPointer → (rows : List DirectoryRow)
            → IsDirectory rows
            → bytes.now ≢ rows_bytes rows }
    {
        let mut rows = Vec::new(alloc);
        let mut rest = bytes;
        while !rest.is_empty() {
            let (row, after) = first_row(rest)?;
            if !is_behind(&row, &rows) {
                return Err(Refusal::BadPointer);
            }
            rows.push(row)?;
            rest = after;
        }
        Ok(Directory { rows })
    }

    /// The directory that the bytes spell. `BadPointer` where they spell none: a name is out of order or there twice, has no
    /// zero behind it or other bytes behind a zero, or the bytes are no such table.
    pub fn decode(alloc: Global, bytes: &[u8]) -> Result<Directory, Refusal>
        // What is found is spelled so, each byte of it.
        ensures found { IfOk result (SpellsDirectory bytes.now) }
        // What is spelled so is found, while there is memory.
        ensures only { (rows : List DirectoryRow) → SpellsDirectory bytes.now rows
            → IfOk result (λ found. found ≡ rows) }
        ensures bad { IsErrOf result Refusal.BadPointer → (rows : List DirectoryRow)
            → ¬ SpellsDirectory bytes.now rows }
    {
        let rows = object_table::decode(alloc, SHAPE, bytes)?;
        Directory::from_rows(alloc, &rows)
    }

    /// The bytes of the rows, one after the other.
    fn to_rows(&self, alloc: Global) -> Result<Vec<u8>, AllocError>
        ensures { IfOk result (λ bytes. bytes.items ≡ rows_bytes self.now) }
    {
        let mut bytes = Vec::new(alloc);
        for row in self.rows.as_slice() {
            row.push_to(&mut bytes)?;
        }
        Ok(bytes)
    }

    /// The change of an object set that makes the object of a directory: `read_directory` finds it where its number is 1.
    /// `NoMemory` is its only error.
    pub fn creation(&self, alloc: Global) -> Result<Change, Refusal>
        requires { length self.now < 2 ^ 40 }
        ensures good { IfOk result IsGoodChange }
        ensures made { IfOk result (λ change. HasDirectory (after_change change None) self.now) }
        ensures refused { IfErr result (λ refusal. refusal ≡ Refusal.NoMemory) }
    {
        let _ = &self.rows;
        let rows = self.to_rows(alloc)?;
        object_table::creation(alloc, KIND, &rows)
    }

    /// The change of an object set that writes the object of a directory anew. The object is there, with the directory's type
    /// and blocks of 8 sectors. `NoMemory` is the only error.
    pub fn replacement(&self, alloc: Global) -> Result<Change, Refusal>
        requires { length self.now < 2 ^ 40 }
        ensures good { IfOk result IsGoodChange }
        ensures may { IfOk result (λ change. (object : Object) → IsOfKind directory_kind object
            → MayChange change (Some object)) }
        ensures made { IfOk result (λ change. (object : Object) → IsOfKind directory_kind object
            → HasDirectory (after_change change (Some object)) self.now) }
        ensures refused { IfErr result (λ refusal. refusal ≡ Refusal.NoMemory) }
    {
        let _ = &self.rows;
        let rows = self.to_rows(alloc)?;
        object_table::replacement(alloc, KIND, &rows)
    }

    /// The one spelling of a directory, in whole blocks.
    pub fn encode(&self, alloc: Global) -> Result<Vec<u8>, Refusal>
        requires { length self.now < 2 ^ 40 }
        ensures spells { IfOk result (λ bytes. SpellsDirectory bytes.items self.now) }
        ensures refused { IfErr result (λ refusal. refusal ≡ Refusal.NoMemory) }
    {
        let _ = &self.rows;
        let rows = self.to_rows(alloc)?;
        object_table::encode(alloc, SHAPE, &rows)
    }
}

/// How many rows have a name that stands before that one.
fn count_before(rows: &[DirectoryRow], name: &[u8]) -> usize
    requires { IsDirectory rows.now }
    ensures within { result ≤ length rows.now }
    ensures before { All (λ row. IsBefore row.name name.now) (take result rows.now) }
    ensures behind { (other : DirectoryRow) → result < length rows.now
        → ¬ IsBefore (slice_index_or rows.now result other).name name.now }
{
    rows.partition_point(|row| row.name.as_slice().cmp(name).is_lt())
}

/// The place of the row that has a name.
fn place_of(rows: &[DirectoryRow], name: &[u8; 56]) -> Option<usize>
    requires { IsDirectory rows.now }
    ensures { MatchOption result (LacksName rows.now name.now) (λ at. (at < length rows.now)
        × ((other : DirectoryRow) → (slice_index_or rows.now at other).name ≡ name.now)) }
{
    let at = count_before(rows, name);
    let Some(row) = rows.get(at) else {
        return None;
    };
    if row.name == *name { Some(at) } else { None }
}

/// Whether the name of a row stands behind those of the rows so far.
fn is_behind(row: &DirectoryRow, rows: &[DirectoryRow]) -> bool
    requires { IsDirectory rows.now }
    ensures { IsTrue result ↔ All (λ before. IsBefore before.name row.now.name) rows.now }
{
    match rows.last() {
        None => true,
        Some(last) => is_before(&last.name, &row.name),
    }
}
