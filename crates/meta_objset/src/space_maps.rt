//! The pool's space maps: which object has the space map of each metaslab.
ghost use Rattle.std.specs.Prelude.{◌≡◌, ◌≢◌, ◌↔◌, ◌^◌, ◌<◌, ◌≤◌, ◌++◌, [], ℕ, List, Some, None, length, take, slice_index_or, All, Contains, MatchOption, IsTrue, IfOk, IfErr, IfSome, IsOkAnd, IsErrOf, OnOk};
ghost use Rattle.objset.specs.Changes.{IsGoodChange, MayChange, after_change};
ghost use Rattle.objset.specs.Objects.{Object};
ghost use Rattle.object_table.specs.Tables.{IsOfKind};
ghost use Rattle.meta_objset.specs.declared.space_maps.MetaslabMap.{MetaslabMap};
ghost use Rattle.meta_objset.specs.declared.space_maps.MetaslabPlace.{MetaslabPlace};
ghost use Rattle.meta_objset.specs.SpaceMaps.{AreSpaceMaps, FitsMap, IsEarlier, IsWithMap, IsWithoutMetaslab, LacksMetaslab, SpellsMaps, map_bytes, map_words, maps_bytes, maps_kind};
ghost use Rattle.meta_objset.specs.Reading.{HasSpaceMaps};

use crate::word_rows::{SHAPE, first_words, push_words};
use object_table::{Refusal, TableKind};
use objset::Change;
use std::alloc::{AllocError, Global};
use std::marker::Model;

/// Where a metaslab stands.
#[derive(Clone, Copy, PartialEq, Eq)]
pub struct MetaslabPlace {
    /// The number of its vdev.
    pub vdev: u64,
    /// Its number in the vdev.
    pub index: u64,
}

/// The space map of a metaslab.
#[derive(Clone, Copy, PartialEq, Eq)]
pub struct MetaslabMap {
    /// The metaslab.
    pub metaslab: MetaslabPlace,
    /// The number of the object that has its space map.
    pub object: u64,
}

/// The table's kind.
pub const SPACE_MAPS_KIND: TableKind = TableKind {
    object_type: 205,
    rows: SHAPE,
};

impl MetaslabMap {
    /// The words of the row.
    fn to_words(&self) -> [u64; 4]
        ensures { result ≡ map_words self.now }
    {
        [self.metaslab.vdev, self.metaslab.index, self.object, 0]
    }

    /// The row that the words spell.
    fn from_words(words: [u64; 4]) -> Result<MetaslabMap, Refusal>
        ensures found { IfOk result (λ map. words ≡ map_words map) }
        ensures only { (map : MetaslabMap) → words ≡ map_words map → result ≡ Ok map }
        ensures refused { IfErr result (λ refusal. refusal ≡ Refusal.BadPointer) }
    {
        let map = MetaslabMap {
            metaslab: MetaslabPlace {
                vdev: words[0],
                index: words[1],
            },
            object: words[2],
        };
        if words != map.to_words() {
            return Err(Refusal::BadPointer);
        }
        Ok(map)
    }
}

/// The row at the front of bytes, and the bytes after it.
fn first_map(bytes: &[u8]) -> Result<(MetaslabMap, &[u8]), Refusal>
    ensures fits { IfOk result (λ found. FitsMap found.0) }
    ensures found { IfOk result (λ found. bytes.now ≡ map_bytes found.0 ++ found.1.now) }
    ensures shorter { IfOk result (λ found. length found.1.now < length bytes.now) }
    ensures only { (map : MetaslabMap) (rest : List ℕ) → FitsMap map
        → bytes.now ≡ map_bytes map ++ rest
        → IsOkAnd result (λ found. (found.0 ≡ map) × (found.1.now ≡ rest)) }
    ensures refused { IfErr result (λ refusal. refusal ≡ Refusal.BadPointer) }
{
    let (words, rest) = first_words(bytes)?;
    let map = MetaslabMap::from_words(words)?;
    Ok((map, rest))
}

/// The space maps of metaslabs: the metaslabs ascend by vdev and index, so each is there once.
#[derive(Drop)]
pub struct SpaceMaps {
    rows: Vec<MetaslabMap>,
}

impl Model for SpaceMaps {
    ghost use Rattle.std.specs.Prelude.{List};
    ghost use Rattle.meta_objset.specs.declared.space_maps.MetaslabMap.{MetaslabMap};
    ghost use Rattle.meta_objset.specs.SpaceMaps.{AreSpaceMaps};

    ghost Value = { List MetaslabMap };

    ghost view = { λ maps. maps.rows.items };

    ghost invariant = { λ maps. AreSpaceMaps maps.rows.items };
}

impl SpaceMaps {
    /// No metaslab has a space map.
    pub fn new(alloc: Global) -> SpaceMaps
        ensures { result ≡ [] }
    {
        SpaceMaps {
            rows: Vec::new(alloc),
        }
    }

    /// The rows in the order of their metaslabs.
    pub fn rows(&self) -> &[MetaslabMap]
        ensures value { result.now ≡ self.now }
        ensures is { AreSpaceMaps self.now }
    {
        let _ = &self.rows;
        self.rows.as_slice()
    }

    /// The row of a metaslab, if it has one.
    pub fn get(&self, metaslab: MetaslabPlace) -> Option<MetaslabMap>
        ensures found { IfSome result (λ map. Contains self.now map
            × (map.metaslab ≡ metaslab)) }
        ensures none { result ≡ None → LacksMetaslab self.now metaslab }
    {
        let map = self.rows.iter().find(|map| map.metaslab == metaslab)?;
        Some(*map)
    }

    /// Gives a metaslab its row, in place of the one that it may have. Nothing changes on an error.
    pub fn set(&mut self, map: MetaslabMap) -> Result<(), AllocError>
        ensures set { OnOk result (IsWithMap self.old map self.new) }
        ensures order { AreSpaceMaps self.new }
        ensures kept { IfErr result (λ _. self.new ≡ self.old) }
    {
        if let Some(at) = place_of(&self.rows, map.metaslab) {
            self.rows[at] = map;
            return Ok(());
        }
        let at = count_before(&self.rows, map.metaslab);
        self.rows.insert(at, map)?;
        Ok(())
    }

    /// Takes out the row of a metaslab, if it has one.
    pub fn remove(&mut self, metaslab: MetaslabPlace) -> Option<MetaslabMap>
        ensures removed { IfSome result (λ map. Contains self.old map
            × (map.metaslab ≡ metaslab) × IsWithoutMetaslab self.old metaslab self.new) }
        ensures none { result ≡ None → LacksMetaslab self.old metaslab × (self.new ≡ self.old) }
        ensures order { AreSpaceMaps self.new }
    {
        let at = place_of(&self.rows, metaslab)?;
        let map = self.rows.remove(at);
        Some(map)
    }

    /// The space maps that the bytes of a table's rows spell.
    pub(crate) fn from_rows(alloc: Global, bytes: &[u8]) -> Result<SpaceMaps, Refusal>
        ensures found { IfOk result (λ maps. AreSpaceMaps maps × (bytes.now ≡ maps_bytes maps)) }
        ensures only { (maps : List MetaslabMap) → AreSpaceMaps maps → bytes.now ≡ maps_bytes maps
            → IfOk result (λ found. found ≡ maps) }
        ensures bad { IsErrOf result Refusal.BadPointer → (maps : List MetaslabMap)
            → AreSpaceMaps maps
            → bytes.now ≢ maps_bytes maps }
    {
        let mut rows = Vec::new(alloc);
        let mut rest = bytes;
        while !rest.is_empty() {
            let (map, after) = first_map(rest)?;
            if !is_behind(&map, &rows) {
                return Err(Refusal::BadPointer);
            }
            rows.push(map)?;
            rest = after;
        }
        Ok(SpaceMaps { rows })
    }

    /// The space maps that the bytes spell. `BadPointer` where they spell none: a metaslab is out of order or there twice, a
    /// row's last word isn't zero, or the bytes are no such table. Which objects are named is not judged here.
    pub fn decode(alloc: Global, bytes: &[u8]) -> Result<SpaceMaps, Refusal>
        // What is found is spelled so, each byte of it.
        ensures found { IfOk result (SpellsMaps bytes.now) }
        // What is spelled so is found, while there is memory.
        ensures only { (maps : List MetaslabMap) → SpellsMaps bytes.now maps
            → IfOk result (λ found. found ≡ maps) }
        ensures bad { IsErrOf result Refusal.BadPointer → (maps : List MetaslabMap)
            → ¬ SpellsMaps bytes.now maps }
    {
        let rows = object_table::decode(alloc, SHAPE, bytes)?;
        SpaceMaps::from_rows(alloc, &rows)
    }

    /// The bytes of the rows, one after the other.
    fn to_rows(&self, alloc: Global) -> Result<Vec<u8>, AllocError>
        ensures { IfOk result (λ bytes. bytes.items ≡ maps_bytes self.now) }
    {
        let mut bytes = Vec::new(alloc);
        for map in self.rows.as_slice() {
            push_words(&mut bytes, &map.to_words())?;
        }
        Ok(bytes)
    }

    /// The change of an object set that makes the object of the maps: `read_space_maps` finds them where its number is 4.
    /// `NoMemory` is its only error.
    pub fn creation(&self, alloc: Global) -> Result<Change, Refusal>
        requires { length self.now < 2 ^ 40 }
        ensures good { IfOk result IsGoodChange }
        ensures made { IfOk result (λ change. HasSpaceMaps (after_change change None) self.now) }
        ensures refused { IfErr result (λ refusal. refusal ≡ Refusal.NoMemory) }
    {
        let _ = &self.rows;
        let rows = self.to_rows(alloc)?;
        object_table::creation(alloc, SPACE_MAPS_KIND, &rows)
    }

    /// The change of an object set that writes the object of the maps anew. The object is there, with the maps' type and
    /// blocks of 8 sectors. `NoMemory` is the only error.
    pub fn replacement(&self, alloc: Global) -> Result<Change, Refusal>
        requires { length self.now < 2 ^ 40 }
        ensures good { IfOk result IsGoodChange }
        ensures may { IfOk result (λ change. (object : Object) → IsOfKind maps_kind object
            → MayChange change (Some object)) }
        ensures made { IfOk result (λ change. (object : Object) → IsOfKind maps_kind object
            → HasSpaceMaps (after_change change (Some object)) self.now) }
        ensures refused { IfErr result (λ refusal. refusal ≡ Refusal.NoMemory) }
    {
        let _ = &self.rows;
        let rows = self.to_rows(alloc)?;
        object_table::replacement(alloc, SPACE_MAPS_KIND, &rows)
    }

    /// The one spelling of the maps, in whole blocks.
    pub fn encode(&self, alloc: Global) -> Result<Vec<u8>, Refusal>
        requires { length self.now < 2 ^ 40 }
        ensures spells { IfOk result (λ bytes. SpellsMaps bytes.items self.now) }
        ensures refused { IfErr result (λ refusal. refusal ≡ Refusal.NoMemory) }
    {
        let _ = &self.rows;
        let rows = self.to_rows(alloc)?;
        object_table::encode(alloc, SHAPE, &rows)
    }
}

/// Whether a metaslab stands before another: in a vdev before, or before in the same one.
fn is_earlier(place: MetaslabPlace, later: MetaslabPlace) -> bool
    ensures { IsTrue result ↔ IsEarlier place later }
{
    place.vdev < later.vdev || place.vdev == later.vdev && place.index < later.index
}

/// How many rows are of metaslabs in front of that one.
fn count_before(maps: &[MetaslabMap], metaslab: MetaslabPlace) -> usize
    ensures within { result ≤ length maps.now }
    ensures before { All (λ map. IsEarlier map.metaslab metaslab) (take result maps.now) }
    ensures behind { (other : MetaslabMap) → result < length maps.now
        → ¬ IsEarlier (slice_index_or maps.now result other).metaslab metaslab }
{
    for (i, map) in maps.iter().enumerate() {
        if !is_earlier(map.metaslab, metaslab) {
            return i;
        }
    }
    maps.len()
}

/// The place of the first row of a metaslab.
fn place_of(maps: &[MetaslabMap], metaslab: MetaslabPlace) -> Option<usize>
    ensures { MatchOption result (LacksMetaslab maps.now metaslab) (λ at. (at < length maps.now)
        × ((other : MetaslabMap) → (slice_index_or maps.now at other).metaslab ≡ metaslab)) }
{
    maps.iter().position(|map| map.metaslab == metaslab)
}

/// Whether the metaslab of a row stands behind those of the rows so far.
fn is_behind(map: &MetaslabMap, maps: &[MetaslabMap]) -> bool
    requires { AreSpaceMaps maps.now }
    ensures { IsTrue result ↔ All (λ before. IsEarlier before.metaslab map.now.metaslab) maps.now }
{
    match maps.last() {
        None => true,
        Some(last) => is_earlier(last.metaslab, map.metaslab),
    }
}
