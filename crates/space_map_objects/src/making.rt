//! Space maps are made.
ghost use Rattle.std.specs.Prelude.{◌≡◌, ◌/◌, ◌^◌, ◌<◌, ◌++◌, ℕ, List, Some, None, length, IfOk, IfErr};
ghost use Rattle.objset.specs.Changes.{IsGoodChange, MayChange, after_change};
ghost use Rattle.objset.specs.Objects.{Object};
ghost use Rattle.object_table.specs.Ends.{IsEndOf};
ghost use Rattle.object_table.specs.Extended.{IsExtension};
ghost use Rattle.object_table.specs.Shape.{AreRows};
ghost use Rattle.object_table.specs.Tables.{IsOfKind, HasTable};
ghost use Rattle.space_map.specs.Condensed.{IsCondensed};
ghost use Rattle.space_map_objects.specs.Maps.{map_kind, HasCondensedMap};

use crate::kind::SPACE_MAP_KIND;
use crate::refusal::Refusal;
use object_table::TableEnd;
use objset::Change;
use space_map::{FreeSet, condense};
use std::alloc::Global;

/// A table has less than 2^46 bytes of rows.
const ROWS_END: usize = 1 << 46;

/// The change of an object set that makes the object of a free set's shortest map: `read_free_set` finds the set. `NoMemory`
/// is the only error, also where the map would have 2^46 bytes.
pub fn creation(alloc: Global, free: &FreeSet) -> Result<Change, Refusal>
    ensures good { IfOk result IsGoodChange }
    ensures made { IfOk result (λ change.
        HasCondensedMap (after_change change None) free.now) }
    ensures refused { IfErr result (λ refusal. refusal ≡ Refusal.NoMemory) }
{
    let rows = condensed(alloc, free)?;
    match object_table::creation(alloc, SPACE_MAP_KIND, &rows) {
        Ok(change) => Ok(change),
        Err(_) => Err(Refusal::NoMemory),
    }
}

/// The change of an object set that writes a map's object anew: it has the free set's shortest map. The object is there, with
/// the type and the blocks of a map's. `NoMemory` is the only error, as in `creation`.
pub fn replacement(alloc: Global, free: &FreeSet) -> Result<Change, Refusal>
    ensures good { IfOk result IsGoodChange }
    ensures may { IfOk result (λ change. (object : Object) → IsOfKind map_kind object
        → MayChange change (Some object)) }
    ensures made { IfOk result (λ change. (object : Object) → IsOfKind map_kind object
        → HasCondensedMap (after_change change (Some object)) free.now) }
    ensures refused { IfErr result (λ refusal. refusal ≡ Refusal.NoMemory) }
{
    let rows = condensed(alloc, free)?;
    match object_table::replacement(alloc, SPACE_MAP_KIND, &rows) {
        Ok(change) => Ok(change),
        Err(_) => Err(Refusal::NoMemory),
    }
}

/// The change of an object set that adds entries, as bytes of 8 each, behind those of a map, of which the end is known
/// (`read_map_end`): what the map leaves free then is what all its entries lead to. The first block of the map's object is
/// written, and the blocks from the one on in which the new entries begin. `NoMemory` is the only error, also where the map
/// would have 2^46 bytes or the end is that of no map.
pub fn extension(alloc: Global, end: &TableEnd, entries: &[u8]) -> Result<Change, Refusal>
    requires whole { AreRows map_kind.rows (length entries.now / 8) entries.now }
    requires some { 0 < length entries.now }
    ensures good { IfOk result IsGoodChange }
    ensures writes { IfOk result (IsExtension map_kind.rows end.now.rows) }
    ensures may { IfOk result (λ change. (object : Object) → IsOfKind map_kind object
        → MayChange change (Some object)) }
    ensures made { IfOk result (λ change. (object : Object) (bytes : List ℕ)
        → IsEndOf map_kind (Some object) bytes end.now
        → HasTable map_kind (after_change change (Some object)) (bytes ++ entries.now)) }
    ensures refused { IfErr result (λ refusal. refusal ≡ Refusal.NoMemory) }
{
    match object_table::extension(alloc, SPACE_MAP_KIND, end, entries) {
        Ok(change) => Ok(change),
        Err(_) => Err(Refusal::NoMemory),
    }
}

/// The rows of a free set's shortest map.
fn condensed(alloc: Global, free: &FreeSet) -> Result<Vec<u8>, Refusal>
    ensures map { IfOk result (λ rows. IsCondensed free.now rows.items) }
    ensures rows { IfOk result (λ rows.
        AreRows map_kind.rows (length rows.items / 8) rows.items) }
    ensures few { IfOk result (λ rows. length rows.items < 2 ^ 46) }
    ensures refused { IfErr result (λ refusal. refusal ≡ Refusal.NoMemory) }
{
    let rows = condense(alloc, free)?;
    if rows.len() >= ROWS_END {
        return Err(Refusal::NoMemory);
    }
    Ok(rows)
}
