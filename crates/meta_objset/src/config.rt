//! The pool's configuration as a table: its rows are the bytes of a label's `vdev_tree` list.
ghost use Rattle.std.specs.Prelude.{◌≡◌, ◌^◌, ◌<◌, List, Some, None, length, IfOk, IfErr, IsErrOf};
ghost use Rattle.vdev_label.specs.Config.{FitsConfig, SpellsConfig, config_bytes};
ghost use Rattle.vdev_label.specs.Plain.{PlainVdev, config_view};
ghost use Rattle.meta_objset.specs.Config.{SpellsConfigTable};
ghost use Rattle.meta_objset.specs.Reading.{config_kind, HasConfig};
ghost use Rattle.objset.specs.Changes.{IsGoodChange, MayChange, after_change};
ghost use Rattle.objset.specs.Objects.{Object};
ghost use Rattle.object_table.specs.Tables.{IsOfKind};

use object_table::{Refusal, RowShape, TableKind};
use objset::Change;
use std::alloc::Global;
use vdev_label::Config;

pub(crate) const SHAPE: RowShape = RowShape {
    first_len: 8,
    row_len: 1,
};

pub(crate) const KIND: TableKind = TableKind {
    object_type: 203,
    rows: SHAPE,
};

/// The one spelling of a configuration's table, in whole blocks.
pub fn encode_config(alloc: Global, config: &Config) -> Result<Vec<u8>, Refusal>
    requires fits { FitsConfig (config_view config.now) }
    requires few { length (config_bytes (config_view config.now)) < 2 ^ 47 }
    ensures spells { IfOk result (λ bytes. SpellsConfigTable bytes.items (config_view config.now)) }
    ensures refused { IfErr result (λ refusal. refusal ≡ Refusal.NoMemory) }
{
    let rows = config.encode(alloc)?;
    object_table::encode(alloc, SHAPE, &rows)
}

/// The configuration that the rows encode.
pub(crate) fn config_in(alloc: Global, rows: &[u8]) -> Result<Config, Refusal>
    ensures found { IfOk result (λ config. SpellsConfig rows.now (config_view config)) }
    ensures only { (vdevs : List PlainVdev) → SpellsConfig rows.now vdevs
        → IfOk result (λ config. config_view config ≡ vdevs) }
    ensures bad { IsErrOf result Refusal.BadPointer → (vdevs : List PlainVdev)
        → ¬ SpellsConfig rows.now vdevs }
{
    match Config::decode(alloc, rows) {
        Ok(config) => Ok(config),
        Err(vdev_label::Refusal::NoMemory) => Err(Refusal::NoMemory),
        Err(_) => Err(Refusal::BadPointer),
    }
}

/// The configuration that the bytes of a table spell. What its values are is not judged here. `BadPointer` where they spell
/// none.
pub fn decode_config(alloc: Global, bytes: &[u8]) -> Result<Config, Refusal>
    // What is found is spelled so, each byte of it.
    ensures found { IfOk result (λ config. SpellsConfigTable bytes.now (config_view config)) }
    // What is spelled so is found, while there is memory.
    ensures only { (vdevs : List PlainVdev) → SpellsConfigTable bytes.now vdevs
        → IfOk result (λ config. config_view config ≡ vdevs) }
    ensures bad { IsErrOf result Refusal.BadPointer → (vdevs : List PlainVdev)
        → ¬ SpellsConfigTable bytes.now vdevs }
{
    let rows = object_table::decode(alloc, SHAPE, bytes)?;
    config_in(alloc, &rows)
}

/// The change of an object set that makes the object of the configuration: `read_config` finds it. `NoMemory` is its only error.
pub fn config_creation(alloc: Global, config: &Config) -> Result<Change, Refusal>
    requires fits { FitsConfig (config_view config.now) }
    requires few { length (config_bytes (config_view config.now)) < 2 ^ 46 }
    ensures good { IfOk result IsGoodChange }
    ensures made { IfOk result (λ change.
        HasConfig (after_change change None) (config_view config.now)) }
    ensures refused { IfErr result (λ refusal. refusal ≡ Refusal.NoMemory) }
{
    let rows = config.encode(alloc)?;
    object_table::creation(alloc, KIND, &rows)
}

/// The change of an object set that writes the object of the configuration anew: `read_config` finds it. The object is there,
/// with the table's type and blocks of 8 sectors. `NoMemory` is the only error.
pub fn config_replacement(alloc: Global, config: &Config) -> Result<Change, Refusal>
    requires fits { FitsConfig (config_view config.now) }
    requires few { length (config_bytes (config_view config.now)) < 2 ^ 46 }
    ensures good { IfOk result IsGoodChange }
    ensures may { IfOk result (λ change. (object : Object) → IsOfKind config_kind object
        → MayChange change (Some object)) }
    ensures made { IfOk result (λ change. (object : Object) → IsOfKind config_kind object
        → HasConfig (after_change change (Some object)) (config_view config.now)) }
    ensures refused { IfErr result (λ refusal. refusal ≡ Refusal.NoMemory) }
{
    let rows = config.encode(alloc)?;
    object_table::replacement(alloc, KIND, &rows)
}
