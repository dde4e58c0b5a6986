//! Rows of tables as the bytes of whole blocks: rows of any kind, and those of the pool's own tables.
ghost use Rattle.std.specs.Prelude.{◌*◌, ◌/◌, ◌^◌, ◌<◌, length, IfSome};
ghost use Rattle.object_table.specs.Shape.{AreRows, FitsShape};

use crate::cases::{FORMS, OBJECTS, wrong_of};
use crate::lines::Call;
use crate::texts::told;
use dead_list_objects::DEAD_LIST_KIND;
use meta_objset::{
    Directory, MetaslabMap, MetaslabPlace, Refusal, SpaceMaps, StaleSpan, StaleSpans, is_name,
    padded,
};
use object_table::{RowShape, TableKind};
use space_map_objects::SPACE_MAP_KIND;
use std::alloc::{AllocError, Global};
use std::test::Fail;

/// Rows of 32 bytes.
const SHORT: TableKind = TableKind {
    object_type: 210,
    rows: RowShape {
        first_len: 32,
        row_len: 32,
    },
};

/// Rows of 1,000 bytes, the fifth of which goes on in the second block.
const LONG: TableKind = TableKind {
    object_type: 211,
    rows: RowShape {
        first_len: 32,
        row_len: 1000,
    },
};

/// Rows of one byte behind a first row of a word.
const BYTES: TableKind = TableKind {
    object_type: 212,
    rows: RowShape {
        first_len: 8,
        row_len: 1,
    },
};

/// What is put into tables: names, spans and space maps; and the bytes that were written last. `rows`
/// has bytes taken for those. `insert`, `set`, `remove` and `find` are of one row: a name's object and its bytes, a disk and the first and
/// last group of its span, or a vdev, a metaslab and the object of its map. `encode` writes rows as bytes, and `decode` reads them again, where
/// it has two numbers with another byte at a place.
#[derive(Drop)]
pub(crate) struct Forms {
    pub(crate) names: Directory,
    pub(crate) spans: StaleSpans,
    pub(crate) maps: SpaceMaps,
    pub(crate) bytes: Vec<u8>,
}

pub(crate) fn kind_of(word: &str) -> TableKind
    ensures shape { FitsShape result.rows }
    ensures used { 0 < result.object_type }
{
    match word {
        "short" => SHORT,
        "long" => LONG,
        "dead" => DEAD_LIST_KIND,
        "map" => SPACE_MAP_KIND,
        _ => BYTES,
    }
}

/// The bytes of a call, where they are whole rows.
pub(crate) fn whole_rows<'a>(kind: &TableKind, call: &'a Call) -> Option<&'a [u8]>
    requires { FitsShape kind.now.rows }
    ensures rows { IfSome result (λ rows.
        AreRows kind.now.rows (length rows.now / kind.now.rows.row_len) rows.now) }
    ensures some { IfSome result (λ rows. 0 < length rows.now) }
    ensures few { IfSome result (λ rows. length rows.now < 2 ^ 46) }
{
    let rows = call.bytes.as_slice();
    if !rows.is_empty() && rows.len() < 1 << 46 && rows.len() % kind.rows.row_len == 0 {
        Some(rows)
    } else {
        None
    }
}

impl Forms {
    pub(crate) fn new(alloc: Global) -> Forms {
        Forms {
            names: Directory::new(alloc),
            spans: StaleSpans::new(alloc),
            maps: SpaceMaps::new(alloc),
            bytes: Vec::new(alloc),
        }
    }

    /// What comes of a call on one row.
    fn row(&mut self, alloc: Global, call: &Call) -> Result<String, Fail> {
        let (first, second, third) = (call.number(0), call.number(1), call.number(2));
        let metaslab = MetaslabPlace {
            vdev: first,
            index: second,
        };
        let name = padded(&call.bytes).unwrap_or([0; 56]);
        let text = match (call.verb, call.kind) {
            ("insert", "names") if is_name(&name) => {
                format!(in alloc; "{}", self.names.insert(&name, first)?)
            }
            ("remove", "names") => format!(in alloc; "{:?}", self.names.remove(&name)),
            ("set", "spans") if second <= third => {
                let span = StaleSpan {
                    disk: first,
                    from: second,
                    to: third,
                };
                self.spans.set(span)?;
                format!(in alloc; "ok")
            }
            ("remove", "spans") => format!(in alloc; "{}", self.spans.remove(first).is_some()),
            ("find", "spans") => match self.spans.get(first) {
                Some(span) => format!(in alloc; "{} {} {}", span.disk, span.from, span.to),
                None => format!(in alloc; "none"),
            },
            ("set", "maps") => {
                let object = third;
                self.maps.set(MetaslabMap { metaslab, object })?;
                format!(in alloc; "ok")
            }
            ("remove", "maps") => format!(in alloc; "{}", self.maps.remove(metaslab).is_some()),
            ("find", "maps") => match self.maps.get(metaslab) {
                Some(map) => {
                    let place = map.metaslab;
                    format!(in alloc; "{} {} {}", place.vdev, place.index, map.object)
                }
                None => format!(in alloc; "none"),
            },
            _ => return Err(Fail::new(format_args!("no call {} {}", call.verb, call.kind))),
        };
        Ok(text?)
    }

    /// The bytes of a table, or of the rows of a call.
    pub(crate) fn encoded(&self, alloc: Global, call: &Call) -> Result<Vec<u8>, Refusal> {
        match call.kind {
            "names" if self.names.rows().len() < 1000 => self.names.encode(alloc),
            "spans" if self.spans.rows().len() < 1000 => self.spans.encode(alloc),
            "maps" if self.maps.rows().len() < 1000 => self.maps.encode(alloc),
            _ => {
                let kind = kind_of(call.kind);
                match whole_rows(&kind, call) {
                    Some(rows) => object_table::encode(alloc, kind.rows, rows),
                    None => Err(Refusal::BadPointer),
                }
            }
        }
    }

    /// Reads the table that bytes spell, or the rows.
    fn decode(&mut self, alloc: Global, call: &Call, bytes: &[u8]) -> Result<Vec<u8>, Refusal> {
        match call.kind {
            "names" => self.names = Directory::decode(alloc, bytes)?,
            "spans" => self.spans = StaleSpans::decode(alloc, bytes)?,
            "maps" => self.maps = SpaceMaps::decode(alloc, bytes)?,
            kind => return object_table::decode(alloc, kind_of(kind).rows, bytes),
        }
        self.encoded(alloc, call)
    }

    pub(crate) fn answer(&mut self, alloc: Global, call: &Call) -> Result<String, Fail> {
        let done = match call.verb {
            "rows" => Ok(call.bytes.clone()?),
            "encode" => self.encoded(alloc, call),
            "decode" => {
                let mut bytes = self.bytes.clone()?;
                if let [place, byte] = call.numbers.as_slice()
                    && let Some(old) = bytes.get_mut(*place as usize)
                {
                    *old = (*byte % 256) as u8;
                }
                self.decode(alloc, call, &bytes)
            }
            _ => return self.row(alloc, call),
        };
        match done {
            Ok(bytes) => {
                let text = told(alloc, &bytes)?;
                if call.verb != "decode" {
                    self.bytes = bytes;
                }
                Ok(text)
            }
            Err(refusal) => Ok(format!(in alloc; "{refusal:?}")?),
        }
    }
}

#[test]
fn tables_are_read_as_they_were_written(rt: HostRuntime) -> Result<(), Fail> {
    let wrong = wrong_of(&rt, rt.alloc(), [FORMS, OBJECTS])?;
    assert!(rt; wrong.is_empty(), "{wrong}");
    Ok(())
}
