//! The kind of a space map's object.
use object_table::{RowShape, TableKind};

/// A space map's object: rows of an entry of 8 bytes each, behind a first row of a word. In this project's profile.
pub const SPACE_MAP_KIND: TableKind = TableKind {
    object_type: 8,
    rows: RowShape {
        first_len: 8,
        row_len: 8,
    },
};
