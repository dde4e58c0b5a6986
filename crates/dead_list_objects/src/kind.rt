//! The kind of a dead list's object.
use object_table::{RowShape, TableKind};

/// A dead list's object: rows of a block pointer of 128 bytes each, behind a first row as long. In this project's profile.
pub const DEAD_LIST_KIND: TableKind = TableKind {
    object_type: 202,
    rows: RowShape {
        first_len: 128,
        row_len: 128,
    },
};
