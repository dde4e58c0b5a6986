//! Kinds of tables.
use crate::shape::RowShape;

/// What an object with a table is.
#[derive(Clone, Copy, PartialEq, Eq)]
pub struct TableKind {
    /// The object's type, above 0.
    pub object_type: u8,
    pub rows: RowShape,
}
