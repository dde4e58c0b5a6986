//! How rows stand in a table.

/// The bytes of a table's rows.
#[derive(Clone, Copy, PartialEq, Eq)]
pub struct RowShape {
    /// Of the first row, which has the number of the others: from 8 to 4,096.
    pub first_len: usize,
    /// Of each row behind it: from 1 to 4,096.
    pub row_len: usize,
}
