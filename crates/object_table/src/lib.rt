//! Tables in objects, in this project's profile: a first row whose first word is the number of rows after it, and rows of
//! a fixed width.
#![tactic(auto)]

mod ends;
mod extending;
mod kind;
mod making;
mod reading;
mod refusal;
mod rows;
mod shape;

pub use ends::{TableEnd, read_end};
pub use extending::extension;
pub use kind::TableKind;
pub use making::{creation, replacement};
pub use reading::read;
pub use refusal::Refusal;
pub use rows::{BLOCK_LEN, decode, encode};
pub use shape::RowShape;
