//! Name-value lists as bytes, big-endian in the manner of XDR (RFC 4506). The types of values have the
//! numbers of libnvpair; the layout is this project's profile.
#![tactic(auto)]

mod list;
mod reading;
mod refusal;
mod text;
mod writing;

pub use list::{NvList, Pair, Value};
pub use reading::decode;
pub use refusal::Refusal;
pub use writing::encode;
