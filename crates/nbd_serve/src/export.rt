//! The export.
use pool_model::Name;

/// What a client is told of the one export.
#[derive(Drop)]
pub struct Export {
    /// The name by which a client asks for it. The empty name is the default export, and so this one too.
    pub name: Name,
    /// In bytes.
    pub size: u64,
    /// It can't be written, as a snapshot.
    pub read_only: bool,
}
