//! The pool's own tables, in this project's profile: what their rows mean, and how they stand in the meta object set.
#![tactic(auto)]

mod config;
mod datasets;
mod directory;
mod empty;
mod names;
mod reading;
mod record;
mod space_maps;
mod stale_spans;
mod word_rows;

pub use config::{config_creation, config_replacement, decode_config, encode_config};
pub use datasets::{read_record, record_change, record_creation};
pub use directory::{Directory, DirectoryRow};
pub use empty::EMPTY;
pub use names::{is_name, padded, unpadded};
pub use object_table::Refusal;
pub use reading::{read_config, read_directory, read_space_maps, read_stale_spans};
pub use record::{DatasetKind, DatasetRecord};
pub use space_maps::{MetaslabMap, MetaslabPlace, SPACE_MAPS_KIND, SpaceMaps};
pub use stale_spans::{STALE_SPANS_KIND, StaleSpan, StaleSpans};
