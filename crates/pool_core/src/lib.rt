//! A pool's core: the pure machine over disks. Each step is one of the machine of pool_model, and whole runs carry its
//! headline.
#![tactic(auto)]

mod absence;
mod exporting;
mod honest;
mod pool;
mod reading;
mod reopening;
mod runs;
mod shared;
mod syncing;
mod workers;

pub use pool::Core;
pub use pool_commit::{KnownDisks, RootContents, Stamp, contents_under, labels_of_opened_lie};
pub use pool_model::{Action, Bytes, Change, Name, Phase, Refusal, Reply, Step, Write};
pub use runs::run;
pub use volume_rules::{NamedShape, VolumeShape};
pub use workers::plan_with;
