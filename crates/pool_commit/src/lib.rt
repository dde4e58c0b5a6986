//! The committed half of a pool's core: the blocks of kept groups over disks, the plan of the group that is synced, and
//! the device calls that commit it. It knows nothing of writers, holds and pending items.
#![tactic(auto)]

mod absence;
mod commit;
mod config;
mod device;
mod honest;
mod kept;
mod last;
mod laws;
mod plan;
mod reading;
mod refusal;
mod reopening;
mod stamp;
mod suspension;

pub use commit::Commit;
pub use config::config_of;
pub use dataset_snapshots::{RootContents, contents_under};
pub use device::Progress;
pub use kept::{Kept, KeptGroup, Planned};
pub use laws::{labels_of_opened_lie, no_room_is_lost};
pub use refusal::Refusal;
pub use reopening::KnownDisks;
pub use stamp::Stamp;
