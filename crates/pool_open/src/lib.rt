//! Opening a pool: finding it on disks, claiming it, and the core that goes on from its last group.
#![tactic(auto)]

mod again;
mod attempts;
mod children;
mod exporting;
mod finding;
mod handed_in;
mod known;
mod laws;
mod opening;
mod refusal;
mod roots;
mod settling;
mod shapes;
mod tolerance;

pub use again::core_again;
pub use attempts::open_over;
pub use children::children_of;
pub use exporting::{NotExported, export};
pub use finding::{FoundPool, find};
pub use handed_in::{NotOpened, OpenedFrom, into_disks, open};
pub use known::KnownRoot;
pub use laws::{
    alike_stores_hold_alike, claims_keep_what_is_held, claims_spare_blocks,
    exports_may_be_reopened, stopped_can_be_opened, unfailing_opens_claim_once,
};
pub use opening::{OpenedPool, core_over};
pub use pool_core::{
    Core, KnownDisks, NamedShape, Reply, Stamp, Step, VolumeShape, labels_of_opened_lie, plan_with,
    run,
};
pub use pool_format::PoolIdentity;
pub use refusal::Refusal;
pub use roots::{ReadRoot, read_root};
pub use shapes::shapes_of;
