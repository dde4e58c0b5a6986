//! Making a pool on disks that show none: its first group is committed, and then their labels are written.
#![tactic(auto)]

mod first_group;
mod guids;
mod handing_in;
mod judging;
mod labeling;
mod making;
mod planning;
mod reading_back;
mod slots;
mod steps;
mod surveying;

pub use handing_in::create;
pub use making::create_over;
pub use pool_open::{
    Core, FoundPool, NamedShape, NotExported, NotOpened, OpenedFrom, OpenedPool, PoolIdentity,
    Refusal, VolumeShape, export, find, open, open_over, plan_with, unfailing_opens_claim_once,
};
