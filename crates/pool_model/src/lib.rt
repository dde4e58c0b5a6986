//! The abstract machine of the pool: its words, its definitions, and what every run of it tells.
//!
//! The definitions stand in `specs/`. They know nothing of disks' bytes, trees or the code of a core: a core is right
//! where its steps are steps of this machine. `headline_of_runs` then says what a whole run tells its users.
#![tactic(auto)]

mod group;
mod item;
mod laws;
mod refusal;
mod shared_bytes;
mod step;
mod text;
mod volume;

pub use group::{Holder, Stage};
pub use item::{Action, Change, Item, Write};
pub use laws::{
    commits_leave_no_call, dropped_plans_leave_their_groups, flows_are_once_in_order,
    headline_of_runs, names_tell_snapshots, plans_are_made_by_their_commit, pools_are_maps,
    pools_ascend_by_name, runs_keep_flows_sound, runs_keep_views_sound, steps_follow_runs,
    steps_move_groups, steps_without_a_cause_may_be_answered,
};
pub use refusal::Refusal;
pub use shared_bytes::Bytes;
pub use step::{Phase, Reply, Step};
pub use text::Name;
pub use volume::{PlainVolume, VolumeBytes, VolumeKind};
