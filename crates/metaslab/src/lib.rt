//! Metaslabs: which sectors of a part of a vdev may be handed out. What a group releases is handed out
//! again three groups later, and not while a group that may still read it is pinned. And the laws of free space over
//! any list of steps that the metaslabs of a pool take. The metaslabs of a vdev stand together in a group: each as the last
//! committed group left it and as the plan of the next one has it.
#![tactic(auto)]

mod allocating;
mod by_size;
mod free_runs;
mod free_space;
mod group;
mod laws;
mod planned;
mod refusal;
mod settling;
mod sharing;

pub use allocating::Metaslab;
pub use group::MetaslabGroup;
pub use laws::{
    dropped_plans_change_nothing, space_is_accounted, steps_follow_runs, unused_sectors_are_sets,
};
pub use planned::PlannedMetaslab;
pub use refusal::Refusal;
