//! The space maps of a pool: for each metaslab before the meta regions what it leaves unused, as objects of the meta object set.
//! They are loaded as a pool is opened, and changed by the plan of each group.
#![tactic(auto)]

mod changing;
mod judging;
mod laws;
mod loading;
mod planning;
mod putting;
mod reading;
mod steps;
mod update;

pub use block_store::Refusal;
pub use laws::{
    blocks_lie_by_their_copies, empty_stores_are_free_before, loaded_maps_are_of_their_blocks,
    maps_are_those_of_the_whole_plan, maps_follow_marks, maps_for_blocks_are_of_their_marks,
    maps_for_blocks_stay, maps_of_marks_are_for_their_blocks, maps_stay_as_plans_begin,
    meta_blocks_leave_the_others, new_pools_have_no_maps, other_objects_have_no_maps,
    read_maps_stay, short_maps_can_be_loaded, stored_blocks_can_be_given_back,
};
pub use loading::load_maps;
pub use planning::{first_maps, plan_maps};
pub use reading::{FreeMetaslab, read_maps};
