//! What a stop leaves of a pool that runs with no disk out, and what an open makes of it. The bytes that are filled are the tree of each root: with
//! them each step of a core goes through the phases of a commit, at any moment of which the disks lead to the pool. Such disks may then be handed in
//! in any order, and the pool of a possible group is found on them.
#![tactic(auto)]

mod configured;
mod finding;
mod laws;
mod opening;
mod running;
mod stopping;
mod whole_pools;

pub use configured::{
    created_pools_are_configured, created_pools_run_as, exports_stay_configured,
    held_labels_are_left, held_labels_stay_held, left_disks_are_configured,
    opened_pools_are_configured, opened_pools_run_as, opens_stay_configured, runs_stop_as,
    steps_stay_configured, stopped_exports_show_config, stopped_opens_are_of_config,
    stopped_opens_show_config, stopped_runs_show_config,
};
pub use finding::{found_disks_may_be_opened, own_disks_are_found, own_disks_are_ordered};
pub use laws::{
    backed_plans_are_good, blocks_keep_what_is_filled, commits_end_filled, created_pools_run,
    due_writes_are_unfilled, filled_bytes_are_for_blocks, filled_trees_hold_blocks,
    free_places_are_unfilled, led_disks_open, phases_end, phases_go_on, plans_keep_the_phase,
    reads_keep_the_phase, running_pools_step_on, runs_outlive_stops, runs_stop_well,
    slots_begin_behind_blocks, slots_keep_what_is_for_blocks, stopped_exports_lead,
    stopped_opens_lead, stopped_steps_lead, stored_blocks_are_in_use,
};
pub use opening::{
    disks_may_be_handed_in, disks_may_be_handed_on, own_pools_open_again, own_pools_open_without,
    stopped_exports_lead_to_own_pools, stopped_opens_lead_to_own_pools,
    stopped_runs_lead_to_own_pools, stopped_steps_lead_to_own_pools,
};
pub use running::{
    created_pools_are_on_their_disks, none_was_out, opened_pools_are_on_their_disks,
    runs_stay_on_their_disks, steps_stay_on_their_disks,
};
pub use stopping::{
    own_disks_show_at_most_three_configurations, possible_configurations_are_shown,
    stopped_exports_leave_disks, stopped_opens_are_of_sum, stopped_opens_leave_disks,
    stopped_runs_leave_disks,
};
pub use whole_pools::{
    fault_free_opens_succeed, stopped_exports_lead_whole, stopped_exports_reopen,
    stopped_opens_lead_whole, stopped_opens_reopen, stopped_runs_lead_whole, stopped_runs_reopen,
};
