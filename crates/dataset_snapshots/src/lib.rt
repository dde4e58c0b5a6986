//! The datasets of a pool under a root: what a root spells, and what it has of a name.
#![tactic(auto)]

mod chaining;
mod clones;
mod contents;
mod finding;
mod first_root;
mod groups;
mod kept;
mod laws;
mod naming;
mod numbering;
mod ranges;
mod walks;
mod writing;

pub use block_store::Refusal;
pub use contents::{RootContents, contents_under};
pub use finding::{Dataset, directory_under, find, find_in};
pub use first_root::{FirstRoot, first_group};
pub use groups::{NextGroup, NextRoot, after_group};
pub use kept::KeptDirectory;
pub use laws::{
    good_changes_may_be_made, losses_by_rows, losses_of_datasets, losses_of_first_groups,
    losses_of_groups, losses_of_ranges, reach_is_known, reaches_lie_apart,
    replaced_of_groups_leave, roots_stay,
};
pub use pool_maps::load_maps;
pub use ranges::{VolumeRange, read_range, read_range_in};
pub use walks::reach;
