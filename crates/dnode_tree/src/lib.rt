//! An object's data as a tree of blocks that are never overwritten: a write makes new blocks up to a new root, and the
//! old tree stays as it was.
#![tactic(auto)]

mod descent;
mod freeing;
mod laws;
mod many;
mod planning;
mod putting;
mod reading;
mod subtree;
mod walking;
mod within;
mod writes;
mod writing;

pub use block_store::Refusal;
pub use freeing::free_blocks;
pub use laws::{
    births_are_within, births_stand_on_their_blocks, blocks_of_trees_are_known, holes_are_trees,
    replaced_blocks_are_freed, trees_stand_on_their_blocks,
};
pub use many::get_many;
pub use putting::put_many;
pub use reading::{DataBlock, get, get_block};
pub use walking::walk;
pub use within::{are_distinct, walk_within, walk_younger};
pub use writes::{BlockWrite, CopyCounts, Rewrite};
