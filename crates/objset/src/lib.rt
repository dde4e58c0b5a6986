//! The objects of an object set as a map from number to array: read block by block, and changed together in a transaction group.
//! Its dnodes by number: they stand 32 in a block, in the data of the object of the dnodes.
#![tactic(auto)]

mod changes;
mod changing;
mod finding;
mod laws;
mod many;
mod node_blocks;
mod node_changes;
mod node_putting;
mod node_reading;
mod node_slots;
mod node_walks;
mod node_writes;
mod object_sets;
mod reading;
mod set_blocks;
mod shape;
mod within;

pub use block_store::Refusal;
pub use changes::{Change, ObjectChange, SetCopies};
pub use changing::change;
pub use dnode_tree::BlockWrite;
pub use finding::find;
pub use laws::{objects_stand_on_their_blocks, replaced_blocks_of_sets_are_freed};
pub use many::get_many;
pub use node_putting::put_many;
pub use node_reading::{FoundDnode, get as get_node};
pub use node_walks::{FoundNode, FoundNodes, nodes_within, nodes_younger};
pub use node_writes::{NodeWrite, SetRewrite};
pub use object_sets::read_set;
pub use reading::{get, walk};
pub use set_blocks::plan_set;
pub use shape::ObjectShape;
pub use within::{walk_within, walk_younger};
