//! Blocks by pointer: where a block is placed on the vdevs of a pool, and how its bytes are read back.
#![tactic(auto)]

mod aside;
mod back;
mod block;
mod choice;
mod create;
mod cursor;
mod device;
mod gone;
mod honest;
mod laws;
mod maps;
mod opening;
mod plan;
mod read;
mod refusal;
mod releasing;
mod shape;
mod space;
mod store;

pub use block::{Asked, CopyCount, NewBlock};
pub use create::{MAX_METASLAB_SHIFT, MIN_METASLAB_SHIFT, VdevConfig, sectors_for_blocks};
pub use laws::{
    blocks_lie_in_sectors, fewer_are_held, fewer_are_planned, found_are_held,
    found_in_use_are_stored, losses_are_not_tolerable, places_spare, reads_spare,
    writes_elsewhere_keep,
};
pub use refusal::Refusal;
pub use shape::VdevShape;
pub use space::VdevMetaslabs;
pub use store::BlockStore;
