//! Transaction groups in flow: who holds which group, what each uncommitted group has accepted, and in what order groups
//! are closed, quiesced, taken to be synced and committed. At most one group is open, one waits and one is synced
//! (OpenZFS zpoolconcepts(7); the numbers and limits are this project's profile).
#![tactic(auto)]

mod calls;
mod pending;
mod pipeline;
mod places;
mod refusal;

pub use calls::{Answer, Call, run};
pub use pending::Pending;
pub use pipeline::Pipeline;
pub use places::PIECE_BYTES;
pub use refusal::Refusal;
