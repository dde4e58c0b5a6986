//! A pool that threads share: a core under a lock, beside the record of the steps that it took with their replies.
//!
//! Whenever the lock is free the record replays: from a start that stands for a view, the recorded steps in their order
//! give the recorded replies and the present view. Each thread's calls are steps of that record.
#![tactic(auto)]

mod copies;
mod counts;
mod handles;
mod pool;
mod recorded;
mod refusal;

pub use counts::{Books, Shares};
pub use handles::{Quiescer, Syncer, Writer};
pub use pool::SharedPool;
pub use recorded::{Entry, MOST_SEALED, ROOM, Recorded};
pub use refusal::Refusal;
