//! Schedules of which threads run a part: the lines before `threads` are run in order, those behind it by threads.
#![tactic(auto)]

mod back;
mod begun;
mod core_pool;
mod front;
mod running;
mod stage;

pub use begun::SharedPlanner;
pub use core_pool::CorePool;
pub use running::schedule_in_threads;
pub use stage::Stage;
