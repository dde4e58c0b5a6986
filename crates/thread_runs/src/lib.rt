//! Lines of writers that are sent by threads, over a pool that the threads share; and the record of what was done, printed as
//! a schedule that replays.
#![tactic(auto)]

mod dealing;
mod printing;
mod record;
mod refusal;
mod rounds;
mod seats;
mod signals;
mod syncing;
mod thread_lines;
mod writer_line;
mod writing;

pub use refusal::Refusal;
pub use rounds::run_in_threads;
pub use thread_lines::ThreadLines;
pub use writer_line::{Ask, WriterLine};
