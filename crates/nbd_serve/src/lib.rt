//! A server of one volume as a network block device, on a reader and a writer, after "The NBD protocol" (`doc/proto.md` of the
//! NetworkBlockDevice project): the fixed newstyle handshake, and the transmission with simple replies.
#![tactic(auto)]

mod answering;
mod course;
mod ended;
mod export;
mod haggling;
mod input;
mod options;
mod output;
mod serving;
mod transmission;
mod verdicts;

pub use ended::Ended;
pub use export::Export;
pub use serving::serve;
