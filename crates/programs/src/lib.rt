//! The work of the programs, over readers and writers: `schedule` runs a schedule against any
//! pool.
#![tactic(auto)]

mod claim_stops;
mod commands;
mod disk_pool;
mod disks_kept;
mod lines;
mod machine;
mod making;
mod outcome;
mod pool_on_disks;
mod refusal;
mod running;
mod schedule_pool;
mod status;
mod stopping;

pub use command_steps::written_len;
pub use commands::answer;
pub use disk_pool::schedules_are_runs;
pub use line_steps::{first_step, next_step};
pub use lines::Lines;
pub use machine::StepMachine;
pub use outcome::{Outcome, outcome_text};
pub use planners::{Alone, Planner, Workers};
pub use pool_create::Core;
pub use pool_on_disks::{PoolOnDisks, commands_are_runs, stopped_commits_are_runs};
pub use refusal::Refusal;
pub use running::schedule;
pub use schedule_pool::SchedulePool;
pub use status::ExitStatus;
