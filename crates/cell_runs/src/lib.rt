//! Machines for the tasks of an accepted cell, and what they do: a run, in turn or on threads, the audit of a history, and
//! the state after one.
#![tactic(auto)]

mod audit;
mod code;
mod crew;
mod round;
mod state;
mod status;
mod threads;

pub use audit::{Audited, audit_history};
pub use code::compile_all;
pub use crew::crew_of;
pub use round::run_tasks;
pub use state::{Stated, state_reached};
pub use status::status_of_run;
pub use threads::free_tasks;
