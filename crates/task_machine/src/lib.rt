//! The machine that runs a task's stack code, one request at a time.
#![tactic(auto)]

mod course;
mod laws;
mod living;
mod machine;
mod programs;

pub use laws::machines_ask_what_code_asks;
pub use machine::Machine;
