//! The interface of a machine that runs the program of a task (the trait `TaskMachine`), and the round-robin run: tasks
//! in script order, then the input script, one event each per round.
#![tactic(auto)]

mod asking;
mod machine;
mod ran;
mod round;
mod script;
mod turn;

pub use asking::ask_first;
pub use machine::TaskMachine;
pub use ran::Ran;
pub use round::run_round;
