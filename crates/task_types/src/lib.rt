//! The typed tree of a task's modules.
#![tactic(auto)]

mod bodies;
mod check;
mod main_routine;
mod meetings;
mod names;
mod params;
mod routine;
mod routine_data;
mod routine_list;
mod typed_handler;

pub use check::check_task;
