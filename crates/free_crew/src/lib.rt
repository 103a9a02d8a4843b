//! Runs each task of a cell on a thread of its own, over whatever machines run the tasks' programs. The cell's gate
//! puts the requests of all threads into one history.
#![tactic(auto)]

mod asking;
mod beginning;
mod crew;
mod free;
mod job;
mod round;
mod standing;
mod threads;

pub use free::run_free;
