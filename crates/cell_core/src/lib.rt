//! The shared cell: it answers one request at a time and keeps the history.
#![tactic(auto)]

mod actor;
mod boards;
mod change;
mod changed;
mod fits;
mod inputs;
mod interrupts;
mod meetings;
mod motion;
mod outcome;
mod outputs;
mod paths;
mod report;
mod served;
mod shared;
mod starting;
mod values;
mod zones;

pub use served::Served;
pub use shared::Core;
