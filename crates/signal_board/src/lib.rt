//! The values of a cell's signals.
#![tactic(auto)]

mod signals;

pub use signals::Signals;
