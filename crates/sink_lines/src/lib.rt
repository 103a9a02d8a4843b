//! The writing of lines to a sink: which calls of `write` a line takes, what the sink then gained, and what it gained if
//! one of them failed.
#![tactic(auto)]

mod line;
mod write;

pub use line::write_line;
pub use write::write_all;
