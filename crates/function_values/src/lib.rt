//! The results of the predefined functions of values (RAPID Instructions, Functions and Data types).
#![tactic(auto)]

mod functions;
mod num_text;

pub use functions::{num_of, value_of, value_of_two};
