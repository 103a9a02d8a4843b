//! The values of expressions that are known before the run: initial values and array lengths.
#![tactic(auto)]

mod arrays;
mod components;
mod elements;
mod evaluate;
mod operands;
mod outcome;

pub use arrays::Arrays;
pub use evaluate::{are_constant, constant_value, is_constant};
pub use outcome::Outcome;
