//! Checks that stop at the first error: the words that define them, and the rules of names and types.
#![tactic(auto)]

mod check;
mod fault;
mod rule;
mod spot;

pub use check::{broken, must};
pub use fault::TypeFault;
pub use rule::TypeRule;
pub use spot::Spot;
