//! The typed forms of a task's expressions.
#![tactic(auto)]

mod called;
mod callee;
mod check;
mod lending;
mod literals;
mod names;
mod needs;
mod options;
mod place_part;
mod rules;
mod signals;
mod signature;
mod taking;
mod typed_chain;
mod typing;
mod values;
mod want;
mod zone;

pub use callee::Callee;
pub use check::{call_arguments, check_expr, lent_place};
pub use lending::is_fixed;
pub use needs::Needs;
pub use place_part::PlacePart;
pub use signature::{Signature, instruction_signature, routine_signature};
pub use typing::{place, typed};
pub use want::Want;
