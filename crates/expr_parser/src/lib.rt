//! Expressions: which tokens spell one, and its tree. Besides `parse_expr` there are the parts that the parsers of
//! statements and modules use, for the `Parser` that they share.
#![tactic(auto)]

mod args;
mod chains;
mod laws;
mod level;
mod levels;
mod operators;
mod parse;
mod primary;

pub use args::args_if_any;
pub use chains::expr;
pub use laws::one_answer;
pub use levels::{exprs, index};
pub use parse::parse_expr;
pub use primary::{name, place_parts};
