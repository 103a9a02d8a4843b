//! Statements: which tokens spell a list of them, and its tree. Besides `parse_list` there is `list`, for the `Parser`
//! that all parsers share.
#![tactic(auto)]

mod blocks;
mod exprs;
mod laws;
mod named;
mod parse;
mod simple;
mod statements;

pub use laws::one_list;
pub use parse::parse_list;
pub use statements::list;
