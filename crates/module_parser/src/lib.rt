//! Modules: which texts spell one, and its tree.
#![tactic(auto)]

mod body;
mod data;
mod items;
mod laws;
mod module;
mod optional;
mod params;
mod parse;
mod words;

pub use laws::one_module;
pub use parse::parse_module;
