//! The compiler of a checked task: it links the code of its routines with tables of data, names and types. The code is
//! live and asks what the tree asks.
#![tactic(auto)]

mod compiler;
mod data;
mod firsts;
mod link;
mod linked;
mod routines;
mod rows;

pub use compiler::compile;
pub use link::link_routines;
