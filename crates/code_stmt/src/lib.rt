//! The code of statements and routines, and the statement that owns each operation.
#![tactic(auto)]

mod arguments;
mod commits;
mod ends;
mod given;
mod marked;
mod needs;
mod own;
mod owned;
mod piece;
mod piece_code;
mod piece_sizes;
mod pieces;
mod routines;
mod runs;
mod sizes;
mod statements;
mod steps;
mod tails;
mod values;
mod written;

pub use marked::{add_marked, emit_routine};
pub use routines::routine_need;
