//! Theorems only: the cell of a script and of its tasks' trees is the one that the declarations and the script say, and
//! a refusal names the first thing that is wrong.
#![tactic(auto)]

mod laws;

pub use laws::cells_are_right;
