//! What is printed of how near the arms came to the zones of a cell.
#![tactic(auto)]

mod clearances;
mod gap;
mod nearest;

pub use clearances::print_clearances;
