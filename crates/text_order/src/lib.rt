//! Theorems only: the statements of a module are in the order of its text, so in each accepted task a GOTO has one
//! label.
#![tactic(auto)]

mod laws;

pub use laws::{accepted_jumps_have_one_label, statements_stand_in_order};
