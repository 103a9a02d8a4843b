//! Theorems only: which expressions, statements and modules of a task are well typed, as facts without an order, and
//! that checking accepts exactly these.
#![tactic(auto)]

mod expressions;
mod statements;
mod tasks;

pub use expressions::{expressions_are_typed, expressions_have_one_form};
pub use statements::{statements_are_typed, statements_have_one_form};
pub use tasks::{tasks_are_typed, tasks_have_one_tree};
