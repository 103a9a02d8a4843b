//! Theorems only: a legal history of a cell fits the cell's names, so what is printed of it is read as it and as nothing
//! else.
#![tactic(auto)]

mod laws;

pub use laws::{legal_histories_fit_the_names, printed_histories_are_read};
