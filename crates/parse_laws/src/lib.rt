//! Theorems only: for each part of expressions, each list of tokens has exactly one answer, and the parser's call
//! returns it; NOT applies to the AND after it.
#![tactic(auto)]

mod laws;

pub use laws::{
    args_have_one_answer, exprs_have_one_answer, index_has_one_answer, not_covers_and,
    parts_have_one_answer,
};
