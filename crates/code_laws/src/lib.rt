//! Theorems only, about compiled code. After any answers it is in the same state as its tree, with the same data and
//! the same request, and each part of it does what that part of the tree does. The code of a checked tree is live, and
//! the answers that fit it are those that fit the tree.
#![tactic(auto)]

mod laws;

pub use laws::{
    code_without_an_arm_needs_none, compiled_code_asks_as_its_tree, compiled_code_has_its_routines,
    compiled_code_is_live, expression_code_does_as_its_expression,
    routine_code_does_as_its_routine, well_typed_trees_are_orderly,
};
