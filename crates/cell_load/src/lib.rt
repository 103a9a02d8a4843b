//! The texts of the load cell, its script and its modules, by how often each task moves its arm.
#![tactic(auto)]

mod load;
mod modules;
mod script;

pub use load::{Load, make_load};

/// The numbers of the tasks.
const TASKS: [u32; 4] = [1, 2, 3, 4];
