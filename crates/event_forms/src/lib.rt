//! Events of every form, with the longest parts that they may have: for tests and measurements of a history in pages.
#![tactic(auto)]

mod events;
mod longest;

pub use events::{FORMS, event};
pub use longest::Longest;
