//! The texts of strings.
#![tactic(auto)]

mod first;
mod text;

pub use text::text_of;
