//! Tables by name, case-insensitive.
#![tactic(auto)]

mod key;
mod name_key;
mod not_entered;
mod table;

pub use name_key::NameKey;
pub use not_entered::NotEntered;
pub use table::NameTable;
