//! The meetings of a cell's tasks.
#![tactic(auto)]

mod arrived;
mod meetings;
mod stand;

pub use arrived::Arrived;
pub use meetings::Meetings;
pub use stand::Stand;
